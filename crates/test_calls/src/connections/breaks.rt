//! Tests in which the reader and the writer fail after 0, 1, 2, .. calls: the output is a prefix of
//! the response, and the service has performed the request, or nothing if the request couldn't be
//! read to its end.
use crate::connections::counter::{CountingService, PAGE, serve_counting};
use std::alloc::{AllocError, Global};
use std::process::Abort;
use test_devices::{Filling, Halting};
use thes_base::pipe::Pipe;
use thes_http::Status;
use thes_http::connection::ConnectionEnd;

// A row of a table: a request, the status of its response, the number of operations performed, and
// the response.
type FaultCase = (&'static [u8], Status, u32, &'static str);

// The outcome of a connection, the number of operations performed, and the bytes written.
type ObservedEnd = (ConnectionEnd, u32, Vec<u8>);

// A request, with the outcome of its connection if nothing fails: the status, the number of
// operations performed, and the response.
#[derive(Clone, Copy)]
struct Whole<'a> {
    request: &'a [u8],
    status: Status,
    performed: u32,
    answer: &'a [u8],
}

// Serves a request with a reader that fails after `reads` calls, and a writer that fails after
// `writes` calls or, if `is_full`, then accepts no byte.
fn serve_with_faults(
    alloc: Global,
    request: &[u8],
    reads: u32,
    writes: u32,
    is_full: bool,
) -> ObservedEnd {
    let mut reader = Pipe::new(Halting {
        bytes: request,
        calls: reads,
    });
    let mut writer = Pipe::new(Filling {
        bytes: Vec::new(alloc),
        calls: writes,
        is_full,
    });
    let mut counter = CountingService { performed: 0 };
    let served = serve_counting(alloc, &mut reader, &mut writer, &mut counter);
    (served, counter.performed, writer.into_device().bytes)
}

// Returns the number of bytes that a reader yields before it fails: three at every other call.
fn bytes_before_read_fault(reads: u32) -> usize {
    (reads as usize).div_ceil(2) * 3
}

// Returns the number of bytes that a writer accepts before it fails: one at every other call.
fn bytes_before_write_fault(writes: u32) -> usize {
    (writes as usize).div_ceil(2)
}

// Returns the expected outcome of a connection, number of operations performed, and bytes written.
fn expected_end(whole: Whole<'_>, reads: u32, writes: u32) -> (ConnectionEnd, u32, &[u8]) {
    let Whole {
        request,
        status,
        performed,
        answer,
    } = whole;
    if bytes_before_read_fault(reads) < request.len() {
        return (ConnectionEnd::ReadFault, 0, b"");
    }
    match answer.get(..bytes_before_write_fault(writes)) {
        Some(front) if front.len() < answer.len() => (ConnectionEnd::WriteFault, performed, front),
        _ => (ConnectionEnd::Answered(status), performed, answer),
    }
}

// Compares the outcome of a connection with the expected one, for one reader and one writer.
fn expect(rt: &impl Abort, alloc: Global, whole: Whole<'_>, reads: u32, writes: u32) {
    let request = whole.request;
    let (end, count, front) = expected_end(whole, reads, writes);
    let (served, performed, written) = serve_with_faults(
        alloc,
        request,
        reads,
        writes,
        writes % 4 < 2,
    );
    assert_eq!(rt; served, end, "{request:?} {reads} {writes}");
    assert_eq!(rt; performed, count, "{request:?} {reads} {writes}");
    assert_eq!(rt; written.as_slice(), front, "{request:?} {reads} {writes}");
}

// Returns the number of writers to try with a reader: two if it fails within the request, `most` if
// it yields exactly the request, and none if it could yield more.
fn writers(len: usize, reads: u32, most: u32) -> u32 {
    match bytes_before_read_fault(reads) {
        part if part < len => 2,
        all if all - len < 3 => most,
        _ => 0,
    }
}

// Tests one reader with writers that fail after 0, 1, 2, .. calls, as many as `writers` says.
fn expect_writers(rt: &impl Abort, alloc: Global, whole: Whole<'_>, reads: u32, most: u32) {
    for writes in 0..writers(whole.request.len(), reads, most) {
        expect(rt, alloc, whole, reads, writes);
    }
}

// Tests each reader that fails after fewer than `most.0` calls, with writers that fail after fewer
// than `most.1` calls.
fn expect_pairs(rt: &impl Abort, alloc: Global, whole: Whole<'_>, most: (u32, u32)) {
    for reads in 0..most.0 {
        expect_writers(rt, alloc, whole, reads, most.1);
    }
}

static ROWS: [FaultCase; 17] = [
    (
        b"POST /requests HTTP/1.1\r\nContent-Length: 29\r\n\r\n{\"do\":\"withdraw\",\"posting\":1}",
        Status::Fine,
        1,
        "HTTP/1.1 200 OK\r\nContent-Type: application/json\r\nContent-Length: 9\r\n\
        Connection: close\r\n\r\n{\"ok\":1}\n",
    ),
    (
        b"POST /requests HTTP/1.1\r\nContent-Length: 30\r\n\r\n\
        {\"do\":\"deprecate\",\"concept\":1}",
        Status::Conflict,
        0,
        "HTTP/1.1 409 Conflict\r\nContent-Type: application/json\r\nContent-Length: 22\r\n\
        Connection: close\r\n\r\n{\"no\":\"SameResource\"}\n",
    ),
    (
        b"POST /requests HTTP/1.1\r\nContent-Length: 16\r\n\r\n{\"get\":\"totals\"}",
        Status::BadRequest,
        0,
        "HTTP/1.1 400 Bad Request\r\nContent-Type: application/json\r\nContent-Length: 19\r\n\
        Connection: close\r\n\r\n{\"bad\":\"BadShape\"}\n",
    ),
    (
        b"POST /import HTTP/1.1\r\nContent-Length: 4\r\n\r\na,b\n",
        Status::Fine,
        1,
        "HTTP/1.1 200 OK\r\nContent-Type: text/csv; charset=utf-8\r\nContent-Length: 4\r\n\
        Connection: close\r\n\r\na,b\n",
    ),
    (
        b"GET /totals HTTP/1.1\r\n\r\n",
        Status::Fine,
        0,
        "HTTP/1.1 200 OK\r\nContent-Type: application/json\r\nContent-Length: 42\r\n\
        Connection: close\r\n\r\n{\"accepted\":0,\"standing\":0,\"withdrawn\":0}\n",
    ),
    (
        b"GET /concepts/2 HTTP/1.1\r\n\r\n",
        Status::NotFound,
        0,
        "HTTP/1.1 404 Not Found\r\nContent-Type: application/json\r\nContent-Length: 25\r\n\
        Connection: close\r\n\r\n{\"no\":\"UnknownResource\"}\n",
    ),
    (
        b"GET /concepts/2/postings HTTP/1.0\r\n\r\n",
        Status::NotFound,
        0,
        "HTTP/1.1 404 Not Found\r\nContent-Type: application/json\r\nContent-Length: 25\r\n\
        Connection: close\r\n\r\n{\"no\":\"UnknownResource\"}\n",
    ),
    (
        b"GET /postings/0 HTTP/1.1\r\n\r\n",
        Status::BadRequest,
        0,
        "HTTP/1.1 400 Bad Request\r\nContent-Type: application/json\r\nContent-Length: 20\r\n\
        Connection: close\r\n\r\n{\"bad\":\"BadNumber\"}\n",
    ),
    (
        b"GET /export HTTP/1.1\r\n\r\n",
        Status::Fine,
        0,
        "HTTP/1.1 200 OK\r\nContent-Type: application/n-triples\r\nContent-Length: 20\r\n\
        Connection: close\r\n\r\n<a:b> <a:c> <a:d> .\n",
    ),
    (
        b"GET /display/alphabetical?scheme=1&lang=en HTTP/1.1\r\n\r\n",
        Status::Fine,
        0,
        "HTTP/1.1 200 OK\r\nContent-Type: text/plain; charset=utf-8\r\nContent-Length: 2\r\n\
        Connection: close\r\n\r\nen",
    ),
    (
        b"GET /display/hierarchical?scheme=1 HTTP/1.1\r\n\r\n",
        Status::BadRequest,
        0,
        "HTTP/1.1 400 Bad Request\r\nContent-Type: application/json\r\nContent-Length: 19\r\n\
        Connection: close\r\n\r\n{\"bad\":\"BadQuery\"}\n",
    ),
    (
        b"GET /nothing HTTP/1.1\r\n\r\n",
        Status::NotFound,
        0,
        "HTTP/1.1 404 Not Found\r\nContent-Type: application/json\r\nContent-Length: 21\r\n\
        Connection: close\r\n\r\n{\"bad\":\"NoSuchPath\"}\n",
    ),
    (
        b"DELETE /totals HTTP/1.1\r\n\r\n",
        Status::MethodNotAllowed,
        0,
        "HTTP/1.1 405 Method Not Allowed\r\nContent-Type: application/json\r\n\
        Content-Length: 20\r\nConnection: close\r\nAllow: GET\r\n\r\n{\"bad\":\"BadMethod\"}\n",
    ),
    (
        b"POST /requests HTTP/1.1\r\n\r\n",
        Status::LengthRequired,
        0,
        "HTTP/1.1 411 Length Required\r\nContent-Type: application/json\r\nContent-Length: 19\r\n\
        Connection: close\r\n\r\n{\"bad\":\"NoLength\"}\n",
    ),
    (
        b"POST /import HTTP/1.1\r\nContent-Length: +1\r\n\r\n",
        Status::BadRequest,
        0,
        "HTTP/1.1 400 Bad Request\r\nContent-Type: application/json\r\nContent-Length: 18\r\n\
        Connection: close\r\n\r\n{\"bad\":\"BadHead\"}\n",
    ),
    (
        b"POST /import HTTP/1.1\r\nContent-Length: 16777217\r\n\r\n",
        Status::PayloadTooLarge,
        0,
        "HTTP/1.1 413 Payload Too Large\r\nContent-Type: application/json\r\nContent-Length: 18\r\n\
        Connection: close\r\n\r\n{\"bad\":\"TooLong\"}\n",
    ),
    (
        b"POST /import HTTP/1.1\r\nTransfer-Encoding: a\r\n\r\n",
        Status::NotImplemented,
        0,
        "HTTP/1.1 501 Not Implemented\r\nContent-Type: application/json\r\nContent-Length: 25\r\n\
        Connection: close\r\n\r\n{\"bad\":\"TransferCoding\"}\n",
    ),
];

// The numbers of calls of a reader and of a writer that are enough for the longest request, of 77
// bytes, and the longest response, of 138.
static CALLS: (u32, u32) = (54, 284);

#[test]
fn what_breaks_leaves_a_front_of_the_answer(rt: HostRuntime) {
    for (request, status, performed, answer) in &ROWS {
        let whole = Whole {
            request,
            status: *status,
            performed: *performed,
            answer: answer.as_bytes(),
        };
        expect_pairs(&rt, rt.alloc(), whole, CALLS);
    }
}

static LONG: &[u8] = b"GET /display/hierarchical?scheme=3&lang=en HTTP/1.1\r\n\r\n";

// Returns the response to `LONG`. Its head and body are written one after the other, since together
// they exceed 512 bytes.
fn long_answer(alloc: Global) -> Result<Vec<u8>, AllocError> {
    let head =
        b"HTTP/1.1 200 OK\r\nContent-Type: text/plain; charset=utf-8\r\nContent-Length: 600\r\n\
        Connection: close\r\n\r\n";
    let mut answer = Vec::from_slice(alloc, head)?;
    answer.extend_from_slice(&PAGE)?;
    Ok(answer)
}

#[test]
fn what_breaks_leaves_a_front_of_a_long_answer(rt: HostRuntime) {
    match long_answer(rt.alloc()) {
        Ok(answer) => {
            let whole = Whole {
                request: LONG,
                status: Status::Fine,
                performed: 0,
                answer: answer.as_slice(),
            };
            expect_pairs(&rt, rt.alloc(), whole, (40, 1_420));
        }
        Err(_) => assert!(&rt; false),
    }
}
