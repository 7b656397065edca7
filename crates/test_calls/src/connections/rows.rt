//! Tests of requests and their responses, byte for byte.
use crate::connections::counter::{CountingService, serve_counting};
use std::alloc::Global;
use std::process::Abort;
use thes_base::pipe::Pipe;
use thes_http::Status;
use thes_http::connection::ConnectionEnd;

// A row of a table: a request, the outcome of its connection, the number of operations performed,
// and the bytes written.
type ResponseCase = (&'static [u8], ConnectionEnd, u32, &'static str);

// Serves a request, and returns the outcome of the connection, the number of operations performed,
// and the bytes written.
fn serve_request(alloc: Global, request: &[u8]) -> (ConnectionEnd, u32, Vec<u8>) {
    let mut reader = Pipe::new(request);
    let mut writer = Pipe::new(Vec::new(alloc));
    let mut counter = CountingService { performed: 0 };
    let served = serve_counting(alloc, &mut reader, &mut writer, &mut counter);
    (served, counter.performed, writer.into_device())
}

// Compares the outcome of each request with that in its row.
fn expect(rt: &impl Abort, alloc: Global, rows: &[ResponseCase]) {
    for (request, end, performed, text) in rows {
        let (served, count, written) = serve_request(alloc, request);
        assert_eq!(rt; served, *end, "{request:?}");
        assert_eq!(rt; count, *performed, "{request:?}");
        assert_eq!(rt; written.as_slice(), text.as_bytes(), "{request:?}");
    }
}

static REQUESTS: [ResponseCase; 5] = [
    (
        b"POST /requests HTTP/1.1\r\nContent-Length: 50\r\n\r\n{\"do\"",
        ConnectionEnd::Cut,
        0,
        "",
    ),
    (
        b"POST /requests HTTP/1.1\r\nTransfer-Encoding: chunked\r\n\r\n",
        ConnectionEnd::Answered(Status::NotImplemented),
        0,
        "HTTP/1.1 501 Not Implemented\r\nContent-Type: application/json\r\nContent-Length: 25\r\n\
        Connection: close\r\n\r\n{\"bad\":\"TransferCoding\"}\n",
    ),
    (
        b"POST /requests HTTP/1.1\r\ncontent-LENGTH: 31\r\n\r\n\
        {\"do\":\"withdraw\",\"posting\":  1}",
        ConnectionEnd::Answered(Status::Fine),
        1,
        "HTTP/1.1 200 OK\r\nContent-Type: application/json\r\nContent-Length: 9\r\n\
        Connection: close\r\n\r\n{\"ok\":1}\n",
    ),
    (
        b"POST /requests HTTP/1.0\r\nContent-Length: 22\r\n\r\n{\"get\":\"totals\"}      ",
        ConnectionEnd::Answered(Status::BadRequest),
        0,
        "HTTP/1.1 400 Bad Request\r\nContent-Type: application/json\r\nContent-Length: 19\r\n\
        Connection: close\r\n\r\n{\"bad\":\"BadShape\"}\n",
    ),
    (
        b"POST /requests HTTP/1.1\r\nContent-Length: 2\r\n\r\n\
        {}{\"do\":\"withdraw\",\"posting\":1}",
        ConnectionEnd::Answered(Status::BadRequest),
        0,
        "HTTP/1.1 400 Bad Request\r\nContent-Type: application/json\r\nContent-Length: 19\r\n\
        Connection: close\r\n\r\n{\"bad\":\"BadShape\"}\n",
    ),
];

#[test]
fn requests_are_performed_or_cut(rt: HostRuntime) {
    expect(&rt, rt.alloc(), &REQUESTS);
}

static PATHS: [ResponseCase; 8] = [
    (
        b"GET /nothing HTTP/1.1\r\n\r\n",
        ConnectionEnd::Answered(Status::NotFound),
        0,
        "HTTP/1.1 404 Not Found\r\nContent-Type: application/json\r\nContent-Length: 21\r\n\
        Connection: close\r\n\r\n{\"bad\":\"NoSuchPath\"}\n",
    ),
    (
        b"DELETE /totals HTTP/1.1\r\n\r\n",
        ConnectionEnd::Answered(Status::MethodNotAllowed),
        0,
        "HTTP/1.1 405 Method Not Allowed\r\nContent-Type: application/json\r\n\
        Content-Length: 20\r\nConnection: close\r\nAllow: GET\r\n\r\n{\"bad\":\"BadMethod\"}\n",
    ),
    (
        b"get /import HTTP/1.1\r\n\r\n",
        ConnectionEnd::Answered(Status::MethodNotAllowed),
        0,
        "HTTP/1.1 405 Method Not Allowed\r\nContent-Type: application/json\r\n\
        Content-Length: 20\r\nConnection: close\r\nAllow: POST\r\n\r\n{\"bad\":\"BadMethod\"}\n",
    ),
    (
        b"GET /concepts/4294967295 HTTP/1.1\r\n\r\n",
        ConnectionEnd::Answered(Status::NotFound),
        0,
        "HTTP/1.1 404 Not Found\r\nContent-Type: application/json\r\nContent-Length: 25\r\n\
        Connection: close\r\n\r\n{\"no\":\"UnknownResource\"}\n",
    ),
    (
        b"GET /concepts/4294967296 HTTP/1.1\r\n\r\n",
        ConnectionEnd::Answered(Status::BadRequest),
        0,
        "HTTP/1.1 400 Bad Request\r\nContent-Type: application/json\r\nContent-Length: 20\r\n\
        Connection: close\r\n\r\n{\"bad\":\"BadNumber\"}\n",
    ),
    (
        b"GET /totals?what=ever HTTP/1.1\r\nContent-Length: no\r\n\r\n",
        ConnectionEnd::Answered(Status::Fine),
        0,
        "HTTP/1.1 200 OK\r\nContent-Type: application/json\r\nContent-Length: 42\r\n\
        Connection: close\r\n\r\n{\"accepted\":0,\"standing\":0,\"withdrawn\":0}\n",
    ),
    (
        b"GET /export HTTP/1.1\r\n\r\n",
        ConnectionEnd::Answered(Status::Fine),
        0,
        "HTTP/1.1 200 OK\r\nContent-Type: application/n-triples\r\nContent-Length: 20\r\n\
        Connection: close\r\n\r\n<a:b> <a:c> <a:d> .\n",
    ),
    (
        b"POST /import HTTP/1.1\r\nContent-Length: 4\r\n\r\na,b\n",
        ConnectionEnd::Answered(Status::Fine),
        1,
        "HTTP/1.1 200 OK\r\nContent-Type: text/csv; charset=utf-8\r\nContent-Length: 4\r\n\
        Connection: close\r\n\r\na,b\n",
    ),
];

#[test]
fn paths_lead_to_endpoints(rt: HostRuntime) {
    expect(&rt, rt.alloc(), &PATHS);
}

// Returns the outcome of the connection with a request.
fn status_of(alloc: Global, request: &[u8]) -> ConnectionEnd {
    let (served, _, _) = serve_request(alloc, request);
    served
}

static STATUSES: [(&[u8], ConnectionEnd); 20] = [
    (
        b"GET /concepts/1/postings HTTP/1.1\r\n\r\n",
        ConnectionEnd::Answered(Status::NotFound),
    ),
    (
        b"GET /concepts//postings HTTP/1.1\r\n\r\n",
        ConnectionEnd::Answered(Status::NotFound),
    ),
    (
        b"GET /concepts/0/postings HTTP/1.1\r\n\r\n",
        ConnectionEnd::Answered(Status::BadRequest),
    ),
    (
        b"GET /display/alphabetical?lang=EN&scheme=1 HTTP/1.1\r\n\r\n",
        ConnectionEnd::Answered(Status::Fine),
    ),
    (
        b"GET /display/alphabetical?lang=en HTTP/1.1\r\n\r\n",
        ConnectionEnd::Answered(Status::BadRequest),
    ),
    (
        b"GET /display/hierarchical?scheme=2&lang=en HTTP/1.1\r\n\r\n",
        ConnectionEnd::Answered(Status::NotFound),
    ),
    (
        b"GET /display/hierarchical?scheme=1&lang=%zz HTTP/1.1\r\n\r\n",
        ConnectionEnd::Answered(Status::BadRequest),
    ),
    (
        b"GET /display/hierarchical?scheme=1&lang=en&=1 HTTP/1.1\r\n\r\n",
        ConnectionEnd::Answered(Status::BadRequest),
    ),
    (
        b"POST /requests HTTP/1.1\r\n\r\n",
        ConnectionEnd::Answered(Status::LengthRequired),
    ),
    (
        b"POST /requests HTTP/1.1\r\nContent-Length:\r\n\r\n",
        ConnectionEnd::Answered(Status::BadRequest),
    ),
    (
        b"POST /requests HTTP/1.1\r\nContent-Length: +1\r\n\r\n",
        ConnectionEnd::Answered(Status::BadRequest),
    ),
    (
        b"POST /requests HTTP/1.1\r\nContent-Length: 1\r\nContent-Length: 1\r\n\r\n",
        ConnectionEnd::Answered(Status::BadRequest),
    ),
    (
        b"POST /requests HTTP/1.1\r\nContent-Length: 1048577\r\n\r\n",
        ConnectionEnd::Answered(Status::PayloadTooLarge),
    ),
    (
        b"POST /requests HTTP/1.1\r\nContent-Length: 0001048576\r\n\r\n",
        ConnectionEnd::Cut,
    ),
    (
        b"POST /requests HTTP/1.1\r\n\
        Content-Length: 9999999999999999999999999999999999999999\r\n\r\n",
        ConnectionEnd::Answered(Status::PayloadTooLarge),
    ),
    (
        b"GET /totals HTTP/2.0\r\n\r\n",
        ConnectionEnd::Answered(Status::BadRequest),
    ),
    (
        b"GET /totals HTTP/0.9\r\n\r\n",
        ConnectionEnd::Answered(Status::BadRequest),
    ),
    (b"GET /\xff\xfe", ConnectionEnd::Cut),
    (
        b"GET /\xff\xfe HTTP/1.1\r\n\r\n",
        ConnectionEnd::Answered(Status::BadRequest),
    ),
    (
        b"\r\n\nGET /totals HTTP/1.1\n\n",
        ConnectionEnd::Answered(Status::Fine),
    ),
];

#[test]
fn checks_come_in_their_order(rt: HostRuntime) {
    for (request, end) in &STATUSES {
        assert_eq!(&rt; status_of(rt.alloc(), request), *end, "{request:?}");
    }
}

// Checks that after each proper prefix of a request the connection ends as `Cut`, without an
// operation or a response.
fn expect_cuts(rt: &impl Abort, alloc: Global, request: &[u8]) {
    for count in 0..request.len() {
        let (served, performed, written) = serve_request(alloc, &request[..count]);
        assert_eq!(rt; served, ConnectionEnd::Cut, "{count}");
        assert_eq!(rt; performed, 0, "{count}");
        assert!(rt; written.is_empty(), "{count}");
    }
}

#[test]
fn each_front_of_a_request_is_cut(rt: HostRuntime) {
    expect_cuts(
        &rt,
        rt.alloc(),
        b"\r\nPOST /requests HTTP/1.1\r\nHost: a\r\nContent-Length: 29\r\n\r\n\
        {\"do\":\"withdraw\",\"posting\":1}",
    );
    expect_cuts(&rt, rt.alloc(), b"GET /totals HTTP/1.0\nHost: a\n\n");
}
