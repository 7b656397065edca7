//! Tests of heads at the limits on bytes and lines.
use crate::connections::counter::{CountingService, serve_counting};
use std::alloc::{AllocError, Global};
use std::process::Abort;
use thes_base::pipe::Pipe;
use thes_http::Status;
use thes_http::connection::ConnectionEnd;

// Serves a request that is only a head, and returns the outcome of the connection.
fn serve_head(alloc: Global, request: &[u8]) -> ConnectionEnd {
    let mut reader = Pipe::new(request);
    let mut writer = Pipe::new(Vec::new(alloc));
    let mut counter = CountingService { performed: 0 };
    serve_counting(alloc, &mut reader, &mut writer, &mut counter)
}

// Returns a head of `count + 32` bytes, of which `count` are the value of a field.
fn long_head(alloc: Global, count: u32) -> Result<Vec<u8>, AllocError> {
    let mut head = Vec::from_slice(alloc, b"GET /totals HTTP/1.1\r\nName: ")?;
    for _ in 0..count {
        head.push(b'a')?;
    }
    head.extend_from_slice(b"\r\n\r\n")?;
    Ok(head)
}

// Returns a head with `count` fields, followed by `end`.
fn wide_head(alloc: Global, count: u32, end: &[u8]) -> Result<Vec<u8>, AllocError> {
    let mut head = Vec::from_slice(alloc, b"GET /totals HTTP/1.1\r\n")?;
    for _ in 0..count {
        head.extend_from_slice(b"Name: value\r\n")?;
    }
    head.extend_from_slice(end)?;
    Ok(head)
}

// Checks that the connection with this head has this outcome.
fn expect(rt: &impl Abort, alloc: Global, head: Result<Vec<u8>, AllocError>, end: ConnectionEnd) {
    match head {
        Ok(head) => assert_eq!(rt; serve_head(alloc, &head), end),
        Err(_) => assert!(rt; false),
    }
}

#[test]
fn a_head_of_8192_bytes_is_read(rt: HostRuntime) {
    let alloc = rt.alloc();
    let fine = ConnectionEnd::Answered(Status::Fine);
    let bad = ConnectionEnd::Answered(Status::BadRequest);
    expect(&rt, alloc, long_head(alloc, 8_159), fine);
    expect(&rt, alloc, long_head(alloc, 8_160), fine);
    expect(&rt, alloc, long_head(alloc, 8_161), bad);
    expect(&rt, alloc, long_head(alloc, 100_000), bad);
}

#[test]
fn a_head_of_64_lines_is_read(rt: HostRuntime) {
    let alloc = rt.alloc();
    let fine = ConnectionEnd::Answered(Status::Fine);
    let bad = ConnectionEnd::Answered(Status::BadRequest);
    expect(&rt, alloc, wide_head(alloc, 64, b"\r\n"), fine);
    expect(&rt, alloc, wide_head(alloc, 65, b"\r\n"), bad);
    expect(&rt, alloc, wide_head(alloc, 64, b""), ConnectionEnd::Cut);
    expect(
        &rt,
        alloc,
        wide_head(alloc, 64, b"Name: val"),
        ConnectionEnd::Cut,
    );
    expect(&rt, alloc, wide_head(alloc, 65, b""), bad);
}
