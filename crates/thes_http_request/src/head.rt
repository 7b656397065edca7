//! Decides whether bytes begin with the head of an HTTP request.
ghost use Rattle.std.specs.Prelude.{◌≡◌, ◌⊎◌, true, false, length, MatchOption};
ghost use Rattle.std.specs.List.{list_any, list_all, before_first, after_first};
ghost use Rattle.httparse.specs.Grammar.{is_uri_byte};
ghost use Rattle.thes_http_request.specs.Heads.{after_blank_lines, is_space, whole_lines, ends_in_target, IsUnfinished, IsNoHead, HasTooManyLines};
ghost use Rattle.thes_http_request.specs.Inbox.{IsHeadAt};

use httparse::spans::{HeaderSpan, RequestSpans, parse_request};
use httparse::{Error, Status, is_token, is_uri_token};

// The greatest number of lines in a head: the request line and 64 header lines.
const LINES_LIMIT: usize = 65;

/// The verdict on the bytes read so far.
#[derive(Clone, Copy, Drop)]
pub enum Head {
    /// The bytes begin with a head, whose parts are at these spans.
    Whole(RequestSpans),
    /// There is no head yet, but more bytes may complete one.
    More,
    /// The bytes can't begin a head, whatever bytes follow, or they have too many lines.
    Bad,
}

/// Decides whether bytes begin with a head, may do so when more bytes follow, or can't. If they do,
/// the spans of the head's fields are put into `headers`.
pub fn head_of(bytes: &[u8], headers: &mut [HeaderSpan]) -> Head
    requires { length headers.old ≡ 64 }
    ensures whole { (spans : _) → result ≡ Head.Whole spans → IsHeadAt bytes.now headers.new spans }
    ensures more { result ≡ Head.More → IsUnfinished bytes.now }
    ensures bad { result ≡ Head.Bad → IsNoHead bytes.now ⊎ HasTooManyLines bytes.now }
{
    let may_come = match parse_request(bytes, headers) {
        Ok(Status::Complete(spans)) => return Head::Whole(spans),
        Ok(Status::Partial) => true,
        Err(Error::TooManyHeaders) => return Head::Bad,
        Err(_) => ends_in_target(bytes),
    };
    if may_come && whole_lines(bytes) <= LINES_LIMIT {
        Head::More
    } else {
        Head::Bad
    }
}

// Skips the empty lines before a request line (RFC 9112, section 2.2).
#[tactic(auto, using(crate::proofs::BlankLemmas::blank_line_feed, crate::proofs::BlankLemmas::blank_return, crate::proofs::BlankLemmas::blank_end))]
fn after_blank_lines(bytes: &[u8]) -> &[u8]
    ensures { result.now ≡ after_blank_lines bytes.now }
{
    let mut rest = bytes;
    loop {
        if let Some(more) = rest.strip_prefix(b"\n") {
            rest = more;
        } else if let Some(more) = rest.strip_prefix(b"\r\n") {
            rest = more;
        } else {
            return rest;
        }
    }
}

// Returns the number of complete lines of a head after the leading empty ones, the request line
// included.
fn whole_lines(bytes: &[u8]) -> usize
    ensures { result ≡ whole_lines bytes.now }
{
    let head = after_blank_lines(bytes);
    let mut lines = 0;
    for byte in head {
        if *byte == b'\n' {
            lines += 1;
        }
    }
    lines
}

// Returns whether the bytes end within the target of a request line: after a method, a space, and
// bytes of a target.
fn ends_in_target(bytes: &[u8]) -> bool
    ensures { result ≡ ends_in_target bytes.now }
{
    match split_at_space(after_blank_lines(bytes)) {
        None => false,
        Some((method, target)) => is_token(method) && is_target(target),
    }
}

// Splits a request line at its first space, if it has one.
fn split_at_space(line: &[u8]) -> Option<(&[u8], &[u8])>
    ensures { MatchOption result (list_any is_space line.now ≡ false)
        (λ parts. (list_any is_space line.now ≡ true)
        × (parts.0.now ≡ before_first is_space line.now)
        × (parts.1.now ≡ after_first is_space line.now)) }
{
    let at = line.iter().position(|byte| *byte == b' ')?;
    Some((&line[..at], &line[at + 1..]))
}

// Returns whether each byte is allowed in the target of a request line.
fn is_target(bytes: &[u8]) -> bool
    ensures { result ≡ list_all is_uri_byte bytes.now }
{
    bytes.iter().all(|byte| is_uri_token(*byte))
}
