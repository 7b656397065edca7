//! Look-ups of the header fields of an HTTP request, and the length of its body (RFC 9110, sections
//! 5 and 8.6).
ghost use Rattle.std.specs.Prelude.{◌≡◌, ◌<◌, ℕ, List, length, map, All, MatchOption};
ghost use Rattle.std.specs.Char.{to_ascii_lowercase, is_ascii_digit};
ghost use Rattle.std.specs.List.{list_all};
ghost use Rattle.httparse.specs.Spans.{IsHeaderWithin, header_bytes};
ghost use Rattle.thes_http_request.specs.Fields.{has_field, values_of, is_length, length_of, length_in, body_length};
ghost use Rattle.thes_http_request.specs.Inbox.{spans_named, first_named};

use crate::problem::Problem;
use httparse::spans::HeaderSpan;

/// Returns whether some header field has this name, whatever the case of its letters.
pub fn has_field(bytes: &[u8], headers: &[HeaderSpan], name: &[u8]) -> bool
    requires { All (IsHeaderWithin (length bytes.now)) headers.now }
    ensures { result ≡ has_field (map to_ascii_lowercase name.now)
        (map (header_bytes bytes.now) headers.now) }
{
    find_field(bytes, headers, name).is_some()
}

/// Returns the length of the body in bytes: that of `Content-Length`, or 0 if `limit` is `None`,
/// since then no body is read. `NoLength` if the field is missing, `BadHead` if there are several
/// such fields or the value isn't in decimal digits, and `TooLong` if it exceeds the limit.
pub fn body_length(bytes: &[u8], headers: &[HeaderSpan], limit: Option<u32>) -> Result<u32, Problem>
    requires { All (IsHeaderWithin (length bytes.now)) headers.now }
    ensures { result ≡ body_length limit (map (header_bytes bytes.now) headers.now) }
{
    match limit {
        None => Ok(0),
        Some(most) => length_named(bytes, headers, b"content-length", most),
    }
}

// Returns the length in the only header field with this name; `NoLength` if there is none, and
// `BadHead` if there are several.
fn length_named(
    bytes: &[u8],
    headers: &[HeaderSpan],
    name: &[u8],
    limit: u32,
) -> Result<u32, Problem>
    requires { All (IsHeaderWithin (length bytes.now)) headers.now }
    ensures { result ≡ length_in limit
        (values_of (map to_ascii_lowercase name.now) (map (header_bytes bytes.now) headers.now)) }
{
    let Some(at) = find_field(bytes, headers, name) else {
        return Err(Problem::NoLength);
    };
    if has_field(bytes, &headers[at + 1..], name) {
        return Err(Problem::BadHead);
    }
    length_of(headers[at].value.of(bytes), limit)
}

// Returns the index of the first header field with this name, whatever the case of its letters.
fn find_field(bytes: &[u8], headers: &[HeaderSpan], name: &[u8]) -> Option<usize>
    requires { All (IsHeaderWithin (length bytes.now)) headers.now }
    ensures { MatchOption result (first_named name.now bytes.now headers.now ≡ length headers.now)
        (λ at. (first_named name.now bytes.now headers.now ≡ at) × (at < length headers.now)) }
{
    for at in 0..headers.len() {
        if is_named(bytes, headers[at], name) {
            return Some(at);
        }
    }
    None
}

// Returns whether the header field has this name, whatever the case of its letters.
fn is_named(bytes: &[u8], header: HeaderSpan, name: &[u8]) -> bool
    requires { IsHeaderWithin (length bytes.now) header }
    ensures { result ≡ spans_named name.now bytes.now header }
{
    header.name.of(bytes).eq_ignore_ascii_case(name)
}

// Parses the length of a body in decimal; `BadHead` if the text isn't one or more digits, and
// `TooLong` if the length exceeds the limit.
fn length_of(text: &[u8], limit: u32) -> Result<u32, Problem>
    ensures { result ≡ length_of limit text.now }
{
    if !is_length(text) {
        return Err(Problem::BadHead);
    }
    let Ok(digits) = str::from_utf8(text) else {
        return Err(Problem::BadHead);
    };
    match digits.parse::<u32>() {
        Ok(length) if length <= limit => Ok(length),
        _ => Err(Problem::TooLong),
    }
}

// Returns whether the value of a header field consists of one or more decimal digits.
fn is_length(text: &[u8]) -> bool
    ensures { result ≡ is_length text.now }
{
    !text.is_empty() && all_digits(text)
}

// Returns whether each byte of a header field's value is an ASCII digit.
fn all_digits(text: &[u8]) -> bool
    ensures { result ≡ list_all is_ascii_digit text.now }
{
    text.iter().all(|byte| byte.is_ascii_digit())
}
