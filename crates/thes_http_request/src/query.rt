//! The query string of a request for a display.
ghost use Rattle.std.specs.Prelude.{◌≡◌, ◌∷◌, [], ℕ, List, Some, None, IfOk, MatchOption, codes, map};
ghost use Rattle.std.specs.Cow.{cow_str_bytes};
ghost use Rattle.thes_http_request.specs.Queries.{display_query_of, display_query_in_pairs};

use form_urlencoded::parse;
use std::alloc::{AllocError, Global};
use std::borrow::CowStr;

/// The values in a display's query string, decoded: a scheme's number as a text, and a language
/// tag.
#[derive(Drop)]
pub struct DisplayQuery<'a> {
    pub scheme: CowStr<'a>,
    pub lang: CowStr<'a>,
}

/// Parses the query string of a display: `scheme` and `lang`, exactly once each, in either order,
/// with percent-encoding and `+` decoded. None if it has other names, or a name is missing or
/// repeated.
pub fn read_query(alloc: Global, query: &str) -> Result<Option<DisplayQuery<'_>>, AllocError>
    ensures { IfOk result (λ asked. MatchOption asked (display_query_of query.now ≡ None)
        (λ a. display_query_of query.now
        ≡ Some (record { scheme = cow_str_bytes a.scheme; lang = cow_str_bytes a.lang }))) }
{
    let mut pairs = parse(alloc, query.as_bytes());
    let Some(first) = pairs.next() else {
        return Ok(None);
    };
    let Some(second) = pairs.next() else {
        return Ok(None);
    };
    let None = pairs.next() else {
        return Ok(None);
    };
    Ok(display_query_in(first?, second?))
}

// Returns the values of the two pairs if their names are `scheme` and `lang`, in either order.
fn display_query_in<'a>(
    first: (CowStr<'a>, CowStr<'a>),
    second: (CowStr<'a>, CowStr<'a>),
) -> Option<DisplayQuery<'a>>
    ensures { let pairs = (cow_str_bytes first.entry.0, cow_str_bytes first.entry.1)
        ∷ (cow_str_bytes second.entry.0, cow_str_bytes second.entry.1) ∷ [] in
        MatchOption result (display_query_in_pairs pairs ≡ None) (λ a. display_query_in_pairs pairs
        ≡ Some (record { scheme = cow_str_bytes a.scheme; lang = cow_str_bytes a.lang })) }
{
    if first.0.as_str() == "scheme" && second.0.as_str() == "lang" {
        return Some(DisplayQuery {
            scheme: first.1,
            lang: second.1,
        });
    }
    if first.0.as_str() == "lang" && second.0.as_str() == "scheme" {
        return Some(DisplayQuery {
            scheme: second.1,
            lang: first.1,
        });
    }
    None
}
