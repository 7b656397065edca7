//! The normal form of a link, in which it is held: a symmetric link has its ends in ascending
//! order.
ghost use Rattle.std.specs.Prelude.{◌≡◌, ◌&&◌, nat_lt, if◌then◌else◌};
ghost use Rattle.thes_base.specs.Links.{is_symmetric, reversed_link};

use thes_base::data::{Link, LinkKind};

/// Returns the link in normal form: a symmetric link has its ends in ascending order. `outside`
/// states whether an end is an outside concept, in which case no mapping is symmetric.
pub fn normalize_ends(link: &Link, outside: bool) -> Link
    ensures { result ≡ (if is_symmetric outside link.now.kind && nat_lt link.now.b link.now.a
        then reversed_link link.now else link.now) }
{
    let symmetric = match link.kind {
        LinkKind::Related => true,
        LinkKind::Exact | LinkKind::Close | LinkKind::RelMatch => !outside,
        _ => false,
    };
    if symmetric && link.b < link.a {
        Link {
            kind: link.kind,
            a: link.b,
            b: link.a,
        }
    } else {
        *link
    }
}
