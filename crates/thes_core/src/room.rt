//! The growth that a request causes, and whether the limits leave room for it.
ghost use Rattle.std.specs.Prelude.{◌+◌, ◌≤◌, ◌↔◌, IsTrue, max};
ghost use Rattle.thes_base.specs.State.{IsWithinLimit};

/// The numbers of resources, labels, links, postings and moves by which a request enlarges a state.
#[derive(Clone, Copy)]
pub struct Growth {
    pub resources: u64,
    pub labels: u64,
    pub links: u64,
    pub postings: u64,
    pub moves: u64,
}

impl Growth {
    /// The growth of a request that adds nothing.
    pub const NONE: Growth = Growth {
        resources: 0,
        labels: 0,
        links: 0,
        postings: 0,
        moves: 0,
    };

    /// The growth of a new resource with its preferred label.
    pub const NAMED: Growth = Growth {
        resources: 1,
        labels: 1,
        ..Growth::NONE
    };
}

/// Checks whether a request may enlarge a count of the state by `more` without exceeding its limit;
/// a count above its limit may stay as it is.
pub fn may_rise(limit: u32, count: u64, more: u64) -> bool
    ensures { IsTrue result ↔ IsWithinLimit limit count (count + more) }
{
    let limit = u64::from(limit);
    more == 0 || (count <= limit && more <= limit - count)
}
