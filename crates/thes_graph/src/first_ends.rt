//! The links of a node's row that have the node as their first end, so that all links of a graph
//! are listed once.
ghost use Rattle.std.specs.Prelude.{◌≡◌, ◌==◌, ◌++◌, ◌∷◌, [], OnOk, cond};
ghost use Rattle.thes_graph.specs.FirstEnds.{AddsFirstEnds};

use crate::sided_links::SidedLink;
use std::alloc::AllocError;
use thes_base::data::Link;

// Appends the link to the list, if the link's first end has this number.
fn add_if_first(all: &mut Vec<Link>, link: &Link, number: usize) -> Result<(), AllocError>
    ensures { OnOk result (all.new.items
        ≡ cond (link.now.a == number) (all.old.items ++ link.now ∷ []) all.old.items) }
{
    if link.a.get() as usize == number {
        all.push(*link)?;
    }
    Ok(())
}

/// Appends to a list those links of a node's row whose first end has this number.
pub fn list_first_ends(
    all: &mut Vec<Link>,
    row: &[SidedLink],
    number: usize,
) -> Result<(), AllocError>
    ensures { OnOk result (AddsFirstEnds number row.now all.old.items all.new.items) }
{
    for sided_link in row {
        add_if_first(all, &sided_link.link, number)?;
    }
    Ok(())
}
