//! The numbers under which labels and links are indexed: an owner, or one end of a link.
ghost use Rattle.std.specs.Prelude.{◌≡◌};
ghost use Rattle.std.specs.Ordering.{eq_by_cmp};
ghost use Rattle.thes_base.specs.Labels.{label_cmp};
ghost use Rattle.thes_base.specs.Links.{link_cmp};
ghost use Rattle.thes_store.specs.Numbers.{indexed_end_of};

use crate::packed_label::PackedLabel;
use crate::slots::IndexedRow;
use thes_base::data::{Link, LinkKind};
use thes_tables::change::Change;
use thes_tables::rows::HierRow;

// Returns the number of the end under which a link is indexed: the member of a membership, or else
// the first end.
fn indexed_end_of(link: &Link) -> u32
    ensures { result ≡ indexed_end_of link.now }
{
    match link.kind {
        LinkKind::Member => link.b.get(),
        _ => link.a.get(),
    }
}

/// A label is indexed under its owner.
impl IndexedRow for PackedLabel {
    ghost use Rattle.thes_store.specs.Numbers.{owner_of, is_same_label};
    ghost use Rattle.thes_store.specs.SameRows.{owners_agree};

    ghost number_of = { owner_of };

    ghost same = { is_same_label };

    ghost agree = { owners_agree };

    fn index_number(&self) -> u32 {
        self.owner().get()
    }

    fn number_of_added_row(change: &Change) -> Option<u32> {
        match change {
            Change::AddLabel(row) => Some(row.owner.get()),
            _ => None,
        }
    }

    fn is_same(&self, other: &PackedLabel) -> bool {
        PackedLabel::is_same(self, other)
    }
}

/// A membership is indexed under its member, another link under its first end.
impl IndexedRow for Link {
    ghost use Rattle.thes_store.specs.Numbers.{is_same_link};
    ghost use Rattle.thes_store.specs.SameRows.{ends_agree};

    ghost number_of = { indexed_end_of };

    ghost same = { is_same_link };

    ghost agree = { ends_agree };

    fn index_number(&self) -> u32 {
        indexed_end_of(self)
    }

    fn number_of_added_row(change: &Change) -> Option<u32> {
        match change {
            Change::AddLink(link) => Some(indexed_end_of(link)),
            _ => None,
        }
    }

    fn is_same(&self, other: &Link) -> bool {
        self.kind == other.kind && self.a == other.a && self.b == other.b
    }
}

/// A hierarchical link is indexed under its narrower concept.
impl IndexedRow for HierRow {
    ghost use Rattle.thes_store.specs.Numbers.{narrower_end_of, is_same_hier};
    ghost use Rattle.thes_store.specs.SameRows.{narrower_agree};

    ghost number_of = { narrower_end_of };

    ghost same = { is_same_hier };

    ghost agree = { narrower_agree };

    fn index_number(&self) -> u32 {
        self.a.get()
    }

    fn number_of_added_row(change: &Change) -> Option<u32> {
        match change {
            Change::AddHier(row) => Some(row.a.get()),
            _ => None,
        }
    }

    fn is_same(&self, other: &HierRow) -> bool {
        self.typ == other.typ && self.a == other.a && self.b == other.b
    }
}
