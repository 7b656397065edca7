//! Look-ups of labels by kind, which the answer to a query of a concept needs. The core must be
//! usable (not `is_spent`).
ghost use Rattle.std.specs.Prelude.{◌≡◌, false, [], filter, map, IfOk};
ghost use Rattle.thes_base.specs.Views.{AreLabels};
ghost use Rattle.thes_core.specs.CoreView.{with_histories};
ghost use Rattle.thes_core.specs.LabelLists.{is_of_kind, tagged_text};

use crate::machine::Core;
use std::alloc::{AllocError, Global};
use thes_base::data::{Label, LabelKind};
use thes_base::number::ResNo;

// Returns the labels of the kind, in the order of the list.
fn of_kind<'a>(
    alloc: Global,
    labels: &'a [Label],
    kind: LabelKind,
) -> Result<Vec<&'a Label>, AllocError>
    ensures { IfOk result (λ found. map (λ l. l.now) found.items
        ≡ filter (is_of_kind kind) labels.now) }
{
    let mut found = Vec::new(alloc);
    for label in labels {
        if label.kind() == kind {
            found.push(label)?;
        }
    }
    Ok(found)
}

impl Core {
    /// Returns the owner's labels of one kind, sorted by language and text.
    pub fn labels_of_kind(
        &self,
        alloc: Global,
        owner: ResNo,
        kind: LabelKind,
    ) -> Result<Vec<&Label>, AllocError>
        requires { self.now.spent ≡ false }
        ensures { let are_labels = AreLabels (with_histories [] self.now) owner kind in
            IfOk result (λ found. are_labels (map (λ l. tagged_text l.now) found.items)) }
    {
        of_kind(alloc, self.labels_of(owner), kind)
    }
}
