//! Laws of an import, whatever code performs it.
ghost use Rattle.thes_import.specs.OneImport.{HasOneImport};
ghost use Rattle.thes_import.specs.RepeatedImport.{ImportsAgain};

pub use thes_posting_files::laws::answers_again;
use thes_store::keeper::Keeper;

/// No effect; for the proof, states that a file and the state before determine the report of an
/// import and the state after it, whichever storages are used, unless a fault halts the import.
pub fn one_import<K: Keeper, L: Keeper>()
    ensures { HasOneImport K.view L.view }
{}

/// No effect; for the proof, states that importing a file again, with no other request between,
/// changes no table: accepted rows are answered with the same postings' numbers, refused rows
/// change nothing, and other rows have the same faults.
pub fn imports_again()
    ensures { ImportsAgain }
{}
