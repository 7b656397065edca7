//! The law of loading: which rows a loader has received.
ghost use Rattle.thes_office.specs.LoaderLaw.{LoaderReadsStore};

/// No effect; for the proof, states that a loader, once it has accepted all rows of a store, has
/// received exactly these rows.
pub fn loader_reads_store()
    ensures { LoaderReadsStore }
{}
