//! Laws of exports, whatever code writes them.
ghost use Rattle.thes_export.specs.Export.{HasOneExport, ReadsExports};

/// No effect; for the proof, states that the export of a legal state is an N-Triples document whose
/// only reading is the state's triples.
pub fn reads_exports()
    ensures { ReadsExports }
{}

/// No effect; for the proof, states that a state has at most one export.
pub fn one_export()
    ensures { HasOneExport }
{}
