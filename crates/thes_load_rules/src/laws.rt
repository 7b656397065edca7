//! Laws of the verdict on rows of cells, independent of the program that loads them.
ghost use Rattle.thes_load_rules.specs.Laws.{OneVerdict, LoadedIsLegal, LegalStateLoads, TablesCheckedInTurn};

/// No effect; for the proof, states that rows of cells have at most one verdict.
pub fn one_verdict()
    ensures { OneVerdict }
{}

/// No effect; for the proof, states that tables that load encode a legal state.
pub fn loaded_is_legal()
    ensures { LoadedIsLegal }
{}

/// No effect; for the proof, states that the tables of a legal state load, and encode that state.
pub fn legal_state_loads()
    ensures { LegalStateLoads }
{}

/// No effect; for the proof, states that the version is checked first, then the tables in order,
/// and that the first table to break its rule is reported.
pub fn tables_checked_in_turn()
    ensures { TablesCheckedInTurn }
{}
