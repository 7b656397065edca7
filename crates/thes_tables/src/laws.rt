//! Laws: what the changes of an accepted request lead to, and what the migration from version 1 of
//! the schema to version 2 keeps.
ghost use Rattle.thes_tables.specs.ChangeLaw.{ChangesLead};
ghost use Rattle.thes_tables.specs.OldRows.{MigrationKeepsState};

/// No effect; for the proof, states that tables encode a state in version 1 of the schema exactly
/// when the migrated tables encode it in version 2.
pub fn migration_keeps_state()
    ensures { MigrationKeepsState }
{}

/// No effect; for the proof, states that the changes of a request that is accepted in a legal state
/// turn the rows of that state into those of the next state.
pub fn changes_lead()
    ensures { ChangesLead }
{}
