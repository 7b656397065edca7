//! The law of migrations: they keep the state that a store encodes.
ghost use Rattle.thes_sqlite.specs.MigrationLaws.{MigratesStates};

use sqlite::Alter;

/// No effect; for the proof, states that a migration takes the rows of a state in version 1 to its
/// rows in version 2, and that these load and encode the state if it is legal.
pub fn migrates_states<S: Alter>()
    ensures { MigratesStates S.Store }
{}
