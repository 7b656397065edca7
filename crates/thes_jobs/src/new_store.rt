//! Recognizes a blank database, and makes the tables of a new store in one.
ghost use Rattle.std.specs.Prelude.{◌≡◌, ◌↔◌, false, IsTrue};
ghost use Rattle.sqlite.specs.Held.{state};
ghost use Rattle.thes_sql.specs.Schema.{empty_schema};
ghost use Rattle.thes_jobs.specs.Databases.{KeepsTables, Settles};
ghost use Rattle.thes_jobs.specs.NewStore as choices;
ghost use Rattle.thes_jobs.specs.NewStore.{MakesStore};

use crate::trouble::trouble_of;
use sqlite::{Alter, Connection};
use thes_base::fault::{Fault, Table};
use thes_base::text::Base;
use thes_command_line::trouble::StoreTrouble;
use thes_sql::create::create_tables;
use thes_sqlite::cause::cause_of;
use thes_sqlite::faults::fault_of;

/// Returns whether the schema of a database lists nothing: no table, and nothing else.
pub fn is_blank<S: Alter>(conn: &Connection<S>) -> bool
    ensures { IsTrue result ↔ ((state S.Store conn.now).now.schema ≡ empty_schema) }
{
    let schema = conn.schema();
    schema.tables.is_empty() && schema.indexes.is_empty() && schema.views.is_empty()
}

/// Returns the fault of a blank database in which no tables are to be made, with its reason: that
/// of a store without table meta.
pub fn blank_fault() -> (StoreTrouble, Fault)
    ensures { result ≡ choices.blank_fault }
{
    (StoreTrouble::Unreadable, Fault::BadStore(Table::Meta))
}

/// Makes the tables of a new store with this base in a database without tables, atomically. An
/// error is the fault with its reason. The caller keeps a mark next to the file until the tables
/// are made: the store isn't made under another name and renamed, since its file and its log can't
/// be renamed together (DECISIONS.md, The tables).
pub fn make_store<S: Alter>(
    conn: &mut Connection<S>,
    base: &Base,
) -> Result<(), (StoreTrouble, Fault)>
    requires idle { conn.old.in_transaction ≡ false }
    ensures made { MakesStore S.Store base.now conn.old result conn.new }
    ensures idle { conn.new.in_transaction ≡ false }
    ensures keeps { (state S.Store conn.old).now.schema ≡ empty_schema
        → KeepsTables (state S.Store conn.old) (state S.Store conn.new) }
    ensures settles { (state S.Store conn.old).now.schema ≡ empty_schema
        → Settles (state S.Store conn.old) (state S.Store conn.new) }
{
    match create_tables(conn, base) {
        Ok(_) => Ok(()),
        Err(error) => Err((
            trouble_of(cause_of(error), StoreTrouble::Unwritable),
            fault_of(error),
        )),
    }
}
