//! Queries that read rows of the tables.
ghost use Rattle.std.specs.Prelude.{◌≡◌};
ghost use Rattle.thes_sql.specs.Reads.{read_text, assigned_text, assigned_numbers_text, cells_with_key, cells_with_number, cells_of_moves};
ghost use Rattle.thes_sql.specs.Reads.{SelectResult, LeavesAlone};

use sqlite::{Alter, Connection, Error, Row, params};
use thes_base::fault::Table;
use thes_base::number::PostNo;
use thes_base::text::Key;

/// Returns the query for all rows of a table, for reading them one at a time: sorted by number or,
/// in label, link and hier, in insertion order.
pub fn table_query(table: Table) -> &'static str
    ensures { result.now ≡ read_text table }
{
    match table {
        Table::Meta => "SELECT one, version, base FROM meta ORDER BY one",
        Table::Resource => "SELECT num, kind, scheme, live, replaced FROM resource ORDER BY num",
        Table::Outside => "SELECT num, iri FROM outside ORDER BY num",
        Table::Label => "SELECT owner, kind, tag, text FROM label ORDER BY rowid",
        Table::Link => "SELECT kind, a, b FROM link ORDER BY rowid",
        Table::Hier => "SELECT a, b, typ FROM hier ORDER BY rowid",
        Table::Posting =>
            "SELECT num, pkey, record, first_at, at, withdrawn FROM posting ORDER BY num",
        Table::Move => "SELECT num, posting, source, target FROM move ORDER BY num",
    }
}

/// Returns the query for the rows of the postings that are assigned to a concept, the query's
/// parameter; the rows are sorted by number.
pub fn assigned_query() -> &'static str
    ensures { result.now ≡ assigned_text }
{
    "SELECT num, pkey, record, first_at, at, withdrawn FROM posting WHERE at = ?1 AND withdrawn = 0 ORDER BY num"
}

/// Returns the query for the numbers of the postings that are assigned to a concept, the query's
/// parameter; the numbers are in increasing order.
pub fn assigned_numbers_query() -> &'static str
    ensures { result.now ≡ assigned_numbers_text }
{
    "SELECT num FROM posting WHERE at = ?1 AND withdrawn = 0 ORDER BY num"
}

/// Reads the rows of table posting that have the key: one row, or none.
pub fn posting_rows_with_key<S: Alter>(
    conn: &mut Connection<S>,
    key: &Key,
) -> Result<Vec<Row>, Error>
    ensures shows { SelectResult S.Store (cells_with_key key.now) conn.old conn.new result
        (λ rows. rows.items) }
    ensures leaves { LeavesAlone S.Store conn.old conn.new }
{
    conn.query_all(
        "SELECT num, pkey, record, first_at, at, withdrawn FROM posting WHERE pkey = ?1 ORDER BY num",
        params![key.as_str()],
    )
}

/// Reads the rows of table posting that have the number: one row, or none.
pub fn posting_rows_with_number<S: Alter>(
    conn: &mut Connection<S>,
    n: PostNo,
) -> Result<Vec<Row>, Error>
    ensures shows { SelectResult S.Store (cells_with_number n) conn.old conn.new result
        (λ rows. rows.items) }
    ensures leaves { LeavesAlone S.Store conn.old conn.new }
{
    conn.query_all(
        "SELECT num, pkey, record, first_at, at, withdrawn FROM posting WHERE num = ?1 ORDER BY num",
        params![n.get()],
    )
}

/// Reads the rows of a posting's moves, oldest first.
pub fn move_rows_of_posting<S: Alter>(
    conn: &mut Connection<S>,
    posting: PostNo,
) -> Result<Vec<Row>, Error>
    ensures shows { SelectResult S.Store (cells_of_moves posting) conn.old conn.new result
        (λ rows. rows.items) }
    ensures leaves { LeavesAlone S.Store conn.old conn.new }
{
    conn.query_all(
        "SELECT num, posting, source, target FROM move WHERE posting = ?1 ORDER BY num",
        params![posting.get()],
    )
}
