//! Checks whether a database declares its tables as `create_tables` does.
ghost use Rattle.std.specs.Prelude.{◌≡◌};
ghost use Rattle.std.specs.List.{list_any};
ghost use Rattle.thes_sql.specs.Declarations as wanted;
ghost use Rattle.sqlite.specs.Held.{state};

use sqlite::{Alter, Connection};
use sqlite_schema::names::same_name;
use sqlite_schema::schema::{Column, Index, Kind, Schema, Table as FoundTable};
use sqlite_value::keys::Collation;
use thes_base::fault::Table;

// Checks whether the declared type of a column is that of integers.
fn is_integer(kind: Kind) -> bool
    ensures { result ≡ wanted.is_integer kind }
{
    matches!(kind, Kind::Integer)
}

// Checks whether the declared type of a column is that of texts.
fn is_text(kind: Kind) -> bool
    ensures { result ≡ wanted.is_text kind }
{
    matches!(kind, Kind::Text)
}

// Checks whether the declared collation of a column compares texts by their bytes.
fn is_binary(collation: Collation) -> bool
    ensures { result ≡ wanted.is_binary collation }
{
    matches!(collation, Collation::Binary)
}

// Checks whether a column is declared with this name, in upper or lower case, takes only values of
// its declared type, and compares texts by their bytes.
fn is_strict(column: &Column, name: &str) -> bool
    ensures { result ≡ wanted.is_strict name.now column.now }
{
    same_name(column.name.as_slice(), name.as_bytes())
        && column.is_strict
        && is_binary(column.collation)
}

// Checks whether a column is declared with this name, and takes only integers or NULL.
fn is_optional_number(column: &Column, name: &str) -> bool
    ensures { result ≡ wanted.is_optional_number name.now column.now }
{
    is_strict(column, name) && is_integer(column.kind) && !column.not_null
}

// Checks whether a column is declared with this name, and takes only integers.
fn is_number(column: &Column, name: &str) -> bool
    ensures { result ≡ wanted.is_number name.now column.now }
{
    is_strict(column, name) && is_integer(column.kind) && column.not_null
}

// Checks whether a column is declared with this name, and takes only texts.
fn is_text_column(column: &Column, name: &str) -> bool
    ensures { result ≡ wanted.is_text_column name.now column.now }
{
    is_strict(column, name) && is_text(column.kind) && column.not_null
}

// Checks whether at least one of these columns is declared NOT NULL.
fn need_values(columns: &[Column]) -> bool
    ensures { result ≡ list_any wanted.needs_value columns.now }
{
    columns.iter().any(|column| column.not_null)
}

// Checks whether none of these columns is declared NOT NULL.
fn are_optional(columns: &[Column]) -> bool
    ensures { result ≡ wanted.are_optional columns.now }
{
    !need_values(columns)
}

// Checks whether the columns are declared as those of table meta, perhaps followed by columns that
// may be NULL.
fn has_meta_columns(columns: &[Column]) -> bool
    ensures { result ≡ wanted.has_meta_columns columns.now }
{
    match columns {
        [one, version, base, more @ ..] => {
            is_optional_number(one, "one")
                && is_number(version, "version")
                && is_text_column(base, "base")
                && are_optional(more)
        }
        _ => false,
    }
}

// Checks whether the columns are declared as those of table resource, perhaps followed by columns
// that may be NULL.
fn has_resource_columns(columns: &[Column]) -> bool
    ensures { result ≡ wanted.has_resource_columns columns.now }
{
    match columns {
        [num, kind, scheme, live, replaced, more @ ..] => {
            is_optional_number(num, "num")
                && is_number(kind, "kind")
                && is_optional_number(scheme, "scheme")
                && is_number(live, "live")
                && is_optional_number(replaced, "replaced")
                && are_optional(more)
        }
        _ => false,
    }
}

// Checks whether the columns are declared as those of table outside, perhaps followed by columns
// that may be NULL.
fn has_outside_columns(columns: &[Column]) -> bool
    ensures { result ≡ wanted.has_outside_columns columns.now }
{
    match columns {
        [num, iri, more @ ..] => {
            is_optional_number(num, "num") && is_text_column(iri, "iri") && are_optional(more)
        }
        _ => false,
    }
}

// Checks whether the columns are declared as those of table label, perhaps followed by columns that
// may be NULL.
fn has_label_columns(columns: &[Column]) -> bool
    ensures { result ≡ wanted.has_label_columns columns.now }
{
    match columns {
        [owner, kind, tag, text, more @ ..] => {
            is_number(owner, "owner")
                && is_number(kind, "kind")
                && is_text_column(tag, "tag")
                && is_text_column(text, "text")
                && are_optional(more)
        }
        _ => false,
    }
}

// Checks whether the columns are declared as three columns of integers with these names, as in
// tables link and hier, perhaps followed by columns that may be NULL.
fn has_three_columns(columns: &[Column], first: &str, second: &str, third: &str) -> bool
    ensures { result ≡ wanted.has_three_columns first.now second.now third.now columns.now }
{
    match columns {
        [a, b, c, more @ ..] => {
            is_number(a, first) && is_number(b, second) && is_number(c, third) && are_optional(more)
        }
        _ => false,
    }
}

// Checks whether the columns are declared as those of table posting, perhaps followed by columns
// that may be NULL.
fn has_posting_columns(columns: &[Column]) -> bool
    ensures { result ≡ wanted.has_posting_columns columns.now }
{
    match columns {
        [num, pkey, record, first, place, withdrawn, more @ ..] => {
            is_optional_number(num, "num")
                && is_text_column(pkey, "pkey")
                && is_text_column(record, "record")
                && is_number(first, "first_at")
                && is_number(place, "at")
                && is_number(withdrawn, "withdrawn")
                && are_optional(more)
        }
        _ => false,
    }
}

// Checks whether the columns are declared as those of table move, perhaps followed by columns that
// may be NULL.
fn has_move_columns(columns: &[Column]) -> bool
    ensures { result ≡ wanted.has_move_columns columns.now }
{
    match columns {
        [num, more @ ..] => is_optional_number(num, "num")
            && has_three_columns(more, "posting", "source", "target"),
        _ => false,
    }
}

// Checks whether the columns are declared as those of a store's table of this name, perhaps
// followed by columns that may be NULL.
fn has_columns(name: Table, columns: &[Column]) -> bool
    ensures { result ≡ wanted.has_columns name columns.now }
{
    match name {
        Table::Meta => has_meta_columns(columns),
        Table::Resource => has_resource_columns(columns),
        Table::Outside => has_outside_columns(columns),
        Table::Label => has_label_columns(columns),
        Table::Link => has_three_columns(columns, "kind", "a", "b"),
        Table::Hier => has_three_columns(columns, "a", "b", "typ"),
        Table::Posting => has_posting_columns(columns),
        Table::Move => has_move_columns(columns),
    }
}

// Checks whether a table is declared with its first column as the rowid.
fn is_numbered(table: &FoundTable) -> bool
    ensures { result ≡ wanted.is_numbered table.now.key }
{
    match table.key {
        Some(at) => at == 0,
        None => false,
    }
}

// Checks whether a table is declared with no key other than its rowid.
fn has_no_key(table: &FoundTable) -> bool
    ensures { result ≡ wanted.has_no_key table.now.uniques }
{
    match table.uniques.as_slice() {
        [] => true,
        _ => false,
    }
}

// Checks whether a declared key consists of the second column alone; `places` has the positions of
// its columns, counted from 1.
fn is_second(places: &[usize]) -> bool
    ensures { result ≡ wanted.is_second places.now }
{
    match places {
        [a] => *a == 2,
        _ => false,
    }
}

// Checks whether a declared key consists of the first three columns, in order; `places` has the
// positions of its columns, counted from 1.
fn are_three(places: &[usize]) -> bool
    ensures { result ≡ wanted.are_three places.now }
{
    match places {
        [a, b, c] => *a == 1 && *b == 2 && *c == 3,
        _ => false,
    }
}

// Checks whether a declared key consists of the first four columns, in order; `places` has the
// positions of its columns, counted from 1.
fn are_four(places: &[usize]) -> bool
    ensures { result ≡ wanted.are_four places.now }
{
    match places {
        [a, b, c, d] => *a == 1 && *b == 2 && *c == 3 && *d == 4,
        _ => false,
    }
}

// Checks whether a table is declared with its second column as the only key other than its rowid.
fn has_second_as_key(table: &FoundTable) -> bool
    ensures { result ≡ wanted.has_second_as_key table.now.uniques }
{
    match table.uniques.as_slice() {
        [key] => is_second(key.as_slice()),
        _ => false,
    }
}

// Checks whether a table is declared with its first three columns together as the only key other
// than its rowid.
fn has_three_as_key(table: &FoundTable) -> bool
    ensures { result ≡ wanted.has_three_as_key table.now.uniques }
{
    match table.uniques.as_slice() {
        [key] => are_three(key.as_slice()),
        _ => false,
    }
}

// Checks whether a table is declared with its first four columns together as the only key other
// than its rowid.
fn has_four_as_key(table: &FoundTable) -> bool
    ensures { result ≡ wanted.has_four_as_key table.now.uniques }
{
    match table.uniques.as_slice() {
        [key] => are_four(key.as_slice()),
        _ => false,
    }
}

// Checks whether a table is declared with the keys of a store's table of this name.
fn has_keys(name: Table, table: &FoundTable) -> bool
    ensures { result ≡ wanted.has_keys name table.now }
{
    match name {
        Table::Meta | Table::Resource | Table::Move => is_numbered(table) && has_no_key(table),
        Table::Outside | Table::Posting => is_numbered(table) && has_second_as_key(table),
        Table::Label => has_four_as_key(table),
        Table::Link | Table::Hier => has_three_as_key(table),
    }
}

// Checks whether a table is declared with neither foreign keys nor AUTOINCREMENT.
fn is_plain(table: &FoundTable) -> bool
    ensures { result ≡ wanted.is_plain table.now }
{
    match table.references.as_slice() {
        [] => !table.is_counted,
        _ => false,
    }
}

// Checks whether the name of an index begins with `sqlite_`, like the names that SQLite gives to
// the indexes of keys.
fn is_automatic(name: &[u8]) -> bool
    ensures { result ≡ wanted.is_automatic name.now }
{
    match name {
        [a, b, c, d, e, f, g, ..] => {
            *a == b's'
                && *b == b'q'
                && *c == b'l'
                && *d == b'i'
                && *e == b't'
                && *f == b'e'
                && *g == b'_'
        }
        _ => false,
    }
}

// Checks whether an index was made by a CREATE UNIQUE INDEX statement on the table in this tree,
// and so adds a key to that table.
fn adds_key(tree: u32, index: &Index) -> bool
    ensures { result ≡ wanted.adds_key tree index.now }
{
    index.table == tree && index.is_unique && !is_automatic(index.name.as_slice())
}

// Checks whether a CREATE UNIQUE INDEX statement, which `create_tables` doesn't use, has added a
// key to the table in this tree. `indexes` has all indexes of the schema.
fn has_added_key(tree: u32, indexes: &[Index]) -> bool
    ensures { result ≡ list_any (wanted.adds_key tree) indexes.now }
{
    indexes.iter().any(|index| adds_key(tree, index))
}

// Checks whether a table is declared as `create_tables` declares the table of this name. `indexes`
// has all indexes of the schema.
fn is_as_created(name: Table, table: &FoundTable, indexes: &[Index]) -> bool
    ensures { result ≡ wanted.is_as_created name indexes.now table.now }
{
    has_columns(name, table.columns.as_slice())
        && has_keys(name, table)
        && is_plain(table)
        && !has_added_key(table.tree, indexes)
}

// Checks whether a schema declares a table of this name as `create_tables` does.
#[tactic(auto, unfolding(crate::specs::Declarations::declares))]
fn is_in_schema(schema: &Schema, name: Table) -> bool
    ensures { result ≡ wanted.declares schema.now name }
{
    let Some(at) = schema.table_named(name.name().as_bytes()) else {
        return false;
    };
    match schema.tables.get(at) {
        Some(table) => is_as_created(name, table, schema.indexes.as_slice()),
        None => false,
    }
}

/// Checks whether a database declares a table as `create_tables` does. Ignores CHECK, DEFAULT,
/// further columns that may be NULL, and further tables, views and indexes that make no key.
pub fn declares<S: Alter>(conn: &Connection<S>, name: Table) -> bool
    ensures { result ≡ wanted.declares (state S.Store conn.now).now.schema name }
{
    is_in_schema(conn.schema(), name)
}
