//! The order of the eight tables, in which a load reads them.
ghost use Rattle.std.specs.Prelude.{◌≡◌};
ghost use Rattle.thes_tables.specs.TableOrder as order;

use thes_base::fault::Table;

/// Returns the eight tables in the order in which a load reads them.
pub fn tables_in_order() -> [Table; 8]
    ensures { result ≡ order.table_order }
{
    [
        Table::Meta,
        Table::Resource,
        Table::Outside,
        Table::Label,
        Table::Link,
        Table::Hier,
        Table::Posting,
        Table::Move,
    ]
}

/// Returns the table that a load reads after this one. The last table is its own successor.
pub fn next_table(table: Table) -> Table
    ensures { result ≡ order.next_table table }
{
    match table {
        Table::Meta => Table::Resource,
        Table::Resource => Table::Outside,
        Table::Outside => Table::Label,
        Table::Label => Table::Link,
        Table::Link => Table::Hier,
        Table::Hier => Table::Posting,
        Table::Posting | Table::Move => Table::Move,
    }
}

/// Returns the index of a table in the order of a load, from 0.
pub fn table_number(table: Table) -> u32
    ensures { result ≡ order.table_no table }
{
    match table {
        Table::Meta => 0,
        Table::Resource => 1,
        Table::Outside => 2,
        Table::Label => 3,
        Table::Link => 4,
        Table::Hier => 5,
        Table::Posting => 6,
        Table::Move => 7,
    }
}
