//! The law that the verdict doesn't depend on the order of rows within a table.
ghost use Rattle.thes_row_lists.specs.RowOrder.{AnyOrder};

/// No effect; for the proof, states that the verdict doesn't depend on the order of rows within a
/// table, once numbered tables are sorted by number.
pub fn any_order()
    ensures { AnyOrder }
{}
