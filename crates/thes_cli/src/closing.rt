//! Closes the database of a store when the work over the store has ended.
ghost use Rattle.thes_cli.specs.Stores.{ClosesLeft, open_leaving};

use sqlite::Connection;
use thes_jobs::databases::Databases;
use thes_sqlite::reopening::Leaving;

/// The result of closing the database of a store: what is left of its files, and whether failures
/// have cast doubt on a request or shut a database.
#[derive(Drop)]
pub struct Closed<C> {
    /// What is left of the files; None if no database is open at the end.
    pub files: Option<C>,
    /// What is left of the files if their database couldn't be opened.
    pub rest: Option<C>,
    /// Whether a request whose answer was the fault `Store` may have been performed.
    pub is_in_doubt: bool,
    /// Whether a failure has shut the database that was opened first.
    pub is_reopened: bool,
}

/// Closes the database that work over a store leaves, if there is one. `rest` is what a failed
/// opening has left of the files.
pub fn close_left<D: Databases>(
    databases: &D,
    left: Leaving<D::Engine>,
    rest: Option<D::Left>,
) -> Closed<D::Left>
    ensures { ClosesLeft D.Engine.Store D.is_clean D.holds D.finds left rest result }
{
    let Leaving {
        conn,
        is_in_doubt,
        is_reopened,
    } = left;
    let mut conn = conn;
    Closed {
        files: databases.close(&mut conn),
        rest,
        is_in_doubt,
        is_reopened,
    }
}

/// Closes a database that no failure has shut, if there is one. `rest` is what a failed opening has
/// left of the files.
pub fn close_open<D: Databases>(
    databases: &D,
    conn: Option<Connection<D::Engine>>,
    rest: Option<D::Left>,
) -> Closed<D::Left>
    ensures { ClosesLeft D.Engine.Store D.is_clean D.holds D.finds (open_leaving conn) rest result }
{
    let left = Leaving {
        conn,
        is_in_doubt: false,
        is_reopened: false,
    };
    close_left(databases, left, rest)
}
