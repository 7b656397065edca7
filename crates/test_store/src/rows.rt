//! The rows of stores in files.
mod filling;
mod lines;
mod showing;

use crate::failure::Failure;
use crate::rows::filling::fill;
use crate::rows::lines::Lines;
use crate::rows::showing::{load, look_up};
use sqlite::{Alter, Connection};
use std::alloc::Global;
use std::io;
use std::rt::HostRuntime;
use thes_base::text::Base;
use thes_sqlite::keeper::SqlKeeper;

// Appends the rows of a database to the lines, and the results of look-ups if `looks_up`; returns
// the connection.
fn read<S: Alter>(
    alloc: Global,
    conn: Connection<S>,
    looks_up: bool,
    lines: &mut Lines,
) -> Connection<S> {
    if !conn.is_autocommit() {
        return conn;
    }
    let mut keeper = SqlKeeper::adopt(alloc, conn);
    if load(&mut keeper, lines).is_ok() && looks_up {
        let _ = look_up(alloc, &mut keeper, lines);
    }
    keeper.into_connection()
}

// Creates the tables of a new store with this base IRI. Returns the connection, also on a fault.
fn create_store<S: Alter>(alloc: Global, conn: Connection<S>, base: &Base) -> Connection<S> {
    if !conn.is_autocommit() {
        return conn;
    }
    match SqlKeeper::create(alloc, conn, base) {
        Ok(keeper) => keeper.into_connection(),
        Err((_, conn)) => conn,
    }
}

// Creates and fills a store if there is a base for it, and appends the rows of the database to the
// lines.
fn work<S: Alter>(
    alloc: Global,
    conn: Connection<S>,
    base: Option<&Base>,
    lines: &mut Lines,
) -> (Result<(), Failure>, Connection<S>) {
    let Some(base) = base else {
        return (Ok(()), read(alloc, conn, false, lines));
    };
    let mut conn = create_store(alloc, conn, base);
    let filled = fill(alloc, &mut conn);
    (filled, read(alloc, conn, true, lines))
}

// Opens a database in a file, creates and fills a store in it if there is a base for it, and prints
// the rows and whether the database was closed.
fn work_in(rt: &HostRuntime, path: &str, base: Option<&Base>) -> io::Result<()> {
    let Ok(conn) = Connection::open(rt, path) else {
        return println!(rt; "not opened");
    };
    let mut lines = Lines::new(rt.alloc());
    let (filled, conn) = work(rt.alloc(), conn, base, &mut lines);
    let closed = conn.close().is_ok();
    if let Err(failure) = filled {
        println!(rt; "{failure:?}")?;
    }
    print!(rt; "{}", lines.as_str())?;
    println!(rt; "closed: {closed}")
}

// Creates a store in a file, makes changes of each kind in it, and prints its rows.
fn make(rt: &HostRuntime, path: &str) -> io::Result<()> {
    let Ok(base) = Base::read(rt.alloc(), "https://thesaurus.example/id/") else {
        return println!(rt; "no base");
    };
    work_in(rt, path, Some(&base))
}

/// Creates a store in the file that the first argument names, makes changes of each kind in it, and
/// prints its rows.
pub fn print_new_store(rt: &HostRuntime, words: &[String]) -> io::Result<()> {
    match words.first() {
        Some(path) => make(rt, path.as_str()),
        None => println!(rt; "no path"),
    }
}

// Prints the rows of the store in a file.
fn show(rt: &HostRuntime, path: &str) -> io::Result<()> {
    println!(rt; "{path}:")?;
    work_in(rt, path, None)
}

/// Prints the rows of the stores in the files that the arguments name.
pub fn print_stores(rt: &HostRuntime, words: &[String]) -> io::Result<()> {
    for path in words {
        show(rt, path.as_str())?;
    }
    Ok(())
}
