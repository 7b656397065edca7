//! Benchmarks of storages, for `bench/store` and `bench/load`. Prints times in microseconds.
//!
//! With `time` POSTS LOOKS: over a storage in memory, commits POSTS postings, one a commit; merges
//! a tenth of them; looks up LOOKS keys and LOOKS numbers; and loads all rows. With `time` POSTS 0
//! FILE: makes these postings and the merge in a new database in the file. With `time` POSTS LOOKS
//! FILE: makes the look-ups and the load in the store of POSTS postings in the file.
//!
//! With `load` RESOURCES POSTINGS TIMES: loads a generated store of this size TIMES times, and
//! prints the number of cores. With `rows` and the same arguments: generates the rows only, and
//! prints their number.
ghost use Rattle.std.specs.Prelude.{◌≡◌, false};
ghost use Rattle.test_keeper.specs.PostedTables.{AwaitsPosting};

mod database;
mod loading;
mod reading;

use crate::bench::database::{store_all, store_merge};
use crate::bench::loading::{Size, load_times, make_times};
use crate::bench::reading::{count_all_moves, find_all, load_all};
use crate::failure::Failure;
use sqlite::{Alter, Connection};
use std::alloc::Global;
use std::io;
use std::rt::{Clock, HostRuntime};
use std::time::Instant;
use test_keeper::workload::{CONCEPTS, merge, post_all};
use thes_base::number::ResNo;
use thes_base::text::Base;
use thes_sql::create::create_tables;
use thes_sqlite::keeper::SqlKeeper;
use thes_store::keeper::Keeper;
use thes_store::mem::MemKeeper;

// The use made of generated rows: they are loaded into cores, or counted.
enum LoadOutput {
    Cores,
    Rows,
}

// Prints the time since an instant, in microseconds.
fn print_time<R: Clock + Print>(rt: &R, name: &str, begun: &Instant) -> Result<(), Failure> {
    let micros = begun.elapsed(rt)?.as_micros();
    println!(rt; "{name} {micros}")?;
    Ok(())
}

// Parses a number in decimal, or returns 0.
fn number_in(word: &str) -> u32 {
    match ResNo::read(word) {
        Ok(number) => number.get(),
        Err(_) => 0,
    }
}

// Returns the number in the argument at this index, or 0 if there is none.
fn number(words: &[String], place: usize) -> u32 {
    match words.get(place) {
        Some(word) => number_in(word.as_str()),
        None => 0,
    }
}

// Times the commits of `posts` postings, and the merge of a tenth of them.
fn time_commits<R: Clock + Print + Alloc<A = Global>, K: Keeper>(
    rt: &R,
    keeper: &mut K,
    posts: u32,
) -> Result<(), Failure>
    requires { AwaitsPosting (K.view keeper.old) 1 }
{
    let alloc = rt.alloc();
    let begun = Instant::now(rt)?;
    post_all(alloc, keeper, posts)?;
    print_time(rt, "posts", &begun)?;
    let begun = Instant::now(rt)?;
    merge(alloc, keeper, posts, posts / CONCEPTS)?;
    print_time(rt, "merge", &begun)
}

// Times `looks` look-ups by key, `looks` by number, and a load.
fn time_reads<R: Clock + Print + Alloc<A = Global>, K: Keeper>(
    rt: &R,
    keeper: &mut K,
    posts: u32,
    looks: u32,
) -> Result<(), Failure> {
    let begun = Instant::now(rt)?;
    let _ = find_all(rt.alloc(), keeper, posts, looks)?;
    print_time(rt, "find", &begun)?;
    let begun = Instant::now(rt)?;
    let _ = count_all_moves(keeper, posts, looks)?;
    print_time(rt, "posting", &begun)?;
    let begun = Instant::now(rt)?;
    let _ = load_all(keeper)?;
    print_time(rt, "load", &begun)
}

// Times commits, look-ups and a load over a storage without postings.
fn time_keeper<R: Clock + Print + Alloc<A = Global>, K: Keeper>(
    rt: &R,
    keeper: &mut K,
    posts: u32,
    looks: u32,
) -> Result<(), Failure>
    requires { AwaitsPosting (K.view keeper.old) 1 }
{
    time_commits(rt, keeper, posts)?;
    time_reads(rt, keeper, posts, looks)
}

// Times commits, look-ups and a load over a storage in memory, with at most 1,000,000 postings.
fn time_memory<R: Clock + Print + Alloc<A = Global>>(
    rt: &R,
    posts: u32,
    looks: u32,
) -> Result<(), Failure> {
    let posts = posts.min(1_000_000);
    let base = Base::read(rt.alloc(), "http://example.org/")?;
    let mut keeper = MemKeeper::new(rt.alloc(), base);
    let timed = time_keeper(rt, &mut keeper, posts, looks);
    drop(keeper);
    timed
}

// Creates a store in a database, and times the commits of the workload by SQL statements.
fn time_stores<R: Clock + Print + Alloc<A = Global>, S: Alter>(
    rt: &R,
    conn: &mut Connection<S>,
    posts: u32,
) -> Result<(), Failure> {
    let alloc = rt.alloc();
    create_tables(conn, &Base::read(alloc, "http://example.org/")?)?;
    let begun = Instant::now(rt)?;
    store_all(alloc, conn, posts)?;
    print_time(rt, "stored", &begun)?;
    let begun = Instant::now(rt)?;
    store_merge(alloc, conn, ResNo::new(2), ResNo::new(3), posts)?;
    print_time(rt, "stored_merge", &begun)
}

// Times the look-ups and the load of a store, and returns its connection.
fn time_store<R: Clock + Print + Alloc<A = Global>, S: Alter>(
    rt: &R,
    conn: Connection<S>,
    posts: u32,
    looks: u32,
) -> (Result<(), Failure>, Connection<S>)
    requires { conn.in_transaction ≡ false }
{
    let mut keeper = SqlKeeper::adopt(rt.alloc(), conn);
    let timed = time_reads(rt, &mut keeper, posts, looks);
    (timed, keeper.into_connection())
}

// Times the look-ups and the load of a store, unless a transaction is open.
fn time_idle<R: Clock + Print + Alloc<A = Global>, S: Alter>(
    rt: &R,
    conn: Connection<S>,
    posts: u32,
    looks: u32,
) -> (Result<(), Failure>, Connection<S>) {
    if conn.is_autocommit() {
        time_store(rt, conn, posts, looks)
    } else {
        (Err(Failure::Busy), conn)
    }
}

// Times commits if `looks` is 0, or else look-ups and a load.
fn time_conn<R: Clock + Print + Alloc<A = Global>, S: Alter>(
    rt: &R,
    mut conn: Connection<S>,
    posts: u32,
    looks: u32,
) -> (Result<(), Failure>, Connection<S>) {
    if looks == 0 {
        let timed = time_stores(rt, &mut conn, posts);
        return (timed, conn);
    }
    time_idle(rt, conn, posts, looks)
}

// Times a store in a file.
fn time_file(rt: &HostRuntime, posts: u32, looks: u32, path: &str) -> Result<(), Failure> {
    let conn = Connection::open(rt, path)?;
    let (timed, conn) = time_conn(rt, conn, posts, looks);
    drop(conn);
    timed
}

// Generates the rows of a store, and loads or counts them, depending on `made`.
fn make_rows<R: Print + Alloc<A = Global>>(
    rt: &R,
    words: &[String],
    made: LoadOutput,
) -> Result<(), Failure> {
    let size = Size {
        resources: number(words, 0),
        postings: number(words, 1),
    };
    let (alloc, times) = (rt.alloc(), number(words, 2));
    match made {
        LoadOutput::Cores => {
            let cores = load_times(alloc, size, times)?;
            println!(rt; "cores {cores}")?;
        }
        LoadOutput::Rows => {
            let rows = make_times(alloc, size, times)?;
            println!(rt; "rows {rows}")?;
        }
    }
    Ok(())
}

// Times the storage that the arguments name, in memory or in a file.
fn time_keepers(rt: &HostRuntime, words: &[String]) -> Result<(), Failure> {
    let (posts, looks) = (number(words, 0), number(words, 1));
    match words.get(2) {
        _ if posts == 0 => Ok(()),
        Some(path) => time_file(rt, posts, looks, path.as_str()),
        None => time_memory(rt, posts, looks),
    }
}

// Runs the benchmark of this name with its arguments.
fn run_benchmark(rt: &HostRuntime, name: &str, words: &[String]) -> Result<(), Failure> {
    match name {
        "load" => make_rows(rt, words, LoadOutput::Cores),
        "rows" => make_rows(rt, words, LoadOutput::Rows),
        _ => time_keepers(rt, words),
    }
}

/// Runs the benchmark of this name with its arguments. If it stopped, prints the reason, and
/// returns an error.
pub fn print_benchmark(rt: &HostRuntime, name: &str, words: &[String]) -> io::Result<()> {
    match run_benchmark(rt, name, words) {
        Ok(()) => Ok(()),
        Err(failure) => {
            println!(rt; "{failure:?}")?;
            Err(io::Error::from(io::ErrorKind::InvalidData))
        }
    }
}
