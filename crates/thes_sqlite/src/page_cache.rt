//! The number of a database's pages to keep in memory.
ghost use Rattle.std.specs.Prelude.{◌≡◌, ◌≤◌, ◌+◌, ◌/◌, min};
ghost use Rattle.sqlite_wal.specs.PageSize.{IsPageSize, size_in_file};

use sqlite_wal::PageSize;

// The most memory for pages, in bytes: 256 MiB.
const MOST_MEMORY: u64 = 268_435_456;

// The number of pages beyond those that the file has when it is opened, since it may grow.
const SPARE_PAGES: u64 = 2_000;

// The page size of a new database file, in bytes.
const NEW_SIZE: usize = 4_096;

// Returns the page size that bytes 16 and 17 of a database file state, counted from 0, where 1
// means 65,536; 0 if `head` has no such bytes.
fn number_of_size(head: &[u8]) -> usize
    ensures { result ≡ size_in_file head.now }
{
    if head.len() < 18 {
        return 0;
    }
    match usize::from(head[16]) * 256 + usize::from(head[17]) {
        1 => 65_536,
        number => number,
    }
}

/// Returns the page size that the first bytes of a database file state, or that of a new file if
/// they state none.
pub(crate) fn stated_page_size(head: &[u8]) -> u64
    ensures stated { IsPageSize (size_in_file head.now) → result ≡ size_in_file head.now }
    ensures least { 512 ≤ result }
    ensures most { result ≤ 65_536 }
{
    match PageSize::new(number_of_size(head)) {
        Some(size) => size.bytes() as u64,
        None => NEW_SIZE as u64,
    }
}

/// Returns the number of a database's pages to keep in memory: as many as the file has, and 2,000
/// more, but at most 256 MiB.
pub(crate) fn page_count(file_size: u64, page_size: u64) -> u64
    requires { 512 ≤ page_size }
    ensures { result ≡ min (file_size / page_size + 2_000) (268_435_456 / page_size) }
{
    let pages = file_size / page_size + SPARE_PAGES;
    pages.min(MOST_MEMORY / page_size)
}
