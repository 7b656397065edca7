//! Exports and displays of the store that an example's requests make.
use std::alloc::Global;
use std::io;
use test_office::office_calls::{display_in, export_in};
use test_office::{Store, invalid, store_after};
use thes_base::number::ResNo;
use thes_base::text::Tag;
use thes_display::writing::DisplayOutcome;
use thes_requests::request::{Display, DisplayRequest};

/// Returns a text of the store after the requests: its export, a display, or the name of the
/// refusal of a display.
pub fn text_after(alloc: Global, requests: &str, text: &str) -> io::Result<String> {
    match text {
        "export" => export_after(alloc, requests),
        _ => display_after(alloc, requests, text),
    }
}

fn export_text(alloc: Global, store: &mut Store) -> io::Result<String> {
    let (written, ended) = export_in(alloc, &mut store.handler, Vec::new(alloc));
    match ended {
        Ok(()) => String::from_utf8(written).map_err(|_| invalid()),
        Err(_) => Err(invalid()),
    }
}

fn export_after(alloc: Global, requests: &str) -> io::Result<String> {
    let mut store = store_after(alloc, requests)?;
    let text = export_text(alloc, &mut store);
    drop(store);
    text
}

fn display_kind(name: &str) -> io::Result<Display> {
    match name {
        "alphabetical" => Ok(Display::Alphabetical),
        "hierarchical" => Ok(Display::Hierarchical),
        _ => Err(invalid()),
    }
}

// Returns a display of a store, or the name of its refusal.
fn display_text(
    alloc: Global,
    store: &mut Store,
    wanted: &DisplayRequest<'_>,
) -> io::Result<String> {
    let (written, shown) = display_in(alloc, &mut store.handler, wanted, Vec::new(alloc));
    match shown {
        Ok(DisplayOutcome::Written) => String::from_utf8(written).map_err(|_| invalid()),
        Ok(DisplayOutcome::No(refusal)) => Ok(format!(in alloc; "{}\n", refusal.name())?),
        Err(_) => Err(invalid()),
    }
}

// Returns the display, given by its kind, scheme and language, of the store after the requests.
fn display_after(alloc: Global, requests: &str, text: &str) -> io::Result<String> {
    let mut words = text.split(' ');
    let kind = display_kind(words.next().unwrap_or(""))?;
    let scheme = ResNo::read(words.next().unwrap_or("")).map_err(|_| invalid())?;
    let tag = Tag::read(alloc, words.next().unwrap_or("")).map_err(|_| invalid())?;
    let mut store = store_after(alloc, requests)?;
    let wanted = DisplayRequest {
        kind,
        scheme,
        tag: &tag,
    };
    let text = display_text(alloc, &mut store, &wanted);
    drop(store);
    text
}
