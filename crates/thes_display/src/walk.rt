//! Writes a hierarchy line by line, in a depth-first walk. A concept has a line below each of its
//! broader concepts. The line below its home is its line at home, and only there are the concept's
//! own children written; a top concept's only line is at home.
ghost use Rattle.std.specs.Prelude.{◌≡◌, ◌+◌, ◌*◌, ◌<◌, ◌++◌, [], length, reverse, map, replicate, slice_set, IfOk, OnOk, vec_len, if◌then◌else◌};
ghost use Rattle.thes_display.specs.Lines.{line_end, placed_text, types_text};
ghost use Rattle.thes_display.specs.ChildLists.{children_at, lists, total, waiting_at, AreHierarchyLists, IsHierarchyText};

use crate::term::Term;
use std::alloc::{AllocError, Global};
use std::mem;

/// The types of the links from a concept to a broader one; there may be several.
#[derive(Clone, Copy)]
pub struct Types {
    pub generic: bool,
    pub partitive: bool,
    pub instantial: bool,
}

/// A child of a concept: its rank, the types of its links to that concept, and whether that concept
/// is its home.
#[derive(Clone, Copy)]
pub struct Child {
    pub rank: usize,
    pub types: Types,
    pub at_home: bool,
}

/// A line on the stack of the walk, still to be written.
#[derive(Clone, Copy)]
pub struct WaitingLine {
    rank: usize,
    depth: usize,
    types: Types,
    at_home: bool,
}

// Appends two spaces for each level below the top concept.
fn indent(text: &mut Vec<u8>, depth: usize) -> Result<(), AllocError>
    ensures { OnOk result (text.new.items ≡ text.old.items ++ replicate (2 * depth) 32) }
{
    for _i in 0..depth {
        text.extend_from_slice(b"  ")?;
    }
    Ok(())
}

// Appends the bytes to a line if `wanted` is true.
fn write_if(text: &mut Vec<u8>, wanted: bool, bytes: &[u8]) -> Result<(), AllocError>
    ensures { OnOk result (text.new.items ≡ text.old.items ++ (if wanted then bytes.now else [])) }
{
    if wanted {
        text.extend_from_slice(bytes)?;
    }
    Ok(())
}

// Appends the types of the links to the broader concept, as ` (G)`, ` (P)` or ` (I)`.
fn write_types(text: &mut Vec<u8>, types: Types) -> Result<(), AllocError>
    ensures { OnOk result (text.new.items ≡ text.old.items ++ types_text types) }
{
    write_if(text, types.generic, b" (G)")?;
    write_if(text, types.partitive, b" (P)")?;
    write_if(text, types.instantial, b" (I)")
}

// Appends a line feed, after ` *` if the line isn't at home.
fn write_end(text: &mut Vec<u8>, at_home: bool) -> Result<(), AllocError>
    ensures { OnOk result (text.new.items ≡ text.old.items ++ line_end at_home) }
{
    if at_home {
        text.extend_from_slice(b"\n")
    } else {
        text.extend_from_slice(b" *\n")
    }
}

// Appends the line of a concept: indentation, term, types and end.
fn write_line(text: &mut Vec<u8>, terms: &[Term], line: WaitingLine) -> Result<(), AllocError>
    requires { line.rank < length terms.now }
    ensures { OnOk result
        (text.new.items ≡ text.old.items
        ++ placed_text terms.now line.rank line.depth line.types line.at_home) }
{
    indent(text, line.depth)?;
    text.extend_from_slice(terms[line.rank].text())?;
    write_types(text, line.types)?;
    write_end(text, line.at_home)?;
    Ok(())
}

// Pushes the lines of the children, at this depth, onto the stack in reverse order, so that the
// first is popped first.
fn push_below(
    stack: &mut Vec<WaitingLine>,
    mut children: Vec<Child>,
    depth: usize,
) -> Result<(), AllocError>
    ensures { OnOk result
        (stack.new.items ≡ stack.old.items ++ reverse (map (waiting_at depth) children.items)) }
{
    while let Some(child) = children.pop() {
        stack.push(WaitingLine {
            rank: child.rank,
            depth,
            types: child.types,
            at_home: child.at_home,
        })?;
    }
    Ok(())
}

// Removes and returns the children of the concept with this rank, which are written only once.
fn take_below(alloc: Global, below: &mut Vec<Vec<Child>>, rank: usize) -> Vec<Child>
    requires { rank < length (lists below.old.items) }
    ensures taken { result.items ≡ children_at (lists below.old.items) rank }
    ensures left { lists below.new.items ≡ slice_set (lists below.old.items) rank [] }
    ensures fewer { total below.new.items + vec_len result ≡ total below.old.items }
{
    mem::replace(&mut below[rank], Vec::new(alloc))
}

/// Returns the lines of a hierarchy in the order of their paths: each concept before its children,
/// and the children in the order of their ranks. Only a line at home has lines of children below
/// it.
pub fn hierarchy_text(
    alloc: Global,
    terms: &[Term],
    tops: Vec<Child>,
    mut below: Vec<Vec<Child>>,
) -> Result<Vec<u8>, AllocError>
    requires { AreHierarchyLists tops.items (lists below.items) (length terms.now) }
    ensures { IfOk result
        (λ text. IsHierarchyText terms.now tops.items (lists below.items) text.items) }
{
    let mut text = Vec::new(alloc);
    let mut stack = Vec::new(alloc);
    push_below(&mut stack, tops, 0)?;
    while let Some(next) = stack.pop() {
        write_line(&mut text, terms, next)?;
        if next.at_home {
            let children = take_below(alloc, &mut below, next.rank);
            push_below(&mut stack, children, next.depth + 1)?;
        }
    }
    Ok(text)
}
