//! Tests that labels, histories, requests and lists return their parts and equal their clones.
use std::alloc::{AllocError, Global};
use std::test::Fail;
use thes_base::data::{History, Label, LabelKind, LabelValue, Limits, Move, Moves, NewResource};
use thes_base::fault::ReadStop;
use thes_base::number::{MoveNo, PostNo, ResNo};
use thes_base::request::{Command, PostNos};
use thes_base::text::{Key, Note, RecordName, Tag, Text};

// Checks whether a value equals its clone. Both are dropped here, in generic code, since the drop
// of a value of many parts is slow to prove.
fn is_equal<T: PartialEq + Drop>(value: T, clone: Result<T, AllocError>) -> bool {
    match clone {
        Ok(clone) => value == clone,
        Err(_) => false,
    }
}

// Returns the value of a lexical label: a preferred, an alternative, or else a hidden one.
fn name(kind: LabelKind, text: Text) -> LabelValue {
    match kind {
        LabelKind::Pref => LabelValue::Pref(text),
        LabelKind::Alt => LabelValue::Alt(text),
        _ => LabelValue::Hidden(text),
    }
}

fn value(alloc: Global, kind: LabelKind, text: &str) -> Result<LabelValue, ReadStop> {
    if kind == LabelKind::Scope {
        let note = Note::read(alloc, text)?;
        return Ok(LabelValue::Scope(note));
    }
    let text = Text::read(alloc, text)?;
    Ok(name(kind, text))
}

fn label(alloc: Global, kind: LabelKind, text: &str) -> Result<Label, ReadStop> {
    Ok(Label {
        tag: Tag::read(alloc, "en")?,
        value: value(alloc, kind, text)?,
    })
}

// Checks whether a new label has the given kind and text, and equals its clone.
fn returns_its_parts(alloc: Global, kind: LabelKind, text: &str) -> Result<bool, ReadStop> {
    let label = label(alloc, kind, text)?;
    let shows = label.kind() == kind && label.text() == text;
    let clone = label.try_clone(alloc);
    Ok(is_equal(label, clone) && shows)
}

#[test]
fn a_label_shows_its_kind_and_its_text(rt: HostRuntime) -> Result<(), Fail> {
    for kind in [
        LabelKind::Pref,
        LabelKind::Alt,
        LabelKind::Hidden,
        LabelKind::Scope,
    ] {
        assert!(rt; returns_its_parts(rt.alloc(), kind, "Cats")?, "{kind:?}");
    }
    Ok(())
}

// Returns a history of posting 1 with these moves.
fn history(alloc: Global, moves: Moves) -> Result<History, ReadStop> {
    let key = Key::read(alloc, "k1")?;
    let rec = RecordName::read(alloc, "r1")?;
    Ok(History {
        number: PostNo::new(1),
        key,
        rec,
        first: ResNo::new(2),
        moves,
        withdrawn: false,
    })
}

// Returns a history without moves.
fn history_without_moves(alloc: Global) -> Result<History, ReadStop> {
    history(alloc, Moves::new(alloc))
}

// Returns a history with one move.
fn history_with_a_move(alloc: Global) -> Result<History, ReadStop> {
    let mut moves = Moves::new(alloc);
    moves.push(Move {
        number: MoveNo::new(1),
        source: ResNo::new(2),
        target: ResNo::new(3),
    })?;
    history(alloc, moves)
}

fn is_copied_history(alloc: Global, history: History) -> bool {
    let clone = history.try_clone(alloc);
    is_equal(history, clone)
}

#[test]
fn a_history_is_equal_to_its_clone(rt: HostRuntime) -> Result<(), Fail> {
    let moved_once = history_with_a_move(rt.alloc())?;
    assert_eq!(rt; moved_once.moves.as_slice().len(), 1);
    assert!(rt; is_copied_history(rt.alloc(), moved_once));
    assert!(rt; is_copied_history(rt.alloc(), history_without_moves(rt.alloc())?));
    Ok(())
}

fn is_same_history(one: &History, other: &History) -> bool {
    *one == *other
}

#[test]
fn a_moved_history_is_another(rt: HostRuntime) -> Result<(), Fail> {
    assert!(rt;
        !is_same_history(
            &history_with_a_move(rt.alloc())?,
            &history_without_moves(rt.alloc())?
        )
    );
    Ok(())
}

#[test]
fn the_usual_limits(rt: HostRuntime) {
    let limits = Limits::default();
    let counts = [
        limits.resources,
        limits.labels,
        limits.links,
        limits.postings,
        limits.moves,
    ];
    assert_eq!(rt; counts, [20_000, 200_000, 200_000, 100_000, 1_000_000]);
}

fn is_copied(alloc: Global, new: NewResource) -> bool {
    let clone = new.try_clone(alloc);
    is_equal(new, clone)
}

#[test]
fn a_new_resource_is_equal_to_its_clone(rt: HostRuntime) -> Result<(), Fail> {
    let alloc = rt.alloc();
    for text in ["Animals", "Cats"] {
        let (tag, text) = (Tag::read(alloc, "en")?, Text::read(alloc, text)?);
        assert!(rt; is_copied(alloc, NewResource::Scheme(tag, text)));
    }
    for text in ["Cats", "Dogs"] {
        let (tag, text) = (Tag::read(alloc, "en")?, Text::read(alloc, text)?);
        assert!(rt; is_copied(alloc, NewResource::Concept(ResNo::new(1), tag, text)));
    }
    Ok(())
}

fn is_repeated(alloc: Global, command: Command) -> bool {
    let clone = command.try_clone(alloc);
    is_equal(command, clone)
}

#[test]
fn a_merge_is_equal_to_its_clone(rt: HostRuntime) {
    let merge = Command::Merge(ResNo::new(2), ResNo::new(3));
    assert!(rt; is_repeated(rt.alloc(), merge));
}

fn post(alloc: Global) -> Result<Command, ReadStop> {
    let key = Key::read(alloc, "k1")?;
    let rec = RecordName::read(alloc, "r1")?;
    Ok(Command::Post(key, rec, ResNo::new(2)))
}

#[test]
fn a_post_is_equal_to_its_clone(rt: HostRuntime) -> Result<(), Fail> {
    let post = post(rt.alloc())?;
    assert!(rt; is_repeated(rt.alloc(), post));
    Ok(())
}

// Returns the numbers 2 and 1, made from a vector.
fn numbers_from_a_list(alloc: Global) -> Result<PostNos, AllocError> {
    let list = [PostNo::new(2), PostNo::new(1)].to_vec(alloc)?;
    Ok(PostNos::from(list))
}

// Returns the numbers 2 and 1, pushed one by one.
fn numbers_by_pushing(alloc: Global) -> Result<PostNos, AllocError> {
    let mut numbers = PostNos::new(alloc);
    numbers.push(PostNo::new(2))?;
    numbers.push(PostNo::new(1))?;
    Ok(numbers)
}

fn is_copied_list(alloc: Global, list: PostNos) -> bool {
    let clone = list.try_clone(alloc);
    is_equal(list, clone)
}

#[test]
fn a_list_of_postings_holds_what_was_pushed(rt: HostRuntime) -> Result<(), Fail> {
    let two = numbers_by_pushing(rt.alloc())?;
    assert_eq!(rt; two.as_slice().len(), 2);
    assert!(rt; is_equal(two, numbers_from_a_list(rt.alloc())));
    assert!(rt; is_copied_list(rt.alloc(), numbers_from_a_list(rt.alloc())?));
    Ok(())
}
