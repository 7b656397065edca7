//! Tests of texts at the limits of their forms.
use Form::{Base, Iri, Key, Note, Record, Tag, Text};
use std::alloc::{AllocError, Global};
use std::test::Fail;
use thes_base::fault::{FormFault, ReadStop};
use thes_base::form;
use thes_base::form::{BaseForm, IriForm, KeyForm, NoteForm, RecordNameForm, TagForm, TextForm};
use thes_base::text::{self, Formed};

// The form in which a text is read.
#[derive(Clone, Copy, Debug, PartialEq, Eq)]
enum Form {
    Tag,
    Text,
    Note,
    Iri,
    Base,
    Key,
    Record,
}

impl Form {
    fn fault(self) -> FormFault {
        match self {
            Tag => FormFault::BadTag,
            Text | Note => FormFault::BadText,
            Iri | Base => FormFault::BadIri,
            Key => FormFault::BadKey,
            Record => FormFault::BadRecord,
        }
    }
}

// Reads a text, and returns its stored form, or an empty text if a clone of it isn't equal.
fn reread<F: form::Form>(alloc: Global, text: &str) -> Result<String, ReadStop> {
    let read: Formed<F> = Formed::read(alloc, text)?;
    let clone = read.try_clone(alloc)?;
    if read != clone {
        return Ok(String::new(alloc));
    }
    Ok(String::from_str(alloc, clone.as_str())?)
}

// Returns the stored form of a text, or the fault if the text doesn't have this form.
fn stored_form(alloc: Global, form: Form, given: &str) -> Result<String, ReadStop> {
    match form {
        Tag => reread::<TagForm>(alloc, given),
        Text => reread::<TextForm>(alloc, given),
        Note => reread::<NoteForm>(alloc, given),
        Iri => reread::<IriForm>(alloc, given),
        Base => reread::<BaseForm>(alloc, given),
        Key => reread::<KeyForm>(alloc, given),
        Record => reread::<RecordNameForm>(alloc, given),
    }
}

static KEPT: [(Form, &str); 21] = [
    (Tag, "e"),
    (Tag, "abcdefgh"),
    (Tag, "abcdefgh-12345678-abcdefgh-12345678"),
    (Text, "a"),
    (Text, "two words"),
    (Text, "Größe \u{1F431}"),
    (Text, "\"\\/\u{80}\u{A0}"),
    (Note, "All small cats."),
    (Key, "k"),
    (Key, "!~"),
    (Key, "a/b:c"),
    (Record, "r"),
    (Record, " "),
    (Record, " r 1 "),
    (Record, "é"),
    (Iri, "a:b"),
    (Iri, "http://example.org/x"),
    (Iri, "A+1-.z::"),
    (Iri, "x:é\u{7F}"),
    (Base, "http://example.org/"),
    (Base, "a:b"),
];

#[test]
fn a_text_of_the_form_is_kept(rt: HostRuntime) -> Result<(), Fail> {
    for (form, given) in &KEPT {
        let text = stored_form(rt.alloc(), *form, given)?;
        assert_eq!(rt; text.as_str(), *given, "{form:?}");
    }
    Ok(())
}

static LOWERED: [(&str, &str); 2] = [
    ("EN-GB", "en-gb"),
    ("sl-Rozaj-1994-abcdefgh", "sl-rozaj-1994-abcdefgh"),
];

#[test]
fn a_tag_is_kept_in_lower_case(rt: HostRuntime) -> Result<(), Fail> {
    for (given, lowered) in &LOWERED {
        let text = stored_form(rt.alloc(), Tag, given)?;
        assert_eq!(rt; text.as_str(), *lowered);
    }
    Ok(())
}

static REFUSED: [(Form, &[&str]); 5] = [
    (
        Tag,
        &[
            "",
            "-",
            "en-",
            "-en",
            "en--gb",
            "abcdefghi",
            "en-abcdefghi",
            "e1",
            "1-en",
            "en_gb",
            "en gb",
            "é",
            "en-é",
            "abcdefgh-12345678-abcdefgh-1234567-a",
        ],
    ),
    (
        Text,
        &[
            "", " ", " Cats", "Cats ", "\tCats", "a\nb", "Cats\0", "a\u{1F}b", "a\u{7F}",
        ],
    ),
    (Key, &[" k", "k 1", "k ", "k\u{7F}", "é"]),
    (Record, &["r\n", "\u{7F}"]),
    (
        Iri,
        &[
            "", "x", "a:", ":b", "1a:b", "é:b", "a_b:c", "a b:c", "a:b c", "a:<", "a:b>c", "a:\"",
            "a:{", "a:}", "a:|", "a:^", "a:`", "a:\\", "a:\u{1F}",
        ],
    ),
];

#[test]
fn a_text_of_another_form_is_refused(rt: HostRuntime) -> Result<(), Fail> {
    for (form, texts) in &REFUSED {
        for given in *texts {
            let stop = stored_form(rt.alloc(), *form, given).err();
            assert_eq!(rt;
                stop,
                Some(ReadStop::Form(form.fault())),
                "{form:?} {given:?}"
            );
        }
    }
    Ok(())
}

// Returns the start, followed by the letter `count` times.
fn with_repeated_letter(
    alloc: Global,
    start: &str,
    letter: char,
    count: usize,
) -> Result<String, AllocError> {
    let mut text = String::from_str(alloc, start)?;
    for _ in 0..count {
        text.push(letter)?;
    }
    Ok(text)
}

// A row of a table: the form, a start, the letter repeated after it, the number of repetitions, and
// whether a text may have this length. Lengths are in bytes: é has two.
static LENGTHS: [(Form, &str, char, usize, bool); 16] = [
    (Text, "", 'é', 128, true),
    (Text, "", 'é', 129, false),
    (Note, "", 'n', 0, false),
    (Note, "", 'n', 2000, true),
    (Note, "", 'n', 2001, false),
    (Key, "", 'k', 0, false),
    (Key, "", 'k', 64, true),
    (Key, "", 'k', 65, false),
    (Record, "", 'r', 0, false),
    (Record, "", 'r', 128, true),
    (Record, "", 'r', 129, false),
    (Base, "a:", 'b', 198, true),
    (Base, "a:", 'b', 199, false),
    (Iri, "a:", 'b', 199, true),
    (Iri, "a:", 'b', 510, true),
    (Iri, "a:", 'b', 511, false),
];

#[test]
fn each_form_has_a_longest_text(rt: HostRuntime) -> Result<(), Fail> {
    for (form, start, letter, count, fits) in &LENGTHS {
        let text = with_repeated_letter(rt.alloc(), start, *letter, *count)?;
        let is_kept = stored_form(rt.alloc(), *form, text.as_str()).is_ok();
        assert_eq!(rt; is_kept, *fits, "{form:?} {count}");
    }
    Ok(())
}

fn is_before(alloc: Global, first: &str, second: &str) -> Result<bool, ReadStop> {
    Ok(text::Text::read(alloc, first)? < text::Text::read(alloc, second)?)
}

#[test]
fn texts_are_ordered_by_their_bytes(rt: HostRuntime) -> Result<(), Fail> {
    for (first, second) in [("A", "a"), ("Z", "a"), ("Zz", "a"), ("!", "a"), ("a", "aa")] {
        assert!(rt; is_before(rt.alloc(), first, second)?, "{first}");
    }
    Ok(())
}
