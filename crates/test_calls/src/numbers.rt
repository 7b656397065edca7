//! Tests of numbers as texts: decimal digits without a leading zero, from 1 to 4,294,967,295.
use std::test::Fail;
use thes_base::fault::FormFault;
use thes_base::number::{MoveNo, PostNo, ResNo};

static READ: [(&str, Option<u32>); 16] = [
    ("1", Some(1)),
    ("9", Some(9)),
    ("10", Some(10)),
    ("20", Some(20)),
    ("4294967295", Some(4_294_967_295)),
    ("", None),
    ("0", None),
    ("01", None),
    ("+1", None),
    ("-1", None),
    (" 1", None),
    ("1 ", None),
    ("1.0", None),
    ("1e2", None),
    ("4294967296", None),
    ("99999999999999999999", None),
];

#[test]
fn numbers_are_read(rt: HostRuntime) -> Result<(), Fail> {
    for (text, number) in &READ {
        let number = number.ok_or(FormFault::BadNumber);
        assert_eq!(rt; ResNo::read(text).map(ResNo::get), number, "{text}");
        assert_eq!(rt; PostNo::read(text).map(PostNo::get), number, "{text}");
    }
    Ok(())
}

#[test]
fn numbers_are_made_of_plain_numbers(rt: HostRuntime) {
    assert_eq!(rt; ResNo::from_u32(0), None);
    assert_eq!(rt;
        ResNo::from_u32(4_294_967_295),
        Some(ResNo::new(4_294_967_295))
    );
    assert_eq!(rt; PostNo::from_u32(1), Some(PostNo::new(1)));
    assert_eq!(rt; MoveNo::from_u32(1), Some(MoveNo::new(1)));
    assert!(rt; ResNo::new(2) < ResNo::new(10));
}
