use sail_base::{Boxed, Items, Text, dec_text, hex_text};
use std::test::Fail;

#[test]
fn lists_grow_where_memory_is_ample(rt: HostRuntime) -> Result<(), Fail> {
    let alloc = rt.alloc();
    let mut list = Items::from_slice(alloc, &[1u8, 2])?;
    list.push(3)?;
    list.append(Items::from_slice(alloc, &[4, 5])?)?;
    assert!(rt; list.as_slice() == [1u8, 2, 3, 4, 5].as_slice());
    Ok(())
}

#[test]
fn boxes_are_made_where_memory_is_ample(rt: HostRuntime) -> Result<(), Fail> {
    let boxed = Boxed::new(rt.alloc(), 7u8)?;
    assert!(rt; boxed.into_inner() == 7);
    Ok(())
}

#[test]
fn texts_are_made_where_memory_is_ample(rt: HostRuntime) -> Result<(), Fail> {
    let alloc = rt.alloc();
    let text = Text::new(alloc, "PC")?;
    let copy = text.clone()?;
    assert!(rt; copy.is("PC"));
    assert!(rt; copy == Text::from_ascii(alloc, b"PC")?);
    Ok(())
}

/// Numbers, and their texts.
const NUMBERS: &[(i128, &str)] = &[
    (0, "0"),
    (-1, "-1"),
    (
        85070591730234615865843651857942052864,
        "85070591730234615865843651857942052864",
    ),
    (i128::MIN, "-170141183460469231731687303715884105728"),
];

#[test]
fn numbers_are_printed(rt: HostRuntime) -> Result<(), Fail> {
    for (number, text) in NUMBERS {
        let made = dec_text(rt.alloc(), *number)?;
        assert!(rt; made.as_str() == *text, "{text}");
    }
    Ok(())
}

#[test]
fn bytes_are_printed(rt: HostRuntime) -> Result<(), Fail> {
    let alloc = rt.alloc();
    let three = hex_text(alloc, &[0x00, 0xa5, 0xff])?;
    assert!(rt; three.as_str() == "00a5ff");
    let none = hex_text(alloc, &[])?;
    assert!(rt; none.as_str() == "");
    Ok(())
}
