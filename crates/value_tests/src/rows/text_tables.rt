//! Values of builtins of texts, of truths, of counts and of values that are compared, computed by another tool.
use crate::rows::Line;
use crate::written::Written;
use crate::written::Written::{Bit, Bits, Int, Member, Text, Truth, Unit};
use sail_types::Row;

/// Two texts, and the first with the second behind it.
pub const JOINED: &[Line] = &[
    (Row::ConcatStr, &[Text(""), Text("")], Some(Text(""))),
    (Row::ConcatStr, &[Text(""), Text("a")], Some(Text("a"))),
    (Row::ConcatStr, &[Text("a"), Text("")], Some(Text("a"))),
    (
        Row::ConcatStr,
        &[Text("hi"), Text(" there")],
        Some(Text("hi there")),
    ),
    (
        Row::ConcatStr,
        &[Text("0x"), Text("ff")],
        Some(Text("0xff")),
    ),
    (
        Row::ConcatStr,
        &[Text("\n"), Text("\n")],
        Some(Text("\n\n")),
    ),
    (
        Row::ConcatStr,
        &[Text("aa"), Text("aa")],
        Some(Text("aaaa")),
    ),
];

/// A truth, and its other or its bits; nothing of no value, of another one and of two.
pub const TRUTHS: &[Line] = &[
    (Row::NotBool, &[Truth(false)], Some(Truth(true))),
    (Row::BoolToBits, &[Truth(false)], Some(Bits(1, 0))),
    (Row::NotBool, &[Truth(true)], Some(Truth(false))),
    (Row::BoolToBits, &[Truth(true)], Some(Bits(1, 1))),
    (Row::NotBool, &[], None),
    (Row::NotBool, &[Int(1)], None),
    (Row::NotBool, &[Bit(true)], None),
    (Row::NotBool, &[Truth(true), Truth(true)], None),
    (Row::BoolToBits, &[], None),
    (Row::BoolToBits, &[Int(1)], None),
    (Row::BoolToBits, &[Bit(true)], None),
    (Row::BoolToBits, &[Truth(true), Truth(true)], None),
];

/// How many items are asked for, and the length of the vector; none where there is no such vector.
pub const REPEATED: &[(i128, Option<Written>)] = &[
    (0, Some(Int(0))),
    (1, Some(Int(1))),
    (2, Some(Int(2))),
    (4095, Some(Int(4095))),
    (4096, Some(Int(4096))),
    (4097, None),
    (-1, None),
    (85070591730234615865843651857942052864, None),
];

/// Two values, and whether they are the same; none where they can't be compared.
pub const COMPARED: &[(&[Written], Option<bool>)] = &[
    (&[Text(""), Text("")], Some(true)),
    (&[Text(""), Text("a")], Some(false)),
    (&[Text("a"), Text("a")], Some(true)),
    (&[Text("a"), Text("A")], Some(false)),
    (&[Text("ab"), Text("abc")], Some(false)),
    (&[Text("ab"), Text("ba")], Some(false)),
    (&[Truth(false), Truth(false)], Some(true)),
    (&[Bit(false), Bit(false)], Some(true)),
    (&[Bit(false), Truth(false)], None),
    (&[Truth(false), Truth(true)], Some(false)),
    (&[Bit(false), Bit(true)], Some(false)),
    (&[Bit(false), Truth(true)], None),
    (&[Truth(true), Truth(false)], Some(false)),
    (&[Bit(true), Bit(false)], Some(false)),
    (&[Bit(true), Truth(false)], None),
    (&[Truth(true), Truth(true)], Some(true)),
    (&[Bit(true), Bit(true)], Some(true)),
    (&[Bit(true), Truth(true)], None),
    (&[Member(0, 0), Member(0, 0)], Some(true)),
    (&[Member(0, 0), Member(0, 1)], Some(false)),
    (&[Member(7, 3), Member(7, 3)], Some(true)),
    (&[Member(7, 3), Member(8, 3)], None),
    (&[Member(0, 4294967295), Member(0, 4294967295)], Some(true)),
    (&[Member(1, 0), Member(0, 1)], None),
    (&[Unit, Unit], Some(true)),
    (&[Bits(8, 1), Bits(9, 1)], None),
];
