//! Values of builtins of a word alone, or of words and integers, computed by another tool.
use crate::rows::Line;
use crate::written::Written::{Bits, Int, Text};
use sail_types::Row;

/// A word and an integer, and the word.
pub const WORD_AND_INTEGER: &[Line] = &[
    (Row::AddBitsInt, &[Bits(0, 0x0), Int(5)], Some(Bits(0, 0x0))),
    (
        Row::AddBitsInt,
        &[Bits(8, 0x81), Int(0)],
        Some(Bits(8, 0x81)),
    ),
    (
        Row::AddBitsInt,
        &[Bits(8, 0x81), Int(1)],
        Some(Bits(8, 0x82)),
    ),
    (
        Row::AddBitsInt,
        &[Bits(8, 0x81), Int(-1)],
        Some(Bits(8, 0x80)),
    ),
    (
        Row::AddBitsInt,
        &[Bits(8, 0x81), Int(8)],
        Some(Bits(8, 0x89)),
    ),
    (
        Row::AddBitsInt,
        &[
            Bits(128, 0xffffffffffffffffffffffffffffffff),
            Int(85070591730234615865843651857942052864),
        ],
        Some(Bits(128, 0x3fffffffffffffffffffffffffffffff)),
    ),
    (
        Row::AddBitsInt,
        &[Bits(64, 0x8000000000000000), Int(63)],
        Some(Bits(64, 0x800000000000003f)),
    ),
    (Row::SubBitsInt, &[Bits(0, 0x0), Int(5)], Some(Bits(0, 0x0))),
    (
        Row::SubBitsInt,
        &[Bits(8, 0x81), Int(0)],
        Some(Bits(8, 0x81)),
    ),
    (
        Row::SubBitsInt,
        &[Bits(8, 0x81), Int(1)],
        Some(Bits(8, 0x80)),
    ),
    (
        Row::SubBitsInt,
        &[Bits(8, 0x81), Int(-1)],
        Some(Bits(8, 0x82)),
    ),
    (
        Row::SubBitsInt,
        &[Bits(8, 0x81), Int(8)],
        Some(Bits(8, 0x79)),
    ),
    (
        Row::SubBitsInt,
        &[
            Bits(128, 0xffffffffffffffffffffffffffffffff),
            Int(85070591730234615865843651857942052864),
        ],
        Some(Bits(128, 0xbfffffffffffffffffffffffffffffff)),
    ),
    (
        Row::SubBitsInt,
        &[Bits(64, 0x8000000000000000), Int(63)],
        Some(Bits(64, 0x7fffffffffffffc1)),
    ),
    (Row::Shiftl, &[Bits(0, 0x0), Int(5)], Some(Bits(0, 0x0))),
    (Row::Shiftl, &[Bits(8, 0x81), Int(0)], Some(Bits(8, 0x81))),
    (Row::Shiftl, &[Bits(8, 0x81), Int(1)], Some(Bits(8, 0x2))),
    (Row::Shiftl, &[Bits(8, 0x81), Int(-1)], None),
    (Row::Shiftl, &[Bits(8, 0x81), Int(8)], Some(Bits(8, 0x0))),
    (
        Row::Shiftl,
        &[
            Bits(128, 0xffffffffffffffffffffffffffffffff),
            Int(85070591730234615865843651857942052864),
        ],
        Some(Bits(128, 0x0)),
    ),
    (
        Row::Shiftl,
        &[Bits(64, 0x8000000000000000), Int(63)],
        Some(Bits(64, 0x0)),
    ),
    (Row::Shiftr, &[Bits(0, 0x0), Int(5)], Some(Bits(0, 0x0))),
    (Row::Shiftr, &[Bits(8, 0x81), Int(0)], Some(Bits(8, 0x81))),
    (Row::Shiftr, &[Bits(8, 0x81), Int(1)], Some(Bits(8, 0x40))),
    (Row::Shiftr, &[Bits(8, 0x81), Int(-1)], None),
    (Row::Shiftr, &[Bits(8, 0x81), Int(8)], Some(Bits(8, 0x0))),
    (
        Row::Shiftr,
        &[
            Bits(128, 0xffffffffffffffffffffffffffffffff),
            Int(85070591730234615865843651857942052864),
        ],
        Some(Bits(128, 0x0)),
    ),
    (
        Row::Shiftr,
        &[Bits(64, 0x8000000000000000), Int(63)],
        Some(Bits(64, 0x1)),
    ),
    (
        Row::ArithShiftr,
        &[Bits(0, 0x0), Int(5)],
        Some(Bits(0, 0x0)),
    ),
    (
        Row::ArithShiftr,
        &[Bits(8, 0x81), Int(0)],
        Some(Bits(8, 0x81)),
    ),
    (
        Row::ArithShiftr,
        &[Bits(8, 0x81), Int(1)],
        Some(Bits(8, 0xc0)),
    ),
    (Row::ArithShiftr, &[Bits(8, 0x81), Int(-1)], None),
    (
        Row::ArithShiftr,
        &[Bits(8, 0x81), Int(8)],
        Some(Bits(8, 0xff)),
    ),
    (
        Row::ArithShiftr,
        &[
            Bits(128, 0xffffffffffffffffffffffffffffffff),
            Int(85070591730234615865843651857942052864),
        ],
        Some(Bits(128, 0xffffffffffffffffffffffffffffffff)),
    ),
    (
        Row::ArithShiftr,
        &[Bits(64, 0x8000000000000000), Int(63)],
        Some(Bits(64, 0xffffffffffffffff)),
    ),
    (Row::Truncate, &[Bits(0, 0x0), Int(0)], Some(Bits(0, 0x0))),
    (Row::Truncate, &[Bits(8, 0xab), Int(0)], Some(Bits(0, 0x0))),
    (Row::Truncate, &[Bits(8, 0xab), Int(8)], Some(Bits(8, 0xab))),
    (Row::Truncate, &[Bits(8, 0xab), Int(9)], None),
    (Row::Truncate, &[Bits(8, 0xab), Int(-1)], None),
    (
        Row::Truncate,
        &[Bits(128, 0xffffffffffffffffffffffffffffffff), Int(127)],
        Some(Bits(127, 0x7fffffffffffffffffffffffffffffff)),
    ),
    (
        Row::ReplicateBits,
        &[Bits(8, 0xab), Int(0)],
        Some(Bits(0, 0x0)),
    ),
    (
        Row::ReplicateBits,
        &[Bits(8, 0xab), Int(1)],
        Some(Bits(8, 0xab)),
    ),
    (
        Row::ReplicateBits,
        &[Bits(8, 0xab), Int(3)],
        Some(Bits(24, 0xababab)),
    ),
    (
        Row::ReplicateBits,
        &[Bits(64, 0x5), Int(2)],
        Some(Bits(128, 0x50000000000000005)),
    ),
    (Row::ReplicateBits, &[Bits(64, 0x5), Int(3)], None),
    (
        Row::ReplicateBits,
        &[Bits(0, 0x0), Int(85070591730234615865843651857942052864)],
        Some(Bits(0, 0x0)),
    ),
    (Row::ReplicateBits, &[Bits(8, 0x1), Int(-1)], None),
];

/// An integer and a word, and the word.
pub const INTEGER_AND_WORD: &[Line] = &[
    (Row::ZeroExtend, &[Int(0), Bits(0, 0x0)], Some(Bits(0, 0x0))),
    (Row::ZeroExtend, &[Int(8), Bits(0, 0x0)], Some(Bits(8, 0x0))),
    (
        Row::ZeroExtend,
        &[Int(8), Bits(8, 0x80)],
        Some(Bits(8, 0x80)),
    ),
    (
        Row::ZeroExtend,
        &[Int(16), Bits(8, 0x80)],
        Some(Bits(16, 0x80)),
    ),
    (
        Row::ZeroExtend,
        &[Int(128), Bits(1, 0x1)],
        Some(Bits(128, 0x1)),
    ),
    (Row::ZeroExtend, &[Int(7), Bits(8, 0x1)], None),
    (Row::ZeroExtend, &[Int(129), Bits(8, 0x1)], None),
    (Row::SignExtend, &[Int(0), Bits(0, 0x0)], Some(Bits(0, 0x0))),
    (Row::SignExtend, &[Int(8), Bits(0, 0x0)], Some(Bits(8, 0x0))),
    (
        Row::SignExtend,
        &[Int(8), Bits(8, 0x80)],
        Some(Bits(8, 0x80)),
    ),
    (
        Row::SignExtend,
        &[Int(16), Bits(8, 0x80)],
        Some(Bits(16, 0xff80)),
    ),
    (
        Row::SignExtend,
        &[Int(128), Bits(1, 0x1)],
        Some(Bits(128, 0xffffffffffffffffffffffffffffffff)),
    ),
    (Row::SignExtend, &[Int(7), Bits(8, 0x1)], None),
    (Row::SignExtend, &[Int(129), Bits(8, 0x1)], None),
];

/// A width, for `to_bits` an integer too, and the word.
pub const MADE_BITS: &[Line] = &[
    (Row::ToBits, &[Int(0), Int(5)], Some(Bits(0, 0x0))),
    (Row::ToBits, &[Int(8), Int(-1)], Some(Bits(8, 0xff))),
    (Row::ToBits, &[Int(8), Int(256)], Some(Bits(8, 0x0))),
    (
        Row::ToBits,
        &[Int(128), Int(-85070591730234615865843651857942052864)],
        Some(Bits(128, 0xc0000000000000000000000000000000)),
    ),
    (Row::ToBits, &[Int(129), Int(0)], None),
    (Row::ToBits, &[Int(-1), Int(0)], None),
    (
        Row::ToBits,
        &[Int(126), Int(85070591730234615865843651857942052864)],
        Some(Bits(126, 0x0)),
    ),
    (Row::Zeros, &[Int(0)], Some(Bits(0, 0x0))),
    (Row::Zeros, &[Int(1)], Some(Bits(1, 0x0))),
    (Row::Zeros, &[Int(64)], Some(Bits(64, 0x0))),
    (Row::Zeros, &[Int(128)], Some(Bits(128, 0x0))),
    (Row::Zeros, &[Int(129)], None),
    (Row::Zeros, &[Int(-1)], None),
    (Row::Ones, &[Int(0)], Some(Bits(0, 0x0))),
    (Row::Ones, &[Int(1)], Some(Bits(1, 0x1))),
    (Row::Ones, &[Int(64)], Some(Bits(64, 0xffffffffffffffff))),
    (
        Row::Ones,
        &[Int(128)],
        Some(Bits(128, 0xffffffffffffffffffffffffffffffff)),
    ),
    (Row::Ones, &[Int(129)], None),
    (Row::Ones, &[Int(-1)], None),
];

/// A word, and the integer.
pub const ONE_WORD: &[Line] = &[
    (Row::Unsigned, &[Bits(0, 0x0)], Some(Int(0))),
    (Row::Unsigned, &[Bits(1, 0x1)], Some(Int(1))),
    (Row::Unsigned, &[Bits(8, 0x80)], Some(Int(128))),
    (
        Row::Unsigned,
        &[Bits(126, 0x3fffffffffffffffffffffffffffffff)],
        Some(Int(85070591730234615865843651857942052863)),
    ),
    (Row::Unsigned, &[Bits(127, 0x1)], None),
    (Row::Unsigned, &[Bits(128, 0x0)], None),
    (Row::Unsigned, &[Bits(64, 0x1)], Some(Int(1))),
    (Row::Signed, &[Bits(0, 0x0)], None),
    (Row::Signed, &[Bits(1, 0x1)], Some(Int(-1))),
    (Row::Signed, &[Bits(8, 0x80)], Some(Int(-128))),
    (
        Row::Signed,
        &[Bits(126, 0x3fffffffffffffffffffffffffffffff)],
        Some(Int(-1)),
    ),
    (Row::Signed, &[Bits(127, 0x1)], None),
    (Row::Signed, &[Bits(128, 0x0)], None),
    (Row::Signed, &[Bits(64, 0x1)], Some(Int(1))),
    (Row::Length, &[Bits(0, 0x0)], Some(Int(0))),
    (Row::Length, &[Bits(1, 0x1)], Some(Int(1))),
    (Row::Length, &[Bits(8, 0x80)], Some(Int(8))),
    (
        Row::Length,
        &[Bits(126, 0x3fffffffffffffffffffffffffffffff)],
        Some(Int(126)),
    ),
    (Row::Length, &[Bits(127, 0x1)], Some(Int(127))),
    (Row::Length, &[Bits(128, 0x0)], Some(Int(128))),
    (Row::Length, &[Bits(64, 0x1)], Some(Int(64))),
    (Row::CountLeadingZeros, &[Bits(0, 0x0)], Some(Int(0))),
    (Row::CountLeadingZeros, &[Bits(1, 0x1)], Some(Int(0))),
    (Row::CountLeadingZeros, &[Bits(8, 0x80)], Some(Int(0))),
    (
        Row::CountLeadingZeros,
        &[Bits(126, 0x3fffffffffffffffffffffffffffffff)],
        Some(Int(0)),
    ),
    (Row::CountLeadingZeros, &[Bits(127, 0x1)], Some(Int(126))),
    (Row::CountLeadingZeros, &[Bits(128, 0x0)], Some(Int(128))),
    (Row::CountLeadingZeros, &[Bits(64, 0x1)], Some(Int(63))),
];

/// A word of a width, and its bits turned.
pub const TURNED: &[Line] = &[
    (Row::NotBits, &[Bits(0, 0x0)], Some(Bits(0, 0x0))),
    (Row::NotBits, &[Bits(1, 0x0)], Some(Bits(1, 0x1))),
    (Row::NotBits, &[Bits(8, 0xf)], Some(Bits(8, 0xf0))),
    (
        Row::NotBits,
        &[Bits(64, 0xffffffffffffffff)],
        Some(Bits(64, 0x0)),
    ),
    (
        Row::NotBits,
        &[Bits(65, 0x1)],
        Some(Bits(65, 0x1fffffffffffffffe)),
    ),
    (
        Row::NotBits,
        &[Bits(128, 0x0)],
        Some(Bits(128, 0xffffffffffffffffffffffffffffffff)),
    ),
];

/// A word, and its text.
pub const BIT_TEXTS: &[Line] = &[
    (Row::BitsStr, &[Bits(0, 0x0)], Some(Text("0b"))),
    (Row::BitsStr, &[Bits(1, 0x1)], Some(Text("0b1"))),
    (Row::BitsStr, &[Bits(3, 0x5)], Some(Text("0b101"))),
    (Row::BitsStr, &[Bits(4, 0xa)], Some(Text("0xa"))),
    (Row::BitsStr, &[Bits(8, 0x3)], Some(Text("0x03"))),
    (Row::BitsStr, &[Bits(12, 0xaf)], Some(Text("0x0af"))),
];
