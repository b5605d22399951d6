//! Values of builtins of integers, computed by another tool.
use crate::rows::Line;
use crate::written::Written::{Int, Text, Truth};
use sail_types::Row;

/// Two integers, and the integer.
pub const TWO_INTEGERS: &[Line] = &[
    (Row::AddInt, &[Int(0), Int(0)], Some(Int(0))),
    (
        Row::AddInt,
        &[Int(85070591730234615865843651857942052864), Int(0)],
        Some(Int(85070591730234615865843651857942052864)),
    ),
    (
        Row::AddInt,
        &[Int(85070591730234615865843651857942052864), Int(1)],
        None,
    ),
    (
        Row::AddInt,
        &[Int(-85070591730234615865843651857942052864), Int(-1)],
        None,
    ),
    (
        Row::AddInt,
        &[
            Int(85070591730234615865843651857942052864),
            Int(-85070591730234615865843651857942052864),
        ],
        Some(Int(0)),
    ),
    (Row::AddInt, &[Int(5), Int(-8)], Some(Int(-3))),
    (Row::SubInt, &[Int(0), Int(0)], Some(Int(0))),
    (
        Row::SubInt,
        &[Int(-85070591730234615865843651857942052864), Int(1)],
        None,
    ),
    (
        Row::SubInt,
        &[
            Int(85070591730234615865843651857942052864),
            Int(85070591730234615865843651857942052864),
        ],
        Some(Int(0)),
    ),
    (
        Row::SubInt,
        &[Int(85070591730234615865843651857942052864), Int(-1)],
        None,
    ),
    (
        Row::SubInt,
        &[Int(0), Int(85070591730234615865843651857942052864)],
        Some(Int(-85070591730234615865843651857942052864)),
    ),
    (Row::SubInt, &[Int(3), Int(9)], Some(Int(-6))),
    (
        Row::MultInt,
        &[Int(0), Int(85070591730234615865843651857942052864)],
        Some(Int(0)),
    ),
    (
        Row::MultInt,
        &[Int(-1), Int(85070591730234615865843651857942052864)],
        Some(Int(-85070591730234615865843651857942052864)),
    ),
    (
        Row::MultInt,
        &[Int(2), Int(85070591730234615865843651857942052864)],
        None,
    ),
    (
        Row::MultInt,
        &[Int(9223372036854775808), Int(9223372036854775808)],
        Some(Int(85070591730234615865843651857942052864)),
    ),
    (
        Row::MultInt,
        &[Int(9223372036854775808), Int(-9223372036854775808)],
        Some(Int(-85070591730234615865843651857942052864)),
    ),
    (Row::MultInt, &[Int(-7), Int(6)], Some(Int(-42))),
    (Row::MinInt, &[Int(0), Int(0)], Some(Int(0))),
    (
        Row::MinInt,
        &[
            Int(85070591730234615865843651857942052864),
            Int(-85070591730234615865843651857942052864),
        ],
        Some(Int(-85070591730234615865843651857942052864)),
    ),
    (Row::MinInt, &[Int(-1), Int(0)], Some(Int(-1))),
    (Row::MinInt, &[Int(1), Int(0)], Some(Int(0))),
    (Row::MinInt, &[Int(5), Int(5)], Some(Int(5))),
    (Row::MinInt, &[Int(-3), Int(-4)], Some(Int(-4))),
    (Row::MaxInt, &[Int(0), Int(0)], Some(Int(0))),
    (
        Row::MaxInt,
        &[
            Int(85070591730234615865843651857942052864),
            Int(-85070591730234615865843651857942052864),
        ],
        Some(Int(85070591730234615865843651857942052864)),
    ),
    (Row::MaxInt, &[Int(-1), Int(0)], Some(Int(0))),
    (Row::MaxInt, &[Int(1), Int(0)], Some(Int(1))),
    (Row::MaxInt, &[Int(5), Int(5)], Some(Int(5))),
    (Row::MaxInt, &[Int(-3), Int(-4)], Some(Int(-3))),
    (Row::EdivInt, &[Int(7), Int(2)], Some(Int(3))),
    (Row::EdivInt, &[Int(-7), Int(2)], Some(Int(-4))),
    (
        Row::EdivInt,
        &[Int(-1), Int(85070591730234615865843651857942052864)],
        Some(Int(-1)),
    ),
    (
        Row::EdivInt,
        &[Int(85070591730234615865843651857942052864), Int(1)],
        Some(Int(85070591730234615865843651857942052864)),
    ),
    (Row::EdivInt, &[Int(7), Int(0)], None),
    (Row::EdivInt, &[Int(7), Int(-2)], None),
    (Row::EmodInt, &[Int(7), Int(2)], Some(Int(1))),
    (Row::EmodInt, &[Int(-7), Int(2)], Some(Int(1))),
    (
        Row::EmodInt,
        &[Int(-1), Int(85070591730234615865843651857942052864)],
        Some(Int(85070591730234615865843651857942052863)),
    ),
    (
        Row::EmodInt,
        &[Int(85070591730234615865843651857942052864), Int(1)],
        Some(Int(0)),
    ),
    (Row::EmodInt, &[Int(7), Int(0)], None),
    (Row::EmodInt, &[Int(-8), Int(4)], Some(Int(0))),
    (Row::TdivInt, &[Int(7), Int(2)], Some(Int(3))),
    (Row::TdivInt, &[Int(-7), Int(2)], Some(Int(-3))),
    (Row::TdivInt, &[Int(7), Int(-2)], Some(Int(-3))),
    (Row::TdivInt, &[Int(-7), Int(-2)], Some(Int(3))),
    (
        Row::TdivInt,
        &[Int(85070591730234615865843651857942052864), Int(-1)],
        Some(Int(-85070591730234615865843651857942052864)),
    ),
    (Row::TdivInt, &[Int(7), Int(0)], None),
    (Row::TmodInt, &[Int(7), Int(2)], Some(Int(1))),
    (Row::TmodInt, &[Int(-7), Int(2)], Some(Int(-1))),
    (Row::TmodInt, &[Int(7), Int(-2)], Some(Int(1))),
    (Row::TmodInt, &[Int(-7), Int(-2)], Some(Int(-1))),
    (
        Row::TmodInt,
        &[Int(85070591730234615865843651857942052864), Int(-1)],
        Some(Int(0)),
    ),
    (Row::TmodInt, &[Int(7), Int(0)], None),
];

/// Two integers, and the truth.
pub const COMPARED_INTEGERS: &[Line] = &[
    (Row::LtInt, &[Int(0), Int(0)], Some(Truth(false))),
    (Row::LtInt, &[Int(-1), Int(0)], Some(Truth(true))),
    (Row::LtInt, &[Int(0), Int(-1)], Some(Truth(false))),
    (
        Row::LtInt,
        &[
            Int(85070591730234615865843651857942052864),
            Int(-85070591730234615865843651857942052864),
        ],
        Some(Truth(false)),
    ),
    (
        Row::LtInt,
        &[
            Int(-85070591730234615865843651857942052864),
            Int(85070591730234615865843651857942052864),
        ],
        Some(Truth(true)),
    ),
    (Row::LtInt, &[Int(7), Int(7)], Some(Truth(false))),
    (Row::LteqInt, &[Int(0), Int(0)], Some(Truth(true))),
    (Row::LteqInt, &[Int(-1), Int(0)], Some(Truth(true))),
    (Row::LteqInt, &[Int(0), Int(-1)], Some(Truth(false))),
    (
        Row::LteqInt,
        &[
            Int(85070591730234615865843651857942052864),
            Int(-85070591730234615865843651857942052864),
        ],
        Some(Truth(false)),
    ),
    (
        Row::LteqInt,
        &[
            Int(-85070591730234615865843651857942052864),
            Int(85070591730234615865843651857942052864),
        ],
        Some(Truth(true)),
    ),
    (Row::LteqInt, &[Int(7), Int(7)], Some(Truth(true))),
    (Row::GtInt, &[Int(0), Int(0)], Some(Truth(false))),
    (Row::GtInt, &[Int(-1), Int(0)], Some(Truth(false))),
    (Row::GtInt, &[Int(0), Int(-1)], Some(Truth(true))),
    (
        Row::GtInt,
        &[
            Int(85070591730234615865843651857942052864),
            Int(-85070591730234615865843651857942052864),
        ],
        Some(Truth(true)),
    ),
    (
        Row::GtInt,
        &[
            Int(-85070591730234615865843651857942052864),
            Int(85070591730234615865843651857942052864),
        ],
        Some(Truth(false)),
    ),
    (Row::GtInt, &[Int(7), Int(7)], Some(Truth(false))),
    (Row::GteqInt, &[Int(0), Int(0)], Some(Truth(true))),
    (Row::GteqInt, &[Int(-1), Int(0)], Some(Truth(false))),
    (Row::GteqInt, &[Int(0), Int(-1)], Some(Truth(true))),
    (
        Row::GteqInt,
        &[
            Int(85070591730234615865843651857942052864),
            Int(-85070591730234615865843651857942052864),
        ],
        Some(Truth(true)),
    ),
    (
        Row::GteqInt,
        &[
            Int(-85070591730234615865843651857942052864),
            Int(85070591730234615865843651857942052864),
        ],
        Some(Truth(false)),
    ),
    (Row::GteqInt, &[Int(7), Int(7)], Some(Truth(true))),
    (Row::Eq, &[Int(0), Int(0)], Some(Truth(true))),
    (Row::Eq, &[Int(-1), Int(0)], Some(Truth(false))),
    (Row::Eq, &[Int(0), Int(-1)], Some(Truth(false))),
    (
        Row::Eq,
        &[
            Int(85070591730234615865843651857942052864),
            Int(-85070591730234615865843651857942052864),
        ],
        Some(Truth(false)),
    ),
    (
        Row::Eq,
        &[
            Int(-85070591730234615865843651857942052864),
            Int(85070591730234615865843651857942052864),
        ],
        Some(Truth(false)),
    ),
    (Row::Eq, &[Int(7), Int(7)], Some(Truth(true))),
    (Row::Neq, &[Int(0), Int(0)], Some(Truth(false))),
    (Row::Neq, &[Int(-1), Int(0)], Some(Truth(true))),
    (Row::Neq, &[Int(0), Int(-1)], Some(Truth(true))),
    (
        Row::Neq,
        &[
            Int(85070591730234615865843651857942052864),
            Int(-85070591730234615865843651857942052864),
        ],
        Some(Truth(true)),
    ),
    (
        Row::Neq,
        &[
            Int(-85070591730234615865843651857942052864),
            Int(85070591730234615865843651857942052864),
        ],
        Some(Truth(true)),
    ),
    (Row::Neq, &[Int(7), Int(7)], Some(Truth(false))),
];

/// An integer, and the integer.
pub const ONE_INTEGER: &[Line] = &[
    (Row::NegInt, &[Int(0)], Some(Int(0))),
    (Row::NegInt, &[Int(1)], Some(Int(-1))),
    (Row::NegInt, &[Int(-1)], Some(Int(1))),
    (
        Row::NegInt,
        &[Int(85070591730234615865843651857942052864)],
        Some(Int(-85070591730234615865843651857942052864)),
    ),
    (
        Row::NegInt,
        &[Int(-85070591730234615865843651857942052864)],
        Some(Int(85070591730234615865843651857942052864)),
    ),
    (Row::NegInt, &[Int(12)], Some(Int(-12))),
    (Row::AbsInt, &[Int(0)], Some(Int(0))),
    (Row::AbsInt, &[Int(1)], Some(Int(1))),
    (Row::AbsInt, &[Int(-1)], Some(Int(1))),
    (
        Row::AbsInt,
        &[Int(85070591730234615865843651857942052864)],
        Some(Int(85070591730234615865843651857942052864)),
    ),
    (
        Row::AbsInt,
        &[Int(-85070591730234615865843651857942052864)],
        Some(Int(85070591730234615865843651857942052864)),
    ),
    (Row::AbsInt, &[Int(-12)], Some(Int(12))),
    (Row::Pow2, &[Int(0)], Some(Int(1))),
    (Row::Pow2, &[Int(1)], Some(Int(2))),
    (
        Row::Pow2,
        &[Int(126)],
        Some(Int(85070591730234615865843651857942052864)),
    ),
    (Row::Pow2, &[Int(127)], None),
    (Row::Pow2, &[Int(-1)], None),
    (Row::Pow2, &[Int(64)], Some(Int(18446744073709551616))),
];

/// An integer, and its text.
pub const DECIMALS: &[Line] = &[
    (Row::DecStr, &[Int(0)], Some(Text("0"))),
    (Row::DecStr, &[Int(-1)], Some(Text("-1"))),
    (Row::DecStr, &[Int(7)], Some(Text("7"))),
    (
        Row::DecStr,
        &[Int(85070591730234615865843651857942052864)],
        Some(Text("85070591730234615865843651857942052864")),
    ),
    (
        Row::DecStr,
        &[Int(-85070591730234615865843651857942052864)],
        Some(Text("-85070591730234615865843651857942052864")),
    ),
    (Row::DecStr, &[Int(1000000)], Some(Text("1000000"))),
];
