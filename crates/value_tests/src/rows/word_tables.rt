//! Values of builtins of two words, computed by another tool.
use crate::rows::Line;
use crate::written::Written::{Bits, Truth};
use sail_types::Row;

/// Two words, each a width and a number, and the word.
pub const TWO_WORDS: &[Line] = &[
    (
        Row::AddBits,
        &[Bits(0, 0x0), Bits(0, 0x0)],
        Some(Bits(0, 0x0)),
    ),
    (
        Row::AddBits,
        &[
            Bits(128, 0xffffffffffffffffffffffffffffffff),
            Bits(128, 0x1),
        ],
        Some(Bits(128, 0x0)),
    ),
    (
        Row::AddBits,
        &[Bits(64, 0xffffffffffffffff), Bits(64, 0xffffffffffffffff)],
        Some(Bits(64, 0xfffffffffffffffe)),
    ),
    (
        Row::AddBits,
        &[Bits(1, 0x1), Bits(1, 0x1)],
        Some(Bits(1, 0x0)),
    ),
    (
        Row::AddBits,
        &[Bits(63, 0x7953a6f252e6b438), Bits(63, 0x32899387269e0d37)],
        Some(Bits(63, 0x2bdd3a797984c16f)),
    ),
    (
        Row::AddBits,
        &[Bits(65, 0xc5c7fd0a6a3a450), Bits(65, 0x892f902bd23f0824)],
        Some(Bits(65, 0x958c0ffc78e2ac74)),
    ),
    (Row::AddBits, &[Bits(8, 0x1), Bits(9, 0x1)], None),
    (
        Row::SubBits,
        &[Bits(0, 0x0), Bits(0, 0x0)],
        Some(Bits(0, 0x0)),
    ),
    (
        Row::SubBits,
        &[
            Bits(128, 0xffffffffffffffffffffffffffffffff),
            Bits(128, 0x1),
        ],
        Some(Bits(128, 0xfffffffffffffffffffffffffffffffe)),
    ),
    (
        Row::SubBits,
        &[Bits(64, 0xffffffffffffffff), Bits(64, 0xffffffffffffffff)],
        Some(Bits(64, 0x0)),
    ),
    (
        Row::SubBits,
        &[Bits(1, 0x1), Bits(1, 0x1)],
        Some(Bits(1, 0x0)),
    ),
    (
        Row::SubBits,
        &[Bits(63, 0x4a98cc2e5d9dc9f8), Bits(63, 0x74712eca0ed90475)],
        Some(Bits(63, 0x56279d644ec4c583)),
    ),
    (
        Row::SubBits,
        &[Bits(65, 0x36f675cc81e74ef5), Bits(65, 0x6f03675a1600a35a)],
        Some(Bits(65, 0x1c7f30e726be6ab9b)),
    ),
    (Row::SubBits, &[Bits(8, 0x1), Bits(9, 0x1)], None),
    (
        Row::MultBits,
        &[Bits(0, 0x0), Bits(0, 0x0)],
        Some(Bits(0, 0x0)),
    ),
    (
        Row::MultBits,
        &[
            Bits(128, 0xffffffffffffffffffffffffffffffff),
            Bits(128, 0x1),
        ],
        Some(Bits(128, 0xffffffffffffffffffffffffffffffff)),
    ),
    (
        Row::MultBits,
        &[Bits(64, 0xffffffffffffffff), Bits(64, 0xffffffffffffffff)],
        Some(Bits(64, 0x1)),
    ),
    (
        Row::MultBits,
        &[Bits(1, 0x1), Bits(1, 0x1)],
        Some(Bits(1, 0x1)),
    ),
    (
        Row::MultBits,
        &[Bits(63, 0x1ece0b9211e20b8f), Bits(63, 0x4688b7671738f7d9)],
        Some(Bits(63, 0x178ed617a20ac537)),
    ),
    (
        Row::MultBits,
        &[Bits(65, 0x10f21ddb66cad4a26), Bits(65, 0x11fb17c2390c192cf)],
        Some(Bits(65, 0xfa5f4408fb0ea0ba)),
    ),
    (Row::MultBits, &[Bits(8, 0x1), Bits(9, 0x1)], None),
    (
        Row::AndBits,
        &[Bits(0, 0x0), Bits(0, 0x0)],
        Some(Bits(0, 0x0)),
    ),
    (
        Row::AndBits,
        &[
            Bits(128, 0xffffffffffffffffffffffffffffffff),
            Bits(128, 0x1),
        ],
        Some(Bits(128, 0x1)),
    ),
    (
        Row::AndBits,
        &[Bits(64, 0xffffffffffffffff), Bits(64, 0xffffffffffffffff)],
        Some(Bits(64, 0xffffffffffffffff)),
    ),
    (
        Row::AndBits,
        &[Bits(1, 0x1), Bits(1, 0x1)],
        Some(Bits(1, 0x1)),
    ),
    (
        Row::AndBits,
        &[Bits(63, 0x50b8599c39263059), Bits(63, 0x4a9fa478a09f76b5)],
        Some(Bits(63, 0x4098001820063011)),
    ),
    (
        Row::AndBits,
        &[Bits(65, 0x10fd630f1f29d0da9), Bits(65, 0x658cda1495e60af5)],
        Some(Bits(65, 0x5841010908408a1)),
    ),
    (Row::AndBits, &[Bits(8, 0x1), Bits(9, 0x1)], None),
    (
        Row::OrBits,
        &[Bits(0, 0x0), Bits(0, 0x0)],
        Some(Bits(0, 0x0)),
    ),
    (
        Row::OrBits,
        &[
            Bits(128, 0xffffffffffffffffffffffffffffffff),
            Bits(128, 0x1),
        ],
        Some(Bits(128, 0xffffffffffffffffffffffffffffffff)),
    ),
    (
        Row::OrBits,
        &[Bits(64, 0xffffffffffffffff), Bits(64, 0xffffffffffffffff)],
        Some(Bits(64, 0xffffffffffffffff)),
    ),
    (
        Row::OrBits,
        &[Bits(1, 0x1), Bits(1, 0x1)],
        Some(Bits(1, 0x1)),
    ),
    (
        Row::OrBits,
        &[Bits(63, 0x1c4c68c8f9ebdacc), Bits(63, 0x4740cb9f0becd7b0)],
        Some(Bits(63, 0x5f4cebdffbefdffc)),
    ),
    (
        Row::OrBits,
        &[Bits(65, 0x2217beaddbc496cb), Bits(65, 0x124ede6a46b4cb242)],
        Some(Bits(65, 0x126fffeadfbccb6cb)),
    ),
    (Row::OrBits, &[Bits(8, 0x1), Bits(9, 0x1)], None),
    (
        Row::XorBits,
        &[Bits(0, 0x0), Bits(0, 0x0)],
        Some(Bits(0, 0x0)),
    ),
    (
        Row::XorBits,
        &[
            Bits(128, 0xffffffffffffffffffffffffffffffff),
            Bits(128, 0x1),
        ],
        Some(Bits(128, 0xfffffffffffffffffffffffffffffffe)),
    ),
    (
        Row::XorBits,
        &[Bits(64, 0xffffffffffffffff), Bits(64, 0xffffffffffffffff)],
        Some(Bits(64, 0x0)),
    ),
    (
        Row::XorBits,
        &[Bits(1, 0x1), Bits(1, 0x1)],
        Some(Bits(1, 0x0)),
    ),
    (
        Row::XorBits,
        &[Bits(63, 0x4913b32c1e27a1c0), Bits(63, 0x47b682ac4ef8aa38)],
        Some(Bits(63, 0xea5318050df0bf8)),
    ),
    (
        Row::XorBits,
        &[Bits(65, 0xae97ba94d0eda82f), Bits(65, 0x194e3bf911a61dbe2)],
        Some(Bits(65, 0x13a740505ca8c73cd)),
    ),
    (Row::XorBits, &[Bits(8, 0x1), Bits(9, 0x1)], None),
    (
        Row::MulWideUu,
        &[Bits(0, 0x0), Bits(0, 0x0)],
        Some(Bits(0, 0x0)),
    ),
    (
        Row::MulWideUu,
        &[
            Bits(128, 0xffffffffffffffffffffffffffffffff),
            Bits(128, 0x1),
        ],
        None,
    ),
    (
        Row::MulWideUu,
        &[Bits(64, 0xffffffffffffffff), Bits(64, 0xffffffffffffffff)],
        Some(Bits(128, 0xfffffffffffffffe0000000000000001)),
    ),
    (
        Row::MulWideUu,
        &[Bits(1, 0x1), Bits(1, 0x1)],
        Some(Bits(2, 0x1)),
    ),
    (
        Row::MulWideUu,
        &[Bits(63, 0x180c2862a38fd547), Bits(63, 0xc789ae95f557203)],
        Some(Bits(126, 0x12be624ca380b526710e884213c1dd5)),
    ),
    (
        Row::MulWideUu,
        &[Bits(65, 0xb64ce4228c38fb29), Bits(65, 0x10f4205b4907a70c3)],
        None,
    ),
    (Row::MulWideUu, &[Bits(8, 0x1), Bits(9, 0x1)], None),
    (
        Row::MulWideSs,
        &[Bits(0, 0x0), Bits(0, 0x0)],
        Some(Bits(0, 0x0)),
    ),
    (
        Row::MulWideSs,
        &[
            Bits(128, 0xffffffffffffffffffffffffffffffff),
            Bits(128, 0x1),
        ],
        None,
    ),
    (
        Row::MulWideSs,
        &[Bits(64, 0xffffffffffffffff), Bits(64, 0xffffffffffffffff)],
        Some(Bits(128, 0x1)),
    ),
    (
        Row::MulWideSs,
        &[Bits(1, 0x1), Bits(1, 0x1)],
        Some(Bits(2, 0x1)),
    ),
    (
        Row::MulWideSs,
        &[Bits(63, 0x3f8a829234b9b5df), Bits(63, 0x440f68b1ae2eb154)],
        Some(Bits(126, 0x311f5c7fc140f869be2ff898f3c0dc2c)),
    ),
    (
        Row::MulWideSs,
        &[Bits(65, 0xc6f877186d76b07e), Bits(65, 0x195e761d17731af10)],
        None,
    ),
    (Row::MulWideSs, &[Bits(8, 0x1), Bits(9, 0x1)], None),
    (
        Row::MulWideSu,
        &[Bits(0, 0x0), Bits(0, 0x0)],
        Some(Bits(0, 0x0)),
    ),
    (
        Row::MulWideSu,
        &[
            Bits(128, 0xffffffffffffffffffffffffffffffff),
            Bits(128, 0x1),
        ],
        None,
    ),
    (
        Row::MulWideSu,
        &[Bits(64, 0xffffffffffffffff), Bits(64, 0xffffffffffffffff)],
        Some(Bits(128, 0xffffffffffffffff0000000000000001)),
    ),
    (
        Row::MulWideSu,
        &[Bits(1, 0x1), Bits(1, 0x1)],
        Some(Bits(2, 0x3)),
    ),
    (
        Row::MulWideSu,
        &[Bits(63, 0x2e4854ac7403e430), Bits(63, 0x1fcc713b4cbd87ad)],
        Some(Bits(126, 0x5bfb85d01644bc13c29bf662b668470)),
    ),
    (
        Row::MulWideSu,
        &[Bits(65, 0x12e05319acb5c7427), Bits(65, 0x3e7d1bfbc7a2ea20)],
        None,
    ),
    (Row::MulWideSu, &[Bits(8, 0x1), Bits(9, 0x1)], None),
    (
        Row::ShiftlBits,
        &[Bits(0, 0x0), Bits(8, 0x1)],
        Some(Bits(0, 0x0)),
    ),
    (
        Row::ShiftlBits,
        &[Bits(8, 0x81), Bits(0, 0x0)],
        Some(Bits(8, 0x81)),
    ),
    (
        Row::ShiftlBits,
        &[Bits(8, 0x81), Bits(8, 0x1)],
        Some(Bits(8, 0x2)),
    ),
    (
        Row::ShiftlBits,
        &[Bits(8, 0x81), Bits(8, 0x8)],
        Some(Bits(8, 0x0)),
    ),
    (
        Row::ShiftlBits,
        &[Bits(8, 0x81), Bits(8, 0x9)],
        Some(Bits(8, 0x0)),
    ),
    (
        Row::ShiftlBits,
        &[
            Bits(128, 0xfffffffffffffffffffffffffffffffe),
            Bits(128, 0xffffffffffffffffffffffffffffffff),
        ],
        Some(Bits(128, 0x0)),
    ),
    (
        Row::ShiftlBits,
        &[Bits(128, 0x80000000000000000000000000000005), Bits(8, 0x7f)],
        Some(Bits(128, 0x80000000000000000000000000000000)),
    ),
    (
        Row::ShiftrBits,
        &[Bits(0, 0x0), Bits(8, 0x1)],
        Some(Bits(0, 0x0)),
    ),
    (
        Row::ShiftrBits,
        &[Bits(8, 0x81), Bits(0, 0x0)],
        Some(Bits(8, 0x81)),
    ),
    (
        Row::ShiftrBits,
        &[Bits(8, 0x81), Bits(8, 0x1)],
        Some(Bits(8, 0x40)),
    ),
    (
        Row::ShiftrBits,
        &[Bits(8, 0x81), Bits(8, 0x8)],
        Some(Bits(8, 0x0)),
    ),
    (
        Row::ShiftrBits,
        &[Bits(8, 0x81), Bits(8, 0x9)],
        Some(Bits(8, 0x0)),
    ),
    (
        Row::ShiftrBits,
        &[
            Bits(128, 0xfffffffffffffffffffffffffffffffe),
            Bits(128, 0xffffffffffffffffffffffffffffffff),
        ],
        Some(Bits(128, 0x0)),
    ),
    (
        Row::ShiftrBits,
        &[Bits(128, 0x80000000000000000000000000000005), Bits(8, 0x7f)],
        Some(Bits(128, 0x1)),
    ),
    (
        Row::ArithShiftrBits,
        &[Bits(0, 0x0), Bits(8, 0x1)],
        Some(Bits(0, 0x0)),
    ),
    (
        Row::ArithShiftrBits,
        &[Bits(8, 0x81), Bits(0, 0x0)],
        Some(Bits(8, 0x81)),
    ),
    (
        Row::ArithShiftrBits,
        &[Bits(8, 0x81), Bits(8, 0x1)],
        Some(Bits(8, 0xc0)),
    ),
    (
        Row::ArithShiftrBits,
        &[Bits(8, 0x81), Bits(8, 0x8)],
        Some(Bits(8, 0xff)),
    ),
    (
        Row::ArithShiftrBits,
        &[Bits(8, 0x81), Bits(8, 0x9)],
        Some(Bits(8, 0xff)),
    ),
    (
        Row::ArithShiftrBits,
        &[
            Bits(128, 0xfffffffffffffffffffffffffffffffe),
            Bits(128, 0xffffffffffffffffffffffffffffffff),
        ],
        Some(Bits(128, 0xffffffffffffffffffffffffffffffff)),
    ),
    (
        Row::ArithShiftrBits,
        &[Bits(128, 0x80000000000000000000000000000005), Bits(8, 0x7f)],
        Some(Bits(128, 0xffffffffffffffffffffffffffffffff)),
    ),
    (
        Row::Append,
        &[Bits(0, 0x0), Bits(0, 0x0)],
        Some(Bits(0, 0x0)),
    ),
    (
        Row::Append,
        &[Bits(4, 0xa), Bits(4, 0x5)],
        Some(Bits(8, 0xa5)),
    ),
    (
        Row::Append,
        &[Bits(0, 0x0), Bits(8, 0x7f)],
        Some(Bits(8, 0x7f)),
    ),
    (
        Row::Append,
        &[Bits(8, 0x7f), Bits(0, 0x0)],
        Some(Bits(8, 0x7f)),
    ),
    (
        Row::Append,
        &[Bits(127, 0x7fffffffffffffffffffffffffffffff), Bits(1, 0x0)],
        Some(Bits(128, 0xfffffffffffffffffffffffffffffffe)),
    ),
    (Row::Append, &[Bits(128, 0x1), Bits(1, 0x0)], None),
    (
        Row::Append,
        &[Bits(64, 0x1), Bits(64, 0x2)],
        Some(Bits(128, 0x10000000000000002)),
    ),
];

/// Two words of a width, and the truth.
pub const COMPARED_WORDS: &[Line] = &[
    (Row::LtU, &[Bits(0, 0x0), Bits(0, 0x0)], Some(Truth(false))),
    (
        Row::LtU,
        &[Bits(8, 0x80), Bits(8, 0x7f)],
        Some(Truth(false)),
    ),
    (Row::LtU, &[Bits(8, 0x7f), Bits(8, 0x80)], Some(Truth(true))),
    (
        Row::LtU,
        &[
            Bits(128, 0xffffffffffffffffffffffffffffffff),
            Bits(128, 0x0),
        ],
        Some(Truth(false)),
    ),
    (Row::LtU, &[Bits(8, 0x5), Bits(8, 0x5)], Some(Truth(false))),
    (Row::LtU, &[Bits(1, 0x0), Bits(1, 0x1)], Some(Truth(true))),
    (Row::LteqU, &[Bits(0, 0x0), Bits(0, 0x0)], Some(Truth(true))),
    (
        Row::LteqU,
        &[Bits(8, 0x80), Bits(8, 0x7f)],
        Some(Truth(false)),
    ),
    (
        Row::LteqU,
        &[Bits(8, 0x7f), Bits(8, 0x80)],
        Some(Truth(true)),
    ),
    (
        Row::LteqU,
        &[
            Bits(128, 0xffffffffffffffffffffffffffffffff),
            Bits(128, 0x0),
        ],
        Some(Truth(false)),
    ),
    (Row::LteqU, &[Bits(8, 0x5), Bits(8, 0x5)], Some(Truth(true))),
    (Row::LteqU, &[Bits(1, 0x0), Bits(1, 0x1)], Some(Truth(true))),
    (Row::GtU, &[Bits(0, 0x0), Bits(0, 0x0)], Some(Truth(false))),
    (Row::GtU, &[Bits(8, 0x80), Bits(8, 0x7f)], Some(Truth(true))),
    (
        Row::GtU,
        &[Bits(8, 0x7f), Bits(8, 0x80)],
        Some(Truth(false)),
    ),
    (
        Row::GtU,
        &[
            Bits(128, 0xffffffffffffffffffffffffffffffff),
            Bits(128, 0x0),
        ],
        Some(Truth(true)),
    ),
    (Row::GtU, &[Bits(8, 0x5), Bits(8, 0x5)], Some(Truth(false))),
    (Row::GtU, &[Bits(1, 0x0), Bits(1, 0x1)], Some(Truth(false))),
    (Row::GteqU, &[Bits(0, 0x0), Bits(0, 0x0)], Some(Truth(true))),
    (
        Row::GteqU,
        &[Bits(8, 0x80), Bits(8, 0x7f)],
        Some(Truth(true)),
    ),
    (
        Row::GteqU,
        &[Bits(8, 0x7f), Bits(8, 0x80)],
        Some(Truth(false)),
    ),
    (
        Row::GteqU,
        &[
            Bits(128, 0xffffffffffffffffffffffffffffffff),
            Bits(128, 0x0),
        ],
        Some(Truth(true)),
    ),
    (Row::GteqU, &[Bits(8, 0x5), Bits(8, 0x5)], Some(Truth(true))),
    (
        Row::GteqU,
        &[Bits(1, 0x0), Bits(1, 0x1)],
        Some(Truth(false)),
    ),
    (Row::LtS, &[Bits(0, 0x0), Bits(0, 0x0)], Some(Truth(false))),
    (Row::LtS, &[Bits(8, 0x80), Bits(8, 0x7f)], Some(Truth(true))),
    (
        Row::LtS,
        &[Bits(8, 0x7f), Bits(8, 0x80)],
        Some(Truth(false)),
    ),
    (
        Row::LtS,
        &[
            Bits(128, 0xffffffffffffffffffffffffffffffff),
            Bits(128, 0x0),
        ],
        Some(Truth(true)),
    ),
    (Row::LtS, &[Bits(8, 0x5), Bits(8, 0x5)], Some(Truth(false))),
    (Row::LtS, &[Bits(1, 0x0), Bits(1, 0x1)], Some(Truth(false))),
    (Row::LteqS, &[Bits(0, 0x0), Bits(0, 0x0)], Some(Truth(true))),
    (
        Row::LteqS,
        &[Bits(8, 0x80), Bits(8, 0x7f)],
        Some(Truth(true)),
    ),
    (
        Row::LteqS,
        &[Bits(8, 0x7f), Bits(8, 0x80)],
        Some(Truth(false)),
    ),
    (
        Row::LteqS,
        &[
            Bits(128, 0xffffffffffffffffffffffffffffffff),
            Bits(128, 0x0),
        ],
        Some(Truth(true)),
    ),
    (Row::LteqS, &[Bits(8, 0x5), Bits(8, 0x5)], Some(Truth(true))),
    (
        Row::LteqS,
        &[Bits(1, 0x0), Bits(1, 0x1)],
        Some(Truth(false)),
    ),
    (Row::GtS, &[Bits(0, 0x0), Bits(0, 0x0)], Some(Truth(false))),
    (
        Row::GtS,
        &[Bits(8, 0x80), Bits(8, 0x7f)],
        Some(Truth(false)),
    ),
    (Row::GtS, &[Bits(8, 0x7f), Bits(8, 0x80)], Some(Truth(true))),
    (
        Row::GtS,
        &[
            Bits(128, 0xffffffffffffffffffffffffffffffff),
            Bits(128, 0x0),
        ],
        Some(Truth(false)),
    ),
    (Row::GtS, &[Bits(8, 0x5), Bits(8, 0x5)], Some(Truth(false))),
    (Row::GtS, &[Bits(1, 0x0), Bits(1, 0x1)], Some(Truth(true))),
    (Row::GteqS, &[Bits(0, 0x0), Bits(0, 0x0)], Some(Truth(true))),
    (
        Row::GteqS,
        &[Bits(8, 0x80), Bits(8, 0x7f)],
        Some(Truth(false)),
    ),
    (
        Row::GteqS,
        &[Bits(8, 0x7f), Bits(8, 0x80)],
        Some(Truth(true)),
    ),
    (
        Row::GteqS,
        &[
            Bits(128, 0xffffffffffffffffffffffffffffffff),
            Bits(128, 0x0),
        ],
        Some(Truth(false)),
    ),
    (Row::GteqS, &[Bits(8, 0x5), Bits(8, 0x5)], Some(Truth(true))),
    (Row::GteqS, &[Bits(1, 0x0), Bits(1, 0x1)], Some(Truth(true))),
    (Row::Eq, &[Bits(0, 0x0), Bits(0, 0x0)], Some(Truth(true))),
    (Row::Eq, &[Bits(8, 0x80), Bits(8, 0x7f)], Some(Truth(false))),
    (Row::Eq, &[Bits(8, 0x7f), Bits(8, 0x80)], Some(Truth(false))),
    (
        Row::Eq,
        &[
            Bits(128, 0xffffffffffffffffffffffffffffffff),
            Bits(128, 0x0),
        ],
        Some(Truth(false)),
    ),
    (Row::Eq, &[Bits(8, 0x5), Bits(8, 0x5)], Some(Truth(true))),
    (Row::Eq, &[Bits(1, 0x0), Bits(1, 0x1)], Some(Truth(false))),
    (Row::Neq, &[Bits(0, 0x0), Bits(0, 0x0)], Some(Truth(false))),
    (Row::Neq, &[Bits(8, 0x80), Bits(8, 0x7f)], Some(Truth(true))),
    (Row::Neq, &[Bits(8, 0x7f), Bits(8, 0x80)], Some(Truth(true))),
    (
        Row::Neq,
        &[
            Bits(128, 0xffffffffffffffffffffffffffffffff),
            Bits(128, 0x0),
        ],
        Some(Truth(true)),
    ),
    (Row::Neq, &[Bits(8, 0x5), Bits(8, 0x5)], Some(Truth(false))),
    (Row::Neq, &[Bits(1, 0x0), Bits(1, 0x1)], Some(Truth(true))),
];
