//! Laws of sizes that are constants for certain: a value has the sizes of what it belongs to, and these stay what they are where more is known
//! and where a value is opened.
//!
//! `told_sizes` has the tests, `specs/Laws` and `specs/Among` have the laws.
#![tactic(auto)]

ghost use Rattle.exact_sizes.specs.Among.{SizesHang, ToldHang};
ghost use Rattle.exact_sizes.specs.Laws.{SizesStand, TypesSettle, TypesTell, ValuesFit};

/// Types under constants are the same where more is known. It does nothing.
pub fn sizes_stand()
    ensures { SizesStand }
{}

/// A value of some indices, or of a type, has their sizes. It does nothing.
pub fn values_fit()
    ensures { ValuesFit }
{}

/// The sizes of a type stay what they are where a value of it is opened. It does nothing.
pub fn types_settle()
    ensures { TypesSettle }
{}

/// Types hang on the variables alone that their sizes name. It does nothing.
pub fn sizes_hang()
    ensures { SizesHang }
{}

/// A value is opened at the type at which it is made. It does nothing.
pub fn types_tell()
    ensures { TypesTell }
{}

/// The types at which values are made hang on those variables alone, too. It does nothing.
pub fn told_hang()
    ensures { ToldHang }
{}
