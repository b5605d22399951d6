//! Types as the text has them.
use sail_base::{Items, Place};
use sail_types::{Num, Typ};

/// What a number of a written type is for.
#[derive(Clone, Copy, PartialEq, Eq, Debug, Drop)]
pub enum Role {
    /// The width of `bits(t)`.
    Width,
    /// The length of `vector(t, T)`.
    Length,
    /// The exponent of `2 ^ t`.
    Exponent,
    /// A side of a comparison in a constraint; `t` of `t in {..}` is one.
    Side,
}

/// A number in a written type, where it stands.
pub struct WrittenNumber {
    /// Where it is written; where it comes through a named type, that name.
    pub place: Place,
    /// The number.
    pub number: Num,
    /// What it is for.
    pub role: Role,
}

impl Drop for WrittenNumber {
    fn drop(self) {
        let WrittenNumber {
            place: _,
            number: _,
            role: _,
        } = self;
    }
}

/// A type that is written, in normal form.
pub struct Written {
    /// Where it is written.
    pub place: Place,
    /// The type, under the type variables of the function around it.
    pub typ: Typ,
    /// The widths, lengths, exponents and compared sides in it, in the order of the text.
    pub numbers: Items<WrittenNumber>,
}

impl Drop for Written {
    fn drop(self) {
        let Written {
            place: _,
            typ: _,
            numbers: _,
        } = self;
    }
}
