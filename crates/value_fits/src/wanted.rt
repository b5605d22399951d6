//! Types, lent.
ghost use Rattle.std.specs.Prelude.{◌≡◌};
ghost use Rattle.value_fits.specs.Lent.{reading_of};

use sail_types::{Index, Typ};
use value_indices::{Indices, Reading};

/// A type with what its variables stand for, lent: what a value is compared with.
#[derive(Clone, Copy)]
pub enum Wanted<'a> {
    /// A type; what its Int and Bool variables stand for, and what its Type variables do.
    Of(&'a Typ, &'a [Index], &'a [Reading]),
    /// The widened type of a value of these indices.
    Widened(&'a Indices),
    /// A tuple of these.
    Parts(&'a [Reading]),
    /// No type.
    Hole,
}

impl<'a> Wanted<'a> {
    /// A type, lent.
    pub fn lent(reading: &'a Reading) -> Wanted<'a>
        ensures { reading_of result ≡ reading.now }
    {
        match reading {
            Reading::Of(typ, indices, readings) => {
                Wanted::Of(typ, indices.as_slice(), readings.as_slice())
            }
            Reading::Widened(indices) => Wanted::Widened(indices.get()),
            Reading::Parts(parts) => Wanted::Parts(parts.as_slice()),
            Reading::Hole => Wanted::Hole,
        }
    }
}
