ghost use Rattle.std.specs.Prelude.{◌≡◌};
ghost use Rattle.shape_rules.specs.Findings.{place_of, number_of, is_before};

use sail_base::{Place, Text};
use sail_types::Shape;
use std::alloc::AllocError;

/// Two shapes that are not one.
pub struct Mismatch {
    /// The shape that is wanted.
    pub wanted: Shape,
    /// The shape that is found.
    pub found: Shape,
}

/// Why a model has no shapes, each at its place.
pub enum ShapeError {
    /// Members of an overload that clash, at the later overload definition; or a mapping whose sides may share values, at the
    /// call or pattern. With both names (M13).
    Overlap {
        place: Place,
        first: Text,
        second: Text,
    },
    /// A wrong shape, without both shapes where no one shape is wanted (M14).
    IllShaped {
        place: Place,
        mismatch: Option<Mismatch>,
    },
    /// A wrong count of arguments, parameters or fields (M15).
    Arity {
        place: Place,
        wanted: usize,
        found: usize,
    },
    /// An overload of which no member fits, by its name or its operator's text (M16).
    NoMember {
        place: Place,
        name: Text,
    },
    /// A type variable that gets no number, where it is bound (M17).
    NoNumber {
        place: Place,
        name: Text,
    },
    /// A second part of unknown width in a concatenation, at that part (M18).
    WidthUnknown {
        place: Place,
    },
    /// There is no memory. This says nothing of the model, and stands at 0:0:0.
    OutOfMemory,
}

impl Drop for Mismatch {
    fn drop(self) {
        let Mismatch {
            wanted: _,
            found: _,
        } = self;
    }
}

impl Drop for ShapeError {
    fn drop(self) {
        match self {
            ShapeError::Overlap {
                place: _,
                first: _,
                second: _,
            } => {}
            ShapeError::IllShaped {
                place: _,
                mismatch: _,
            } => {}
            ShapeError::Arity {
                place: _,
                wanted: _,
                found: _,
            } => {}
            ShapeError::NoMember { place: _, name: _ } => {}
            ShapeError::NoNumber { place: _, name: _ } => {}
            ShapeError::WidthUnknown { place: _ } => {}
            ShapeError::OutOfMemory => {}
        }
    }
}

impl From<AllocError> for ShapeError {
    ghost use Rattle.std.specs.Prelude.{◌≡◌};
    ghost use Rattle.shape_rules.specs.declared.error.ShapeError.{ShapeError};

    ghost from_gives = { λ e r. r ≡ ShapeError.OutOfMemory };

    fn from(_: AllocError) -> ShapeError {
        ShapeError::OutOfMemory
    }
}

impl ShapeError {
    /// Where the failure stands.
    pub fn place(&self) -> Place
        ensures { result ≡ place_of self.now }
    {
        match self {
            ShapeError::Overlap { place, .. } => *place,
            ShapeError::IllShaped { place, .. } => *place,
            ShapeError::Arity { place, .. } => *place,
            ShapeError::NoMember { place, .. } => *place,
            ShapeError::NoNumber { place, .. } => *place,
            ShapeError::WidthUnknown { place } => *place,
            ShapeError::OutOfMemory => Place {
                file: 0,
                line: 0,
                column: 0,
            },
        }
    }

    /// Its printed number, 13 to 18, and 0 for want of memory.
    pub fn number(&self) -> u8
        ensures { result ≡ number_of self.now }
    {
        match self {
            ShapeError::Overlap { .. } => 13,
            ShapeError::IllShaped { .. } => 14,
            ShapeError::Arity { .. } => 15,
            ShapeError::NoMember { .. } => 16,
            ShapeError::NoNumber { .. } => 17,
            ShapeError::WidthUnknown { .. } => 18,
            ShapeError::OutOfMemory => 0,
        }
    }

    /// Whether it stands before another: at an earlier place, or at one place with the lower number.
    pub fn is_before(&self, other: &ShapeError) -> bool
        ensures { result ≡ is_before self.now other.now }
    {
        let place = self.place();
        let other_place = other.place();
        if place.file != other_place.file {
            place.file < other_place.file
        } else if place.line != other_place.line {
            place.line < other_place.line
        } else if place.column != other_place.column {
            place.column < other_place.column
        } else {
            self.number() < other.number()
        }
    }
}
