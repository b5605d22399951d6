ghost use Rattle.std.specs.Prelude.{◌≡◌, IfOk, IsAscii};

use sail_base::{Place, Text, Word};
use std::alloc::{AllocError, Global};

/// An identifier where it is written, or a type variable with its `'`. Names of one thing at two places
/// have equal texts, and aren't equal.
#[derive(PartialEq, Eq, Debug)]
pub struct Name {
    /// The place of its token.
    pub place: Place,
    /// Its spelling, 1 to 255 bytes, for a type variable 2 to 256 with the `'`.
    pub text: Text,
}

impl Drop for Name {
    fn drop(self) {
        let Name { place: _, text: _ } = self;
    }
}

impl Name {
    /// A name with this spelling at this place. It fails where memory is wanting.
    pub fn new(alloc: Global, place: Place, spelling: &str) -> Result<Name, AllocError>
        ensures { IfOk result (λ name. name ≡ record { place = place; text = spelling.now }) }
    {
        let text = Text::new(alloc, spelling)?;
        Ok(Name { place, text })
    }

    /// A name with this spelling, in bytes that are ASCII. It fails where memory is wanting.
    pub fn from_ascii(alloc: Global, place: Place, spelling: &[u8]) -> Result<Name, AllocError>
        requires { IsAscii spelling.now }
        ensures { IfOk result (λ name. name ≡ record { place = place; text = spelling.now }) }
    {
        let text = Text::from_ascii(alloc, spelling)?;
        Ok(Name { place, text })
    }
}

impl Clone for Name {
    ghost use Rattle.std.specs.Prelude.{◌≡◌};

    ghost is_clone = { λ name copy. copy ≡ name };

    /// The same name once more, over the same memory. It fails where the count of its sharers would
    /// not fit.
    fn clone(&self) -> Result<Name, AllocError>
        ensures { IfOk result (λ name. name ≡ self.now) }
    {
        let text = self.text.clone()?;
        Ok(Name {
            place: self.place,
            text,
        })
    }
}

/// What a literal stands for.
pub enum Literal {
    /// A decimal, from 0 to 2^126.
    Number(i128),
    /// `0x..` or `0b..`, four bits or one a digit: 1 to 128 of them.
    Bits(Word),
    /// `"..."`: the bytes after escapes.
    String(Text),
    /// `true` or `false`
    Bool(bool),
    /// `bitone` (true) or `bitzero` (false)
    Bit(bool),
}

impl Drop for Literal {
    fn drop(self) {
        match self {
            Literal::Number(_) => {}
            Literal::Bits(_) => {}
            Literal::String(_) => {}
            Literal::Bool(_) => {}
            Literal::Bit(_) => {}
        }
    }
}
