//! Constants that stand for variables.
ghost use Rattle.std.specs.Prelude.{◌≡◌, IfOk};

use sail_base::{Items, Text};
use std::alloc::{AllocError, Global};

/// What a number or a variable is: a constant, or one that isn't.
pub enum Constant {
    /// This integer.
    Number(i128),
    /// Not constant: this is its first free variable, one of a walk.
    Open(u32),
    /// Not constant: its first free variable is bound by a type, under this name.
    Bound(Text),
}

impl Drop for Constant {
    fn drop(self) {
        match self {
            Constant::Number(_) => {}
            Constant::Open(_) => {}
            Constant::Bound(_) => {}
        }
    }
}

/// A number that is taken for a variable of a walk.
#[derive(Clone, Copy)]
pub struct Picked {
    /// The variable.
    pub variable: u32,
    /// The number.
    pub number: i128,
}

/// The same constant once more. It fails where memory is wanting.
pub fn copy_constant(alloc: Global, constant: &Constant) -> Result<Constant, AllocError>
    ensures { IfOk result (λ copy. copy ≡ constant.now) }
{
    match constant {
        Constant::Number(number) => Ok(Constant::Number(*number)),
        Constant::Open(variable) => Ok(Constant::Open(*variable)),
        Constant::Bound(name) => Ok(Constant::Bound(name.clone()?)),
    }
}

/// The same constants once more. They fail where memory is wanting.
pub fn copy_constants(alloc: Global, constants: &[Constant]) -> Result<Items<Constant>, AllocError>
    ensures { IfOk result (λ copy. copy ≡ constants.now) }
{
    let mut copies = Items::new(alloc);
    for constant in constants {
        copies.push(copy_constant(alloc, constant)?)?;
    }
    Ok(copies)
}
