//! Literals in patterns.
ghost use Rattle.std.specs.Prelude.{◌≡◌, IfOk};
ghost use Rattle.shape_rules.specs.Patterns.{literal_shape as literal_shape_of, core_literal as core_literal_of, literal_width as literal_width_of};

use sail_syntax::Literal;
use sail_types::{Num, Shape};
use shape_rules::Literal as CoreLiteral;
use std::alloc::{AllocError, Global};

/// The shape of a literal.
pub fn literal_shape(literal: &Literal) -> Shape
    ensures { result ≡ literal_shape_of literal.now }
{
    match literal {
        Literal::Number(_) => Shape::Int,
        Literal::Bits(_) => Shape::Bits,
        Literal::String(_) => Shape::String,
        Literal::Bool(_) => Shape::Bool,
        Literal::Bit(_) => Shape::Bit,
    }
}

/// A literal of the core. It fails where memory is wanting.
pub fn core_literal(literal: &Literal) -> Result<CoreLiteral, AllocError>
    ensures { IfOk result (λ made. made ≡ core_literal_of literal.now) }
{
    match literal {
        Literal::Number(n) => Ok(CoreLiteral::Integer(*n)),
        Literal::Bits(bits) => Ok(CoreLiteral::Bits(*bits)),
        Literal::String(text) => Ok(CoreLiteral::String(text.clone()?)),
        Literal::Bool(truth) => Ok(CoreLiteral::Truth(*truth)),
        Literal::Bit(bit) => Ok(CoreLiteral::Bit(*bit)),
    }
}

/// The width of a literal of bits; none of another. It takes no memory.
pub(crate) fn literal_width(alloc: Global, literal: &Literal) -> Option<Num>
    ensures { result ≡ literal_width_of literal.now }
{
    match literal {
        Literal::Bits(bits) => Some(Num::constant(alloc, bits.width() as i128)),
        _ => None,
    }
}
