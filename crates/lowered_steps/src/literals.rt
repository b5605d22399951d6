//! Literals as constants of flat code.
ghost use Rattle.std.specs.Prelude.{◌≡◌, IfOk};
ghost use Rattle.lowered_pieces.specs.Arms.{constant_of};

use sail_base::Text;
use sail_core::Literal;
use std::alloc::{AllocError, Global};

/// A literal as a constant. It fails where memory is wanting.
pub fn copy_literal(alloc: Global, literal: &Literal) -> Result<jib::Literal, AllocError>
    ensures { IfOk result (λ constant. constant ≡ constant_of literal.now) }
{
    match literal {
        Literal::Unit => Ok(jib::Literal::Unit),
        Literal::Integer(number) => Ok(jib::Literal::Integer(*number)),
        Literal::Truth(truth) => Ok(jib::Literal::Truth(*truth)),
        Literal::Bit(bit) => Ok(jib::Literal::Bit(*bit)),
        Literal::Bits(word) => Ok(jib::Literal::Bits(*word)),
        Literal::String(text) => Ok(jib::Literal::String(Text::new(alloc, text.as_str())?)),
        Literal::Member(place, member) => Ok(jib::Literal::Member(*place, *member)),
    }
}
