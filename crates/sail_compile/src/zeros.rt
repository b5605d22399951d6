//! Whether the registers of a model have zeros, at which they start.
ghost use Rattle.std.specs.Prelude.{◌≡◌, IfOk};
ghost use Rattle.sail_compile.specs.Zeros as spec;

use model_state::Register;
use sail_types::{Types, zero_of};
use std::alloc::{AllocError, Global};

/// Whether the type of each register has a zero. It fails where memory is wanting.
pub fn have_zeros(alloc: Global, types: &Types, registers: &[Register]) -> Result<bool, AllocError>
    ensures { IfOk result (λ have. have ≡ spec.have_zeros types.now registers.now) }
{
    for register in registers {
        if !has_zero(alloc, types, register)? {
            return Ok(false);
        }
    }
    Ok(true)
}

/// Whether the type of a register has a zero. It fails where memory is wanting.
fn has_zero(alloc: Global, types: &Types, register: &Register) -> Result<bool, AllocError>
    ensures { IfOk result (λ has. has ≡ spec.has_zero types.now register.now) }
{
    let zero = zero_of(alloc, types, &register.typ)?;
    Ok(zero.is_some())
}
