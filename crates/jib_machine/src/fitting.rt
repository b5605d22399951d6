//! Zeros of types, and values made to fit them.
ghost use Rattle.std.specs.Prelude.{◌≡◌, IfOk};
ghost use Rattle.jib.specs.Values.{zero_of, fit};
ghost use Rattle.jib_machine.specs.parts.Changes.{result_value};

use crate::machine::Machine;
use jib_values::{belongs, zero_within};
use sail_types::Value;
use std::alloc::{AllocError, Global};

/// The zero of a type.
pub fn zero(alloc: Global, machine: &Machine, typ: u32) -> Result<Value, AllocError>
    ensures { IfOk result (λ value. value ≡ zero_of machine.now.program.types typ) }
{
    let types = machine.program.types.as_slice();
    zero_within(alloc, types, types.len(), typ)
}

/// A value where it belongs to a type, else the type's zero.
pub fn fitted(alloc: Global, machine: &Machine, typ: u32, value: Value) -> Result<Value, AllocError>
    ensures { IfOk result (λ fit_value. fit_value ≡ fit machine.now.program.types typ value) }
{
    if belongs(machine.program.types.as_slice(), &value, typ) {
        Ok(value)
    } else {
        zero(alloc, machine, typ)
    }
}

/// A result at its type: the type's zero where there is none, or it doesn't belong.
pub fn fitted_result(
    alloc: Global,
    machine: &Machine,
    typ: u32,
    made: Option<Value>,
) -> Result<Value, AllocError>
    ensures { IfOk result (λ value. value ≡ result_value machine.now.program.types typ made) }
{
    match made {
        Some(value) => fitted(alloc, machine, typ, value),
        None => zero(alloc, machine, typ),
    }
}
