//! Values that are let go.
ghost use Rattle.std.specs.Prelude.{◌≡◌};
ghost use Rattle.model_state.specs.parts.Plain.{is_plain};

use sail_types::Value;
use std::mem;

/// Lets a value go. Most values of a run have no memory of their own, and then nothing is called for it.
pub(crate) fn let_go(value: Value) {
    if is_plain(&value) {
        mem::forget(value);
    } else {
        drop(value);
    }
}

/// Whether a value has no memory of its own.
fn is_plain(value: &Value) -> bool
    ensures { result ≡ is_plain value.now }
{
    matches!(
        value,
        Value::Unit
            | Value::Integer(_)
            | Value::Truth(_)
            | Value::Bit(_)
            | Value::Bits(_)
            | Value::Member(_, _)
    )
}
