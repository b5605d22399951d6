ghost use Rattle.std.specs.Prelude.{◌≡◌, option_map};
ghost use Rattle.std.specs.Option.{option_copied};
ghost use Rattle.sail_signatures.specs.Starts.{is_reset as is_reset_signature, is_step as is_step_signature, is_the_number};
ghost use Rattle.sail_signatures.specs.Starts.{form_unit, form_bool, form_hart, form_address, form_start, form_truth};
ghost use Rattle.sail_signatures.specs.Starts.{is_unquantified as is_unquantified_signature};
ghost use Rattle.sail_types.specs.declared.numbers.Con.{out-Con};
ghost use Rattle.sail_types.specs.declared.types.Typ.{out-Typ};

use crate::signature::Signature;
use sail_types::{Con, Num, Typ};

fn is_the_number(n: i128, number: &Num) -> bool
    ensures { result ≡ is_the_number n number.now }
{
    number.terms.is_empty() && number.constant == n
}

fn is_unit(typ: &Typ) -> bool
    ensures { result ≡ form_unit (out-Typ typ.now) }
{
    match typ {
        Typ::Unit => true,
        _ => false,
    }
}

fn is_bool(typ: &Typ) -> bool
    ensures { result ≡ form_bool (out-Typ typ.now) }
{
    match typ {
        Typ::Bool => true,
        _ => false,
    }
}

/// `range(0, 7)`
fn is_hart(typ: &Typ) -> bool
    ensures { result ≡ form_hart (out-Typ typ.now) }
{
    match typ {
        Typ::Range(low, high) => is_the_number(0, low) && is_the_number(7, high),
        _ => false,
    }
}

/// `bits(64)`
fn is_address(typ: &Typ) -> bool
    ensures { result ≡ form_address (out-Typ typ.now) }
{
    match typ {
        Typ::Bits(n) => is_the_number(64, n),
        _ => false,
    }
}

fn is_start(typ: &Typ) -> bool
    ensures { result ≡ form_start (out-Typ typ.now) }
{
    match typ {
        Typ::Tuple(types) => match types.as_slice() {
            [hart, address] => is_hart(hart) && is_address(address),
            _ => false,
        },
        _ => false,
    }
}

/// Whether a condition is `true`, as that of no `forall` is.
fn is_truth(constraint: &Con) -> bool
    ensures { result ≡ form_truth (out-Con constraint.now) }
{
    match constraint {
        Con::Truth(holds) => *holds,
        _ => false,
    }
}

/// Whether a signature has no type variable and no condition.
fn is_unquantified(signature: &Signature) -> bool
    ensures { result ≡ is_unquantified_signature signature.now }
{
    signature.variables.is_empty() && is_truth(&signature.constraint)
}

/// Whether a signature is `(range(0, 7), bits(64)) -> unit`.
pub fn is_reset(signature: &Signature) -> bool
    ensures { result ≡ is_reset_signature (Some signature.now) }
{
    is_unquantified(signature) && is_start(&signature.from) && is_unit(&signature.to)
}

/// Whether a signature is `unit -> bool`.
pub fn is_step(signature: &Signature) -> bool
    ensures { result ≡ is_step_signature (Some signature.now) }
{
    is_unquantified(signature) && is_unit(&signature.from) && is_bool(&signature.to)
}
