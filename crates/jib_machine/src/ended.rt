//! The end of what the machine calls.
ghost use Rattle.std.specs.Prelude.{◌≡◌, IfOk, slice_get};
ghost use Rattle.std.specs.Option.{option_copied};
ghost use Rattle.jib.specs.Jib.{Store};
ghost use Rattle.jib.specs.Openings.{ended as ended_of, name_of, thrown_name as name_of_thrown};
ghost use Rattle.sail_types.specs.Named.{constructors};
ghost use Rattle.sail_types.specs.declared.values.Value.{out-Value};
ghost use Rattle.jib_machine.specs.parts.Acts.{outcome_of};

use crate::act::Ending;
use model_state::{Cause, Ended};
use sail_base::Text;
use sail_types::{Field, Types, Value};
use std::alloc::{AllocError, Global};

/// The name of a field or a constructor; empty where there is none.
fn field_name(alloc: Global, field: Option<&Field>) -> Result<Text, AllocError>
    ensures { IfOk result (λ name. name ≡ name_of (option_copied field.entry)) }
{
    match field {
        Some(field) => Ok(field.name.clone()?),
        None => Text::new(alloc, ""),
    }
}

/// The constructor at a place of the union at a place, where there is one.
fn constructor_at(types: &Types, place: u32, constructor: u32) -> Option<&Field>
    ensures { option_copied result ≡ slice_get (constructors types.now place) constructor }
{
    types.constructors(place).get(constructor as usize)
}

/// The name of the constructor that was thrown.
fn thrown_name(alloc: Global, types: &Types, value: &Value) -> Result<Text, AllocError>
    ensures { IfOk result (λ name. name ≡ name_of_thrown types.now (out-Value value.now)) }
{
    match value {
        Value::Union(place, constructor, _) => {
            let found = constructor_at(types, *place, *constructor);
            Ok(field_name(alloc, found)?)
        }
        _ => Text::new(alloc, ""),
    }
}

/// How a call of the machine ends: an exception stops the run.
pub fn ended(alloc: Global, types: &Types, ending: Ending) -> Result<Ended, AllocError>
    ensures { IfOk result (λ ended. (s : Store) → ended ≡ ended_of types.now (outcome_of ending s)) }
{
    match ending {
        Ending::Value(value) => Ok(Ended::Value(value)),
        Ending::Threw(value) => {
            let name = thrown_name(alloc, types, &value)?;
            Ok(Ended::Stop(Cause::Exception(name)))
        }
        Ending::Stopped(cause) => Ok(Ended::Stop(cause)),
    }
}
