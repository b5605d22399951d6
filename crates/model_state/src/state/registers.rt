//! The values of a hart's registers.
ghost use Rattle.std.specs.Prelude.{◌≡◌, ◌<◌, length, Some, slice_get, slice_set};
ghost use Rattle.std.specs.Option.{option_copied};
ghost use Rattle.sail_types.specs.declared.values.Value.TheVariants as V;

use crate::letting::let_go;
use sail_base::{Items, Word};
use sail_types::Value;
use std::marker::Model;
use std::mem;

/// The values of a hart's registers, in the order of the model's text. Contracts see them as their list.
///
/// They are written in place: bits over bits take no memory and let none go.
pub struct Registers {
    values: Vec<Value>,
}

impl Drop for Registers {
    fn drop(self) {
        let Registers { values: _ } = self;
    }
}

impl Model for Registers {
    ghost use Rattle.std.specs.Prelude.{List};
    ghost use Rattle.std.specs.Coded.{codes};
    ghost use Rattle.sail_types.specs.contracts.values.Value as value;
    ghost use Rattle.sail_types.specs.declared.values.Value as one;

    ghost Value = { List one.Value };

    ghost coded = { Prim.hlevel (codes, value.the_row.coded) };

    ghost view = { λ registers. registers.values.items };
}

impl Registers {
    /// Registers of these values, in order.
    pub(crate) fn new(values: Items<Value>) -> Registers
        ensures { result ≡ values }
    {
        Registers {
            values: values.into_vec(),
        }
    }

    /// The values, lent in order.
    pub(crate) fn as_slice(&self) -> &[Value]
        ensures { result.now ≡ self.now }
    {
        self.values.as_slice()
    }

    /// The value at an index from 0, or none past the end.
    pub(crate) fn get(&self, index: usize) -> Option<&Value>
        ensures { option_copied result ≡ slice_get self.now index }
    {
        self.values.get(index)
    }

    /// Puts a value in the place of the one at an index from 0, which is let go.
    pub(crate) fn set(&mut self, index: usize, value: Value)
        requires { index < length self.old }
        ensures { self.new ≡ slice_set self.old index value }
    {
        let old = mem::replace(&mut self.values[index], value);
        let_go(old);
    }

    /// Puts a value in the place of the one at an index from 0, which it answers. It takes no memory.
    pub(crate) fn replace(&mut self, index: usize, value: Value) -> Value
        requires { index < length self.old }
        ensures old { Some result ≡ slice_get self.old index }
        ensures new { self.new ≡ slice_set self.old index value }
    {
        mem::replace(&mut self.values[index], value)
    }

    /// Puts bits in the place of the value at an index from 0.
    pub(crate) fn set_bits(&mut self, index: usize, bits: Word)
        requires { index < length self.old }
        ensures { self.new ≡ slice_set self.old index (V.Bits bits) }
    {
        put_bits(&mut self.values[index], bits);
    }
}

/// Puts bits in the place of a value.
fn put_bits(place: &mut Value, bits: Word)
    ensures { place.new ≡ V.Bits bits }
{
    match place {
        Value::Bits(word) => *word = bits,
        _ => *place = Value::Bits(bits),
    }
}
