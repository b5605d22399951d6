//! Slots, by places and types.
ghost use Rattle.std.specs.Prelude.{◌≡◌, IfOk, OnErr, OnOk};
ghost use Rattle.lowered_slots.specs.Slots as spec;

use sail_base::Items;
use std::alloc::AllocError;

/// Where a value stands in a function.
#[derive(Clone, Copy, Debug, Drop)]
pub enum Place {
    /// What is thrown.
    Raised,
    /// An argument, by its place among the arguments.
    Given(u32),
    /// A local, counted from the outermost.
    Local(u32),
    /// The number of an opened variable, in code so deep inside branches, loops and arms.
    Number(u32, u32),
    /// A value in hand.
    Temp(u32),
}

/// A slot: the place that it is for, and the number of its type.
#[derive(Clone, Copy, Debug, Drop)]
pub struct Slot {
    /// The place.
    pub place: Place,
    /// The number of the type in the table of the module.
    pub typ: u32,
}

/// Whether two places are one.
fn is_same(place: Place, other: Place) -> bool
    ensures { result ≡ spec.same_place place other }
{
    match place {
        Place::Raised => matches!(other, Place::Raised),
        Place::Given(argument) => match other {
            Place::Given(another) => argument == another,
            _ => false,
        },
        Place::Local(local) => match other {
            Place::Local(another) => local == another,
            _ => false,
        },
        Place::Number(variable, depth) => match other {
            Place::Number(another, deep) => variable == another && depth == deep,
            _ => false,
        },
        Place::Temp(value) => match other {
            Place::Temp(another) => value == another,
            _ => false,
        },
    }
}

/// Whether a slot is the one for values of this type at this place.
fn is_for(place: Place, typ: u32, slot: &Slot) -> bool
    ensures { result ≡ spec.is_for place typ slot.now }
{
    is_same(place, slot.place) && typ == slot.typ
}

/// The number of the slot for values of this type at this place; where there is none, how many there are.
fn find(place: Place, typ: u32, slots: &[Slot]) -> usize
    ensures { result ≡ spec.name_in slots.now place typ }
{
    for at in 0..slots.len() {
        if is_for(place, typ, &slots[at]) {
            return at;
        }
    }
    slots.len()
}

/// A count of slots as a number. It fails where it is 2^32 or more, which is long after memory does.
fn as_number(count: usize) -> Result<u32, AllocError>
    ensures { IfOk result (λ number. number ≡ count) }
{
    match u32::try_from(count) {
        Ok(number) => Ok(number),
        Err(_) => Err(AllocError),
    }
}

/// Puts the slot for values of this type at this place, where there is none. It fails where memory is wanting, and the slots stay as they are.
fn put_slot(slots: &mut Items<Slot>, at: usize, place: Place, typ: u32) -> Result<(), AllocError>
    requires found { at ≡ spec.name_in slots.old place typ }
    ensures put { OnOk result (slots.new ≡ spec.with_slot place typ slots.old) }
    ensures unchanged { OnErr result (slots.new ≡ slots.old) }
{
    if at == slots.len() {
        slots.push(Slot { place, typ })
    } else {
        Ok(())
    }
}

/// The number of the slot for values of this type at this place, which comes behind the others where there was none. It fails where memory is
/// wanting; the slots are then as before, or with this one.
pub fn number_slot(slots: &mut Items<Slot>, place: Place, typ: u32) -> Result<u32, AllocError>
    ensures number { IfOk result (λ number. number ≡ spec.name_in slots.new place typ) }
    ensures put { OnOk result (slots.new ≡ spec.with_slot place typ slots.old) }
{
    let at = find(place, typ, slots.as_slice());
    put_slot(slots, at, place, typ)?;
    as_number(at)
}
