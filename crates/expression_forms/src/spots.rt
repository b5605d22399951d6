//! What is assigned to, once the indexes in it have been walked.
ghost use Rattle.std.specs.Prelude.{◌≡◌, [], ◌∷◌, ◌&&◌, map, IfOk, OnOk};
ghost use Rattle.std.specs.Option.{option_copied};
ghost use Rattle.value_indices.specs.Walking as walk;
ghost use Rattle.value_indices.specs.declared.indices.Indices.{out-Indices};
ghost use Rattle.value_indices.specs.declared.indices.Indices.TheVariants as I;
ghost use Rattle.pattern_leaves.specs.Settings as settings;
ghost use Rattle.pattern_leaves.specs.Settings.{around_of};
ghost use Rattle.call_notes.specs.Ends.{fits_unless};
ghost use Rattle.call_notes.specs.Noted as noted;
ghost use Rattle.expression_forms.specs.Nodes as nodes;
ghost use Rattle.expression_forms.specs.Spots as spec;

use crate::call_spots::{read_call, reader_given, renew_call, write_call, writer_type};
use crate::inside::{is_type_below, is_value_below};
use crate::names::{named_read, register_type};
use crate::nodes::put;
use crate::pending::Wrote;
use crate::ways::{Reached, owe_part};
use call_arguments::{has_hole, value_has_hole};
use call_notes::{node_ended, note_numbers, wrong_value};
use model_state::Register;
use pattern_leaves::{Around, Held};
use sail_base::{Boxed, Items, Place, Text};
use sail_core::{Caller, Way};
use std::alloc::{AllocError, Global};
use value_indices::{Fact, Indices, Reading, Walking, copy_each, copy_facts, copy_reading};

/// What is known of what is there late, which comes into force where a part of it is written.
#[derive(Drop)]
pub struct Known {
    /// The variable before which those are that the part's type may name where it is wanted.
    pub before: u32,
    /// What is known.
    pub facts: Items<Fact>,
}

/// What is assigned to, once the indexes in it have been walked.
pub enum Spot {
    /// Nothing that can be assigned to, at this place.
    Wrong(Place),
    /// A `var` or a register at a place: its number, its name, and its type.
    Named(Place, u32, Text, Reading),
    /// A part at a place: its number, the last way into it, the spot of which it is a part, the value there, and the part.
    Part(Place, u32, Way, Boxed<Spot>, Indices, Reached),
    /// A call at a place: its number, what reads it, what writes it, and the arguments, each with whether it owes what is wanted of it
    /// further in.
    Call(Place, u32, Option<Caller>, Caller, Items<bool>, Items<Indices>),
    /// A part of what is there late, as what a call gives, at the place where it owes: its number, the spot of which it is a part, the value there,
    /// the part, and what is known of it.
    Late(Place, u32, Boxed<Spot>, Indices, Reached, Known),
    /// A tuple at a place, and its number.
    Tuple(Place, u32, Items<Spot>),
}

impl Drop for Spot {
    #[cycle(spot_drop)]
    fn drop(self) {
        match self {
            Spot::Wrong(_) => {}
            Spot::Named(_, _, _, _) => {}
            Spot::Part(_, _, _, _, _, _) => {}
            Spot::Call(_, _, _, _, _, _) => {}
            Spot::Late(_, _, _, _, _, _) => {}
            Spot::Tuple(_, _, _) => {}
        }
    }
}

impl Spot {
    /// A name in scope, by what it is. It fails where memory is wanting.
    pub fn held(
        alloc: Global,
        place: Place,
        number: u32,
        name: &Text,
        held: Option<&Held>,
    ) -> Result<Spot, AllocError>
        ensures { IfOk result (λ made. (around : settings.Around)
            → spec.spot_of around made ≡ spec.held_spot around place number name.now (option_copied held.entry)) }
    {
        match held {
            Some(Held::Var(reading)) => {
                let name = name.clone()?;
                let reading = copy_reading(alloc, reading)?;
                Ok(Spot::Named(place, number, name, reading))
            }
            _ => Ok(Spot::Wrong(place)),
        }
    }

    /// A register. It fails where memory is wanting.
    pub fn register(
        alloc: Global,
        place: Place,
        number: u32,
        register: Option<&Register>,
    ) -> Result<Spot, AllocError>
        ensures { IfOk result (λ made. (around : settings.Around)
            → spec.spot_of around made ≡ spec.register_spot around place number (option_copied register.entry)) }
    {
        match register {
            None => Ok(Spot::Wrong(place)),
            Some(register) => {
                let name = register.name.clone()?;
                let reading = register_type(alloc, register)?;
                Ok(Spot::Named(place, number, name, reading))
            }
        }
    }

    /// A part of a spot in which this value is, if there is such a part. It fails where memory is wanting.
    pub fn part(
        alloc: Global,
        place: Place,
        number: u32,
        way: Way,
        base: Spot,
        held: Indices,
        reached: Option<Reached>,
    ) -> Result<Spot, AllocError>
        ensures { IfOk result (λ made. (around : settings.Around)
            → spec.spot_of around made ≡ spec.part_spot around place number way (spec.spot_of around base) held reached) }
    {
        match reached {
            None => Ok(Spot::Wrong(place)),
            Some(reached) => {
                let base = Boxed::new(alloc, base)?;
                Ok(Spot::Part(place, number, way, base, held, reached))
            }
        }
    }

    /// The same of a spot that is there late, by what is known of it; none where the value's type has a hole inside. It fails where memory is
    /// wanting.
    pub fn late(
        alloc: Global,
        place: Place,
        number: u32,
        base: Spot,
        held: Indices,
        reached: Option<Reached>,
        known: Known,
    ) -> Result<Spot, AllocError>
        ensures { IfOk result (λ made. (around : settings.Around)
            → spec.spot_of around made ≡ spec.late_part around place number (spec.spot_of around base) held reached known) }
    {
        match reached {
            None => Ok(Spot::Wrong(place)),
            Some(reached) => {
                if value_has_hole(&held) {
                    return Ok(Spot::Wrong(place));
                }
                let base = Boxed::new(alloc, base)?;
                Ok(Spot::Late(place, number, base, held, reached, known))
            }
        }
    }

    /// Whether it can be the base of a part, which has all suffixes.
    pub fn is_base(&self) -> bool
        ensures { (around : settings.Around) → result ≡ spec.Spot.is_base (spec.spot_of around self.now) }
    {
        match self {
            Spot::Wrong(_) => true,
            Spot::Named(_, _, _, _) => true,
            Spot::Part(_, _, _, _, _, _) => false,
            Spot::Call(_, _, _, _, _, _) => true,
            Spot::Late(_, _, _, _, _, _) => false,
            Spot::Tuple(_, _, _) => false,
        }
    }

    /// Whether its value is there only behind the new one of its part, as what a call gives.
    pub fn is_late(&self) -> bool
        ensures { (around : settings.Around) → result ≡ spec.Spot.is_late (spec.spot_of around self.now) }
    {
        match self {
            Spot::Wrong(_) => false,
            Spot::Named(_, _, _, _) => false,
            Spot::Part(_, _, _, _, _, _) => false,
            Spot::Call(_, _, _, _, _, _) => true,
            Spot::Late(_, _, _, _, _, _) => false,
            Spot::Tuple(_, _, _) => false,
        }
    }

    /// The type of what is assigned. It fails where memory is wanting, and where binders are too many.
    #[cycle(spot_typ)]
    pub fn typ(&self, alloc: Global, around: &Around<'_>) -> Result<Reading, AllocError>
        ensures { IfOk result (λ made. made ≡ spec.Spot.typ (spec.spot_of (around_of around.now) self.now)) }
    {
        match self {
            Spot::Wrong(_) => Ok(Reading::Hole),
            Spot::Named(_, _, _, reading) => copy_reading(alloc, reading),
            Spot::Part(_, _, _, _, _, reached) => copy_reading(alloc, &reached.typ),
            Spot::Call(_, _, _, writer, _, _) => writer_type(alloc, around, writer),
            Spot::Late(_, _, _, _, reached, known) => {
                late_type(alloc, known.before, &reached.typ)
            }
            Spot::Tuple(_, _, spots) => {
                let parts = each_typ(alloc, around, spots.as_slice())?;
                Ok(parts_typ(parts))
            }
        }
    }

    /// What is there, read as the base of a part. It fails where memory is wanting, and where variables are too many.
    #[cycle(spot_read)]
    #[tactic(auto, using(value_indices::proofs::Walks::walks))]
    pub fn read(
        &self,
        alloc: Global,
        walking: &mut Walking,
        around: &Around<'_>,
    ) -> Result<Indices, AllocError>
        ensures value { IfOk result (λ made. made
            ≡ walk.got (spec.Spot.read (spec.spot_of (around_of around.now) self.now)) (walk.seen walking.old)) }
        ensures walked { OnOk result (walk.seen walking.new
            ≡ walk.run (spec.Spot.read (spec.spot_of (around_of around.now) self.now)) (walk.seen walking.old)) }
    {
        match self {
            Spot::Wrong(place) => wrong_value(alloc, walking, *place),
            Spot::Named(place, number, name, reading) => {
                named_read(alloc, walking, *place, *number, name, reading)
            }
            Spot::Part(place, number, _, _, _, reached) => {
                reached.make(alloc, walking, *place, *number, &[])
            }
            Spot::Call(place, _, reader, _, _, arguments) => {
                let arguments = arguments.as_slice();
                read_call(alloc, walking, around, *place, *reader, arguments)
            }
            Spot::Late(place, _, _, _, _, _) => wrong_value(alloc, walking, *place),
            Spot::Tuple(_, number, spots) => {
                let parts = read_each(alloc, walking, around, spots.as_slice())?;
                tuple_ended(alloc, walking, *number, parts)
            }
        }
    }

    /// Notes what its read gives in a run, where this is there: of a part first what the read of its base does. It fails where memory is
    /// wanting.
    #[tactic(auto, using(value_indices::proofs::Walks::walks))]
    fn note_given(
        &self,
        alloc: Global,
        walking: &mut Walking,
        around: &Around<'_>,
        value: &Indices,
    ) -> Result<(), AllocError>
        ensures { OnOk result (walk.seen walking.new
            ≡ walk.run (spec.Spot.given (spec.spot_of (around_of around.now) self.now) value.now) (walk.seen walking.old)) }
    {
        match self {
            Spot::Wrong(_) => Ok(()),
            Spot::Named(_, number, _, _) => note_numbers(alloc, walking, *number, value),
            Spot::Part(_, number, _, base, held, _) => {
                base.get().note_given(alloc, walking, around, held)?;
                note_numbers(alloc, walking, *number, value)
            }
            Spot::Call(_, _, reader, _, _, _) => reader_given(alloc, walking, *reader, value),
            Spot::Late(_, _, _, _, _, _) => Ok(()),
            Spot::Tuple(_, _, _) => Ok(()),
        }
    }

    /// Writes it again with this value, of which a part was replaced. It fails where memory is wanting, and where variables are too
    /// many.
    #[tactic(auto, using(value_indices::proofs::Walks::walks))]
    fn renew(
        &self,
        alloc: Global,
        walking: &mut Walking,
        around: &Around<'_>,
        value: &Indices,
    ) -> Result<Indices, AllocError>
        ensures value { IfOk result (λ made. made
            ≡ walk.got (spec.Spot.renew (spec.spot_of (around_of around.now) self.now) value.now) (walk.seen walking.old)) }
        ensures walked { OnOk result (walk.seen walking.new
            ≡ walk.run (spec.Spot.renew (spec.spot_of (around_of around.now) self.now) value.now) (walk.seen walking.old)) }
    {
        match self {
            Spot::Wrong(place) => wrong_value(alloc, walking, *place),
            Spot::Named(_, _, _, _) => Ok(Indices::Unit),
            Spot::Part(_, _, _, base, held, _) => {
                base.get().note_given(alloc, walking, around, held)?;
                base.get().renew(alloc, walking, around, held)
            }
            Spot::Call(place, number, _, writer, nested, arguments) => renew_call(
                alloc,
                walking,
                around,
                *place,
                *number,
                *writer,
                nested.as_slice(),
                arguments.as_slice(),
                value,
            ),
            Spot::Late(place, _, _, _, _, _) => wrong_value(alloc, walking, *place),
            Spot::Tuple(place, _, _) => wrong_value(alloc, walking, *place),
        }
    }

    /// Writes a new value, unless it owes its type further in. It fails where memory is wanting, and where variables are too many.
    #[cycle(spot_write)]
    #[tactic(auto, using(value_indices::proofs::Walks::walks))]
    fn write(
        &self,
        alloc: Global,
        walking: &mut Walking,
        around: &Around<'_>,
        is_nested: bool,
        value: &Indices,
    ) -> Result<Wrote, AllocError>
        ensures value { IfOk result (λ made. spec.wrote_of (around_of around.now) made
            ≡ walk.got (spec.Spot.write (spec.spot_of (around_of around.now) self.now) is_nested value.now) (walk.seen walking.old)) }
        ensures walked { OnOk result (walk.seen walking.new
            ≡ walk.run (spec.Spot.write (spec.spot_of (around_of around.now) self.now) is_nested value.now) (walk.seen walking.old)) }
    {
        match self {
            Spot::Wrong(place) => wrong_write(alloc, walking, *place),
            Spot::Named(_, number, _, reading) => {
                write_named(alloc, walking, *number, reading, is_nested, value)
            }
            Spot::Part(place, number, way, base, held, reached) => put_part(
                alloc,
                walking,
                around,
                *place,
                *number,
                *way,
                base.get(),
                held,
                reached,
                is_nested,
                value,
            ),
            Spot::Call(place, number, _, writer, nested, arguments) => {
                let answer = write_call(
                    alloc,
                    walking,
                    around,
                    *place,
                    *number,
                    *writer,
                    nested.as_slice(),
                    arguments.as_slice(),
                    is_nested,
                    value,
                )?;
                Ok(Wrote::gives(answer))
            }
            Spot::Late(place, number, base, held, reached, known) => put_late(
                alloc,
                walking,
                around,
                *place,
                *number,
                base.get(),
                held,
                reached,
                known,
                is_nested,
                value,
            ),
            Spot::Tuple(place, _, spots) => write_tuple(
                alloc,
                walking,
                around,
                *place,
                spots.as_slice(),
                is_nested,
                value,
            ),
        }
    }

    /// Writes a new value, unless it owes its type further in, and owes what is left at a place; what the assignment gives. It fails
    /// where memory is wanting, and where variables are too many.
    #[tactic(auto, using(value_indices::proofs::Walks::walks))]
    pub fn assign(
        &self,
        alloc: Global,
        walking: &mut Walking,
        around: &Around<'_>,
        place: Place,
        is_nested: bool,
        value: &Indices,
    ) -> Result<Indices, AllocError>
        ensures value { IfOk result (λ made. made
            ≡ walk.got (spec.written_by place (spec.spot_of (around_of around.now) self.now) is_nested value.now) (walk.seen walking.old)) }
        ensures walked { OnOk result (walk.seen walking.new
            ≡ walk.run (spec.written_by place (spec.spot_of (around_of around.now) self.now) is_nested value.now) (walk.seen walking.old)) }
    {
        let wrote = self.write(alloc, walking, around, is_nested, value)?;
        wrote.owe(alloc, walking, around, place)
    }
}

/// The variable before which those are that a part of what is there late may name where its type is wanted: a base that names none from its
/// read on has parts that name those of its indexes too.
pub fn late_bound(before: u32, behind: u32, held: &Indices) -> u32
    ensures { result ≡ spec.late_bound before behind held.now }
{
    if is_value_below(before, held) {
        behind
    } else {
        before
    }
}

/// Whether the type of a part of what is there late is wanted: where it names only variables before this one, and has no hole inside.
fn is_late_wanted(before: u32, typ: &Reading) -> bool
    ensures { result ≡ spec.is_late_wanted before typ.now }
{
    if has_hole(typ) {
        false
    } else {
        is_type_below(before, typ)
    }
}

/// What is wanted of such a part. It fails where memory is wanting.
fn late_type(alloc: Global, before: u32, typ: &Reading) -> Result<Reading, AllocError>
    ensures { IfOk result (λ made. made ≡ spec.late_type before typ.now) }
{
    if is_late_wanted(before, typ) {
        copy_reading(alloc, typ)
    } else {
        Ok(Reading::Hole)
    }
}

/// Whether its new value owes the type further in: where it is wanted.
fn late_nested(before: u32, typ: &Reading, is_nested: bool) -> bool
    ensures { result ≡ (is_nested && spec.is_late_wanted before typ.now) }
{
    is_nested && is_late_wanted(before, typ)
}

/// The types of what is assigned to several. It fails where memory is wanting, and where binders are too many.
#[cycle(spot_typ)]
fn each_typ(
    alloc: Global,
    around: &Around<'_>,
    spots: &[Spot],
) -> Result<Items<Reading>, AllocError>
    ensures { IfOk result (λ made. made ≡ map (λ s. spec.Spot.typ s) (map (spec.spot_of (around_of around.now)) spots.now)) }
{
    let mut made = Items::new(alloc);
    for spot in spots {
        made.push(spot.typ(alloc, around)?)?;
    }
    Ok(made)
}

/// Whether one of these has a hole inside.
fn any_hole(types: &[Reading]) -> bool
    ensures { result ≡ spec.any_hole types.now }
{
    for typ in types {
        if has_hole(typ) {
            return true;
        }
    }
    false
}

/// The type of a tuple of such; none where one has a hole inside.
fn parts_typ(types: Items<Reading>) -> Reading
    ensures { result ≡ spec.parts_typ types }
{
    if any_hole(types.as_slice()) {
        Reading::Hole
    } else {
        Reading::Parts(types)
    }
}

/// Whether the parts of a tuple owe further in what is wanted of it: where the type of a target has a hole, they don't. It fails where memory
/// is wanting, and where binders are too many.
fn parts_nested(
    alloc: Global,
    around: &Around<'_>,
    spots: &[Spot],
    is_nested: bool,
) -> Result<bool, AllocError>
    ensures { IfOk result (λ made. made ≡ spec.parts_nested (map (spec.spot_of (around_of around.now)) spots.now) is_nested) }
{
    let types = each_typ(alloc, around, spots)?;
    if any_hole(types.as_slice()) {
        Ok(false)
    } else {
        Ok(is_nested)
    }
}

/// A tuple of what several hold, as the node of a number makes it, which is noted. It fails where memory is wanting.
fn tuple_ended(
    alloc: Global,
    walking: &mut Walking,
    number: u32,
    parts: Items<Indices>,
) -> Result<Indices, AllocError>
    ensures value { IfOk result (λ made. made ≡ walk.got (noted.node_ended number parts (I.Tuple parts)) (walk.seen walking.old)) }
    ensures walked { OnOk result (walk.seen walking.new ≡ walk.run (noted.node_ended number parts (I.Tuple parts)) (walk.seen walking.old)) }
{
    let operands = copy_each(alloc, parts.as_slice())?;
    let value = Indices::Tuple(parts);
    node_ended(alloc, walking, number, operands.as_slice(), value)
}

/// Several, read in order. It fails where memory is wanting, and where variables are too many.
#[cycle(spot_read)]
fn read_each(
    alloc: Global,
    walking: &mut Walking,
    around: &Around<'_>,
    spots: &[Spot],
) -> Result<Items<Indices>, AllocError>
    ensures value { IfOk result (λ made. made
        ≡ walk.got (spec.each_read (map (spec.spot_of (around_of around.now)) spots.now)) (walk.seen walking.old)) }
    ensures walked { OnOk result (walk.seen walking.new
        ≡ walk.run (spec.each_read (map (spec.spot_of (around_of around.now)) spots.now)) (walk.seen walking.old)) }
{
    let mut made = Items::new(alloc);
    for spot in spots {
        made.push(spot.read(alloc, walking, around)?)?;
    }
    Ok(made)
}

/// Whether a part owes at its own place: by an index.
pub fn owes_itself(way: Way) -> bool
    ensures { result ≡ spec.owes_itself way }
{
    match way {
        Way::Field(_, _) => false,
        _ => true,
    }
}

/// Writes nothing: what is false is owed. It fails where memory is wanting.
#[tactic(auto, using(value_indices::proofs::Walks::walks))]
fn wrong_write(alloc: Global, walking: &mut Walking, place: Place) -> Result<Wrote, AllocError>
    ensures value { IfOk result (λ made. (around : settings.Around)
        → spec.wrote_of around made ≡ walk.got (spec.wrong_write place) (walk.seen walking.old)) }
    ensures walked { OnOk result (walk.seen walking.new ≡ walk.run (spec.wrong_write place) (walk.seen walking.old)) }
{
    let answer = wrong_value(alloc, walking, place)?;
    Ok(Wrote::gives(answer))
}

/// Writes a `var` or a register of a number and a type. It fails where memory is wanting.
fn write_named(
    alloc: Global,
    walking: &mut Walking,
    number: u32,
    reading: &Reading,
    is_nested: bool,
    value: &Indices,
) -> Result<Wrote, AllocError>
    ensures value { IfOk result (λ made. (around : settings.Around)
        → spec.wrote_of around made ≡ spec.wrote (fits_unless is_nested around value.now reading.now) I.Unit) }
    ensures walked { OnOk result (walk.seen walking.new
        ≡ walk.run (nodes.put number (value.now ∷ []) reading.now value.now) (walk.seen walking.old)) }
{
    put(
        alloc,
        walking,
        number,
        std::slice::from_ref(value),
        reading,
        value,
    )?;
    Wrote::of_value(alloc, is_nested, value, reading)
}

/// The base of a part is read and written again, where this is there: what that gives. It fails where memory is wanting, and where variables
/// are too many.
#[tactic(auto, using(value_indices::proofs::Walks::walks))]
fn rewrite(
    alloc: Global,
    walking: &mut Walking,
    around: &Around<'_>,
    base: &Spot,
    held: &Indices,
) -> Result<Indices, AllocError>
    ensures value { IfOk result (λ made. made
        ≡ walk.got (spec.rewritten (spec.spot_of (around_of around.now) base.now) held.now) (walk.seen walking.old)) }
    ensures walked { OnOk result (walk.seen walking.new
        ≡ walk.run (spec.rewritten (spec.spot_of (around_of around.now) base.now) held.now) (walk.seen walking.old)) }
{
    base.note_given(alloc, walking, around, held)?;
    base.renew(alloc, walking, around, held)
}

/// Writes a part, which gets the new value at its own number. It fails where memory is wanting, and where variables are too many.
#[tactic(auto, using(value_indices::proofs::Walks::walks))]
fn put_part(
    alloc: Global,
    walking: &mut Walking,
    around: &Around<'_>,
    place: Place,
    number: u32,
    way: Way,
    base: &Spot,
    held: &Indices,
    reached: &Reached,
    is_nested: bool,
    value: &Indices,
) -> Result<Wrote, AllocError>
    ensures value { IfOk result (λ made. spec.wrote_of (around_of around.now) made
        ≡ walk.got (spec.part_put (around_of around.now) place number (spec.owes_itself way) reached.now
        (spec.rewritten (spec.spot_of (around_of around.now) base.now) held.now) is_nested value.now) (walk.seen walking.old)) }
    ensures walked { OnOk result (walk.seen walking.new
        ≡ walk.run (spec.part_put (around_of around.now) place number (spec.owes_itself way) reached.now
        (spec.rewritten (spec.spot_of (around_of around.now) base.now) held.now) is_nested value.now) (walk.seen walking.old)) }
{
    put(
        alloc,
        walking,
        number,
        std::slice::from_ref(value),
        &reached.typ,
        value,
    )?;
    write_part(
        alloc, walking, around, place, way, base, held, reached, is_nested, value,
    )
}

/// Writes a part: the base is written again. It fails where memory is wanting, and where variables are too many.
#[tactic(auto, using(value_indices::proofs::Walks::walks))]
fn write_part(
    alloc: Global,
    walking: &mut Walking,
    around: &Around<'_>,
    place: Place,
    way: Way,
    base: &Spot,
    held: &Indices,
    reached: &Reached,
    is_nested: bool,
    value: &Indices,
) -> Result<Wrote, AllocError>
    ensures value { IfOk result (λ made. spec.wrote_of (around_of around.now) made
        ≡ walk.got (spec.part_write (around_of around.now) place (spec.owes_itself way) reached.now
        (spec.rewritten (spec.spot_of (around_of around.now) base.now) held.now) is_nested value.now) (walk.seen walking.old)) }
    ensures walked { OnOk result (walk.seen walking.new
        ≡ walk.run (spec.part_write (around_of around.now) place (spec.owes_itself way) reached.now
        (spec.rewritten (spec.spot_of (around_of around.now) base.now) held.now) is_nested value.now) (walk.seen walking.old)) }
{
    if owes_itself(way) {
        owe_part(alloc, walking, around, place, reached, is_nested, value)?;
        let answer = rewrite(alloc, walking, around, base, held)?;
        Ok(Wrote::gives(answer))
    } else {
        let answer = rewrite(alloc, walking, around, base, held)?;
        Wrote::of_part(alloc, reached, is_nested, value, answer)
    }
}

/// Writes a part of what is there late, which gets the new value at its own number: behind that, what is known of it comes into force, and the
/// part owes before the base is written again. It fails where memory is wanting, and where variables are too many.
fn put_late(
    alloc: Global,
    walking: &mut Walking,
    around: &Around<'_>,
    place: Place,
    number: u32,
    base: &Spot,
    held: &Indices,
    reached: &Reached,
    known: &Known,
    is_nested: bool,
    value: &Indices,
) -> Result<Wrote, AllocError>
    ensures value { IfOk result (λ made. spec.wrote_of (around_of around.now) made
        ≡ walk.got (spec.late_put (around_of around.now) place number reached.now known.now
        (spec.rewritten (spec.spot_of (around_of around.now) base.now) held.now) is_nested value.now) (walk.seen walking.old)) }
    ensures walked { OnOk result (walk.seen walking.new
        ≡ walk.run (spec.late_put (around_of around.now) place number reached.now known.now
        (spec.rewritten (spec.spot_of (around_of around.now) base.now) held.now) is_nested value.now) (walk.seen walking.old)) }
{
    put(
        alloc,
        walking,
        number,
        std::slice::from_ref(value),
        &Reading::Hole,
        value,
    )?;
    let facts = copy_facts(alloc, known.facts.as_slice())?;
    walking.assume_facts(facts)?;
    let nested = late_nested(known.before, &reached.typ, is_nested);
    owe_part(alloc, walking, around, place, reached, nested, value)?;
    let answer = rewrite(alloc, walking, around, base, held)?;
    Ok(Wrote::gives(answer))
}

/// Writes a tuple: each its part of the value. It fails where memory is wanting, and where variables are too many.
#[cycle(spot_write)]
#[tactic(auto, using(value_indices::proofs::Walks::walks))]
fn write_tuple(
    alloc: Global,
    walking: &mut Walking,
    around: &Around<'_>,
    place: Place,
    spots: &[Spot],
    is_nested: bool,
    value: &Indices,
) -> Result<Wrote, AllocError>
    ensures value { IfOk result (λ made. spec.wrote_of (around_of around.now) made
        ≡ walk.got (spec.tuple_write place (map (spec.spot_of (around_of around.now)) spots.now) is_nested (out-Indices value.now))
        (walk.seen walking.old)) }
    ensures walked { OnOk result (walk.seen walking.new
        ≡ walk.run (spec.tuple_write place (map (spec.spot_of (around_of around.now)) spots.now) is_nested (out-Indices value.now))
        (walk.seen walking.old)) }
{
    match value {
        Indices::Tuple(values) => {
            let nested = parts_nested(alloc, around, spots, is_nested)?;
            let values = values.as_slice();
            write_each(alloc, walking, around, place, spots, nested, values)
        }
        Indices::Never => Ok(Wrote::gives(Indices::Unit)),
        _ => wrong_write(alloc, walking, place),
    }
}

/// Writes several, each its value; what a write puts in force isn't in force behind it. It fails where memory is wanting, and where
/// variables are too many.
#[cycle(spot_write)]
#[tactic(auto, using(value_indices::proofs::Walks::walks))]
fn write_each(
    alloc: Global,
    walking: &mut Walking,
    around: &Around<'_>,
    place: Place,
    spots: &[Spot],
    is_nested: bool,
    values: &[Indices],
) -> Result<Wrote, AllocError>
    ensures value { IfOk result (λ made. spec.wrote_of (around_of around.now) made
        ≡ walk.got (spec.each_written place (map (spec.spot_of (around_of around.now)) spots.now) is_nested values.now) (walk.seen walking.old)) }
    ensures walked { OnOk result (walk.seen walking.new
        ≡ walk.run (spec.each_written place (map (spec.spot_of (around_of around.now)) spots.now) is_nested values.now) (walk.seen walking.old)) }
{
    let mut lefts = Items::new(alloc);
    for index in 0..spots.len().min(values.len()) {
        walking.remember()?;
        let wrote = spots[index].write(alloc, walking, around, is_nested, &values[index])?;
        walking.restore()?;
        lefts.push(wrote.into_left())?;
    }
    if spots.len() == values.len() {
        return Ok(Wrote::of_each(lefts, Indices::Unit));
    }
    let answer = wrong_value(alloc, walking, place)?;
    Ok(Wrote::of_each(lefts, answer))
}
