//! Ways into values, and parts that are read.
ghost use Rattle.std.specs.Prelude.{◌≡◌, [], ◌∷◌, ◌++◌, Some, map, slice_get, IfOk, OnOk};
ghost use Rattle.std.specs.Option.{option_copied};
ghost use Rattle.pattern_leaves.specs.Settings.{around_of};
ghost use Rattle.value_indices.specs.Opening as opening;
ghost use Rattle.value_indices.specs.Walking as walk;
ghost use Rattle.value_indices.specs.declared.indices.Indices.{out-Indices};
ghost use Rattle.value_indices.specs.declared.indices.Indices.TheVariants as I;
ghost use Rattle.value_indices.specs.declared.indices.Reading.TheVariants as R;
ghost use Rattle.expression_forms.specs.Ways as ways;

use call_arguments::type_parameters;
use call_notes::{fits_unless, is_never, made_opened, node_given, opened_at, under, wrong_value};
use pattern_leaves::Around;
use sail_base::{Boxed, Items, Place};
use sail_types::{Comparison, Con, Field, Index, Num, Typ, add, copy_con, copy_num, subtract};
use std::alloc::{AllocError, Global};
use type_arguments::copy_typ;
use value_fits::{Fitted, Wanted, owe_fit};
use value_indices::{
    Indices, Reading, Walking, at_most, copy_indices, copy_reading, number_or_fresh, zero_num,
};
use wide_types::parameters_of;

/// A part of a value that a way reaches.
#[derive(Drop)]
pub struct Reached {
    /// What has to be true for there to be such a part.
    pub conditions: Items<Option<Con>>,
    /// The numbers of the way's indexes.
    pub numbers: Items<Num>,
    /// The part's type.
    pub typ: Reading,
}

/// The two ends of a slice, and its width.
#[derive(Drop)]
pub struct Ends {
    /// The higher end.
    pub high: Num,
    /// The lower end.
    pub low: Num,
    /// The width.
    pub width: Num,
}

/// A field by its place; none where there is no such field.
fn field_at(fields: &[Field], field: u32) -> Option<&Field>
    ensures { option_copied result ≡ slice_get fields.now field }
{
    fields.get(field as usize)
}

/// The type of a field by its place; nothing where there is no such field. It fails where memory is wanting.
fn push_field(
    alloc: Global,
    field: u32,
    fields: &[Field],
    types: &mut Items<Typ>,
) -> Result<(), AllocError>
    ensures { OnOk result (types.new ≡ types.old ++ ways.field_typ field fields.now) }
{
    match field_at(fields, field) {
        None => Ok(()),
        Some(field) => types.push(copy_typ(alloc, &field.typ)?),
    }
}

/// The types of the fields at these places. It fails where memory is wanting.
fn each_field(alloc: Global, places: &[u32], fields: &[Field]) -> Result<Items<Typ>, AllocError>
    ensures { IfOk result (λ made. made ≡ ways.fields_at places.now (Some fields.now)) }
{
    let mut types = Items::new(alloc);
    for place in places {
        push_field(alloc, *place, fields, &mut types)?;
    }
    Ok(types)
}

/// The types of the fields at these places of a struct, by its place in the table; none where no struct stands there. It fails where
/// memory is wanting.
pub fn fields_of(
    alloc: Global,
    around: &Around<'_>,
    named: u32,
    places: &[u32],
) -> Result<Items<Typ>, AllocError>
    ensures { IfOk result (λ made. made ≡ ways.fields_of (around_of around.now) named places.now) }
{
    match around.types.fields(named) {
        None => Ok(Items::new(alloc)),
        Some(fields) => each_field(alloc, places, fields),
    }
}

/// `i < n`. It fails where memory is wanting.
fn less(alloc: Global, number: &Num, limit: &Num) -> Result<Con, AllocError>
    ensures { IfOk result (λ made. made ≡ ways.less number.now limit.now) }
{
    let number = copy_num(alloc, number)?;
    let limit = copy_num(alloc, limit)?;
    Ok(Con::Compare(Comparison::Less, number, limit))
}

/// `t <= u`. It fails where memory is wanting.
fn most(alloc: Global, number: &Num, limit: &Num) -> Result<Con, AllocError>
    ensures { IfOk result (λ made. made ≡ opening.at_most number.now limit.now) }
{
    let number = copy_num(alloc, number)?;
    let limit = copy_num(alloc, limit)?;
    Ok(at_most(number, limit))
}

/// `0 <= i & i < length`. It fails where memory is wanting.
fn inside_length(alloc: Global, index: &Num, length: &Num) -> Result<Items<Option<Con>>, AllocError>
    ensures { IfOk result (λ made. made ≡ ways.inside_length index.now length.now) }
{
    let mut conditions = Items::new(alloc);
    conditions.push(Some(most(alloc, &zero_num(alloc), index)?))?;
    conditions.push(Some(less(alloc, index, length)?))?;
    Ok(conditions)
}

/// `0 <= lo & lo <= hi & hi < length`. It fails where memory is wanting.
fn inside_slice(
    alloc: Global,
    high: &Num,
    low: &Num,
    length: &Num,
) -> Result<Items<Option<Con>>, AllocError>
    ensures { IfOk result (λ made. made ≡ ways.inside_slice high.now low.now length.now) }
{
    let mut conditions = Items::new(alloc);
    conditions.push(Some(most(alloc, &zero_num(alloc), low)?))?;
    conditions.push(Some(most(alloc, low, high)?))?;
    conditions.push(Some(less(alloc, high, length)?))?;
    Ok(conditions)
}

/// `hi - lo + 1`; none where a number past the largest integer stands on the way. It fails where memory is wanting.
fn slice_width(alloc: Global, high: &Num, low: &Num) -> Result<Option<Num>, AllocError>
    ensures { IfOk result (λ made. made ≡ ways.slice_width high.now low.now) }
{
    match subtract(alloc, high, low)? {
        None => Ok(None),
        Some(between) => add(alloc, &between, &Num::constant(alloc, 1)),
    }
}

/// The two ends of a slice, and its width, which is fresh where it can't be said. It fails where memory is wanting, and where variables
/// are too many.
#[tactic(auto, using(value_indices::proofs::Walks::walks))]
pub fn with_width(
    alloc: Global,
    walking: &mut Walking,
    high: Num,
    low: Num,
) -> Result<Option<Ends>, AllocError>
    ensures value { IfOk result (λ made. made ≡ walk.got (ways.with_width high low) (walk.seen walking.old)) }
    ensures walked { OnOk result (walk.seen walking.new ≡ walk.run (ways.with_width high low) (walk.seen walking.old)) }
{
    let width = slice_width(alloc, &high, &low)?;
    let width = number_or_fresh(alloc, walking, width)?;
    Ok(Some(Ends { high, low, width }))
}

/// A part of a type that is a field's, if there is one.
fn field_reached(
    alloc: Global,
    types: &[Typ],
    indices: &[Index],
    readings: &[Reading],
) -> Result<Option<Reached>, AllocError>
    ensures { IfOk result (λ made. made ≡ ways.field_reached types.now indices.now readings.now) }
{
    match types.get(0) {
        None => Ok(None),
        Some(typ) => {
            let typ = under(alloc, typ, indices, readings)?;
            let conditions = Items::new(alloc);
            let numbers = Items::new(alloc);
            Ok(Some(Reached {
                conditions,
                numbers,
                typ,
            }))
        }
    }
}

/// Whether a value of a named type, by its place in the table and its Type arguments, is of the struct at the first place: it has as many of them
/// as that has Type variables.
pub fn is_struct(around: &Around<'_>, named: u32, own: u32, readings: &[Reading]) -> bool
    ensures { result ≡ ways.is_struct (around_of around.now) named own readings.now }
{
    named == own && readings.len() == type_parameters(parameters_of(around.types, named))
}

/// A field of a value, by the struct's place in the table and its own in the struct; none where there is no such field, and of a value of another
/// type. It fails where memory is wanting.
pub fn into_field(
    alloc: Global,
    around: &Around<'_>,
    named: u32,
    field: u32,
    value: &Indices,
) -> Result<Option<Reached>, AllocError>
    ensures { IfOk result (λ made. made ≡ ways.into_field (around_of around.now) named field (out-Indices value.now)) }
{
    match value {
        Indices::Named(own, indices, readings) => {
            if is_struct(around, named, *own, readings.as_slice()) {
                let types = fields_of(alloc, around, named, &[field])?;
                field_reached(
                    alloc,
                    types.as_slice(),
                    indices.as_slice(),
                    readings.as_slice(),
                )
            } else {
                Ok(None)
            }
        }
        _ => Ok(None),
    }
}

/// A widened type. It fails where memory is wanting.
fn widened(alloc: Global, value: Indices) -> Result<Reading, AllocError>
    ensures { IfOk result (λ made. made ≡ R.Widened value) }
{
    Ok(Reading::Widened(Boxed::new(alloc, value)?))
}

/// The number of the one index. It fails where memory is wanting.
fn one_number(alloc: Global, index: &Num) -> Result<Items<Num>, AllocError>
    ensures { IfOk result (λ made. made ≡ index.now ∷ []) }
{
    let mut numbers = Items::new(alloc);
    numbers.push(copy_num(alloc, index)?)?;
    Ok(numbers)
}

/// Those of the two ends, the higher first. It fails where memory is wanting.
fn two_numbers(alloc: Global, high: &Num, low: &Num) -> Result<Items<Num>, AllocError>
    ensures { IfOk result (λ made. made ≡ high.now ∷ low.now ∷ []) }
{
    let mut numbers = Items::new(alloc);
    numbers.push(copy_num(alloc, high)?)?;
    numbers.push(copy_num(alloc, low)?)?;
    Ok(numbers)
}

/// An item of a value; none where it has no items. It fails where memory is wanting.
pub fn into_item(alloc: Global, index: &Num, value: &Indices) -> Result<Option<Reached>, AllocError>
    ensures { IfOk result (λ made. made ≡ ways.into_item index.now (out-Indices value.now)) }
{
    match value {
        Indices::Bits(length) => {
            let conditions = inside_length(alloc, index, length)?;
            let numbers = one_number(alloc, index)?;
            let typ = widened(alloc, Indices::Bit)?;
            Ok(Some(Reached {
                conditions,
                numbers,
                typ,
            }))
        }
        Indices::Vector(length, item) => {
            let conditions = inside_length(alloc, index, length)?;
            let numbers = one_number(alloc, index)?;
            let typ = copy_reading(alloc, item.get())?;
            Ok(Some(Reached {
                conditions,
                numbers,
                typ,
            }))
        }
        _ => Ok(None),
    }
}

/// A slice of bits, of this width; none of another value. It fails where memory is wanting.
pub fn into_slice(
    alloc: Global,
    high: &Num,
    low: &Num,
    width: Num,
    value: &Indices,
) -> Result<Option<Reached>, AllocError>
    ensures { IfOk result (λ made. made ≡ ways.into_slice high.now low.now width (out-Indices value.now)) }
{
    match value {
        Indices::Bits(length) => {
            let conditions = inside_slice(alloc, high, low, length)?;
            let numbers = two_numbers(alloc, high, low)?;
            let typ = widened(alloc, Indices::Bits(width))?;
            Ok(Some(Reached {
                conditions,
                numbers,
                typ,
            }))
        }
        _ => Ok(None),
    }
}

/// Of a value without such a part: none where it never ends normally, and else what is false is owed. It fails where memory is wanting.
pub fn if_never_value(
    alloc: Global,
    walking: &mut Walking,
    place: Place,
    value: &Indices,
) -> Result<Indices, AllocError>
    ensures value { IfOk result (λ made. made ≡ walk.got (ways.if_never_value place value.now) (walk.seen walking.old)) }
    ensures walked { OnOk result (walk.seen walking.new ≡ walk.run (ways.if_never_value place value.now) (walk.seen walking.old)) }
{
    if is_never(value) {
        return Ok(Indices::Never);
    }
    wrong_value(alloc, walking, place)
}

/// Conditions, copied. It fails where memory is wanting.
fn copy_conditions(
    alloc: Global,
    conditions: &[Option<Con>],
) -> Result<Items<Option<Con>>, AllocError>
    ensures { IfOk result (λ made. made ≡ conditions.now) }
{
    let mut made = Items::new(alloc);
    for condition in conditions {
        made.push(copy_condition(alloc, condition)?)?;
    }
    Ok(made)
}

/// A condition, copied. It fails where memory is wanting.
fn copy_condition(alloc: Global, condition: &Option<Con>) -> Result<Option<Con>, AllocError>
    ensures { IfOk result (λ made. made ≡ condition.now) }
{
    match condition {
        None => Ok(None),
        Some(condition) => Ok(Some(copy_con(alloc, condition)?)),
    }
}

/// Numbers, copied. It fails where memory is wanting.
fn copy_numbers(alloc: Global, numbers: &[Num]) -> Result<Items<Num>, AllocError>
    ensures { IfOk result (λ made. made ≡ numbers.now) }
{
    let mut made = Items::new(alloc);
    for number in numbers {
        made.push(copy_num(alloc, number)?)?;
    }
    Ok(made)
}

/// A value, and behind it integers of these numbers. It fails where memory is wanting.
fn with_integers(
    alloc: Global,
    value: &Indices,
    numbers: &[Num],
) -> Result<Items<Indices>, AllocError>
    ensures { IfOk result (λ made. made ≡ value.now ∷ map (λ n. I.Integer n) numbers.now) }
{
    let mut made = Items::new(alloc);
    made.push(copy_indices(alloc, value)?)?;
    for number in numbers {
        made.push(Indices::Integer(copy_num(alloc, number)?))?;
    }
    Ok(made)
}

impl Reached {
    /// The same. It fails where memory is wanting.
    pub fn copy(&self, alloc: Global) -> Result<Reached, AllocError>
        ensures { IfOk result (λ made. made ≡ self.now) }
    {
        let conditions = copy_conditions(alloc, self.conditions.as_slice())?;
        let numbers = copy_numbers(alloc, self.numbers.as_slice())?;
        let typ = copy_reading(alloc, &self.typ)?;
        Ok(Reached {
            conditions,
            numbers,
            typ,
        })
    }

    /// The value, and the indexes of the way into it. It fails where memory is wanting.
    fn operands(&self, alloc: Global, value: &Indices) -> Result<Items<Indices>, AllocError>
        ensures { IfOk result (λ made. made ≡ value.now ∷ ways.indexed self.now) }
    {
        with_integers(alloc, value, self.numbers.as_slice())
    }

    /// The part of a value, opened, as the node of a number makes it of these operands, which is noted; what has to be true for there to be
    /// such a part is owed at a place. It fails where memory is wanting, and where variables are too many.
    #[tactic(auto, using(value_indices::proofs::Walks::walks))]
    pub(crate) fn make(
        &self,
        alloc: Global,
        walking: &mut Walking,
        place: Place,
        number: u32,
        operands: &[Indices],
    ) -> Result<Indices, AllocError>
        ensures value { IfOk result (λ made. made
            ≡ walk.got (ways.part_made place number operands.now self.now) (walk.seen walking.old)) }
        ensures walked { OnOk result (walk.seen walking.new
            ≡ walk.run (ways.part_made place number operands.now self.now) (walk.seen walking.old)) }
    {
        let conditions = copy_conditions(alloc, self.conditions.as_slice())?;
        walking.owe(alloc, place, conditions)?;
        made_opened(alloc, walking, place, number, operands, &self.typ)
    }

    /// The part that a suffix of a number takes out of a value, with the numbers that it gives. It fails where memory is wanting, and where
    /// variables are too many.
    #[tactic(auto, using(value_indices::proofs::Walks::walks))]
    fn take_out(
        &self,
        alloc: Global,
        walking: &mut Walking,
        place: Place,
        number: u32,
        value: &Indices,
    ) -> Result<Indices, AllocError>
        ensures value { IfOk result (λ made. made
            ≡ walk.got (ways.taken_out place number value.now (Some self.now)) (walk.seen walking.old)) }
        ensures walked { OnOk result (walk.seen walking.new
            ≡ walk.run (ways.taken_out place number value.now (Some self.now)) (walk.seen walking.old)) }
    {
        let operands = self.operands(alloc, value)?;
        let part = self.make(alloc, walking, place, number, operands.as_slice())?;
        node_given(alloc, walking, number, part)
    }

    /// The part of a value, opened; what has to be true for there to be such a part is owed at a place. It fails where memory is
    /// wanting, and where variables are too many.
    #[tactic(auto, using(value_indices::proofs::Walks::walks))]
    fn read(
        &self,
        alloc: Global,
        walking: &mut Walking,
        place: Place,
    ) -> Result<Indices, AllocError>
        ensures value { IfOk result (λ made. made ≡ walk.got (ways.part_read place self.now) (walk.seen walking.old)) }
        ensures walked { OnOk result (walk.seen walking.new ≡ walk.run (ways.part_read place self.now) (walk.seen walking.old)) }
    {
        let conditions = copy_conditions(alloc, self.conditions.as_slice())?;
        walking.owe(alloc, place, conditions)?;
        opened_at(alloc, walking, place, &self.typ)
    }

    /// What has to be true for there to be such a part, and for a value to be of its type, unless it owes that itself. It fails where
    /// memory is wanting, and where variables are too many.
    pub(crate) fn fits(
        &self,
        alloc: Global,
        around: &Around<'_>,
        is_nested: bool,
        value: &Indices,
        next: u32,
    ) -> Result<Fitted, AllocError>
        ensures { IfOk result (λ made. made ≡ ways.part_fits (around_of around.now) self.now is_nested value.now next) }
    {
        let conditions = copy_conditions(alloc, self.conditions.as_slice())?;
        let wanted = Wanted::lent(&self.typ);
        let says = Fitted::says(alloc, conditions, next);
        let fits = fits_unless(alloc, around, is_nested, value, &wanted, next)?;
        says.also(fits)
    }
}

/// A part of a value that is read: it owes, and is opened. It fails where memory is wanting, and where variables are too many.
#[tactic(auto, using(value_indices::proofs::Walks::walks))]
fn read_into(
    alloc: Global,
    walking: &mut Walking,
    place: Place,
    value: &Indices,
    reached: Option<&Reached>,
) -> Result<Indices, AllocError>
    ensures value { IfOk result (λ made. made
        ≡ walk.got (ways.read_into place value.now (option_copied reached.entry)) (walk.seen walking.old)) }
    ensures walked { OnOk result (walk.seen walking.new
        ≡ walk.run (ways.read_into place value.now (option_copied reached.entry)) (walk.seen walking.old)) }
{
    match reached {
        None => if_never_value(alloc, walking, place, value),
        Some(reached) => reached.read(alloc, walking, place),
    }
}

/// A part of a value that a suffix of a number takes out. It fails where memory is wanting, and where variables are too many.
#[tactic(auto, using(value_indices::proofs::Walks::walks))]
fn taken_out(
    alloc: Global,
    walking: &mut Walking,
    place: Place,
    number: u32,
    value: &Indices,
    reached: Option<&Reached>,
) -> Result<Indices, AllocError>
    ensures value { IfOk result (λ made. made
        ≡ walk.got (ways.taken_out place number value.now (option_copied reached.entry)) (walk.seen walking.old)) }
    ensures walked { OnOk result (walk.seen walking.new
        ≡ walk.run (ways.taken_out place number value.now (option_copied reached.entry)) (walk.seen walking.old)) }
{
    match reached {
        None => if_never_value(alloc, walking, place, value),
        Some(reached) => reached.take_out(alloc, walking, place, number, value),
    }
}

/// A part of a value by a suffix of a number: of a target it is read alone, since nothing is made there, and else taken out. It fails where
/// memory is wanting, and where variables are too many.
#[tactic(auto, using(value_indices::proofs::Walks::walks))]
pub fn read_suffix(
    alloc: Global,
    walking: &mut Walking,
    is_target: bool,
    place: Place,
    number: u32,
    value: &Indices,
    reached: Option<&Reached>,
) -> Result<Indices, AllocError>
    ensures value { IfOk result (λ made. made
        ≡ walk.got (ways.suffix_read is_target place number value.now (option_copied reached.entry)) (walk.seen walking.old)) }
    ensures walked { OnOk result (walk.seen walking.new
        ≡ walk.run (ways.suffix_read is_target place number value.now (option_copied reached.entry)) (walk.seen walking.old)) }
{
    if is_target {
        read_into(alloc, walking, place, value, reached)
    } else {
        taken_out(alloc, walking, place, number, value, reached)
    }
}

/// What a value with another part is made of: what it was, the indexes of the way to the part, and that. It fails where memory is wanting.
pub fn update_operands(
    alloc: Global,
    value: &Indices,
    reached: &Reached,
    part: &Indices,
) -> Result<Items<Indices>, AllocError>
    ensures { IfOk result (λ made. made ≡ ways.update_operands value.now reached.now part.now) }
{
    let mut operands = reached.operands(alloc, value)?;
    operands.push(copy_indices(alloc, part)?)?;
    Ok(operands)
}

/// Owes at a place that there is such a part, and that a new value of it is of its type, unless it owes that itself. It fails where
/// memory is wanting, and where variables are too many.
#[tactic(auto, using(value_fits::proofs::Owed::owed))]
pub fn owe_part(
    alloc: Global,
    walking: &mut Walking,
    around: &Around<'_>,
    place: Place,
    reached: &Reached,
    is_nested: bool,
    value: &Indices,
) -> Result<(), AllocError>
    ensures { OnOk result (walk.seen walking.new
        ≡ walk.run (ways.owe_part (around_of around.now) place reached.now is_nested value.now) (walk.seen walking.old)) }
{
    let made = reached.fits(alloc, around, is_nested, value, walking.next())?;
    owe_fit(alloc, walking, place, made)
}
