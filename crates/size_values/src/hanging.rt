//! On which of its arguments the sizes of a named type hang.
ghost use Rattle.std.specs.Prelude.{◌≡◌, Some, IfOk, map};
ghost use Rattle.sail_types.specs.Named.{field_types};
ghost use Rattle.size_values.specs.Hanging as spec;
ghost use Rattle.size_values.specs.Numbers as numbers;

use crate::constants::Constant;
use crate::numbers::{constant_number, indices_under};
use crate::sizes::{bound_before, form_fields};
use crate::small::{both, either};
use crate::values::only_open;
use crate::variables::Variables;
use sail_base::Items;
use sail_types::{Definition, Field, Num, Typ};
use std::alloc::{AllocError, Global};

/// Whether the parameter at an index is marked; one past them is.
fn flag_at(flags: &[bool], index: usize) -> bool
    ensures { result ≡ spec.marked_in (Some flags.now) index }
{
    match flags.get(index) {
        Some(flag) => *flag,
        None => true,
    }
}

/// Whether the argument at an index of the named type at a place is marked.
fn is_marked(marks: &[Items<bool>], place: u32, index: usize) -> bool
    ensures { result ≡ spec.is_marked marks.now place index }
{
    match marks.get(place as usize) {
        Some(flags) => flag_at(flags.as_slice(), index),
        None => false,
    }
}

/// Whether it isn't constant.
fn is_free(constant: &Constant) -> bool
    ensures { result ≡ numbers.is_free constant.now }
{
    match constant {
        Constant::Number(_) => false,
        _ => true,
    }
}

/// Whether one of the arguments of the named type at a place that are marked isn't constant.
fn arguments_open(marks: &[Items<bool>], place: u32, arguments: &[Constant]) -> bool
    ensures { result ≡ spec.arguments_open marks.now place 0 arguments.now }
{
    let mut index = 0;
    for argument in arguments {
        if both(is_marked(marks, place, index), is_free(argument)) {
            return true;
        }
        index += 1;
    }
    false
}

/// Whether a size isn't constant, where the variables are these.
fn size_open(size: &Num, constants: &[Constant]) -> bool
    ensures { result ≡ numbers.is_free (numbers.constant_under (numbers.argument_of constants.now) size.now) }
{
    constant_number(size, &Variables::Arguments(constants)).is_none()
}

/// Whether a size in a type isn't constant, where its variables are these. It fails where memory is wanting.
#[cycle(typ_open)]
fn typ_open(
    alloc: Global,
    marks: &[Items<bool>],
    typ: &Typ,
    constants: &[Constant],
) -> Result<bool, AllocError>
    ensures { IfOk result (λ found. found ≡ spec.typ_open marks.now typ.now constants.now) }
{
    match typ {
        Typ::Bits(width) => Ok(size_open(width, constants)),
        Typ::List(item) => typ_open(alloc, marks, item.get(), constants),
        Typ::Vector(length, item) => {
            let is_open = typ_open(alloc, marks, item.get(), constants)?;
            Ok(either(size_open(length, constants), is_open))
        }
        Typ::Tuple(parts) => one_open(alloc, marks, parts.as_slice(), constants),
        Typ::Named(place, arguments, parts) => {
            let variables = Variables::Arguments(constants);
            let arguments = indices_under(alloc, arguments.as_slice(), &variables)?;
            let is_open = one_open(alloc, marks, parts.as_slice(), constants)?;
            Ok(either(arguments_open(marks, *place, arguments.as_slice()), is_open))
        }
        Typ::Exists(name, _, part) => {
            let constants = bound_before(alloc, name, constants)?;
            typ_open(alloc, marks, part.get(), constants.as_slice())
        }
        _ => Ok(false),
    }
}

/// The same of one of several types.
#[cycle(typ_open)]
fn one_open(
    alloc: Global,
    marks: &[Items<bool>],
    parts: &[Typ],
    constants: &[Constant],
) -> Result<bool, AllocError>
    ensures { IfOk result (λ found. found ≡ spec.one_open (map (spec.typ_open marks.now) parts.now) constants.now) }
{
    for part in parts {
        if typ_open(alloc, marks, part, constants)? {
            return Ok(true);
        }
    }
    Ok(false)
}

/// The same of fields and payloads.
fn fields_open(
    alloc: Global,
    marks: &[Items<bool>],
    fields: &[Field],
    constants: &[Constant],
) -> Result<bool, AllocError>
    ensures { IfOk result (λ found. found ≡ spec.fields_open marks.now fields.now constants.now) }
{
    for field in fields {
        if typ_open(alloc, marks, &field.typ, constants)? {
            return Ok(true);
        }
    }
    Ok(false)
}

/// Which of so many parameters the sizes in these fields hang on.
fn parameters_marked(
    alloc: Global,
    marks: &[Items<bool>],
    fields: &[Field],
    count: usize,
) -> Result<Items<bool>, AllocError>
    ensures { IfOk result (λ made. made ≡ spec.parameters_marked marks.now fields.now count count) }
{
    let mut made = Items::new(alloc);
    for index in 0..count {
        let constants = only_open(alloc, index, count)?;
        made.push(fields_open(alloc, marks, fields, constants.as_slice())?)?;
    }
    Ok(made)
}

/// What is marked next.
fn marked_next(
    alloc: Global,
    definitions: &[Definition],
    marks: &[Items<bool>],
) -> Result<Items<Items<bool>>, AllocError>
    ensures { IfOk result (λ made. made ≡ spec.marked_next definitions.now marks.now) }
{
    let mut made = Items::new(alloc);
    for definition in definitions {
        let fields = form_fields(&definition.form);
        let count = definition.parameters.len();
        made.push(parameters_marked(alloc, marks, fields, count)?)?;
    }
    Ok(made)
}

/// Whether both are marked, or neither.
fn same_flag(a: bool, b: bool) -> bool
    ensures { result ≡ spec.flag_eq a b }
{
    if a { b } else { !b }
}

/// Whether the same parameters are marked.
#[tactic(auto, using(crate::proofs::Same::flags_differ))]
fn same_flags(a: &[bool], b: &[bool]) -> bool
    ensures { result ≡ spec.flags_eq a.now b.now }
{
    if a.len() != b.len() {
        return false;
    }
    let mut at = 0;
    for flag in a {
        if !same_flag(*flag, b[at]) {
            return false;
        }
        at += 1;
    }
    true
}

/// Whether the same is marked.
#[tactic(auto, using(crate::proofs::Same::marks_differ))]
fn same_marks(a: &[Items<bool>], b: &[Items<bool>]) -> bool
    ensures { result ≡ spec.marks_eq a.now b.now }
{
    if a.len() != b.len() {
        return false;
    }
    let mut at = 0;
    for flags in a {
        let other = &b[at];
        if !same_flags(flags.as_slice(), other.as_slice()) {
            return false;
        }
        at += 1;
    }
    true
}

/// Marks more and more within so many steps, until none is marked next that wasn't before. It fails where memory is wanting.
#[cycle(settle)]
#[tactic(auto, using(crate::proofs::Steps::one_more))]
pub fn settle(
    alloc: Global,
    definitions: &[Definition],
    steps: usize,
    marks: Items<Items<bool>>,
) -> Result<Option<Items<Items<bool>>>, AllocError>
    ensures { IfOk result (λ made. made ≡ spec.settled definitions.now steps marks) }
{
    if steps == 0 {
        return Ok(None);
    }
    let next = marked_next(alloc, definitions, marks.as_slice())?;
    if same_marks(next.as_slice(), marks.as_slice()) {
        return Ok(Some(marks));
    }
    settle(alloc, definitions, steps - 1, next)
}

/// Whether a size in these fields isn't constant by what is marked in the end, where the variables are these; it is so where that isn't told. It
/// fails where memory is wanting.
pub fn open_under(
    alloc: Global,
    marks: &Option<Items<Items<bool>>>,
    fields: &[Field],
    constants: &[Constant],
) -> Result<bool, AllocError>
    ensures { IfOk result (λ found. found ≡ spec.open_under marks.now fields.now constants.now) }
{
    match marks {
        None => Ok(true),
        Some(marks) => fields_open(alloc, marks.as_slice(), fields, constants),
    }
}
