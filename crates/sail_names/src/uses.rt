ghost use Rattle.std.specs.Prelude.{◌≡◌, ◌++◌, ◌∷◌, [], map, OnOk, IfOk};
ghost use Rattle.sail_kinds.specs.declared.error.TableError.TheVariants as error;
ghost use Rattle.sail_names.specs.Known.{setting_of};
ghost use Rattle.sail_names.specs.Patterns.{type_failures, clashes};
ghost use Rattle.sail_names.specs.Uses as spec;
ghost use Rattle.sail_names.specs.parts.Scopes.{pointed};

use crate::around::Around;
use crate::failures::{push_clashes, push_no_measure, push_no_name, push_type, push_unless};
use sail_base::{Items, Kind, Place};
use sail_kinds::TableError;
use sail_syntax::{Asking, FieldValue, Leaving, Looping, Name, TyExp};
use std::alloc::{AllocError, Global};

/// Adds the failures of an annotation, if there is one. The one error is want of memory.
pub fn push_annotation(
    alloc: Global,
    typ: &Option<TyExp>,
    around: Around,
    failures: &mut Items<TableError>,
) -> Result<(), AllocError>
    ensures { OnOk result (failures.new ≡ failures.old ++ spec.maybe_type typ.now (setting_of around.entry)) }
{
    match typ {
        Some(typ) => push_type(alloc, typ, around, Kind::Type, failures),
        None => Ok(()),
    }
}

/// Adds the failures of what a `sizeof` or a `constraint` asks of. The one error is want of memory.
pub fn push_asked(
    alloc: Global,
    typ: &TyExp,
    around: Around,
    asking: Asking,
    failures: &mut Items<TableError>,
) -> Result<(), AllocError>
    ensures { OnOk result (failures.new ≡ failures.old ++ type_failures (spec.asked_kind asking) typ.now (setting_of around.entry)) }
{
    match asking {
        Asking::Sizeof => push_type(alloc, typ, around, Kind::Int, failures),
        Asking::Constraint => push_type(alloc, typ, around, Kind::Bool, failures),
    }
}

/// Adds that a `throw` has no union `exception`, where there is none. The one error is want of memory.
pub fn push_leaving(
    alloc: Global,
    place: Place,
    leaving: Leaving,
    around: Around,
    failures: &mut Items<TableError>,
) -> Result<(), AllocError>
    ensures { OnOk result (failures.new ≡ failures.old ++ spec.leave_failures (setting_of around.entry) place leaving) }
{
    match leaving {
        Leaving::Throw => push_throw(alloc, place, around.names.has_exception, failures),
        _ => Ok(()),
    }
}

fn push_throw(
    alloc: Global,
    place: Place,
    has_exception: bool,
    failures: &mut Items<TableError>,
) -> Result<(), AllocError>
    ensures { OnOk result (failures.new ≡ failures.old ++ spec.throw_failures has_exception place) }
{
    if has_exception {
        return Ok(());
    }
    push_no_name(alloc, place, "exception", failures)
}

/// Adds that no struct has a field, unless one has it. The one error is want of memory.
pub fn push_field(
    name: &Name,
    around: Around,
    failures: &mut Items<TableError>,
) -> Result<(), AllocError>
    ensures { OnOk result (failures.new ≡ failures.old ++ spec.field_failures (setting_of around.entry) name.now) }
{
    push_unless(around.names.is_field(name.text.as_str()), name, failures)
}

/// Adds that the name of a struct literal is no struct's, unless it is. The one error is want of memory.
pub fn push_struct(
    name: &Option<Name>,
    around: Around,
    failures: &mut Items<TableError>,
) -> Result<(), AllocError>
    ensures { OnOk result (failures.new ≡ failures.old ++ spec.struct_failures (setting_of around.entry) name.now) }
{
    match name {
        Some(name) => push_unless(around.names.is_struct(name.text.as_str()), name, failures),
        None => Ok(()),
    }
}

/// Adds each of these fields whose name stands among them before. The one error is want of memory.
pub fn push_field_clashes(
    alloc: Global,
    fields: &[FieldValue],
    failures: &mut Items<TableError>,
) -> Result<(), AllocError>
    ensures { OnOk result (failures.new ≡ failures.old ++ clashes (spec.named (map spec.field_of fields.now))) }
{
    let names = field_names(alloc, fields)?;
    push_clashes(alloc, names.as_slice(), failures)
}

/// The names of fields.
fn field_names<'a>(alloc: Global, fields: &'a [FieldValue]) -> Result<Vec<&'a Name>, AllocError>
    ensures { IfOk result (λ names. map pointed names.items ≡ spec.named (map spec.field_of fields.now)) }
{
    let mut names = Vec::new(alloc);
    for field in fields {
        names.push(&field.name)?;
    }
    Ok(names)
}

/// Adds that a loop has no measure. The one error is want of memory.
pub fn push_missing_measure(
    alloc: Global,
    place: Place,
    looping: Looping,
    failures: &mut Items<TableError>,
) -> Result<(), AllocError>
    ensures { OnOk result (failures.new ≡ failures.old ++ error.MeasureMissing place (spec.loop_word looping) ∷ []) }
{
    match looping {
        Looping::While => push_no_measure(alloc, place, "while", failures),
        Looping::Repeat => push_no_measure(alloc, place, "repeat", failures),
    }
}
