ghost use Rattle.std.specs.Prelude.{◌≡◌, [], ◌∷◌, ◌++◌, map, OnOk};
ghost use Rattle.std.specs.Option.{option_to_list};
ghost use Rattle.sail_kinds.specs.Failures.{first_failure};
ghost use Rattle.sail_kinds.specs.declared.error.TableError.TheVariants as error;
ghost use Rattle.sail_names.specs.Known.{setting_of};
ghost use Rattle.sail_names.specs.Patterns.{unless, clash_if, clashes, type_failures};
ghost use Rattle.sail_names.specs.parts.Scopes.{pointed};

use crate::around::Around;
use crate::locals::Locals;
use sail_base::{Items, Kind, Place, Text};
use sail_kinds::{First, TableError, read_as};
use sail_syntax::{Name, TyExp};
use std::alloc::{AllocError, Global};

/// Notes all failures of a list, in order.
#[tactic(auto, using(crate::proofs::Firsts::first_failure_behind))]
pub fn note_all(failures: Items<TableError>, first: &mut First)
    ensures { first.new.error ≡ first_failure first.old.error failures }
{
    for failure in failures.into_vec() {
        first.note(failure);
    }
}

/// Adds that a name means nothing where it stands, unless it is used well. The one error is want of memory.
pub fn push_unless(
    is_used_well: bool,
    name: &Name,
    failures: &mut Items<TableError>,
) -> Result<(), AllocError>
    ensures { OnOk result (failures.new ≡ failures.old ++ unless is_used_well name.now) }
{
    if is_used_well {
        return Ok(());
    }
    let place = name.place;
    let name = name.text.clone()?;
    failures.push(TableError::NoName { place, name })
}

/// Adds that this name means nothing there.
pub(crate) fn push_no_name(
    alloc: Global,
    place: Place,
    name: &str,
    failures: &mut Items<TableError>,
) -> Result<(), AllocError>
    ensures { OnOk result (failures.new ≡ failures.old ++ error.NoName place name.now ∷ []) }
{
    let name = Text::new(alloc, name)?;
    failures.push(TableError::NoName { place, name })
}

/// Adds that a loop has no measure.
pub(crate) fn push_no_measure(
    alloc: Global,
    place: Place,
    word: &str,
    failures: &mut Items<TableError>,
) -> Result<(), AllocError>
    ensures { OnOk result (failures.new ≡ failures.old ++ error.MeasureMissing place word.now ∷ []) }
{
    let name = Text::new(alloc, word)?;
    failures.push(TableError::MeasureMissing { place, name })
}

/// Adds the first failure of a type where this kind is wanted. The one error is want of memory.
#[tactic(auto, unfolding(crate::specs::Patterns::type_failures))]
pub fn push_type(
    alloc: Global,
    typ: &TyExp,
    around: Around,
    wanted: Kind,
    failures: &mut Items<TableError>,
) -> Result<(), AllocError>
    ensures { OnOk result (failures.new ≡ failures.old ++ type_failures wanted typ.now (setting_of around.entry)) }
{
    let mut first = First::none();
    let _meaning = read_as(alloc, typ, wanted, &around.scope, &mut first)?;
    push_maybe(first.error.take(), failures)
}

fn push_maybe(
    failure: Option<TableError>,
    failures: &mut Items<TableError>,
) -> Result<(), AllocError>
    ensures { OnOk result (failures.new ≡ failures.old ++ option_to_list failure) }
{
    match failure {
        Some(failure) => failures.push(failure),
        None => Ok(()),
    }
}

/// Adds that a name clashes, if it does.
fn push_clash(
    is_clash: bool,
    name: &Name,
    failures: &mut Items<TableError>,
) -> Result<(), AllocError>
    ensures { OnOk result (failures.new ≡ failures.old ++ clash_if is_clash name.now) }
{
    if !is_clash {
        return Ok(());
    }
    let place = name.place;
    let name = name.text.clone()?;
    failures.push(TableError::Clash { place, name })
}

/// Adds each of these names that stands among them before. The one error is want of memory.
pub fn push_clashes(
    alloc: Global,
    names: &[&Name],
    failures: &mut Items<TableError>,
) -> Result<(), AllocError>
    ensures { OnOk result (failures.new ≡ failures.old ++ clashes (map pointed names.now)) }
{
    let mut before = Locals::new(alloc);
    for name in names {
        push_clash(
            before.binding_of(name.text.as_str()).is_some(),
            name,
            failures,
        )?;
        before.bind(name)?;
    }
    Ok(())
}
