ghost use Rattle.std.specs.Prelude.{◌≡◌, ◌++◌, IfOk, OnOk};
ghost use Rattle.sail_kinds.specs.Failures.{first_failure};
ghost use Rattle.sail_kinds.specs.Repeated.{clashes};
ghost use Rattle.sail_kinds.specs.Scopes.{within};
ghost use Rattle.type_definitions.specs.Defined.{member_names, members_failures, fields_of, field_if, typ_if, member_read, list_of};

use sail_base::{Items, Kind};
use sail_kinds::{First, Scope, note_repeated, read_as};
use sail_syntax::{Member, Name};
use sail_types::{Field, Typ};
use std::alloc::{AllocError, Global};
use type_arguments::Normal;

/// The fields or constructors of a definition with their types, but for those whose types stand for nothing,
/// and notes the failures of the types. The one error is want of memory.
pub fn read_members(
    alloc: Global,
    members: &[Member],
    scope: &Scope<'_>,
    first: &mut First,
) -> Result<Items<Field>, AllocError>
    ensures failures { OnOk result (first.new.error ≡ first_failure first.old.error (members_failures (within scope.now) members.now)) }
    ensures fields { IfOk result (λ fields. fields ≡ fields_of (within scope.now) members.now) }
{
    let mut fields = Items::new(alloc);
    for member in members {
        read_member(alloc, member, scope, first, &mut fields)?;
    }
    Ok(fields)
}

fn read_member(
    alloc: Global,
    member: &Member,
    scope: &Scope<'_>,
    first: &mut First,
    fields: &mut Items<Field>,
) -> Result<(), AllocError>
    ensures failures { OnOk result (first.new.error ≡ first_failure first.old.error (member_read (within scope.now) member.now).failures) }
    ensures fields { OnOk result (fields.new ≡ fields.old ++ list_of (field_if member.now (typ_if (member_read (within scope.now) member.now).normal))) }
{
    let name = member.name.text.clone()?;
    match typ_in(read_as(alloc, &member.typ, Kind::Type, scope, first)?) {
        Some(typ) => fields.push(Field { name, typ }),
        None => Ok(()),
    }
}

/// The type that a text stands for.
fn typ_in(normal: Option<Normal>) -> Option<Typ>
    ensures { result ≡ typ_if normal }
{
    match normal {
        None => None,
        Some(normal) => normal.into_typ(),
    }
}

/// Notes the fields that a struct has a second time. The one error is want of memory.
pub(crate) fn note_members(
    alloc: Global,
    members: &[Member],
    first: &mut First,
) -> Result<(), AllocError>
    ensures { OnOk result (first.new.error ≡ first_failure first.old.error (clashes (member_names members.now))) }
{
    let names = names_of(alloc, members)?;
    note_repeated(alloc, names.as_slice(), first)?;
    Ok(())
}

fn names_of(alloc: Global, members: &[Member]) -> Result<Items<Name>, AllocError>
    ensures { IfOk result (λ names. names ≡ member_names members.now) }
{
    let mut names = Items::new(alloc);
    for member in members {
        names.push(member.name.clone()?)?;
    }
    Ok(names)
}
