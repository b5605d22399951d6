ghost use Rattle.std.specs.Prelude.{◌≡◌, ℕ, List, [], ◌∷◌, ◌++◌, map, codes, if◌then◌else◌, IsAscii, IfOk, OnOk};
ghost use Rattle.sail_globals.specs.Bound.{bound, is_plain as is_plain_pattern};
ghost use Rattle.sail_globals.specs.Namings.{type_naming, measure_naming, value_naming, own_naming, constructor_naming};
ghost use Rattle.sail_globals.specs.Namings.{let_naming, mapping_namings, val_namings, body_namings, namings, all_namings};
ghost use Rattle.sail_globals.specs.Held.{has_member};

use crate::bound::{is_plain, push_bound};
use crate::members::{Members, find_members};
use crate::naming::{Alone, Called, Naming, Role, Space};
use sail_base::{Items, Place, Text};
use sail_syntax::{Arrow, Def, Member, Name, Overloaded, Pat};
use std::alloc::{AllocError, Global};

/// The names that the definitions of a text take, in text order. The one error is want of memory.
pub fn find_namings(alloc: Global, definitions: &[Def]) -> Result<Items<Naming>, AllocError>
    ensures { IfOk result (λ list. list ≡ all_namings definitions.now) }
{
    let members = find_members(alloc, definitions)?;
    let mut list = Items::new(alloc);
    for (index, definition) in definitions.iter().enumerate() {
        push_namings(alloc, &members, index, definition, &mut list)?;
    }
    Ok(list)
}

/// Puts the names that a definition of this position takes behind others.
fn push_namings(
    alloc: Global,
    members: &Members,
    at: usize,
    definition: &Def,
    list: &mut Items<Naming>,
) -> Result<(), AllocError>
    ensures { OnOk result (list.new ≡ list.old ++ namings (has_member members.now) at definition.now) }
{
    match definition {
        Def::Alias { place, name, .. } => push_type(list, at, *place, name),
        Def::Struct { place, name, .. } => push_type(list, at, *place, name),
        Def::Enum(place, name, names) => {
            push_type(list, at, *place, name)?;
            push_members(list, at, names.as_slice())
        }
        Def::Union {
            place,
            name,
            constructors,
            ..
        } => {
            push_type(list, at, *place, name)?;
            push_constructors(list, at, constructors.as_slice())
        }
        Def::Val {
            place,
            name,
            arrow,
            ..
        } => push_val(alloc, list, at, *place, name, *arrow),
        Def::Function { place, name, .. } => push_value(
            list,
            at,
            Role::Defined(Called::Function),
            *place,
            name.text.clone()?,
        ),
        Def::Measure { place, name, .. } => push_measure(list, at, *place, name),
        Def::Mapping {
            place,
            name,
            sides,
            ..
        } => push_mapping_body(alloc, list, at, *place, name, sides.is_some()),
        Def::Let(place, pattern, _) => push_let(alloc, members, list, at, *place, pattern),
        Def::Register { place, name, .. } => push_value(
            list,
            at,
            Role::Whole(Alone::Register),
            *place,
            name.text.clone()?,
        ),
        Def::Overload(place, Overloaded::Named(name), _) => push_value(
            list,
            at,
            Role::Overloaded,
            *place,
            name.text.clone()?,
        ),
        _ => Ok(()),
    }
}

fn push_type(
    list: &mut Items<Naming>,
    at: usize,
    place: Place,
    name: &Name,
) -> Result<(), AllocError>
    ensures { OnOk result (list.new ≡ list.old ++ type_naming at place name.now.text ∷ []) }
{
    let name = name.text.clone()?;
    list.push(Naming {
        space: Space::Types,
        name,
        place,
        role: Role::Whole(Alone::Type),
        definition: at,
    })
}

fn push_measure(
    list: &mut Items<Naming>,
    at: usize,
    place: Place,
    name: &Name,
) -> Result<(), AllocError>
    ensures { OnOk result (list.new ≡ list.old ++ measure_naming at place name.now.text ∷ []) }
{
    let name = name.text.clone()?;
    list.push(Naming {
        space: Space::Measures,
        name,
        place,
        role: Role::Whole(Alone::Measure),
        definition: at,
    })
}

fn push_value(
    list: &mut Items<Naming>,
    at: usize,
    role: Role,
    place: Place,
    name: Text,
) -> Result<(), AllocError>
    ensures { OnOk result (list.new ≡ list.old ++ value_naming at role place name ∷ []) }
{
    list.push(Naming {
        space: Space::Values,
        name,
        place,
        role,
        definition: at,
    })
}

fn push_own(list: &mut Items<Naming>, at: usize, what: Alone, name: &Name) -> Result<(), AllocError>
    ensures { OnOk result (list.new ≡ list.old ++ own_naming at what name.now ∷ []) }
{
    push_value(list, at, Role::Whole(what), name.place, name.text.clone()?)
}

fn push_members(list: &mut Items<Naming>, at: usize, names: &[Name]) -> Result<(), AllocError>
    ensures { OnOk result (list.new ≡ list.old ++ map (own_naming at Alone.Member) names.now) }
{
    for name in names {
        push_own(list, at, Alone::Member, name)?;
    }
    Ok(())
}

fn push_constructors(
    list: &mut Items<Naming>,
    at: usize,
    constructors: &[Member],
) -> Result<(), AllocError>
    ensures { OnOk result (list.new ≡ list.old ++ map (constructor_naming at) constructors.now) }
{
    for constructor in constructors {
        push_own(list, at, Alone::Constructor, &constructor.name)?;
    }
    Ok(())
}

fn push_val(
    alloc: Global,
    list: &mut Items<Naming>,
    at: usize,
    place: Place,
    name: &Name,
    arrow: Arrow,
) -> Result<(), AllocError>
    ensures { OnOk result (list.new ≡ list.old ++ val_namings at place name.now.text arrow) }
{
    match arrow {
        Arrow::Function => push_value(
            list,
            at,
            Role::Declared(Called::Function),
            place,
            name.text.clone()?,
        ),
        Arrow::Mapping => push_mapping(
            alloc,
            list,
            at,
            Role::Declared(Called::Mapping),
            Role::Declared(Called::Direction),
            place,
            name,
        ),
    }
}

fn push_mapping_body(
    alloc: Global,
    list: &mut Items<Naming>,
    at: usize,
    place: Place,
    name: &Name,
    has_types: bool,
) -> Result<(), AllocError>
    ensures { OnOk result (list.new ≡ list.old ++ body_namings at place name.now.text has_types) }
{
    if has_types {
        push_mapping(
            alloc,
            list,
            at,
            Role::Whole(Alone::Mapping),
            Role::Whole(Alone::Direction),
            place,
            name,
        )
    } else {
        push_mapping(
            alloc,
            list,
            at,
            Role::Defined(Called::Mapping),
            Role::Defined(Called::Direction),
            place,
            name,
        )
    }
}

/// Puts the names of a mapping and of its two directions.
fn push_mapping(
    alloc: Global,
    list: &mut Items<Naming>,
    at: usize,
    role: Role,
    direction: Role,
    place: Place,
    name: &Name,
) -> Result<(), AllocError>
    ensures { OnOk result (list.new ≡ list.old ++ mapping_namings at role direction place name.now.text) }
{
    push_value(list, at, role, place, name.text.clone()?)?;
    let forwards = extended(alloc, &name.text, "_forwards")?;
    push_value(list, at, direction, place, forwards)?;
    let backwards = extended(alloc, &name.text, "_backwards")?;
    push_value(list, at, direction, place, backwards)
}

/// A name with more behind it.
pub fn extended(alloc: Global, name: &Text, more: &str) -> Result<Text, AllocError>
    ensures { IfOk result (λ made. made ≡ name.now ++ more.now) }
{
    let mut text = String::from_str(alloc, name.as_str())?;
    text.push_str(more)?;
    Text::new(alloc, text.as_str())
}

fn push_let(
    alloc: Global,
    members: &Members,
    list: &mut Items<Naming>,
    at: usize,
    place: Place,
    pattern: &Pat,
) -> Result<(), AllocError>
    ensures { OnOk result (list.new ≡ list.old ++ map (let_naming at place (is_plain_pattern pattern.now)) (bound (has_member members.now) pattern.now)) }
{
    let mut names = Items::new(alloc);
    push_bound(members, pattern, &mut names)?;
    push_let_names(list, at, place, is_plain(pattern), names.as_slice())
}

fn push_let_names(
    list: &mut Items<Naming>,
    at: usize,
    place: Place,
    plain: bool,
    names: &[Name],
) -> Result<(), AllocError>
    ensures { OnOk result (list.new ≡ list.old ++ map (let_naming at place plain) names.now) }
{
    for name in names {
        let place = if plain { place } else { name.place };
        push_value(list, at, Role::Whole(Alone::Let), place, name.text.clone()?)?;
    }
    Ok(())
}
