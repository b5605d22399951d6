//! The widths that one side of a mapping's clause gives to the names of the other.
ghost use Rattle.std.specs.Prelude.{◌≡◌, ◌++◌, map, None, Some, OnOk, IfOk};
ghost use Rattle.std.specs.Option.{option_copied};
ghost use Rattle.sail_types.specs.Sums.{and_then};
ghost use Rattle.sail_types.specs.Named.{payload as payload_named};
ghost use Rattle.sail_types.specs.declared.types.Typ.{out-Typ};
ghost use Rattle.type_arguments.specs.Applied.{applied_typ as applied_typ_of};
ghost use Rattle.shape_rules.specs.Around.{setting_of};
ghost use Rattle.shape_rules.specs.Calls.{parameters_of as parameters_of_typ};
ghost use Rattle.shape_rules.specs.Sides.{gives as gives_of, name_gives, construct_gives, doing_gives, one_gives, each_gives, each_of, given_if};
ghost use Rattle.shape_rules.specs.Sides.{other_side, shape_of_if, payload_form, payload_at, typs_if, tuple_typs as tuple_typs_of, item_typ as item_typ_of, group_gives};
ghost use Rattle.shape_rules.specs.Patterns.{which_side as which_side_of, width_of as width_of_typ};
ghost use Rattle.shape_rules.specs.Written.{typ_in as typ_of_text};
ghost use Rattle.shape_widths.specs.Known.{given_of, which};
ghost use Rattle.shape_widths.specs.Parts.{further_gives};

use crate::mappings::{Matched, which_side};
use crate::widths::Given;
use sail_base::{Items, Text};
use sail_syntax::{Brackets, Joined, Name, Pat, TyExp};
use sail_types::{Index, Shape, Typ, Types, copy_num, shape_of};
use shape_rules::{Around, Callee, Doing, Mapping, Meant};
use std::alloc::{AllocError, Global};
use type_arguments::{applied_typ, copy_typ, copy_types};
use written_types::typ_in;

/// Puts the widths that a side gives to its names behind others, in the order of the text, where the side has that type, or where none is
/// known. A bare part of a concatenation gives none. The one error is want of memory.
#[cycle(give)]
pub fn gives(
    alloc: Global,
    pattern: &Pat,
    around: &Around<'_>,
    typ: Option<&Typ>,
    list: &mut Items<Given>,
) -> Result<(), AllocError>
    ensures { OnOk result (map given_of list.new ≡ map given_of list.old ++ gives_of pattern.now (setting_of around.now) (option_copied typ.entry)) }
{
    match pattern {
        Pat::Bind(name) => give_name(alloc, name, around, typ, list),
        Pat::Construct(name, parts) => give_construct(
            alloc,
            name,
            parts.as_slice(),
            around,
            typ,
            list,
        ),
        Pat::Group(_, brackets, parts) => give_group(
            alloc,
            *brackets,
            parts.as_slice(),
            around,
            typ,
            list,
        ),
        Pat::Concat {
            first,
            second,
            more,
            ..
        } => {
            gives(alloc, first.get(), around, None, list)?;
            gives(alloc, second.get(), around, None, list)?;
            give_further(alloc, more.as_slice(), around, list)
        }
        Pat::Cons(_, head, tail) => {
            gives(alloc, head.get(), around, item_typ(typ), list)?;
            gives(alloc, tail.get(), around, typ, list)
        }
        Pat::As(_, part, _) => gives(alloc, part.get(), around, typ, list),
        Pat::Typed(_, part, typ) => give_typed(alloc, part.get(), typ, around, list),
        _ => Ok(()),
    }
}

/// The width of a bare identifier that binds. The one error is want of memory.
fn give_name(
    alloc: Global,
    name: &Name,
    around: &Around<'_>,
    typ: Option<&Typ>,
    list: &mut Items<Given>,
) -> Result<(), AllocError>
    ensures { OnOk result (map given_of list.new ≡ map given_of list.old ++ name_gives name.now ((setting_of around.now).value name.now.text) (option_copied typ.entry)) }
{
    match around.value(name.text.as_str()) {
        Some(Meant::Member(_, _)) => Ok(()),
        _ => give_width(alloc, &name.text, typ, list),
    }
}

/// The width of a name of this type. The one error is want of memory.
fn give_width(
    alloc: Global,
    name: &Text,
    typ: Option<&Typ>,
    list: &mut Items<Given>,
) -> Result<(), AllocError>
    ensures { OnOk result (map given_of list.new ≡ map given_of list.old ++ given_if name.now (and_then (option_copied typ.entry) width_of_typ)) }
{
    match typ {
        Some(Typ::Bits(width)) => {
            let width = copy_num(alloc, width)?;
            list.push(Given {
                name: name.clone()?,
                width,
            })
        }
        _ => Ok(()),
    }
}

/// A pattern of a type that is written. The one error is want of memory.
#[cycle(give)]
fn give_typed(
    alloc: Global,
    part: &Pat,
    typ: &TyExp,
    around: &Around<'_>,
    list: &mut Items<Given>,
) -> Result<(), AllocError>
    ensures { OnOk result (map given_of list.new ≡ map given_of list.old ++ gives_of part.now (setting_of around.now) (typ_of_text (setting_of around.now).within typ.now)) }
{
    let typ = typ_in(alloc, typ, &around.scope)?;
    gives(alloc, part, around, typ.as_ref(), list)
}

/// `id(p, q)`. The one error is want of memory.
#[cycle(give)]
fn give_construct(
    alloc: Global,
    name: &Name,
    parts: &[Pat],
    around: &Around<'_>,
    typ: Option<&Typ>,
    list: &mut Items<Given>,
) -> Result<(), AllocError>
    ensures { OnOk result (map given_of list.new ≡ map given_of list.old
        ++ construct_gives ((setting_of around.now).value name.now.text) (map gives_of parts.now) (setting_of around.now) (option_copied typ.entry)) }
{
    match around.value(name.text.as_str()) {
        Some(Meant::Callee(callee)) => give_callee(alloc, callee.doing, parts, around, typ, list),
        Some(Meant::Mapping(mapping)) => give_mapping(alloc, mapping, parts, around, typ, list),
        _ => Ok(()),
    }
}

/// A constructor, or a direction of a mapping. The one error is want of memory.
#[cycle(give)]
fn give_callee(
    alloc: Global,
    doing: Doing,
    parts: &[Pat],
    around: &Around<'_>,
    typ: Option<&Typ>,
    list: &mut Items<Given>,
) -> Result<(), AllocError>
    ensures { OnOk result (map given_of list.new ≡ map given_of list.old
        ++ doing_gives doing (map gives_of parts.now) (setting_of around.now) (option_copied typ.entry)) }
{
    match doing {
        Doing::Calls(Callee::Constructor(_, constructor)) => {
            let types = payload_types(alloc, around, constructor, typ)?;
            give_each(alloc, parts, around, types.as_slice(), list)
        }
        Doing::Calls(Callee::Converts(direction)) => {
            give_one(alloc, parts, around, around.given_by(direction), list)
        }
        _ => Ok(()),
    }
}

/// A mapping, in the direction from the side of that type. The one error is want of memory.
#[cycle(give)]
fn give_mapping(
    alloc: Global,
    mapping: &Mapping,
    parts: &[Pat],
    around: &Around<'_>,
    typ: Option<&Typ>,
    list: &mut Items<Given>,
) -> Result<(), AllocError>
    ensures { OnOk result (map given_of list.new ≡ map given_of list.old
        ++ one_gives (map gives_of parts.now) (setting_of around.now) (other_side mapping.now (which_side_of mapping.now (shape_of_if (option_copied typ.entry))))) }
{
    let shape = known_shape(alloc, typ)?;
    let side = which_side(alloc, mapping, &shape)?;
    give_one(alloc, parts, around, given_side(mapping, side), list)
}

/// The shape of a type. Where none is known, a part of a concatenation stands, which is bits. It fails where memory is wanting.
fn known_shape(alloc: Global, typ: Option<&Typ>) -> Result<Shape, AllocError>
    ensures { IfOk result (λ shape. shape ≡ shape_of_if (option_copied typ.entry)) }
{
    match typ {
        Some(typ) => shape_of(alloc, typ),
        None => Ok(Shape::Bits),
    }
}

/// The type of the other side of a mapping of which this side is matched.
fn given_side(mapping: &Mapping, side: Matched) -> Option<&Typ>
    ensures { option_copied result ≡ other_side mapping.now (which side) }
{
    match side {
        Matched::Forwards => Some(&mapping.right),
        Matched::Backwards => Some(&mapping.left),
        _ => None,
    }
}

/// The types of a constructor's parts at the union's arguments; none where they aren't known. It fails where memory is wanting.
fn payload_types(
    alloc: Global,
    around: &Around<'_>,
    constructor: u32,
    typ: Option<&Typ>,
) -> Result<Items<Typ>, AllocError>
    ensures { IfOk result (λ made. made ≡ typs_if (payload_at (setting_of around.now) constructor (option_copied typ.entry))) }
{
    match payload_of(alloc, around, constructor, typ)? {
        Some(payload) => parameters_of(alloc, &payload),
        None => Ok(Items::new(alloc)),
    }
}

/// The payload of a constructor at the union's arguments; none where it isn't known. It fails where memory is wanting.
fn payload_of(
    alloc: Global,
    around: &Around<'_>,
    constructor: u32,
    typ: Option<&Typ>,
) -> Result<Option<Typ>, AllocError>
    ensures { IfOk result (λ made. made ≡ payload_at (setting_of around.now) constructor (option_copied typ.entry)) }
{
    match typ {
        Some(typ) => payload_in(alloc, around, constructor, typ),
        None => Ok(None),
    }
}

/// The payload of a constructor of this type. It fails where memory is wanting.
fn payload_in(
    alloc: Global,
    around: &Around<'_>,
    constructor: u32,
    typ: &Typ,
) -> Result<Option<Typ>, AllocError>
    ensures { IfOk result (λ made. made ≡ payload_form (setting_of around.now) constructor (out-Typ typ.now)) }
{
    match typ {
        Typ::Named(place, indices, types) => {
            let payload = payload(around.types, *place, constructor);
            applied_if(alloc, payload, indices.as_slice(), types.as_slice())
        }
        _ => Ok(None),
    }
}

/// The payload of a constructor, by the union's place in the table and its own in the union; none where there is no such one.
fn payload(types: &Types, place: u32, constructor: u32) -> Option<&Typ>
    ensures { option_copied result ≡ payload_named types.now place constructor }
{
    match types.constructors(place).get(constructor as usize) {
        Some(field) => Some(&field.typ),
        None => None,
    }
}

/// A type at arguments, where there is one. It fails where memory is wanting.
fn applied_if(
    alloc: Global,
    typ: Option<&Typ>,
    indices: &[Index],
    types: &[Typ],
) -> Result<Option<Typ>, AllocError>
    ensures { IfOk result (λ made. made ≡ and_then (option_copied typ.entry) (applied_typ_of indices.now types.now)) }
{
    match typ {
        Some(typ) => applied_typ(alloc, indices, types, typ),
        None => Ok(None),
    }
}

/// The types of the parameters of what takes this. It fails where memory is wanting.
fn parameters_of(alloc: Global, typ: &Typ) -> Result<Items<Typ>, AllocError>
    ensures { IfOk result (λ made. made ≡ parameters_of_typ typ.now) }
{
    match typ {
        Typ::Tuple(parts) => copy_types(alloc, parts.as_slice()),
        _ => {
            let mut types = Items::new(alloc);
            types.push(copy_typ(alloc, typ)?)?;
            Ok(types)
        }
    }
}

/// Patterns in brackets. The one error is want of memory.
#[cycle(give)]
fn give_group(
    alloc: Global,
    brackets: Brackets,
    parts: &[Pat],
    around: &Around<'_>,
    typ: Option<&Typ>,
    list: &mut Items<Given>,
) -> Result<(), AllocError>
    ensures { OnOk result (map given_of list.new ≡ map given_of list.old
        ++ group_gives brackets (map gives_of parts.now) (setting_of around.now) (option_copied typ.entry)) }
{
    match brackets {
        Brackets::Tuple => give_each(alloc, parts, around, tuple_types(typ), list),
        _ => give_same(alloc, parts, around, item_typ(typ), list),
    }
}

/// The types of a tuple's parts; none of another type.
fn tuple_types(typ: Option<&Typ>) -> &[Typ]
    ensures { result.now ≡ tuple_typs_of (option_copied typ.entry) }
{
    match typ {
        Some(Typ::Tuple(parts)) => parts.as_slice(),
        _ => &[],
    }
}

/// The type of a vector's or list's items; none of another type.
fn item_typ(typ: Option<&Typ>) -> Option<&Typ>
    ensures { option_copied result ≡ item_typ_of (option_copied typ.entry) }
{
    match typ {
        Some(Typ::Vector(_, item)) => Some(item.get()),
        Some(Typ::List(item)) => Some(item.get()),
        _ => None,
    }
}

/// What is one value: a pattern, or a tuple of several. The one error is want of memory.
#[cycle(give)]
fn give_one(
    alloc: Global,
    parts: &[Pat],
    around: &Around<'_>,
    typ: Option<&Typ>,
    list: &mut Items<Given>,
) -> Result<(), AllocError>
    ensures { OnOk result (map given_of list.new ≡ map given_of list.old
        ++ one_gives (map gives_of parts.now) (setting_of around.now) (option_copied typ.entry)) }
{
    match parts {
        [] => Ok(()),
        [part] => gives(alloc, part, around, typ, list),
        _ => give_each(alloc, parts, around, tuple_types(typ), list),
    }
}

/// Several patterns, each of its type; of none, where there are no more types. The one error is want of memory.
#[cycle(give)]
fn give_each(
    alloc: Global,
    parts: &[Pat],
    around: &Around<'_>,
    types: &[Typ],
    list: &mut Items<Given>,
) -> Result<(), AllocError>
    ensures { OnOk result (map given_of list.new ≡ map given_of list.old ++ each_gives (map gives_of parts.now) (setting_of around.now) types.now) }
{
    for (index, part) in parts.iter().enumerate() {
        gives(alloc, part, around, types.get(index), list)?;
    }
    Ok(())
}

/// Several patterns of one type. The one error is want of memory.
#[cycle(give)]
fn give_same(
    alloc: Global,
    parts: &[Pat],
    around: &Around<'_>,
    typ: Option<&Typ>,
    list: &mut Items<Given>,
) -> Result<(), AllocError>
    ensures { OnOk result (map given_of list.new ≡ map given_of list.old ++ each_of (map gives_of parts.now) (setting_of around.now) (option_copied typ.entry)) }
{
    for part in parts {
        gives(alloc, part, around, typ, list)?;
    }
    Ok(())
}

/// Further parts of a concatenation. The one error is want of memory.
#[cycle(give)]
fn give_further(
    alloc: Global,
    more: &[Joined],
    around: &Around<'_>,
    list: &mut Items<Given>,
) -> Result<(), AllocError>
    ensures { OnOk result (map given_of list.new ≡ map given_of list.old ++ each_of (map further_gives more.now) (setting_of around.now) None) }
{
    for next in more {
        gives(alloc, &next.part, around, None, list)?;
    }
    Ok(())
}
