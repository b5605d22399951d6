ghost use Rattle.std.specs.Prelude.{◌≡◌, suc, ◌*◌, ◌^◌, ◌<◌, [], ◌∷◌, ◌++◌, IfOk, OnOk};
ghost use Rattle.sail_kinds.specs.Scopes.{within};
ghost use Rattle.shape_rules.specs.Written.{shape_in};
ghost use Rattle.shape_rules.specs.declared.callees.Meant.TheVariants as M;
ghost use Rattle.shape_models.specs.Models.{entry, constructors_from, members_from, function_entry, direction_entry, mapping_of, mapping_entries};
ghost use Rattle.shape_models.specs.Models.{enum_entries, union_entries, def_entries, counts_with, entries as entries_of, no_counts};
ghost use Rattle.shape_models.specs.Models.{within_variables, params_variables, directions_entries, type_variables as type_variables_in};
ghost use Rattle.shape_models.specs.Sources.{tabled_by, IsSound};

use crate::candidates::{
    constructor_candidate, direction_candidate, function_candidate, small, type_variables,
};
use crate::source::{Source, scope_under};
use sail_base::{Items, Text};
use sail_kinds::{Binders, First, Scope};
use sail_signatures::{Signature, read_typ};
use sail_syntax::{Def, Param, TyExp};
use sail_types::{Field, Shape, Typ, shape_of};
use shape_rules::{Mapping, Meant};
use std::alloc::{AllocError, Global};
use std::mem;
use type_definitions::variables_of;

/// A name of a value, with what a definition makes it mean.
#[derive(Drop)]
pub struct Entry {
    /// The name.
    pub name: Text,
    /// What it means.
    pub meant: Meant,
}

/// How many functions, mappings and registers stand before a definition.
#[derive(Clone, Copy)]
pub struct Counts {
    /// The functions.
    pub functions: u32,
    /// The mappings.
    pub mappings: u32,
    /// The registers.
    pub registers: u32,
}

/// One more; so many as numbers don't reach are more than memory is taken to hold.
pub(crate) fn more(count: u32) -> Result<u32, AllocError>
    ensures { IfOk result (λ more. more ≡ suc count) }
{
    if count == u32::MAX {
        return Err(AllocError);
    }
    Ok(count + 1)
}

impl Counts {
    fn none() -> Counts
        ensures { result ≡ no_counts }
    {
        Counts {
            functions: 0,
            mappings: 0,
            registers: 0,
        }
    }

    /// How many stand before what is behind this definition.
    fn with(self, definition: &Def) -> Result<Counts, AllocError>
        ensures { IfOk result (λ counts. counts ≡ counts_with self definition.now) }
    {
        match definition {
            Def::Register { .. } => Ok(Counts {
                registers: more(self.registers)?,
                ..self
            }),
            Def::Function { .. } => Ok(Counts {
                functions: more(self.functions)?,
                ..self
            }),
            Def::Mapping { .. } => Ok(Counts {
                mappings: more(self.mappings)?,
                ..self
            }),
            _ => Ok(self),
        }
    }
}

/// A name with more behind it.
fn extended(alloc: Global, name: &Text, more: &str) -> Result<Text, AllocError>
    ensures { IfOk result (λ made. made ≡ name.now ++ more.now) }
{
    let mut text = String::from_str(alloc, name.as_str())?;
    text.push_str(more)?;
    Text::new(alloc, text.as_str())
}

fn push_entry(entries: &mut Items<Entry>, name: Text, meant: Meant) -> Result<(), AllocError>
    ensures { OnOk result (entries.new ≡ entries.old ++ entry name meant ∷ []) }
{
    entries.push(Entry { name, meant })
}

/// The constructors of a union with so many Type parameters.
fn push_constructors(
    alloc: Global,
    union_place: u32,
    count: usize,
    fields: &[Field],
    entries: &mut Items<Entry>,
) -> Result<(), AllocError>
    ensures { OnOk result (entries.new ≡ entries.old ++ constructors_from union_place count 0 fields.now) }
{
    for (place, field) in fields.iter().enumerate() {
        let candidate = constructor_candidate(alloc, union_place, small(place)?, count, field)?;
        push_entry(entries, field.name.clone()?, Meant::Callee(candidate))?;
    }
    Ok(())
}

/// The members of an enum.
fn push_members(
    enum_place: u32,
    members: &[Text],
    entries: &mut Items<Entry>,
) -> Result<(), AllocError>
    ensures { OnOk result (entries.new ≡ entries.old ++ members_from enum_place 0 members.now) }
{
    for (place, member) in members.iter().enumerate() {
        push_entry(
            entries,
            member.clone()?,
            Meant::Member(enum_place, small(place)?),
        )?;
    }
    Ok(())
}

fn push_enum(
    source: &Source<'_>,
    place: Option<u32>,
    entries: &mut Items<Entry>,
) -> Result<(), AllocError>
    ensures { OnOk result (entries.new ≡ entries.old ++ enum_entries (tabled_by source.now) place) }
{
    match place {
        None => Ok(()),
        Some(place) => push_members(place, source.types.members(place), entries),
    }
}

fn push_union(
    alloc: Global,
    source: &Source<'_>,
    count: usize,
    place: Option<u32>,
    entries: &mut Items<Entry>,
) -> Result<(), AllocError>
    ensures { OnOk result (entries.new ≡ entries.old ++ union_entries (tabled_by source.now) count place) }
{
    match place {
        None => Ok(()),
        Some(place) => {
            push_constructors(
                alloc,
                place,
                count,
                source.types.constructors(place),
                entries,
            )
        }
    }
}

fn push_function(
    alloc: Global,
    name: &Text,
    number: u32,
    signature: Option<Signature>,
    entries: &mut Items<Entry>,
) -> Result<(), AllocError>
    ensures { OnOk result (entries.new ≡ entries.old ++ function_entry name.now number signature) }
{
    match signature {
        None => Ok(()),
        Some(signature) => {
            let candidate = function_candidate(alloc, name, number, &signature)?;
            push_entry(entries, name.clone()?, Meant::Callee(candidate))
        }
    }
}

/// A direction of a mapping.
fn push_direction(
    alloc: Global,
    name: Text,
    direction: u32,
    from: &Typ,
    to: &Typ,
    entries: &mut Items<Entry>,
) -> Result<(), AllocError>
    ensures { OnOk result (entries.new ≡ entries.old ++ direction_entry name direction from.now to.now ∷ []) }
{
    let candidate = direction_candidate(alloc, &name, direction, from, to)?;
    push_entry(entries, name, Meant::Callee(candidate))
}

/// The number of the first direction of a mapping.
fn forwards_number(mapping: u32) -> Result<u32, AllocError>
    ensures { IfOk result (λ number. (number ≡ 2 * mapping) × (suc number < 2 ^ 32)) }
{
    if mapping >= 0x8000_0000 {
        return Err(AllocError);
    }
    Ok(2 * mapping)
}

fn mapping_meant(name: &Text, number: u32, mut signature: Signature) -> Result<Meant, AllocError>
    ensures { IfOk result (λ meant. meant ≡ M.Mapping (mapping_of name.now number signature)) }
{
    let name = name.clone()?;
    let left = mem::replace(&mut signature.from, Typ::Unit);
    let right = mem::replace(&mut signature.to, Typ::Unit);
    Ok(Meant::Mapping(Mapping {
        number,
        name,
        left,
        right,
    }))
}

/// The two directions of a mapping.
fn push_directions(
    alloc: Global,
    name: &Text,
    number: u32,
    signature: &Signature,
    entries: &mut Items<Entry>,
) -> Result<(), AllocError>
    ensures { OnOk result (entries.new ≡ entries.old ++ directions_entries name.now number signature.now) }
{
    let forwards = forwards_number(number)?;
    let forwards_name = extended(alloc, name, "_forwards")?;
    push_direction(
        alloc,
        forwards_name,
        forwards,
        &signature.from,
        &signature.to,
        entries,
    )?;
    let backwards_name = extended(alloc, name, "_backwards")?;
    push_direction(
        alloc,
        backwards_name,
        forwards + 1,
        &signature.to,
        &signature.from,
        entries,
    )
}

/// A mapping with its two directions.
fn push_mapping(
    alloc: Global,
    name: &Text,
    number: u32,
    signature: Option<Signature>,
    entries: &mut Items<Entry>,
) -> Result<(), AllocError>
    ensures { OnOk result (entries.new ≡ entries.old ++ mapping_entries name.now number signature) }
{
    match signature {
        None => Ok(()),
        Some(signature) => {
            push_directions(alloc, name, number, &signature, entries)?;
            let meant = mapping_meant(name, number, signature)?;
            push_entry(entries, name.clone()?, meant)
        }
    }
}

/// The shape of a type that is written.
fn read_shape(alloc: Global, typ: &TyExp, scope: &Scope<'_>) -> Result<Shape, AllocError>
    ensures { IfOk result (λ made. made ≡ shape_in (within scope.now) typ.now) }
{
    let mut unused = First::none();
    match read_typ(alloc, typ, scope, &mut unused)? {
        Some(typ) => shape_of(alloc, &typ),
        None => Ok(Shape::Never),
    }
}

fn push_register(
    alloc: Global,
    source: &Source<'_>,
    name: &Text,
    number: u32,
    typ: &TyExp,
    entries: &mut Items<Entry>,
) -> Result<(), AllocError>
    requires { IsSound source.now }
    ensures { OnOk result (entries.new
        ≡ entries.old ++ entry name.now (M.Register number (shape_in (within_variables (tabled_by source.now) []) typ.now)) ∷ []) }
{
    let binders = Binders::Parameters(&[]);
    let scope = scope_under(source, &binders);
    let shape = read_shape(alloc, typ, &scope)?;
    push_entry(entries, name.clone()?, Meant::Register(number, shape))
}

/// The count of the Type parameters of a union.
fn type_parameters(alloc: Global, parameters: &[Param]) -> Result<usize, AllocError>
    ensures { IfOk result (λ count. count ≡ type_variables_in (params_variables parameters.now)) }
{
    let variables = variables_of(alloc, parameters)?;
    Ok(type_variables(variables.as_slice()))
}

/// What a definition makes names mean, where so many definitions stand before it.
fn push_definition(
    alloc: Global,
    source: &Source<'_>,
    counts: Counts,
    definition: &Def,
    entries: &mut Items<Entry>,
) -> Result<(), AllocError>
    requires { IsSound source.now }
    ensures { OnOk result (entries.new ≡ entries.old ++ def_entries (tabled_by source.now) counts definition.now) }
{
    match definition {
        Def::Register { name, typ, .. } => {
            push_register(alloc, source, &name.text, counts.registers, typ, entries)
        }
        Def::Enum(_, name, _) => {
            push_enum(source, source.place_in_table(name.text.as_str()), entries)
        }
        Def::Union {
            name,
            variables,
            ..
        } => {
            let count = type_parameters(alloc, variables.as_slice())?;
            let place = source.place_in_table(name.text.as_str());
            push_union(alloc, source, count, place, entries)
        }
        Def::Function { name, .. } => {
            let signature = source.signature(alloc, name.text.as_str())?;
            push_function(alloc, &name.text, counts.functions, signature, entries)
        }
        Def::Mapping { name, .. } => {
            let signature = source.signature(alloc, name.text.as_str())?;
            push_mapping(alloc, &name.text, counts.mappings, signature, entries)
        }
        _ => Ok(()),
    }
}

/// What the definitions of a model make names mean, in text order, behind `Some` and `None`. The one error is want of memory.
pub fn find_entries(alloc: Global, source: &Source<'_>) -> Result<Items<Entry>, AllocError>
    requires { IsSound source.now }
    ensures { IfOk result (λ found. found ≡ entries_of (tabled_by source.now) source.now.definitions.now) }
{
    let mut entries = Items::new(alloc);
    push_union(alloc, source, 1, Some(0), &mut entries)?;
    let mut counts = Counts::none();
    let definitions = source.definitions;
    for definition in definitions {
        push_definition(alloc, source, counts, definition, &mut entries)?;
        counts = counts.with(definition)?;
    }
    Ok(entries)
}
