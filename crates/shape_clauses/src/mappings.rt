//! Mappings, in both directions.
ghost use Rattle.std.specs.Prelude.{◌≡◌, [], map, ◌++◌, IfOk, OnOk};
ghost use Rattle.core_numbers.specs.Numbers.{numbered};
ghost use Rattle.shape_rules.specs.Around.{setting_of};
ghost use Rattle.shape_rules.specs.Findings.{first_failure};
ghost use Rattle.shape_rules.specs.Written.{joined};
ghost use Rattle.shape_models.specs.Models.{mapping_of, within_variables};
ghost use Rattle.shape_models.specs.Sources.{tabled_by, IsSound};
ghost use Rattle.shape_clauses.specs.Clauses.{core_of};
ghost use Rattle.shape_clauses.specs.Mappings.{both_faults, directions_faults, mapping_faults};
ghost use Rattle.shape_clauses.specs.Mappings.{direction_at, both_directions, directions_if, directions_of};

use crate::clauses::Clauses;
use crate::directions::{backwards_clauses, forwards_clauses};
use core_numbers::number_nodes;
use sail_base::{Items, Place, Text};
use sail_core::Direction;
use sail_signatures::Signature;
use sail_syntax::{Def, MappingClause};
use sail_types::Typ;
use shape_declarations::note_sides;
use shape_models::Source;
use shape_rules::{Around, First, Mapping};
use std::alloc::{AllocError, Global};
use type_arguments::copy_typ;

/// A mapping with this signature, whose number among mappings doesn't matter.
fn mapping(alloc: Global, name: &Text, signature: &Signature) -> Result<Mapping, AllocError>
    ensures { IfOk result (λ made. made ≡ mapping_of name.now 0 signature.now) }
{
    let name = name.clone()?;
    let left = copy_typ(alloc, &signature.from)?;
    let right = copy_typ(alloc, &signature.to)?;
    Ok(Mapping {
        number: 0,
        name,
        left,
        right,
    })
}

/// A direction of a mapping, from one type to another, numbered from the next number on; what comes next then stands behind it.
fn direction(
    alloc: Global,
    place: Place,
    name: &Text,
    from: &Typ,
    to: &Typ,
    clauses: Clauses,
    next: &mut u32,
) -> Result<Direction, AllocError>
    ensures made { IfOk result (λ made. made ≡ direction_at place name.now from.now to.now clauses.arms clauses.bodies next.old) }
    ensures next { OnOk result (next.new ≡ (numbered (core_of place clauses.arms clauses.bodies) next.old).next) }
{
    let name = name.clone()?;
    let parameter = copy_typ(alloc, from)?;
    let result = copy_typ(alloc, to)?;
    let body = number_nodes(alloc, clauses.into_core(place), next)?;
    Ok(Direction {
        place,
        name,
        parameter,
        result,
        body,
    })
}

/// Both directions of a mapping, behind others, and notes the failures of its clauses.
#[tactic(auto, using(shape_rules::proofs::Firsts::first_failure_append))]
fn push_directions(
    alloc: Global,
    around: &Around<'_>,
    place: Place,
    mapping: &Mapping,
    clauses: &[MappingClause],
    directions: &mut Items<Direction>,
    first: &mut First,
) -> Result<(), AllocError>
    ensures directions { OnOk result (directions.new
        ≡ directions.old ++ both_directions (setting_of around.now) place mapping.now clauses.now) }
    ensures failures { OnOk result (first.new.error ≡ first_failure first.old.error
        (both_faults (setting_of around.now) mapping.now clauses.now)) }
{
    let Mapping {
        name,
        left,
        right,
        ..
    } = mapping;
    let mut next = 0;
    let forwards = forwards_clauses(alloc, around, mapping, clauses, first)?;
    let forwards = direction(alloc, place, name, left, right, forwards, &mut next)?;
    directions.push(forwards)?;
    let backwards = backwards_clauses(alloc, around, mapping, clauses, first)?;
    let backwards = direction(alloc, place, name, right, left, backwards, &mut next)?;
    directions.push(backwards)
}

/// Likewise where a mapping may have a signature.
fn push_directions_if(
    alloc: Global,
    around: &Around<'_>,
    place: Place,
    name: &Text,
    clauses: &[MappingClause],
    signature: &Option<Signature>,
    directions: &mut Items<Direction>,
    first: &mut First,
) -> Result<(), AllocError>
    ensures directions { OnOk result (directions.new
        ≡ directions.old ++ directions_if (setting_of around.now) place name.now clauses.now signature.now) }
    ensures failures { OnOk result (first.new.error ≡ first_failure first.old.error
        (directions_faults (setting_of around.now) name.now clauses.now signature.now)) }
{
    match signature {
        None => Ok(()),
        Some(signature) => {
            let mapping = mapping(alloc, name, signature)?;
            push_directions(alloc, around, place, &mapping, clauses, directions, first)
        }
    }
}

/// The directions of a mapping behind others, and notes its failures.
#[tactic(auto, using(shape_rules::proofs::Firsts::first_failure_append))]
fn push_mapping(
    alloc: Global,
    source: &Source<'_>,
    around: &Around<'_>,
    definition: &Def,
    directions: &mut Items<Direction>,
    first: &mut First,
) -> Result<(), AllocError>
    requires sound { IsSound source.now }
    requires scope { (setting_of around.now).within ≡ within_variables (tabled_by source.now) [] }
    ensures directions { OnOk result (directions.new
        ≡ directions.old ++ directions_of (tabled_by source.now) (setting_of around.now) definition.now) }
    ensures failures { OnOk result (first.new.error ≡ first_failure first.old.error
        (mapping_faults (tabled_by source.now) (setting_of around.now) definition.now)) }
{
    match definition {
        Def::Mapping {
            place,
            name,
            sides,
            clauses,
        } => {
            note_sides(alloc, sides, &around.scope, first)?;
            let signature = source.signature(alloc, name.text.as_str())?;
            push_directions_if(
                alloc,
                around,
                *place,
                &name.text,
                clauses.as_slice(),
                &signature,
                directions,
                first,
            )
        }
        _ => Ok(()),
    }
}

/// The directions of all mappings, in text order, and notes the failures of mappings. The one error is want of memory.
pub fn read_mappings(
    alloc: Global,
    source: &Source<'_>,
    around: &Around<'_>,
    first: &mut First,
) -> Result<Items<Direction>, AllocError>
    requires sound { IsSound source.now }
    requires scope { (setting_of around.now).within ≡ within_variables (tabled_by source.now) [] }
    ensures directions { IfOk result (λ made. made
        ≡ joined (map (directions_of (tabled_by source.now) (setting_of around.now)) source.now.definitions.now)) }
    ensures failures { OnOk result (first.new.error ≡ first_failure first.old.error
        (joined (map (mapping_faults (tabled_by source.now) (setting_of around.now)) source.now.definitions.now))) }
{
    let definitions = source.definitions;
    let mut directions = Items::new(alloc);
    for definition in definitions {
        push_mapping(alloc, source, around, definition, &mut directions, first)?;
    }
    Ok(directions)
}
