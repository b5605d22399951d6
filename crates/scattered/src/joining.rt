ghost use Rattle.std.specs.Prelude.{◌≡◌, [], length, IfOk, OnOk, None};
ghost use Rattle.scattered.specs.Openings.{openings_of};
ghost use Rattle.scattered.specs.Gathered.{gathered, whole};
ghost use Rattle.scattered.specs.Refused.{refusal};
ghost use Rattle.scattered.specs.Added.{with_constructor, with_function_clause, with_mapping_clause, with_part, joined_with};
ghost use Rattle.scattered.specs.Latest.{IsWithin};

use sail_base::Items;
use sail_syntax::{Def, Extent, FunctionClause, MappingClause, Member};
use std::alloc::{AllocError, Global};

/// The gathered text of definitions that can be gathered, where each belongs to the opening with this
/// number. The one error is want of memory.
pub(crate) fn join(
    alloc: Global,
    definitions: Vec<Def>,
    openings: &[Option<usize>],
) -> Result<Vec<Def>, AllocError>
    requires openings { openings.now ≡ openings_of [] 0 definitions.items }
    requires accepted { refusal definitions.items ≡ None }
    ensures { IfOk result (λ joined. joined.items ≡ gathered definitions.items) }
{
    let mut joined = Vec::new(alloc);
    let mut index = 0;
    for definition in definitions {
        join_one(alloc, &mut joined, definition, openings[index])?;
        index += 1;
    }
    Ok(joined)
}

/// Puts a part at the definition of its opening, and any other definition behind those that are joined.
fn join_one(
    alloc: Global,
    joined: &mut Vec<Def>,
    definition: Def,
    opening: Option<usize>,
) -> Result<(), AllocError>
    requires { IsWithin (length joined.old.items) opening }
    ensures { OnOk result (joined.new.items ≡ joined_with joined.old.items definition opening) }
{
    match opening {
        Some(number) => add_part(&mut joined[number], definition),
        None => {
            joined.push(begin(alloc, definition))?;
            Ok(())
        }
    }
}

/// An opening as a definition without clauses; all others stay.
fn begin(alloc: Global, definition: Def) -> Def
    ensures { result ≡ whole definition [] }
{
    match definition {
        Def::ScatteredUnion(place, name, variables) => Def::Union {
            place,
            name,
            variables,
            constructors: Items::new(alloc),
        },
        Def::ScatteredFunction(place, name) => Def::Function {
            place,
            extent: Extent::Gathered,
            name,
            clauses: Items::new(alloc),
        },
        Def::ScatteredMapping(place, name) => Def::Mapping {
            place,
            name,
            sides: None,
            clauses: Items::new(alloc),
        },
        other => other,
    }
}

/// Puts what a part says at the end of the definition that it belongs to.
fn add_part(definition: &mut Def, part: Def) -> Result<(), AllocError>
    ensures { OnOk result (definition.new ≡ with_part definition.old part) }
{
    match part {
        Def::UnionClause(_, _, member) => add_constructor(definition, member),
        Def::FunctionClause(_, clause) => add_function_clause(definition, clause),
        Def::MappingClause(_, _, clause) => add_mapping_clause(definition, clause),
        _ => Ok(()),
    }
}

fn add_constructor(definition: &mut Def, member: Member) -> Result<(), AllocError>
    ensures { OnOk result (definition.new ≡ with_constructor definition.old member) }
{
    if let Def::Union { constructors, .. } = definition {
        constructors.push(member)?;
    }
    Ok(())
}

fn add_function_clause(definition: &mut Def, clause: FunctionClause) -> Result<(), AllocError>
    ensures { OnOk result (definition.new ≡ with_function_clause definition.old clause) }
{
    if let Def::Function { clauses, .. } = definition {
        clauses.push(clause)?;
    }
    Ok(())
}

fn add_mapping_clause(definition: &mut Def, clause: MappingClause) -> Result<(), AllocError>
    ensures { OnOk result (definition.new ≡ with_mapping_clause definition.old clause) }
{
    if let Def::Mapping { clauses, .. } = definition {
        clauses.push(clause)?;
    }
    Ok(())
}
