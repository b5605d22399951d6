use crate::depths::Depths;
use crate::inside::{check_expression, check_maybe, check_pattern, check_patterns};
use sail_syntax::{Def, FunctionClause, MappingClause, Side, Sides};
use std::alloc::{AllocError, Global};

/// The one error is want of memory: also where a type that is written in a text, or what it stands for, nests deeper than the
/// stack is taken to hold.
pub(crate) fn check_nesting(alloc: Global, definitions: &[Def]) -> Result<(), AllocError> {
    let mut depths = Depths::new(alloc);
    for definition in definitions {
        depths.define(definition)?;
    }
    for definition in definitions {
        check_definition(definition, &depths)?;
    }
    Ok(())
}

/// Wants memory where a type that is written in a definition nests too deep, unless it is a type's definition.
fn check_definition(definition: &Def, depths: &Depths<'_>) -> Result<(), AllocError> {
    match definition {
        Def::Val {
            quantifier,
            from,
            to,
            ..
        } => {
            depths.check_maybe(&quantifier.constraint)?;
            depths.check_type(from)?;
            depths.check_type(to)
        }
        Def::Function { clauses, .. } => check_function(clauses.as_slice(), depths),
        Def::Measure {
            parameters,
            value,
            ..
        } => {
            check_patterns(parameters.as_slice(), depths)?;
            check_expression(value.get(), depths)
        }
        Def::Mapping { sides, clauses, .. } => {
            check_sides(sides, depths)?;
            check_mapping(clauses.as_slice(), depths)
        }
        Def::Let(_, pattern, value) => {
            check_pattern(pattern, depths)?;
            check_expression(value.get(), depths)
        }
        Def::Register { typ, initial, .. } => {
            depths.check_type(typ)?;
            check_maybe(initial, depths)
        }
        _ => Ok(()),
    }
}

fn check_function(clauses: &[FunctionClause], depths: &Depths<'_>) -> Result<(), AllocError> {
    for clause in clauses {
        check_patterns(clause.parameters.as_slice(), depths)?;
        depths.check_maybe(&clause.result)?;
        check_expression(clause.body.get(), depths)?;
    }
    Ok(())
}

fn check_sides(sides: &Option<Sides>, depths: &Depths<'_>) -> Result<(), AllocError> {
    match sides {
        None => Ok(()),
        Some(sides) => {
            depths.check_type(&sides.left)?;
            depths.check_type(&sides.right)
        }
    }
}

fn check_mapping(clauses: &[MappingClause], depths: &Depths<'_>) -> Result<(), AllocError> {
    for clause in clauses {
        check_side(&clause.left, depths)?;
        check_side(&clause.right, depths)?;
    }
    Ok(())
}

fn check_side(side: &Side, depths: &Depths<'_>) -> Result<(), AllocError> {
    check_pattern(&side.pattern, depths)?;
    check_maybe(&side.guard, depths)
}
