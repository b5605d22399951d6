//! Names that a `let` or a `var` binds: what is owed and wanted before their value is walked, and what its indices make of them.
ghost use Rattle.std.specs.Prelude.{◌≡◌, IfOk, OnOk};
ghost use Rattle.value_indices.specs.Walking as walk;
ghost use Rattle.pattern_leaves.specs.Settings.{around_of};
ghost use Rattle.expression_steps.specs.Coded as coded;

use crate::aims::{one_name, written_aim};
use call_arguments::without_holes;
use call_notes::{Aim, names_given};
use pattern_leaves::{Around, Bound, name_var, owe_exponents, written_in};
use pattern_notes::{Matching, arm_written, match_one};
use sail_base::{Items, Place, Text};
use sail_core::{Arm, Giver, Statement, Written};
use std::alloc::{AllocError, Global};
use value_indices::{Indices, Walking};
use wide_types::widened;

/// What binds names.
#[derive(Clone, Copy)]
pub enum Binding<'a> {
    /// A `let` at a place.
    Let(Place, &'a Arm),
    /// A `var` of this name, and perhaps of a type that is written.
    Var(&'a Text, &'a Option<Written>),
}

/// What a statement binds names by; none where it binds no names.
pub fn binding_of<'a>(statement: &'a Statement) -> Option<Binding<'a>>
    ensures { statement.now ≡ coded.statement_of result }
{
    match statement {
        Statement::Evaluate => None,
        Statement::Define(at, arm) => Some(Binding::Let(*at, arm)),
        Statement::Declare(name, written) => Some(Binding::Var(name, written)),
    }
}

/// Owes what the exponents of a written type of a `var` owe; what is wanted of its value. It fails where memory is wanting.
#[tactic(auto, using(value_indices::proofs::Walks::walks))]
fn begin_var(
    alloc: Global,
    walking: &mut Walking,
    around: &Around<'_>,
    written: &Option<Written>,
) -> Result<Aim, AllocError>
    ensures value { IfOk result (λ made. made ≡ walk.got (coded.var_begun (around_of around.now) written.now) (walk.seen walking.old)) }
    ensures walked { OnOk result (walk.seen walking.new ≡ walk.run (coded.var_begun (around_of around.now) written.now) (walk.seen walking.old)) }
{
    match written {
        None => Ok(Aim::Free),
        Some(written) => {
            owe_exponents(alloc, around, written.numbers.as_slice(), walking)?;
            Ok(Aim::due(written_in(alloc, around, written)?))
        }
    }
}

/// What is wanted of the value that names are bound to, once what is owed before it is owed. It fails where memory is wanting.
#[tactic(auto, using(value_indices::proofs::Walks::walks))]
pub fn begin_binding(
    alloc: Global,
    walking: &mut Walking,
    around: &Around<'_>,
    binding: &Binding<'_>,
) -> Result<Aim, AllocError>
    ensures value { IfOk result (λ made. made ≡ walk.got (coded.bound_begun (around_of around.now) binding.now) (walk.seen walking.old)) }
    ensures walked { OnOk result (walk.seen walking.new ≡ walk.run (coded.bound_begun (around_of around.now) binding.now) (walk.seen walking.old)) }
{
    match binding {
        Binding::Let(_, arm) => written_aim(alloc, around, arm_written(arm)),
        Binding::Var(_, written) => begin_var(alloc, walking, around, written),
    }
}

/// The name of a `var` whose value has these indices. It fails where memory is wanting.
fn var_name(
    alloc: Global,
    around: &Around<'_>,
    name: &Text,
    written: &Option<Written>,
    value: &Indices,
) -> Result<Items<Bound>, AllocError>
    ensures { IfOk result (λ made. made ≡ coded.var_names (around_of around.now) name.now written.now value.now) }
{
    match written {
        None => {
            let typ = widened(alloc, value)?;
            let reading = without_holes(alloc, &typ)?;
            one_name(alloc, name_var(name, reading)?)
        }
        Some(written) => one_name(alloc, name_var(name, written_in(alloc, around, written)?)?),
    }
}

/// The names that are bound to a value of these indices, of which what is wanted may be owed further in; those of a `let` give numbers. It
/// fails where memory is wanting, and where variables are too many.
#[tactic(auto, using(value_indices::proofs::Walks::walks))]
pub fn end_binding(
    alloc: Global,
    walking: &mut Walking,
    around: &Around<'_>,
    giver: Giver,
    binding: &Binding<'_>,
    is_nested: bool,
    value: &Indices,
) -> Result<Items<Bound>, AllocError>
    ensures value { IfOk result (λ made. made ≡ walk.got (coded.bound_ended (around_of around.now) giver binding.now is_nested value.now)
        (walk.seen walking.old)) }
    ensures walked { OnOk result (walk.seen walking.new ≡ walk.run (coded.bound_ended (around_of around.now) giver binding.now is_nested value.now)
        (walk.seen walking.old)) }
{
    match binding {
        Binding::Let(place, arm) => {
            let how = Matching {
                in_case: false,
                is_owed: arm_written(arm).is_some() && is_nested,
            };
            let found = match_one(alloc, *place, arm, around, how, value, walking)?;
            names_given(alloc, walking, giver, std::slice::from_ref(value), found)
        }
        Binding::Var(name, written) => var_name(alloc, around, name, written, value),
    }
}
