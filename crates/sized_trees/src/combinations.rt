//! The combinations of numbers by which the cases of a node are told apart.
ghost use Rattle.std.specs.Prelude.{◌≡◌, ◌++◌, [], nat_eq, nat_lt, not, IfOk, OnOk};
ghost use Rattle.std.specs.List.{list_any};
ghost use Rattle.monomorph.specs.Reading.{inside_of};
ghost use Rattle.sized_trees.specs.Combinations as spec;

use monomorph::{Inside, counted};
use sail_base::Items;
use size_values::Picked;
use std::alloc::{AllocError, Global};
use value_indices::Fact;

/// The numbers that are taken where a value is made.
#[derive(Drop)]
pub struct Choice {
    /// Of variables that are noted there, or that the value gives.
    pub noted: Items<Picked>,
    /// Of those that the value's type binds.
    pub bound: Items<Picked>,
}

/// Whether a fact says that the number of a variable is noted.
fn gives_it(fact: &Fact, variable: u32) -> bool
    ensures { result ≡ spec.gives_it variable fact.now }
{
    match fact {
        Fact::Holds(_) => false,
        Fact::IsGiven(other) => variable == *other,
    }
}

/// Whether the number of a variable is noted.
pub fn is_given(facts: &[Fact], variable: u32) -> bool
    ensures { result ≡ spec.is_given facts.now variable }
{
    for fact in facts {
        if gives_it(fact, variable) {
            return true;
        }
    }
    false
}

/// Whether a variable is among these.
fn is_among(variables: &[u32], variable: u32) -> bool
    ensures { result ≡ list_any (nat_eq variable) variables.now }
{
    for other in variables {
        if variable == *other {
            return true;
        }
    }
    false
}

/// Whether the number of a variable is noted, or one of these.
fn is_told(facts: &[Fact], own: &[u32], variable: u32) -> bool
    ensures { result ≡ spec.is_told facts.now own.now variable }
{
    is_among(own, variable) || is_given(facts, variable)
}

/// Puts a number that is taken, where that of its variable is noted or one of these. It fails where memory is wanting.
fn push_where(
    made: &mut Items<Picked>,
    facts: &[Fact],
    own: &[u32],
    picked: &Picked,
) -> Result<(), AllocError>
    ensures { OnOk result (made.new ≡ made.old ++ spec.where_so (spec.is_told facts.now own.now picked.now.variable) picked.now) }
{
    if is_told(facts, own, picked.variable) {
        made.push(*picked)
    } else {
        Ok(())
    }
}

/// Of the numbers that are taken those of variables that are noted or among these. It fails where memory is wanting.
fn picked_where(
    alloc: Global,
    facts: &[Fact],
    own: &[u32],
    picked: &[Picked],
) -> Result<Items<Picked>, AllocError>
    ensures { IfOk result (λ made. made ≡ spec.picked_where (spec.is_told facts.now own.now) picked.now) }
{
    let mut made = Items::new(alloc);
    for one in picked {
        push_where(&mut made, facts, own, one)?;
    }
    Ok(made)
}

/// Whether the same number is taken for the same variable.
fn same_one(a: &Picked, b: &Picked) -> bool
    ensures { result ≡ spec.picked_eq a.now b.now }
{
    a.variable == b.variable && a.number == b.number
}

/// Whether the same numbers are taken for the same variables in the same order.
#[tactic(auto, using(crate::proofs::Same::picked_differ))]
fn same_picked(a: &[Picked], b: &[Picked]) -> bool
    ensures { result ≡ spec.all_picked_eq a.now b.now }
{
    if a.len() != b.len() {
        return false;
    }
    let mut at = 0;
    for one in a {
        if !same_one(one, &b[at]) {
            return false;
        }
        at += 1;
    }
    true
}

/// Whether a combination is seen by then.
fn is_seen(seen: &[Items<Picked>], picked: &[Picked]) -> bool
    ensures { result ≡ list_any (spec.all_picked_eq picked.now) seen.now }
{
    for other in seen {
        if same_picked(picked, other.as_slice()) {
            return true;
        }
    }
    false
}

/// Puts a combination, unless it is there. It fails where memory is wanting.
fn push_one(seen: &mut Items<Items<Picked>>, picked: Items<Picked>) -> Result<(), AllocError>
    ensures { OnOk result (seen.new ≡ spec.with_one seen.old picked) }
{
    if is_seen(seen.as_slice(), picked.as_slice()) {
        Ok(())
    } else {
        seen.push(picked)
    }
}

/// Combinations by the numbers that are noted or among these, each once. They fail where memory is wanting.
fn each_once(
    alloc: Global,
    facts: &[Fact],
    own: &[u32],
    combinations: &[Items<Picked>],
) -> Result<Items<Items<Picked>>, AllocError>
    ensures { IfOk result (λ made. made ≡ spec.each_once (spec.is_told facts.now own.now) [] combinations.now) }
{
    let mut seen = Items::new(alloc);
    for picked in combinations {
        let noted = picked_where(alloc, facts, own, picked.as_slice())?;
        push_one(&mut seen, noted)?;
    }
    Ok(seen)
}

/// The combinations that count at a place, by the numbers that are noted there or among these. They fail where memory is wanting.
fn each_noted(
    alloc: Global,
    inside: &Inside<'_>,
    facts: &[Fact],
    own: &[u32],
) -> Result<Items<Items<Picked>>, AllocError>
    ensures { IfOk result (λ made. made ≡ spec.each_noted (inside_of inside.now) facts.now own.now) }
{
    let combinations = counted(alloc, inside.numbers, inside.split, facts, &[])?;
    each_once(alloc, facts, own, combinations.as_slice())
}

/// The same by the numbers that are noted there. They fail where memory is wanting.
pub fn combinations_at(
    alloc: Global,
    inside: &Inside<'_>,
    facts: &[Fact],
) -> Result<Items<Items<Picked>>, AllocError>
    ensures { IfOk result (λ made. made ≡ spec.combinations_at (inside_of inside.now) facts.now) }
{
    each_noted(alloc, inside, facts, &[])
}

/// The same where a value gives these numbers of the body's variables itself. They fail where memory is wanting.
fn noted_choices(
    alloc: Global,
    inside: &Inside<'_>,
    facts: &[Fact],
    own: &[u32],
) -> Result<Items<Items<Picked>>, AllocError>
    ensures { IfOk result (λ made. made ≡ spec.noted_choices (inside_of inside.now) facts.now own.now) }
{
    let before = those_before(alloc, inside.variables, own)?;
    each_noted(alloc, inside, facts, before.as_slice())
}

/// Those of the variables that a type binds which is opened by these facts, where a value of it gives these numbers itself. They fail where
/// memory is wanting.
fn bound_choices(
    alloc: Global,
    inside: &Inside<'_>,
    opening: &[Fact],
    own: &[u32],
) -> Result<Items<Items<Picked>>, AllocError>
    ensures { IfOk result (λ made. made ≡ spec.bound_choices (inside_of inside.now) opening.now own.now) }
{
    let bound = those_from(alloc, inside.variables, own)?;
    let combinations = counted(alloc, inside.numbers, bound.as_slice(), &[], opening)?;
    each_once(alloc, &[], own, combinations.as_slice())
}

/// Puts a variable, where it is before this one. It fails where memory is wanting.
fn push_before(made: &mut Items<u32>, first: u32, variable: u32) -> Result<(), AllocError>
    ensures { OnOk result (made.new ≡ made.old ++ spec.where_so (nat_lt variable first) variable) }
{
    if variable < first {
        made.push(variable)
    } else {
        Ok(())
    }
}

/// Of these variables those before this one. They fail where memory is wanting.
fn those_before(alloc: Global, first: u32, own: &[u32]) -> Result<Items<u32>, AllocError>
    ensures { IfOk result (λ made. made ≡ spec.those_before first own.now) }
{
    let mut made = Items::new(alloc);
    for variable in own {
        push_before(&mut made, first, *variable)?;
    }
    Ok(made)
}

/// Puts a variable, where it is this one or a later one. It fails where memory is wanting.
fn push_from(made: &mut Items<u32>, first: u32, variable: u32) -> Result<(), AllocError>
    ensures { OnOk result (made.new ≡ made.old ++ spec.where_so (not (nat_lt variable first)) variable) }
{
    if variable < first {
        Ok(())
    } else {
        made.push(variable)
    }
}

/// Of these variables those from this one on. They fail where memory is wanting.
fn those_from(alloc: Global, first: u32, own: &[u32]) -> Result<Items<u32>, AllocError>
    ensures { IfOk result (λ made. made ≡ spec.those_from first own.now) }
{
    let mut made = Items::new(alloc);
    for variable in own {
        push_from(&mut made, first, *variable)?;
    }
    Ok(made)
}

/// Puts each of these combinations beside one. It fails where memory is wanting.
fn push_with_bound(
    alloc: Global,
    made: &mut Items<Choice>,
    bound: &[Items<Picked>],
    picked: &[Picked],
) -> Result<(), AllocError>
    ensures { OnOk result (made.new ≡ made.old ++ spec.with_bound bound.now picked.now) }
{
    for one in bound {
        let noted = Items::from_slice(alloc, picked)?;
        let bound = Items::from_slice(alloc, one.as_slice())?;
        made.push(Choice { noted, bound })?;
    }
    Ok(())
}

/// Puts each of these combinations beside each of the others. It fails where memory is wanting.
fn with_each(
    alloc: Global,
    bound: &[Items<Picked>],
    combinations: &[Items<Picked>],
) -> Result<Items<Choice>, AllocError>
    ensures { IfOk result (λ made. made ≡ spec.with_each bound.now combinations.now) }
{
    let mut made = Items::new(alloc);
    for picked in combinations {
        push_with_bound(alloc, &mut made, bound, picked.as_slice())?;
    }
    Ok(made)
}

/// The combinations that count where a value is made: its type is opened by these facts, and it gives these numbers itself. They fail where
/// memory is wanting.
pub fn choices_at(
    alloc: Global,
    inside: &Inside<'_>,
    facts: &[Fact],
    opening: &[Fact],
    own: &[u32],
) -> Result<Items<Choice>, AllocError>
    ensures { IfOk result (λ made. made ≡ spec.choices_at (inside_of inside.now) facts.now opening.now own.now) }
{
    let noted = noted_choices(alloc, inside, facts, own)?;
    let bound = bound_choices(alloc, inside, opening, own)?;
    with_each(alloc, bound.as_slice(), noted.as_slice())
}

/// All the numbers that are taken. It fails where memory is wanting.
pub fn picked_by(alloc: Global, choice: &Choice) -> Result<Items<Picked>, AllocError>
    ensures { IfOk result (λ made. made ≡ spec.picked_by choice.now) }
{
    let mut made = Items::from_slice(alloc, choice.bound.as_slice())?;
    made.append(Items::from_slice(alloc, choice.noted.as_slice())?)?;
    Ok(made)
}
