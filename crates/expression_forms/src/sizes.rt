//! `sizeof` and `constraint`.
ghost use Rattle.std.specs.Prelude.{◌≡◌, [], ◌∷◌, map, option_map, pos, IfOk, OnOk};
ghost use Rattle.std.specs.List.{list_any};
ghost use Rattle.std.specs.Option.{option_copied};
ghost use Rattle.sail_types.specs.Sums as sums;
ghost use Rattle.sail_core.specs.declared.written.WrittenNumber.{WrittenNumber};
ghost use Rattle.value_indices.specs.Opening as opening;
ghost use Rattle.value_indices.specs.Walking as walk;
ghost use Rattle.pattern_leaves.specs.Settings as settings;
ghost use Rattle.pattern_leaves.specs.Settings.{around_of};
ghost use Rattle.expression_forms.specs.Sizes as sizes;

use pattern_leaves::{Around, number_owed, owe_exponents};
use sail_base::{Items, Place};
use sail_core::{Role, WrittenNumber};
use sail_types::{
    Atom, Con, Index, Num, Term, add, copy_atom, copy_num, read_con, read_number, same_num,
};
use std::alloc::{AllocError, Global};
use value_indices::{
    Indices, Walking, at_most, largest_num, least_num, number_or_fresh, truth_or_fresh,
};

/// That a number isn't below the least integer. It fails where memory is wanting.
fn from_least(alloc: Global, number: Option<&Num>) -> Result<Option<Con>, AllocError>
    ensures { IfOk result (λ made. made ≡ option_map (opening.at_most opening.least_num) (option_copied number.entry)) }
{
    match number {
        None => Ok(None),
        Some(number) => {
            let number = copy_num(alloc, number)?;
            Ok(Some(at_most(least_num(alloc), number)))
        }
    }
}

/// That a number isn't past the largest integer. It fails where memory is wanting.
fn up_to_largest(alloc: Global, number: Option<&Num>) -> Result<Option<Con>, AllocError>
    ensures { IfOk result (λ made. made ≡ option_map (λ u. opening.at_most u opening.largest_num) (option_copied number.entry)) }
{
    match number {
        None => Ok(None),
        Some(number) => {
            let number = copy_num(alloc, number)?;
            Ok(Some(at_most(number, largest_num(alloc))))
        }
    }
}

/// That a number is from the least to the largest integer. It fails where memory is wanting.
fn in_bounds(alloc: Global, number: Option<&Num>) -> Result<Items<Option<Con>>, AllocError>
    ensures { IfOk result (λ made. made ≡ sizes.in_bounds (option_copied number.entry)) }
{
    let mut conditions = Items::new(alloc);
    conditions.push(from_least(alloc, number)?)?;
    conditions.push(up_to_largest(alloc, number)?)?;
    Ok(conditions)
}

/// A term alone. It fails where memory is wanting.
fn single(alloc: Global, term: &Term) -> Result<Num, AllocError>
    ensures { IfOk result (λ made. made ≡ sizes.single term.now) }
{
    let mut terms = Items::new(alloc);
    let atom = copy_atom(alloc, &term.atom)?;
    terms.push(Term {
        coefficient: term.coefficient,
        atom,
    })?;
    Ok(Num { terms, constant: 0 })
}

/// A term alone, read under what variables stand for. It fails where memory is wanting.
fn term_read(alloc: Global, term: &Term, indices: &[Index]) -> Result<Option<Num>, AllocError>
    ensures { IfOk result (λ made. made ≡ sizes.term_read indices.now term.now) }
{
    let alone = single(alloc, term)?;
    read_number(alloc, &alone, indices)
}

/// A sum with a term more. It fails where memory is wanting.
fn with_term(
    alloc: Global,
    total: Option<Num>,
    term: Option<Num>,
) -> Result<Option<Num>, AllocError>
    ensures { IfOk result (λ made. made ≡ sizes.with_term total term) }
{
    match total {
        None => Ok(None),
        Some(sum) => match term {
            None => Ok(None),
            Some(term) => add(alloc, &sum, &term),
        },
    }
}

/// A sum with its constant. It fails where memory is wanting.
fn with_constant(
    alloc: Global,
    constant: i128,
    total: Option<Num>,
) -> Result<Option<Num>, AllocError>
    ensures { IfOk result (λ made. made ≡ sizes.with_constant constant total) }
{
    match total {
        None => Ok(None),
        Some(sum) => {
            let constant = Num::constant(alloc, constant);
            add(alloc, &sum, &constant)
        }
    }
}

/// What is owed of a sum with its constant, the last. It fails where memory is wanting.
fn constant_bounded(
    alloc: Global,
    total: Option<Num>,
    constant: i128,
) -> Result<Items<Option<Con>>, AllocError>
    ensures { IfOk result (λ made. made ≡ sizes.constant_bounded total constant) }
{
    if constant == 0 {
        return Ok(Items::new(alloc));
    }
    let total = with_constant(alloc, constant, total)?;
    in_bounds(alloc, total.as_ref())
}

/// That an exponent is at least 0. It fails where memory is wanting.
fn from_zero(alloc: Global, exponent: Option<&Num>) -> Result<Option<Con>, AllocError>
    ensures { IfOk result (λ made. made ≡ option_map (opening.at_most (sums.constant (pos 0))) (option_copied exponent.entry)) }
{
    match exponent {
        None => Ok(None),
        Some(exponent) => {
            let exponent = copy_num(alloc, exponent)?;
            Ok(Some(at_most(Num::constant(alloc, 0), exponent)))
        }
    }
}

/// That an exponent is at most 126. It fails where memory is wanting.
fn up_to_highest(alloc: Global, exponent: Option<&Num>) -> Result<Option<Con>, AllocError>
    ensures { IfOk result (λ made. made ≡ option_map (λ u. opening.at_most u (sums.constant (pos 126))) (option_copied exponent.entry)) }
{
    match exponent {
        None => Ok(None),
        Some(exponent) => {
            let exponent = copy_num(alloc, exponent)?;
            Ok(Some(at_most(exponent, Num::constant(alloc, 126))))
        }
    }
}

/// That an exponent is from 0 to 126. It fails where memory is wanting.
fn fine_exponent(alloc: Global, exponent: Option<&Num>) -> Result<Items<Option<Con>>, AllocError>
    ensures { IfOk result (λ made. made ≡ settings.fine_exponent (option_copied exponent.entry)) }
{
    let mut conditions = Items::new(alloc);
    conditions.push(from_zero(alloc, exponent)?)?;
    conditions.push(up_to_highest(alloc, exponent)?)?;
    Ok(conditions)
}

/// What is owed of a number as it is written, over what variables stand for: of each term from the left, and of the sum so far. It fails
/// where memory is wanting.
#[cycle(bounded)]
fn bounded(alloc: Global, number: &Num, indices: &[Index]) -> Result<Items<Option<Con>>, AllocError>
    ensures { IfOk result (λ made. made ≡ sizes.bounded indices.now number.now) }
{
    terms_bounded(alloc, number.terms.as_slice(), number.constant, indices)
}

/// The same of terms and a constant. It fails where memory is wanting.
#[cycle(bounded)]
fn terms_bounded(
    alloc: Global,
    terms: &[Term],
    constant: i128,
    indices: &[Index],
) -> Result<Items<Option<Con>>, AllocError>
    ensures { IfOk result (λ made. made
        ≡ sizes.terms_bounded indices.now (map (sizes.with_owed indices.now) terms.now) constant) }
{
    match terms {
        [] => Ok(Items::new(alloc)),
        [first, others @ ..] => {
            let mut made = term_owed(alloc, first, indices)?;
            let total = term_read(alloc, first, indices)?;
            made.append(more_bounded(alloc, total, others, constant, indices)?)?;
            Ok(made)
        }
    }
}

/// The same behind terms of this sum. It fails where memory is wanting.
#[cycle(bounded)]
fn more_bounded(
    alloc: Global,
    mut total: Option<Num>,
    terms: &[Term],
    constant: i128,
    indices: &[Index],
) -> Result<Items<Option<Con>>, AllocError>
    ensures { IfOk result (λ made. made
        ≡ sizes.more_bounded indices.now total (map (sizes.with_owed indices.now) terms.now) constant) }
{
    let mut made = Items::new(alloc);
    for term in terms {
        made.append(term_owed(alloc, term, indices)?)?;
        let read = term_read(alloc, term, indices)?;
        total = with_term(alloc, total, read)?;
        made.append(in_bounds(alloc, total.as_ref())?)?;
    }
    made.append(constant_bounded(alloc, total, constant)?)?;
    Ok(made)
}

/// What is owed of a term: what stands in its exponent, and the term. It fails where memory is wanting.
#[cycle(bounded)]
fn term_owed(
    alloc: Global,
    term: &Term,
    indices: &[Index],
) -> Result<Items<Option<Con>>, AllocError>
    ensures { IfOk result (λ made. made ≡ sizes.term_owed indices.now (sizes.with_owed indices.now term.now)) }
{
    let mut made = atom_bounded(alloc, &term.atom, indices)?;
    let read = term_read(alloc, term, indices)?;
    made.append(in_bounds(alloc, read.as_ref())?)?;
    Ok(made)
}

/// What is owed of an exponent in a term. It fails where memory is wanting.
#[cycle(bounded)]
fn atom_bounded(
    alloc: Global,
    atom: &Atom,
    indices: &[Index],
) -> Result<Items<Option<Con>>, AllocError>
    ensures { IfOk result (λ made. made ≡ sizes.bounded_atom indices.now atom.now) }
{
    match atom {
        Atom::Variable(_) => Ok(Items::new(alloc)),
        Atom::Power(number) => bounded(alloc, number.get(), indices),
    }
}

/// What is owed where something can't be said. It fails where memory is wanting.
fn nothing_holds(alloc: Global) -> Result<Items<Option<Con>>, AllocError>
    ensures { IfOk result (λ made. made ≡ None ∷ []) }
{
    let mut conditions = Items::new(alloc);
    conditions.push(None)?;
    Ok(conditions)
}

/// What is owed of a number, if it can be said. It fails where memory is wanting.
fn size_owed(
    alloc: Global,
    number: &Num,
    indices: &[Index],
) -> Result<Items<Option<Con>>, AllocError>
    ensures { IfOk result (λ made. made ≡ sizes.size_owed indices.now number.now) }
{
    match read_number(alloc, number, indices)? {
        None => nothing_holds(alloc),
        Some(_) => bounded(alloc, number, indices),
    }
}

/// Whether two numbers are one.
fn is_same_number(a: &Num, b: &Num) -> bool
    ensures { result ≡ sizes.same_number a.now b.now }
{
    same_num(a, b)
}

/// Whether a number is written as an exponent.
fn is_exponent(role: Role) -> bool
    ensures { result ≡ sizes.is_exponent role }
{
    match role {
        Role::Exponent => true,
        _ => false,
    }
}

/// Whether a number is written as a side of a comparison.
fn is_side(role: Role) -> bool
    ensures { result ≡ sizes.is_side role }
{
    match role {
        Role::Side => true,
        _ => false,
    }
}

/// Whether that number is written as this exponent.
fn exponent_is(exponent: &Num, written: &WrittenNumber) -> bool
    ensures { result ≡ sizes.exponent_is exponent.now written.now }
{
    if is_exponent(written.role) {
        is_same_number(&written.number, exponent)
    } else {
        false
    }
}

/// Whether that number is written as this side.
fn side_is(side: &Num, written: &WrittenNumber) -> bool
    ensures { result ≡ sizes.side_is side.now written.now }
{
    if is_side(written.role) {
        is_same_number(&written.number, side)
    } else {
        false
    }
}

/// Whether an exponent is among the numbers that are written.
fn is_written_exponent(numbers: &[WrittenNumber], exponent: &Num) -> bool
    ensures { result ≡ list_any (sizes.exponent_is exponent.now) numbers.now }
{
    for written in numbers {
        if exponent_is(exponent, written) {
            return true;
        }
    }
    false
}

/// Whether a side is among the numbers that are written.
fn is_written_side(numbers: &[WrittenNumber], side: &Num) -> bool
    ensures { result ≡ list_any (sizes.side_is side.now) numbers.now }
{
    for written in numbers {
        if side_is(side, written) {
            return true;
        }
    }
    false
}

/// Whether a number has no variables and no powers in it.
fn is_constant(number: &Num) -> bool
    ensures { result ≡ sums.is_constant number.now }
{
    number.terms.is_empty()
}

/// Whether a number isn't constant, or can't be said.
fn varies(number: Option<&Num>) -> bool
    ensures { result ≡ sizes.varies (option_copied number.entry) }
{
    match number {
        None => true,
        Some(number) => !is_constant(number),
    }
}

/// Whether an exponent, as it is read, owes where it is written.
fn owes_there(numbers: &[WrittenNumber], exponent: &Num, read: Option<&Num>) -> bool
    ensures { result ≡ sizes.owes_there numbers.now exponent.now (option_copied read.entry) }
{
    if varies(read) {
        is_written_exponent(numbers, exponent)
    } else {
        false
    }
}

/// What is owed of an exponent that isn't among the numbers that are written. It fails where memory is wanting.
fn exponent_through(
    alloc: Global,
    exponent: &Num,
    indices: &[Index],
    numbers: &[WrittenNumber],
) -> Result<Items<Option<Con>>, AllocError>
    ensures { IfOk result (λ made. made ≡ sizes.exponent_through indices.now numbers.now exponent.now) }
{
    let read = read_number(alloc, exponent, indices)?;
    if owes_there(numbers, exponent, read.as_ref()) {
        Ok(Items::new(alloc))
    } else {
        fine_exponent(alloc, read.as_ref())
    }
}

/// What is owed of the exponents in a number that aren't written. It fails where memory is wanting.
#[cycle(through)]
fn through(
    alloc: Global,
    number: &Num,
    indices: &[Index],
    numbers: &[WrittenNumber],
) -> Result<Items<Option<Con>>, AllocError>
    ensures { IfOk result (λ made. made ≡ sizes.through indices.now numbers.now number.now) }
{
    all_through(alloc, number.terms.as_slice(), indices, numbers)
}

/// The same of terms. It fails where memory is wanting.
#[cycle(through)]
fn all_through(
    alloc: Global,
    terms: &[Term],
    indices: &[Index],
    numbers: &[WrittenNumber],
) -> Result<Items<Option<Con>>, AllocError>
    ensures { IfOk result (λ made. made
        ≡ sizes.all_owed (map (sizes.through_term indices.now numbers.now) terms.now)) }
{
    let mut made = Items::new(alloc);
    for term in terms {
        made.append(through_term(alloc, term, indices, numbers)?)?;
    }
    Ok(made)
}

/// The same of a term. It fails where memory is wanting.
#[cycle(through)]
fn through_term(
    alloc: Global,
    term: &Term,
    indices: &[Index],
    numbers: &[WrittenNumber],
) -> Result<Items<Option<Con>>, AllocError>
    ensures { IfOk result (λ made. made ≡ sizes.through_term indices.now numbers.now term.now) }
{
    through_atom(alloc, &term.atom, indices, numbers)
}

/// The same of an exponent in a term, with the exponents in it. It fails where memory is wanting.
#[cycle(through)]
fn through_atom(
    alloc: Global,
    atom: &Atom,
    indices: &[Index],
    numbers: &[WrittenNumber],
) -> Result<Items<Option<Con>>, AllocError>
    ensures { IfOk result (λ made. made ≡ sizes.through_atom indices.now numbers.now atom.now) }
{
    match atom {
        Atom::Variable(_) => Ok(Items::new(alloc)),
        Atom::Power(number) => {
            let mut made = through(alloc, number.get(), indices, numbers)?;
            made.append(exponent_through(alloc, number.get(), indices, numbers)?)?;
            Ok(made)
        }
    }
}

/// What is owed of a side of a comparison: of the exponents in it, and of the side where it isn't written. It fails where memory is
/// wanting.
fn side_through(
    alloc: Global,
    side: &Num,
    indices: &[Index],
    numbers: &[WrittenNumber],
) -> Result<Items<Option<Con>>, AllocError>
    ensures { IfOk result (λ made. made ≡ sizes.side_through indices.now numbers.now side.now) }
{
    let mut made = through(alloc, side, indices, numbers)?;
    if is_written_side(numbers, side) {
        Ok(made)
    } else {
        made.append(size_owed(alloc, side, indices)?)?;
        Ok(made)
    }
}

/// What is owed of the numbers that a condition compares. It fails where memory is wanting.
#[cycle(compared)]
fn compared(
    alloc: Global,
    condition: &Con,
    indices: &[Index],
    numbers: &[WrittenNumber],
) -> Result<Items<Option<Con>>, AllocError>
    ensures { IfOk result (λ made. made ≡ sizes.compared indices.now numbers.now condition.now) }
{
    match condition {
        Con::Truth(_) => Ok(Items::new(alloc)),
        Con::Holds(_) => Ok(Items::new(alloc)),
        Con::Compare(_, left, right) => {
            let mut made = side_through(alloc, left, indices, numbers)?;
            made.append(side_through(alloc, right, indices, numbers)?)?;
            Ok(made)
        }
        Con::OneOf(number, _) => side_through(alloc, number, indices, numbers),
        Con::Not(part) => compared(alloc, part.get(), indices, numbers),
        Con::All(parts) => all_compared(alloc, parts.as_slice(), indices, numbers),
        Con::Any(parts) => all_compared(alloc, parts.as_slice(), indices, numbers),
    }
}

/// The same of several. It fails where memory is wanting.
#[cycle(compared)]
fn all_compared(
    alloc: Global,
    conditions: &[Con],
    indices: &[Index],
    numbers: &[WrittenNumber],
) -> Result<Items<Option<Con>>, AllocError>
    ensures { IfOk result (λ made. made ≡ sizes.all_owed (map (sizes.compared indices.now numbers.now) conditions.now)) }
{
    let mut made = Items::new(alloc);
    for condition in conditions {
        made.append(compared(alloc, condition, indices, numbers)?)?;
    }
    Ok(made)
}

/// What is owed of a condition, if it can be said. It fails where memory is wanting.
fn truth_owed(
    alloc: Global,
    condition: &Con,
    indices: &[Index],
    numbers: &[WrittenNumber],
) -> Result<Items<Option<Con>>, AllocError>
    ensures { IfOk result (λ made. made ≡ sizes.truth_owed indices.now numbers.now condition.now) }
{
    match read_con(alloc, condition, indices)? {
        None => nothing_holds(alloc),
        Some(_) => compared(alloc, condition, indices, numbers),
    }
}

/// `sizeof(t)` at a place, with the exponents in it: what it owes, and its number. It fails where memory is wanting, and where variables
/// are too many.
#[tactic(auto, using(value_indices::proofs::Walks::walks))]
pub fn size(
    alloc: Global,
    walking: &mut Walking,
    around: &Around<'_>,
    place: Place,
    number: &Num,
    numbers: &[WrittenNumber],
) -> Result<Indices, AllocError>
    ensures value { IfOk result (λ made. made
        ≡ walk.got (sizes.size_walk place number.now numbers.now (around_of around.now)) (walk.seen walking.old)) }
    ensures walked { OnOk result (walk.seen walking.new
        ≡ walk.run (sizes.size_walk place number.now numbers.now (around_of around.now)) (walk.seen walking.old)) }
{
    owe_exponents(alloc, around, numbers, walking)?;
    let mut conditions = through(alloc, number, around.numbers, numbers)?;
    conditions.append(size_owed(alloc, number, around.numbers)?)?;
    walking.owe(alloc, place, conditions)?;
    let read = read_number(alloc, number, around.numbers)?;
    let number = number_or_fresh(alloc, walking, read)?;
    Ok(Indices::Integer(number))
}

/// What a number that is written owes: a side of a comparison what a `sizeof` does. It fails where memory is wanting.
fn side_owed(
    alloc: Global,
    around: &Around<'_>,
    number: &WrittenNumber,
) -> Result<Items<Option<Con>>, AllocError>
    ensures { IfOk result (λ made. made
        ≡ sizes.side_owed (around_of around.now) number.now (WrittenNumber.role number.now)) }
{
    match number.role {
        Role::Side => size_owed(alloc, &number.number, around.numbers),
        Role::Exponent => number_owed(alloc, around, number),
        _ => Ok(Items::new(alloc)),
    }
}

/// Owes what the numbers in a `constraint` owe, each at its place. It fails where memory is wanting.
fn owe_sides(
    alloc: Global,
    walking: &mut Walking,
    around: &Around<'_>,
    numbers: &[WrittenNumber],
) -> Result<(), AllocError>
    ensures { OnOk result (walk.seen walking.new
        ≡ walk.run (sizes.sides_owed (around_of around.now) numbers.now) (walk.seen walking.old)) }
{
    for number in numbers {
        let conditions = side_owed(alloc, around, number)?;
        walking.owe(alloc, number.place, conditions)?;
    }
    Ok(())
}

/// `constraint(C)` at a place, with the numbers that are compared there: what it owes, and its truth. It fails where memory is wanting, and
/// where variables are too many.
#[tactic(auto, using(value_indices::proofs::Walks::walks))]
pub fn constraint(
    alloc: Global,
    walking: &mut Walking,
    around: &Around<'_>,
    place: Place,
    condition: &Con,
    numbers: &[WrittenNumber],
) -> Result<Indices, AllocError>
    ensures value { IfOk result (λ made. made
        ≡ walk.got (sizes.constraint_walk place condition.now numbers.now (around_of around.now)) (walk.seen walking.old)) }
    ensures walked { OnOk result (walk.seen walking.new
        ≡ walk.run (sizes.constraint_walk place condition.now numbers.now (around_of around.now)) (walk.seen walking.old)) }
{
    owe_sides(alloc, walking, around, numbers)?;
    let conditions = truth_owed(alloc, condition, around.numbers, numbers)?;
    walking.owe(alloc, place, conditions)?;
    let read = read_con(alloc, condition, around.numbers)?;
    let truth = truth_or_fresh(walking, read)?;
    Ok(Indices::Truth(truth))
}
