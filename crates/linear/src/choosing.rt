//! What makes constraints true or false, as rows.
ghost use Rattle.std.specs.Prelude.{◌≡◌, ◌∷◌, [], ◌+ℤ◌, ◌-ℤ◌, IfOk, map, if◌then◌else◌};
ghost use Rattle.sail_types.specs.Sums.{num};
ghost use Rattle.linear.specs.Choices.{limited, only, with_term, with_terms, at_most, place_of, row_choice, two_rows};
ghost use Rattle.linear.specs.Choices.{either_row, compared, opposite, truth_row, holds_row, choice_of, all_of};
ghost use Rattle.linear.specs.Choices.{all_parts, any_part, sign_of, gap_of, bound_of, among};

use crate::choice::Choice;
use crate::numbers::Number;
use crate::row::{Row, added};
use crate::variables::place_in;
use sail_base::Items;
use sail_types::{Atom, Comparison, Con, Num, Term};
use std::alloc::{AllocError, Global};

/// A list that is 0 but for one place.
fn only(alloc: Global, place: usize, number: Number) -> Result<Items<Number>, AllocError>
    ensures { IfOk result (λ list. list ≡ only place number) }
{
    let mut list = Items::new(alloc);
    for _ in 0..place {
        list.push(Number::zero())?;
    }
    list.push(number)?;
    Ok(list)
}

/// A number of a constraint, where it is within the limit.
fn limited(value: i128) -> Option<Number>
    ensures { result ≡ limited value }
{
    Number::new(value)
}

/// Coefficients with a term more, or less where `negative`.
fn with_term(
    alloc: Global,
    atoms: &[Atom],
    negative: bool,
    coefficients: &[Number],
    term: &Term,
) -> Result<Option<Items<Number>>, AllocError>
    ensures { IfOk result (λ o. o ≡ with_term atoms.now (sign_of negative) coefficients.now term.now) }
{
    match limited(term.coefficient) {
        None => Ok(None),
        Some(value) => {
            let value = if negative { value.negated() } else { value };
            let more = only(alloc, place_in(atoms, &term.atom), value)?;
            added(alloc, coefficients, more.as_slice())
        }
    }
}

/// Coefficients with several terms more, or less where `negative`.
fn with_terms(
    alloc: Global,
    atoms: &[Atom],
    negative: bool,
    first: Items<Number>,
    terms: &[Term],
) -> Result<Option<Items<Number>>, AllocError>
    ensures { IfOk result (λ o. o ≡ with_terms atoms.now (sign_of negative) first terms.now) }
{
    let mut coefficients = first;
    for term in terms {
        match with_term(alloc, atoms, negative, coefficients.as_slice(), term)? {
            None => return Ok(None),
            Some(more) => coefficients = more,
        }
    }
    Ok(Some(coefficients))
}

/// The row of `t + k <= u`, where `k` is 1 if `strict`, else 0.
fn at_most(
    alloc: Global,
    atoms: &[Atom],
    strict: bool,
    left: &Num,
    right: &Num,
) -> Result<Option<Row>, AllocError>
    ensures { IfOk result (λ o. o ≡ at_most atoms.now (gap_of strict) left.now right.now) }
{
    match with_terms(
        alloc,
        atoms,
        false,
        Items::new(alloc),
        left.terms.as_slice(),
    )? {
        None => Ok(None),
        Some(half) => match with_terms(alloc, atoms, true, half, right.terms.as_slice())? {
            None => Ok(None),
            Some(coefficients) => match bound_of(strict, left.constant, right.constant) {
                None => Ok(None),
                Some(bound) => Ok(Some(Row {
                    coefficients,
                    bound,
                })),
            },
        },
    }
}

/// The right constant less the left one and, if `strict`, 1.
fn bound_of(strict: bool, left: i128, right: i128) -> Option<Number>
    ensures { result ≡ bound_of (gap_of strict) left right }
{
    match limited(left) {
        None => None,
        Some(first) => match plus(
            first,
            if strict {
                Number::one()
            } else {
                Number::zero()
            },
        ) {
            None => None,
            Some(whole) => match limited(right) {
                None => None,
                Some(second) => less(second, whole),
            },
        },
    }
}

/// A sum within the limit.
fn plus(first: Number, second: Number) -> Option<Number>
    ensures { result ≡ limited (first +ℤ second) }
{
    first.plus(second)
}

/// A difference within the limit.
fn less(first: Number, second: Number) -> Option<Number>
    ensures { result ≡ limited (first -ℤ second) }
{
    first.less(second)
}

/// A choice of one row.
fn row_choice(alloc: Global, row: Option<Row>) -> Result<Option<Choice>, AllocError>
    ensures { IfOk result (λ o. o ≡ row_choice row) }
{
    match row {
        None => Ok(None),
        Some(row) => {
            let mut rows = Items::new(alloc);
            rows.push(row)?;
            Ok(Some(Choice::Rows(rows)))
        }
    }
}

/// A choice of two rows, both of them.
fn two_rows(
    alloc: Global,
    first: Option<Row>,
    second: Option<Row>,
) -> Result<Option<Choice>, AllocError>
    ensures { IfOk result (λ o. o ≡ two_rows first second) }
{
    match first {
        None => Ok(None),
        Some(first) => match second {
            None => Ok(None),
            Some(second) => {
                let mut rows = Items::new(alloc);
                rows.push(first)?;
                rows.push(second)?;
                Ok(Some(Choice::Rows(rows)))
            }
        },
    }
}

/// A choice of two rows, one of them.
fn either_row(
    alloc: Global,
    first: Option<Row>,
    second: Option<Row>,
) -> Result<Option<Choice>, AllocError>
    ensures { IfOk result (λ o. o ≡ either_row first second) }
{
    match first {
        None => Ok(None),
        Some(first) => match second {
            None => Ok(None),
            Some(second) => {
                let mut choices = Items::new(alloc);
                choices.push(one_row(alloc, first)?)?;
                choices.push(one_row(alloc, second)?)?;
                Ok(Some(Choice::Any(choices)))
            }
        },
    }
}

/// The choice of one row that is there.
fn one_row(alloc: Global, row: Row) -> Result<Choice, AllocError>
    ensures { IfOk result (λ c. c ≡ Choice.Rows (row ∷ [])) }
{
    let mut rows = Items::new(alloc);
    rows.push(row)?;
    Ok(Choice::Rows(rows))
}

/// What makes a comparison true.
fn compared(
    alloc: Global,
    atoms: &[Atom],
    how: Comparison,
    left: &Num,
    right: &Num,
) -> Result<Option<Choice>, AllocError>
    ensures { IfOk result (λ o. o ≡ compared atoms.now how left.now right.now) }
{
    match how {
        Comparison::Less => row_choice(alloc, at_most(alloc, atoms, true, left, right)?),
        Comparison::LessEqual => row_choice(alloc, at_most(alloc, atoms, false, left, right)?),
        Comparison::Equal => two_rows(
            alloc,
            at_most(alloc, atoms, false, left, right)?,
            at_most(alloc, atoms, false, right, left)?,
        ),
        Comparison::NotEqual => either_row(
            alloc,
            at_most(alloc, atoms, true, left, right)?,
            at_most(alloc, atoms, true, right, left)?,
        ),
        Comparison::GreaterEqual => row_choice(alloc, at_most(alloc, atoms, false, right, left)?),
        Comparison::Greater => row_choice(alloc, at_most(alloc, atoms, true, right, left)?),
    }
}

/// The comparison that is true where this one is false.
fn opposite(how: Comparison) -> Comparison
    ensures { result ≡ opposite how }
{
    match how {
        Comparison::Less => Comparison::GreaterEqual,
        Comparison::LessEqual => Comparison::Greater,
        Comparison::Equal => Comparison::NotEqual,
        Comparison::NotEqual => Comparison::Equal,
        Comparison::GreaterEqual => Comparison::Less,
        Comparison::Greater => Comparison::LessEqual,
    }
}

/// A row without variables that is true or isn't.
fn truth_choice(alloc: Global, truth: bool) -> Result<Choice, AllocError>
    ensures { IfOk result (λ c. c ≡ Choice.Rows (truth_row truth ∷ [])) }
{
    let bound = if truth {
        Number::zero()
    } else {
        Number::one().negated()
    };
    one_row(
        alloc,
        Row {
            coefficients: Items::new(alloc),
            bound,
        },
    )
}

/// The row of a Bool variable that is true or isn't.
fn holds_choice(
    alloc: Global,
    atoms: &[Atom],
    variable: u32,
    truth: bool,
) -> Result<Choice, AllocError>
    ensures { IfOk result (λ c. c ≡ Choice.Rows (holds_row (place_of atoms.now (Atom.Variable variable)) truth ∷ [])) }
{
    let place = place_in(atoms, &Atom::Variable(variable));
    if truth {
        let coefficients = only(alloc, place, Number::one().negated())?;
        one_row(
            alloc,
            Row {
                coefficients,
                bound: Number::one().negated(),
            },
        )
    } else {
        let coefficients = only(alloc, place, Number::one())?;
        one_row(
            alloc,
            Row {
                coefficients,
                bound: Number::zero(),
            },
        )
    }
}

/// Each value of a set compared with a number.
fn each_value(
    alloc: Global,
    atoms: &[Atom],
    how: Comparison,
    number: &Num,
    values: &[i128],
) -> Result<Option<Items<Choice>>, AllocError>
    ensures { IfOk result (λ o. o ≡ all_of (map (λ z. compared atoms.now how number.now (num [] z)) values.now)) }
{
    let mut choices = Items::new(alloc);
    for value in values {
        match compared(alloc, atoms, how, number, &Num::constant(alloc, *value))? {
            None => return Ok(None),
            Some(choice) => choices.push(choice)?,
        }
    }
    Ok(Some(choices))
}

/// All of several choices, if they are there.
fn all_choices(parts: Option<Items<Choice>>) -> Option<Choice>
    ensures { result ≡ all_parts parts }
{
    match parts {
        None => None,
        Some(parts) => Some(Choice::All(parts)),
    }
}

/// One of several choices, if they are there.
fn any_choice(parts: Option<Items<Choice>>) -> Option<Choice>
    ensures { result ≡ any_part parts }
{
    match parts {
        None => None,
        Some(parts) => Some(Choice::Any(parts)),
    }
}

/// All of several choices, or one of them.
fn joined(all: bool, parts: Option<Items<Choice>>) -> Option<Choice>
    ensures { result ≡ (if all then all_parts parts else any_part parts) }
{
    if all {
        all_choices(parts)
    } else {
        any_choice(parts)
    }
}

/// What makes a number one of a set, or none of it.
fn among(
    alloc: Global,
    atoms: &[Atom],
    truth: bool,
    number: &Num,
    values: &[i128],
) -> Result<Option<Choice>, AllocError>
    ensures { IfOk result (λ o. o ≡ among atoms.now number.now values.now truth) }
{
    if truth {
        let choices = each_value(alloc, atoms, Comparison::Equal, number, values)?;
        Ok(any_choice(choices))
    } else {
        let choices = each_value(alloc, atoms, Comparison::NotEqual, number, values)?;
        Ok(all_choices(choices))
    }
}

/// What makes a constraint over these variables true, or false where not `truth`, or `None` where a number of a row is past
/// 2^127 - 1 in size, on the way too. The one error is want of memory.
#[cycle(choosing)]
pub fn choose(
    alloc: Global,
    con: &Con,
    truth: bool,
    atoms: &[Atom],
) -> Result<Option<Choice>, AllocError>
    ensures { IfOk result (λ o. o ≡ choice_of atoms.now con.now truth) }
{
    match con {
        Con::Truth(value) => Ok(Some(truth_choice(alloc, if truth { *value } else { !*value })?)),
        Con::Holds(variable) => Ok(Some(holds_choice(alloc, atoms, *variable, truth)?)),
        Con::Compare(how, left, right) => compared(
            alloc,
            atoms,
            if truth { *how } else { opposite(*how) },
            left,
            right,
        ),
        Con::OneOf(number, values) => among(alloc, atoms, truth, number, values.as_slice()),
        Con::Not(part) => choose(alloc, part.get(), !truth, atoms),
        Con::All(parts) => Ok(joined(truth, choose_each(alloc, parts.as_slice(), truth, atoms)?)),
        Con::Any(parts) => Ok(joined(!truth, choose_each(alloc, parts.as_slice(), truth, atoms)?)),
    }
}

/// What makes each of several constraints true, or false.
#[cycle(choosing)]
pub fn choose_each(
    alloc: Global,
    cons: &[Con],
    truth: bool,
    atoms: &[Atom],
) -> Result<Option<Items<Choice>>, AllocError>
    ensures { IfOk result (λ o. o ≡ all_of (map (λ con. choice_of atoms.now con truth) cons.now)) }
{
    let mut choices = Items::new(alloc);
    for con in cons {
        match choose(alloc, con, truth, atoms)? {
            None => return Ok(None),
            Some(choice) => choices.push(choice)?,
        }
    }
    Ok(Some(choices))
}
