ghost use Rattle.sail_kinds.specs.Scopes.{type_named};
ghost use Rattle.normal_forms.specs.Refusals.{AreKnown};

use crate::definitions::names;
use normal_forms::normal;
use sail_base::{Items, Kind, Place, Text};
use sail_kinds::{Binders, Mismatch, Scope, TableError, TypeNames, Variable};
use sail_syntax::build::{exists, type_infix, type_prefix};
use sail_syntax::{Name, TyExp, TypeOperator, TypePrefix};
use sail_types::{Typ, push_number};
use std::alloc::{AllocError, Global};
use std::test::Fail;
use type_arguments::Normal;

fn at(column: u32) -> Place {
    Place {
        file: 1,
        line: 1,
        column,
    }
}

fn number(column: u32, number: i128) -> TyExp {
    TyExp::Number(at(column), number)
}

fn variable(alloc: Global, column: u32, name: &str) -> Result<TyExp, AllocError> {
    Ok(TyExp::Variable(Name::new(alloc, at(column), name)?))
}

fn named(
    alloc: Global,
    column: u32,
    name: &str,
    arguments: Items<TyExp>,
) -> Result<TyExp, AllocError> {
    Ok(TyExp::Named(Name::new(alloc, at(column), name)?, arguments))
}

fn of_one(alloc: Global, column: u32, name: &str, argument: TyExp) -> Result<TyExp, AllocError> {
    let mut arguments = Items::new(alloc);
    arguments.push(argument)?;
    named(alloc, column, name, arguments)
}

fn of_two(alloc: Global, column: u32, name: &str, a: TyExp, b: TyExp) -> Result<TyExp, AllocError> {
    let mut arguments = Items::new(alloc);
    arguments.push(a)?;
    arguments.push(b)?;
    named(alloc, column, name, arguments)
}

fn kind_text(kind: Kind) -> &'static str {
    match kind {
        Kind::Int => "Int",
        Kind::Bool => "Bool",
        Kind::Type => "Type",
    }
}

/// Puts a refusal without its place, or what a text stands for, as far as the tests have it.
fn push_answer(
    out: &mut Vec<u8>,
    names: &[Text],
    answer: &Result<Normal, TableError>,
) -> Result<(), AllocError> {
    match answer {
        Ok(Normal::Number(number)) => push_number(out, names, number),
        Ok(Normal::Constraint(_)) => out.extend_from_slice(b"constraint"),
        Ok(Normal::Typ(Typ::Bits(width))) => {
            out.extend_from_slice(b"bits ")?;
            push_number(out, names, width)
        }
        Ok(Normal::Typ(Typ::Exists(_, _, _))) => out.extend_from_slice(b"exists"),
        Ok(Normal::Typ(_)) => out.extend_from_slice(b"type"),
        Err(TableError::Clash { name, .. }) => out.extend_from_slice(name.as_bytes()),
        Err(TableError::NoName { name, .. }) => out.extend_from_slice(name.as_bytes()),
        Err(
            TableError::IllKinded {
                mismatch: Some(Mismatch::Kinds(wanted, found)),
                ..
            },
        ) => {
            out.extend_from_slice(kind_text(*wanted).as_bytes())?;
            out.extend_from_slice(kind_text(*found).as_bytes())
        }
        Err(
            TableError::IllKinded {
                mismatch: Some(Mismatch::Counts(wanted, found)),
                ..
            },
        ) => {
            let is_one_for_two = *wanted == 1 && *found == 2;
            let text = if is_one_for_two { "1 for 2" } else { "other" };
            out.extend_from_slice(text.as_bytes())
        }
        Err(_) => out.extend_from_slice(b"refused"),
    }
}

/// The number of a refusal and its column, both 0 where there is none.
fn refusal(answer: &Result<Normal, TableError>) -> (u8, u32) {
    match answer {
        Ok(_) => (0, 0),
        Err(error) => (error.number(), error.place().column),
    }
}

/// What a text stands for under these parameters, where these types can be named.
fn answer(
    alloc: Global,
    typ: &TyExp,
    types: &TypeNames<'_>,
    parameters: &[Variable],
) -> Result<Normal, TableError>
    requires { AreKnown (type_named types.now) }
{
    let binders = Binders::Parameters(parameters);
    let scope = Scope::new(types, &binders);
    normal(alloc, typ, &scope)
}

fn push_parameter(
    alloc: Global,
    parameters: &mut Items<Variable>,
    name: &str,
    kind: Kind,
) -> Result<(), AllocError> {
    let name = Text::new(alloc, name)?;
    parameters.push(Variable { name, kind })
}

/// The parameters of a text: Ints 'n and 'm, a Bool 'p and a Type 'a.
fn parameters(alloc: Global) -> Result<Items<Variable>, AllocError> {
    let mut parameters = Items::new(alloc);
    push_parameter(alloc, &mut parameters, "'n", Kind::Int)?;
    push_parameter(alloc, &mut parameters, "'m", Kind::Int)?;
    push_parameter(alloc, &mut parameters, "'p", Kind::Bool)?;
    push_parameter(alloc, &mut parameters, "'a", Kind::Type)?;
    Ok(parameters)
}

/// Whether a text stands for this, or is refused by this number at this column (both 0 where it isn't refused) with this text.
fn is_read(
    alloc: Global,
    typ: TyExp,
    number: u8,
    column: u32,
    text: &str,
) -> Result<bool, AllocError> {
    let parameters = parameters(alloc)?;
    let mut names = Items::new(alloc);
    for name in "'n 'm 'p".split(' ') {
        names.push(Text::new(alloc, name)?)?;
    }
    let types = TypeNames::new(alloc);
    let answer = answer(alloc, &typ, &types, parameters.as_slice());
    let mut out = Vec::new(alloc);
    push_answer(&mut out, names.as_slice(), &answer)?;
    Ok(refusal(&answer) == (number, column) && out.as_slice() == text.as_bytes())
}

#[test]
fn numbers_are_read(rt: HostRuntime) -> Result<(), Fail> {
    let alloc = rt.alloc();
    let n = variable(alloc, 1, "'n")?;
    let twice = type_infix(alloc, at(3), TypeOperator::Star, number(1, 2), n)?;
    assert!(rt; is_read(alloc, twice, 0, 0, "2 * 'n")?);
    Ok(())
}

#[test]
fn powers_are_read(rt: HostRuntime) -> Result<(), Fail> {
    let alloc = rt.alloc();
    let n = variable(alloc, 1, "'n")?;
    let more = type_infix(alloc, at(4), TypeOperator::Plus, n, number(6, 1))?;
    let raised = type_prefix(alloc, at(3), TypePrefix::Power, more)?;
    assert!(rt; is_read(alloc, raised, 0, 0, "2 ^ ('n + 1)")?);
    let power = type_prefix(alloc, at(3), TypePrefix::Power, number(5, 126))?;
    assert!(rt; is_read(alloc, power, 0, 0, "85070591730234615865843651857942052864")?);
    Ok(())
}

#[test]
fn numbers_past_the_limits_are_refused(rt: HostRuntime) -> Result<(), Fail> {
    let alloc = rt.alloc();
    let n = variable(alloc, 1, "'n")?;
    let product = type_infix(
        alloc,
        at(4),
        TypeOperator::Star,
        n,
        variable(alloc, 6, "'m")?,
    )?;
    assert!(rt; is_read(alloc, product, 11, 4, "refused")?);
    Ok(())
}

#[test]
fn sums_and_powers_past_the_limits_are_refused(rt: HostRuntime) -> Result<(), Fail> {
    let alloc = rt.alloc();
    let largest = 85070591730234615865843651857942052864;
    let past = type_infix(
        alloc,
        at(9),
        TypeOperator::Plus,
        number(1, largest),
        number(11, 1),
    )?;
    assert!(rt; is_read(alloc, past, 11, 9, "refused")?);
    let high = type_prefix(alloc, at(3), TypePrefix::Power, number(5, 127))?;
    assert!(rt; is_read(alloc, high, 11, 3, "refused")?);
    Ok(())
}

#[test]
fn constraints_and_variables_are_read(rt: HostRuntime) -> Result<(), Fail> {
    let alloc = rt.alloc();
    let n = variable(alloc, 1, "'n")?;
    let less = type_infix(alloc, at(4), TypeOperator::Less, n, number(6, 9))?;
    assert!(rt; is_read(alloc, less, 0, 0, "constraint")?);
    assert!(rt; is_read(alloc, variable(alloc, 1, "'k")?, 10, 1, "'k")?);
    Ok(())
}

#[test]
fn existential_types_are_read(rt: HostRuntime) -> Result<(), Fail> {
    let alloc = rt.alloc();
    let inner = of_one(alloc, 9, "bits", variable(alloc, 14, "'k")?)?;
    let once = names(alloc, at(2), "'k")?;
    let some = exists(alloc, at(2), once, None, inner)?;
    assert!(rt; is_read(alloc, some, 0, 0, "exists")?);
    Ok(())
}

#[test]
fn variables_are_bound_once(rt: HostRuntime) -> Result<(), Fail> {
    let alloc = rt.alloc();
    let inner = of_one(alloc, 9, "bits", number(14, 1))?;
    let mut twice = names(alloc, at(2), "'k")?;
    twice.push(Name::new(alloc, at(99), "'k")?)?;
    let some = exists(alloc, at(2), twice, None, inner)?;
    assert!(rt; is_read(alloc, some, 9, 99, "'k")?);
    Ok(())
}

#[test]
fn wrong_arguments_are_refused(rt: HostRuntime) -> Result<(), Fail> {
    let alloc = rt.alloc();
    let negative = type_prefix(alloc, at(6), TypePrefix::Negate, number(7, 1))?;
    assert!(rt; is_read(alloc, of_one(alloc, 1, "bits", negative)?, 11, 1, "refused")?);
    let bit = named(alloc, 5, "bit", Items::new(alloc))?;
    assert!(rt; is_read(alloc, of_one(alloc, 1, "int", bit)?, 11, 5, "IntType")?);
    Ok(())
}

#[test]
fn wrong_counts_and_empty_ranges_are_refused(rt: HostRuntime) -> Result<(), Fail> {
    let alloc = rt.alloc();
    let truth = TyExp::Truth(at(6), true);
    let truths = of_two(alloc, 1, "bool", truth, TyExp::Truth(at(12), false))?;
    assert!(rt; is_read(alloc, truths, 11, 1, "1 for 2")?);
    let empty = of_two(alloc, 1, "range", number(7, 3), number(10, 2))?;
    assert!(rt; is_read(alloc, empty, 11, 1, "refused")?);
    Ok(())
}

#[test]
fn unknown_arguments_are_refused(rt: HostRuntime) -> Result<(), Fail> {
    let alloc = rt.alloc();
    let unknown = named(alloc, 6, "word", Items::new(alloc))?;
    assert!(rt; is_read(alloc, of_one(alloc, 1, "list", unknown)?, 10, 6, "word")?);
    Ok(())
}
