//! Models whose tables are whole.
use crate::models::{function, here, model, parameter};
use crate::tables::{bits_of_any_width, call, numbers, widths_by_range};
use sail_base::{Boxed, Items, Text, Word};
use sail_core::{Callee, Core, CoreModel, Kind, Literal};
use sail_types::{Con, Num, Row, Typ};
use sized_models::sized_core;
use sized_nodes::SizedCore;
use std::alloc::{AllocError, Global};
use std::test::Fail;
use tabled_models::core_tabled;

/// `{'n, 'n in {8, 16}. bits('n)}`
fn bits_of_some_widths(alloc: Global) -> Result<Typ, AllocError> {
    let mut widths = Items::new(alloc);
    widths.push(8)?;
    widths.push(16)?;
    let among = Con::OneOf(Num::variable(alloc, 0)?, widths);
    let bits = Boxed::new(alloc, Typ::Bits(Num::variable(alloc, 0)?))?;
    Ok(Typ::Exists(Text::new(alloc, "'n")?, among, bits))
}

/// A function of bits of some widths with this body and this type of its result; and `step() = f(0x00)`, of the same type.
fn taking_some_widths(
    alloc: Global,
    body: Core,
    gives: Typ,
    again: Typ,
) -> Result<CoreModel, AllocError> {
    let mut parameters = Items::new(alloc);
    parameters.push(bits_of_some_widths(alloc)?)?;
    let first = function(alloc, Items::new(alloc), parameters, gives, body)?;
    let zero = Kind::Constant(Literal::Bits(Word::new(8, 0)));
    let zero = Core::leaf(alloc, here(), 4, zero);
    let body = call(alloc, 3, Callee::Function(0), zero)?;
    model(alloc, first, again, body)
}

/// `f : {'n, 'n in {8, 16}. bits('n)} -> range(0, 128)`, `f(x) = length(x)`, by the builtin.
fn widths_that_values_tell(alloc: Global) -> Result<CoreModel, AllocError> {
    let body = call(alloc, 3, Callee::Row(Row::Length), parameter(alloc, 5)?)?;
    taking_some_widths(alloc, body, numbers(alloc), numbers(alloc))
}

/// The same with a result of some width, `f(x) = x`.
fn widths_that_results_tell(alloc: Global) -> Result<CoreModel, AllocError> {
    let gives = bits_of_some_widths(alloc)?;
    let again = bits_of_some_widths(alloc)?;
    taking_some_widths(alloc, parameter(alloc, 5)?, gives, again)
}

/// How many types the first parameter of the instance at a place has; none where there is no such.
fn types_at(sized: &SizedCore, place: usize) -> Option<usize> {
    match sized.instances.get(place) {
        None => None,
        Some(instance) => match &instance.signature {
            None => None,
            Some(signature) => match signature.parameters.get(0) {
                None => None,
                Some(told) => Some(told.cases.len()),
            },
        },
    }
}

#[test]
fn tables_are_whole(rt: HostRuntime) -> Result<(), Fail> {
    let alloc = rt.alloc();
    assert!(rt; core_tabled(alloc, true, &bits_of_any_width(alloc)?)?);
    assert!(rt; core_tabled(alloc, true, &widths_by_range(alloc)?)?);
    assert!(rt; core_tabled(alloc, true, &widths_that_values_tell(alloc)?)?);
    assert!(rt; core_tabled(alloc, true, &widths_that_results_tell(alloc)?)?);
    Ok(())
}

/// The function stands third, behind `reset` and `step`.
#[test]
fn parameters_have_a_type_for_each_width(rt: HostRuntime) -> Result<(), Fail> {
    let alloc = rt.alloc();
    match sized_core(alloc, &widths_that_values_tell(alloc)?) {
        Ok(sized) => assert!(rt; types_at(&sized, 2) == Some(2)),
        Err(_) => assert!(rt; false),
    }
    Ok(())
}
