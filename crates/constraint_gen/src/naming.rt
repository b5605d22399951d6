//! Names of variables.
ghost use Rattle.std.specs.Prelude.{◌≡◌, ◌<◌, ◌+◌, ◌^◌, IfOk, IsTrue, OnOk, length, replicate, slice_get};
ghost use Rattle.value_indices.specs.Walking.{begun, steps_read};
ghost use Rattle.constraint_gen.specs.Obligations as owing;
ghost use Rattle.constraint_gen.specs.Reading as spec;

use itoa::Buffer;
use sail_base::{Items, Text};
use std::alloc::{AllocError, Global};
use value_indices::Step;

/// So many variables without a name. It fails where memory is wanting.
fn nameless(alloc: Global, count: u32) -> Result<Items<Option<Text>>, AllocError>
    ensures { IfOk result (λ names. names ≡ replicate count None) }
{
    let mut names = Items::new(alloc);
    for _at in 0..count {
        names.push(None)?;
    }
    Ok(names)
}

/// Whether there is a variable of this number, and it has no name.
fn is_unnamed(names: &Items<Option<Text>>, at: usize) -> bool
    ensures unnamed { result ≡ spec.is_unnamed (slice_get names.now at) }
    ensures within { IsTrue result → at < length names.now }
{
    match names.get(at) {
        Some(None) => true,
        _ => false,
    }
}

/// Gives a variable its name, unless it has one. The one error is want of memory.
#[tactic(auto, using(crate::proofs::OwnNames::put_there, crate::proofs::OwnNames::put_again))]
fn put_name(names: &mut Items<Option<Text>>, at: usize, name: &Text) -> Result<(), AllocError>
    ensures { OnOk result (names.new ≡ spec.put_name at name.now names.old) }
{
    if is_unnamed(names, at) {
        names.set(at, Some(name.clone()?));
    }
    Ok(())
}

/// Gives a variable the name that a step gives it, unless it has one. The one error is want of memory.
fn name_step(names: &mut Items<Option<Text>>, step: &Step) -> Result<(), AllocError>
    ensures { OnOk result (names.new ≡ spec.name_step step.now names.old) }
{
    match step {
        Step::Names(variable, name) => put_name(names, *variable as usize, name),
        _ => Ok(()),
    }
}

/// The names that steps give to so many variables, by their numbers. It fails where memory is wanting.
fn own_names(alloc: Global, count: u32, steps: &[Step]) -> Result<Items<Option<Text>>, AllocError>
    ensures { IfOk result (λ names. names ≡ spec.name_steps steps.now (replicate count None)) }
{
    let mut names = nameless(alloc, count)?;
    for step in steps {
        name_step(&mut names, step)?;
    }
    Ok(names)
}

/// The name of the variable of this number, from 1, among those without one. It fails where memory is wanting.
fn numbered_name(alloc: Global, number: u32) -> Result<Text, AllocError>
    ensures { IfOk result (λ name. name ≡ owing.numbered_name number) }
{
    let mut buffer = Buffer::new();
    let mut name = String::from_str(alloc, "#")?;
    name.push_str(buffer.format(number as i128))?;
    Text::new(alloc, name.as_str())
}

/// A variable's name, behind so many without one. It fails where memory is wanting.
fn name_or(alloc: Global, own: &Option<Text>, unnamed: u32) -> Result<Text, AllocError>
    requires { unnamed + 1 < 2 ^ 32 }
    ensures { IfOk result (λ name. name ≡ spec.name_or own.now unnamed) }
{
    match own {
        Some(name) => name.clone(),
        None => numbered_name(alloc, unnamed + 1),
    }
}

/// How many variables have no name, with this one.
fn counted(own: &Option<Text>, unnamed: u32) -> u32
    requires { unnamed + 1 < 2 ^ 32 }
    ensures { result ≡ spec.counted own.now unnamed }
{
    match own {
        Some(_) => unnamed,
        None => unnamed + 1,
    }
}

/// The names of variables: their own, else `#k`, the k-th without one. It fails where memory is wanting.
fn names_behind(alloc: Global, owns: &[Option<Text>]) -> Result<Items<Text>, AllocError>
    requires { length owns.now < 2 ^ 32 }
    ensures { IfOk result (λ names. names ≡ spec.names_behind 0 owns.now) }
{
    let mut names = Items::new(alloc);
    let mut unnamed: u32 = 0;
    for own in owns {
        let name = name_or(alloc, own, unnamed)?;
        names.push(name)?;
        let more = counted(own, unnamed);
        unnamed = more;
    }
    Ok(names)
}

/// The names of so many variables, by their numbers: their own, else `#k`, the k-th without one. It fails where memory is wanting.
pub fn names_of(alloc: Global, count: u32, steps: &[Step]) -> Result<Items<Text>, AllocError>
    ensures { IfOk result (λ names. names ≡ owing.names_of count (steps_read (begun 0) steps.now).notes) }
{
    let owns = own_names(alloc, count, steps)?;
    names_behind(alloc, owns.as_slice())
}
