//! What a model is worked out for.
ghost use Rattle.std.specs.Prelude.{◌≡◌, ◌≤◌, ◌++◌, IfOk, OnOk, length};
ghost use Rattle.std.specs.List.{list_any};
ghost use Rattle.monomorph.specs.Found as spec;
ghost use Rattle.monomorph.specs.declared.found.Found.TheVariants as F;

use crate::error::MonoError;
use sail_base::{Items, Place};
use size_values::{Sized, copy_all_sized, same_all, same_numbers};
use sized_nodes::Instance;
use std::alloc::{AllocError, Global};

/// What is found, and read.
pub enum Found {
    /// A function, for numbers and types.
    Function(Instance),
    /// A mapping, by its place among mappings. It is no instance.
    Mapping(u32),
}

impl Drop for Found {
    fn drop(self) {
        match self {
            Found::Function(_) => {}
            Found::Mapping(_) => {}
        }
    }
}

impl Found {
    /// The instance, if it is one.
    fn into_instance(self) -> Option<Instance>
        ensures { result ≡ spec.into_instance self }
    {
        match self {
            Found::Function(instance) => Some(instance),
            Found::Mapping(_) => None,
        }
    }
}

/// The same instance once more. It fails where memory is wanting.
pub fn copy_instance(alloc: Global, instance: &Instance) -> Result<Instance, AllocError>
    ensures { IfOk result (λ copy. copy ≡ instance.now) }
{
    let numbers = Items::from_slice(alloc, instance.numbers.as_slice())?;
    let types = copy_all_sized(alloc, instance.types.as_slice())?;
    Ok(Instance {
        function: instance.function,
        numbers,
        types,
    })
}

/// The same once more. It fails where memory is wanting.
pub fn copy_found(alloc: Global, found: &Found) -> Result<Found, AllocError>
    ensures { IfOk result (λ copy. copy ≡ found.now) }
{
    match found {
        Found::Function(instance) => Ok(Found::Function(copy_instance(alloc, instance)?)),
        Found::Mapping(mapping) => Ok(Found::Mapping(*mapping)),
    }
}

/// Whether two instances are the same.
pub fn same_instance(first: &Instance, second: &Instance) -> bool
    ensures { result ≡ spec.instance_eq first.now second.now }
{
    if first.function != second.function {
        return false;
    }
    if !same_numbers(first.numbers.as_slice(), second.numbers.as_slice()) {
        return false;
    }
    same_all(first.types.as_slice(), second.types.as_slice())
}

/// Whether this is a function for just that.
fn is_instance(found: &Found, instance: &Instance) -> bool
    ensures { result ≡ spec.found_eq (F.Function instance.now) found.now }
{
    match found {
        Found::Function(other) => same_instance(instance, other),
        Found::Mapping(_) => false,
    }
}

/// Whether an instance is found already.
fn has_instance(found: &[Found], instance: &Instance) -> bool
    ensures { result ≡ list_any (spec.found_eq (F.Function instance.now)) found.now }
{
    for other in found {
        if is_instance(other, instance) {
            return true;
        }
    }
    false
}

/// Whether this is that mapping.
fn is_mapping(found: &Found, mapping: u32) -> bool
    ensures { result ≡ spec.found_eq (F.Mapping mapping) found.now }
{
    match found {
        Found::Function(_) => false,
        Found::Mapping(other) => mapping == *other,
    }
}

/// Whether a mapping is found already.
fn has_mapping(found: &[Found], mapping: u32) -> bool
    ensures { result ≡ list_any (spec.found_eq (F.Mapping mapping)) found.now }
{
    for other in found {
        if is_mapping(other, mapping) {
            return true;
        }
    }
    false
}

/// How many instances this is.
fn count_one(found: &Found) -> usize
    ensures count { result ≡ length (spec.instance_in found.now) }
    ensures within { result ≤ 1 }
{
    match found {
        Found::Function(_) => 1,
        Found::Mapping(_) => 0,
    }
}

/// How many instances there are.
fn count(found: &[Found]) -> usize
    ensures { result ≡ length (spec.instances_in found.now) }
{
    let mut count = 0;
    for one in found {
        count += count_one(one);
    }
    count
}

/// Adds an instance, unless it is there: what is refused, where there are too many. It fails where memory is wanting.
pub fn add(
    found: &mut Items<Found>,
    place: Place,
    instance: Instance,
) -> Result<Option<MonoError>, AllocError>
    ensures { IfOk result (λ refused. spec.outcome refused found.new ≡ spec.add place instance found.old) }
{
    if has_instance(found.as_slice(), &instance) {
        return Ok(None);
    }
    if count(found.as_slice()) >= 4096 {
        return Ok(Some(MonoError::InstanceLimit(place, 4097)));
    }
    found.push(Found::Function(instance))?;
    Ok(None)
}

/// Adds a mapping, unless it is there. It fails where memory is wanting.
pub fn add_mapping(found: &mut Items<Found>, mapping: u32) -> Result<(), AllocError>
    ensures { OnOk result (found.new ≡ spec.add_mapping mapping found.old) }
{
    if has_mapping(found.as_slice(), mapping) {
        return Ok(());
    }
    found.push(Found::Mapping(mapping))
}

/// Puts what is found, if it is an instance. It fails where memory is wanting.
fn put_instance(made: &mut Items<Instance>, found: Found) -> Result<(), AllocError>
    ensures { OnOk result (made.new ≡ made.old ++ spec.instance_in found) }
{
    match found.into_instance() {
        Some(instance) => made.push(instance),
        None => Ok(()),
    }
}

/// The instances among what is found. It fails where memory is wanting.
pub fn instances_in(alloc: Global, found: Items<Found>) -> Result<Items<Instance>, AllocError>
    ensures { IfOk result (λ made. made ≡ spec.instances_in found) }
{
    let mut made = Items::new(alloc);
    for one in found.into_vec() {
        put_instance(&mut made, one)?;
    }
    Ok(made)
}
