//! What the code of one function is made by.
ghost use Rattle.std.specs.Prelude.{◌≡◌, ◌+◌, ◌++◌, map, slice_get, IfOk, OnOk, if◌then◌else◌};
ghost use Rattle.std.specs.Option.{option_copied};
ghost use Rattle.std.specs.Str.{bytes_eq};
ghost use Rattle.sail_core.specs.Nodes.{giver_eq};
ghost use Rattle.sized_meanings.specs.Present.{gives_at, gives_in};
ghost use Rattle.sized_meanings.specs.Sized.{joined_nodes};
ghost use Rattle.lowered_types.specs.Table.{type_in};
ghost use Rattle.lowered_pieces.specs.Nodes.{cases_at, leads_at, takes_many};
ghost use Rattle.lowered_steps.specs.Setting.{nodes_in, reads_at};
ghost use Rattle.lowered_steps.specs.Found as spec;

use sail_base::{Items, Text};
use sail_core::Giver;
use sail_types::Types;
use size_values::{Sized, same_sized};
use sized_nodes::{Case, Lead, NodeSizes};
use std::alloc::{AllocError, Global};
use value_indices::Indices;

/// The types at which variables of a name are read.
#[derive(Drop)]
pub struct Reads {
    /// The name.
    pub name: Text,
    /// The types.
    pub types: Items<Sized>,
}

/// A direction of a mapping, which is a function that gives an option.
#[derive(Drop)]
pub struct Mapped {
    /// The number of the function.
    pub function: u32,
    /// The type of what it takes.
    pub takes: Sized,
    /// The type of the option that it gives.
    pub gives: Sized,
    /// That of the option's payload.
    pub payload: Sized,
}

/// What the code of one function is made by.
#[derive(Clone, Copy)]
pub struct Setting<'a> {
    /// The model's named types.
    pub types: &'a Types,
    /// The types that have a number in the module's table, in order.
    pub numbered: &'a [Sized],
    /// The number of `()`.
    pub unit: u32,
    /// That of truths.
    pub truth: u32,
    /// That of integers.
    pub integer: u32,
    /// That of exceptions.
    pub exception: u32,
    /// The type of `()`.
    pub nothing: &'a Sized,
    /// That of truths.
    pub truths: &'a Sized,
    /// What is constant at the nodes of the function's trees.
    pub bodies: &'a [Items<NodeSizes>],
    /// The numbers of the function's own variables, where they are known.
    pub numbers: &'a [Option<i128>],
    /// The types at which the function's variables are read, once for each name.
    pub reads: &'a [Reads],
    /// The directions of mappings.
    pub directions: &'a [Mapped],
}

/// The number of the first type that is this one; where there is none, how many there are.
pub fn find(typ: &Sized, numbered: &[Sized]) -> usize
    ensures { result ≡ type_in numbered.now typ.now }
{
    for at in 0..numbered.len() {
        if same_sized(&numbered[at], typ) {
            return at;
        }
    }
    numbered.len()
}

/// A count as a number. It fails where it is 2^32 or more, which is long after memory does.
pub fn as_number(count: usize) -> Result<u32, AllocError>
    ensures { IfOk result (λ number. number ≡ count) }
{
    match u32::try_from(count) {
        Ok(number) => Ok(number),
        Err(_) => Err(AllocError),
    }
}

/// A number of places further on. It fails where numbers end, which is long after memory does.
pub fn further(number: u32, count: u32) -> Result<u32, AllocError>
    ensures { IfOk result (λ next. next ≡ number + count) }
{
    match number.checked_add(count) {
        Some(next) => Ok(next),
        None => Err(AllocError),
    }
}

/// Whether one of the cases takes so many operands.
fn takes_so_many(count: usize, cases: &[Case]) -> bool
    ensures { result ≡ takes_many count cases.now }
{
    for case in cases {
        if case.takes.len() == count {
            return true;
        }
    }
    false
}

/// The cases that are said here of a node where it takes so many operands; none where something else is.
fn cases_here(node: u32, count: usize, sizes: &NodeSizes) -> Option<&[Case]>
    ensures { option_copied result ≡ spec.cases_here node count sizes.now }
{
    match sizes {
        NodeSizes::Makes(number, _, cases) => {
            if *number == node && takes_so_many(count, cases.as_slice()) {
                Some(cases.as_slice())
            } else {
                None
            }
        }
        NodeSizes::Calls(_, _) => None,
        NodeSizes::Gives(_, _) => None,
    }
}

/// The cases of a node where it takes so many operands, among those of one tree.
fn cases_in(node: u32, count: usize, nodes: &[NodeSizes]) -> Option<&[Case]>
    ensures { option_copied result ≡ spec.cases_found node count nodes.now }
{
    for sizes in nodes {
        if let Some(cases) = cases_here(node, count, sizes) {
            return Some(cases);
        }
    }
    None
}

/// The cases of a node where it takes so many operands.
fn cases_of(node: u32, count: usize, bodies: &[Items<NodeSizes>]) -> &[Case]
    ensures { result.now ≡ cases_at node count (joined_nodes bodies.now) }
{
    match bodies {
        [] => &[],
        [body, rest @ ..] => match cases_in(node, count, body.as_slice()) {
            Some(cases) => cases,
            None => cases_of(node, count, rest),
        },
    }
}

/// Where the calls of a node lead, as it is said here; none where something else is.
fn leads_here(node: u32, sizes: &NodeSizes) -> Option<&[Lead]>
    ensures { option_copied result ≡ spec.leads_here node sizes.now }
{
    match sizes {
        NodeSizes::Calls(number, leads) => {
            if *number == node {
                Some(leads.as_slice())
            } else {
                None
            }
        }
        NodeSizes::Makes(_, _, _) => None,
        NodeSizes::Gives(_, _) => None,
    }
}

/// Where the calls of a node lead, among those of one tree.
fn leads_in(node: u32, nodes: &[NodeSizes]) -> Option<&[Lead]>
    ensures { option_copied result ≡ spec.leads_found node nodes.now }
{
    for sizes in nodes {
        if let Some(leads) = leads_here(node, sizes) {
            return Some(leads);
        }
    }
    None
}

/// Where the calls of a node lead.
fn leads_of(node: u32, bodies: &[Items<NodeSizes>]) -> &[Lead]
    ensures { result.now ≡ leads_at node (joined_nodes bodies.now) }
{
    match bodies {
        [] => &[],
        [body, rest @ ..] => match leads_in(node, body.as_slice()) {
            Some(leads) => leads,
            None => leads_of(node, rest),
        },
    }
}

/// Whether two givers are one.
fn same_giver(giver: Giver, other: Giver) -> bool
    ensures { result ≡ giver_eq giver other }
{
    match giver {
        Giver::Node(node) => match other {
            Giver::Node(another) => node == another,
            Giver::Arm(_, _) => false,
        },
        Giver::Arm(node, behind) => match other {
            Giver::Arm(another, after) => node == another && behind == after,
            Giver::Node(_) => false,
        },
    }
}

/// What is said here of a giver's numbers, behind what was found before. It fails where memory is wanting.
fn push_gives<'a>(
    found: &mut Items<&'a Indices>,
    giver: Giver,
    sizes: &'a NodeSizes,
) -> Result<(), AllocError>
    ensures { OnOk result (map spec.indices_of found.new ≡ map spec.indices_of found.old ++ gives_in giver sizes.now) }
{
    match sizes {
        NodeSizes::Gives(other, indices) => {
            if same_giver(giver, *other) {
                found.push(indices)
            } else {
                Ok(())
            }
        }
        NodeSizes::Makes(_, _, _) => Ok(()),
        NodeSizes::Calls(_, _) => Ok(()),
    }
}

/// What is said of a giver's numbers in one tree, behind what was found before. It fails where memory is wanting.
fn list_gives<'a>(
    found: &mut Items<&'a Indices>,
    giver: Giver,
    nodes: &'a [NodeSizes],
) -> Result<(), AllocError>
    ensures { OnOk result (map spec.indices_of found.new ≡ map spec.indices_of found.old ++ gives_at nodes.now giver) }
{
    for sizes in nodes {
        push_gives(found, giver, sizes)?;
    }
    Ok(())
}

/// So in all trees. It fails where memory is wanting.
fn list_all_gives<'a>(
    found: &mut Items<&'a Indices>,
    giver: Giver,
    bodies: &'a [Items<NodeSizes>],
) -> Result<(), AllocError>
    ensures { OnOk result (map spec.indices_of found.new ≡ map spec.indices_of found.old ++ gives_at (joined_nodes bodies.now) giver) }
{
    match bodies {
        [] => Ok(()),
        [body, rest @ ..] => {
            list_gives(found, giver, body.as_slice())?;
            list_all_gives(found, giver, rest)
        }
    }
}

/// Whether reads are of a name.
fn is_of(reads: &Reads, name: &Text) -> bool
    ensures { result ≡ bytes_eq reads.now.name name.now }
{
    reads.name == *name
}

/// The types of reads of a name; of others these.
fn types_or<'a>(reads: &'a Reads, name: &Text, others: &'a [Sized]) -> &'a [Sized]
    ensures { result.now ≡ (if bytes_eq reads.now.name name.now then reads.now.types else others.now) }
{
    let same = is_of(reads, name);
    if same { reads.types.as_slice() } else { others }
}

/// The types at which variables of a name are read; none where none is said.
fn reads_of<'a>(name: &Text, reads: &'a [Reads]) -> &'a [Sized]
    ensures { result.now ≡ reads_at reads.now name.now }
{
    match reads {
        [] => &[],
        [first, rest @ ..] => {
            let others = reads_of(name, rest);
            types_or(first, name, others)
        }
    }
}

impl<'a> Setting<'a> {
    /// The types at which variables of a name are read.
    pub fn reads_as(&self, name: &Text) -> &'a [Sized]
        ensures { result.now ≡ reads_at self.now.reads.now name.now }
    {
        reads_of(name, self.reads)
    }

    /// A direction of a mapping; none where there is no such direction.
    pub fn direction(&self, direction: u32) -> Option<&'a Mapped>
        ensures { option_copied result ≡ slice_get self.now.directions.now direction }
    {
        self.directions.get(direction as usize)
    }

    /// The number of a type. It fails where there are 2^32 types or more.
    pub fn number(&self, typ: &Sized) -> Result<u32, AllocError>
        ensures { IfOk result (λ number. number ≡ type_in self.now.numbered.now typ.now) }
    {
        as_number(find(typ, self.numbered))
    }

    /// The cases of a node where it takes so many operands.
    pub fn cases(&self, node: u32, count: usize) -> &'a [Case]
        ensures { result.now ≡ cases_at node count (nodes_in self.now) }
    {
        cases_of(node, count, self.bodies)
    }

    /// Where the calls of a node lead.
    pub fn leads(&self, node: u32) -> &'a [Lead]
        ensures { result.now ≡ leads_at node (nodes_in self.now) }
    {
        leads_of(node, self.bodies)
    }

    /// What is said of a giver's numbers. It fails where memory is wanting.
    pub fn gives(&self, alloc: Global, giver: Giver) -> Result<Items<&'a Indices>, AllocError>
        ensures { IfOk result (λ found. map spec.indices_of found ≡ gives_at (nodes_in self.now) giver) }
    {
        let mut found = Items::new(alloc);
        list_all_gives(&mut found, giver, self.bodies)?;
        Ok(found)
    }
}
