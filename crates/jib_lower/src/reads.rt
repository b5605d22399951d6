//! The types at which a function's variables are read.
//!
//! What is lowered asks of each node that reads a variable that its types are among these.
ghost use Rattle.std.specs.Prelude.{◌≡◌, [], ◌∷◌, ◌++◌, map, IfOk, OnOk, if◌then◌else◌};
ghost use Rattle.std.specs.Str.{bytes_eq};
ghost use Rattle.lowered_pieces.specs.Functions.{measure_of};
ghost use Rattle.lowered_pieces.specs.Tables.{is_among as among};
ghost use Rattle.lowered_pieces.specs.Nodes.{cases_at};
ghost use Rattle.lowered_steps.specs.Setting.{nodes_in};
ghost use Rattle.jib_lower.specs.Reads as spec;

use lowered_functions::active_measure;
use lowered_steps::{Reads, Setting};
use sail_base::{Items, Text};
use sail_core::{Core, Function, Kind};
use size_values::{Sized, copy_sized, same_sized};
use sized_nodes::Case;
use std::alloc::{AllocError, Global};

/// A node that reads a variable.
#[derive(Clone, Copy)]
pub struct Reading<'a> {
    /// The variable's name.
    pub name: &'a Text,
    /// The node's number.
    pub node: u32,
}

// ---- the nodes

/// A node comes behind others, where it reads a variable. It fails where memory is wanting.
fn push_read<'a>(
    kind: &'a Kind,
    node: u32,
    found: &mut Items<Reading<'a>>,
) -> Result<(), AllocError>
    ensures { OnOk result (map spec.read_of found.new ≡ map spec.read_of found.old ++ spec.read_here node kind.now) }
{
    match kind {
        Kind::Variable(name) => found.push(Reading { name, node }),
        _ => Ok(()),
    }
}

/// The nodes of a tree that read variables come behind others. They fail where memory is wanting.
#[cycle(list_read)]
fn list_read<'a>(tree: &'a Core, found: &mut Items<Reading<'a>>) -> Result<(), AllocError>
    ensures { OnOk result (map spec.read_of found.new ≡ map spec.read_of found.old ++ spec.read_in tree.now) }
{
    push_read(&tree.kind, tree.number, found)?;
    let parts = tree.parts.as_slice();
    list_all_read(parts, found)
}

/// So those of several trees.
#[cycle(list_read)]
fn list_all_read<'a>(trees: &'a [Core], found: &mut Items<Reading<'a>>) -> Result<(), AllocError>
    ensures { OnOk result (map spec.read_of found.new ≡ map spec.read_of found.old ++ spec.joined (map spec.read_in trees.now)) }
{
    match trees {
        [] => Ok(()),
        [first, rest @ ..] => {
            list_read(first, found)?;
            list_all_read(rest, found)
        }
    }
}

/// So those of the measure of a function that is in a cycle.
fn list_measure<'a>(
    function: &'a Function,
    found: &mut Items<Reading<'a>>,
) -> Result<(), AllocError>
    ensures { OnOk result (map spec.read_of found.new
        ≡ map spec.read_of found.old ++ spec.read_by (measure_of function.now.cycle function.now.measure)) }
{
    match active_measure(function) {
        Some(measure) => list_read(measure, found),
        None => Ok(()),
    }
}

// ---- the types

/// Whether a type is one of these.
fn is_among(typ: &Sized, types: &[Sized]) -> bool
    ensures { result ≡ among typ.now types.now }
{
    match types {
        [] => false,
        [first, rest @ ..] => same_sized(typ, first) || is_among(typ, rest),
    }
}

/// A type comes behind others, where it isn't among them. It fails where memory is wanting.
fn add_type(alloc: Global, typ: &Sized, types: &mut Items<Sized>) -> Result<(), AllocError>
    ensures { OnOk result (types.new ≡ (if among typ.now types.old then types.old else types.old ++ typ.now ∷ [])) }
{
    let told = is_among(typ, types.as_slice());
    if told {
        Ok(())
    } else {
        let copy = copy_sized(alloc, typ)?;
        types.push(copy)
    }
}

/// What cases give comes behind other types, each once. It fails where memory is wanting.
fn push_types(alloc: Global, cases: &[Case], types: &mut Items<Sized>) -> Result<(), AllocError>
    ensures { OnOk result (types.new ≡ spec.with_cases cases.now types.old) }
{
    match cases {
        [] => Ok(()),
        [first, rest @ ..] => {
            add_type(alloc, &first.gives, types)?;
            push_types(alloc, rest, types)
        }
    }
}

/// Whether a node reads a variable of a name.
fn reads_name(read: &Reading<'_>, name: &Text) -> bool
    ensures { result ≡ bytes_eq read.now.name.now name.now }
{
    *read.name == *name
}

/// The types at which a node reads a variable come behind others, where it has this name. They fail where memory is wanting.
fn add_read(
    alloc: Global,
    setting: &Setting<'_>,
    name: &Text,
    read: &Reading<'_>,
    types: &mut Items<Sized>,
) -> Result<(), AllocError>
    ensures { OnOk result (types.new
        ≡ (if bytes_eq read.now.name.now name.now then spec.with_cases (cases_at read.now.node 0 (nodes_in setting.now)) types.old else types.old)) }
{
    let same = reads_name(read, name);
    if same {
        push_types(alloc, setting.cases(read.node, 0), types)
    } else {
        Ok(())
    }
}

/// The types at which these nodes read variables of a name come behind others. They fail where memory is wanting.
fn push_reads(
    alloc: Global,
    setting: &Setting<'_>,
    name: &Text,
    reads: &[Reading<'_>],
    types: &mut Items<Sized>,
) -> Result<(), AllocError>
    ensures { OnOk result (types.new ≡ spec.with_read (nodes_in setting.now) name.now (map spec.read_of reads.now) types.old) }
{
    match reads {
        [] => Ok(()),
        [first, rest @ ..] => {
            add_read(alloc, setting, name, first, types)?;
            push_reads(alloc, setting, name, rest, types)
        }
    }
}

/// Whether types are of a name.
fn is_of(told: &Reads, name: &Text) -> bool
    ensures { result ≡ bytes_eq told.now.name name.now }
{
    told.name == *name
}

/// Whether the types of a name are there.
fn is_told(name: &Text, told: &[Reads]) -> bool
    ensures { result ≡ spec.is_told name.now told.now }
{
    match told {
        [] => false,
        [first, rest @ ..] => is_of(first, name) || is_told(name, rest),
    }
}

/// The types at which variables of a name are read come behind others. They fail where memory is wanting.
fn push_name(
    alloc: Global,
    setting: &Setting<'_>,
    name: &Text,
    reads: &[Reading<'_>],
    told: &mut Items<Reads>,
) -> Result<(), AllocError>
    ensures { OnOk result (told.new
        ≡ told.old ++ record { name = name.now; types = spec.with_read (nodes_in setting.now) name.now (map spec.read_of reads.now) [] } ∷ []) }
{
    let mut types = Items::new(alloc);
    push_reads(alloc, setting, name, reads, &mut types)?;
    let copy = name.clone()?;
    told.push(Reads { name: copy, types })
}

/// They do where they aren't there. They fail where memory is wanting.
fn add_name(
    alloc: Global,
    setting: &Setting<'_>,
    name: &Text,
    reads: &[Reading<'_>],
    told: &mut Items<Reads>,
) -> Result<(), AllocError>
    ensures { OnOk result (told.new ≡ spec.with_name (nodes_in setting.now) (map spec.read_of reads.now) name.now told.old) }
{
    let known = is_told(name, told.as_slice());
    if known {
        Ok(())
    } else {
        push_name(alloc, setting, name, reads, told)
    }
}

/// Those of the names of some of these nodes come behind others, each once. They fail where memory is wanting.
fn push_names<'a>(
    alloc: Global,
    setting: &Setting<'_>,
    some: &[Reading<'a>],
    reads: &[Reading<'a>],
    told: &mut Items<Reads>,
) -> Result<(), AllocError>
    ensures { OnOk result (told.new
        ≡ spec.with_names (nodes_in setting.now) (map spec.read_of reads.now) (map spec.read_of some.now) told.old) }
{
    match some {
        [] => Ok(()),
        [first, rest @ ..] => {
            add_name(alloc, setting, first.name, reads, told)?;
            push_names(alloc, setting, rest, reads, told)
        }
    }
}

/// The types at which these nodes read variables, once for each name. They fail where memory is wanting.
fn types_read(
    alloc: Global,
    setting: &Setting<'_>,
    reads: &[Reading<'_>],
) -> Result<Items<Reads>, AllocError>
    ensures { IfOk result (λ told. told ≡ spec.types_read setting.now.bodies.now (map spec.read_of reads.now)) }
{
    let mut told = Items::new(alloc);
    push_names(alloc, setting, reads, reads, &mut told)?;
    Ok(told)
}

/// Those at which a tree reads variables. They fail where memory is wanting.
pub fn tree_reads(
    alloc: Global,
    setting: &Setting<'_>,
    tree: &Core,
) -> Result<Items<Reads>, AllocError>
    ensures { IfOk result (λ told. told ≡ spec.tree_reads setting.now.bodies.now tree.now) }
{
    let mut found = Items::new(alloc);
    list_read(tree, &mut found)?;
    let reads = found.as_slice();
    types_read(alloc, setting, reads)
}

/// Those at which a function reads variables, its measure with it. They fail where memory is wanting.
pub fn function_reads(
    alloc: Global,
    setting: &Setting<'_>,
    function: &Function,
) -> Result<Items<Reads>, AllocError>
    ensures { IfOk result (λ told. told ≡ spec.function_reads setting.now.bodies.now function.now) }
{
    let mut found = Items::new(alloc);
    list_read(&function.body, &mut found)?;
    list_measure(function, &mut found)?;
    let reads = found.as_slice();
    types_read(alloc, setting, reads)
}
