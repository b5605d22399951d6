//! The sizes of types that are written in a body, each behind the node at which it is read.
ghost use Rattle.std.specs.Prelude.{◌≡◌, ◌++◌, IfOk, OnOk, map};
ghost use Rattle.linear.specs.Choices.{joined};
ghost use Rattle.constraint_gen.specs.Patterns.{nested};
ghost use Rattle.sail_core.specs.declared.tree.Core.{Core as Tree};
ghost use Rattle.size_notes.specs.Behind as spec;

use crate::written::{WrittenSize, push_written};
use sail_base::Items;
use sail_core::{Arm, Core, Form, Kind, Pattern, Statement, Written};
use sail_types::Index;
use std::alloc::{AllocError, Global};

/// A size that is written, and the node at whose end it is read.
pub struct Behind {
    /// The number of the node.
    pub number: u32,
    /// The size.
    pub written: WrittenSize,
}

impl Drop for Behind {
    fn drop(self) {
        let Behind {
            number: _,
            written: _,
        } = self;
    }
}

/// Puts the sizes of the type that is written at a form, if there is one. It fails where memory is wanting.
fn push_form(
    alloc: Global,
    made: &mut Items<WrittenSize>,
    numbers: &[Index],
    form: &Form,
) -> Result<(), AllocError>
    ensures { OnOk result (made.new ≡ made.old ++ spec.form_sizes numbers.now form.now) }
{
    match form {
        Form::Typed(written) => push_written(alloc, made, numbers, written),
        _ => Ok(()),
    }
}

/// Puts the sizes of types that are written in a pattern, the inner ones first. It fails where memory is wanting.
#[cycle(pattern_sizes)]
fn push_pattern(
    alloc: Global,
    made: &mut Items<WrittenSize>,
    numbers: &[Index],
    pattern: &Pattern,
) -> Result<(), AllocError>
    ensures { OnOk result (made.new ≡ made.old ++ spec.pattern_sizes numbers.now pattern.now) }
{
    push_patterns(alloc, made, numbers, pattern.parts.as_slice())?;
    push_form(alloc, made, numbers, &pattern.form)
}

/// Puts those in several patterns. It fails where memory is wanting.
#[cycle(pattern_sizes)]
fn push_patterns(
    alloc: Global,
    made: &mut Items<WrittenSize>,
    numbers: &[Index],
    patterns: &[Pattern],
) -> Result<(), AllocError>
    ensures { OnOk result (made.new ≡ made.old ++ joined (map (spec.pattern_sizes numbers.now) patterns.now)) }
{
    for pattern in patterns {
        push_pattern(alloc, made, numbers, pattern)?;
    }
    Ok(())
}

/// The patterns of an arm; of a flat one none.
pub fn patterns_of(arm: &Arm) -> &[Pattern]
    ensures { result.now ≡ nested arm.now }
{
    match arm {
        Arm::Nested(patterns) => patterns.as_slice(),
        Arm::Flat(_, _) => &[],
    }
}

/// Puts those in the patterns of an arm. It fails where memory is wanting.
pub fn push_arm(
    alloc: Global,
    made: &mut Items<WrittenSize>,
    numbers: &[Index],
    arm: &Arm,
) -> Result<(), AllocError>
    ensures { OnOk result (made.new ≡ made.old ++ spec.arm_sizes numbers.now arm.now) }
{
    push_patterns(alloc, made, numbers, patterns_of(arm))
}

/// Puts those in the patterns of several arms. It fails where memory is wanting.
fn push_arms(
    alloc: Global,
    made: &mut Items<WrittenSize>,
    numbers: &[Index],
    arms: &[Arm],
) -> Result<(), AllocError>
    ensures { OnOk result (made.new ≡ made.old ++ spec.arms_sizes numbers.now arms.now) }
{
    for arm in arms {
        push_arm(alloc, made, numbers, arm)?;
    }
    Ok(())
}

/// Puts the sizes of a type, if one is written. It fails where memory is wanting.
fn push_option(
    alloc: Global,
    made: &mut Items<WrittenSize>,
    numbers: &[Index],
    written: &Option<Written>,
) -> Result<(), AllocError>
    ensures { OnOk result (made.new ≡ made.old ++ spec.option_sizes numbers.now written.now) }
{
    match written {
        None => Ok(()),
        Some(written) => push_written(alloc, made, numbers, written),
    }
}

/// Puts sizes behind the node of a number. It fails where memory is wanting.
pub fn push_behind(
    made: &mut Items<Behind>,
    number: u32,
    sizes: Items<WrittenSize>,
) -> Result<(), AllocError>
    ensures { OnOk result (made.new ≡ made.old ++ spec.all_behind number sizes) }
{
    for written in sizes.into_vec() {
        made.push(Behind { number, written })?;
    }
    Ok(())
}

/// Puts sizes behind the first of these nodes, if there is one. It fails where memory is wanting.
fn push_first(
    made: &mut Items<Behind>,
    numbers: &[Index],
    parts: &[Core],
    sizes: Items<WrittenSize>,
) -> Result<(), AllocError>
    ensures { OnOk result (made.new ≡ made.old ++ spec.behind_first sizes (map (spec.node_of numbers.now) parts.now)) }
{
    match parts {
        [] => Ok(()),
        [part, ..] => push_behind(made, part.number, sizes),
    }
}

/// The nodes behind the first.
fn others(parts: &[Core]) -> &[Core]
    ensures { (f : Tree → spec.Node) → map f result.now ≡ spec.other_nodes (map f parts.now) }
{
    match parts {
        [] => parts,
        [_, rest @ ..] => rest,
    }
}

/// Puts the sizes of types that are written in a statement. It fails where memory is wanting.
fn push_statement(
    alloc: Global,
    made: &mut Items<WrittenSize>,
    numbers: &[Index],
    statement: &Statement,
) -> Result<(), AllocError>
    ensures { OnOk result (made.new ≡ made.old ++ spec.statement_sizes numbers.now statement.now) }
{
    match statement {
        Statement::Evaluate => Ok(()),
        Statement::Define(_, arm) => push_arm(alloc, made, numbers, arm),
        Statement::Declare(_, written) => push_option(alloc, made, numbers, written),
    }
}

/// Puts the sizes in statements, each behind its own value. It fails where memory is wanting.
fn push_statements(
    alloc: Global,
    made: &mut Items<Behind>,
    numbers: &[Index],
    statements: &[Statement],
    parts: &[Core],
) -> Result<(), AllocError>
    ensures { OnOk result (made.new ≡ made.old ++ spec.statements_behind numbers.now statements.now (map (spec.node_of numbers.now) parts.now)) }
{
    let mut left = parts;
    for statement in statements {
        let mut sizes = Items::new(alloc);
        push_statement(alloc, &mut sizes, numbers, statement)?;
        push_first(made, numbers, left, sizes)?;
        left = others(left);
    }
    Ok(())
}

/// Puts the sizes that a kind of node has in itself, over these parts. It fails where memory is wanting.
fn push_kind(
    alloc: Global,
    made: &mut Items<Behind>,
    numbers: &[Index],
    number: u32,
    kind: &Kind,
    parts: &[Core],
) -> Result<(), AllocError>
    ensures { OnOk result (made.new ≡ made.old ++ spec.kind_behind numbers.now number kind.now (map (spec.node_of numbers.now) parts.now)) }
{
    let mut sizes = Items::new(alloc);
    match kind {
        Kind::Cast(written) => {
            push_option(alloc, &mut sizes, numbers, written)?;
            push_behind(made, number, sizes)
        }
        Kind::Let(arm) => {
            push_arm(alloc, &mut sizes, numbers, arm)?;
            push_first(made, numbers, parts, sizes)
        }
        Kind::Var(_, written) => {
            push_option(alloc, &mut sizes, numbers, written)?;
            push_first(made, numbers, parts, sizes)
        }
        Kind::Block(statements) => {
            push_statements(alloc, made, numbers, statements.as_slice(), parts)
        }
        Kind::Match(arms, _) => {
            push_arms(alloc, &mut sizes, numbers, arms.as_slice())?;
            push_first(made, numbers, parts, sizes)
        }
        Kind::Try(arms, _) => {
            push_arms(alloc, &mut sizes, numbers, arms.as_slice())?;
            push_first(made, numbers, parts, sizes)
        }
        _ => Ok(()),
    }
}

/// Puts the sizes of types that are written in a tree, each behind the node at which it is read. It fails where memory is wanting.
#[cycle(behind)]
pub fn push_core(
    alloc: Global,
    made: &mut Items<Behind>,
    numbers: &[Index],
    core: &Core,
) -> Result<(), AllocError>
    ensures { OnOk result (made.new ≡ made.old ++ spec.found_in (spec.node_of numbers.now core.now)) }
{
    push_cores(alloc, made, numbers, core.parts.as_slice())?;
    let parts = core.parts.as_slice();
    push_kind(alloc, made, numbers, core.number, &core.kind, parts)
}

/// Puts those in several trees. It fails where memory is wanting.
#[cycle(behind)]
fn push_cores(
    alloc: Global,
    made: &mut Items<Behind>,
    numbers: &[Index],
    cores: &[Core],
) -> Result<(), AllocError>
    ensures { OnOk result (made.new ≡ made.old ++ joined (map spec.found_in (map (spec.node_of numbers.now) cores.now))) }
{
    for core in cores {
        push_core(alloc, made, numbers, core)?;
    }
    Ok(())
}
