//! The machine that a model is for.
ghost use Rattle.std.specs.Prelude.{◌≡◌};
ghost use Rattle.sail_top.specs.Wanted as spec;

use sail_core::{Arm, Core, Form, Kind, Literal, Opening, OpeningKind, Pattern};

/// Whether a pattern is the name `elf_machine`, whether or not its type is written.
#[cycle(pattern_names)]
fn pattern_names(pattern: &Pattern) -> bool
    ensures { result ≡ spec.pattern_names pattern.now }
{
    match &pattern.form {
        Form::Binds(name) => name.as_str() == "elf_machine",
        Form::Typed(_) => one_names(pattern.parts.as_slice()),
        _ => false,
    }
}

/// Whether there is one pattern, which is that name.
#[cycle(pattern_names)]
fn one_names(patterns: &[Pattern]) -> bool
    ensures { result ≡ spec.one_names patterns.now }
{
    match patterns {
        [one] => pattern_names(one),
        _ => false,
    }
}

/// Whether an arm is that name.
fn arm_names(arm: &Arm) -> bool
    ensures { result ≡ spec.arm_names arm.now }
{
    match arm {
        Arm::Nested(patterns) => one_names(patterns.as_slice()),
        Arm::Flat(_, _) => false,
    }
}

/// Whether a `let` is of that name.
fn kind_names(kind: &OpeningKind) -> bool
    ensures { result ≡ spec.kind_names kind.now }
{
    match kind {
        OpeningKind::Let(arm) => arm_names(arm),
        OpeningKind::Register(_) => false,
    }
}

/// The number of a literal.
fn literal_number(literal: &Literal) -> Option<i128>
    ensures { result ≡ spec.literal_number literal.now }
{
    match literal {
        Literal::Integer(number) => Some(*number),
        _ => None,
    }
}

/// The number of a literal, where it is bound too; none where a type is written at it.
#[cycle(written_number)]
fn written_number(tree: &Core) -> Option<i128>
    ensures { result ≡ spec.written_number tree.now }
{
    match &tree.kind {
        Kind::Constant(literal) => literal_number(literal),
        Kind::Cast(None) => one_number(tree.parts.as_slice()),
        _ => None,
    }
}

/// The number of the one tree that there is.
#[cycle(written_number)]
fn one_number(trees: &[Core]) -> Option<i128>
    ensures { result ≡ spec.one_number trees.now }
{
    match trees {
        [one] => written_number(one),
        _ => None,
    }
}

/// The machine that a model of these openings is for; none where no `let` of the name `elf_machine` is of a number.
pub fn wanted_machine(openings: &[Opening]) -> Option<i128>
    ensures { result ≡ spec.wanted_machine openings.now }
{
    match openings {
        [] => None,
        [first, rest @ ..] => {
            if kind_names(&first.kind) {
                written_number(&first.value)
            } else {
                wanted_machine(rest)
            }
        }
    }
}
