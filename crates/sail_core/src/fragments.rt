//! Which cores are as they are resolved, without mappings, or flat.
ghost use Rattle.std.specs.Prelude.{◌≡◌, map};
ghost use Rattle.std.specs.List.{list_all};
ghost use Rattle.sail_core.specs.Fragments as in_it;

use crate::model::{CoreModel, Direction, Function, Opening, OpeningKind};
use crate::patterns::{Arm, Form, Pattern};
use crate::targets::{Caller, Target, TargetKind};
use crate::tree::{Callee, Core, Kind, Statement};

/// A fragment of the core.
#[derive(Clone, Copy, PartialEq, Eq, Debug)]
pub enum Fragment {
    /// As the model is resolved: arms are nested, and mappings are called and matched.
    Resolved,
    /// Directions of mappings are functions that give an option.
    MapFree,
    /// The same, and arms are flat.
    Flat,
}

fn form_in(fragment: Fragment, form: &Form) -> bool
    ensures { result ≡ in_it.form_in fragment form.now }
{
    match form {
        Form::Sees(_) => !matches!(fragment, Fragment::Resolved),
        Form::Maps(_) => !matches!(fragment, Fragment::MapFree),
        _ => true,
    }
}

#[cycle(pattern_in)]
fn pattern_in(fragment: Fragment, pattern: &Pattern) -> bool
    ensures { result ≡ in_it.pattern_in fragment pattern.now }
{
    if form_in(fragment, &pattern.form) {
        patterns_in(fragment, pattern.parts.as_slice())
    } else {
        false
    }
}

#[cycle(pattern_in)]
fn patterns_in(fragment: Fragment, patterns: &[Pattern]) -> bool
    ensures { result ≡ in_it.all_true (map (in_it.pattern_in fragment) patterns.now) }
{
    for pattern in patterns {
        if !pattern_in(fragment, pattern) {
            return false;
        }
    }
    true
}

fn arm_in(fragment: Fragment, arm: &Arm) -> bool
    ensures { result ≡ in_it.arm_in fragment arm.now }
{
    match arm {
        Arm::Nested(patterns) => match fragment {
            Fragment::Flat => false,
            _ => patterns_in(fragment, patterns.as_slice()),
        },
        Arm::Flat(_, _) => !matches!(fragment, Fragment::Resolved),
    }
}

fn callee_in(fragment: Fragment, callee: Callee) -> bool
    ensures { result ≡ in_it.callee_in fragment callee }
{
    match callee {
        Callee::Applies(_) => !matches!(fragment, Fragment::Resolved),
        Callee::Converts(_) => matches!(fragment, Fragment::Resolved),
        _ => true,
    }
}

fn caller_in(fragment: Fragment, caller: &Option<Caller>) -> bool
    ensures { result ≡ in_it.caller_in fragment caller.now }
{
    match caller {
        None => true,
        Some(caller) => callee_in(fragment, caller.callee),
    }
}

fn target_kind_in(fragment: Fragment, kind: &TargetKind) -> bool
    ensures { result ≡ in_it.target_kind_in fragment kind.now }
{
    match kind {
        TargetKind::Call(_, reader, writer) => {
            if caller_in(fragment, reader) {
                callee_in(fragment, writer.callee)
            } else {
                false
            }
        }
        _ => true,
    }
}

#[cycle(target_in)]
fn target_in(fragment: Fragment, target: &Target) -> bool
    ensures { result ≡ in_it.target_in fragment target.now }
{
    if target_kind_in(fragment, &target.kind) {
        targets_in(fragment, target.parts.as_slice())
    } else {
        false
    }
}

#[cycle(target_in)]
fn targets_in(fragment: Fragment, targets: &[Target]) -> bool
    ensures { result ≡ in_it.all_true (map (in_it.target_in fragment) targets.now) }
{
    for target in targets {
        if !target_in(fragment, target) {
            return false;
        }
    }
    true
}

fn statement_in(fragment: Fragment, statement: &Statement) -> bool
    ensures { result ≡ in_it.statement_in fragment statement.now }
{
    match statement {
        Statement::Define(_, arm) => arm_in(fragment, arm),
        _ => true,
    }
}

fn statements_in(fragment: Fragment, statements: &[Statement]) -> bool
    ensures { result ≡ list_all (in_it.statement_in fragment) statements.now }
{
    statements
        .iter()
        .all(|statement| statement_in(fragment, statement))
}

fn kind_in(fragment: Fragment, kind: &Kind) -> bool
    ensures { result ≡ in_it.kind_in fragment kind.now }
{
    match kind {
        Kind::Call(callee) => callee_in(fragment, *callee),
        Kind::Assign(targets) => targets_in(fragment, targets.as_slice()),
        Kind::Block(statements) => statements_in(fragment, statements.as_slice()),
        Kind::Let(arm) => arm_in(fragment, arm),
        Kind::Match(arms, _) => arms_in(fragment, arms.as_slice()),
        Kind::Try(arms, _) => arms_in(fragment, arms.as_slice()),
        Kind::Clauses(arms) => arms_in(fragment, arms.as_slice()),
        Kind::Optional(_) => !matches!(fragment, Fragment::Resolved),
        _ => true,
    }
}

fn arms_in(fragment: Fragment, arms: &[Arm]) -> bool
    ensures { result ≡ list_all (in_it.arm_in fragment) arms.now }
{
    arms.iter().all(|arm| arm_in(fragment, arm))
}

/// Whether each node of a core is of the fragment.
#[cycle(core_in)]
pub fn core_in(fragment: Fragment, core: &Core) -> bool
    ensures { result ≡ in_it.core_in fragment core.now }
{
    if kind_in(fragment, &core.kind) {
        cores_in(fragment, core.parts.as_slice())
    } else {
        false
    }
}

#[cycle(core_in)]
fn cores_in(fragment: Fragment, cores: &[Core]) -> bool
    ensures { result ≡ in_it.all_true (map (in_it.core_in fragment) cores.now) }
{
    for core in cores {
        if !core_in(fragment, core) {
            return false;
        }
    }
    true
}

fn function_in(fragment: Fragment, function: &Function) -> bool
    ensures { result ≡ in_it.function_in fragment function.now }
{
    let measure_in = match &function.measure {
        None => true,
        Some(measure) => core_in(fragment, measure),
    };
    if measure_in {
        core_in(fragment, &function.body)
    } else {
        false
    }
}

fn direction_in(fragment: Fragment, direction: &Direction) -> bool
    ensures { result ≡ in_it.direction_in fragment direction.now }
{
    core_in(fragment, &direction.body)
}

fn opening_in(fragment: Fragment, opening: &Opening) -> bool
    ensures { result ≡ in_it.opening_in fragment opening.now }
{
    let kind_in = match &opening.kind {
        OpeningKind::Let(arm) => arm_in(fragment, arm),
        OpeningKind::Register(_) => true,
    };
    if kind_in {
        core_in(fragment, &opening.value)
    } else {
        false
    }
}

fn functions_in(fragment: Fragment, functions: &[Function]) -> bool
    ensures { result ≡ list_all (in_it.function_in fragment) functions.now }
{
    functions
        .iter()
        .all(|function| function_in(fragment, function))
}

fn directions_in(fragment: Fragment, directions: &[Direction]) -> bool
    ensures { result ≡ list_all (in_it.direction_in fragment) directions.now }
{
    directions
        .iter()
        .all(|direction| direction_in(fragment, direction))
}

fn openings_in(fragment: Fragment, openings: &[Opening]) -> bool
    ensures { result ≡ list_all (in_it.opening_in fragment) openings.now }
{
    openings.iter().all(|opening| opening_in(fragment, opening))
}

/// Whether a model is of the fragment, in all its definitions.
pub fn model_in(fragment: Fragment, model: &CoreModel) -> bool
    ensures { result ≡ in_it.model_in fragment model.now }
{
    if !functions_in(fragment, model.functions.as_slice()) {
        return false;
    }
    if !directions_in(fragment, model.directions.as_slice()) {
        return false;
    }
    openings_in(fragment, model.openings.as_slice())
}
