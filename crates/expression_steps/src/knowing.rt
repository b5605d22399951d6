//! What is known of an expression besides what it owes: its place, whether what is wanted of it is owed further in, and whether it ends.
ghost use Rattle.std.specs.Prelude.{◌≡◌, IfOk};
ghost use Rattle.sail_core.specs.declared.tree.Kind.TheVariants as K;
ghost use Rattle.expression_steps.specs.Calls as call_spec;
ghost use Rattle.expression_steps.specs.Coded as coded;
ghost use Rattle.expression_steps.specs.Expressions as spec;
ghost use Rattle.expression_steps.specs.Expressions.{part};
ghost use Rattle.expression_steps.specs.Parts.{Part};
ghost use Rattle.expression_steps.specs.Statements as statement_spec;

use sail_base::{Items, Place};
use sail_core::{Core, Kind};
use std::alloc::{AllocError, Global};

/// The place of an expression: where it owes what is wanted of it.
#[cycle(place)]
pub fn place_of(core: &Core) -> Place
    ensures { result ≡ Part.place (part core.now) }
{
    match &core.kind {
        Kind::When => guarded_place(core.place, core.parts.as_slice()),
        _ => core.place,
    }
}

/// That of a guard and what it guards: the latter's.
#[cycle(place)]
fn guarded_place(place: Place, parts: &[Core]) -> Place
    ensures { result ≡ spec.kind_place place K.When (coded.each_part parts.now) }
{
    match parts {
        [_, body] => place_of(body),
        _ => place,
    }
}

/// Whether a kind takes a wanted type further in.
pub fn goes_inward(kind: &Kind) -> bool
    ensures { result ≡ spec.goes_inward kind.now }
{
    match kind {
        Kind::Cast(None) => true,
        Kind::Block(_) => true,
        Kind::Let(_) => true,
        Kind::Var(_, _) => true,
        Kind::If(_) => true,
        Kind::Match(_, _) => true,
        Kind::Try(_, _) => true,
        Kind::When => true,
        _ => false,
    }
}

/// Whether a kind's parts are walked from left to right, each with what is wanted of it from the start, or there are none.
pub fn is_made(kind: &Kind) -> bool
    ensures { result ≡ spec.is_made kind.now }
{
    match kind {
        Kind::And => false,
        Kind::Or => false,
        Kind::Vector(_) => false,
        Kind::List(_) => false,
        Kind::With(_, _) => false,
        Kind::Part(_) => false,
        Kind::WithItem => false,
        Kind::WithSlice => false,
        Kind::Assign(_) => false,
        Kind::Foreach(_, _) => false,
        Kind::While => false,
        Kind::Repeat => false,
        _ => true,
    }
}

/// Whether a node of a kind makes a value of its own: what an operator on truths, a branch, a loop or an assignment gives was made further in,
/// and a part by its suffixes.
pub fn makes_value(kind: &Kind) -> bool
    ensures { result ≡ spec.makes_value kind.now }
{
    match kind {
        Kind::Local(_) => true,
        Kind::Variable(_) => true,
        Kind::TopLevel(_) => true,
        Kind::Register(_) => true,
        Kind::Call(_) => true,
        Kind::Cast(_) => true,
        Kind::Tuple => true,
        Kind::Vector(_) => true,
        Kind::List(_) => true,
        Kind::Cons(_) => true,
        Kind::Struct(_, _) => true,
        Kind::With(_, _) => true,
        Kind::WithItem => true,
        Kind::WithSlice => true,
        _ => false,
    }
}

/// Whether what is wanted of an expression is owed further in: in a block, a `let`, a `var`, an `if`, `match` or `try`.
#[cycle(nested)]
pub fn is_nested(core: &Core) -> bool
    ensures { result ≡ Part.is_nested (part core.now) }
{
    match &core.kind {
        Kind::Cast(None) => is_inside_nested(core.parts.as_slice()),
        Kind::When => is_guarded_nested(core.parts.as_slice()),
        kind => goes_inward(kind),
    }
}

/// The same of what comes to a type that isn't written.
#[cycle(nested)]
fn is_inside_nested(parts: &[Core]) -> bool
    ensures { result ≡ spec.kind_nested (K.Cast None) (coded.each_part parts.now) }
{
    match parts {
        [core] => is_nested(core),
        _ => true,
    }
}

/// The same of a guard and what it guards.
#[cycle(nested)]
fn is_guarded_nested(parts: &[Core]) -> bool
    ensures { result ≡ spec.kind_nested K.When (coded.each_part parts.now) }
{
    match parts {
        [_, body] => is_nested(body),
        _ => true,
    }
}

/// Whether an expression never ends normally.
#[cycle(ending)]
pub fn never_ends(core: &Core) -> bool
    ensures { result ≡ Part.never_ends (part core.now) }
{
    match &core.kind {
        Kind::Cast(None) => inside_never_ends(core.parts.as_slice()),
        Kind::When => guarded_never_ends(core.parts.as_slice()),
        Kind::Block(_) => last_never_ends(core.parts.as_slice()),
        Kind::If(_) => both_never_end(core.parts.as_slice()),
        Kind::Return => true,
        Kind::Throw => true,
        Kind::Exit => true,
        _ => false,
    }
}

/// The same of what comes to a type that isn't written.
#[cycle(ending)]
fn inside_never_ends(parts: &[Core]) -> bool
    ensures { result ≡ spec.kind_never_ends (K.Cast None) (coded.each_part parts.now) }
{
    match parts {
        [core] => never_ends(core),
        _ => false,
    }
}

/// The same of a guard and what it guards.
#[cycle(ending)]
fn guarded_never_ends(parts: &[Core]) -> bool
    ensures { result ≡ spec.kind_never_ends K.When (coded.each_part parts.now) }
{
    match parts {
        [_, body] => never_ends(body),
        _ => false,
    }
}

/// The same of a block: of its last statement, or its value.
#[cycle(ending)]
fn last_never_ends(parts: &[Core]) -> bool
    ensures { result ≡ statement_spec.last_never_ends (coded.each_part parts.now) }
{
    match parts {
        [] => false,
        [.., last] => never_ends(last),
    }
}

/// The same of an `if` with both branches.
#[cycle(ending)]
fn both_never_end(parts: &[Core]) -> bool
    ensures { result ≡ spec.both_never_end (coded.each_part parts.now) }
{
    match parts {
        [_, then, otherwise] => never_ends(then) && never_ends(otherwise),
        _ => false,
    }
}

/// Whether what is wanted of each of these is owed further in. It fails where memory is wanting.
pub(crate) fn nestings(alloc: Global, parts: &[Core]) -> Result<Items<bool>, AllocError>
    ensures { IfOk result (λ made. made ≡ call_spec.nestings (coded.each_part parts.now)) }
{
    let mut made = Items::new(alloc);
    for core in parts {
        made.push(is_nested(core))?;
    }
    Ok(made)
}

/// The places of these. It fails where memory is wanting.
pub(crate) fn places_of(alloc: Global, parts: &[Core]) -> Result<Items<Place>, AllocError>
    ensures { IfOk result (λ made. made ≡ call_spec.places_of (coded.each_part parts.now)) }
{
    let mut made = Items::new(alloc);
    for core in parts {
        made.push(place_of(core))?;
    }
    Ok(made)
}
