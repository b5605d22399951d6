ghost use Rattle.std.specs.Prelude.{◌≡◌, IfOk, option_map};
ghost use Rattle.std.specs.Option.{is_some};
ghost use Rattle.sail_syntax.specs.declared.expressions.LExp.TheVariants as L;
ghost use Rattle.sail_grammar.specs.Targets.{part_target, target};
ghost use Rattle.sail_parse_expr.specs.TargetLists.{all_targets, each_is_target, some_targets};

use sail_base::{Boxed, Items, Place};
use sail_syntax::{Brackets, Exp, LExp, Suffix};
use std::alloc::{AllocError, Global};

// Whether an expression may be assigned to.
#[cycle(is_target)]
pub(crate) fn is_target(value: &Exp) -> bool
    ensures { result ≡ is_some (target value.now) }
{
    match value {
        Exp::Variable(_) => true,
        Exp::Call(_, arguments) => !arguments.is_empty(),
        Exp::Group(_, brackets, parts) => match brackets {
            Brackets::Tuple => !parts.is_empty() && are_targets(parts.as_slice()),
            _ => false,
        },
        Exp::Part(_, base, _) => is_target(base.get()),
        _ => false,
    }
}

// Whether each of some expressions may be assigned to.
#[cycle(is_target)]
fn are_targets(values: &[Exp]) -> bool
    ensures { result ≡ each_is_target values.now }
{
    for value in values {
        if !is_target(value) {
            return false;
        }
    }
    true
}

// An expression as a target, where it is one.
#[cycle(target_of)]
pub(crate) fn target_of(alloc: Global, value: Boxed<Exp>) -> Result<Option<Boxed<LExp>>, AllocError>
    ensures { IfOk result (λ found. found ≡ target value) }
{
    match value.into_inner() {
        Exp::Variable(name) => Ok(Some(Boxed::new(alloc, LExp::ToName(name))?)),
        Exp::Call(name, arguments) => {
            if arguments.is_empty() {
                Ok(None)
            } else {
                Ok(Some(Boxed::new(alloc, LExp::ToCall(name, arguments))?))
            }
        }
        Exp::Group(place, brackets, parts) => match brackets {
            Brackets::Tuple => to_tuple(alloc, place, parts),
            _ => Ok(None),
        },
        Exp::Part(place, base, suffixes) => to_part(alloc, place, base, suffixes),
        _ => Ok(None),
    }
}

// A base with its suffixes as a target, where the base is one.
#[cycle(target_of)]
fn to_part(
    alloc: Global,
    place: Place,
    base: Boxed<Exp>,
    suffixes: Items<Suffix>,
) -> Result<Option<Boxed<LExp>>, AllocError>
    ensures { IfOk result (λ found. found ≡ option_map (part_target place suffixes) (target base)) }
{
    match target_of(alloc, base)? {
        Some(base) => Ok(Some(with_further(alloc, place, base, suffixes)?)),
        None => Ok(None),
    }
}

// A target with further suffixes behind it: they stand behind those that it has.
fn with_further(
    alloc: Global,
    place: Place,
    target: Boxed<LExp>,
    further: Items<Suffix>,
) -> Result<Boxed<LExp>, AllocError>
    ensures { IfOk result (λ made. made ≡ part_target place further target) }
{
    match target.into_inner() {
        LExp::ToPart(_, base, mut suffixes) => {
            suffixes.append(further)?;
            Boxed::new(alloc, LExp::ToPart(place, base, suffixes))
        }
        other => Boxed::new(
            alloc,
            LExp::ToPart(place, Boxed::new(alloc, other)?, further),
        ),
    }
}

// A tuple as a target, where there are parts and each is one.
#[cycle(target_of)]
fn to_tuple(
    alloc: Global,
    place: Place,
    parts: Items<Exp>,
) -> Result<Option<Boxed<LExp>>, AllocError>
    ensures { IfOk result (λ found. found ≡ option_map (L.ToTuple place) (some_targets parts)) }
{
    if parts.is_empty() {
        return Ok(None);
    }
    match to_targets(alloc, parts)? {
        Some(list) => Ok(Some(Boxed::new(alloc, LExp::ToTuple(place, list))?)),
        None => Ok(None),
    }
}

// All of some expressions as targets, where each is one.
#[cycle(target_of)]
fn to_targets(alloc: Global, parts: Items<Exp>) -> Result<Option<Items<LExp>>, AllocError>
    ensures { IfOk result (λ found. found ≡ all_targets parts) }
{
    let mut list = Items::new(alloc);
    for part in parts.into_vec() {
        match target_of(alloc, Boxed::new(alloc, part)?)? {
            Some(target) => list.push(target.into_inner())?,
            None => return Ok(None),
        }
    }
    Ok(Some(list))
}
