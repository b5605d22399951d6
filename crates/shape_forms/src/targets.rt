//! Targets whose arguments were found, and assignments.
ghost use Rattle.std.specs.Prelude.{◌≡◌, ◌∷◌, ◌++◌, [], Some, None, option_map, IfOk, OnOk};
ghost use Rattle.sail_core.specs.declared.targets.TargetKind.TheVariants as T;
ghost use Rattle.sail_types.specs.declared.shapes.Shape.TheVariants as V;
ghost use Rattle.shape_rules.specs.declared.error.ShapeError.TheVariants as error;
ghost use Rattle.shape_rules.specs.Findings.{first_failure};
ghost use Rattle.shape_rules.specs.Calls.{chosen};
ghost use Rattle.shape_rules.specs.Targets as target;
ghost use Rattle.shape_rules.specs.Statements as statements;
ghost use Rattle.shape_calls.specs.Apart.{note_of};
ghost use Rattle.shape_calls.specs.Picked.{choice_of};
ghost use Rattle.shape_calls.specs.Ways.{aim_of};
ghost use Rattle.shape_forms.specs.Aims.{solved_of, several_read};
ghost use Rattle.shape_walks.specs.Walks.{args_of};

use crate::openness::note_open;
use sail_base::{Items, Place};
use sail_core::{Callee, Caller, Core, Suffix as Step, Target, TargetKind};
use sail_syntax::Name;
use sail_types::{Shape, copy_shape};
use shape_calls::{
    Aim, Choice, aimed_nowhere, caller_of, choose, doing_callee, last_param, missing, note_apart,
    reader_of, settled, small_place,
};
use shape_joins::put_shape;
use shape_rules::{Candidate, First, ShapeError};
use shape_walks::{Walk, known_shapes};
use std::alloc::{AllocError, Global};

/// A target that is a call; a place for it where nothing writes it.
fn call_target(
    alloc: Global,
    place: Place,
    count: u32,
    reader: Option<Caller>,
    writer: Option<Callee>,
) -> Target
    ensures { result ≡ target.call_target place count reader writer }
{
    let kind = match writer {
        Some(writer) => TargetKind::Call(count, reader, caller_of(writer)),
        None => TargetKind::Register(0),
    };
    Target {
        place,
        number: 0,
        kind,
        parts: Items::new(alloc),
    }
}

/// `f(a)` of one callee as a target, whose arguments were found. The one error is want of memory.
pub fn aim_callee(
    alloc: Global,
    name: &Name,
    callee: &Candidate,
    count: usize,
    walk: Walk,
) -> Result<Aim, AllocError>
    ensures { IfOk result (λ aim. aim ≡ aim_of (target.callee_aimed name.now callee.now count (solved_of walk))) }
{
    let Walk { plan, cores, .. } = walk;
    let known = known_shapes(alloc, plan);
    let shape = last_param(alloc, callee.params.as_slice(), known.as_slice())?;
    let answer = put_shape(alloc, &callee.answer, known.as_slice())?;
    let count = small_place(count)?;
    let target = call_target(alloc, name.place, count, None, doing_callee(callee.doing));
    Ok(Aim {
        shape,
        target,
        parts: cores,
        answer,
    })
}

/// `f(a)` of several callees as a target, whose arguments were found: the first is taken that takes one argument more. Notes that none
/// does. The one error is want of memory.
pub fn aim_member(
    alloc: Global,
    name: &Name,
    callees: &[Candidate],
    walk: Walk,
    first: &mut First,
) -> Result<Aim, AllocError>
    ensures aim { IfOk result (λ aim. aim ≡ aim_of (target.call_aimed name.now [] (args_of walk)
        (chosen callees.now walk.shapes) (chosen callees.now (walk.shapes ++ V.Never ∷ [])))) }
    ensures failures { OnOk result (first.new.error ≡ first_failure first.old.error (target.call_aimed name.now [] (args_of walk)
        (chosen callees.now walk.shapes) (chosen callees.now (walk.shapes ++ V.Never ∷ []))).faults) }
{
    let reader = choose(alloc, callees, walk.shapes.as_slice())?;
    aim_writer(alloc, name, callees, &reader, Shape::Never, walk, first)
}

/// `f(a)` of several callees as a target, by the one that reads it: the first is taken to write it that takes a value of this shape as
/// one argument more.
fn aim_writer(
    alloc: Global,
    name: &Name,
    callees: &[Candidate],
    reader: &Option<Choice<'_>>,
    value: Shape,
    walk: Walk,
    first: &mut First,
) -> Result<Aim, AllocError>
    ensures aim { IfOk result (λ aim. aim ≡ aim_of (target.call_aimed name.now [] (args_of walk) (option_map choice_of reader.now)
        (chosen callees.now (walk.shapes ++ value ∷ [])))) }
    ensures failures { OnOk result (first.new.error ≡ first_failure first.old.error (target.call_aimed name.now [] (args_of walk)
        (option_map choice_of reader.now) (chosen callees.now (walk.shapes ++ value ∷ []))).faults) }
{
    let Walk {
        mut shapes,
        cores,
        ..
    } = walk;
    shapes.push(value)?;
    match choose(alloc, callees, shapes.as_slice())? {
        Some(Choice { candidate, known }) => {
            let shape = last_param(alloc, candidate.params.as_slice(), known.as_slice())?;
            let answer = put_shape(alloc, &candidate.answer, known.as_slice())?;
            let writer = doing_callee(candidate.doing);
            let count = small_place(cores.len())?;
            let target = call_target(alloc, name.place, count, reader_of(reader), writer);
            Ok(Aim {
                shape,
                target,
                parts: cores,
                answer,
            })
        }
        None => {
            note_no_member(name, first)?;
            Ok(aimed_nowhere(alloc, name.place))
        }
    }
}

/// Notes that no member of this name takes the arguments.
fn note_no_member(name: &Name, first: &mut First) -> Result<(), AllocError>
    ensures { OnOk result (first.new.error ≡ first_failure first.old.error (error.NoMember name.now.place name.now.text ∷ [])) }
{
    let place = name.place;
    let name = name.text.clone()?;
    first.note(ShapeError::NoMember { place, name });
    Ok(())
}

/// Notes that no member takes the arguments of a call, where none was chosen.
fn note_unfound(
    name: &Name,
    reader: &Option<Choice<'_>>,
    first: &mut First,
) -> Result<(), AllocError>
    ensures { OnOk result (first.new.error ≡ first_failure first.old.error (target.unread name.now 0 None (option_map choice_of reader.now))) }
{
    match reader {
        Some(_) => Ok(()),
        None => note_no_member(name, first),
    }
}

/// The shape of what a callee that was chosen gives; `Never` where none was.
fn read_shape(alloc: Global, reader: &Option<Choice<'_>>) -> Result<Shape, AllocError>
    ensures { IfOk result (λ shape. shape ≡ target.read_shape (option_map choice_of reader.now)) }
{
    match reader {
        Some(choice) => put_shape(alloc, &choice.candidate.answer, choice.known.as_slice()),
        None => Ok(Shape::Never),
    }
}

/// `f(a)` of one callee as the base of a part, which was found as a target: what is there to be replaced has the shape that a call on
/// arguments of these shapes gives. Notes another count of parameters than of arguments, and a shape that leaves something open. The one
/// error is want of memory.
pub fn read_one(
    alloc: Global,
    name: &Name,
    callee: &Candidate,
    callees: &[Candidate],
    aim: Aim,
    count: usize,
    shapes: &[Shape],
    first: &mut First,
) -> Result<Aim, AllocError>
    ensures aim { IfOk result (λ made. made ≡ record aim { shape = target.read_shape (chosen callees.now shapes.now) }) }
    ensures failures { OnOk result (first.new.error ≡ first_failure first.old.error (target.unread name.now count (Some callee.now)
        (chosen callees.now shapes.now) ++ target.open_faults name.now.place (target.read_shape (chosen callees.now shapes.now)))) }
{
    let reader = choose(alloc, callees, shapes)?;
    let shape = read_shape(alloc, &reader)?;
    note_unread(name, callee, count, &reader, first);
    note_open(name.place, &shape, first);
    let Aim {
        shape: _,
        target,
        parts,
        answer,
    } = aim;
    Ok(Aim {
        shape,
        target,
        parts,
        answer,
    })
}

/// Notes that a call of one callee can't be read: it has another count of parameters.
fn note_unread(
    name: &Name,
    callee: &Candidate,
    count: usize,
    reader: &Option<Choice<'_>>,
    first: &mut First,
)
    ensures { first.new.error ≡ first_failure first.old.error
        (target.unread name.now count (Some callee.now) (option_map choice_of reader.now)) }
{
    let wanted = callee.params.len();
    if reader.is_none() && wanted != count {
        first.note(ShapeError::Arity {
            place: name.place,
            wanted,
            found: count,
        });
    }
}

/// `f(a)` of several callees as the base of a part, whose arguments were found: the first reads it that takes them, and the first
/// writes it that takes what is read as one argument more. Notes where none does, and a shape that leaves something open. The one error
/// is want of memory.
pub fn read_member(
    alloc: Global,
    name: &Name,
    callees: &[Candidate],
    walk: Walk,
    first: &mut First,
) -> Result<Aim, AllocError>
    ensures aim { IfOk result (λ aim. aim ≡ aim_of (several_read name.now callees.now walk (chosen callees.now walk.shapes))) }
    ensures failures { OnOk result (first.new.error ≡ first_failure first.old.error
        (several_read name.now callees.now walk (chosen callees.now walk.shapes)).faults) }
{
    let reader = choose(alloc, callees, walk.shapes.as_slice())?;
    read_chosen(alloc, name, callees, &reader, walk, first)
}

/// The same, by the callee that reads it.
#[tactic(auto, using(shape_rules::proofs::Firsts::first_failure_append))]
fn read_chosen(
    alloc: Global,
    name: &Name,
    callees: &[Candidate],
    reader: &Option<Choice<'_>>,
    walk: Walk,
    first: &mut First,
) -> Result<Aim, AllocError>
    ensures aim { IfOk result (λ aim. aim ≡ aim_of (several_read name.now callees.now walk (option_map choice_of reader.now))) }
    ensures failures { OnOk result (first.new.error ≡ first_failure first.old.error
        (several_read name.now callees.now walk (option_map choice_of reader.now)).faults) }
{
    let shape = read_shape(alloc, reader)?;
    let value = copy_shape(alloc, &shape)?;
    let aim = aim_writer(alloc, name, callees, reader, value, walk, first)?;
    note_unfound(name, reader, first)?;
    note_open(name.place, &shape, first);
    let Aim {
        shape: _,
        target,
        parts,
        answer,
    } = aim;
    Ok(Aim {
        shape,
        target,
        parts,
        answer,
    })
}

/// `(a, b)` of targets that were found.
pub fn tuple_aimed(
    place: Place,
    shapes: Items<Shape>,
    targets: Items<Target>,
    parts: Items<Core>,
) -> Aim
    ensures { result
        ≡ record { shape = V.Tuple shapes; target = target.target place T.Tuple targets; parts = parts; answer = V.Unit } }
{
    Aim {
        shape: Shape::Tuple(shapes),
        target: Target {
            place,
            number: 0,
            kind: TargetKind::Tuple,
            parts: targets,
        },
        parts,
        answer: Shape::Unit,
    }
}

/// A part of a target that was found, by the ways into it: the shape of what is there, and the arguments and indexes in both. The one
/// error is want of memory.
pub fn part_aimed(
    alloc: Global,
    place: Place,
    shape: Shape,
    inside: Target,
    ways: Items<Step>,
    parts: Items<Core>,
    answer: Shape,
) -> Result<Aim, AllocError>
    ensures { IfOk result (λ aim. aim ≡ record {
      shape = shape;
      target = target.target place (T.Part ways) (inside ∷ []);
      parts = parts;
      answer = answer;
    }) }
{
    let mut targets = Items::new(alloc);
    targets.push(inside)?;
    Ok(Aim {
        shape,
        target: Target {
            place,
            number: 0,
            kind: TargetKind::Part(ways),
            parts: targets,
        },
        parts,
        answer,
    })
}

/// Notes an assignment inside another, of this shape, where another is wanted, and then what was noted apart. The one error is want of
/// memory.
pub fn note_inner(
    alloc: Global,
    place: Place,
    want: &Shape,
    answer: &Shape,
    apart: First,
    first: &mut First,
) -> Result<(), AllocError>
    ensures { OnOk result (first.new.error
        ≡ note_of (first_failure first.old.error (statements.inner_faults place want.now answer.now)) apart.error) }
{
    let answer = copy_shape(alloc, answer)?;
    let core = missing(alloc, place);
    settled(alloc, place, want, answer, core, first)?;
    note_apart(first, apart);
    Ok(())
}
