//! Walks over the parts of a form: what is wanted of the next part, and what is there once it is found.
ghost use Rattle.std.specs.Prelude.{◌≡◌, is_some, IfOk, OnOk};
ghost use Rattle.shape_rules.specs.Findings.{first_failure};
ghost use Rattle.shape_calls.specs.Apart.{note_of};
ghost use Rattle.shape_walks.specs.Walks as spec;

use sail_base::Items;
use sail_core::Core;
use sail_types::{Shape, copy_shape};
use shape_calls::{Made, given_on, has_never, known_behind, note_apart};
use shape_joins::put_shape;
use shape_rules::First;
use std::alloc::{AllocError, Global};

/// What is wanted of parts, one after the other.
#[derive(Drop)]
pub enum Plan {
    /// Of each its own shape; nothing of those behind the last.
    Each(Items<Shape>),
    /// One shape, which the first part that has one gives to the others.
    GivenOn(Shape),
    /// Parameters, as what is known by then of their variables.
    Params(Items<Shape>, Items<Shape>),
}

/// The parts that were found so far.
#[derive(Drop)]
pub struct Walk {
    /// What is wanted of them.
    pub plan: Plan,
    /// Their shapes.
    pub shapes: Items<Shape>,
    /// Their cores.
    pub cores: Items<Core>,
    /// Whether the shape of one isn't known, since a part of it failed.
    pub is_unsure: bool,
}

impl Plan {
    /// What is wanted of the part at a position. The one error is want of memory.
    fn wanted(&self, alloc: Global, position: usize) -> Result<Shape, AllocError>
        ensures { IfOk result (λ want. want ≡ spec.wanted self.now position) }
    {
        match self {
            Plan::Each(wants) => shape_at(alloc, wants.as_slice(), position),
            Plan::GivenOn(want) => copy_shape(alloc, want),
            Plan::Params(params, known) => {
                let param = shape_at(alloc, params.as_slice(), position)?;
                put_shape(alloc, &param, known.as_slice())
            }
        }
    }

    /// What is wanted behind this part at a position, in which a failure was noted or not. Notes an argument that teaches two shapes of
    /// one variable, where none was. The one error is want of memory.
    fn next(
        self,
        alloc: Global,
        position: usize,
        made: &Made,
        is_noted: bool,
        first: &mut First,
    ) -> Result<Plan, AllocError>
        ensures plan { IfOk result (λ plan. plan ≡ spec.next_plan self position made.now.shape) }
        ensures failures { OnOk result (first.new.error ≡ first_failure first.old.error (spec.plan_taught self position made.now is_noted)) }
    {
        match self {
            Plan::Each(wants) => Ok(Plan::Each(wants)),
            Plan::GivenOn(want) => Ok(Plan::GivenOn(given_on(alloc, want, &made.shape)?)),
            Plan::Params(params, known) => {
                let param = shape_at(alloc, params.as_slice(), position)?;
                let known = known_behind(alloc, &param, made, known, is_noted, first)?;
                Ok(Plan::Params(params, known))
            }
        }
    }
}

/// The shape at a position; `Never` past the end. The one error is want of memory.
fn shape_at(alloc: Global, shapes: &[Shape], position: usize) -> Result<Shape, AllocError>
    ensures { IfOk result (λ shape. shape ≡ spec.shape_at shapes.now position) }
{
    match shapes.get(position) {
        Some(shape) => copy_shape(alloc, shape),
        None => Ok(Shape::Never),
    }
}

impl Walk {
    /// No part was found yet. It takes no memory.
    pub fn new(alloc: Global, plan: Plan) -> Walk
        ensures { result ≡ spec.begun plan }
    {
        Walk {
            plan,
            shapes: Items::new(alloc),
            cores: Items::new(alloc),
            is_unsure: false,
        }
    }

    /// What is wanted of the next part. The one error is want of memory.
    #[tactic(auto, unfolding(crate::specs::Walks::want_of))]
    pub fn want(&self, alloc: Global) -> Result<Shape, AllocError>
        ensures { IfOk result (λ want. want ≡ spec.want_of self.now) }
    {
        self.plan.wanted(alloc, self.shapes.len())
    }

    /// One part more, in which a failure was noted or not. Notes an argument that teaches two shapes of one variable, where none was. The
    /// one error is want of memory.
    #[tactic(auto, unfolding(crate::specs::Walks::taken, crate::specs::Walks::taught_made))]
    pub fn take(
        self,
        alloc: Global,
        made: Made,
        is_noted: bool,
        first: &mut First,
    ) -> Result<Walk, AllocError>
        ensures walk { IfOk result (λ walk. walk ≡ spec.taken self made is_noted) }
        ensures failures { OnOk result (first.new.error ≡ first_failure first.old.error (spec.taught_made self made is_noted)) }
    {
        let Walk {
            plan,
            mut shapes,
            mut cores,
            is_unsure,
        } = self;
        let is_unsure = is_unsure || (is_noted && has_never(&made.shape));
        let plan = plan.next(alloc, shapes.len(), &made, is_noted, first)?;
        let shape = made.into_shape(&mut cores)?;
        shapes.push(shape)?;
        Ok(Walk {
            plan,
            shapes,
            cores,
            is_unsure,
        })
    }
}

/// One part more, the failures of which were noted apart. Notes an argument that teaches two shapes of one variable, where none were.
/// The one error is want of memory.
pub fn take_noted(
    alloc: Global,
    walk: Walk,
    made: Made,
    apart: First,
    first: &mut First,
) -> Result<Walk, AllocError>
    ensures walk { IfOk result (λ next. next ≡ spec.taken walk made (is_some apart.error)) }
    ensures failures { OnOk result (first.new.error
        ≡ first_failure (note_of first.old.error apart.error) (spec.taught_made walk made (is_some apart.error))) }
{
    let is_noted = apart.error.is_some();
    note_apart(first, apart);
    walk.take(alloc, made, is_noted, first)
}
