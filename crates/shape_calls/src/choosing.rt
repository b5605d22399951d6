//! Which member of an overload is taken: the first whose parameters the arguments fill.
ghost use Rattle.std.specs.Prelude.{◌≡◌, ◌∷◌, ◌++◌, ◌||◌, [], IfOk, OnOk, option_map, map};
ghost use Rattle.sail_types.specs.Rows.{members_of, operator_rows as rows_of_operator};
ghost use Rattle.sail_types.specs.Shapes.{put, at};
ghost use Rattle.shape_joins.specs.Learning.{learn, learn_all, holes as holes_for};
ghost use Rattle.shape_rules.specs.Findings as found;
ghost use Rattle.shape_rules.specs.Calls as spec;
ghost use Rattle.shape_rules.specs.Around.{setting_of};
ghost use Rattle.shape_rules.specs.Targets as target;
ghost use Rattle.shape_calls.specs.Made.{made_of};
ghost use Rattle.shape_calls.specs.Picked.{choice_of, picked_of, member_picked, no_arguments};

use crate::callees::{call_solved, caller_of, doing_callee};
use crate::made::{Made, refused, unknown};
use sail_base::{Boxed, Items, Operator, Place, Prefix, Text};
use sail_core::{Callee, Caller, Core};
use sail_types::{Member, Shape, Types, operator_rows, prefix_rows, rows_members};
use shape_joins::{holes, learn_shapes, put_shape};
use shape_rules::{Around, Candidate, Doing, First, ShapeError};
use std::alloc::{AllocError, Global};

/// A member that is taken, with what its variables are solved to.
#[derive(Drop)]
pub struct Choice<'c> {
    /// The member.
    pub candidate: &'c Candidate,
    /// What each of its variables is solved to.
    pub known: Items<Shape>,
}

/// What a call does of a member that is taken.
#[derive(Drop)]
pub struct Picked {
    /// What it does.
    pub doing: Doing,
    /// What it gives.
    pub answer: Shape,
    /// What each of the member's variables is solved to.
    pub known: Items<Shape>,
}

/// Arguments that are found with nothing wanted.
#[derive(Drop)]
pub struct Arguments {
    /// Their shapes.
    pub shapes: Items<Shape>,
    /// Their cores.
    pub cores: Items<Core>,
    /// Whether the shape of one isn't known, since a part of it failed.
    pub is_unsure: bool,
}

impl Arguments {
    /// No arguments. It takes no memory.
    pub fn new(alloc: Global) -> Arguments
        ensures { result ≡ no_arguments }
    {
        Arguments {
            shapes: Items::new(alloc),
            cores: Items::new(alloc),
            is_unsure: false,
        }
    }

    /// One more, and whether its shape isn't known since a part of it failed. The one error is want of memory.
    pub fn add(&mut self, made: Made, is_unsure: bool) -> Result<(), AllocError>
        ensures { OnOk result (self.new ≡ record {
          shapes = self.old.shapes ++ made.shape ∷ [];
          cores = self.old.cores ++ made.core ∷ [];
          is_unsure = self.old.is_unsure || is_unsure;
        }) }
    {
        let shape = made.into_shape(&mut self.cores)?;
        self.shapes.push(shape)?;
        self.is_unsure = self.is_unsure || is_unsure;
        Ok(())
    }
}

/// What variables are solved to where parameters are of these shapes; none where they aren't. The one error is want of memory.
fn solved(
    alloc: Global,
    params: &[Shape],
    variables: usize,
    shapes: &[Shape],
) -> Result<Option<Items<Shape>>, AllocError>
    ensures { IfOk result (λ known. known ≡ learn_all (map learn params.now) shapes.now (holes_for variables)) }
{
    let mut known = holes(alloc, variables)?;
    if learn_shapes(alloc, params, shapes, &mut known)? {
        Ok(Some(known))
    } else {
        Ok(None)
    }
}

/// The first member whose parameters are of these shapes. The one error is want of memory.
pub fn choose<'c>(
    alloc: Global,
    candidates: &'c [Candidate],
    shapes: &[Shape],
) -> Result<Option<Choice<'c>>, AllocError>
    ensures { IfOk result (λ choice. option_map choice_of choice ≡ spec.chosen candidates.now shapes.now) }
{
    for candidate in candidates {
        if let Some(known) = solved(
            alloc,
            candidate.params.as_slice(),
            candidate.variables,
            shapes,
        )? {
            return Ok(Some(Choice { candidate, known }));
        }
    }
    Ok(None)
}

fn picked_with(
    alloc: Global,
    doing: Doing,
    answer: &Shape,
    known: Items<Shape>,
) -> Result<Picked, AllocError>
    ensures { IfOk result (λ made. made ≡ record { doing = doing; answer = put (at known) answer.now; known = known }) }
{
    let answer = put_shape(alloc, answer, known.as_slice())?;
    Ok(Picked {
        doing,
        answer,
        known,
    })
}

/// What a call does of the first member whose parameters are of these shapes. The one error is want of memory.
pub fn pick(
    alloc: Global,
    candidates: &[Candidate],
    shapes: &[Shape],
) -> Result<Option<Picked>, AllocError>
    ensures { IfOk result (λ made. made ≡ option_map picked_of (spec.chosen candidates.now shapes.now)) }
{
    match choose(alloc, candidates, shapes)? {
        Some(Choice { candidate, known }) => Ok(Some(picked_with(
            alloc,
            candidate.doing,
            &candidate.answer,
            known,
        )?)),
        None => Ok(None),
    }
}

/// The same of the members of builtins. The one error is want of memory.
pub fn pick_member(
    alloc: Global,
    members: &[Member],
    shapes: &[Shape],
) -> Result<Option<Picked>, AllocError>
    ensures { IfOk result (λ made. made ≡ option_map picked_of (spec.chosen (map spec.member_candidate members.now) shapes.now)) }
{
    for member in members {
        if let Some(known) = solved(alloc, member.params.as_slice(), 1, shapes)? {
            let doing = Doing::Calls(Callee::Row(member.row));
            return Ok(Some(picked_with(alloc, doing, &member.answer, known)?));
        }
    }
    Ok(None)
}

/// The parameters of `a :: b`. The one error is want of memory.
fn cons_params(alloc: Global) -> Result<Items<Shape>, AllocError>
    ensures { IfOk result (λ params. params ≡ spec.cons_candidate.params) }
{
    let mut params = Items::new(alloc);
    params.push(Shape::Variable(0))?;
    params.push(Shape::List(Boxed::new(alloc, Shape::Variable(0))?))?;
    Ok(params)
}

fn pick_cons(alloc: Global, shapes: &[Shape]) -> Result<Option<Picked>, AllocError>
    ensures { IfOk result (λ made. made ≡ option_map picked_of (spec.chosen (spec.cons_candidate ∷ []) shapes.now)) }
{
    let params = cons_params(alloc)?;
    match solved(alloc, params.as_slice(), 1, shapes)? {
        Some(known) => {
            let answer = Shape::List(Boxed::new(alloc, Shape::Variable(0))?);
            Ok(Some(picked_with(alloc, Doing::Conses, &answer, known)?))
        }
        None => Ok(None),
    }
}

/// The same of the members that the language gives an operator besides builtins.
fn pick_builtin(
    alloc: Global,
    operator: Operator,
    shapes: &[Shape],
) -> Result<Option<Picked>, AllocError>
    ensures { IfOk result (λ made. made ≡ option_map picked_of (spec.chosen (spec.builtin_members operator) shapes.now)) }
{
    match operator {
        Operator::Cons => pick_cons(alloc, shapes),
        _ => Ok(None),
    }
}

/// The same of all members that the language gives an operator.
#[tactic(auto, using(crate::proofs::Choices::picked_first, crate::proofs::Choices::picked_later))]
fn pick_own(
    alloc: Global,
    types: &Types,
    operator: Operator,
    shapes: &[Shape],
) -> Result<Option<Picked>, AllocError>
    ensures { IfOk result (λ made. made ≡ option_map picked_of (spec.chosen
        (spec.builtin_members operator ++ map spec.member_candidate (members_of types.now (rows_of_operator operator))) shapes.now)) }
{
    if let Some(made) = pick_builtin(alloc, operator, shapes)? {
        return Ok(Some(made));
    }
    let members = rows_members(alloc, types, operator_rows(operator))?;
    pick_member(alloc, members.as_slice(), shapes)
}

/// The same of an operator's members: its own come before those that overloads add. The one error is want of memory.
#[tactic(auto, using(crate::proofs::Choices::picked_first, crate::proofs::Choices::picked_later))]
pub fn pick_operator(
    alloc: Global,
    around: &Around<'_>,
    operator: Operator,
    shapes: &[Shape],
) -> Result<Option<Picked>, AllocError>
    ensures { IfOk result (λ made. made ≡ option_map picked_of (spec.chosen (spec.operator_members (setting_of around.now) operator) shapes.now)) }
{
    if let Some(made) = pick_own(alloc, around.types, operator, shapes)? {
        return Ok(Some(made));
    }
    pick(alloc, around.added(operator), shapes)
}

/// The same of the members of an operator before its operand. The one error is want of memory.
pub fn pick_prefix(
    alloc: Global,
    around: &Around<'_>,
    prefix: Prefix,
    shapes: &[Shape],
) -> Result<Option<Picked>, AllocError>
    ensures { IfOk result (λ made. made ≡ option_map picked_of (spec.chosen (spec.prefix_members (setting_of around.now) prefix) shapes.now)) }
{
    let members = rows_members(alloc, around.types, prefix_rows(prefix))?;
    pick_member(alloc, members.as_slice(), shapes)
}

/// A call of the member that was taken, if any was: which one hangs on a part that failed where the arguments are unsure. Notes that
/// no member fits. The one error is want of memory.
pub fn member_found(
    alloc: Global,
    place: Place,
    name: &str,
    want: &Shape,
    arguments: Arguments,
    picked: Option<Picked>,
    first: &mut First,
) -> Result<Made, AllocError>
    ensures made { IfOk result (λ made. made ≡ made_of (member_picked place name.now want.now arguments picked)) }
    ensures failures { OnOk result (first.new.error
        ≡ found.first_failure first.old.error (member_picked place name.now want.now arguments picked).faults) }
{
    let Some(picked) = picked else {
        let name = Text::new(alloc, name)?;
        return Ok(refused(alloc, ShapeError::NoMember { place, name }, first));
    };
    if arguments.is_unsure {
        return Ok(unknown(alloc, place));
    }
    let Picked {
        doing,
        answer,
        known,
    } = picked;
    let Arguments { cores, .. } = arguments;
    call_solved(
        alloc,
        place,
        want,
        doing,
        answer,
        known.as_slice(),
        cores,
        first,
    )
}

/// The call that reads a target, of the member that takes its arguments.
pub fn reader_of(choice: &Option<Choice<'_>>) -> Option<Caller>
    ensures { result ≡ target.reader_of (option_map choice_of choice.now) }
{
    match choice {
        Some(choice) => match doing_callee(choice.candidate.doing) {
            Some(callee) => Some(caller_of(callee)),
            None => None,
        },
        None => None,
    }
}
