//! Forms over a list of expressions: groups, calls of one callee, and calls of several.
ghost use Rattle.std.specs.Prelude.{◌≡◌, [], ◌+◌, length, map, IfOk, OnOk};
ghost use Rattle.shape_rules.specs.declared.error.ShapeError.TheVariants as error;
ghost use Rattle.shape_rules.specs.Findings.{first_failure, refused as refused_of};
ghost use Rattle.shape_calls.specs.Picked.{arguments_of, member_picked};
ghost use Rattle.shape_rules.specs.Around.{setting_of};
ghost use Rattle.shape_rules.specs.Scopes.{Locals as Names};
ghost use Rattle.shape_calls.specs.Made.{made_of};
ghost use Rattle.shape_walks.specs.Walks.{given_shape, known_shapes, args_of};
ghost use Rattle.shape_walks.specs.Heads as spec;
ghost use Rattle.shape_rules.specs.Calls as calls;

use crate::walks::{Plan, Walk};
use sail_base::{Items, Operator, Place, Prefix};
use sail_core::{Kind, Literal};
use sail_syntax::{Brackets, Exp, Name};
use sail_types::{Member, Shape, copy_shapes};
use shape_calls::{
    Arguments, Made, Picked, call_found, known_behind, leaf, list_found, list_want, member_found,
    note_apart, operator_text, over, pick, pick_member, pick_operator, pick_prefix, prefix_text,
    refused, settled, tuple_wants, unit_found, vector_found, vector_want,
};
use shape_joins::{holes, put_shape};
use shape_patterns::takes_unit;
use shape_rules::{Around, Candidate, First, ShapeError};
use std::alloc::{AllocError, Global};

/// A form over a list of expressions.
#[derive(Clone, Copy)]
pub enum Head<'h> {
    /// `(a, b)`, `[a, b]` or `[| a, b |]`, at its bracket.
    Group(Place, Brackets),
    /// A call of one callee.
    One(Place, &'h Candidate),
    /// A call of an overload, with its members.
    Members(&'h Name, &'h [Candidate]),
    /// A call of a builtin that has several members.
    Rows(&'h Name, &'h [Member]),
    /// An operator before its operand.
    Prefixed(Place, Prefix),
    /// An operator between operands, whose members are looked at.
    Infix(Place, Operator),
}

/// How many expressions two lists have.
pub fn count_of(first: &[Exp], last: &[Exp]) -> usize
    ensures { result ≡ length first.now + length last.now }
{
    first.len() + last.len()
}

impl<'h> Head<'h> {
    /// What is found without a part. The one error is want of memory.
    pub fn bare(
        self,
        alloc: Global,
        around: &Around<'_>,
        want: &Shape,
        first: &mut First,
    ) -> Result<Made, AllocError>
        ensures made { IfOk result (λ made. (locals : Names) → made ≡ made_of (spec.head_found self.entry [] (setting_of around.now) locals want.now)) }
        ensures failures { OnOk result ((locals : Names) → first.new.error
            ≡ first_failure first.old.error (spec.head_found self.entry [] (setting_of around.now) locals want.now).faults) }
    {
        self.without_part(alloc, around, want, first)
    }

    /// The same, whatever names are in scope.
    fn without_part(
        self,
        alloc: Global,
        around: &Around<'_>,
        want: &Shape,
        first: &mut First,
    ) -> Result<Made, AllocError>
        ensures made { IfOk result (λ made. made ≡ made_of (spec.head_bare self.entry (setting_of around.now) want.now)) }
        ensures failures { OnOk result (first.new.error
            ≡ first_failure first.old.error (spec.head_bare self.entry (setting_of around.now) want.now).faults) }
    {
        match self {
            Head::Group(place, brackets) => group_bare(alloc, place, brackets, want, first),
            Head::One(place, callee) => one_bare(alloc, place, callee, want, first),
            Head::Members(name, _) => self.on_unit(alloc, name.place, around, want, first),
            Head::Rows(name, _) => self.on_unit(alloc, name.place, around, want, first),
            Head::Prefixed(_, _) => self.on_nothing(alloc, around, want, first),
            Head::Infix(_, _) => self.on_nothing(alloc, around, want, first),
        }
    }

    /// What is made of the one argument `()`.
    fn on_unit(
        self,
        alloc: Global,
        place: Place,
        around: &Around<'_>,
        want: &Shape,
        first: &mut First,
    ) -> Result<Made, AllocError>
        ensures made { IfOk result (λ made. made
            ≡ made_of (spec.head_made self.entry (setting_of around.now) want.now (spec.unit_walk place))) }
        ensures failures { OnOk result (first.new.error ≡ first_failure first.old.error
            (spec.head_made self.entry (setting_of around.now) want.now (spec.unit_walk place)).faults) }
    {
        let walk = with_unit(alloc, place)?;
        self.finish(alloc, around, walk, want, first)
    }

    /// What is made of no part.
    fn on_nothing(
        self,
        alloc: Global,
        around: &Around<'_>,
        want: &Shape,
        first: &mut First,
    ) -> Result<Made, AllocError>
        ensures made { IfOk result (λ made. made
            ≡ made_of (spec.head_made self.entry (setting_of around.now) want.now spec.no_walk)) }
        ensures failures { OnOk result (first.new.error ≡ first_failure first.old.error
            (spec.head_made self.entry (setting_of around.now) want.now spec.no_walk).faults) }
    {
        let walk = Walk::new(alloc, Plan::Each(Items::new(alloc)));
        self.finish(alloc, around, walk, want, first)
    }

    /// That it takes another count of parts; none where it takes so many.
    pub fn count_failure(self, count: usize) -> Option<ShapeError>
        ensures { result ≡ spec.head_fault self.entry count }
    {
        match self {
            Head::One(place, callee) => {
                let wanted = callee.params.len();
                if wanted == count {
                    None
                } else {
                    Some(ShapeError::Arity {
                        place,
                        wanted,
                        found: count,
                    })
                }
            }
            _ => None,
        }
    }

    /// What is wanted of so many parts, none of which was found yet. The one error is want of memory.
    #[tactic(auto, unfolding(crate::specs::Heads::head_walk))]
    pub fn begin(self, alloc: Global, count: usize, want: &Shape) -> Result<Walk, AllocError>
        ensures { IfOk result (λ walk. walk ≡ spec.head_walk self.entry count want.now) }
    {
        Ok(Walk::new(alloc, self.plan(alloc, count, want)?))
    }

    /// What is wanted of so many parts. The one error is want of memory.
    fn plan(self, alloc: Global, count: usize, want: &Shape) -> Result<Plan, AllocError>
        ensures { IfOk result (λ plan. plan ≡ spec.head_plan self.entry count want.now) }
    {
        match self {
            Head::Group(_, Brackets::Tuple) => {
                Ok(Plan::Each(copy_shapes(alloc, tuple_wants(count, want))?))
            }
            Head::Group(_, Brackets::Vector) => Ok(Plan::GivenOn(vector_want(alloc, want)?)),
            Head::Group(_, Brackets::List) => Ok(Plan::GivenOn(list_want(alloc, want)?)),
            Head::One(_, callee) => Ok(Plan::Params(
                copy_shapes(alloc, callee.params.as_slice())?,
                holes(alloc, callee.variables)?,
            )),
            _ => Ok(Plan::Each(Items::new(alloc))),
        }
    }

    /// What is made of parts that were found. The one error is want of memory.
    #[tactic(auto, unfolding(crate::specs::Heads::head_made))]
    pub fn finish(
        self,
        alloc: Global,
        around: &Around<'_>,
        walk: Walk,
        want: &Shape,
        first: &mut First,
    ) -> Result<Made, AllocError>
        ensures made { IfOk result (λ made. made ≡ made_of (spec.head_made self.entry (setting_of around.now) want.now walk)) }
        ensures failures { OnOk result (first.new.error
            ≡ first_failure first.old.error (spec.head_made self.entry (setting_of around.now) want.now walk).faults) }
    {
        match self {
            Head::Group(place, brackets) => group_made(alloc, place, brackets, walk, want, first),
            Head::One(place, callee) => one_made(alloc, place, callee, walk, want, first),
            Head::Members(name, members) => members_made(alloc, name, members, walk, want, first),
            Head::Rows(name, members) => rows_made(alloc, name, members, walk, want, first),
            Head::Prefixed(place, prefix) => {
                prefixed_made(alloc, place, prefix, around, walk, want, first)
            }
            Head::Infix(place, operator) => {
                infix_made(alloc, place, operator, around, walk, want, first)
            }
        }
    }
}

/// A call of one callee on arguments that were found.
fn one_made(
    alloc: Global,
    place: Place,
    callee: &Candidate,
    walk: Walk,
    want: &Shape,
    first: &mut First,
) -> Result<Made, AllocError>
    ensures made { IfOk result (λ made. made ≡ made_of (calls.call_found place want.now callee.now (known_shapes walk.plan) walk.cores)) }
    ensures failures { OnOk result (first.new.error
        ≡ first_failure first.old.error (calls.call_found place want.now callee.now (known_shapes walk.plan) walk.cores).faults) }
{
    let Walk { plan, cores, .. } = walk;
    let known = known_shapes(alloc, plan);
    call_found(alloc, place, want, callee, known.as_slice(), cores, first)
}

/// A call of an overload on arguments that were found.
fn members_made(
    alloc: Global,
    name: &Name,
    members: &[Candidate],
    walk: Walk,
    want: &Shape,
    first: &mut First,
) -> Result<Made, AllocError>
    ensures made { IfOk result (λ made. made ≡ made_of (calls.member_found name.now.place name.now.text want.now (args_of walk)
        (calls.chosen members.now walk.shapes))) }
    ensures failures { OnOk result (first.new.error ≡ first_failure first.old.error
        (calls.member_found name.now.place name.now.text want.now (args_of walk) (calls.chosen members.now walk.shapes)).faults) }
{
    let picked = pick(alloc, members, walk.shapes.as_slice())?;
    member_made(
        alloc,
        name.place,
        name.text.as_str(),
        walk,
        picked,
        want,
        first,
    )
}

/// A call of a builtin with several members on arguments that were found.
fn rows_made(
    alloc: Global,
    name: &Name,
    members: &[Member],
    walk: Walk,
    want: &Shape,
    first: &mut First,
) -> Result<Made, AllocError>
    ensures made { IfOk result (λ made. made ≡ made_of (calls.member_found name.now.place name.now.text want.now (args_of walk)
        (calls.chosen (map calls.member_candidate members.now) walk.shapes))) }
    ensures failures { OnOk result (first.new.error ≡ first_failure first.old.error (calls.member_found name.now.place name.now.text want.now
        (args_of walk) (calls.chosen (map calls.member_candidate members.now) walk.shapes)).faults) }
{
    let picked = pick_member(alloc, members, walk.shapes.as_slice())?;
    member_made(
        alloc,
        name.place,
        name.text.as_str(),
        walk,
        picked,
        want,
        first,
    )
}

/// An operator on the operand behind it.
fn prefixed_made(
    alloc: Global,
    place: Place,
    prefix: Prefix,
    around: &Around<'_>,
    walk: Walk,
    want: &Shape,
    first: &mut First,
) -> Result<Made, AllocError>
    ensures made { IfOk result (λ made. made ≡ made_of (calls.member_found place (calls.prefix_text prefix) want.now (args_of walk)
        (calls.chosen (calls.prefix_members (setting_of around.now) prefix) walk.shapes))) }
    ensures failures { OnOk result (first.new.error ≡ first_failure first.old.error (calls.member_found place (calls.prefix_text prefix) want.now
        (args_of walk) (calls.chosen (calls.prefix_members (setting_of around.now) prefix) walk.shapes)).faults) }
{
    let picked = pick_prefix(alloc, around, prefix, walk.shapes.as_slice())?;
    member_made(alloc, place, prefix_text(prefix), walk, picked, want, first)
}

/// An operator on its two operands.
fn infix_made(
    alloc: Global,
    place: Place,
    operator: Operator,
    around: &Around<'_>,
    walk: Walk,
    want: &Shape,
    first: &mut First,
) -> Result<Made, AllocError>
    ensures made { IfOk result (λ made. made ≡ made_of (calls.member_found place (calls.operator_text operator) want.now (args_of walk)
        (calls.chosen (calls.operator_members (setting_of around.now) operator) walk.shapes))) }
    ensures failures { OnOk result (first.new.error ≡ first_failure first.old.error (calls.member_found place (calls.operator_text operator) want.now
        (args_of walk) (calls.chosen (calls.operator_members (setting_of around.now) operator) walk.shapes)).faults) }
{
    let picked = pick_operator(alloc, around, operator, walk.shapes.as_slice())?;
    member_made(
        alloc,
        place,
        operator_text(operator),
        walk,
        picked,
        want,
        first,
    )
}

/// A call of one callee without a part: `()`, where it takes that. The one error is want of memory.
fn one_bare(
    alloc: Global,
    place: Place,
    callee: &Candidate,
    want: &Shape,
    first: &mut First,
) -> Result<Made, AllocError>
    ensures made { IfOk result (λ made. made ≡ made_of (spec.one_bare place want.now callee.now)) }
    ensures failures { OnOk result (first.new.error ≡ first_failure first.old.error (spec.one_bare place want.now callee.now).faults) }
{
    if takes_unit(callee.params.as_slice()) {
        one_on_unit(alloc, place, callee, want, first)
    } else {
        one_on_nothing(alloc, place, callee, want, first)
    }
}

/// A call of a callee on no argument.
fn one_on_nothing(
    alloc: Global,
    place: Place,
    callee: &Candidate,
    want: &Shape,
    first: &mut First,
) -> Result<Made, AllocError>
    ensures made { IfOk result (λ made. made ≡ made_of (spec.one_on_nothing place want.now callee.now)) }
    ensures failures { OnOk result (first.new.error ≡ first_failure first.old.error (spec.one_on_nothing place want.now callee.now).faults) }
{
    let wanted = callee.params.len();
    if wanted == 0 {
        let known = holes(alloc, callee.variables)?;
        call_found(
            alloc,
            place,
            want,
            callee,
            known.as_slice(),
            Items::new(alloc),
            first,
        )
    } else {
        Ok(wrong_count(alloc, place, wanted, 0, first))
    }
}

/// A call of a callee on `()`, as its first parameter.
fn one_on_unit(
    alloc: Global,
    place: Place,
    callee: &Candidate,
    want: &Shape,
    first: &mut First,
) -> Result<Made, AllocError>
    ensures made { IfOk result (λ made. made ≡ made_of (spec.one_on_unit place want.now callee.now)) }
    ensures failures { OnOk result (first.new.error ≡ first_failure first.old.error (spec.one_on_unit place want.now callee.now).faults) }
{
    let known = holes(alloc, callee.variables)?;
    match callee.params.get(0) {
        Some(param) => one_on_param(alloc, place, callee, param, known, want, first),
        None => call_found(
            alloc,
            place,
            want,
            callee,
            known.as_slice(),
            Items::new(alloc),
            first,
        ),
    }
}

/// A call of a callee on `()`, as a parameter whose variables are known so far.
fn one_on_param(
    alloc: Global,
    place: Place,
    callee: &Candidate,
    param: &Shape,
    known: Items<Shape>,
    want: &Shape,
    first: &mut First,
) -> Result<Made, AllocError>
    ensures made { IfOk result (λ made. made
        ≡ made_of (calls.solved_found place want.now callee.now (spec.unit_taught known param.now (spec.unit_at_param place known param.now)))) }
    ensures failures { OnOk result (first.new.error ≡ first_failure first.old.error
        (calls.solved_found place want.now callee.now (spec.unit_taught known param.now (spec.unit_at_param place known param.now))).faults) }
{
    let wanted = put_shape(alloc, param, known.as_slice())?;
    let mut apart = First::none();
    let made = unit_found(alloc, place, &wanted, &mut apart)?;
    let is_noted = apart.error.is_some();
    note_apart(first, apart);
    let learnt = known_behind(alloc, param, &made, known, is_noted, first)?;
    let mut cores = Items::new(alloc);
    made.into_shape(&mut cores)?;
    call_found(alloc, place, want, callee, learnt.as_slice(), cores, first)
}

/// That a form has another count of parts than it is to have.
pub(crate) fn wrong_count(
    alloc: Global,
    place: Place,
    wanted: usize,
    found: usize,
    first: &mut First,
) -> Made
    ensures made { result ≡ made_of (refused_of (error.Arity place wanted found)) }
    ensures failures { first.new.error ≡ first_failure first.old.error (refused_of (error.Arity place wanted found)).faults }
{
    let error = ShapeError::Arity {
        place,
        wanted,
        found,
    };
    refused(alloc, error, first)
}

/// A group without a part. The one error is want of memory.
fn group_bare(
    alloc: Global,
    place: Place,
    brackets: Brackets,
    want: &Shape,
    first: &mut First,
) -> Result<Made, AllocError>
    ensures made { IfOk result (λ made. made ≡ made_of (spec.group_bare place brackets want.now)) }
    ensures failures { OnOk result (first.new.error ≡ first_failure first.old.error (spec.group_bare place brackets want.now).faults) }
{
    match brackets {
        Brackets::Tuple => unit_found(alloc, place, want, first),
        Brackets::Vector => {
            let item = vector_want(alloc, want)?;
            vector_found(alloc, place, want, item, Items::new(alloc), first)
        }
        Brackets::List => list_found(alloc, place, want, Shape::Hole, Items::new(alloc), first),
    }
}

/// A group of at least one part. The one error is want of memory.
fn group_made(
    alloc: Global,
    place: Place,
    brackets: Brackets,
    walk: Walk,
    want: &Shape,
    first: &mut First,
) -> Result<Made, AllocError>
    ensures made { IfOk result (λ made. made ≡ made_of (spec.group_made place brackets want.now walk)) }
    ensures failures { OnOk result (first.new.error ≡ first_failure first.old.error (spec.group_made place brackets want.now walk).faults) }
{
    let Walk {
        plan,
        shapes,
        cores,
        ..
    } = walk;
    match brackets {
        Brackets::Tuple => {
            let core = over(place, Kind::Tuple, cores);
            settled(alloc, place, want, Shape::Tuple(shapes), core, first)
        }
        Brackets::Vector => vector_found(alloc, place, want, given_shape(plan), cores, first),
        Brackets::List => list_found(alloc, place, want, given_shape(plan), cores, first),
    }
}

/// The shape that was given on; `Never` where none was.
pub(crate) fn given_shape(plan: Plan) -> Shape
    ensures { result ≡ given_shape plan }
{
    match plan {
        Plan::GivenOn(want) => want,
        _ => Shape::Never,
    }
}

/// What is known of variables.
pub fn known_shapes(alloc: Global, plan: Plan) -> Items<Shape>
    ensures { result ≡ known_shapes plan }
{
    match plan {
        Plan::Params(_, known) => known,
        _ => Items::new(alloc),
    }
}

/// The one argument `()`, found with nothing wanted. The one error is want of memory.
fn with_unit(alloc: Global, place: Place) -> Result<Walk, AllocError>
    ensures { IfOk result (λ walk. walk ≡ spec.unit_walk place) }
{
    let mut walk = Walk::new(alloc, Plan::Each(Items::new(alloc)));
    walk.shapes.push(Shape::Unit)?;
    walk.cores
        .push(leaf(alloc, place, Kind::Constant(Literal::Unit)))?;
    Ok(walk)
}

/// A call of the member that was picked, if any was. The one error is want of memory.
fn member_made(
    alloc: Global,
    place: Place,
    name: &str,
    walk: Walk,
    picked: Option<Picked>,
    want: &Shape,
    first: &mut First,
) -> Result<Made, AllocError>
    ensures made { IfOk result (λ made. made ≡ made_of (member_picked place name.now want.now (arguments_of (args_of walk)) picked)) }
    ensures failures { OnOk result (first.new.error
        ≡ first_failure first.old.error (member_picked place name.now want.now (arguments_of (args_of walk)) picked).faults) }
{
    let Walk {
        shapes,
        cores,
        is_unsure,
        ..
    } = walk;
    let arguments = Arguments {
        shapes,
        cores,
        is_unsure,
    };
    member_found(alloc, place, name, want, arguments, picked, first)
}
