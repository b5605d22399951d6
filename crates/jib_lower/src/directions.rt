//! The functions of directions of mappings, which give options.
ghost use Rattle.std.specs.Prelude.{◌≡◌, ◌∷◌, [], None, Some, true, IfErr, IfOk, IsFalse, IsTrue, OnOk, slice_get};
ghost use Rattle.lowered_pieces.specs.Mapped.{ends_with as ends_with_of, fixed_end};
ghost use Rattle.lowered_pieces.specs.Places.{Naming};
ghost use Rattle.lowered_ends.specs.Around.{node_for};
ghost use Rattle.lowered_typed.specs.Judging.{typed};
ghost use Rattle.lowered_types.specs.Table.{is_known as is_known_in};
ghost use Rattle.jib_lower.specs.Crossings.{AllStay};
ghost use Rattle.jib_lower.specs.Directions as spec;
ghost use Rattle.jib_lower.specs.Entering.{mapped_by as spec_mapped};
ghost use Rattle.jib_lower.specs.Errors.{OrMemory};
ghost use Rattle.jib_lower.specs.Functions.{walk_by};
ghost use Rattle.jib_lower.specs.Left.{NoBody, NoCycle, WayAtLeft, WayByLeft, WayCodeLeft, WayFunctionLeft, WayLeft, WaysLeft};

use crate::entering::mapped_by;
use crate::error::LowerError;
use crate::functions::{Head, with_code};
use crate::instances::{Model, number_of, setting_of};
use crate::leads::{are_alone, both};
use crate::reads::tree_reads;
use crate::turned::directions_stay;
use jib::Function as Made;
use lowered_ends::{Around, ends_with, is_lowered, node_ends};
use lowered_functions::{Walk, put_mapping};
use lowered_steps::{Mapped, Setting, as_number, find, further, is_never};
use lowered_typed::{Judge, Signs, is_typed};
use sail_base::Items;
use sail_core::{Core, CoreModel, Direction, Kind};
use sail_types::Typ;
use size_values::Sized;
use sized_nodes::NodeSizes;
use std::alloc::{AllocError, Global};

/// What a direction's body is, once it is a function: what its clauses give, of this type, as an option.
#[derive(Clone, Copy)]
struct Body<'a> {
    /// The type.
    typ: &'a Typ,
    /// The clauses.
    clauses: &'a Core,
}

/// The body of a direction that is a function. It fails where it is none.
fn body_of(direction: &Direction) -> Result<Body<'_>, LowerError>
    ensures body { IfOk result (λ body. spec.BodyOf direction.now body.typ.now body.clauses.now) }
    ensures left { IfErr result (OrMemory (NoBody direction.now)) }
{
    match &direction.body.kind {
        Kind::Optional(typ) => match direction.body.parts.as_slice() {
            [] => Err(LowerError::NotLowered(direction.place)),
            [clauses] => Ok(Body { typ, clauses }),
            [_, _, ..] => Err(LowerError::NotLowered(direction.place)),
        },
        _ => Err(LowerError::NotLowered(direction.place)),
    }
}

/// Whether clauses give values of one type, and of this one. It fails where memory is wanting.
fn gives_payload(walk: &Walk<'_>, clauses: &Core, payload: &Sized) -> Result<bool, AllocError>
    ensures { IfOk result (λ answer. (name : Naming)
        → answer ≡ ends_with_of payload.now (fixed_end (node_for walk.now.setting.now walk.now.around.now name clauses.now).piece.ends)) }
{
    let ends = node_ends(walk.alloc, walk.setting, walk.around, clauses)?;
    let is_so = ends_with(payload, &ends);
    Ok(is_so)
}

/// The code of a direction that is lowered here and fits. It fails where a type has no number, and where memory is wanting.
fn way_code(
    walk: &Walk<'_>,
    judge: &Judge<'_>,
    head: &Head<'_>,
    direction: &Direction,
    body: &Body<'_>,
    payload: &Sized,
) -> Result<Made, LowerError>
    requires able { (name : Naming) → (node_for walk.now.setting.now walk.now.around.now name body.now.clauses.now).ok ≡ true }
    requires ends { (name : Naming)
        → ends_with_of payload.now (fixed_end (node_for walk.now.setting.now walk.now.around.now name body.now.clauses.now).piece.ends) ≡ true }
    requires right { (typed judge.now direction.now.body).right ≡ true }
    ensures made { IfOk result (λ made.
        spec.WayCode walk.now judge.now head.now direction.now body.now.typ.now body.now.clauses.now payload.now made) }
    ensures left { IfErr result (OrMemory
        (WayCodeLeft walk.now judge.now head.now direction.now body.now.typ.now body.now.clauses.now payload.now)) }
{
    let place = direction.place;
    let coding = put_mapping(&*walk, place, body.typ, body.clauses, head.given)?;
    with_code(walk.alloc, walk.setting, head, place, coding)
}

/// The same of any direction. It fails where it isn't lowered here or doesn't fit, and where memory is wanting.
fn make_code(
    walk: &Walk<'_>,
    judge: &Judge<'_>,
    head: &Head<'_>,
    direction: &Direction,
    body: &Body<'_>,
    payload: &Sized,
) -> Result<Made, LowerError>
    ensures made { IfOk result (λ made.
        spec.WayCode walk.now judge.now head.now direction.now body.now.typ.now body.now.clauses.now payload.now made) }
    ensures left { IfErr result (OrMemory
        (WayCodeLeft walk.now judge.now head.now direction.now body.now.typ.now body.now.clauses.now payload.now)) }
{
    let able = is_lowered(walk.alloc, walk.setting, walk.around, body.clauses)?;
    let ends = gives_payload(walk, body.clauses, payload)?;
    let right = is_typed(judge, &direction.body)?;
    if able {
        if ends {
            if right {
                way_code(walk, judge, head, direction, body, payload)
            } else {
                Err(LowerError::NotLowered(direction.place))
            }
        } else {
            Err(LowerError::NotLowered(direction.place))
        }
    } else {
        Err(LowerError::NotLowered(direction.place))
    }
}

/// The code of a direction, made by what it is judged by. It fails where it isn't lowered here or doesn't fit, and where memory is wanting.
fn make_judged(
    judge: &Judge<'_>,
    head: &Head<'_>,
    direction: &Direction,
    body: &Body<'_>,
    payload: &Sized,
) -> Result<Made, LowerError>
    ensures made { IfOk result (λ made.
        spec.WayCode (walk_by judge.now) judge.now head.now direction.now body.now.typ.now body.now.clauses.now payload.now made) }
    ensures left { IfErr result (OrMemory
        (WayCodeLeft (walk_by judge.now) judge.now head.now direction.now body.now.typ.now body.now.clauses.now payload.now)) }
{
    let walk = Walk {
        alloc: judge.alloc,
        setting: judge.setting,
        around: judge.around,
    };
    make_code(&walk, judge, head, direction, body, payload)
}

/// Whether a type has a number, or is that of what doesn't exist.
fn is_known(numbered: &[Sized], typ: &Sized) -> bool
    ensures { result ≡ is_known_in numbered.now typ.now }
{
    let never = is_never(typ);
    let place = find(typ, numbered);
    if never { true } else { place < numbered.len() }
}

/// Whether the types of what is entered where a direction is asked have numbers.
fn are_known(numbered: &[Sized], mapped: &Mapped) -> bool
    ensures { result ≡ spec.types_known numbered.now mapped.now }
{
    let takes = is_known(numbered, &mapped.takes);
    let gives = is_known(numbered, &mapped.gives);
    let payload = is_known(numbered, &mapped.payload);
    let option = both(gives, payload);
    both(takes, option)
}

/// The function of a direction, by its body, by what is entered where it is asked and by the nodes of its mapping, where it has this number of a cycle. It
/// fails where it isn't lowered here or doesn't fit, and where memory is wanting.
fn way_function<'x>(
    alloc: Global,
    model: &'x Model<'x>,
    nodes: &'x [Items<NodeSizes>],
    direction: &Direction,
    body: &Body<'_>,
    mapped: &'x Mapped,
    cycle: u32,
) -> Result<Made, LowerError>
    requires body { spec.BodyOf direction.now body.now.typ.now body.now.clauses.now }
    ensures made { IfOk result (λ made. spec.WayTaken model.now nodes.now direction.now mapped.now cycle made) }
    ensures left { IfErr result (OrMemory (WayFunctionLeft model.now nodes.now direction.now mapped.now cycle)) }
{
    let plain = setting_of(model, nodes, &[])?;
    let told = tree_reads(alloc, &plain, &direction.body)?;
    let result = number_of(model.numbered, &mapped.gives)?;
    let lets = as_number(model.lets.len())?;
    let reads = told.as_slice();
    let setting = Setting {
        reads,
        directions: model.directions,
        ..plain
    };
    let instances = model.sized.instances.as_slice();
    let given = std::slice::from_ref(&mapped.takes);
    let around = Around {
        instances,
        given,
        openings: model.openings,
        before: model.before,
    };
    let signs = Signs {
        shell: model.shell,
        lets: model.lets,
        result,
        is_pure: false,
        cycle,
        called: model.called,
        turned: model.turned,
        below: mapped.function,
    };
    let judge = Judge {
        alloc,
        setting: &setting,
        around: &around,
        signs: &signs,
    };
    let head = Head {
        given,
        result,
        cycle,
        lets,
        is_pure: false,
    };
    make_judged(&judge, &head, direction, body, &mapped.payload)
}

/// The function of a direction, which has this number, by the nodes of its mapping, where it has this number of a cycle. It fails where it has no body of a
/// function, where that isn't lowered here or doesn't fit, and where memory is wanting.
fn way_by<'x>(
    alloc: Global,
    model: &'x Model<'x>,
    nodes: &'x Items<NodeSizes>,
    number: u32,
    direction: &Direction,
    cycle: u32,
) -> Result<Made, LowerError>
    ensures known { OnOk result (spec.types_known model.now.numbered.now (spec_mapped model.now.core.now.types number direction.now) ≡ true) }
    ensures taken { IfOk result (λ made.
        spec.WayTaken model.now (nodes.now ∷ []) direction.now (spec_mapped model.now.core.now.types number direction.now) cycle made) }
    ensures left { IfErr result (OrMemory (WayByLeft model.now (nodes.now ∷ []) number cycle direction.now)) }
{
    let body = body_of(direction)?;
    let mapped = mapped_by(alloc, &model.core.types, number, direction)?;
    let known = are_known(model.numbered, &mapped);
    if known {
        let bodies = std::slice::from_ref(nodes);
        way_function(alloc, &*model, bodies, direction, &body, &mapped, cycle)
    } else {
        Err(LowerError::NotLowered(direction.place))
    }
}

/// The function of the direction at a place, which has this number, where it has this number of a cycle. It fails where something returns in a direction,
/// where calls of it are not told apart by the numbers of their nodes, where it isn't lowered here or doesn't fit, and where memory is wanting.
fn make_way<'x>(
    alloc: Global,
    model: &'x Model<'x>,
    at: u32,
    number: u32,
    direction: &Direction,
    cycle: u32,
    stay: bool,
) -> Result<Made, LowerError>
    requires is { IsTrue stay → AllStay model.now.core.now.directions }
    requires no { IsFalse stay → AllStay model.now.core.now.directions → ⊥ }
    ensures made { IfOk result (λ made. spec.WayMade model.now at number cycle direction.now made) }
    ensures left { IfErr result (OrMemory (WayLeft model.now at number cycle direction.now)) }
{
    match model.sized.mappings.get((at / 2) as usize) {
        Some(nodes) => {
            let alone = are_alone(std::slice::from_ref(nodes));
            if stay {
                if alone {
                    way_by(alloc, &*model, nodes, number, direction, cycle)
                } else {
                    Err(LowerError::NotThere)
                }
            } else {
                Err(LowerError::NotLowered(direction.place))
            }
        }
        None => Err(LowerError::NotThere),
    }
}

/// The direction at a place. It fails where there is none.
fn direction_of(core: &CoreModel, at: u32) -> Result<&Direction, LowerError>
    ensures found { IfOk result (λ direction. slice_get core.now.directions at ≡ Some direction.now) }
    ensures left { IfErr result (OrMemory (slice_get core.now.directions at ≡ None)) }
{
    match core.directions.get(at as usize) {
        Some(direction) => Ok(direction),
        None => Err(LowerError::NotThere),
    }
}

/// Its number of a cycle. It fails where it has none.
fn cycle_of(turned: &[Option<u32>], at: u32) -> Result<u32, LowerError>
    ensures found { IfOk result (λ cycle. slice_get turned.now at ≡ Some (Some cycle)) }
    ensures left { IfErr result (OrMemory (NoCycle turned.now at)) }
{
    match turned.get(at as usize) {
        Some(own) => match own {
            Some(cycle) => Ok(*cycle),
            None => Err(LowerError::NotThere),
        },
        None => Err(LowerError::NotThere),
    }
}

/// The function of the direction at a place, which has this number. It fails where it isn't made.
fn way_at<'x>(
    alloc: Global,
    model: &'x Model<'x>,
    at: u32,
    number: u32,
    stay: bool,
) -> Result<Made, LowerError>
    requires is { IsTrue stay → AllStay model.now.core.now.directions }
    requires no { IsFalse stay → AllStay model.now.core.now.directions → ⊥ }
    ensures made { IfOk result (spec.WayAt model.now at number) }
    ensures left { IfErr result (OrMemory (WayAtLeft model.now at number)) }
{
    let direction = direction_of(model.core, at)?;
    let cycle = cycle_of(model.turned, at)?;
    make_way(alloc, &*model, at, number, direction, cycle, stay)
}

/// The functions of these directions come behind others, the first of which has this number. They fail where one isn't made.
fn push_ways<'x>(
    alloc: Global,
    model: &'x Model<'x>,
    number: u32,
    order: &[u32],
    stay: bool,
    ways: &mut Items<Made>,
) -> Result<(), LowerError>
    requires is { IsTrue stay → AllStay model.now.core.now.directions }
    requires no { IsFalse stay → AllStay model.now.core.now.directions → ⊥ }
    ensures added { OnOk result (spec.WaysAdded model.now number order.now ways.old ways.new) }
    ensures left { IfErr result (OrMemory (WaysLeft model.now number order.now)) }
{
    let mut place = number;
    for direction in order {
        let way = way_at(alloc, &*model, *direction, place, stay)?;
        ways.push(way)?;
        place = further(place, 1)?;
    }
    Ok(())
}

/// The functions of all directions that are made, in their order. They fail where one isn't lowered here or doesn't fit, and where memory is wanting.
pub fn make_ways<'x>(alloc: Global, model: &'x Model<'x>) -> Result<Items<Made>, LowerError>
    ensures made { IfOk result (λ ways. spec.WaysMade model.now 0 model.now.order.now ways) }
    ensures left { IfErr result (OrMemory (WaysLeft model.now 0 model.now.order.now)) }
{
    let directions = model.core.directions.as_slice();
    let stay = directions_stay(directions);
    let mut ways = Items::new(alloc);
    push_ways(alloc, &*model, 0, model.order, stay, &mut ways)?;
    Ok(ways)
}
