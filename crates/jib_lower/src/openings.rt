//! The functions of top-level lets and initial values: of each one for its value, and behind it one for each name that the pattern of a let binds.
ghost use Rattle.std.specs.Prelude.{◌≡◌, ◌∷◌, [], Some, true, IfErr, IfNone, IfOk, IfSome, IsFalse, IsTrue, OnOk, slice_get};
ghost use Rattle.size_values.specs.declared.sized.Sized.TheVariants as S;
ghost use Rattle.jib.specs.Typing.{same};
ghost use Rattle.lowered_pieces.specs.Arms.{steps_in};
ghost use Rattle.lowered_pieces.specs.Mapped.{ends_with as ends_with_of, fixed_end};
ghost use Rattle.lowered_pieces.specs.Places.{Naming};
ghost use Rattle.lowered_ends.specs.Around.{node_for};
ghost use Rattle.lowered_steps.specs.Setting.{number_for};
ghost use Rattle.lowered_typed.specs.Judging.{typed};
ghost use Rattle.jib_lower.specs.Lowered.{ArmTaken, NameMade, OpenedFrom, ValueMade};
ghost use Rattle.jib_lower.specs.Lowered as spec;
ghost use Rattle.jib_lower.specs.Openings as grows;
ghost use Rattle.jib_lower.specs.Errors.{OrMemory};
ghost use Rattle.jib_lower.specs.Left as unmade;

use crate::error::LowerError;
use crate::functions::{Head, with_code};
use crate::instances::{Model, following, setting_of};
use crate::reads::tree_reads;
use jib::{Function as Made, Opening as MadeOpening};
use lowered_ends::{Around, ends_with, is_arm, is_lowered, node_ends};
use lowered_functions::{LetName, Walk, put_name, put_value};
use lowered_steps::{Setting, as_number, further};
use lowered_typed::{Judge, Signs, is_arm_typed, is_typed, name_type, put_types};
use sail_base::{Items, Place, Text};
use sail_core::{Arm, Core, Opening, OpeningKind, Step};
use size_values::{Sized, copy_sized, same_sized};
use sized_nodes::NodeSizes;
use std::alloc::{AllocError, Global};

/// What is made of the openings so far.
#[derive(Drop)]
pub struct Opened {
    /// The openings of the module.
    pub openings: Items<MadeOpening>,
    /// The types of their values.
    pub types: Items<u32>,
    /// For each name of a top-level let the opening that gives its value.
    pub names: Items<u32>,
    /// Their functions, where so many stand before.
    pub functions: Items<Made>,
    /// How many functions stand before.
    pub before: u32,
}

/// The steps of a flat arm; none of another.
fn steps_of(arm: &Arm) -> &[Step]
    ensures { result.now ≡ steps_in arm.now }
{
    match arm {
        Arm::Flat(_, steps) => steps.as_slice(),
        Arm::Nested(_) => &[],
    }
}

/// A function comes behind the others, as what gives the value of an opening. It fails where memory is wanting.
fn push_opening(
    opened: &mut Opened,
    register: Option<u32>,
    function: Made,
) -> Result<(), AllocError>
    ensures { OnOk result (grows.Pushed register function opened.old opened.new) }
{
    let count = opened.functions.len();
    let place = as_number(count)?;
    let number = further(opened.before, place)?;
    let result = function.result;
    opened.types.push(result)?;
    let made = MadeOpening {
        function: number,
        register,
    };
    opened.openings.push(made)?;
    opened.functions.push(function)?;
    Ok(())
}

/// What is around the function of an opening: it takes nothing, and knows the names of the lets before it.
fn around_of<'x>(model: &'x Model<'x>, opened: &'x Opened) -> Around<'x>
    ensures { grows.PureAround model.now opened.now result }
{
    let instances = model.sized.instances.as_slice();
    let openings = opened.names.as_slice();
    Around {
        instances,
        given: &[],
        openings,
        before: model.before,
    }
}

/// The types of what is around it: it is pure, and its result has the type of this number.
fn signs_of<'x>(model: &'x Model<'x>, opened: &'x Opened, typ: u32) -> Signs<'x>
    ensures { grows.PureSigns model.now opened.now typ result }
{
    let lets = opened.types.as_slice();
    Signs {
        shell: model.shell,
        lets,
        result: typ,
        is_pure: true,
        cycle: 0,
        called: &[],
        turned: &[],
        below: 0,
    }
}

// ---- values

/// The only type of the value of a node; none where there are more, or none. It fails where memory is wanting.
fn only_type(judge: &Judge<'_>, value: &Core) -> Result<Option<Sized>, AllocError>
    ensures some { IfOk result (λ found. IfSome found (unmade.OnlyType judge.now value.now)) }
    ensures none { IfOk result (λ found. IfNone found (unmade.NoOnlyType judge.now value.now)) }
{
    let mut types = Items::new(judge.alloc);
    put_types(judge, value, &mut types)?;
    match types.as_slice() {
        [only] => Ok(Some(copy_sized(judge.alloc, only)?)),
        _ => Ok(None),
    }
}

/// Whether this is the only type.
fn is_only(types: &[Sized], typ: &Sized) -> bool
    ensures is { IsTrue result → types.now ≡ typ.now ∷ [] }
    ensures no { IsFalse result → types.now ≡ typ.now ∷ [] → ⊥ }
{
    match types {
        [only] => same_sized(only, typ),
        _ => false,
    }
}

/// Whether the value of a node has this type alone. It fails where memory is wanting.
fn gives_only(judge: &Judge<'_>, value: &Core, typ: &Sized) -> Result<bool, AllocError>
    ensures is { IfOk result (λ answer. IsTrue answer → (typed judge.now value.now).types ≡ typ.now ∷ []) }
    ensures no { IfOk result (λ answer. IsFalse answer → (typed judge.now value.now).types ≡ typ.now ∷ [] → ⊥) }
{
    let mut types = Items::new(judge.alloc);
    put_types(judge, value, &mut types)?;
    let found = types.as_slice();
    let only = is_only(found, typ);
    Ok(only)
}

/// The code of a value that is lowered here and fits. It fails where a type has no number, and where memory is wanting.
fn value_code(
    walk: &Walk<'_>,
    judge: &Judge<'_>,
    head: &Head<'_>,
    of: &Opening,
    typ: &Sized,
) -> Result<Made, LowerError>
    requires able { (name : Naming) → (node_for walk.now.setting.now walk.now.around.now name of.now.value).ok ≡ true }
    requires right { (typed judge.now of.now.value).right ≡ true }
    requires only { (typed judge.now of.now.value).types ≡ typ.now ∷ [] }
    ensures made { IfOk result (λ made. grows.ValueCode walk.now judge.now head.now of.now typ.now made) }
    ensures left { IfErr result (OrMemory (unmade.ValueCodeLeft walk.now judge.now head.now of.now typ.now)) }
{
    let coding = put_value(&*walk, of.place, &of.value)?;
    let made = with_code(walk.alloc, walk.setting, head, of.place, coding)?;
    Ok(made)
}

/// The code of a value, which has this type. It fails where its tree isn't lowered here or doesn't fit, and where memory is wanting.
fn make_value(
    walk: &Walk<'_>,
    judge: &Judge<'_>,
    head: &Head<'_>,
    of: &Opening,
    typ: &Sized,
) -> Result<Made, LowerError>
    ensures made { IfOk result (λ made. grows.ValueCode walk.now judge.now head.now of.now typ.now made) }
    ensures left { IfErr result (OrMemory (unmade.ValueCodeLeft walk.now judge.now head.now of.now typ.now)) }
{
    let able = is_lowered(walk.alloc, walk.setting, walk.around, &of.value)?;
    let right = is_typed(judge, &of.value)?;
    let only = gives_only(judge, &of.value, typ)?;
    if able {
        if right {
            if only {
                value_code(walk, judge, head, of, typ)
            } else {
                Err(LowerError::NotLowered(of.place))
            }
        } else {
            Err(LowerError::NotLowered(of.place))
        }
    } else {
        Err(LowerError::NotLowered(of.place))
    }
}

/// The type of the value of an opening, where it has one. It fails where it has none or more, and where memory is wanting.
fn value_type<'x>(
    alloc: Global,
    model: &'x Model<'x>,
    opened: &'x Opened,
    nodes: &'x [Items<NodeSizes>],
    of: &Opening,
) -> Result<Sized, LowerError>
    ensures typ { IfOk result (unmade.ValueTyped model.now of.now nodes.now opened.now.types opened.now.names) }
    ensures left { IfErr result (OrMemory (unmade.NoType model.now of.now nodes.now opened.now.types opened.now.names)) }
{
    let plain = setting_of(model, nodes, &[])?;
    let reads = tree_reads(alloc, &plain, &of.value)?;
    let told = reads.as_slice();
    let setting = Setting {
        reads: told,
        ..plain
    };
    let around = around_of(model, opened);
    let signs = signs_of(model, opened, setting.unit);
    let judge = Judge {
        alloc,
        setting: &setting,
        around: &around,
        signs: &signs,
    };
    match only_type(&judge, &of.value)? {
        Some(typ) => Ok(typ),
        None => Err(LowerError::NotLowered(of.place)),
    }
}

/// The function that gives the value of an opening, of this type. It fails where its tree isn't lowered here or doesn't fit, and where memory is wanting.
fn value_function<'x>(
    alloc: Global,
    model: &'x Model<'x>,
    opened: &'x Opened,
    nodes: &'x [Items<NodeSizes>],
    of: &Opening,
    typ: &Sized,
) -> Result<Made, LowerError>
    ensures made { IfOk result (λ made. ValueMade model.now of.now nodes.now opened.now.types opened.now.names made) }
    ensures left { IfErr result (OrMemory (unmade.ValueLeft model.now of.now nodes.now opened.now.types opened.now.names typ.now)) }
{
    let plain = setting_of(model, nodes, &[])?;
    let reads = tree_reads(alloc, &plain, &of.value)?;
    let told = reads.as_slice();
    let setting = Setting {
        reads: told,
        ..plain
    };
    let around = around_of(model, opened);
    let result = setting.number(typ)?;
    let signs = signs_of(model, opened, result);
    let judge = Judge {
        alloc,
        setting: &setting,
        around: &around,
        signs: &signs,
    };
    let walk = Walk {
        alloc,
        setting: &setting,
        around: &around,
    };
    let count = as_number(opened.types.len())?;
    let head = Head {
        given: &[],
        result,
        cycle: 0,
        lets: count,
        is_pure: true,
    };
    make_value(&walk, &judge, &head, of, typ)
}

// ---- lets

/// Whether a name is among those that steps bind.
fn is_among(name: &Text, steps: &[Step]) -> bool
    ensures { result ≡ spec.is_among name.now (spec.names_in steps.now) }
{
    match steps {
        [] => false,
        [first, rest @ ..] => match first {
            Step::Names(_, other) => *name == *other || is_among(name, rest),
            Step::Opens(_, _, _) => is_among(name, rest),
            Step::Sees(_, _) => is_among(name, rest),
        },
    }
}

/// Whether steps bind each name once.
fn names_differ(steps: &[Step]) -> bool
    ensures { result ≡ spec.names_differ (spec.names_in steps.now) }
{
    match steps {
        [] => true,
        [first, rest @ ..] => match first {
            Step::Names(_, name) => !is_among(name, rest) && names_differ(rest),
            Step::Opens(_, _, _) => names_differ(rest),
            Step::Sees(_, _) => names_differ(rest),
        },
    }
}

/// Whether steps bind a name.
fn bind(steps: &[Step]) -> bool
    ensures { result ≡ spec.has_names (spec.names_in steps.now) }
{
    match steps {
        [] => false,
        [first, rest @ ..] => match first {
            Step::Names(_, _) => true,
            Step::Opens(_, _, _) => bind(rest),
            Step::Sees(_, _) => bind(rest),
        },
    }
}

/// Whether the function of a name looks at what can fail: where steps bind no name, there are none.
fn is_seen(steps: &[Step]) -> bool
    ensures { result ≡ spec.fails_seen steps.now }
{
    match steps {
        [] => true,
        [_, ..] => bind(steps),
    }
}

/// Whether one type is said of a value, and is this one. It fails where memory is wanting.
fn ends_whole(walk: &Walk<'_>, value: &Core, whole: &Sized) -> Result<bool, AllocError>
    ensures { IfOk result (λ answer. (name : Naming)
        → answer ≡ ends_with_of whole.now (fixed_end (node_for walk.now.setting.now walk.now.around.now name value.now).piece.ends)) }
{
    let ends = node_ends(walk.alloc, walk.setting, walk.around, value)?;
    let is_so = ends_with(whole, &ends);
    Ok(is_so)
}

/// Whether an arm over a value that has one type is lowered here, binds each name once, and a name where it can fail. It fails where memory is wanting.
fn is_taken(walk: &Walk<'_>, value: &Core, arm: &Arm, whole: &Sized) -> Result<bool, AllocError>
    ensures is { IfOk result (λ answer. IsTrue answer → ArmTaken walk.now.setting.now walk.now.around.now value.now arm.now whole.now) }
    ensures no { IfOk result (λ answer. IsFalse answer → unmade.NotTaken walk.now value.now arm.now whole.now) }
{
    let lowered = is_arm(walk.setting, arm);
    let steps = steps_of(arm);
    let differ = names_differ(steps);
    let seen = is_seen(steps);
    let ends = ends_whole(walk, value, whole)?;
    if lowered {
        if differ {
            if seen { Ok(ends) } else { Ok(false) }
        } else {
            Ok(false)
        }
    } else {
        Ok(false)
    }
}

/// The function that gives the value of a let, of this type. It fails where its tree or its pattern isn't lowered here or doesn't fit, and where memory is
/// wanting.
fn let_function<'x>(
    alloc: Global,
    model: &'x Model<'x>,
    opened: &'x Opened,
    nodes: &'x [Items<NodeSizes>],
    of: &Opening,
    arm: &Arm,
    whole: &Sized,
) -> Result<Made, LowerError>
    ensures made { IfOk result (λ made. grows.LetMade model.now of.now nodes.now opened.now.types opened.now.names arm.now whole.now made) }
    ensures left { IfErr result (OrMemory (unmade.LetValueLeft model.now of.now nodes.now opened.now.types opened.now.names arm.now whole.now)) }
{
    let plain = setting_of(model, nodes, &[])?;
    let reads = tree_reads(alloc, &plain, &of.value)?;
    let told = reads.as_slice();
    let setting = Setting {
        reads: told,
        ..plain
    };
    let around = around_of(model, opened);
    let result = setting.number(whole)?;
    let signs = signs_of(model, opened, result);
    let judge = Judge {
        alloc,
        setting: &setting,
        around: &around,
        signs: &signs,
    };
    let walk = Walk {
        alloc,
        setting: &setting,
        around: &around,
    };
    let count = as_number(opened.types.len())?;
    let head = Head {
        given: &[],
        result,
        cycle: 0,
        lets: count,
        is_pure: true,
    };
    let taken = is_taken(&walk, &of.value, arm, whole)?;
    if taken {
        make_value(&walk, &judge, &head, of, whole)
    } else {
        Err(LowerError::NotLowered(of.place))
    }
}

// ---- names

/// Whether the opening of this number gives values of a type. It fails where there are 2^32 types or more.
fn is_given(
    setting: &Setting<'_>,
    lets: &[u32],
    opening: u32,
    whole: &Sized,
) -> Result<bool, AllocError>
    ensures { IfOk result (λ answer. answer ≡ same (slice_get lets.now opening) (Some (number_for setting.now whole.now))) }
{
    let number = setting.number(whole)?;
    match lets.get(opening as usize) {
        Some(typ) => Ok(*typ == number),
        None => Ok(false),
    }
}

/// Whether a type was found, and is this one.
fn is_found(found: &Option<Sized>, typ: &Sized) -> bool
    ensures is { IsTrue result → found.now ≡ Some typ.now }
    ensures no { IsFalse result → found.now ≡ Some typ.now → ⊥ }
{
    match found {
        Some(other) => same_sized(other, typ),
        None => false,
    }
}

/// Whether a pattern over a value of this type fits, and the name holds a value of its type. It fails where memory is wanting.
fn is_held(judge: &Judge<'_>, name: &LetName<'_>, arm: &Arm) -> Result<bool, AllocError>
    ensures is { IfOk result (λ answer. IsTrue answer → grows.NameHeld judge.now name.now arm.now) }
    ensures no { IfOk result (λ answer. IsFalse answer → grows.NameHeld judge.now name.now arm.now → ⊥) }
{
    let given = std::slice::from_ref(name.whole);
    let right = is_arm_typed(judge, arm, given)?;
    let found = name_type(judge, name.steps, given, name.name)?;
    let same = is_found(&found, name.typ);
    if right { Ok(same) } else { Ok(false) }
}

/// The code of a name of a let that fits. It fails where a type has no number, and where memory is wanting.
fn name_code(
    walk: &Walk<'_>,
    judge: &Judge<'_>,
    head: &Head<'_>,
    name: &LetName<'_>,
    arm: &Arm,
) -> Result<Made, LowerError>
    requires bare { walk.now.setting.now.bodies.now ≡ [] }
    requires nothing { walk.now.setting.now.nothing.now ≡ S.Unit }
    requires given { same (slice_get judge.now.signs.now.lets.now name.now.opening) (Some (number_for walk.now.setting.now name.now.whole.now)) ≡ true }
    requires held { grows.NameHeld judge.now name.now arm.now }
    ensures made { IfOk result (λ made. grows.NameCode walk.now judge.now head.now name.now arm.now made) }
    ensures left { IfErr result (OrMemory (unmade.NameCodeLeft walk.now judge.now head.now name.now arm.now)) }
{
    let coding = put_name(&*walk, &*name)?;
    let made = with_code(walk.alloc, walk.setting, head, name.place, coding)?;
    Ok(made)
}

/// The code of a name of a let, whose value and type are known. It fails where its pattern doesn't fit, and where memory is wanting.
fn make_name(
    walk: &Walk<'_>,
    judge: &Judge<'_>,
    head: &Head<'_>,
    name: &LetName<'_>,
    arm: &Arm,
) -> Result<Made, LowerError>
    requires bare { walk.now.setting.now.bodies.now ≡ [] }
    ensures made { IfOk result (λ made. grows.NameCode walk.now judge.now head.now name.now arm.now made) }
    ensures left { IfErr result (OrMemory (unmade.NameCodeLeft walk.now judge.now head.now name.now arm.now)) }
{
    let nothing = same_sized(walk.setting.nothing, &Sized::Unit);
    let given = is_given(walk.setting, judge.signs.lets, name.opening, name.whole)?;
    let held = is_held(judge, name, arm)?;
    if nothing {
        if given {
            if held {
                name_code(walk, judge, head, name, arm)
            } else {
                Err(LowerError::NotLowered(name.place))
            }
        } else {
            Err(LowerError::NotLowered(name.place))
        }
    } else {
        Err(LowerError::NotLowered(name.place))
    }
}

/// The type of a name that steps bind over a value of this type, where they bind it. It fails where memory is wanting.
fn type_held(
    judge: &Judge<'_>,
    steps: &[Step],
    whole: &Sized,
    text: &Text,
) -> Result<Option<Sized>, AllocError>
    ensures some { IfOk result (λ found. IfSome found (unmade.HeldBy judge.now whole.now steps.now text.now)) }
    ensures none { IfOk result (λ found. IfNone found (unmade.NotHeldBy judge.now whole.now steps.now text.now)) }
{
    let typ = name_type(judge, steps, std::slice::from_ref(whole), text)?;
    Ok(typ)
}

/// The type of a name of a let, over a value of this type. It fails where the pattern has no such name, and where memory is wanting.
fn held_type<'x>(
    alloc: Global,
    model: &'x Model<'x>,
    opened: &'x Opened,
    place: Place,
    steps: &[Step],
    whole: &Sized,
    text: &Text,
) -> Result<Sized, LowerError>
    ensures typ { IfOk result (unmade.HeldAs model.now whole.now steps.now text.now opened.now.types opened.now.names) }
    ensures left { IfErr result (OrMemory (unmade.NoHeld model.now whole.now steps.now text.now opened.now.types opened.now.names)) }
{
    let setting = setting_of(model, &[], &[])?;
    let around = around_of(model, opened);
    let signs = signs_of(model, opened, setting.unit);
    let judge = Judge {
        alloc,
        setting: &setting,
        around: &around,
        signs: &signs,
    };
    match type_held(&judge, steps, whole, text)? {
        Some(typ) => Ok(typ),
        None => Err(LowerError::NotLowered(place)),
    }
}

/// The function that gives the value of a name of a let. It fails where its pattern doesn't fit, and where memory is wanting.
fn name_function<'x>(
    alloc: Global,
    model: &'x Model<'x>,
    opened: &'x Opened,
    arm: &Arm,
    name: &LetName<'_>,
) -> Result<Made, LowerError>
    requires steps { name.now.steps.now ≡ steps_in arm.now }
    ensures made { IfOk result (λ made. NameMade model.now name.now.place name.now.opening name.now.whole.now name.now.steps.now name.now.name.now
        opened.now.types opened.now.names made) }
    ensures left { IfErr result (OrMemory (unmade.NameFunctionLeft model.now name.now arm.now opened.now.types opened.now.names)) }
{
    let setting = setting_of(model, &[], &[])?;
    let around = around_of(model, opened);
    let result = setting.number(name.typ)?;
    let signs = signs_of(model, opened, result);
    let judge = Judge {
        alloc,
        setting: &setting,
        around: &around,
        signs: &signs,
    };
    let walk = Walk {
        alloc,
        setting: &setting,
        around: &around,
    };
    let count = as_number(opened.types.len())?;
    let head = Head {
        given: &[],
        result,
        cycle: 0,
        lets: count,
        is_pure: true,
    };
    make_name(&walk, &judge, &head, name, arm)
}

/// What stays of a let while the functions of its names are made.
#[derive(Clone, Copy)]
struct Bound<'a> {
    /// The let's first word.
    place: Place,
    /// The opening that gives its value.
    opening: u32,
    /// The type of the value.
    whole: &'a Sized,
    /// The pattern.
    arm: &'a Arm,
}

/// The function that gives the value of a name of a let comes behind the others. It fails where its pattern doesn't fit, and where memory is wanting.
fn add_name<'x>(
    alloc: Global,
    model: &'x Model<'x>,
    opened: &mut Opened,
    bound: &'x Bound<'x>,
    text: &'x Text,
) -> Result<(), LowerError>
    ensures added { OnOk result (grows.NameAdded model.now bound.now.place bound.now.opening bound.now.whole.now (steps_in bound.now.arm.now) text.now
        opened.old opened.new) }
    ensures left { IfErr result (OrMemory (unmade.NameLeft model.now bound.now.place bound.now.opening bound.now.whole.now bound.now.arm.now text.now
        opened.old.types opened.old.names)) }
{
    let steps = steps_of(bound.arm);
    let typ = held_type(
        alloc,
        &*model,
        &*opened,
        bound.place,
        steps,
        bound.whole,
        text,
    )?;
    let name = LetName {
        place: bound.place,
        opening: bound.opening,
        whole: bound.whole,
        steps,
        name: text,
        typ: &typ,
    };
    let function = name_function(alloc, &*model, &*opened, bound.arm, &name)?;
    let count = opened.types.len();
    let number = as_number(count)?;
    push_opening(opened, None, function)?;
    opened.names.push(number)?;
    Ok(())
}

/// The functions of the names that steps bind come behind the others. It fails where the pattern doesn't fit, and where memory is wanting.
fn add_names(
    alloc: Global,
    model: &Model<'_>,
    opened: &mut Opened,
    bound: &Bound<'_>,
    steps: &[Step],
) -> Result<(), LowerError>
    ensures added { OnOk result (grows.NamesAdded model.now bound.now.place bound.now.opening bound.now.whole.now (steps_in bound.now.arm.now)
        (spec.names_in steps.now) opened.old opened.new) }
    ensures left { IfErr result (OrMemory (unmade.NamesLeft model.now bound.now.place bound.now.opening bound.now.whole.now bound.now.arm.now
        (spec.names_in steps.now) opened.old.types opened.old.names)) }
{
    match steps {
        [] => Ok(()),
        [first, rest @ ..] => match first {
            Step::Names(_, text) => {
                add_name(alloc, &*model, opened, &*bound, text)?;
                add_names(alloc, model, opened, bound, rest)
            }
            Step::Opens(_, _, _) => add_names(alloc, model, opened, bound, rest),
            Step::Sees(_, _) => add_names(alloc, model, opened, bound, rest),
        },
    }
}

// ---- openings

/// Whether a register has the type of this number.
fn is_register(model: &Model<'_>, register: u32, number: u32) -> bool
    ensures is { IsTrue result → slice_get model.now.shell.now.registers register ≡ Some number }
    ensures no { IsFalse result → slice_get model.now.shell.now.registers register ≡ Some number → ⊥ }
{
    match model.shell.registers.get(register as usize) {
        Some(typ) => *typ == number,
        None => false,
    }
}

/// The function of an initial value comes behind the others. It fails where it isn't lowered here or doesn't fit, or has another type than its register, and
/// where memory is wanting.
fn add_register(
    alloc: Global,
    model: &Model<'_>,
    opened: &mut Opened,
    nodes: &[Items<NodeSizes>],
    of: &Opening,
    register: u32,
) -> Result<(), LowerError>
    ensures added { OnOk result (grows.RegisterAdded model.now of.now nodes.now register opened.old opened.new) }
    ensures left { IfErr result (OrMemory (unmade.RegisterLeft model.now of.now nodes.now opened.old.types opened.old.names register)) }
{
    let typ = value_type(alloc, &*model, &*opened, &*nodes, of)?;
    let function = value_function(alloc, &*model, &*opened, &*nodes, of, &typ)?;
    let fits = is_register(model, register, function.result);
    if fits {
        push_opening(opened, Some(register), function)?;
        Ok(())
    } else {
        Err(LowerError::NotLowered(of.place))
    }
}

/// The functions of a let come behind the others: that of its value, and those of its names. It fails where they aren't lowered here or don't fit, and where
/// memory is wanting.
fn add_let(
    alloc: Global,
    model: &Model<'_>,
    opened: &mut Opened,
    nodes: &[Items<NodeSizes>],
    of: &Opening,
    arm: &Arm,
) -> Result<(), LowerError>
    ensures added { OnOk result (grows.LetAdded model.now of.now nodes.now arm.now opened.old opened.new) }
    ensures left { IfErr result (OrMemory (unmade.LetLeft model.now of.now nodes.now opened.old.types opened.old.names arm.now)) }
{
    let whole = value_type(alloc, &*model, &*opened, &*nodes, of)?;
    let function = let_function(alloc, &*model, &*opened, &*nodes, of, arm, &whole)?;
    let count = opened.types.len();
    let number = as_number(count)?;
    let bound = Bound {
        place: of.place,
        opening: number,
        whole: &whole,
        arm: &*arm,
    };
    push_opening(opened, None, function)?;
    let steps = steps_of(arm);
    add_names(alloc, model, opened, &bound, steps)
}

/// The functions of an opening come behind the others. It fails where it isn't lowered here or doesn't fit, and where memory is wanting.
fn add_opening(
    alloc: Global,
    model: &Model<'_>,
    opened: &mut Opened,
    of: &Opening,
    nodes: &[Items<NodeSizes>],
) -> Result<(), LowerError>
    ensures added { OnOk result (grows.KindAdded model.now of.now nodes.now opened.old opened.new) }
    ensures left { IfErr result (OrMemory (unmade.KindLeft model.now of.now nodes.now opened.old.types opened.old.names)) }
{
    match &of.kind {
        OpeningKind::Register(register) => {
            add_register(alloc, model, opened, nodes, of, *register)
        }
        OpeningKind::Let(arm) => add_let(alloc, model, opened, nodes, of, arm),
    }
}

/// The functions of the opening at a place come behind the others. It fails where it isn't lowered here or doesn't fit, and where memory is wanting.
fn add_at(
    alloc: Global,
    model: &Model<'_>,
    opened: &mut Opened,
    at: usize,
    of: &Opening,
) -> Result<(), LowerError>
    ensures added { OnOk result (grows.OpeningAdded model.now at of.now opened.old opened.new) }
    ensures left { IfErr result (OrMemory (unmade.OpeningLeft model.now at of.now opened.old.types opened.old.names)) }
{
    match model.sized.openings.get(at) {
        Some(nodes) => add_opening(alloc, model, opened, of, std::slice::from_ref(nodes)),
        None => Err(LowerError::NotThere),
    }
}

/// The functions of openings from one on come behind the others. They fail where one isn't lowered here or doesn't fit, and where memory is wanting.
fn add_openings(
    alloc: Global,
    model: &Model<'_>,
    opened: &mut Opened,
    at: usize,
    openings: &[Opening],
) -> Result<(), LowerError>
    ensures added { OnOk result (grows.OpeningsAdded model.now at openings.now opened.old opened.new) }
    ensures left { IfErr result (OrMemory (unmade.OpeningsLeft model.now at openings.now opened.old.types opened.old.names)) }
{
    match openings {
        [] => Ok(()),
        [first, rest @ ..] => {
            add_at(alloc, model, opened, at, first)?;
            let next = following(at)?;
            add_openings(alloc, model, opened, next, rest)
        }
    }
}

/// The functions of all openings, behind so many others. They fail where one isn't lowered here or doesn't fit, and where memory is wanting.
pub fn make_openings(alloc: Global, model: &Model<'_>, before: u32) -> Result<Opened, LowerError>
    ensures made { IfOk result (λ opened. OpenedFrom model.now before opened) }
    ensures left { IfErr result (OrMemory (unmade.OpeningsLeft model.now 0 model.now.core.now.openings [] [])) }
{
    let mut opened = Opened {
        openings: Items::new(alloc),
        types: Items::new(alloc),
        names: Items::new(alloc),
        functions: Items::new(alloc),
        before,
    };
    let openings = model.core.openings.as_slice();
    add_openings(alloc, model, &mut opened, 0, openings)?;
    Ok(opened)
}
