//! Code that is chosen by the numbers of opened variables: a test for each number, arm by arm. The last arm needs no test, and one arm alone no label.
ghost use Rattle.std.specs.Prelude.{◌≡◌, ◌+◌, [], ◌∷◌, ◌++◌, IfOk, OnOk};
ghost use Rattle.jib.specs.declared.code.Literal.TheVariants as literal;
ghost use Rattle.jib.specs.declared.code.Instruction.TheVariants as code;
ghost use Rattle.lowered_pieces.specs.Chains.{tests};
ghost use Rattle.lowered_pieces.specs.Emitted.{Emits, no_labels};
ghost use Rattle.lowered_pieces.specs.Forms.{kit_at};
ghost use Rattle.lowered_steps.specs.Setting.{kit_for};
ghost use Rattle.lowered_steps.specs.Stands.{depths_of};
ghost use Rattle.lowered_pieces.specs.Frames as frames;

use crate::setting::Setting;
use crate::stands::{Levels, depth_of};
use jib::{Literal, Operation};
use lowered_pieces::Coding;
use lowered_slots::Place;
use sail_types::Row;
use size_values::Picked;
use std::alloc::{AllocError, Global};

/// The number that an arm asks for, as a constant.
fn tested(pick: &Picked) -> Literal
    ensures { result ≡ literal.Integer pick.now.number }
{
    Literal::Integer(pick.number)
}

/// The tests of an arm, with a place for what they find, which lead to a label where a number is another one. They fail where memory is wanting.
pub fn put_tests(
    alloc: Global,
    coding: &mut Coding,
    setting: &Setting<'_>,
    levels: &Levels<'_>,
    temp: u32,
    label: u32,
    picked: &[Picked],
) -> Result<(), AllocError>
    ensures { OnOk result (Emits coding.old coding.new
        (λ name first. tests (kit_at (kit_for setting.now name) (depths_of levels.now)) temp label picked.now) no_labels) }
{
    match picked {
        [] => Ok(()),
        [pick, rest @ ..] => {
            let depth = depth_of(pick.variable, levels)?;
            coding.put_apply_at(
                alloc,
                Place::Temp(temp),
                setting.truth,
                Operation::Builtin(Row::Neq),
                Place::Number(pick.variable, depth),
                setting.integer,
                setting.integer,
                tested(pick),
            )?;
            coding.put_jump_if(Place::Temp(temp), setting.truth, label)?;
            put_tests(alloc, coding, setting, levels, temp, label, rest)
        }
    }
}

/// Where so many arms go on: a label, where there are two or more. It fails where labels end.
pub fn begin_arms(coding: &mut Coding, count: usize) -> Result<u32, AllocError>
    ensures end { IfOk result (λ end. end ≡ coding.old.labels) }
    ensures code { OnOk result (Emits coding.old coding.new (λ name first. []) (λ name. frames.end_labels count)) }
{
    if count < 2 {
        Ok(coding.labels)
    } else {
        coding.take_labels(1)
    }
}

/// Before an arm behind which others stand: the label of the next, and the tests. They fail where memory is wanting.
pub fn begin_arm(
    alloc: Global,
    coding: &mut Coding,
    setting: &Setting<'_>,
    levels: &Levels<'_>,
    temp: u32,
    picked: &[Picked],
) -> Result<u32, AllocError>
    ensures next { IfOk result (λ next. next ≡ coding.old.labels) }
    ensures code { OnOk result (Emits coding.old coding.new
        (λ name first. tests (kit_at (kit_for setting.now name) (depths_of levels.now)) temp first picked.now) (λ name. 1)) }
{
    let next = coding.take_labels(1)?;
    put_tests(alloc, coding, setting, levels, temp, next, picked)?;
    Ok(next)
}

/// Behind such an arm: on to the end, and the label of the next. It fails where memory is wanting.
pub fn end_arm(coding: &mut Coding, end: u32, next: u32) -> Result<(), AllocError>
    ensures { OnOk result (Emits coding.old coding.new (λ name first. code.Goto end ∷ code.Label next ∷ []) no_labels) }
{
    coding.put_goto(end)?;
    coding.put_label(next)
}

/// Behind all arms. It fails where memory is wanting.
pub fn end_arms(coding: &mut Coding, count: usize, end: u32) -> Result<(), AllocError>
    ensures { OnOk result (Emits coding.old coding.new (λ name first. frames.end_code count end) no_labels) }
{
    if count < 2 {
        Ok(())
    } else {
        coding.put_label(end)
    }
}
