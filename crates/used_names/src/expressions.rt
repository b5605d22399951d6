ghost use Rattle.std.specs.Prelude.{◌≡◌, ◌++◌, ◌∷◌, [], map, OnOk};
ghost use Rattle.std.specs.Option.{option_map};
ghost use Rattle.sail_names.specs.Known.{setting_of};
ghost use Rattle.sail_names.specs.Uses as spec;
ghost use Rattle.used_names.specs.parts.Scopes.{IsInside};

use sail_base::{Boxed, Items, Kind, Place};
use sail_kinds::TableError;
use sail_names::{
    Around, Locals, enter_pattern, push_annotation, push_asked, push_field, push_field_clashes,
    push_leaving, push_missing_measure, push_struct, push_type, push_unless,
};
use sail_syntax::{Case, Exp, FieldValue, Index, LExp, Looping, Range, Stmt, Suffix, Target};
use std::alloc::{AllocError, Global};

/// Adds the failures of an expression. The one error is want of memory.
#[cycle(uses)]
#[tactic(auto, using(crate::proofs::Left::left_behind, crate::proofs::Left::left_one))]
pub fn push_expression<'a>(
    alloc: Global,
    expression: &'a Exp,
    around: Around,
    locals: &mut Locals<'a>,
    failures: &mut Items<TableError>,
) -> Result<(), AllocError>
    ensures failures { OnOk result (failures.new ≡ failures.old ++ spec.expression_failures expression.now (setting_of around.entry) locals.old) }
    ensures locals { OnOk result (locals.new ≡ locals.old) }
{
    match expression {
        Exp::Constant(_, _) => Ok(()),
        Exp::Variable(name) => push_unless(
            around.is_value(locals, name.text.as_str()),
            name,
            failures,
        ),
        Exp::Call(name, arguments) => {
            push_unless(around.is_callee(name.text.as_str()), name, failures)?;
            push_expressions(alloc, arguments.as_slice(), around, locals, failures)
        }
        Exp::Prefixed(_, _, operand) => push_expression(
            alloc,
            operand.get(),
            around,
            locals,
            failures,
        ),
        Exp::Infix { left, right, .. } => {
            push_expression(alloc, left.get(), around, locals, failures)?;
            push_expression(alloc, right.get(), around, locals, failures)
        }
        Exp::Leave(place, leaving, value) => {
            push_leaving(alloc, *place, *leaving, around, failures)?;
            push_expression(alloc, value.get(), around, locals, failures)
        }
        Exp::Group(_, _, items) => push_expressions(
            alloc,
            items.as_slice(),
            around,
            locals,
            failures,
        ),
        Exp::Part(_, base, suffixes) => {
            push_expression(alloc, base.get(), around, locals, failures)?;
            push_suffixes(alloc, suffixes.as_slice(), around, locals, failures)
        }
        Exp::Typed(_, value, typ) => {
            push_expression(alloc, value.get(), around, locals, failures)?;
            push_type(alloc, typ, around, Kind::Type, failures)
        }
        Exp::Assign {
            target,
            more,
            value,
            ..
        } => {
            push_target(alloc, target.get(), around, locals, failures)?;
            push_further(alloc, more.as_slice(), around, locals, failures)?;
            push_expression(alloc, value.get(), around, locals, failures)
        }
        Exp::Block(_, statements, value) => {
            let outside = locals.len();
            push_statements(alloc, statements.as_slice(), around, locals, failures)?;
            push_maybe(alloc, value, around, locals, failures)?;
            locals.leave(outside)
        }
        Exp::Let {
            pattern,
            bound,
            body,
            ..
        } => {
            push_expression(alloc, bound.get(), around, locals, failures)?;
            let outside = locals.len();
            enter_pattern(alloc, pattern, around, locals, failures)?;
            push_expression(alloc, body.get(), around, locals, failures)?;
            locals.leave(outside)
        }
        Exp::Var {
            name,
            typ,
            initial,
            body,
            ..
        } => {
            push_annotation(alloc, typ, around, failures)?;
            push_expression(alloc, initial.get(), around, locals, failures)?;
            let outside = locals.len();
            locals.declare(name)?;
            push_expression(alloc, body.get(), around, locals, failures)?;
            locals.leave(outside)
        }
        Exp::If {
            condition,
            then,
            otherwise,
            ..
        } => {
            push_expression(alloc, condition.get(), around, locals, failures)?;
            push_expression(alloc, then.get(), around, locals, failures)?;
            push_maybe(alloc, otherwise, around, locals, failures)
        }
        Exp::Choose { value, cases, .. } => {
            push_expression(alloc, value.get(), around, locals, failures)?;
            push_cases(alloc, cases.as_slice(), around, locals, failures)
        }
        Exp::Foreach {
            name,
            range,
            body,
            ..
        } => {
            push_range(alloc, range.get(), around, locals, failures)?;
            let outside = locals.len();
            locals.bind(name)?;
            push_expression(alloc, body.get(), around, locals, failures)?;
            locals.leave(outside)
        }
        Exp::Loop {
            place,
            looping,
            measure,
            condition,
            body,
        } => {
            push_measure(alloc, measure, *place, *looping, around, locals, failures)?;
            push_expression(alloc, condition.get(), around, locals, failures)?;
            push_expression(alloc, body.get(), around, locals, failures)
        }
        Exp::Update {
            base,
            index,
            value,
            ..
        } => {
            push_expression(alloc, base.get(), around, locals, failures)?;
            push_index(alloc, index.get(), around, locals, failures)?;
            push_expression(alloc, value.get(), around, locals, failures)
        }
        Exp::Struct(_, name, fields) => {
            push_struct(name, around, failures)?;
            push_field_clashes(alloc, fields.as_slice(), failures)?;
            push_fields(alloc, fields.as_slice(), around, locals, failures)
        }
        Exp::With(_, base, fields) => {
            push_expression(alloc, base.get(), around, locals, failures)?;
            push_field_clashes(alloc, fields.as_slice(), failures)?;
            push_fields(alloc, fields.as_slice(), around, locals, failures)
        }
        Exp::OfType(_, asking, typ) => push_asked(alloc, typ, around, *asking, failures),
        Exp::Assert(_, condition, _) => push_expression(
            alloc,
            condition.get(),
            around,
            locals,
            failures,
        ),
    }
}

#[cycle(uses)]
pub(crate) fn push_maybe<'a>(
    alloc: Global,
    part: &'a Option<Boxed<Exp>>,
    around: Around,
    locals: &mut Locals<'a>,
    failures: &mut Items<TableError>,
) -> Result<(), AllocError>
    ensures failures { OnOk result (failures.new ≡ failures.old
        ++ spec.maybe (option_map spec.expression_failures part.now) (setting_of around.entry) locals.old) }
    ensures locals { OnOk result (locals.new ≡ locals.old) }
{
    match part {
        Some(part) => push_expression(alloc, part.get(), around, locals, failures),
        None => Ok(()),
    }
}

#[cycle(uses)]
fn push_expressions<'a>(
    alloc: Global,
    expressions: &'a [Exp],
    around: Around,
    locals: &mut Locals<'a>,
    failures: &mut Items<TableError>,
) -> Result<(), AllocError>
    ensures failures { OnOk result (failures.new ≡ failures.old
        ++ spec.each (map spec.expression_failures expressions.now) (setting_of around.entry) locals.old) }
    ensures locals { OnOk result (locals.new ≡ locals.old) }
{
    for expression in expressions {
        push_expression(alloc, expression, around, locals, failures)?;
    }
    Ok(())
}

#[cycle(uses)]
fn push_suffixes<'a>(
    alloc: Global,
    suffixes: &'a [Suffix],
    around: Around,
    locals: &mut Locals<'a>,
    failures: &mut Items<TableError>,
) -> Result<(), AllocError>
    ensures failures { OnOk result (failures.new ≡ failures.old ++ spec.each (map spec.suffix_failures suffixes.now) (setting_of around.entry) locals.old) }
    ensures locals { OnOk result (locals.new ≡ locals.old) }
{
    for suffix in suffixes {
        push_suffix(alloc, suffix, around, locals, failures)?;
    }
    Ok(())
}

#[cycle(uses)]
fn push_suffix<'a>(
    alloc: Global,
    suffix: &'a Suffix,
    around: Around,
    locals: &mut Locals<'a>,
    failures: &mut Items<TableError>,
) -> Result<(), AllocError>
    ensures failures { OnOk result (failures.new ≡ failures.old ++ spec.suffix_failures suffix.now (setting_of around.entry) locals.old) }
    ensures locals { OnOk result (locals.new ≡ locals.old) }
{
    match suffix {
        Suffix::Field(name) => push_field(name, around, failures),
        Suffix::At(_, index) => push_index(alloc, index, around, locals, failures),
    }
}

#[cycle(uses)]
fn push_index<'a>(
    alloc: Global,
    index: &'a Index,
    around: Around,
    locals: &mut Locals<'a>,
    failures: &mut Items<TableError>,
) -> Result<(), AllocError>
    ensures failures { OnOk result (failures.new ≡ failures.old ++ spec.index_failures index.now (setting_of around.entry) locals.old) }
    ensures locals { OnOk result (locals.new ≡ locals.old) }
{
    push_expression(alloc, index.first.get(), around, locals, failures)?;
    push_maybe(alloc, &index.last, around, locals, failures)
}

#[cycle(uses)]
fn push_range<'a>(
    alloc: Global,
    range: &'a Range,
    around: Around,
    locals: &mut Locals<'a>,
    failures: &mut Items<TableError>,
) -> Result<(), AllocError>
    ensures failures { OnOk result (failures.new ≡ failures.old ++ spec.range_failures range.now (setting_of around.entry) locals.old) }
    ensures locals { OnOk result (locals.new ≡ locals.old) }
{
    push_expression(alloc, range.from.get(), around, locals, failures)?;
    push_expression(alloc, range.to.get(), around, locals, failures)?;
    push_maybe(alloc, &range.by, around, locals, failures)
}

#[cycle(uses)]
fn push_measure<'a>(
    alloc: Global,
    measure: &'a Option<Boxed<Exp>>,
    place: Place,
    looping: Looping,
    around: Around,
    locals: &mut Locals<'a>,
    failures: &mut Items<TableError>,
) -> Result<(), AllocError>
    ensures failures { OnOk result (failures.new ≡ failures.old
        ++ spec.measure_failures place looping (option_map spec.expression_failures measure.now) (setting_of around.entry) locals.old) }
    ensures locals { OnOk result (locals.new ≡ locals.old) }
{
    match measure {
        Some(measure) => push_expression(alloc, measure.get(), around.measure(), locals, failures),
        None => push_missing_measure(alloc, place, looping, failures),
    }
}

#[cycle(uses)]
fn push_further<'a>(
    alloc: Global,
    targets: &'a [Target],
    around: Around,
    locals: &mut Locals<'a>,
    failures: &mut Items<TableError>,
) -> Result<(), AllocError>
    ensures failures { OnOk result (failures.new ≡ failures.old ++ spec.each (map spec.further_failures targets.now) (setting_of around.entry) locals.old) }
    ensures locals { OnOk result (locals.new ≡ locals.old) }
{
    for further in targets {
        push_target(alloc, further.to.get(), around, locals, failures)?;
    }
    Ok(())
}

#[cycle(uses)]
fn push_targets<'a>(
    alloc: Global,
    targets: &'a [LExp],
    around: Around,
    locals: &mut Locals<'a>,
    failures: &mut Items<TableError>,
) -> Result<(), AllocError>
    ensures failures { OnOk result (failures.new ≡ failures.old ++ spec.each (map spec.target_failures targets.now) (setting_of around.entry) locals.old) }
    ensures locals { OnOk result (locals.new ≡ locals.old) }
{
    for target in targets {
        push_target(alloc, target, around, locals, failures)?;
    }
    Ok(())
}

#[cycle(uses)]
fn push_target<'a>(
    alloc: Global,
    target: &'a LExp,
    around: Around,
    locals: &mut Locals<'a>,
    failures: &mut Items<TableError>,
) -> Result<(), AllocError>
    ensures failures { OnOk result (failures.new ≡ failures.old ++ spec.target_failures target.now (setting_of around.entry) locals.old) }
    ensures locals { OnOk result (locals.new ≡ locals.old) }
{
    match target {
        LExp::ToName(name) => push_unless(
            around.is_assigned(locals, name.text.as_str()),
            name,
            failures,
        ),
        LExp::ToCall(name, arguments) => {
            push_unless(around.is_callee(name.text.as_str()), name, failures)?;
            push_expressions(alloc, arguments.as_slice(), around, locals, failures)
        }
        LExp::ToTuple(_, targets) => push_targets(
            alloc,
            targets.as_slice(),
            around,
            locals,
            failures,
        ),
        LExp::ToPart(_, base, suffixes) => {
            push_target(alloc, base.get(), around, locals, failures)?;
            push_suffixes(alloc, suffixes.as_slice(), around, locals, failures)
        }
    }
}

#[cycle(uses)]
#[tactic(auto, using(crate::proofs::Left::inside_itself, crate::proofs::Left::inside_trans))]
fn push_statements<'a>(
    alloc: Global,
    statements: &'a [Stmt],
    around: Around,
    locals: &mut Locals<'a>,
    failures: &mut Items<TableError>,
) -> Result<(), AllocError>
    ensures failures { OnOk result (failures.new ≡ failures.old
        ++ (spec.steps (map spec.statement_step statements.now) (setting_of around.entry) locals.old).failures) }
    ensures locals { OnOk result (locals.new ≡ (spec.steps (map spec.statement_step statements.now) (setting_of around.entry) locals.old).locals) }
    ensures inside { OnOk result (IsInside locals.new locals.old) }
{
    for statement in statements {
        push_statement(alloc, statement, around, locals, failures)?;
    }
    Ok(())
}

#[cycle(uses)]
#[tactic(auto, using(crate::proofs::Left::inside_itself, crate::proofs::Left::inside_one, crate::proofs::Left::inside_more))]
fn push_statement<'a>(
    alloc: Global,
    statement: &'a Stmt,
    around: Around,
    locals: &mut Locals<'a>,
    failures: &mut Items<TableError>,
) -> Result<(), AllocError>
    ensures failures { OnOk result (failures.new ≡ failures.old ++ (spec.statement_step statement.now (setting_of around.entry) locals.old).failures) }
    ensures locals { OnOk result (locals.new ≡ (spec.statement_step statement.now (setting_of around.entry) locals.old).locals) }
    ensures inside { OnOk result (IsInside locals.new locals.old) }
{
    match statement {
        Stmt::Evaluate(value) => push_expression(alloc, value.get(), around, locals, failures),
        Stmt::Define(_, pattern, bound) => {
            push_expression(alloc, bound.get(), around, locals, failures)?;
            enter_pattern(alloc, pattern, around, locals, failures)
        }
        Stmt::Declare {
            name,
            typ,
            initial,
            ..
        } => {
            push_annotation(alloc, typ, around, failures)?;
            push_expression(alloc, initial.get(), around, locals, failures)?;
            locals.declare(name)
        }
    }
}

#[cycle(uses)]
fn push_cases<'a>(
    alloc: Global,
    cases: &'a [Case],
    around: Around,
    locals: &mut Locals<'a>,
    failures: &mut Items<TableError>,
) -> Result<(), AllocError>
    ensures failures { OnOk result (failures.new ≡ failures.old ++ spec.each (map spec.case_failures cases.now) (setting_of around.entry) locals.old) }
    ensures locals { OnOk result (locals.new ≡ locals.old) }
{
    for case in cases {
        push_case(alloc, case, around, locals, failures)?;
    }
    Ok(())
}

#[cycle(uses)]
#[tactic(auto, using(crate::proofs::Left::left_behind))]
fn push_case<'a>(
    alloc: Global,
    case: &'a Case,
    around: Around,
    locals: &mut Locals<'a>,
    failures: &mut Items<TableError>,
) -> Result<(), AllocError>
    ensures failures { OnOk result (failures.new ≡ failures.old ++ spec.case_failures case.now (setting_of around.entry) locals.old) }
    ensures locals { OnOk result (locals.new ≡ locals.old) }
{
    let outside = locals.len();
    enter_pattern(alloc, &case.pattern, around, locals, failures)?;
    push_maybe(alloc, &case.guard, around, locals, failures)?;
    push_expression(alloc, case.body.get(), around, locals, failures)?;
    locals.leave(outside)
}

#[cycle(uses)]
fn push_fields<'a>(
    alloc: Global,
    fields: &'a [FieldValue],
    around: Around,
    locals: &mut Locals<'a>,
    failures: &mut Items<TableError>,
) -> Result<(), AllocError>
    ensures failures { OnOk result (failures.new ≡ failures.old ++ spec.fields_failures (map spec.field_of fields.now) (setting_of around.entry) locals.old) }
    ensures locals { OnOk result (locals.new ≡ locals.old) }
{
    for field in fields {
        push_field_value(alloc, field, around, locals, failures)?;
    }
    Ok(())
}

#[cycle(uses)]
fn push_field_value<'a>(
    alloc: Global,
    field: &'a FieldValue,
    around: Around,
    locals: &mut Locals<'a>,
    failures: &mut Items<TableError>,
) -> Result<(), AllocError>
    ensures failures { OnOk result (failures.new ≡ failures.old ++ spec.fields_failures (spec.field_of field.now ∷ []) (setting_of around.entry) locals.old) }
    ensures locals { OnOk result (locals.new ≡ locals.old) }
{
    push_field(&field.name, around, failures)?;
    push_expression(alloc, field.value.get(), around, locals, failures)
}
