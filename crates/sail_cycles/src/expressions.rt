ghost use Rattle.std.specs.Prelude.{◌≡◌, ◌++◌, map, OnOk};
ghost use Rattle.std.specs.Option.{option_copied, option_map};
ghost use Rattle.sail_names.specs.Known.{known_of};
ghost use Rattle.sail_names.specs.Patterns.{joined};
ghost use Rattle.sail_cycles.specs.Callees as spec;

use sail_base::{Boxed, Items, Operator};
use sail_names::{Global, Names};
use sail_syntax::{
    Case, Exp, FieldValue, Index, Joined, LExp, Name, Pat, Range, Stmt, Suffix, Target,
};
use std::alloc::AllocError;

/// Which names count.
#[derive(Clone, Copy, PartialEq, Eq, Debug)]
pub enum Which {
    /// Those of calls, of overloaded operators and of patterns.
    CallsAndPatterns,
    /// Those of patterns alone.
    Patterns,
}

/// Puts numbers at the end of a list.
fn push_all(numbers: &[usize], list: &mut Items<usize>) -> Result<(), AllocError>
    ensures { OnOk result (list.new ≡ list.old ++ numbers.now) }
{
    for number in numbers {
        list.push(*number)?;
    }
    Ok(())
}

/// Puts the numbers of what a call of a name can enter at the end of a list.
fn push_called(
    name: &Name,
    names: &Names,
    which: Which,
    list: &mut Items<usize>,
) -> Result<(), AllocError>
    ensures { OnOk result (list.new ≡ list.old ++ spec.called which (known_of names.now) name.now) }
{
    match which {
        Which::Patterns => Ok(()),
        Which::CallsAndPatterns => push_callees(names.value(name.text.as_str()), list),
    }
}

fn push_callees(global: Option<&Global>, list: &mut Items<usize>) -> Result<(), AllocError>
    ensures { OnOk result (list.new ≡ list.old ++ spec.callees_of_global (option_copied global.entry)) }
{
    match global {
        Some(Global::Function(number)) => list.push(*number),
        Some(Global::Mapping(number)) => list.push(*number),
        Some(Global::Direction(number)) => list.push(*number),
        Some(Global::Overload(members)) => push_all(members.as_slice(), list),
        _ => Ok(()),
    }
}

/// Puts the number of the mapping that a name names at the end of a list.
fn push_mapping(global: Option<&Global>, list: &mut Items<usize>) -> Result<(), AllocError>
    ensures { OnOk result (list.new ≡ list.old ++ spec.mappings_of_global (option_copied global.entry)) }
{
    match global {
        Some(Global::Mapping(number)) => list.push(*number),
        Some(Global::Direction(number)) => list.push(*number),
        _ => Ok(()),
    }
}

/// Puts the numbers of what an operator can enter at the end of a list.
fn push_operated(
    operator: Operator,
    names: &Names,
    which: Which,
    list: &mut Items<usize>,
) -> Result<(), AllocError>
    ensures { OnOk result (list.new ≡ list.old ++ spec.operated which (known_of names.now) operator) }
{
    match which {
        Which::Patterns => Ok(()),
        Which::CallsAndPatterns => push_all(names.overload(operator), list),
    }
}

/// Puts the numbers of the mappings that a pattern names at the end of a list. Where memory is wanting, some
/// may be there.
#[cycle(pattern_callees)]
pub(crate) fn push_pattern_callees(
    pattern: &Pat,
    names: &Names,
    list: &mut Items<usize>,
) -> Result<(), AllocError>
    ensures { OnOk result (list.new ≡ list.old ++ spec.pattern_callees (known_of names.now) pattern.now) }
{
    match pattern {
        Pat::Construct(name, parts) => {
            push_mapping(names.value(name.text.as_str()), list)?;
            push_patterns_callees(parts.as_slice(), names, list)
        }
        Pat::Group(_, _, parts) => push_patterns_callees(parts.as_slice(), names, list),
        Pat::Concat {
            first,
            second,
            more,
            ..
        } => {
            push_pattern_callees(first.get(), names, list)?;
            push_pattern_callees(second.get(), names, list)?;
            push_joined_callees(more.as_slice(), names, list)
        }
        Pat::Cons(_, head, tail) => {
            push_pattern_callees(head.get(), names, list)?;
            push_pattern_callees(tail.get(), names, list)
        }
        Pat::As(_, part, _) => push_pattern_callees(part.get(), names, list),
        Pat::Typed(_, part, _) => push_pattern_callees(part.get(), names, list),
        _ => Ok(()),
    }
}

#[cycle(pattern_callees)]
fn push_patterns_callees(
    patterns: &[Pat],
    names: &Names,
    list: &mut Items<usize>,
) -> Result<(), AllocError>
    ensures { OnOk result (list.new ≡ list.old ++ joined (map (spec.pattern_callees (known_of names.now)) patterns.now)) }
{
    for pattern in patterns {
        push_pattern_callees(pattern, names, list)?;
    }
    Ok(())
}

#[cycle(pattern_callees)]
fn push_joined_callees(
    parts: &[Joined],
    names: &Names,
    list: &mut Items<usize>,
) -> Result<(), AllocError>
    ensures { OnOk result (list.new ≡ list.old ++ joined (map (spec.joined_callees (known_of names.now)) parts.now)) }
{
    for further in parts {
        push_pattern_callees(&further.part, names, list)?;
    }
    Ok(())
}

/// Puts the numbers of what an expression can enter at the end of a list: the functions and mappings that it names
/// in calls, and in its patterns, or in its patterns alone. Where memory is wanting, some may be there.
#[cycle(callees)]
pub(crate) fn push_callees_of(
    expression: &Exp,
    names: &Names,
    which: Which,
    list: &mut Items<usize>,
) -> Result<(), AllocError>
    ensures { OnOk result (list.new ≡ list.old ++ spec.expression_callees which (known_of names.now) expression.now) }
{
    match expression {
        Exp::Constant(_, _) => Ok(()),
        Exp::Variable(_) => Ok(()),
        Exp::Call(name, arguments) => {
            push_called(name, names, which, list)?;
            push_expressions(arguments.as_slice(), names, which, list)
        }
        Exp::Prefixed(_, _, operand) => push_callees_of(operand.get(), names, which, list),
        Exp::Infix {
            operator,
            left,
            right,
            ..
        } => {
            push_callees_of(left.get(), names, which, list)?;
            push_callees_of(right.get(), names, which, list)?;
            push_operated(*operator, names, which, list)
        }
        Exp::Leave(_, _, value) => push_callees_of(value.get(), names, which, list),
        Exp::Group(_, _, items) => push_expressions(items.as_slice(), names, which, list),
        Exp::Part(_, base, suffixes) => {
            push_callees_of(base.get(), names, which, list)?;
            push_suffixes(suffixes.as_slice(), names, which, list)
        }
        Exp::Typed(_, value, _) => push_callees_of(value.get(), names, which, list),
        Exp::Assign {
            target,
            more,
            value,
            ..
        } => {
            push_target(target.get(), names, which, list)?;
            push_further(more.as_slice(), names, which, list)?;
            push_callees_of(value.get(), names, which, list)
        }
        Exp::Block(_, statements, value) => {
            push_statements(statements.as_slice(), names, which, list)?;
            push_maybe(value, names, which, list)
        }
        Exp::Let {
            pattern,
            bound,
            body,
            ..
        } => {
            push_callees_of(bound.get(), names, which, list)?;
            push_pattern_callees(pattern, names, list)?;
            push_callees_of(body.get(), names, which, list)
        }
        Exp::Var { initial, body, .. } => {
            push_callees_of(initial.get(), names, which, list)?;
            push_callees_of(body.get(), names, which, list)
        }
        Exp::If {
            condition,
            then,
            otherwise,
            ..
        } => {
            push_callees_of(condition.get(), names, which, list)?;
            push_callees_of(then.get(), names, which, list)?;
            push_maybe(otherwise, names, which, list)
        }
        Exp::Choose { value, cases, .. } => {
            push_callees_of(value.get(), names, which, list)?;
            push_cases(cases.as_slice(), names, which, list)
        }
        Exp::Foreach { range, body, .. } => {
            push_range(range.get(), names, which, list)?;
            push_callees_of(body.get(), names, which, list)
        }
        Exp::Loop {
            condition,
            body,
            ..
        } => {
            push_callees_of(condition.get(), names, which, list)?;
            push_callees_of(body.get(), names, which, list)
        }
        Exp::Update {
            base,
            index,
            value,
            ..
        } => {
            push_callees_of(base.get(), names, which, list)?;
            push_index(index.get(), names, which, list)?;
            push_callees_of(value.get(), names, which, list)
        }
        Exp::Struct(_, _, fields) => push_fields(fields.as_slice(), names, which, list),
        Exp::With(_, base, fields) => {
            push_callees_of(base.get(), names, which, list)?;
            push_fields(fields.as_slice(), names, which, list)
        }
        Exp::OfType(_, _, _) => Ok(()),
        Exp::Assert(_, condition, _) => push_callees_of(condition.get(), names, which, list),
    }
}

#[cycle(callees)]
fn push_maybe(
    part: &Option<Boxed<Exp>>,
    names: &Names,
    which: Which,
    list: &mut Items<usize>,
) -> Result<(), AllocError>
    ensures { OnOk result (list.new ≡ list.old ++ spec.maybe (option_map (spec.expression_callees which (known_of names.now)) part.now)) }
{
    match part {
        Some(part) => push_callees_of(part.get(), names, which, list),
        None => Ok(()),
    }
}

#[cycle(callees)]
fn push_expressions(
    expressions: &[Exp],
    names: &Names,
    which: Which,
    list: &mut Items<usize>,
) -> Result<(), AllocError>
    ensures { OnOk result (list.new ≡ list.old ++ joined (map (spec.expression_callees which (known_of names.now)) expressions.now)) }
{
    for expression in expressions {
        push_callees_of(expression, names, which, list)?;
    }
    Ok(())
}

#[cycle(callees)]
fn push_suffixes(
    suffixes: &[Suffix],
    names: &Names,
    which: Which,
    list: &mut Items<usize>,
) -> Result<(), AllocError>
    ensures { OnOk result (list.new ≡ list.old ++ joined (map (spec.suffix_callees which (known_of names.now)) suffixes.now)) }
{
    for suffix in suffixes {
        push_suffix(suffix, names, which, list)?;
    }
    Ok(())
}

#[cycle(callees)]
fn push_suffix(
    suffix: &Suffix,
    names: &Names,
    which: Which,
    list: &mut Items<usize>,
) -> Result<(), AllocError>
    ensures { OnOk result (list.new ≡ list.old ++ spec.suffix_callees which (known_of names.now) suffix.now) }
{
    match suffix {
        Suffix::Field(_) => Ok(()),
        Suffix::At(_, index) => push_index(index, names, which, list),
    }
}

#[cycle(callees)]
fn push_index(
    index: &Index,
    names: &Names,
    which: Which,
    list: &mut Items<usize>,
) -> Result<(), AllocError>
    ensures { OnOk result (list.new ≡ list.old ++ spec.index_callees which (known_of names.now) index.now) }
{
    push_callees_of(index.first.get(), names, which, list)?;
    push_maybe(&index.last, names, which, list)
}

#[cycle(callees)]
fn push_range(
    range: &Range,
    names: &Names,
    which: Which,
    list: &mut Items<usize>,
) -> Result<(), AllocError>
    ensures { OnOk result (list.new ≡ list.old ++ spec.range_callees which (known_of names.now) range.now) }
{
    push_callees_of(range.from.get(), names, which, list)?;
    push_callees_of(range.to.get(), names, which, list)?;
    push_maybe(&range.by, names, which, list)
}

#[cycle(callees)]
fn push_further(
    targets: &[Target],
    names: &Names,
    which: Which,
    list: &mut Items<usize>,
) -> Result<(), AllocError>
    ensures { OnOk result (list.new ≡ list.old ++ joined (map (spec.further_callees which (known_of names.now)) targets.now)) }
{
    for further in targets {
        push_target(further.to.get(), names, which, list)?;
    }
    Ok(())
}

#[cycle(callees)]
fn push_targets(
    targets: &[LExp],
    names: &Names,
    which: Which,
    list: &mut Items<usize>,
) -> Result<(), AllocError>
    ensures { OnOk result (list.new ≡ list.old ++ joined (map (spec.target_callees which (known_of names.now)) targets.now)) }
{
    for target in targets {
        push_target(target, names, which, list)?;
    }
    Ok(())
}

#[cycle(callees)]
fn push_target(
    target: &LExp,
    names: &Names,
    which: Which,
    list: &mut Items<usize>,
) -> Result<(), AllocError>
    ensures { OnOk result (list.new ≡ list.old ++ spec.target_callees which (known_of names.now) target.now) }
{
    match target {
        LExp::ToName(_) => Ok(()),
        LExp::ToCall(name, arguments) => {
            push_called(name, names, which, list)?;
            push_expressions(arguments.as_slice(), names, which, list)
        }
        LExp::ToTuple(_, targets) => push_targets(targets.as_slice(), names, which, list),
        LExp::ToPart(_, base, suffixes) => {
            push_target(base.get(), names, which, list)?;
            push_suffixes(suffixes.as_slice(), names, which, list)
        }
    }
}

#[cycle(callees)]
fn push_statements(
    statements: &[Stmt],
    names: &Names,
    which: Which,
    list: &mut Items<usize>,
) -> Result<(), AllocError>
    ensures { OnOk result (list.new ≡ list.old ++ joined (map (spec.statement_callees which (known_of names.now)) statements.now)) }
{
    for statement in statements {
        push_statement(statement, names, which, list)?;
    }
    Ok(())
}

#[cycle(callees)]
fn push_statement(
    statement: &Stmt,
    names: &Names,
    which: Which,
    list: &mut Items<usize>,
) -> Result<(), AllocError>
    ensures { OnOk result (list.new ≡ list.old ++ spec.statement_callees which (known_of names.now) statement.now) }
{
    match statement {
        Stmt::Evaluate(value) => push_callees_of(value.get(), names, which, list),
        Stmt::Define(_, pattern, bound) => {
            push_callees_of(bound.get(), names, which, list)?;
            push_pattern_callees(pattern, names, list)
        }
        Stmt::Declare { initial, .. } => push_callees_of(initial.get(), names, which, list),
    }
}

#[cycle(callees)]
fn push_cases(
    cases: &[Case],
    names: &Names,
    which: Which,
    list: &mut Items<usize>,
) -> Result<(), AllocError>
    ensures { OnOk result (list.new ≡ list.old ++ joined (map (spec.case_callees which (known_of names.now)) cases.now)) }
{
    for case in cases {
        push_case(case, names, which, list)?;
    }
    Ok(())
}

#[cycle(callees)]
fn push_case(
    case: &Case,
    names: &Names,
    which: Which,
    list: &mut Items<usize>,
) -> Result<(), AllocError>
    ensures { OnOk result (list.new ≡ list.old ++ spec.case_callees which (known_of names.now) case.now) }
{
    push_pattern_callees(&case.pattern, names, list)?;
    push_maybe(&case.guard, names, which, list)?;
    push_callees_of(case.body.get(), names, which, list)
}

#[cycle(callees)]
fn push_fields(
    fields: &[FieldValue],
    names: &Names,
    which: Which,
    list: &mut Items<usize>,
) -> Result<(), AllocError>
    ensures { OnOk result (list.new ≡ list.old ++ joined (map (spec.field_callees which (known_of names.now)) fields.now)) }
{
    for field in fields {
        push_callees_of(field.value.get(), names, which, list)?;
    }
    Ok(())
}
