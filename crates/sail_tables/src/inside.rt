use crate::depths::Depths;
use sail_base::Boxed;
use sail_syntax::{Case, Exp, FieldValue, Index, Joined, LExp, Pat, Range, Stmt, Suffix, Target};
use std::alloc::AllocError;

/// Wants memory where a type that is written in a pattern nests too deep.
#[cycle(check_pattern)]
pub(crate) fn check_pattern(pattern: &Pat, depths: &Depths<'_>) -> Result<(), AllocError> {
    match pattern {
        Pat::Construct(_, parts) => check_patterns(parts.as_slice(), depths),
        Pat::Group(_, _, parts) => check_patterns(parts.as_slice(), depths),
        Pat::Concat {
            first,
            second,
            more,
            ..
        } => {
            check_pattern(first.get(), depths)?;
            check_pattern(second.get(), depths)?;
            check_joined(more.as_slice(), depths)
        }
        Pat::Cons(_, head, tail) => {
            check_pattern(head.get(), depths)?;
            check_pattern(tail.get(), depths)
        }
        Pat::As(_, part, _) => check_pattern(part.get(), depths),
        Pat::Typed(_, part, typ) => {
            depths.check_type(typ)?;
            check_pattern(part.get(), depths)
        }
        _ => Ok(()),
    }
}

#[cycle(check_pattern)]
pub(crate) fn check_patterns(patterns: &[Pat], depths: &Depths<'_>) -> Result<(), AllocError> {
    for pattern in patterns {
        check_pattern(pattern, depths)?;
    }
    Ok(())
}

#[cycle(check_pattern)]
fn check_joined(parts: &[Joined], depths: &Depths<'_>) -> Result<(), AllocError> {
    for further in parts {
        check_pattern(&further.part, depths)?;
    }
    Ok(())
}

/// Wants memory where a type that is written in an expression nests too deep.
#[cycle(check_expression)]
pub(crate) fn check_expression(expression: &Exp, depths: &Depths<'_>) -> Result<(), AllocError> {
    match expression {
        Exp::Constant(_, _) => Ok(()),
        Exp::Variable(_) => Ok(()),
        Exp::Call(_, arguments) => check_expressions(arguments.as_slice(), depths),
        Exp::Prefixed(_, _, operand) => check_expression(operand.get(), depths),
        Exp::Infix { left, right, .. } => {
            check_expression(left.get(), depths)?;
            check_expression(right.get(), depths)
        }
        Exp::Leave(_, _, value) => check_expression(value.get(), depths),
        Exp::Group(_, _, items) => check_expressions(items.as_slice(), depths),
        Exp::Part(_, base, suffixes) => {
            check_expression(base.get(), depths)?;
            check_suffixes(suffixes.as_slice(), depths)
        }
        Exp::Typed(_, value, typ) => {
            depths.check_type(typ)?;
            check_expression(value.get(), depths)
        }
        Exp::Assign {
            target,
            more,
            value,
            ..
        } => {
            check_target(target.get(), depths)?;
            check_further(more.as_slice(), depths)?;
            check_expression(value.get(), depths)
        }
        Exp::Block(_, statements, value) => {
            check_statements(statements.as_slice(), depths)?;
            check_maybe(value, depths)
        }
        Exp::Let {
            pattern,
            bound,
            body,
            ..
        } => {
            check_pattern(pattern, depths)?;
            check_expression(bound.get(), depths)?;
            check_expression(body.get(), depths)
        }
        Exp::Var {
            typ,
            initial,
            body,
            ..
        } => {
            depths.check_maybe(typ)?;
            check_expression(initial.get(), depths)?;
            check_expression(body.get(), depths)
        }
        Exp::If {
            condition,
            then,
            otherwise,
            ..
        } => {
            check_expression(condition.get(), depths)?;
            check_expression(then.get(), depths)?;
            check_maybe(otherwise, depths)
        }
        Exp::Choose { value, cases, .. } => {
            check_expression(value.get(), depths)?;
            check_cases(cases.as_slice(), depths)
        }
        Exp::Foreach { range, body, .. } => {
            check_range(range.get(), depths)?;
            check_expression(body.get(), depths)
        }
        Exp::Loop {
            measure,
            condition,
            body,
            ..
        } => {
            check_maybe(measure, depths)?;
            check_expression(condition.get(), depths)?;
            check_expression(body.get(), depths)
        }
        Exp::Update {
            base,
            index,
            value,
            ..
        } => {
            check_expression(base.get(), depths)?;
            check_index(index.get(), depths)?;
            check_expression(value.get(), depths)
        }
        Exp::Struct(_, _, fields) => check_fields(fields.as_slice(), depths),
        Exp::With(_, base, fields) => {
            check_expression(base.get(), depths)?;
            check_fields(fields.as_slice(), depths)
        }
        Exp::OfType(_, _, typ) => depths.check_type(typ),
        Exp::Assert(_, condition, _) => check_expression(condition.get(), depths),
    }
}

/// Likewise, where there is one.
#[cycle(check_expression)]
pub(crate) fn check_maybe(
    part: &Option<Boxed<Exp>>,
    depths: &Depths<'_>,
) -> Result<(), AllocError> {
    match part {
        Some(part) => check_expression(part.get(), depths),
        None => Ok(()),
    }
}

#[cycle(check_expression)]
fn check_expressions(expressions: &[Exp], depths: &Depths<'_>) -> Result<(), AllocError> {
    for expression in expressions {
        check_expression(expression, depths)?;
    }
    Ok(())
}

#[cycle(check_expression)]
fn check_suffixes(suffixes: &[Suffix], depths: &Depths<'_>) -> Result<(), AllocError> {
    for suffix in suffixes {
        check_suffix(suffix, depths)?;
    }
    Ok(())
}

#[cycle(check_expression)]
fn check_suffix(suffix: &Suffix, depths: &Depths<'_>) -> Result<(), AllocError> {
    match suffix {
        Suffix::Field(_) => Ok(()),
        Suffix::At(_, index) => check_index(index, depths),
    }
}

#[cycle(check_expression)]
fn check_index(index: &Index, depths: &Depths<'_>) -> Result<(), AllocError> {
    check_expression(index.first.get(), depths)?;
    check_maybe(&index.last, depths)
}

#[cycle(check_expression)]
fn check_range(range: &Range, depths: &Depths<'_>) -> Result<(), AllocError> {
    check_expression(range.from.get(), depths)?;
    check_expression(range.to.get(), depths)?;
    check_maybe(&range.by, depths)
}

#[cycle(check_expression)]
fn check_further(targets: &[Target], depths: &Depths<'_>) -> Result<(), AllocError> {
    for further in targets {
        check_target(further.to.get(), depths)?;
    }
    Ok(())
}

#[cycle(check_expression)]
fn check_targets(targets: &[LExp], depths: &Depths<'_>) -> Result<(), AllocError> {
    for target in targets {
        check_target(target, depths)?;
    }
    Ok(())
}

#[cycle(check_expression)]
fn check_target(target: &LExp, depths: &Depths<'_>) -> Result<(), AllocError> {
    match target {
        LExp::ToName(_) => Ok(()),
        LExp::ToCall(_, arguments) => check_expressions(arguments.as_slice(), depths),
        LExp::ToTuple(_, targets) => check_targets(targets.as_slice(), depths),
        LExp::ToPart(_, base, suffixes) => {
            check_target(base.get(), depths)?;
            check_suffixes(suffixes.as_slice(), depths)
        }
    }
}

#[cycle(check_expression)]
fn check_statements(statements: &[Stmt], depths: &Depths<'_>) -> Result<(), AllocError> {
    for statement in statements {
        check_statement(statement, depths)?;
    }
    Ok(())
}

#[cycle(check_expression)]
fn check_statement(statement: &Stmt, depths: &Depths<'_>) -> Result<(), AllocError> {
    match statement {
        Stmt::Evaluate(value) => check_expression(value.get(), depths),
        Stmt::Define(_, pattern, bound) => {
            check_pattern(pattern, depths)?;
            check_expression(bound.get(), depths)
        }
        Stmt::Declare { typ, initial, .. } => {
            depths.check_maybe(typ)?;
            check_expression(initial.get(), depths)
        }
    }
}

#[cycle(check_expression)]
fn check_cases(cases: &[Case], depths: &Depths<'_>) -> Result<(), AllocError> {
    for case in cases {
        check_case(case, depths)?;
    }
    Ok(())
}

#[cycle(check_expression)]
fn check_case(case: &Case, depths: &Depths<'_>) -> Result<(), AllocError> {
    check_pattern(&case.pattern, depths)?;
    check_maybe(&case.guard, depths)?;
    check_expression(case.body.get(), depths)
}

#[cycle(check_expression)]
fn check_fields(fields: &[FieldValue], depths: &Depths<'_>) -> Result<(), AllocError> {
    for field in fields {
        check_expression(field.value.get(), depths)?;
    }
    Ok(())
}
