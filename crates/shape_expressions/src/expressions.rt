//! What is made of an expression.
ghost use Rattle.std.specs.Prelude.{◌≡◌, IfOk, OnOk};
ghost use Rattle.shape_rules.specs.Around.{setting_of};
ghost use Rattle.shape_rules.specs.Findings.{first_failure};
ghost use Rattle.shape_rules.specs.Expressions.{elaborate as elaborated};
ghost use Rattle.shape_calls.specs.Made.{made_of};

use sail_syntax::{Asking, Choosing, Exp};
use sail_types::Shape;
use shape_calls::{Made, constant_found, name_found};
use shape_forms::{size, truth};
use shape_rules::{Around, First, Locals};
use shape_statements::{
    Walker, assert, block, block_alone, call_named, foreach, if_alone, if_else, infix, leave,
    let_in, listed, looped, match_cases, struct_found, try_cases, typed, var_in, with_found,
};
use shape_targets::{assign, part_found, update_found};
use shape_walks::Head;
use std::alloc::{AllocError, Global};

/// The shape and the core of an expression, where a shape is wanted (`Never`, where none is); notes its failures. The names in scope are
/// the same behind it as before it (Sail language manual, "Expressions").
///
/// A failure is a form of another shape than is wanted, or that has none (M14), a mapping whose sides may share values (M13), a wrong
/// count of arguments or fields (M15), operands that no member of an operator or an overload takes (M16), a variable in a written type
/// that gets no number (M17), and a second part of unknown width in a pattern (M18). The one error is want of memory, of which a number
/// past those of 128 bits is taken to want too much.
pub fn elaborate(
    alloc: Global,
    expression: &Exp,
    around: &Around<'_>,
    locals: &mut Locals,
    want: &Shape,
    first: &mut First,
) -> Result<Made, AllocError>
    ensures made { IfOk result (λ made. made ≡ made_of (elaborated expression.now (setting_of around.now) locals.old want.now)) }
    ensures failures { OnOk result (first.new.error ≡ first_failure first.old.error
        (elaborated expression.now (setting_of around.now) locals.old want.now).faults) }
    ensures locals { OnOk result (locals.new ≡ locals.old) }
{
    let walker = Walker {
        alloc,
        whole: expression,
        part: elaborate,
    };
    match expression {
        Exp::Constant(place, literal) => constant_found(alloc, *place, literal, want, first),
        Exp::Variable(name) => {
            let local = locals.find(name.text.as_str());
            let meant = around.value(name.text.as_str());
            name_found(alloc, name, local, meant, want, first)
        }
        Exp::Call(name, arguments) => {
            let front = arguments.as_slice();
            call_named(&walker, name, front, &[], around, locals, want, first)
        }
        Exp::Prefixed(place, prefix, operand) => listed(
            &walker,
            Head::Prefixed(*place, *prefix),
            std::slice::from_ref(operand.get()),
            &[],
            around,
            locals,
            want,
            first,
        ),
        Exp::Infix {
            place,
            operator,
            left,
            right,
        } => infix(
            &walker,
            *place,
            *operator,
            left.get(),
            right.get(),
            around,
            locals,
            want,
            first,
        ),
        Exp::Group(place, brackets, items) => listed(
            &walker,
            Head::Group(*place, *brackets),
            items.as_slice(),
            &[],
            around,
            locals,
            want,
            first,
        ),
        Exp::Leave(place, leaving, value) => {
            leave(
                &walker,
                *place,
                *leaving,
                value.get(),
                around,
                locals,
                want,
                first,
            )
        }
        Exp::Part(place, base, suffixes) => {
            part_found(
                &walker,
                *place,
                base.get(),
                suffixes.as_slice(),
                around,
                locals,
                want,
                first,
            )
        }
        Exp::Typed(place, value, typ) => {
            typed(
                &walker,
                *place,
                value.get(),
                typ,
                around,
                locals,
                want,
                first,
            )
        }
        Exp::Assign {
            place,
            target,
            more,
            value,
        } => assign(
            &walker,
            *place,
            target.get(),
            more.as_slice(),
            value.get(),
            around,
            locals,
            want,
            first,
        ),
        Exp::Block(place, statements, Some(value)) => {
            block(
                &walker,
                *place,
                statements.as_slice(),
                value.get(),
                around,
                locals,
                want,
                first,
            )
        }
        Exp::Block(place, statements, None) => {
            block_alone(
                &walker,
                *place,
                statements.as_slice(),
                around,
                locals,
                want,
                first,
            )
        }
        Exp::Let {
            place,
            pattern,
            bound,
            body,
        } => let_in(
            &walker,
            *place,
            pattern,
            bound.get(),
            body.get(),
            around,
            locals,
            want,
            first,
        ),
        Exp::Var {
            place,
            name,
            typ,
            initial,
            body,
        } => var_in(
            &walker,
            *place,
            name,
            typ,
            initial.get(),
            body.get(),
            around,
            locals,
            want,
            first,
        ),
        Exp::If {
            place,
            condition,
            then,
            otherwise: Some(otherwise),
        } => if_else(
            &walker,
            *place,
            condition.get(),
            then.get(),
            otherwise.get(),
            around,
            locals,
            want,
            first,
        ),
        Exp::If {
            place,
            condition,
            then,
            otherwise: None,
        } => if_alone(
            &walker,
            *place,
            condition.get(),
            then.get(),
            around,
            locals,
            want,
            first,
        ),
        Exp::Choose {
            place,
            choosing,
            value,
            cases,
        } => match choosing {
            Choosing::Match => match_cases(
                &walker,
                *place,
                cases.as_slice(),
                value.get(),
                around,
                locals,
                want,
                first,
            ),
            Choosing::Try => try_cases(
                &walker,
                *place,
                cases.as_slice(),
                value.get(),
                around,
                locals,
                want,
                first,
            ),
        },
        Exp::Foreach {
            place,
            name,
            range,
            body,
        } => foreach(
            &walker,
            *place,
            name,
            range.get(),
            body.get(),
            around,
            locals,
            want,
            first,
        ),
        Exp::Loop {
            place,
            looping,
            measure,
            condition,
            body,
        } => looped(
            &walker,
            *place,
            *looping,
            measure,
            condition.get(),
            body.get(),
            around,
            locals,
            want,
            first,
        ),
        Exp::Update {
            place,
            base,
            index,
            value,
        } => update_found(
            &walker,
            *place,
            base.get(),
            index.get(),
            value.get(),
            around,
            locals,
            want,
            first,
        ),
        Exp::Struct(place, name, fields) => {
            struct_found(
                &walker,
                *place,
                name,
                fields.as_slice(),
                around,
                locals,
                want,
                first,
            )
        }
        Exp::With(place, base, fields) => {
            with_found(
                &walker,
                *place,
                base.get(),
                fields.as_slice(),
                around,
                locals,
                want,
                first,
            )
        }
        Exp::OfType(place, asking, typ) => match asking {
            Asking::Sizeof => size(alloc, *place, typ, around, want, first),
            Asking::Constraint => truth(alloc, *place, typ, around, want, first),
        },
        Exp::Assert(place, condition, text) => {
            assert(
                &walker,
                *place,
                condition.get(),
                text,
                around,
                locals,
                want,
                first,
            )
        }
    }
}
