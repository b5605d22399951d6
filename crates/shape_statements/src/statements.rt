//! Names that are bound, and blocks.
ghost use Rattle.std.specs.Prelude.{◌≡◌, ◌<◌, ◌∷◌, ◌++◌, [], Some, None, map, IfOk, OnOk};
ghost use Rattle.shape_rules.specs.Around.{setting_of};
ghost use Rattle.shape_rules.specs.Findings.{first_failure};
ghost use Rattle.shape_rules.specs.Scopes.{under};
ghost use Rattle.shape_rules.specs.Statements as spec;
ghost use Rattle.shape_rules.specs.Expressions.{part};
ghost use Rattle.shape_calls.specs.Made.{made_of};
ghost use Rattle.shape_walks.specs.Trees.{statement_part};
ghost use Rattle.shape_forms.specs.Steps.{IsInside};
ghost use Rattle.sail_syntax.specs.declared.expressions.Stmt.{size-Stmt as statement_size};
ghost use Rattle.sail_syntax.specs.declared.expressions.Exp.{size-Exp as the_size};
ghost use denote.Param.Weighed.{most};
ghost use Rattle.shape_values.specs.Walkers.{Elaborates};

use sail_base::{Items, Place};
use sail_core::{Arm, Core, Kind, Statement, Written};
use sail_syntax::{Exp, Name, Pat, Stmt, TyExp};
use sail_types::Shape;
use shape_calls::{Made, over};
use shape_forms::{
    enter_pattern, enter_variable, note_hole, note_typ, settle_over, written_if, written_shape,
};
use shape_patterns::{has_typ, wanted_by};
use shape_rules::{Around, First, Locals};
use shape_values::{Walker, push_cast, push_part};
use std::alloc::{AllocError, Global};

/// `let p = e in e`. The one error is want of memory.
#[tactic(auto, using(shape_forms::proofs::Left::left_behind, shape_rules::proofs::Firsts::first_failure_append))]
pub fn let_in<
    F: Fn(Global, &Exp, &Around<'_>, &mut Locals, &Shape, &mut First) -> Result<Made, AllocError>,
>(
    walker: &Walker<'_, F>,
    place: Place,
    pattern: &Pat,
    value: &Exp,
    body: &Exp,
    around: &Around<'_>,
    locals: &mut Locals,
    want: &Shape,
    first: &mut First,
) -> Result<Made, AllocError>
    requires parts { Elaborates (the_size walker.now.whole.now) (F.pre walker.now.part) (F.post walker.now.part) }
    requires value { the_size value.now < the_size walker.now.whole.now }
    requires body { the_size body.now < the_size walker.now.whole.now }
    ensures made { IfOk result (λ made. made
        ≡ made_of (spec.let_found place pattern.now (part value.now) (part body.now) (setting_of around.now) locals.old want.now)) }
    ensures failures { OnOk result (first.new.error ≡ first_failure first.old.error
        (spec.let_found place pattern.now (part value.now) (part body.now) (setting_of around.now) locals.old want.now).faults) }
    ensures locals { OnOk result (locals.new ≡ locals.old) }
{
    let alloc = walker.alloc;
    let outside = locals.len();
    let mut parts = Items::new(alloc);
    let arm = bind(
        walker, place, pattern, value, around, locals, &mut parts, first,
    )?;
    let shape = push_part(walker, body, around, locals, want, &mut parts, first)?;
    locals.leave(outside)?;
    let core = over(place, Kind::Let(arm), parts);
    Ok(Made { shape, core })
}

/// `var x : T = e in e`. The one error is want of memory.
#[tactic(auto, using(shape_forms::proofs::Left::left_one, shape_rules::proofs::Firsts::first_failure_append))]
pub fn var_in<
    F: Fn(Global, &Exp, &Around<'_>, &mut Locals, &Shape, &mut First) -> Result<Made, AllocError>,
>(
    walker: &Walker<'_, F>,
    place: Place,
    name: &Name,
    typ: &Option<TyExp>,
    value: &Exp,
    body: &Exp,
    around: &Around<'_>,
    locals: &mut Locals,
    want: &Shape,
    first: &mut First,
) -> Result<Made, AllocError>
    requires parts { Elaborates (the_size walker.now.whole.now) (F.pre walker.now.part) (F.post walker.now.part) }
    requires value { the_size value.now < the_size walker.now.whole.now }
    requires body { the_size body.now < the_size walker.now.whole.now }
    ensures made { IfOk result (λ made. made
        ≡ made_of (spec.var_found place name.now typ.now (part value.now) (part body.now) (setting_of around.now) locals.old want.now)) }
    ensures failures { OnOk result (first.new.error ≡ first_failure first.old.error
        (spec.var_found place name.now typ.now (part value.now) (part body.now) (setting_of around.now) locals.old want.now).faults) }
    ensures locals { OnOk result (locals.new ≡ locals.old) }
{
    let alloc = walker.alloc;
    let outside = locals.len();
    let mut parts = Items::new(alloc);
    let typ = declare(
        walker, place, name, typ, value, around, locals, &mut parts, first,
    )?;
    let shape = push_part(walker, body, around, locals, want, &mut parts, first)?;
    locals.leave(outside)?;
    let core = over(place, Kind::Var(name.text.clone()?, typ), parts);
    Ok(Made { shape, core })
}

/// A pattern and what it is matched with, which goes behind other parts; the names that the pattern binds come into scope.
#[tactic(auto, using(shape_rules::proofs::Firsts::first_failure_append))]
fn bind<
    F: Fn(Global, &Exp, &Around<'_>, &mut Locals, &Shape, &mut First) -> Result<Made, AllocError>,
>(
    walker: &Walker<'_, F>,
    place: Place,
    pattern: &Pat,
    value: &Exp,
    around: &Around<'_>,
    locals: &mut Locals,
    parts: &mut Items<Core>,
    first: &mut First,
) -> Result<Arm, AllocError>
    requires parts { Elaborates (the_size walker.now.whole.now) (F.pre walker.now.part) (F.post walker.now.part) }
    requires value { the_size value.now < the_size walker.now.whole.now }
    ensures arm { IfOk result (λ arm. arm ≡ (spec.bound place pattern.now (part value.now) (setting_of around.now) locals.old).arm) }
    ensures parts { OnOk result (parts.new
        ≡ parts.old ++ (spec.bound place pattern.now (part value.now) (setting_of around.now) locals.old).part ∷ []) }
    ensures locals { OnOk result (locals.new
        ≡ under (spec.bound place pattern.now (part value.now) (setting_of around.now) locals.old).binds locals.old) }
    ensures failures { OnOk result (first.new.error ≡ first_failure first.old.error
        (spec.bound place pattern.now (part value.now) (setting_of around.now) locals.old).faults) }
{
    let alloc = walker.alloc;
    let wanted = wanted_by(alloc, pattern, around)?;
    let shape = push_cast(walker, value, around, locals, &wanted, parts, first)?;
    note_hole(place, has_typ(pattern), &shape, first);
    enter_pattern(alloc, pattern, around, locals, &shape, first)
}

/// A `var` and its value, which goes behind other parts; the name comes into scope. Gives the type that is written.
#[tactic(auto, using(shape_rules::proofs::Firsts::first_failure_append))]
fn declare<
    F: Fn(Global, &Exp, &Around<'_>, &mut Locals, &Shape, &mut First) -> Result<Made, AllocError>,
>(
    walker: &Walker<'_, F>,
    place: Place,
    name: &Name,
    typ: &Option<TyExp>,
    value: &Exp,
    around: &Around<'_>,
    locals: &mut Locals,
    parts: &mut Items<Core>,
    first: &mut First,
) -> Result<Option<Written>, AllocError>
    requires parts { Elaborates (the_size walker.now.whole.now) (F.pre walker.now.part) (F.post walker.now.part) }
    requires value { the_size value.now < the_size walker.now.whole.now }
    ensures typ { IfOk result (λ written. written
        ≡ (spec.declaring place name.now typ.now (part value.now) (setting_of around.now) locals.old).typ) }
    ensures parts { OnOk result (parts.new
        ≡ parts.old ++ (spec.declaring place name.now typ.now (part value.now) (setting_of around.now) locals.old).part ∷ []) }
    ensures locals { OnOk result (locals.new
        ≡ (spec.declaring place name.now typ.now (part value.now) (setting_of around.now) locals.old).local ∷ locals.old) }
    ensures failures { OnOk result (first.new.error ≡ first_failure first.old.error
        (spec.declaring place name.now typ.now (part value.now) (setting_of around.now) locals.old).faults) }
{
    let alloc = walker.alloc;
    note_typ(alloc, typ, around, first)?;
    let wanted = written_shape(alloc, typ, around)?;
    let shape = push_cast(walker, value, around, locals, &wanted, parts, first)?;
    note_hole(place, typ.is_some(), &shape, first);
    enter_variable(alloc, name, typ, around, shape, locals)?;
    written_if(alloc, typ, around)
}

/// `{ s; e }`. The one error is want of memory.
#[tactic(auto, using(shape_forms::proofs::Left::left, shape_rules::proofs::Firsts::first_failure_append))]
pub fn block<
    F: Fn(Global, &Exp, &Around<'_>, &mut Locals, &Shape, &mut First) -> Result<Made, AllocError>,
>(
    walker: &Walker<'_, F>,
    place: Place,
    statements: &[Stmt],
    value: &Exp,
    around: &Around<'_>,
    locals: &mut Locals,
    want: &Shape,
    first: &mut First,
) -> Result<Made, AllocError>
    requires parts { Elaborates (the_size walker.now.whole.now) (F.pre walker.now.part) (F.post walker.now.part) }
    requires statements { most statement_size statements.now < the_size walker.now.whole.now }
    requires value { the_size value.now < the_size walker.now.whole.now }
    ensures made { IfOk result (λ made. made ≡ made_of
        (spec.block_found place (map statement_part statements.now) (Some (part value.now)) (setting_of around.now) locals.old want.now)) }
    ensures failures { OnOk result (first.new.error ≡ first_failure first.old.error
        (spec.block_found place (map statement_part statements.now) (Some (part value.now)) (setting_of around.now) locals.old want.now).faults) }
    ensures locals { OnOk result (locals.new ≡ locals.old) }
{
    let alloc = walker.alloc;
    let outside = locals.len();
    let mut parts = Items::new(alloc);
    let statements = push_statements(walker, statements, around, locals, &mut parts, first)?;
    let shape = push_part(walker, value, around, locals, want, &mut parts, first)?;
    locals.leave(outside)?;
    let core = over(place, Kind::Block(statements), parts);
    Ok(Made { shape, core })
}

/// `{ s; }`, which is `()`. The one error is want of memory.
#[tactic(auto, using(shape_forms::proofs::Left::left, shape_rules::proofs::Firsts::first_failure_append), unfolding(shape_forms::specs::Over::over_found))]
pub fn block_alone<
    F: Fn(Global, &Exp, &Around<'_>, &mut Locals, &Shape, &mut First) -> Result<Made, AllocError>,
>(
    walker: &Walker<'_, F>,
    place: Place,
    statements: &[Stmt],
    around: &Around<'_>,
    locals: &mut Locals,
    want: &Shape,
    first: &mut First,
) -> Result<Made, AllocError>
    requires parts { Elaborates (the_size walker.now.whole.now) (F.pre walker.now.part) (F.post walker.now.part) }
    requires statements { most statement_size statements.now < the_size walker.now.whole.now }
    ensures made { IfOk result (λ made. made ≡ made_of
        (spec.block_found place (map statement_part statements.now) None (setting_of around.now) locals.old want.now)) }
    ensures failures { OnOk result (first.new.error ≡ first_failure first.old.error
        (spec.block_found place (map statement_part statements.now) None (setting_of around.now) locals.old want.now).faults) }
    ensures locals { OnOk result (locals.new ≡ locals.old) }
{
    let alloc = walker.alloc;
    let outside = locals.len();
    let mut parts = Items::new(alloc);
    let statements = push_statements(walker, statements, around, locals, &mut parts, first)?;
    locals.leave(outside)?;
    settle_over(
        alloc,
        place,
        want,
        Shape::Unit,
        Kind::Block(statements),
        parts,
        first,
    )
}

/// The statements of a block, whose parts go behind others; what they bind comes into scope.
#[tactic(auto, using(shape_forms::proofs::Left::inside_itself, shape_forms::proofs::Left::inside_trans, shape_rules::proofs::Firsts::first_failure_append))]
fn push_statements<
    F: Fn(Global, &Exp, &Around<'_>, &mut Locals, &Shape, &mut First) -> Result<Made, AllocError>,
>(
    walker: &Walker<'_, F>,
    statements: &[Stmt],
    around: &Around<'_>,
    locals: &mut Locals,
    parts: &mut Items<Core>,
    first: &mut First,
) -> Result<Items<Statement>, AllocError>
    requires parts { Elaborates (the_size walker.now.whole.now) (F.pre walker.now.part) (F.post walker.now.part) }
    requires statements { most statement_size statements.now < the_size walker.now.whole.now }
    ensures statements { IfOk result (λ made. made
        ≡ (spec.blocked (map statement_part statements.now) (setting_of around.now) locals.old).statements) }
    ensures parts { OnOk result (parts.new
        ≡ parts.old ++ (spec.blocked (map statement_part statements.now) (setting_of around.now) locals.old).parts) }
    ensures locals { OnOk result (locals.new
        ≡ (spec.blocked (map statement_part statements.now) (setting_of around.now) locals.old).locals) }
    ensures inside { OnOk result (IsInside locals.new locals.old) }
    ensures failures { OnOk result (first.new.error ≡ first_failure first.old.error
        (spec.blocked (map statement_part statements.now) (setting_of around.now) locals.old).faults) }
{
    let alloc = walker.alloc;
    let mut made = Items::new(alloc);
    for statement in statements {
        let now = push_statement(walker, statement, around, locals, parts, first)?;
        made.push(now)?;
    }
    Ok(made)
}

/// A statement, whose part goes behind others; what it binds comes into scope.
#[tactic(auto, using(shape_forms::proofs::Left::inside_itself, shape_forms::proofs::Left::inside_one, shape_forms::proofs::Left::inside_more, shape_rules::proofs::Firsts::first_failure_append))]
fn push_statement<
    F: Fn(Global, &Exp, &Around<'_>, &mut Locals, &Shape, &mut First) -> Result<Made, AllocError>,
>(
    walker: &Walker<'_, F>,
    statement: &Stmt,
    around: &Around<'_>,
    locals: &mut Locals,
    parts: &mut Items<Core>,
    first: &mut First,
) -> Result<Statement, AllocError>
    requires parts { Elaborates (the_size walker.now.whole.now) (F.pre walker.now.part) (F.post walker.now.part) }
    requires statement { statement_size statement.now < the_size walker.now.whole.now }
    ensures statement { IfOk result (λ made. made ≡ (statement_part statement.now (setting_of around.now) locals.old).statement) }
    ensures parts { OnOk result (parts.new ≡ parts.old ++ (statement_part statement.now (setting_of around.now) locals.old).part ∷ []) }
    ensures locals { OnOk result (locals.new ≡ (statement_part statement.now (setting_of around.now) locals.old).locals) }
    ensures inside { OnOk result (IsInside locals.new locals.old) }
    ensures failures { OnOk result (first.new.error ≡ first_failure first.old.error
        (statement_part statement.now (setting_of around.now) locals.old).faults) }
{
    match statement {
        Stmt::Evaluate(value) => {
            push_part(
                walker,
                value.get(),
                around,
                locals,
                &Shape::Unit,
                parts,
                first,
            )?;
            Ok(Statement::Evaluate)
        }
        Stmt::Define(place, pattern, value) => {
            let arm = bind(
                walker,
                *place,
                pattern,
                value.get(),
                around,
                locals,
                parts,
                first,
            )?;
            Ok(Statement::Define(*place, arm))
        }
        Stmt::Declare {
            place,
            name,
            typ,
            initial,
        } => {
            let value = initial.get();
            let typ = declare(
                walker, *place, name, typ, value, around, locals, parts, first,
            )?;
            Ok(Statement::Declare(name.text.clone()?, typ))
        }
    }
}
