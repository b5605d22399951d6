ghost use Rattle.std.specs.Prelude.{◌≡◌, IfOk};
ghost use Rattle.sail_syntax.specs.declared.expressions.Exp.TheVariants as V;

use crate::expressions::{Case, Exp, FieldValue, Index, LExp, Range, Stmt, Suffix, Target};
use crate::name::{Literal, Name};
use crate::patterns::Pat;
use crate::types::TyExp;
use crate::words::{Asking, Brackets, Choosing, Leaving, Looping};
use sail_base::{Boxed, Items, Operator, Place, Prefix, Text};
use std::alloc::{AllocError, Global};

/// A literal. It fails where memory is wanting.
pub fn constant(alloc: Global, place: Place, literal: Literal) -> Result<Boxed<Exp>, AllocError>
    ensures { IfOk result (λ made. made ≡ V.Constant place literal) }
{
    Boxed::new(alloc, Exp::Constant(place, literal))
}

/// A bare identifier. It fails where memory is wanting.
pub fn variable(alloc: Global, name: Name) -> Result<Boxed<Exp>, AllocError>
    ensures { IfOk result (λ made. made ≡ V.Variable name) }
{
    Boxed::new(alloc, Exp::Variable(name))
}

/// A call. It fails where memory is wanting.
pub fn call(alloc: Global, name: Name, arguments: Items<Exp>) -> Result<Boxed<Exp>, AllocError>
    ensures { IfOk result (λ made. made ≡ V.Call name arguments) }
{
    Boxed::new(alloc, Exp::Call(name, arguments))
}

/// A prefix and its operand. It fails where memory is wanting.
pub fn prefixed(
    alloc: Global,
    place: Place,
    prefix: Prefix,
    operand: Boxed<Exp>,
) -> Result<Boxed<Exp>, AllocError>
    ensures { IfOk result (λ made. made ≡ V.Prefixed place prefix operand) }
{
    Boxed::new(alloc, Exp::Prefixed(place, prefix, operand))
}

/// Two operands around an operator. It fails where memory is wanting.
pub fn infix(
    alloc: Global,
    place: Place,
    operator: Operator,
    left: Boxed<Exp>,
    right: Boxed<Exp>,
) -> Result<Boxed<Exp>, AllocError>
    ensures { IfOk result (λ made. made ≡ V.Infix place operator left right) }
{
    Boxed::new(
        alloc,
        Exp::Infix {
            place,
            operator,
            left,
            right,
        },
    )
}

/// `return`, `throw` or `exit`. It fails where memory is wanting.
pub fn leave(
    alloc: Global,
    place: Place,
    leaving: Leaving,
    value: Boxed<Exp>,
) -> Result<Boxed<Exp>, AllocError>
    ensures { IfOk result (λ made. made ≡ V.Leave place leaving value) }
{
    Boxed::new(alloc, Exp::Leave(place, leaving, value))
}

/// A tuple, a vector or a list. It fails where memory is wanting.
pub fn group(
    alloc: Global,
    place: Place,
    brackets: Brackets,
    items: Items<Exp>,
) -> Result<Boxed<Exp>, AllocError>
    ensures { IfOk result (λ made. made ≡ V.Group place brackets items) }
{
    Boxed::new(alloc, Exp::Group(place, brackets, items))
}

/// A base with its suffixes. It fails where memory is wanting.
pub fn part(
    alloc: Global,
    place: Place,
    base: Boxed<Exp>,
    suffixes: Items<Suffix>,
) -> Result<Boxed<Exp>, AllocError>
    ensures { IfOk result (λ made. made ≡ V.Part place base suffixes) }
{
    Boxed::new(alloc, Exp::Part(place, base, suffixes))
}

/// An annotated expression. It fails where memory is wanting.
pub fn typed(
    alloc: Global,
    place: Place,
    value: Boxed<Exp>,
    typ: TyExp,
) -> Result<Boxed<Exp>, AllocError>
    ensures { IfOk result (λ made. made ≡ V.Typed place value typ) }
{
    Boxed::new(alloc, Exp::Typed(place, value, typ))
}

/// An assignment: the first target, those behind it, and the value. It fails where memory is wanting.
pub fn assign(
    alloc: Global,
    place: Place,
    target: Boxed<LExp>,
    more: Items<Target>,
    value: Boxed<Exp>,
) -> Result<Boxed<Exp>, AllocError>
    ensures { IfOk result (λ made. made ≡ V.Assign place target more value) }
{
    Boxed::new(
        alloc,
        Exp::Assign {
            place,
            target,
            more,
            value,
        },
    )
}

/// A block: its statements but for the value, and the value. It fails where memory is wanting.
pub fn block(
    alloc: Global,
    place: Place,
    statements: Items<Stmt>,
    value: Option<Boxed<Exp>>,
) -> Result<Boxed<Exp>, AllocError>
    ensures { IfOk result (λ made. made ≡ V.Block place statements value) }
{
    Boxed::new(alloc, Exp::Block(place, statements, value))
}

/// `let .. in`. It fails where memory is wanting.
pub fn let_in(
    alloc: Global,
    place: Place,
    pattern: Pat,
    bound: Boxed<Exp>,
    body: Boxed<Exp>,
) -> Result<Boxed<Exp>, AllocError>
    ensures { IfOk result (λ made. made ≡ V.Let place pattern bound body) }
{
    Boxed::new(
        alloc,
        Exp::Let {
            place,
            pattern,
            bound,
            body,
        },
    )
}

/// `var .. in`. It fails where memory is wanting.
pub fn var_in(
    alloc: Global,
    place: Place,
    name: Name,
    typ: Option<TyExp>,
    initial: Boxed<Exp>,
    body: Boxed<Exp>,
) -> Result<Boxed<Exp>, AllocError>
    ensures { IfOk result (λ made. made ≡ V.Var place name typ initial body) }
{
    Boxed::new(
        alloc,
        Exp::Var {
            place,
            name,
            typ,
            initial,
            body,
        },
    )
}

/// `if`, with or without an `else`. It fails where memory is wanting.
pub fn branch(
    alloc: Global,
    place: Place,
    condition: Boxed<Exp>,
    then: Boxed<Exp>,
    otherwise: Option<Boxed<Exp>>,
) -> Result<Boxed<Exp>, AllocError>
    ensures { IfOk result (λ made. made ≡ V.If place condition then otherwise) }
{
    Boxed::new(
        alloc,
        Exp::If {
            place,
            condition,
            then,
            otherwise,
        },
    )
}

/// `match` or `try`. It fails where memory is wanting.
pub fn choose(
    alloc: Global,
    place: Place,
    choosing: Choosing,
    value: Boxed<Exp>,
    cases: Items<Case>,
) -> Result<Boxed<Exp>, AllocError>
    ensures { IfOk result (λ made. made ≡ V.Choose place choosing value cases) }
{
    Boxed::new(
        alloc,
        Exp::Choose {
            place,
            choosing,
            value,
            cases,
        },
    )
}

/// `foreach`. It fails where memory is wanting.
pub fn foreach(
    alloc: Global,
    place: Place,
    name: Name,
    range: Boxed<Range>,
    body: Boxed<Exp>,
) -> Result<Boxed<Exp>, AllocError>
    ensures { IfOk result (λ made. made ≡ V.Foreach place name range body) }
{
    Boxed::new(
        alloc,
        Exp::Foreach {
            place,
            name,
            range,
            body,
        },
    )
}

/// `while` or `repeat`. It fails where memory is wanting.
pub fn loop_on(
    alloc: Global,
    place: Place,
    looping: Looping,
    measure: Option<Boxed<Exp>>,
    condition: Boxed<Exp>,
    body: Boxed<Exp>,
) -> Result<Boxed<Exp>, AllocError>
    ensures { IfOk result (λ made. made ≡ V.Loop place looping measure condition body) }
{
    Boxed::new(
        alloc,
        Exp::Loop {
            place,
            looping,
            measure,
            condition,
            body,
        },
    )
}

/// `[v with ..]`. It fails where memory is wanting.
pub fn update(
    alloc: Global,
    place: Place,
    base: Boxed<Exp>,
    index: Boxed<Index>,
    value: Boxed<Exp>,
) -> Result<Boxed<Exp>, AllocError>
    ensures { IfOk result (λ made. made ≡ V.Update place base index value) }
{
    Boxed::new(
        alloc,
        Exp::Update {
            place,
            base,
            index,
            value,
        },
    )
}

/// A literal of a struct. It fails where memory is wanting.
pub fn structure(
    alloc: Global,
    place: Place,
    name: Option<Name>,
    fields: Items<FieldValue>,
) -> Result<Boxed<Exp>, AllocError>
    ensures { IfOk result (λ made. made ≡ V.Struct place name fields) }
{
    Boxed::new(alloc, Exp::Struct(place, name, fields))
}

/// A struct with some fields changed. It fails where memory is wanting.
pub fn with_fields(
    alloc: Global,
    place: Place,
    base: Boxed<Exp>,
    fields: Items<FieldValue>,
) -> Result<Boxed<Exp>, AllocError>
    ensures { IfOk result (λ made. made ≡ V.With place base fields) }
{
    Boxed::new(alloc, Exp::With(place, base, fields))
}

/// `sizeof` or `constraint`. It fails where memory is wanting.
pub fn of_type(
    alloc: Global,
    place: Place,
    asking: Asking,
    typ: TyExp,
) -> Result<Boxed<Exp>, AllocError>
    ensures { IfOk result (λ made. made ≡ V.OfType place asking typ) }
{
    Boxed::new(alloc, Exp::OfType(place, asking, typ))
}

/// `assert`. It fails where memory is wanting.
pub fn assert_that(
    alloc: Global,
    place: Place,
    condition: Boxed<Exp>,
    text: Option<Text>,
) -> Result<Boxed<Exp>, AllocError>
    ensures { IfOk result (λ made. made ≡ V.Assert place condition text) }
{
    Boxed::new(alloc, Exp::Assert(place, condition, text))
}
