ghost use Rattle.std.specs.Prelude.{◌≡◌};
ghost use Rattle.sail_syntax.specs.Places.{type_place, pattern_place, expression_place, target_place, part_place, statement_place, definition_place};

use crate::definitions::Def;
use crate::expressions::{Exp, LExp, Stmt, Suffix};
use crate::patterns::Pat;
use crate::types::TyExp;
use sail_base::Place;

impl TyExp {
    /// Where it stands.
    pub fn place(&self) -> Place
        ensures { result ≡ type_place self.now }
    {
        match self {
            TyExp::Named(name, _) => name.place,
            TyExp::Variable(name) => name.place,
            TyExp::Number(place, _) => *place,
            TyExp::Truth(place, _) => *place,
            TyExp::Prefix(place, _, _) => *place,
            TyExp::Infix { place, .. } => *place,
            TyExp::OneOf(place, _, _) => *place,
            TyExp::Tuple(place, _) => *place,
            TyExp::Exists { place, .. } => *place,
        }
    }
}

impl Pat {
    /// Where it stands.
    pub fn place(&self) -> Place
        ensures { result ≡ pattern_place self.now }
    {
        match self {
            Pat::Wildcard(place) => *place,
            Pat::Constant(place, _) => *place,
            Pat::Negative(place, _) => *place,
            Pat::Bind(name) => name.place,
            Pat::Construct(name, _) => name.place,
            Pat::Group(place, _, _) => *place,
            Pat::Concat { place, .. } => *place,
            Pat::Cons(place, _, _) => *place,
            Pat::As(place, _, _) => *place,
            Pat::Typed(place, _, _) => *place,
        }
    }
}

// The place of a base with its suffixes: the bracket of the last, or where that is a field the first token.
fn place_of_part(first: &Place, suffixes: &[Suffix]) -> Place
    ensures { result ≡ part_place first.now suffixes.now }
{
    match suffixes.last() {
        None => *first,
        Some(Suffix::Field(_)) => *first,
        Some(Suffix::At(place, _)) => *place,
    }
}

impl Exp {
    /// Where it stands.
    pub fn place(&self) -> Place
        ensures { result ≡ expression_place self.now }
    {
        match self {
            Exp::Constant(place, _) => *place,
            Exp::Variable(name) => name.place,
            Exp::Call(name, _) => name.place,
            Exp::Prefixed(place, _, _) => *place,
            Exp::Infix { place, .. } => *place,
            Exp::Leave(place, _, _) => *place,
            Exp::Group(place, _, _) => *place,
            Exp::Part(first, _, suffixes) => place_of_part(first, suffixes.as_slice()),
            Exp::Typed(place, _, _) => *place,
            Exp::Assign { place, .. } => *place,
            Exp::Block(place, _, _) => *place,
            Exp::Let { place, .. } => *place,
            Exp::Var { place, .. } => *place,
            Exp::If { place, .. } => *place,
            Exp::Choose { place, .. } => *place,
            Exp::Foreach { place, .. } => *place,
            Exp::Loop { place, .. } => *place,
            Exp::Update { place, .. } => *place,
            Exp::Struct(place, _, _) => *place,
            Exp::With(place, _, _) => *place,
            Exp::OfType(place, _, _) => *place,
            Exp::Assert(place, _, _) => *place,
        }
    }
}

impl LExp {
    /// Where it stands.
    pub fn place(&self) -> Place
        ensures { result ≡ target_place self.now }
    {
        match self {
            LExp::ToName(name) => name.place,
            LExp::ToCall(name, _) => name.place,
            LExp::ToTuple(place, _) => *place,
            LExp::ToPart(first, _, suffixes) => place_of_part(first, suffixes.as_slice()),
        }
    }
}

impl Stmt {
    /// Where it stands: where its expression does, or at its first word.
    pub fn place(&self) -> Place
        ensures { result ≡ statement_place self.now }
    {
        match self {
            Stmt::Evaluate(value) => value.get().place(),
            Stmt::Define(place, _, _) => *place,
            Stmt::Declare { place, .. } => *place,
        }
    }
}

impl Def {
    /// Its first word.
    pub fn place(&self) -> Place
        ensures { result ≡ definition_place self.now }
    {
        match self {
            Def::Order(place) => *place,
            Def::Alias { place, .. } => *place,
            Def::Enum(place, _, _) => *place,
            Def::Struct { place, .. } => *place,
            Def::Union { place, .. } => *place,
            Def::Val { place, .. } => *place,
            Def::Function { place, .. } => *place,
            Def::Measure { place, .. } => *place,
            Def::Mapping { place, .. } => *place,
            Def::Let(place, _, _) => *place,
            Def::Register { place, .. } => *place,
            Def::Overload(place, _, _) => *place,
            Def::ScatteredUnion(place, _, _) => *place,
            Def::ScatteredFunction(place, _) => *place,
            Def::ScatteredMapping(place, _) => *place,
            Def::UnionClause(place, _, _) => *place,
            Def::FunctionClause(_, clause) => clause.place,
            Def::MappingClause(place, _, _) => *place,
            Def::End(place, _) => *place,
        }
    }
}
