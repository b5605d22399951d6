//! The definitions of a resolved model.
use crate::patterns::Arm;
use crate::tree::Core;
use crate::written::WrittenNumber;
use model_state::Register;
use sail_base::{Items, Place, Text};
use sail_types::{Con, Parameter, Typ, Types};

/// A function of the model.
#[derive(Drop)]
pub struct Function {
    /// The word that opens it.
    pub place: Place,
    /// Its name.
    pub name: Text,
    /// Its Int and Bool variables, in order. Each has its number at the first parameter, or part of a tuple parameter, that
    /// is `int('n)`, `bool('p)`, `bits('n)` or `vector('n, T)`.
    pub variables: Items<Parameter>,
    /// Its Type variables, in order.
    pub type_variables: Items<Text>,
    /// What its variables have to satisfy.
    pub constraint: Con,
    /// The types of its parameters.
    pub parameters: Items<Typ>,
    /// The type of its result.
    pub result: Typ,
    /// Whether a `val` gives these types. Where none does, they are what its clauses are annotated with.
    pub is_declared: bool,
    /// The widths, lengths, exponents and compared sides in its signature, in the order of the text.
    pub numbers: Items<WrittenNumber>,
    /// The cycle of calls that it is in.
    pub cycle: Option<u32>,
    /// Its measure, over the same arguments: `Clauses` of one arm.
    pub measure: Option<Core>,
    /// Its body: `Clauses`.
    pub body: Core,
    /// The number of the node where its arguments come in.
    pub entry: u32,
    /// The number of the node where the body's value comes to the type of the result.
    pub last: u32,
}

/// A direction of a mapping: forwards, from its left side to its right one, or backwards.
#[derive(Drop)]
pub struct Direction {
    /// The mapping's first word.
    pub place: Place,
    /// The mapping's name.
    pub name: Text,
    /// The type of the side that it takes.
    pub parameter: Typ,
    /// The type of the side that it gives.
    pub result: Typ,
    /// `Clauses` over the one value; `Optional` of them once it is a function that gives an option.
    pub body: Core,
}

/// What is worked out once.
#[derive(Drop)]
pub enum OpeningKind {
    /// A top-level `let`, over its value; its names are added in the order in which they are bound.
    Let(Arm),
    /// The initial value of a register, by its place.
    Register(u32),
}

/// A top-level `let` or an initial value.
#[derive(Drop)]
pub struct Opening {
    /// Its first word.
    pub place: Place,
    /// Which of both.
    pub kind: OpeningKind,
    /// The expression.
    pub value: Core,
}

/// How a register is written.
pub struct RegisterText {
    /// Its first word.
    pub place: Place,
    /// The numbers in its type, in the order of the text.
    pub numbers: Items<WrittenNumber>,
}

impl Drop for RegisterText {
    fn drop(self) {
        let RegisterText {
            place: _,
            numbers: _,
        } = self;
    }
}

/// A model, resolved. Functions, directions, registers and named types go by their places in these lists.
#[derive(Drop)]
pub struct CoreModel {
    /// The named types; `option` stands first.
    pub types: Types,
    /// The union `exception`, by its place in the table, where the model has one.
    pub exception: Option<u32>,
    /// The registers, in the order of the text.
    pub registers: Items<Register>,
    /// How each is written.
    pub register_texts: Items<RegisterText>,
    /// The functions, in the order of the text.
    pub functions: Items<Function>,
    /// The directions of mappings, in the order of the text, forwards before backwards.
    pub directions: Items<Direction>,
    /// The top-level lets and initial values, in the order of the text.
    pub openings: Items<Opening>,
    /// The function `reset`.
    pub reset: u32,
    /// The function `step`.
    pub step: u32,
}
