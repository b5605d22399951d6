//! The flat code of functions, and a module of them.
use crate::types::ValueType;
use model_state::Cause;
use sail_base::{Items, Place, Text, Word};
use sail_types::Row;

/// A constant.
#[derive(Drop)]
pub enum Literal {
    /// `()`
    Unit,
    /// An integer.
    Integer(i128),
    /// `true` or `false`
    Truth(bool),
    /// `bitone` (true) or `bitzero` (false)
    Bit(bool),
    /// Bits, the one of index 0 first.
    Bits(Word),
    /// A string, by its bytes.
    String(Text),
    /// A member of an enum: the enum's place among the model's named types, and the member's in the enum.
    Member(u32, u32),
}

/// What an instruction reads.
#[derive(Drop)]
pub enum Source {
    /// A slot of the function.
    Slot(u32),
    /// A register of the hart.
    Register(u32),
    /// The value of an opening, by its place among the module's openings.
    Let(u32),
    /// A constant, after the number of its type.
    Constant(u32, Literal),
}

/// What an instruction writes.
#[derive(Clone, Copy, Debug, Drop)]
pub enum Target {
    /// A slot of the function.
    Slot(u32),
    /// A register of the hart.
    Register(u32),
}

/// What is worked out from sources. Where it can't be, the result is the zero of the target's type.
#[derive(Clone, Copy, Debug, Drop)]
pub enum Operation {
    /// A builtin, without state or of the state.
    Builtin(Row),
    /// The source itself, at the type of the target.
    Same,
    /// A tuple, struct, vector or list of the sources, by the type of the target.
    Build,
    /// The constructor of this place over the source, by the union that the target's type is.
    Construct(u32),
    /// The part of this place of a tuple or a struct.
    Field(u32),
    /// A tuple or a struct with another part in this place.
    WithField(u32),
    /// The item of a vector or a list, or the bit of a word, at an index.
    Item,
    /// A vector, a list or a word with another item at an index; the same where the index is outside.
    WithItem,
    /// The bits from a high index down to a low one.
    Slice,
    /// A word with other bits from a high index down to a low one; the same where they are outside.
    WithSlice,
    /// A list with an item before it.
    Cons,
    /// A list without its first item.
    Rest,
    /// Whether a list is empty.
    IsEmpty,
}

/// A call of a function of the module.
#[derive(Drop)]
pub struct Call {
    /// The slot for the result.
    pub slot: u32,
    /// The number of the function.
    pub function: u32,
    /// Its arguments.
    pub arguments: Items<Source>,
    /// The label for an exception that the call ends with, which is then in slot 0.
    pub on_throw: u32,
    /// Where the call stands in the model's text.
    pub place: Place,
}

/// One instruction. Labels are numbers of the function's own.
#[derive(Drop)]
pub enum Instruction {
    /// The source's value goes to the target.
    Copy(Target, Source),
    /// The operation's result goes to the target.
    Apply(Target, Operation, Items<Source>),
    /// Runs a function.
    Call(Call),
    /// Jumps to the label where the source is true.
    JumpIf(Source, u32),
    /// To a slot goes the source's payload where the source is of this constructor; otherwise it jumps to the label. The
    /// order is slot, source, constructor, label.
    Payload(u32, Source, u32, u32),
    /// Jumps to the label.
    Goto(u32),
    /// Sets the label.
    Label(u32),
    /// The function ends with the source's value.
    End(Source),
    /// The function ends with the source as an exception.
    Throw(Source),
    /// The run stops.
    Stop(Cause),
    /// The run stops, since no pattern of the call's measure matched, at the place of the call.
    NoMeasure,
    /// The measure of the call. The run stops where it isn't below the one before it in its cycle, at the place of the call.
    Measure(Source),
    /// Takes a tick; the run stops where none is left.
    Tick,
}

/// A function. Its slot 0 is for exceptions; the arguments stand in those behind it, and every other slot begins at the zero of
/// its type.
#[derive(Drop)]
pub struct Function {
    /// The types of its parameters, by their numbers.
    pub parameters: Items<u32>,
    /// The type of its result.
    pub result: u32,
    /// The types of its slots.
    pub slots: Items<u32>,
    /// The number of its cycle of calls; what it calls has the same or a lower one.
    pub cycle: u32,
    /// How many of the module's openings it may read.
    pub lets: u32,
    /// Whether it works out a value from its arguments and openings alone: it has no tick, and doesn't touch the state.
    pub is_pure: bool,
    /// Its code.
    pub code: Items<Instruction>,
}

/// A top-level let, or the initial value of a register.
#[derive(Clone, Copy, Debug, Drop)]
pub struct Opening {
    /// The function that works it out.
    pub function: u32,
    /// The register that starts with it; none for a let.
    pub register: Option<u32>,
}

/// The code of a model.
#[derive(Drop)]
pub struct Module {
    /// The types of its slots and registers; the types inside one stand before it.
    pub types: Items<ValueType>,
    /// The type of its exceptions, by its number.
    pub exception: u32,
    /// The types of its registers, in the order of the model's text.
    pub registers: Items<u32>,
    /// The lets and initial values, in the order of the model's text.
    pub openings: Items<Opening>,
    /// Its functions.
    pub functions: Items<Function>,
}
