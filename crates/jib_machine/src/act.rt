//! What an instruction leads to, and where calls stand.
use model_state::Cause;
use sail_base::Place;
use sail_types::Value;

/// How the run of a function ends.
#[derive(Drop)]
pub enum Ending {
    /// With a value.
    Value(Value),
    /// With an exception.
    Threw(Value),
    /// Since the whole run stops.
    Stopped(Cause),
}

/// What follows an instruction.
#[derive(Drop)]
pub enum Act {
    /// The next one.
    Go,
    /// The label.
    Jump(u32),
    /// The next one, with this measure of the call.
    Sink(Option<i128>),
    /// Nothing: the function's run is over.
    Over(Ending),
    /// A call: the slot for its result, the function, the slots that it begins with, the label for an exception, and its place.
    Enter(u32, u32, Vec<Value>, u32, Place),
}

/// A call that runs: its function, where it was made, and what its next measure has to be below, if anything.
#[derive(Clone, Copy)]
pub struct Here {
    pub function: u32,
    pub place: Place,
    pub measure: Option<i128>,
}

/// Where a call that runs stands: at the instruction of this index, with these slots.
#[derive(Drop)]
pub struct Current {
    pub here: Here,
    pub at: usize,
    pub slots: Vec<Value>,
}

/// A call that waits for another: the slot for its result and the label for an exception.
#[derive(Drop)]
pub struct Frame {
    pub current: Current,
    pub slot: u32,
    pub label: u32,
}

/// What the run of a function comes to first: its end, or a call as in [`Act::Enter`].
#[derive(Drop)]
pub enum Turn {
    Over(Ending),
    Enter(u32, u32, Vec<Value>, u32, Place),
}
