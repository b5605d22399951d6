ghost use Rattle.std.specs.Prelude.{◌≡◌, MatchOption, IfOk, OnErr};
ghost use Rattle.sail_types.specs.declared.values.Value.{Value};

use crate::letting::let_go;
use sail_base::{Place, Text};
use sail_types::Value;
use std::alloc::AllocError;

/// Why a run stops.
pub enum Cause {
    /// All events of the schedule came.
    StepsDone,
    /// All harts rest.
    AllRest,
    /// `exit`, at this place.
    Exit(Place),
    /// No case, clause or pattern matched.
    MatchFailure(Place),
    /// An assertion failed, with its string as in the source where it has one.
    Assertion(Place, Option<Text>),
    /// The model threw a value of this constructor, and nothing took it.
    Exception(Text),
    /// A measure didn't fall.
    Measure(Place),
    /// The event took more ticks than it may.
    WorkLimit,
    /// A read or write that isn't all in RAM, at this address.
    BadAddress(u64),
    /// A byte past the console's last.
    ConsoleFull,
}

impl Drop for Cause {
    fn drop(self) {
        match self {
            Cause::StepsDone => {}
            Cause::AllRest => {}
            Cause::Exit(_) => {}
            Cause::MatchFailure(_) => {}
            Cause::Assertion(_, _) => {}
            Cause::Exception(_) => {}
            Cause::Measure(_) => {}
            Cause::WorkLimit => {}
            Cause::BadAddress(_) => {}
            Cause::ConsoleFull => {}
        }
    }
}

/// How a call of the model ends: with a value, or with a stop of the run.
pub enum Ended {
    /// The value.
    Value(Value),
    /// The cause of the stop.
    Stop(Cause),
}

impl Drop for Ended {
    fn drop(self) {
        match self {
            Ended::Value(_) => {}
            Ended::Stop(_) => {}
        }
    }
}

impl Ended {
    /// The cause of the stop; none where there is a value.
    pub fn into_stop(self) -> Option<Cause>
        ensures { MatchOption result ((value : Value) × (self ≡ Ended.Value value)) (λ cause. self ≡ Ended.Stop cause) }
    {
        match self {
            Ended::Value(value) => {
                let_go(value);
                None
            }
            Ended::Stop(cause) => Some(cause),
        }
    }
}

/// Why a builtin gives no value.
pub enum RowError {
    /// It stops the run.
    Stop(Cause),
    /// The console wanted memory. The run is over then.
    OutOfMemory,
}

impl Drop for RowError {
    fn drop(self) {
        match self {
            RowError::Stop(_) => {}
            RowError::OutOfMemory => {}
        }
    }
}

impl RowError {
    /// The cause of the stop. The one error is want of memory, where the builtin has wanted it.
    pub fn into_stop(self) -> Result<Cause, AllocError>
        ensures stop { IfOk result (λ cause. self ≡ RowError.Stop cause) }
        ensures wanting { OnErr result (self ≡ RowError.OutOfMemory) }
    {
        match self {
            RowError::Stop(cause) => Ok(cause),
            RowError::OutOfMemory => Err(AllocError),
        }
    }
}

impl From<AllocError> for RowError {
    ghost use Rattle.std.specs.Prelude.{◌≡◌};
    ghost use Rattle.model_state.specs.declared.cause.RowError.TheVariants as error;

    ghost from_gives = { λ wanting refusal. refusal ≡ error.OutOfMemory };

    fn from(_: AllocError) -> RowError {
        RowError::OutOfMemory
    }
}
