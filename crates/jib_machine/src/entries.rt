//! What a model calls at its start and in its events.

/// The functions of a module that a run enters, by their numbers. Neither begins with a tick.
#[derive(Clone, Copy, Debug, Drop)]
pub struct Entries {
    /// `reset`, which takes the number of a hart and the entry of the program, as 64 bits.
    pub reset: u32,
    /// `step`, which takes `()`.
    pub step: u32,
}
