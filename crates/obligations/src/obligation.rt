//! Obligations.
use sail_base::{Items, Place};
use sail_types::Con;

/// What has to be true for no run of a model to get stuck.
pub struct Obligation {
    /// What is known.
    pub facts: Items<Con>,
    /// What it has to imply.
    pub goal: Con,
    /// Where it stands.
    pub place: Place,
    /// The variables of the facts and the goal as they are printed, in order of first appearance.
    pub names: Items<Items<u8>>,
}

impl Drop for Obligation {
    fn drop(self) {
        let Obligation {
            facts: _,
            goal: _,
            place: _,
            names: _,
        } = self;
    }
}
