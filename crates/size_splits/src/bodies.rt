//! What is read of a definition of a model.
use sail_base::{Items, Text};
use value_indices::Step;

/// What is read of a definition: the steps of the walks over it, one after the other. `specs/Bodies` says which notes they write.
#[derive(Drop)]
pub struct BodySteps {
    /// The steps, in order.
    pub steps: Items<Step>,
    /// How many variables they have.
    pub variables: u32,
    /// The names of the variables, in order.
    pub names: Items<Text>,
}
