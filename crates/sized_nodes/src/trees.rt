//! Instances, the sizes at nodes, and models with constant sizes.
use sail_base::Items;
use sail_core::Giver;
use size_values::{Picked, Sized};
use value_indices::Indices;

/// A function, for the numbers of its size variables, and for its Type variables.
#[derive(Drop)]
pub struct Instance {
    /// The function, by its place in the model.
    pub function: u32,
    /// For each of its Int and Bool variables its number, where it is a size variable.
    pub numbers: Items<Option<i128>>,
    /// What its Type variables stand for.
    pub types: Items<Sized>,
}

/// What a node takes and gives where these numbers are the present ones. Every width is from 0 to 128, every length from 0 to 4,096.
#[derive(Drop)]
pub struct Case {
    /// The numbers, of variables that are split and noted there, or that the value itself gives.
    pub picked: Items<Picked>,
    /// The types of its operands.
    pub takes: Items<Sized>,
    /// The type of its value.
    pub gives: Sized,
}

/// Where a call leads where these numbers are the present ones.
#[derive(Drop)]
pub struct Lead {
    /// The numbers, of variables that are split and noted there.
    pub picked: Items<Picked>,
    /// The types of the arguments.
    pub takes: Items<Sized>,
    /// The place of the instance that is called among all instances.
    pub instance: usize,
}

/// What is constant at a node.
pub enum NodeSizes {
    /// The node of this number makes a value: the indices by which the value itself gives numbers, and its cases, one for each combination
    /// that counts there. All ask for the same variables; what the value's type binds is counted from the body's last variable on.
    Makes(u32, Indices, Items<Case>),
    /// The node of this number calls a function: where each combination that counts there leads.
    Calls(u32, Items<Lead>),
    /// A node's value, or what an arm's names hold, gives numbers to the variables that stand alone in these indices.
    Gives(Giver, Indices),
}

impl Drop for NodeSizes {
    fn drop(self) {
        match self {
            NodeSizes::Makes(_, _, _) => {}
            NodeSizes::Calls(_, _) => {}
            NodeSizes::Gives(_, _) => {}
        }
    }
}

/// A type at which values come in or go out: each of them tells the size of what the type binds.
#[derive(Drop)]
pub struct Told {
    /// The indices by which a value itself gives numbers.
    pub value: Indices,
    /// Its cases, none of which takes operands: one for each combination of numbers. None, where a size isn't a constant.
    pub cases: Items<Case>,
}

/// The types of a function's parameters and of its result.
#[derive(Drop)]
pub struct Signature {
    /// The types of its parameters.
    pub parameters: Items<Told>,
    /// The type of its result.
    pub result: Told,
}

/// A function for the numbers and types of an instance. Its trees are those of the core, whose nodes go by their numbers.
#[derive(Drop)]
pub struct SizedInstance {
    /// The instance.
    pub instance: Instance,
    /// The types of its parameters and of its result; none where the function isn't there.
    pub signature: Option<Signature>,
    /// What is constant at the nodes of its measure, where it has one, and of its body.
    pub bodies: Items<Items<NodeSizes>>,
}

/// A model with constant sizes.
#[derive(Drop)]
pub struct SizedCore {
    /// The instances, in order of finding.
    pub instances: Items<SizedInstance>,
    /// What is constant at the nodes of each mapping, of both its directions.
    pub mappings: Items<Items<NodeSizes>>,
    /// What is constant at the nodes of each top-level `let` and initial value.
    pub openings: Items<Items<NodeSizes>>,
}
