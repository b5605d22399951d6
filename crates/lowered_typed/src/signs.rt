//! What is around the code of a function.
use jib::Module;
use lowered_ends::Around;
use lowered_steps::Setting;
use sail_base::Items;
use std::alloc::Global;

/// What calls of an instance enter.
#[derive(Drop)]
pub struct Called {
    /// The types of its parameters, by their numbers.
    pub parameters: Items<u32>,
    /// The number of its cycle of calls.
    pub cycle: u32,
}

/// The types of what is around the code of a function.
#[derive(Clone, Copy)]
pub struct Signs<'a> {
    /// The module without its code: its types, and those of exceptions and registers.
    pub shell: &'a Module,
    /// The types of the openings that the function may read.
    pub lets: &'a [u32],
    /// The type of its result.
    pub result: u32,
    /// Whether it works out a value from its arguments and openings alone.
    pub is_pure: bool,
    /// The number of its cycle of calls: it may call what has the same or a lower one.
    pub cycle: u32,
    /// What calls enter, by the places of instances.
    pub called: &'a [Called],
    /// The numbers of the cycles of directions of mappings, where they are made.
    pub turned: &'a [Option<u32>],
    /// It may ask the directions the functions of which have lower numbers than this one.
    pub below: u32,
}

/// What it is decided by whether code has its types.
#[derive(Clone, Copy)]
pub struct Judge<'a> {
    /// The allocator of what is listed meanwhile.
    pub alloc: Global,
    /// What the function's code is made by.
    pub setting: &'a Setting<'a>,
    /// What is around the function.
    pub around: &'a Around<'a>,
    /// The types of what is around its code.
    pub signs: &'a Signs<'a>,
}
