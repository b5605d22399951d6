//! Models and programs made of a seed: what `synth` checks and runs.
//!
//! [`synth`] gives the text of a model with so many functions and the image of a program that calls them. Its contract speaks of the
//! definitions in `specs/`: the draws of a linear congruential generator, the text, and the image.
#![tactic(auto)]

mod draws;
mod image;
mod model;
mod seeded;

pub use seeded::synth;
