use crate::run::Run;
use crate::synth::Synth;
use sail_base::{Items, Text};

/// What a command line asks for.
#[derive(Debug)]
pub enum Command {
    /// A run of a program under models.
    Run(Run),
    /// Whether models are safe: the names of their files, 1 to 64, in their order.
    Check(Items<Text>),
    /// The obligations of models with their certificates, by the names of their files, likewise.
    Certs(Items<Text>),
    /// A run of a program under a model, both made of a seed.
    Synth(Synth),
}

impl Drop for Command {
    fn drop(self) {
        match self {
            Command::Run(_) => {}
            Command::Check(_) => {}
            Command::Certs(_) => {}
            Command::Synth(_) => {}
        }
    }
}
