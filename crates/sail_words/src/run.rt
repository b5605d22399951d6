use sail_base::{Items, Text};

/// What `run` asks for.
#[derive(Debug)]
pub struct Run {
    /// The name of the program's file.
    pub elf: Text,
    /// The names of the models' files, 1 to 64, in their order.
    pub models: Items<Text>,
    /// How the program is run.
    pub setup: Setup,
}

/// How a program is run.
#[derive(Debug)]
pub struct Setup {
    /// How many events are run at most.
    pub steps: u32,
    /// How many harts there are, 1 to 8.
    pub harts: u8,
    /// The harts in the order in which they step, again and again: at least one, each below `harts`.
    pub order: Items<u8>,
    /// Where RAM begins.
    pub ram_base: u64,
    /// How many bytes RAM has, 1 to 67,108,864; with `ram_base` at most 2^64.
    pub ram_size: u64,
}

impl Drop for Run {
    fn drop(self) {
        let Run {
            elf: _,
            models: _,
            setup: _,
        } = self;
    }
}

impl Drop for Setup {
    fn drop(self) {
        let Setup {
            steps: _,
            harts: _,
            order: _,
            ram_base: _,
            ram_size: _,
        } = self;
    }
}
