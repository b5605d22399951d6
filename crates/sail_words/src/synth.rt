/// What `synth` asks for.
#[derive(Clone, Copy, Debug)]
pub struct Synth {
    /// What the model and the program are made of: at most 65,535.
    pub seed: u32,
    /// How many functions the model has: 1 to 4,000.
    pub size: u32,
}
