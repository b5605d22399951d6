ghost use Rattle.std.specs.Prelude.{IsTrue};
ghost use Rattle.jib.specs.Valid.{valid};

use crate::code::Module;

/// A valid module.
#[derive(Drop)]
pub struct Checked {
    /// The module.
    pub program: Module,
    pub ghost kept: { IsTrue (valid program) },
}
