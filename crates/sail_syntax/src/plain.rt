ghost use Rattle.std.specs.Prelude.{◌≡◌};
ghost use Rattle.sail_syntax.specs.Plain.{plain};

use crate::expressions::Exp;
use crate::words::Choosing;

impl Exp {
    /// Whether its own form, its parts aside, may stand in a plain expression, which a top-level
    /// `let`, an initial value and a measure are: it is no block, loop, assignment, `return`, `throw`,
    /// `exit`, `assert` or `try`.
    pub fn is_plain(&self) -> bool
        ensures { result ≡ plain self.now }
    {
        match self {
            Exp::Leave(_, _, _) => false,
            Exp::Assign { .. } => false,
            Exp::Block(_, _, _) => false,
            Exp::Choose {
                choosing: Choosing::Try,
                ..
            } => false,
            Exp::Foreach { .. } => false,
            Exp::Loop { .. } => false,
            Exp::Assert(_, _, _) => false,
            _ => true,
        }
    }
}
