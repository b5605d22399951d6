//! How many parts the kinds of nodes have.
ghost use Rattle.std.specs.Prelude.{◌≡◌};
ghost use Rattle.lowered_typed.specs.Counts.{count_fits};

use sail_core::Kind;

/// Whether a kind that is lowered has so many parts.
pub fn has_count(kind: &Kind, count: usize) -> bool
    ensures { result ≡ count_fits kind.now count }
{
    match kind {
        Kind::Constant(_) => count == 0,
        Kind::Local(_) => count == 0,
        Kind::Variable(_) => count == 0,
        Kind::TopLevel(_) => count == 0,
        Kind::Register(_) => count == 0,
        Kind::Call(_) => true,
        Kind::And => count == 2,
        Kind::Or => count == 2,
        Kind::Cast(_) => count == 1,
        Kind::Tuple => true,
        Kind::Vector(_) => true,
        Kind::List(_) => true,
        Kind::Cons(_) => true,
        Kind::Struct(_, _) => true,
        Kind::With(_, fields) => !fields.is_empty(),
        Kind::Part(_) => count >= 1,
        Kind::WithItem => count == 3,
        Kind::WithSlice => count == 4,
        Kind::SizeOf(_, _) => count == 0,
        Kind::Constraint(_, _) => count == 0,
        Kind::Assign(targets) => targets.len() == 1,
        Kind::Block(_) => true,
        Kind::Let(_) => count == 2,
        Kind::Var(_, _) => count == 2,
        Kind::If(_) => count == 2 || count == 3,
        Kind::Match(_, _) => count >= 1,
        Kind::Try(_, _) => count >= 1,
        Kind::Clauses(_) => true,
        Kind::When => count == 2,
        Kind::Foreach(_, _) => count == 4,
        Kind::While => count == 3,
        Kind::Repeat => count == 3,
        Kind::Return => count == 1,
        Kind::Throw => count == 1,
        Kind::Exit => count == 1,
        Kind::Assert(_) => count == 1,
        Kind::Optional(_) => count == 1,
    }
}
