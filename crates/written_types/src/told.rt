//! Whether a value of a type tells the number of a type variable.
ghost use Rattle.std.specs.Prelude.{◌≡◌, ◌&&◌, pos};
ghost use Rattle.std.specs.List.{list_any};
ghost use Rattle.std.specs.Ordering.{int_eq};
ghost use Rattle.sail_types.specs.Sums.{coefficient_of, atom_of};
ghost use Rattle.sail_types.specs.declared.numbers.Con.{out-Con};
ghost use Rattle.shape_rules.specs.Written.{tells_number, gives_number, holds_alone, is_alone, is_atom};

use sail_types::{Atom, Con, Num, Term, Typ};

/// Whether a value of a type tells the number of a type variable: whether the variable, by its number, stands alone as an `int`'s number,
/// a `bool`'s constraint or a width or length of the type, or of a part of it where it is a tuple.
pub fn tells_number(number: u32, typ: &Typ) -> bool
    ensures { result ≡ tells_number number typ.now }
{
    match typ {
        Typ::Tuple(parts) => any_gives(number, parts.as_slice()),
        _ => gives_number(number, typ),
    }
}

fn any_gives(number: u32, parts: &[Typ]) -> bool
    ensures { result ≡ list_any (gives_number number) parts.now }
{
    for part in parts {
        if gives_number(number, part) {
            return true;
        }
    }
    false
}

fn gives_number(number: u32, typ: &Typ) -> bool
    ensures { result ≡ gives_number number typ.now }
{
    match typ {
        Typ::Int(n) => is_alone(number, n),
        Typ::Truth(constraint) => holds_alone(number, constraint),
        Typ::Bits(n) => is_alone(number, n),
        Typ::Vector(n, _) => is_alone(number, n),
        _ => false,
    }
}

fn holds_alone(number: u32, constraint: &Con) -> bool
    ensures { result ≡ holds_alone number (out-Con constraint.now) }
{
    match constraint {
        Con::Holds(other) => number == *other,
        _ => false,
    }
}

fn is_alone(number: u32, n: &Num) -> bool
    ensures { result ≡ is_alone number n.now }
{
    if n.constant != 0 {
        return false;
    }
    match n.terms.as_slice() {
        [term] => is_once(number, term),
        _ => false,
    }
}

fn is_once(number: u32, term: &Term) -> bool
    ensures { result ≡ (int_eq (coefficient_of term.now) (pos 1) && is_atom number (atom_of term.now)) }
{
    if term.coefficient != 1 {
        return false;
    }
    match &term.atom {
        Atom::Variable(other) => number == *other,
        Atom::Power(_) => false,
    }
}
