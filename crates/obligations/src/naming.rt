//! Which variables conditions name as numbers.
ghost use Rattle.std.specs.Prelude.{◌≡◌, ◌||◌, map};
ghost use Rattle.obligations.specs.Naming as spec;

use sail_types::{Atom, Con, Num, Term};

/// Whether a number names this variable.
#[cycle(number)]
fn number_has(variable: u32, number: &Num) -> bool
    ensures { result ≡ spec.number_has variable number.now }
{
    terms_have(variable, number.terms.as_slice())
}

#[cycle(number)]
fn terms_have(variable: u32, terms: &[Term]) -> bool
    ensures { result ≡ spec.any_of (map (spec.term_has variable) terms.now) }
{
    for term in terms {
        if term_has(variable, term) {
            return true;
        }
    }
    false
}

#[cycle(number)]
fn term_has(variable: u32, term: &Term) -> bool
    ensures { result ≡ spec.term_has variable term.now }
{
    atom_has(variable, &term.atom)
}

#[cycle(number)]
fn atom_has(variable: u32, atom: &Atom) -> bool
    ensures { result ≡ spec.atom_has variable atom.now }
{
    match atom {
        Atom::Variable(number) => *number == variable,
        Atom::Power(exponent) => number_has(variable, exponent.get()),
    }
}

/// Whether one of two numbers names this variable.
fn either_has(variable: u32, number: &Num, other: &Num) -> bool
    ensures { result ≡ spec.number_has variable number.now || spec.number_has variable other.now }
{
    number_has(variable, number) || number_has(variable, other)
}

/// Whether a condition names this variable as a number.
#[cycle(condition)]
pub fn has_number(variable: u32, con: &Con) -> bool
    ensures { result ≡ spec.has_number variable con.now }
{
    match con {
        Con::Truth(_) => false,
        Con::Holds(_) => false,
        Con::Compare(_, left, right) => either_has(variable, left, right),
        Con::OneOf(number, _) => number_has(variable, number),
        Con::Not(part) => has_number(variable, part.get()),
        Con::All(parts) => any_number(variable, parts.as_slice()),
        Con::Any(parts) => any_number(variable, parts.as_slice()),
    }
}

/// Whether one of several conditions does.
#[cycle(condition)]
pub fn any_number(variable: u32, parts: &[Con]) -> bool
    ensures { result ≡ spec.any_number variable parts.now }
{
    for part in parts {
        if has_number(variable, part) {
            return true;
        }
    }
    false
}
