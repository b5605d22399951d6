//! Which conditions name a variable.
ghost use Rattle.std.specs.Prelude.{◌≡◌, ◌||◌, map};
ghost use Rattle.std.specs.List.{list_any};
ghost use Rattle.sail_types.specs.Places.{atom_is as atom_is_of, is_variable as is_variable_of};
ghost use Rattle.sail_types.specs.declared.numbers.Atom.{out-Atom};
ghost use Rattle.size_splits.specs.Splits as spec;

use sail_types::{Atom, Con, Num, Term};

/// Whether an atom is this variable.
fn atom_is(variable: u32, atom: &Atom) -> bool
    ensures { result ≡ atom_is_of variable (out-Atom atom.now) }
{
    match atom {
        Atom::Variable(number) => *number == variable,
        Atom::Power(_) => false,
    }
}

/// Whether a number is this variable alone.
pub(crate) fn is_variable(variable: u32, number: &Num) -> bool
    ensures { result ≡ is_variable_of variable number.now }
{
    match number.terms.as_slice() {
        [term] => number.constant == 0 && term.coefficient == 1 && atom_is(variable, &term.atom),
        _ => false,
    }
}

/// Whether a term is a multiple of this variable.
fn term_is(variable: u32, term: &Term) -> bool
    ensures { result ≡ spec.term_is variable term.now }
{
    atom_is(variable, &term.atom)
}

/// Whether a number names this variable outside of exponents.
fn is_among(variable: u32, number: &Num) -> bool
    ensures { result ≡ spec.is_among variable number.now }
{
    for term in number.terms.as_slice() {
        if term_is(variable, term) {
            return true;
        }
    }
    false
}

/// Whether one of both numbers does.
fn is_among_both(variable: u32, number: &Num, other: &Num) -> bool
    ensures { result ≡ spec.is_among variable number.now || spec.is_among variable other.now }
{
    is_among(variable, number) || is_among(variable, other)
}

/// Whether a condition names this variable outside of exponents.
#[cycle(names_it)]
pub(crate) fn names_it(variable: u32, condition: &Con) -> bool
    ensures { result ≡ spec.names_it variable condition.now }
{
    match condition {
        Con::Truth(_) => false,
        Con::Holds(number) => *number == variable,
        Con::Compare(_, left, right) => is_among_both(variable, left, right),
        Con::OneOf(number, _) => is_among(variable, number),
        Con::Not(part) => names_it(variable, part.get()),
        Con::All(parts) => one_names_it(variable, parts.as_slice()),
        Con::Any(parts) => one_names_it(variable, parts.as_slice()),
    }
}

/// Whether one of these conditions does.
#[cycle(names_it)]
fn one_names_it(variable: u32, conditions: &[Con]) -> bool
    ensures { result ≡ list_any (λ is. is) (map (spec.names_it variable) conditions.now) }
{
    for condition in conditions {
        if names_it(variable, condition) {
            return true;
        }
    }
    false
}
