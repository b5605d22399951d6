//! Numbers and conditions over the variables before one.
ghost use Rattle.std.specs.Prelude.{◌≡◌, ◌&&◌, map};
ghost use Rattle.std.specs.List.{list_all};
ghost use Rattle.wide_types.specs.Widening.{is_below as is_below_of, is_atom_below as is_atom_below_of, is_term_below as is_term_below_of};
ghost use Rattle.wide_types.specs.Widening.{is_con_below as is_con_below_of};

use sail_types::{Atom, Con, Num, Term};

/// Whether a number names only variables before that one.
#[cycle(is_below)]
pub fn is_below(variable: u32, number: &Num) -> bool
    ensures { result ≡ is_below_of variable number.now }
{
    are_terms_below(variable, number.terms.as_slice())
}

#[cycle(is_below)]
fn are_terms_below(variable: u32, terms: &[Term]) -> bool
    ensures { result ≡ list_all (λ is. is) (map (is_term_below_of variable) terms.now) }
{
    for term in terms {
        if !is_term_below(variable, term) {
            return false;
        }
    }
    true
}

#[cycle(is_below)]
fn is_term_below(variable: u32, term: &Term) -> bool
    ensures { result ≡ is_term_below_of variable term.now }
{
    is_atom_below(variable, &term.atom)
}

#[cycle(is_below)]
fn is_atom_below(variable: u32, atom: &Atom) -> bool
    ensures { result ≡ is_atom_below_of variable atom.now }
{
    match atom {
        Atom::Variable(number) => *number < variable,
        Atom::Power(exponent) => is_below(variable, exponent.get()),
    }
}

/// Whether both numbers name only variables before that one.
fn are_both_below(variable: u32, number: &Num, other: &Num) -> bool
    ensures { result ≡ is_below_of variable number.now && is_below_of variable other.now }
{
    is_below(variable, number) && is_below(variable, other)
}

/// Whether a condition names only variables before that one.
#[cycle(is_con_below)]
pub fn is_con_below(variable: u32, con: &Con) -> bool
    ensures { result ≡ is_con_below_of variable con.now }
{
    match con {
        Con::Truth(_) => true,
        Con::Holds(number) => *number < variable,
        Con::Compare(_, left, right) => are_both_below(variable, left, right),
        Con::OneOf(number, _) => is_below(variable, number),
        Con::Not(part) => is_con_below(variable, part.get()),
        Con::All(parts) => are_cons_below(variable, parts.as_slice()),
        Con::Any(parts) => are_cons_below(variable, parts.as_slice()),
    }
}

#[cycle(is_con_below)]
fn are_cons_below(variable: u32, parts: &[Con]) -> bool
    ensures { result ≡ list_all (λ is. is) (map (is_con_below_of variable) parts.now) }
{
    for part in parts {
        if !is_con_below(variable, part) {
            return false;
        }
    }
    true
}
