//! The equality of types, which takes no account of the names of what they bind.
ghost use Rattle.std.specs.Prelude.{◌≡◌, ◌↔◌, IsTrue, map};
ghost use Rattle.sail_fits.specs.Unnamed.{unnamed};

use sail_types::{Index, Typ, same_con, same_index, same_num};

/// Whether two types are the same, but for the names of what they bind.
#[cycle(same_type)]
pub fn same_type(a: &Typ, b: &Typ) -> bool
    ensures { IsTrue result ↔ (unnamed a.now ≡ unnamed b.now) }
{
    match (a, b) {
        (Typ::Unit, Typ::Unit) => true,
        (Typ::Bool, Typ::Bool) => true,
        (Typ::Truth(con), Typ::Truth(other)) => same_con(con, other),
        (Typ::Bit, Typ::Bit) => true,
        (Typ::Bits(width), Typ::Bits(other)) => same_num(width, other),
        (Typ::Int(number), Typ::Int(other)) => same_num(number, other),
        (Typ::Range(low, high), Typ::Range(other_low, other_high)) => {
            both(same_num(low, other_low), same_num(high, other_high))
        }
        (Typ::String, Typ::String) => true,
        (Typ::List(item), Typ::List(other)) => same_type(item.get(), other.get()),
        (Typ::Vector(length, item), Typ::Vector(other_length, other)) => both(
            same_num(length, other_length),
            same_type(item.get(), other.get()),
        ),
        (Typ::Tuple(parts), Typ::Tuple(others)) => same_types(parts.as_slice(), others.as_slice()),
        (Typ::Named(place, indices, arguments), Typ::Named(other, other_indices, others)) => both(
            both(
                same_place(*place, *other),
                same_indices(indices.as_slice(), other_indices.as_slice()),
            ),
            same_types(arguments.as_slice(), others.as_slice()),
        ),
        (Typ::Variable(position), Typ::Variable(other)) => same_place(*position, *other),
        (Typ::Exists(_, con, part), Typ::Exists(_, other_con, other)) => {
            both(same_con(con, other_con), same_type(part.get(), other.get()))
        }
        _ => false,
    }
}

/// Whether two lists of types are the same, but for the names of what they bind.
#[cycle(same_type)]
pub fn same_types(a: &[Typ], b: &[Typ]) -> bool
    ensures { IsTrue result ↔ (map unnamed a.now ≡ map unnamed b.now) }
{
    if a.len() != b.len() {
        return false;
    }
    let mut at = 0;
    for item in a {
        if !same_type(item, &b[at]) {
            return false;
        }
        at += 1;
    }
    true
}

fn same_indices(a: &[Index], b: &[Index]) -> bool
    ensures { IsTrue result ↔ (a.now ≡ b.now) }
{
    if a.len() != b.len() {
        return false;
    }
    let mut at = 0;
    for item in a {
        if !same_index(item, &b[at]) {
            return false;
        }
        at += 1;
    }
    true
}

/// Whether both are true. Both are known where it is called, so that a caller has no branch.
fn both(a: bool, b: bool) -> bool
    ensures { IsTrue result ↔ (IsTrue a × IsTrue b) }
{
    a && b
}

/// Whether two places or positions are the same.
fn same_place(a: u32, b: u32) -> bool
    ensures { IsTrue result ↔ (a ≡ b) }
{
    a == b
}
