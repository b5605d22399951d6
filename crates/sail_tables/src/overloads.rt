ghost use Rattle.std.specs.Prelude.{◌≡◌, ℕ, List, [], ◌∷◌, ◌++◌, length, slice_index_or, bytes_eq, nat_eq, if◌then◌else◌, IfOk, OnOk};
ghost use Rattle.sail_base.specs.Operators.{number_of};
ghost use Rattle.sail_tables.specs.Tabled.{adds_to_name, adds_to_operator, positions, positions_at};

use sail_base::{Items, Operator, operator_number};
use sail_syntax::{Def, Overloaded};
use std::alloc::{AllocError, Global};
use std::collections::HashMap;

/// The count of the operators.
const OPERATORS: usize = 24;

/// Puts one more position behind those of a name.
fn add_position<'a>(
    alloc: Global,
    overloads: &mut HashMap<&'a str, Items<usize>>,
    name: &'a str,
    at: usize,
) -> Result<(), AllocError>
    ensures { OnOk result ((other : List ℕ) → positions_at overloads.new other
        ≡ (if bytes_eq name.now other then positions_at overloads.old name.now ++ at ∷ [] else positions_at overloads.old other)) }
{
    let mut added = overloads.remove(name).unwrap_or(Items::new(alloc));
    added.push(at)?;
    overloads.insert(name, added)?;
    Ok(())
}

/// The positions of the definitions that add to the overload of each name, in text order.
pub(crate) fn find_overloads<'a>(
    alloc: Global,
    definitions: &'a [Def],
) -> Result<HashMap<&'a str, Items<usize>>, AllocError>
    ensures { IfOk result (λ overloads. (name : List ℕ) → positions_at overloads name ≡ positions (adds_to_name name) definitions.now) }
{
    let mut overloads = HashMap::new(alloc);
    for (at, definition) in definitions.iter().enumerate() {
        if let Def::Overload(_, Overloaded::Named(name), _) = definition {
            add_position(alloc, &mut overloads, name.text.as_str(), at)?;
        }
    }
    Ok(overloads)
}

/// An empty list for each operator.
fn empty_operators(alloc: Global) -> Result<Vec<Items<usize>>, AllocError>
    ensures count { IfOk result (λ lists. length lists.items ≡ 24) }
    ensures empty { IfOk result (λ lists. (number : ℕ) → slice_index_or lists.items number [] ≡ []) }
{
    let mut operators = Vec::new(alloc);
    for _ in 0..OPERATORS {
        operators.push(Items::new(alloc))?;
    }
    Ok(operators)
}

/// Puts one more position behind those of an operator.
fn add_to_operator(
    operators: &mut Vec<Items<usize>>,
    operator: Operator,
    at: usize,
) -> Result<(), AllocError>
    requires { length operators.old.items ≡ 24 }
    ensures count { OnOk result (length operators.new.items ≡ 24) }
    ensures added { OnOk result ((number : ℕ) → slice_index_or operators.new.items number []
        ≡ (if nat_eq (number_of operator) number then slice_index_or operators.old.items number [] ++ at ∷ []
        else slice_index_or operators.old.items number [])) }
{
    operators[operator_number(operator)].push(at)
}

/// The positions of the definitions that add to the overload of each operator, by its number, in text order.
pub(crate) fn find_operators(
    alloc: Global,
    definitions: &[Def],
) -> Result<Items<Items<usize>>, AllocError>
    ensures { IfOk result (λ lists. (number : ℕ) → slice_index_or lists number [] ≡ positions (adds_to_operator number) definitions.now) }
{
    let mut operators = empty_operators(alloc)?;
    for (at, definition) in definitions.iter().enumerate() {
        if let Def::Overload(_, Overloaded::Operator(_, operator), _) = definition {
            add_to_operator(&mut operators, *operator, at)?;
        }
    }
    Ok(Items::from_vec(operators))
}
