ghost use Rattle.std.specs.Prelude.{◌≡◌, IfOk};
ghost use Rattle.sail_tables.specs.Tabled.{is_let as is_let_of, is_register as is_register_of, positions};

use sail_base::Items;
use sail_syntax::Def;
use std::alloc::{AllocError, Global};

fn is_let(definition: &Def) -> bool
    ensures { result ≡ is_let_of definition.now }
{
    match definition {
        Def::Let(_, _, _) => true,
        _ => false,
    }
}

fn is_register(definition: &Def) -> bool
    ensures { result ≡ is_register_of definition.now }
{
    match definition {
        Def::Register { .. } => true,
        _ => false,
    }
}

/// The positions of the top-level lets, in text order.
pub(crate) fn find_lets(alloc: Global, definitions: &[Def]) -> Result<Items<usize>, AllocError>
    ensures { IfOk result (λ lets. lets ≡ positions is_let_of definitions.now) }
{
    let mut lets = Items::new(alloc);
    for (at, definition) in definitions.iter().enumerate() {
        if is_let(definition) {
            lets.push(at)?;
        }
    }
    Ok(lets)
}

/// The positions of the registers, in text order.
pub(crate) fn find_registers(alloc: Global, definitions: &[Def]) -> Result<Items<usize>, AllocError>
    ensures { IfOk result (λ registers. registers ≡ positions is_register_of definitions.now) }
{
    let mut registers = Items::new(alloc);
    for (at, definition) in definitions.iter().enumerate() {
        if is_register(definition) {
            registers.push(at)?;
        }
    }
    Ok(registers)
}
