//! Nodes, made of their parts.
ghost use Rattle.std.specs.Prelude.{◌≡◌, [], ◌∷◌, IfOk};
ghost use Rattle.sail_core.specs.Nodes.{node};

use crate::tree::{Core, Kind};
use sail_base::{Items, Place};
use std::alloc::{AllocError, Global};

impl Core {
    /// A node without parts.
    pub fn leaf(alloc: Global, place: Place, number: u32, kind: Kind) -> Core
        ensures { result ≡ node place number kind [] }
    {
        let parts = Items::new(alloc);
        Core {
            place,
            number,
            kind,
            parts,
        }
    }

    /// A node over one part. It fails where memory is wanting.
    pub fn over(
        alloc: Global,
        place: Place,
        number: u32,
        kind: Kind,
        part: Core,
    ) -> Result<Core, AllocError>
        ensures { IfOk result (λ core. core ≡ node place number kind (part ∷ [])) }
    {
        let mut parts = Items::new(alloc);
        parts.push(part)?;
        Ok(Core {
            place,
            number,
            kind,
            parts,
        })
    }

    /// A node over two parts. It fails where memory is wanting.
    pub fn over_both(
        alloc: Global,
        place: Place,
        number: u32,
        kind: Kind,
        first: Core,
        second: Core,
    ) -> Result<Core, AllocError>
        ensures { IfOk result (λ core. core ≡ node place number kind (first ∷ second ∷ [])) }
    {
        let mut parts = Items::new(alloc);
        parts.push(first)?;
        parts.push(second)?;
        Ok(Core {
            place,
            number,
            kind,
            parts,
        })
    }
}
