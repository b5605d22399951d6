//! Conditions, with what comes into force for them.
ghost use Rattle.std.specs.Prelude.{◌≡◌, [], IfOk};
ghost use Rattle.value_fits.specs.Fitting.{fitted, joined, never as never_at, says as says_at};

use sail_base::Items;
use sail_types::Con;
use std::alloc::{AllocError, Global};
use value_indices::Fact;

/// What has to be true for a value to be of a type.
#[derive(Drop)]
pub struct Fitted {
    /// The conditions, in order; none for one that can't be said.
    pub conditions: Items<Option<Con>>,
    /// What comes into force, in order.
    pub facts: Items<Fact>,
    /// The number of the next variable.
    pub next: u32,
}

impl Fitted {
    /// These conditions; nothing comes into force. It takes no memory.
    pub fn says(alloc: Global, conditions: Items<Option<Con>>, next: u32) -> Fitted
        ensures { result ≡ says_at conditions next }
    {
        Fitted {
            conditions,
            facts: Items::new(alloc),
            next,
        }
    }

    /// No condition; nothing comes into force. It takes no memory.
    pub fn nothing(alloc: Global, next: u32) -> Fitted
        ensures { result ≡ says_at [] next }
    {
        Fitted::says(alloc, Items::new(alloc), next)
    }

    /// What is false: there is no such value of such a type. It fails where memory is wanting.
    pub fn never(alloc: Global, next: u32) -> Result<Fitted, AllocError>
        ensures { IfOk result (λ made. made ≡ never_at next) }
    {
        let mut conditions = Items::new(alloc);
        conditions.push(Some(Con::Truth(false)))?;
        Ok(Fitted::says(alloc, conditions, next))
    }

    /// What comes into force; no condition. It takes no memory.
    pub fn known(alloc: Global, facts: Items<Fact>, next: u32) -> Fitted
        ensures { result ≡ fitted [] facts next }
    {
        Fitted {
            conditions: Items::new(alloc),
            facts,
            next,
        }
    }

    /// These, and behind them others. It fails where memory is wanting.
    #[tactic(auto, unfolding(crate::specs::Fitting::joined))]
    pub fn also(self, more: Fitted) -> Result<Fitted, AllocError>
        ensures { IfOk result (λ made. made ≡ joined self more) }
    {
        let Fitted {
            mut conditions,
            mut facts,
            next: _,
        } = self;
        conditions.append(more.conditions)?;
        facts.append(more.facts)?;
        Ok(Fitted {
            conditions,
            facts,
            next: more.next,
        })
    }
}
