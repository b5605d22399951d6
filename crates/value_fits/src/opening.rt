//! Types that are opened from nothing.
ghost use Rattle.std.specs.Prelude.{◌≡◌, [], IfOk};
ghost use Rattle.value_indices.specs.Opening.{opened as opened_at};
ghost use Rattle.value_indices.specs.declared.indices.Reading.TheVariants as R;

use sail_base::Items;
use sail_types::{Index, Typ};
use std::alloc::{AllocError, Global};
use value_indices::{Fact, Indices, Reading, Walking, opened, opened_type};

/// What is known of a value of a type.
#[derive(Drop)]
pub struct Opened {
    /// Its indices.
    pub value: Indices,
    /// What is known of their variables, in order.
    pub facts: Items<Fact>,
    /// The number of the next variable.
    pub next: u32,
}

impl Opened {
    /// What is known of a value of a type, with variables from this number on. It fails where memory is wanting, and where
    /// variables are too many.
    #[tactic(auto, unfolding(value_indices::specs::Walking::got, value_indices::specs::Walking::run))]
    pub fn of(alloc: Global, reading: &Reading, next: u32) -> Result<Opened, AllocError>
        ensures value { IfOk result (λ made. made.value ≡ (opened_at reading.now [] next).value) }
        ensures facts { IfOk result (λ made. made.facts ≡ (opened_at reading.now [] next).facts) }
        ensures next { IfOk result (λ made. made.next ≡ (opened_at reading.now [] next).next) }
    {
        let mut walking = Walking::new(alloc, next);
        let value = opened(alloc, &mut walking, reading)?;
        let next = walking.next();
        let facts = walking.into_facts(alloc)?;
        Ok(Opened { value, facts, next })
    }

    /// What is known of a value of a type whose variables stand for these, with variables from this number on. It fails where memory
    /// is wanting, and where variables are too many.
    #[tactic(auto, unfolding(value_indices::specs::Walking::got, value_indices::specs::Walking::run))]
    pub fn of_type(
        alloc: Global,
        typ: &Typ,
        indices: &[Index],
        readings: &[Reading],
        next: u32,
    ) -> Result<Opened, AllocError>
        ensures value { IfOk result (λ made. made.value ≡ (opened_at (R.Of typ.now indices.now readings.now) [] next).value) }
        ensures facts { IfOk result (λ made. made.facts ≡ (opened_at (R.Of typ.now indices.now readings.now) [] next).facts) }
        ensures next { IfOk result (λ made. made.next ≡ (opened_at (R.Of typ.now indices.now readings.now) [] next).next) }
    {
        let mut walking = Walking::new(alloc, next);
        let value = opened_type(alloc, &mut walking, typ, indices, readings)?;
        let next = walking.next();
        let facts = walking.into_facts(alloc)?;
        Ok(Opened { value, facts, next })
    }
}
