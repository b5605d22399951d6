//! The keys that can be reached from those of a goal, and the positions of the facts that have them.
ghost use Rattle.std.specs.Prelude.{◌≡◌, ◌∷◌, [], ℕ, true, IfOk, OnOk, slice_index_or};
ghost use Rattle.std.specs.Ordering.{nat_cmp};
ghost use Rattle.std.specs.List.Sorted.{IsSorted};
ghost use Rattle.fact_index.specs.Filed.{has, IsIn};
ghost use Rattle.fact_index.specs.Keys.{keys_at, keys_at_each};
ghost use Rattle.fact_index.specs.Gathered.{Puts, AreClosed};

use crate::keys::fact_keys;
use sail_base::Items;
use std::alloc::{AllocError, Global};
use std::collections::BTreeSet;
use value_indices::Fact;

/// Keys, each once.
#[derive(Drop)]
struct Keys {
    /// In the order in which they came.
    list: Items<u32>,
    /// The same, to tell whether one is there.
    seen: BTreeSet<u32>,
}

/// Puts a key, unless it is there. The one error is want of memory.
fn put_key(keys: &mut Keys, key: u32) -> Result<(), AllocError>
    ensures { OnOk result (Puts keys.old keys.new (key ∷ [])) }
{
    if !keys.seen.insert(key)? {
        return Ok(());
    }
    keys.list.push(key)
}

/// Puts those of these keys that aren't there. The one error is want of memory.
fn put_keys(keys: &mut Keys, more: &[u32]) -> Result<(), AllocError>
    ensures { OnOk result (Puts keys.old keys.new more.now) }
{
    for key in more {
        put_key(keys, *key)?;
    }
    Ok(())
}

/// Puts the keys of the fact at a position, if there is one. The one error is want of memory.
fn put_fact(
    alloc: Global,
    keys: &mut Keys,
    facts: &[Fact],
    position: usize,
) -> Result<(), AllocError>
    ensures { OnOk result (Puts keys.old keys.new (keys_at facts.now position)) }
{
    match facts.get(position) {
        None => Ok(()),
        Some(fact) => {
            let more = fact_keys(alloc, fact)?;
            put_keys(keys, more.as_slice())
        }
    }
}

/// Puts the keys of the facts at these positions. The one error is want of memory.
fn put_facts(
    alloc: Global,
    keys: &mut Keys,
    facts: &[Fact],
    positions: &[usize],
) -> Result<(), AllocError>
    ensures { OnOk result (Puts keys.old keys.new (keys_at_each facts.now positions.now)) }
{
    for position in positions {
        put_fact(alloc, keys, facts, *position)?;
    }
    Ok(())
}

/// The positions in the list of a key; none where there is no list.
fn positions_under(lists: &[Items<usize>], key: u32) -> &[usize]
    ensures { result.now ≡ slice_index_or lists.now key [] }
{
    match lists.get(key as usize) {
        None => &[],
        Some(positions) => positions.as_slice(),
    }
}

/// These keys, and those of each fact that has one that is reached. It fails where memory is wanting.
pub fn reached(
    alloc: Global,
    lists: &[Items<usize>],
    facts: &[Fact],
    from: &[u32],
) -> Result<Items<u32>, AllocError>
    ensures { IfOk result (λ keys. AreClosed lists.now facts.now from.now keys) }
{
    let mut keys = Keys {
        list: Items::new(alloc),
        seen: BTreeSet::new(alloc),
    };
    put_keys(&mut keys, from)?;
    let mut at = 0;
    while at < keys.list.len() {
        let positions = positions_under(lists, keys.list.as_slice()[at]);
        put_facts(alloc, &mut keys, facts, positions)?;
        at += 1;
    }
    Ok(keys.list)
}

/// The positions in the lists of these keys, in ascending order. It fails where memory is wanting.
pub fn positions_of(
    alloc: Global,
    lists: &[Items<usize>],
    keys: &[u32],
) -> Result<Items<usize>, AllocError>
    ensures sorted { IfOk result (λ positions. IsSorted nat_cmp positions) }
    ensures all { IfOk result (λ positions. (key position : ℕ) → has keys.now key ≡ true → IsIn lists.now key position
        → has positions position ≡ true) }
{
    let mut positions = Vec::new(alloc);
    for key in keys {
        positions.extend_from_slice(positions_under(lists, *key))?;
    }
    positions.sort()?;
    Ok(Items::from_vec(positions))
}
