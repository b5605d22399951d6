//! From the facts of one obligation to those of the next.
ghost use Rattle.std.specs.Prelude.{◌≡◌, ◌≤◌, [], IfOk, OnOk, length, take, min};
ghost use Rattle.bidir_check.specs.Checking.{facts_before};

use entail::Entail;
use obligations::Obligation;
use sail_types::{Con, copy_con, same_con};
use std::alloc::{AllocError, Global};

/// The lesser one of two counts.
fn lesser(first: usize, second: usize) -> usize
    ensures { result ≡ min first second }
{
    if first < second { first } else { second }
}

/// How many facts two lists begin with alike.
fn common(first: &[Con], second: &[Con]) -> usize
    ensures alike { take result first.now ≡ take result second.now }
    ensures within { result ≤ length first.now }
    ensures within_second { result ≤ length second.now }
{
    let most = lesser(first.len(), second.len());
    for place in 0..most {
        if !same_con(&first[place], &second[place]) {
            return place;
        }
    }
    most
}

/// Pops facts, of which so many stand, until so many are left.
fn pop_to<E: Entail>(entail: &mut E, standing: usize, left: usize)
    requires standing { length (E.facts entail.old) ≡ standing }
    requires left { left ≤ standing }
    ensures { E.facts entail.new ≡ take left (E.facts entail.old) }
{
    let mut count = standing;
    while count > left {
        entail.pop();
        count -= 1;
    }
}

/// Pushes facts from a place on. The one error is want of memory.
fn push_from<E: Entail>(
    alloc: Global,
    entail: &mut E,
    facts: &[Con],
    from: usize,
) -> Result<(), AllocError>
    requires standing { E.facts entail.old ≡ take from facts.now }
    requires within { from ≤ length facts.now }
    ensures { OnOk result (E.facts entail.new ≡ facts.now) }
{
    let mut place = from;
    while place < facts.len() {
        entail.push(alloc, copy_con(alloc, &facts[place])?)?;
        place += 1;
    }
    Ok(())
}

/// Lets these facts stand in place of others: what both begin with stays. The one error is want of memory.
pub fn stand<E: Entail>(
    alloc: Global,
    entail: &mut E,
    standing: &[Con],
    facts: &[Con],
) -> Result<(), AllocError>
    requires { E.facts entail.old ≡ standing.now }
    ensures { OnOk result (E.facts entail.new ≡ facts.now) }
{
    let alike = common(standing, facts);
    pop_to(entail, standing.len(), alike);
    push_from(alloc, entail, facts, alike)
}

/// The facts of the obligation before a place; none before the first.
pub fn facts_before<'a>(none: &'a [Con], obligations: &'a [Obligation], place: usize) -> &'a [Con]
    requires none { none.now ≡ [] }
    requires within { place ≤ length obligations.now }
    ensures { result.now ≡ facts_before obligations.now place }
{
    if place == 0 {
        return none;
    }
    let at = place - 1;
    let before = &obligations[at];
    before.facts.as_slice()
}
