//! Whether the notes of what is called are told apart by the numbers of their nodes.
ghost use Rattle.std.specs.Prelude.{◌≡◌, ◌&&◌, nat_eq, not, IsFalse, IsTrue};
ghost use Rattle.sized_meanings.specs.Sized.{joined_nodes};
ghost use Rattle.jib_lower.specs.Instances as spec;
ghost use Rattle.jib_lower.specs.Leads as leads;
ghost use Rattle.jib_lower.specs.Leads.{AllAlone, EachAlone};

use sail_base::Items;
use sized_nodes::{NodeSizes, SizedInstance};

/// Whether both hold.
pub fn both(one: bool, other: bool) -> bool
    ensures { result ≡ (one && other) }
{
    one && other
}

/// Whether two numbers differ.
fn differ(number: u32, other: u32) -> bool
    ensures { result ≡ not (nat_eq number other) }
{
    number != other
}

/// Whether none of these nodes is a call of this number.
fn no_other(number: u32, nodes: &[NodeSizes]) -> bool
    ensures { result ≡ spec.no_other_leads number nodes.now }
{
    match nodes {
        [] => true,
        [first, rest @ ..] => match first {
            NodeSizes::Calls(other, _) => both(differ(number, *other), no_other(number, rest)),
            NodeSizes::Makes(_, _, _) => no_other(number, rest),
            NodeSizes::Gives(_, _) => no_other(number, rest),
        },
    }
}

/// Whether none of the nodes of these bodies is.
fn no_other_in(number: u32, bodies: &[Items<NodeSizes>]) -> bool
    ensures { result ≡ spec.no_other_leads number (joined_nodes bodies.now) }
{
    match bodies {
        [] => true,
        [first, rest @ ..] => both(
            no_other(number, first.as_slice()),
            no_other_in(number, rest),
        ),
    }
}

/// Whether no call of the number of one of these nodes is behind it, among them and among those of bodies.
fn heads_alone(nodes: &[NodeSizes], bodies: &[Items<NodeSizes>]) -> bool
    ensures { result ≡ leads.heads_alone nodes.now (joined_nodes bodies.now) }
{
    match nodes {
        [] => true,
        [first, rest @ ..] => match first {
            NodeSizes::Calls(number, _) => {
                let here = both(no_other(*number, rest), no_other_in(*number, bodies));
                both(here, heads_alone(rest, bodies))
            }
            NodeSizes::Makes(_, _, _) => heads_alone(rest, bodies),
            NodeSizes::Gives(_, _) => heads_alone(rest, bodies),
        },
    }
}

/// Whether of one number no two calls are among the nodes of these bodies.
pub fn are_alone(bodies: &[Items<NodeSizes>]) -> bool
    ensures { result ≡ spec.leads_alone (joined_nodes bodies.now) }
{
    match bodies {
        [] => true,
        [first, rest @ ..] => both(heads_alone(first.as_slice(), rest), are_alone(rest)),
    }
}

/// Whether so it is in each instance.
pub fn instances_alone(instances: &[SizedInstance]) -> bool
    ensures is { IsTrue result → AllAlone instances.now }
    ensures no { IsFalse result → AllAlone instances.now → ⊥ }
{
    match instances {
        [] => true,
        [first, rest @ ..] => both(are_alone(first.bodies.as_slice()), instances_alone(rest)),
    }
}

/// Whether so it is in each of these bodies.
pub fn each_alone(bodies: &[Items<NodeSizes>]) -> bool
    ensures is { IsTrue result → EachAlone bodies.now }
    ensures no { IsFalse result → EachAlone bodies.now → ⊥ }
{
    match bodies {
        [] => true,
        [first, rest @ ..] => both(heads_alone(first.as_slice(), &[]), each_alone(rest)),
    }
}
