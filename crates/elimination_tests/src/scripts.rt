use crate::answers::put_numbers;
use crate::sums::compare;
use Comparison::{Equal, GreaterEqual, Less, LessEqual, NotEqual};
use Move::{Ask, Pop, Push};
use entail::{Entail, Kept, Scratch};
use sail_types::Comparison;
use std::alloc::{AllocError, Global};
use std::test::Fail;

/// What is done with the facts that stand. A constraint compares the sum of so many x and so many y with a number.
#[derive(Clone, Copy)]
enum Move {
    Push(Comparison, i128, i128, i128),
    Pop,
    Ask(Comparison, i128, i128, i128),
}

/// What is answered as all of this is done, in numbers, and how many facts stand at the end.
fn played<E: Entail>(
    alloc: Global,
    entail: &mut E,
    moves: &[Move],
) -> Result<(Vec<i128>, usize), AllocError> {
    let mut numbers = Vec::new(alloc);
    let mut standing = 0;
    for step in moves {
        match *step {
            Move::Push(how, x, y, z) => {
                entail.push(alloc, compare(alloc, how, x, y, z)?)?;
                standing += 1;
            }
            Move::Pop => {
                if standing > 0 {
                    entail.pop();
                    standing -= 1;
                }
            }
            Move::Ask(how, x, y, z) => {
                let goal = compare(alloc, how, x, y, z)?;
                put_numbers(&mut numbers, &entail.ask(alloc, &goal))?;
            }
        }
    }
    Ok((numbers, standing))
}

/// What is done, the answers, how many facts are turned into rows where each is kept, and where none is.
const SCRIPTS: [(&[Move], &[i128], u64, u64); 5] = [
    // an index of eight bits that is read twice
    (
        &[
            Push(GreaterEqual, 1, 0, 0),
            Push(LessEqual, 1, 0, 7),
            Ask(Less, 1, 0, 8),
            Ask(GreaterEqual, 1, 0, 0),
        ],
        &[1, -8, 7, 2, 1, 1, 1, 1, 1, 0, -1, 2, 1, 1, 1, 1],
        2,
        4,
    ),
    // a fact that replaces another's row is popped: that row stands again
    (
        &[
            Push(GreaterEqual, 1, 0, 0),
            Push(LessEqual, 1, 0, 7),
            Push(LessEqual, 1, 0, 3),
            Ask(Less, 1, 0, 4),
            Pop,
            Ask(Less, 1, 0, 4),
        ],
        &[1, -4, 3, 2, 1, 1, 1, 1, 0, 1, 4],
        3,
        5,
    ),
    // a fact with two alternatives, of which the first is open
    (
        &[
            Push(NotEqual, 1, 0, 0),
            Ask(Less, 0, 1, 1),
            Push(GreaterEqual, 1, 0, 0),
            Push(Equal, 0, 1, 0),
            Ask(GreaterEqual, 1, 0, 1),
        ],
        &[
            0, 1, -1, 1, 1, -1, 0, 0, 0, 1, 1, 2, 1, 1, -1, 0, 0, 0, 4, 1, 1, 1, 1,
        ],
        3,
        4,
    ),
    // seven facts with two alternatives each are too many, six are not
    (
        &[
            Push(NotEqual, 1, 0, 0),
            Push(NotEqual, 1, 0, 1),
            Push(NotEqual, 1, 0, 2),
            Push(NotEqual, 1, 0, 3),
            Push(NotEqual, 1, 0, 4),
            Push(NotEqual, 1, 0, 5),
            Push(NotEqual, 1, 0, 6),
            Ask(Less, 1, 0, 0),
            Pop,
            Ask(Less, 1, 0, 6),
        ],
        &[-3, 128, 0, 1, 6],
        7,
        13,
    ),
    // a fact whose row is past the limit of numbers is refused at each goal while it stands
    (
        &[
            Push(LessEqual, 1, 0, i128::MIN),
            Ask(Less, 1, 0, 0),
            Pop,
            Ask(Less, 1, 0, 0),
        ],
        &[-1, 0, 1, 0],
        1,
        1,
    ),
];

#[test]
fn both_bodies_answer_of_the_facts_that_stand(rt: HostRuntime) -> Result<(), Fail> {
    let alloc = rt.alloc();
    for (moves, numbers, kept_read, scratch_read) in SCRIPTS {
        let mut kept = Kept::new(alloc)?;
        let mut scratch = Scratch::new(alloc);
        let first = played(alloc, &mut kept, moves)?;
        let second = played(alloc, &mut scratch, moves)?;
        let counted = kept.facts_read() == kept_read && scratch.facts_read() == scratch_read;
        assert!(rt; counted && first.0.as_slice() == numbers && second.0.as_slice() == numbers);
    }
    Ok(())
}
