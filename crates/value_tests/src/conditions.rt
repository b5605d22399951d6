use row_types::row_type;
use sail_types::{ALL, Comparison, Con, Row, Shape};
use std::test::Fail;

/// How many conditions a call of each builtin owes, in their order.
const CONDITIONS: [usize; 70] = [
    2, 2, 2, 0, 2, 0, 0, 0, 1, 1, 1, 1, 0, 0, 0, 0, 0, 0, 0, 1, 1, 1, 0, 0, 1, 1, 1, 0, 1, 1, 1, 0,
    0, 0, 1, 1, 1, 1, 1, 1, 1, 1, 0, 1, 1, 2, 1, 1, 1, 1, 2, 1, 0, 2, 2, 2, 0, 0, 1, 0, 0, 0, 3, 3,
    4, 4, 3, 0, 0, 1,
];

#[test]
fn every_row_is_in_the_table(rt: HostRuntime) -> Result<(), Fail> {
    let alloc = rt.alloc();
    let mut at = 0;
    for row in &ALL {
        let made = row_type(alloc, *row, &Shape::Int)?;
        assert!(rt;
            CONDITIONS.get(at) == Some(&made.conditions.len()),
            "{row:?}"
        );
        at += 1;
    }
    Ok(())
}
