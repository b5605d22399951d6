use linear::{Number, Row};
use sail_base::Items;

/// A step: a row that is the first row times its multiplier plus the second times its own, divided.
#[derive(Clone, Copy, Debug)]
pub struct Step {
    /// The number of the first row, from 1.
    pub first: usize,
    /// How many times the first row is taken, above 0.
    pub first_times: Number,
    /// The number of the second row, from 1.
    pub second: usize,
    /// How many times the second row is taken, above 0.
    pub second_times: Number,
    /// What each number of the sum is divided by, above 0.
    pub divisor: Number,
}

/// Why a case can't be: rows to start with, numbered from 1, and steps, numbered on. The last row of all has only zeros and a
/// negative bound.
#[derive(Debug)]
pub struct Case {
    pub starts: Items<Row>,
    pub steps: Items<Step>,
}

impl Drop for Case {
    fn drop(self) {
        let Case {
            starts: _,
            steps: _,
        } = self;
    }
}

/// Why none of several cases can be: a certificate for each, in order.
#[derive(Debug)]
pub struct Cert {
    pub cases: Items<Case>,
}

impl Drop for Cert {
    fn drop(self) {
        let Cert { cases: _ } = self;
    }
}
