use crate::{Place, Text};

/// Why a model is refused: the first failure of the first phase that fails.
#[derive(Debug)]
pub struct Refusal {
    /// The number of the kind of refusal, 1 to 99, printed with two digits behind an `M`.
    pub number: u8,
    /// Where the failure stands.
    pub place: Place,
    /// What the kind tells besides, in ASCII; empty where it tells nothing.
    pub detail: Text,
}

impl Drop for Refusal {
    fn drop(self) {
        let Refusal {
            number: _,
            place: _,
            detail: _,
        } = self;
    }
}
