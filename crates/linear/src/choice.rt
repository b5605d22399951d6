use crate::row::Row;
use sail_base::Items;

/// What makes a constraint true.
#[cycle(choice)]
#[derive(Debug)]
pub enum Choice {
    /// All of these rows.
    Rows(Items<Row>),
    /// Each of these.
    All(Items<Choice>),
    /// One of these.
    Any(Items<Choice>),
}

impl Drop for Choice {
    #[cycle(choice_drop)]
    fn drop(self) {
        match self {
            Choice::Rows(_) => {}
            Choice::All(_) => {}
            Choice::Any(_) => {}
        }
    }
}
