use sail_base::Items;
use sail_kinds::Variable;
use sail_types::{Con, Typ};

/// The types of a function or mapping, in normal form, under the type variables that it binds.
pub struct Signature {
    /// The type variables, in order.
    pub variables: Items<Variable>,
    /// What they satisfy.
    pub constraint: Con,
    /// What is taken, a tuple where there are several parameters; the left side of a mapping.
    pub from: Typ,
    /// What is given; the right side of a mapping.
    pub to: Typ,
}

impl Drop for Signature {
    fn drop(self) {
        let Signature {
            variables: _,
            constraint: _,
            from: _,
            to: _,
        } = self;
    }
}
