ghost use Rattle.std.specs.Prelude.{◌≡◌, MatchOption, Some, None};
ghost use Rattle.sail_types.specs.Named.{fields, constructors, members, form_constructors, form_members};
ghost use Rattle.sail_types.specs.Rows.{is_enum as is_enum_definition};

use crate::types::Typ;
use sail_base::{Items, Kind, Text};

/// The structs, unions and enums of a model, in the order of their definitions; `option` stands first.
pub struct Types {
    pub definitions: Items<Definition>,
}

/// A struct, union or enum.
pub struct Definition {
    /// Its name.
    pub name: Text,
    /// Its parameters, in order.
    pub parameters: Items<Parameter>,
    /// What it is made of. A type in it is read under the parameters.
    pub form: Form,
}

/// A parameter of a named type.
pub struct Parameter {
    /// Its name, for printing, with its `'`.
    pub name: Text,
    /// Its kind.
    pub kind: Kind,
}

/// What a named type is made of.
pub enum Form {
    /// The fields, in order.
    Struct(Items<Field>),
    /// The constructors with their payloads, in order.
    Union(Items<Field>),
    /// The members, in order.
    Enum(Items<Text>),
}

/// A field of a struct, or a constructor of a union with its payload.
pub struct Field {
    /// Its name.
    pub name: Text,
    /// Its type, which is a tuple for a constructor that takes several.
    pub typ: Typ,
}

impl Drop for Types {
    fn drop(self) {
        let Types { definitions: _ } = self;
    }
}

impl Drop for Definition {
    fn drop(self) {
        let Definition {
            name: _,
            parameters: _,
            form: _,
        } = self;
    }
}

impl Drop for Parameter {
    fn drop(self) {
        let Parameter { name: _, kind: _ } = self;
    }
}

impl Drop for Form {
    fn drop(self) {
        match self {
            Form::Struct(_) => {}
            Form::Union(_) => {}
            Form::Enum(_) => {}
        }
    }
}

impl Drop for Field {
    fn drop(self) {
        let Field { name: _, typ: _ } = self;
    }
}

impl Types {
    /// The fields of the struct at a place in the table; none where no struct stands there.
    pub fn fields(&self, place: u32) -> Option<&[Field]>
        ensures { MatchOption result (fields self.now place ≡ None) (λ found. fields self.now place ≡ Some found.now) }
    {
        match &self.definitions.get(place as usize)?.form {
            Form::Struct(fields) => Some(fields.as_slice()),
            _ => None,
        }
    }

    /// The constructors of the union at a place in the table; none where no union stands there.
    pub fn constructors(&self, place: u32) -> &[Field]
        ensures { result.now ≡ constructors self.now place }
    {
        match self.definitions.get(place as usize) {
            Some(definition) => definition.form.constructors(),
            None => &[],
        }
    }

    /// The members of the enum at a place in the table; none where no enum stands there.
    pub fn members(&self, place: u32) -> &[Text]
        ensures { result.now ≡ members self.now place }
    {
        match self.definitions.get(place as usize) {
            Some(definition) => definition.form.members(),
            None => &[],
        }
    }
}

impl Definition {
    /// Whether it is an enum.
    pub fn is_enum(&self) -> bool
        ensures { result ≡ is_enum_definition self.now }
    {
        match &self.form {
            Form::Enum(_) => true,
            _ => false,
        }
    }
}

impl Form {
    fn constructors(&self) -> &[Field]
        ensures { result.now ≡ form_constructors self.now }
    {
        match self {
            Form::Union(constructors) => constructors.as_slice(),
            _ => &[],
        }
    }

    fn members(&self) -> &[Text]
        ensures { result.now ≡ form_members self.now }
    {
        match self {
            Form::Enum(members) => members.as_slice(),
            _ => &[],
        }
    }
}
