//! Named types, as the tables of these tests write them.
use sail_base::{Items, Text};
use sail_types::{Definition, Field, Form, Num, Typ, Types};
use std::alloc::{AllocError, Global};

/// The type of a field or a payload.
pub enum Part {
    Unit,
    Bool,
    Bit,
    Bits(i128),
    /// The variable of the named type around it.
    Variable,
    /// The named type of this place, of that variable.
    Of(u32),
}

/// A named type: its constructors with their payloads, its fields, or its members.
pub enum Named {
    Union(&'static [(&'static str, Part)]),
    Struct(&'static [(&'static str, Part)]),
    Enum(&'static [&'static str]),
}

fn typ(alloc: Global, part: &Part) -> Result<Typ, AllocError> {
    Ok(match part {
        Part::Unit => Typ::Unit,
        Part::Bool => Typ::Bool,
        Part::Bit => Typ::Bit,
        Part::Bits(width) => Typ::Bits(Num::constant(alloc, *width)),
        Part::Variable => Typ::Variable(0),
        Part::Of(place) => {
            let mut arguments = Items::new(alloc);
            arguments.push(Typ::Variable(0))?;
            Typ::Named(*place, Items::new(alloc), arguments)
        }
    })
}

fn fields(alloc: Global, rows: &[(&str, Part)]) -> Result<Items<Field>, AllocError> {
    let mut fields = Items::new(alloc);
    for (name, part) in rows {
        let typ = typ(alloc, part)?;
        let name = Text::new(alloc, name)?;
        fields.push(Field { name, typ })?;
    }
    Ok(fields)
}

/// Texts in a list.
pub fn texts(alloc: Global, rows: &[&str]) -> Result<Items<Text>, AllocError> {
    let mut texts = Items::new(alloc);
    for text in rows {
        texts.push(Text::new(alloc, text)?)?;
    }
    Ok(texts)
}

fn form(alloc: Global, named: &Named) -> Result<Form, AllocError> {
    Ok(match named {
        Named::Union(constructors) => Form::Union(fields(alloc, constructors)?),
        Named::Struct(parts) => Form::Struct(fields(alloc, parts)?),
        Named::Enum(members) => Form::Enum(texts(alloc, members)?),
    })
}

fn definition(alloc: Global, name: &str, named: &Named) -> Result<Definition, AllocError> {
    let form = form(alloc, named)?;
    Ok(Definition {
        name: Text::new(alloc, name)?,
        parameters: Items::new(alloc),
        form,
    })
}

/// The table of these named types, in their order.
pub fn table(alloc: Global, rows: &[(&str, Named)]) -> Result<Types, AllocError> {
    let mut definitions = Items::new(alloc);
    for (name, named) in rows {
        definitions.push(definition(alloc, name, named)?)?;
    }
    Ok(Types { definitions })
}
