//! Definitions with a name each and little else, as models are built of.

use sail_base::{Items, Operator, Place};
use sail_syntax::{Def, Extent, Member, Name, Overloaded, TyExp};
use std::alloc::{AllocError, Global};

/// A name, behind the line that it stands on.
pub type Named = (u32, &'static str);

/// A definition, its name and what it has.
pub enum Row {
    /// A function without clauses.
    Function(Named),
    /// A mapping without clauses.
    Mapping(Named),
    /// A register of `bool`.
    Register(Named),
    /// A struct of one field of `bool`.
    Struct(Named, &'static str),
    /// A union of one constructor of `bool`.
    Union(Named, &'static str),
    /// An overload, and its members with a blank between two.
    Overload(Named, &'static str),
    /// An overload of an operator on a line, and its members.
    Operator(u32, Operator, &'static str),
}

/// The first column of a line.
fn on_line(line: u32) -> Place {
    Place {
        file: 1,
        line,
        column: 1,
    }
}

fn at(alloc: Global, named: &Named) -> Result<Name, AllocError> {
    Name::new(alloc, on_line(named.0), named.1)
}

/// The names of a text, with a blank between two.
pub fn names(alloc: Global, place: Place, text: &str) -> Result<Items<Name>, AllocError> {
    let mut names = Items::new(alloc);
    for name in text.split(' ') {
        if !name.is_empty() {
            names.push(Name::new(alloc, place, name)?)?;
        }
    }
    Ok(names)
}

/// The type `bool`.
fn truth(alloc: Global, place: Place) -> Result<TyExp, AllocError> {
    Ok(TyExp::Named(Name::new(alloc, place, "bool")?, Items::new(alloc)))
}

/// One member of `bool`.
fn one_member(alloc: Global, place: Place, name: &str) -> Result<Items<Member>, AllocError> {
    let name = Name::new(alloc, place, name)?;
    let typ = truth(alloc, place)?;
    let mut members = Items::new(alloc);
    members.push(Member { name, typ })?;
    Ok(members)
}

/// Puts a definition behind others.
fn put(definitions: &mut Vec<Def>, definition: Def) -> Result<(), AllocError> {
    definitions.push(definition)?;
    Ok(())
}

/// Puts a function or a mapping without clauses behind others.
fn put_bare(
    alloc: Global,
    definitions: &mut Vec<Def>,
    name: Name,
    is_mapping: bool,
) -> Result<(), AllocError> {
    let place = name.place;
    if is_mapping {
        let definition = Def::Mapping {
            place,
            name,
            sides: None,
            clauses: Items::new(alloc),
        };
        return put(definitions, definition);
    }
    let definition = Def::Function {
        place,
        extent: Extent::Gathered,
        name,
        clauses: Items::new(alloc),
    };
    put(definitions, definition)
}

/// Puts a register behind others.
fn put_register(alloc: Global, definitions: &mut Vec<Def>, name: Name) -> Result<(), AllocError> {
    let place = name.place;
    let typ = truth(alloc, place)?;
    let definition = Def::Register {
        place,
        name,
        typ,
        initial: None,
    };
    put(definitions, definition)
}

/// Puts a struct of a field or a union of a constructor behind others.
fn put_members(
    alloc: Global,
    definitions: &mut Vec<Def>,
    name: Name,
    member: &str,
    is_union: bool,
) -> Result<(), AllocError> {
    let place = name.place;
    let members = one_member(alloc, place, member)?;
    if is_union {
        let definition = Def::Union {
            place,
            name,
            variables: Items::new(alloc),
            constructors: members,
        };
        return put(definitions, definition);
    }
    let definition = Def::Struct {
        place,
        name,
        variables: Items::new(alloc),
        fields: members,
    };
    put(definitions, definition)
}

/// Puts an overload behind others.
fn put_overload(
    alloc: Global,
    definitions: &mut Vec<Def>,
    place: Place,
    overloaded: Overloaded,
    members: &str,
) -> Result<(), AllocError> {
    let members = names(alloc, place, members)?;
    put(definitions, Def::Overload(place, overloaded, members))
}

/// Puts the definition of a row behind others.
fn put_row(alloc: Global, definitions: &mut Vec<Def>, row: &Row) -> Result<(), AllocError> {
    match row {
        Row::Function(name) => put_bare(alloc, definitions, at(alloc, name)?, false),
        Row::Mapping(name) => put_bare(alloc, definitions, at(alloc, name)?, true),
        Row::Register(name) => put_register(alloc, definitions, at(alloc, name)?),
        Row::Struct(name, field) => {
            put_members(alloc, definitions, at(alloc, name)?, field, false)
        }
        Row::Union(name, constructor) => {
            put_members(alloc, definitions, at(alloc, name)?, constructor, true)
        }
        Row::Overload(name, members) => {
            let overloaded = Overloaded::Named(at(alloc, name)?);
            put_overload(alloc, definitions, on_line(name.0), overloaded, members)
        }
        Row::Operator(line, operator, members) => {
            let overloaded = Overloaded::Operator(on_line(*line), *operator);
            put_overload(alloc, definitions, on_line(*line), overloaded, members)
        }
    }
}

/// The definitions of rows, in their order.
pub fn definitions(alloc: Global, rows: &[Row]) -> Result<Vec<Def>, AllocError> {
    let mut definitions = Vec::new(alloc);
    for row in rows {
        put_row(alloc, &mut definitions, row)?;
    }
    Ok(definitions)
}
