use sail_base::{Boxed, Items, Place};
use sail_syntax::{
    Def, Exp, FunctionClause, Literal, MappingClause, Member, Name, Pat, Side, TyExp,
};
use scattered::{ScatterError, gather};
use std::alloc::{AllocError, Global};
use std::test::Fail;

fn on_line(line: u32) -> Place {
    Place {
        file: 1,
        line,
        column: 1,
    }
}

fn function_clause(alloc: Global, place: Place) -> Result<FunctionClause, AllocError> {
    let body = Boxed::new(alloc, Exp::Constant(place, Literal::Bool(true)))?;
    Ok(FunctionClause {
        place,
        parameters: Items::new(alloc),
        result: None,
        body,
    })
}

fn side(place: Place) -> Side {
    Side {
        pattern: Pat::Wildcard(place),
        guard: None,
    }
}

fn mapping_clause(place: Place) -> MappingClause {
    MappingClause {
        place,
        left: side(place),
        right: side(place),
    }
}

/// A definition on a line of its own, by a letter: `U`, `F` and `M` open a union, a function and a mapping,
/// `u`, `f` and `m` are their clauses, `e` is an `end`, and anything else an enum.
fn definition(alloc: Global, letter: u8, name: Name) -> Result<Def, AllocError> {
    let place = name.place;
    Ok(match letter {
        b'U' => Def::ScatteredUnion(place, name, Items::new(alloc)),
        b'F' => Def::ScatteredFunction(place, name),
        b'M' => Def::ScatteredMapping(place, name),
        b'u' => {
            let constructor = Member {
                name: name.clone()?,
                typ: TyExp::Truth(place, true),
            };
            Def::UnionClause(place, name, constructor)
        }
        b'f' => Def::FunctionClause(name, function_clause(alloc, place)?),
        b'm' => Def::MappingClause(place, name, mapping_clause(place)),
        b'e' => Def::End(place, name),
        _ => Def::Enum(place, name, Items::new(alloc)),
    })
}

/// The definitions of a text, one on each line from line 1 on, apart by spaces: a letter says what it is, the
/// next is its name, which is `f` or `g`.
fn text_of(alloc: Global, letters: &[u8]) -> Result<Vec<Def>, AllocError> {
    let mut text = Vec::new(alloc);
    let mut line = 1;
    for word in letters.chunks(3) {
        if let [letter, name, ..] = word {
            let spelling = if *name == b'f' { "f" } else { "g" };
            let name = Name::new(alloc, on_line(line), spelling)?;
            text.push(definition(alloc, *letter, name)?)?;
            line = 1 + line % 9;
        }
    }
    Ok(text)
}

fn push_line(told: &mut Vec<u8>, line: u32) -> Result<(), AllocError> {
    told.push(b'0' + (line % 10) as u8)?;
    Ok(())
}

/// A letter, the name, and the lines of the clauses.
fn tell_definition(told: &mut Vec<u8>, definition: &Def) -> Result<(), AllocError> {
    match definition {
        Def::Union {
            name,
            constructors,
            ..
        } => {
            told.push(b'U')?;
            told.extend_from_slice(name.text.as_bytes())?;
            for constructor in constructors.as_slice() {
                push_line(told, constructor.name.place.line)?;
            }
        }
        Def::Function { name, clauses, .. } => {
            told.push(b'F')?;
            told.extend_from_slice(name.text.as_bytes())?;
            for clause in clauses.as_slice() {
                push_line(told, clause.place.line)?;
            }
        }
        Def::Mapping { name, clauses, .. } => {
            told.push(b'M')?;
            told.extend_from_slice(name.text.as_bytes())?;
            for clause in clauses.as_slice() {
                push_line(told, clause.place.line)?;
            }
        }
        Def::Enum(_, name, _) => {
            told.push(b'w')?;
            told.extend_from_slice(name.text.as_bytes())?;
        }
        _ => told.push(b'?')?,
    }
    told.push(b' ')?;
    Ok(())
}

fn tell_refusal(
    told: &mut Vec<u8>,
    number: &[u8],
    place: Place,
    name: &[u8],
) -> Result<(), AllocError> {
    told.extend_from_slice(number)?;
    push_line(told, place.line)?;
    told.push(b' ')?;
    told.extend_from_slice(name)
}

/// The gathered definitions, each behind the other, or the refusal.
fn told(alloc: Global, letters: &[u8]) -> Result<Vec<u8>, AllocError> {
    let mut told = Vec::new(alloc);
    match gather(alloc, text_of(alloc, letters)?) {
        Ok(definitions) => {
            for definition in &definitions {
                tell_definition(&mut told, definition)?;
            }
        }
        Err(ScatterError::NoOpening(place, name)) => {
            tell_refusal(&mut told, b"M22 ", place, name.as_bytes())?;
        }
        Err(ScatterError::Unended(place, name)) => {
            tell_refusal(&mut told, b"M23 ", place, name.as_bytes())?;
        }
        Err(ScatterError::OutOfMemory) => told.extend_from_slice(b"out of memory")?,
    }
    Ok(told)
}

/// Texts, and what they are gathered to: each definition by a letter, its name and the lines of its clauses.
const TEXTS: [(&[u8], &[u8]); 22] = [
    (b"", b""),
    (b"wf wg", b"wf wg "),
    // Clauses stand at the opening, in text order, and others may stand between them.
    (b"Uf uf uf ef", b"Uf23 "),
    (b"Ff ff wg ff ef wf", b"Ff24 wg wf "),
    (b"Mf mf ef", b"Mf2 "),
    (b"wg Ff ef", b"wg Ff "),
    (b"Ff Mg ff mg ff eg ff ef", b"Ff357 Mg4 "),
    // A clause belongs to the latest opening of its kind and name that hasn't ended.
    (b"Ff Ff ff ef ff ef", b"Ff5 Ff3 "),
    (b"Ff Mf ff mf ef ff ef", b"Ff36 Mf4 "),
    (b"Ff ff ef Ff ff ef", b"Ff2 Ff5 "),
    (b"Uf Ff Mf uf ff mf ef ef ef", b"Uf4 Ff5 Mf6 "),
    // An `end` ends the latest opening of its name, of any kind.
    (b"Mf Ff ef mf ef", b"Mf4 Ff "),
    (b"Mf Ff ef ff ef", b"M22 4 f"),
    // A clause or an `end` before which nothing is open that it can belong to.
    (b"ff", b"M22 1 f"),
    (b"ef", b"M22 1 f"),
    (b"wf Ff ef ff", b"M22 4 f"),
    (b"Ff mf ef", b"M22 2 f"),
    (b"Ff fg ef", b"M22 2 g"),
    // An opening that no `end` ends stands at the opening, so before a later stray clause.
    (b"Ff ff", b"M23 1 f"),
    (b"wg Uf wg wg fg", b"M23 2 f"),
    (b"wg fg Uf wg", b"M22 2 g"),
    (b"Ff Ff ef", b"M23 1 f"),
];

#[test]
fn definitions_are_gathered(rt: HostRuntime) -> Result<(), Fail> {
    let alloc = rt.alloc();
    for (letters, expected) in &TEXTS {
        let found = told(alloc, letters)?;
        assert!(rt; found.as_slice() == *expected, "definitions of a text");
    }
    Ok(())
}
