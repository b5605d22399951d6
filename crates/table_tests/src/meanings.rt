use crate::definitions::{Row, definitions};
use known_names::find_names;
use sail_base::Operator;
use sail_globals::find_namings;
use sail_names::Global as Named;
use std::alloc::{AllocError, Global};
use std::slice::from_ref;
use std::test::Fail;

/// What a name is.
fn kind_of(named: &Named) -> &'static str {
    match named {
        Named::Register => "register",
        Named::Let(_) => "let",
        Named::Member => "member",
        Named::Constructor => "constructor",
        Named::Builtin => "builtin",
        Named::StateBuiltin => "state",
        Named::Function(_) => "function",
        Named::Mapping(_) => "mapping",
        Named::Direction(_) => "direction",
        Named::Overload(_) => "overload",
    }
}

/// The numbers of what a name is or can enter.
fn numbers_of(named: &Named) -> &[usize] {
    match named {
        Named::Function(number) => from_ref(number),
        Named::Mapping(number) => from_ref(number),
        Named::Direction(number) => from_ref(number),
        Named::Overload(entered) => entered.as_slice(),
        _ => &[],
    }
}

/// A name, what it is, and the numbers of what it is or can enter, which are digits here.
fn told(alloc: Global, name: &str, named: Option<&Named>) -> Result<String, AllocError> {
    let mut told = String::from_str(alloc, name)?;
    told.push_str(" ")?;
    match named {
        None => told.push_str("nothing")?,
        Some(named) => {
            told.push_str(kind_of(named))?;
            for number in numbers_of(named) {
                told.push_str(" ")?;
                told.push(char::from(b'0' + (*number % 10) as u8))?;
            }
        }
    }
    Ok(told)
}

/// A model.
const MODEL: &[Row] = &[
    Row::Function((1, "f")),
    Row::Mapping((1, "m")),
    Row::Struct((1, "S"), "x"),
    Row::Union((1, "exception"), "C"),
    Row::Overload((1, "o"), "f C m"),
    Row::Overload((1, "o"), "m_backwards length"),
    Row::Operator(1, Operator::Or, "m_forwards f"),
];

/// Names, what each is, and the numbers of what it is or can enter.
const MEANINGS: &str = "f function 0
m mapping 1
m_forwards direction 1
C constructor
Some constructor
o overload 0 1
length builtin
mem_read state
S nothing
x nothing";

#[test]
fn names_mean_what_is_defined(rt: HostRuntime) -> Result<(), Fail> {
    let alloc = rt.alloc();
    let definitions = definitions(alloc, MODEL)?;
    let namings = find_namings(alloc, definitions.as_slice())?;
    let names = find_names(alloc, definitions.as_slice(), namings.as_slice())?;
    for row in MEANINGS.split('\n') {
        let (name, _) = row.split_once(' ').ok_or("no row")?;
        let found = told(alloc, name, names.value(name))?;
        assert!(rt; found.as_str() == row);
    }
    assert!(rt; names.is_struct("S") && !names.is_struct("exception"));
    assert!(rt; names.is_field("x") && !names.is_field("C"));
    assert!(rt; names.has_exception);
    assert!(rt;
        names.overload(Operator::Or) == [1, 0].as_slice()
            && names.overload(Operator::Plus).is_empty()
    );
    Ok(())
}
