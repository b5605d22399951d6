use bidir_check::{CheckError, check, check_with};
use entail::{Entail, Kept, Scratch};
use obligations::{Obligation, owed};
use sail_base::{Items, Place, Text};
use sail_core::CoreModel;
use sail_types::{Comparison, Con, Num, Types};
use std::alloc::{AllocError, Global};
use std::test::Fail;

/// A model without definitions.
pub fn no_model(alloc: Global) -> CoreModel {
    CoreModel {
        types: Types {
            definitions: Items::new(alloc),
        },
        exception: None,
        registers: Items::new(alloc),
        register_texts: Items::new(alloc),
        functions: Items::new(alloc),
        directions: Items::new(alloc),
        openings: Items::new(alloc),
        reset: 0,
        step: 0,
    }
}

/// A comparison of the variable of a number with an integer.
fn compared(alloc: Global, variable: u32, how: Comparison, z: i128) -> Result<Con, AllocError> {
    Ok(Con::Compare(
        how,
        Num::variable(alloc, variable)?,
        Num::constant(alloc, z),
    ))
}

/// That the variable of a number is from 0 to the integer before another.
fn index(alloc: Global, variable: u32, z: i128) -> Result<Con, AllocError> {
    let mut parts = Items::new(alloc);
    parts.push(compared(alloc, variable, Comparison::GreaterEqual, 0)?)?;
    parts.push(compared(alloc, variable, Comparison::Less, z)?)?;
    Ok(Con::All(parts))
}

/// The obligation that variable 1, `i`, is an index of 8 bits, where it is from 0 to this number and variable 0 is from 0 to 1.
pub fn index_owed(alloc: Global, most: i128, column: u32) -> Result<Obligation, AllocError> {
    let mut names = Items::new(alloc);
    names.push(Text::new(alloc, "n")?)?;
    names.push(Text::new(alloc, "i")?)?;
    let mut facts = Items::new(alloc);
    facts.push(compared(alloc, 0, Comparison::GreaterEqual, 0)?)?;
    facts.push(compared(alloc, 1, Comparison::GreaterEqual, 0)?)?;
    facts.push(compared(alloc, 0, Comparison::LessEqual, 1)?)?;
    facts.push(compared(alloc, 1, Comparison::LessEqual, most)?)?;
    let place = Place {
        file: 1,
        line: 2,
        column,
    };
    owed(
        alloc,
        names.as_slice(),
        facts.as_slice(),
        index(alloc, 1, 8)?,
        place,
    )
}

/// Two obligations under the same facts.
pub fn two_owed(alloc: Global) -> Result<Items<Obligation>, AllocError> {
    let mut all = Items::new(alloc);
    all.push(index_owed(alloc, 7, 5)?)?;
    all.push(index_owed(alloc, 7, 12)?)?;
    Ok(all)
}

/// How many facts were turned into rows, and how many certificates there are.
#[derive(Clone, Copy)]
struct Counts {
    facts_read: u64,
    certificates: usize,
}

/// Checks two obligations under the same facts, each of which is kept as it is pushed; none where one of them isn't closed.
fn check_kept(alloc: Global) -> Result<Option<Counts>, AllocError> {
    let entail = Kept::new(alloc)?;
    let all = two_owed(alloc)?;
    match check_with(alloc, no_model(alloc), all, entail) {
        Ok((certified, entail)) => {
            let facts_read = entail.facts_read();
            let certificates = certified.certificates().len();
            Ok(Some(Counts {
                facts_read,
                certificates,
            }))
        }
        Err(_) => Ok(None),
    }
}

/// Checks the same two obligations, each from scratch; none where one of them isn't closed.
fn check_from_scratch(alloc: Global) -> Result<Option<Counts>, AllocError> {
    let entail = Scratch::new(alloc);
    let all = two_owed(alloc)?;
    match check_with(alloc, no_model(alloc), all, entail) {
        Ok((certified, entail)) => {
            let facts_read = entail.facts_read();
            let certificates = certified.certificates().len();
            Ok(Some(Counts {
                facts_read,
                certificates,
            }))
        }
        Err(_) => Ok(None),
    }
}

/// Whether two obligations were closed, and so many facts were turned into rows.
fn are_read(counts: Option<Counts>, facts_read: u64) -> bool {
    match counts {
        Some(counts) => counts.facts_read == facts_read && counts.certificates == 2,
        None => false,
    }
}

#[test]
fn facts_of_the_obligation_before_are_read_once(rt: HostRuntime) -> Result<(), Fail> {
    assert!(rt; are_read(check_kept(rt.alloc())?, 2));
    Ok(())
}

#[test]
fn facts_are_read_again_from_scratch(rt: HostRuntime) -> Result<(), Fail> {
    assert!(rt; are_read(check_from_scratch(rt.alloc())?, 4));
    Ok(())
}

/// The detail and the column of a refusal at an open obligation; the column is 0 for another one.
fn told(alloc: Global, error: &CheckError) -> Result<(Vec<u8>, u32), AllocError> {
    let mut detail = Vec::new(alloc);
    error.push_detail(&mut detail)?;
    let column = match error {
        CheckError::Open {
            place,
            names: _,
            point: _,
        } => place.column,
        _ => 0,
    };
    Ok((detail, column))
}

/// Those of a check of four obligations, of which the last two are open; none where all are closed.
fn refused(alloc: Global) -> Result<Option<(Vec<u8>, u32)>, AllocError> {
    let mut all = two_owed(alloc)?;
    all.push(index_owed(alloc, 9, 20)?)?;
    all.push(index_owed(alloc, 8, 30)?)?;
    match check(alloc, no_model(alloc), all) {
        Ok(_) => Ok(None),
        Err(error) => Ok(Some(told(alloc, &error)?)),
    }
}

#[test]
fn the_first_open_obligation_is_refused_at_its_point(rt: HostRuntime) -> Result<(), Fail> {
    let (detail, column) = refused(rt.alloc())?.ok_or("all closed")?;
    assert!(rt; detail.as_slice() == b"i = 8".as_slice() && column == 20);
    Ok(())
}
