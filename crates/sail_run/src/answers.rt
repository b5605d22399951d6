use crate::long_texts;
use sail_outside::{MemShelf, MemSink};
use sail_rows::shipped_models::{RV32_BEGIN, RV32_END, RV32A, RV32I, RV32M, TOY16};
use sail_rows::shipped_rv64::{RV64_BEGIN, RV64A, RV64I, RV64M};
use sail_rows::{
    checks_rows, choices_rows, example_rows, facts_rows, instances_rows, mapping_rows,
    members_rows, patterns_rows, shapes_rows, tables_rows, tutorial_rows, words_rows,
};
use sail_top::{Jib, run_words};
use std::alloc::{AllocError, Global};
use std::process::Abort;
use std::test::Fail;

// What stands between the registers of a model and the body of its step.
const RESET: &str =
    "val reset : (range(0, 7), bits(64)) -> unit\nfunction reset(h, e) = ()\nval step : unit -> bool\nfunction step() = ";

// An image in hexadecimal digits: its header, its one program header and its eight bytes of code at 0x80000000.
const IMAGE: &str = concat!(
    "7f454c460201010000000000000000000200f300010000000000008000000000",
    "4000000000000000000000000000000000000000400038000100000000000000",
    "0100000005000000780000000000000000000080000000000000008000000000",
    "08000000000000000800000000000000040000000000000093005000b3812000",
);

// The same code, a note, and a second segment of 32 bytes at 0x80001000, four of them from the file.
const SEGMENTS: &str = concat!(
    "7f454c460201010000000000000000000200f300010000000000008000000000",
    "4000000000000000000000000000000000000000400038000300000000000000",
    "0100000005000000e80000000000000000000080000000000000008000000000",
    "0800000000000000080000000000000004000000000000000400000004000000",
    "0000000000000000000000000000000000000000000000000000000000000000",
    "000000000000000004000000000000000100000006000000f000000000000000",
    "0010008000000000001000800000000004000000000000002000000000000000",
    "040000000000000093005000b381200078563412",
);

const COUNTER: &str = "register PC : bits(8)\n";

const COUNT: &str = "{ PC = PC + 0x01; true }";

// The model's text from its registers and the body of its step, if it has one.
fn model(alloc: Global, registers: &str, body: &str) -> Result<Vec<u8>, AllocError> {
    let mut text = Vec::from_slice(alloc, registers.as_bytes())?;
    if body.is_empty() {
        return Ok(text);
    }
    text.extend_from_slice(RESET.as_bytes())?;
    text.extend_from_slice(body.as_bytes())?;
    Ok(text)
}

/// A file of a name.
pub fn file(alloc: Global, name: &str, bytes: Vec<u8>) -> Result<(String, Vec<u8>), AllocError> {
    Ok((String::from_str(alloc, name)?, bytes))
}

// The words of a line with blanks between.
fn words_of(alloc: Global, line: &str) -> Result<Vec<String>, AllocError> {
    let mut words = Vec::new(alloc);
    for word in line.split(' ') {
        words.push(String::from_str(alloc, word)?)?;
    }
    Ok(words)
}

// The model M, what stands behind registers, and the images, those of the examples last.
fn files_of(alloc: Global, text: Vec<u8>) -> Result<Vec<(String, Vec<u8>)>, Fail> {
    let mut short = hex::decode(alloc, IMAGE)?;
    short.truncate(127);
    let mut files = Vec::new(alloc);
    files.push(file(alloc, "M", text)?)?;
    files.push(file(alloc, "N", model(alloc, "", COUNT)?)?)?;
    files.push(file(alloc, "Q", hex::decode(alloc, IMAGE)?)?)?;
    files.push(file(alloc, "S", hex::decode(alloc, SEGMENTS)?)?)?;
    files.push(file(alloc, "P", short)?)?;
    files.push(file(alloc, "C", hex::decode(alloc, example_rows::COUNTDOWN)?)?)?;
    files.push(file(alloc, "L", hex::decode(alloc, example_rows::LINES)?)?)?;
    Ok(files)
}

/// What is written for words over files, behind the status and a blank. The calls of the shelf and the sink whose numbers are listed fail, and each
/// moves at most `piece` bytes.
pub fn answer_over(
    alloc: Global,
    line: &str,
    files: Vec<(String, Vec<u8>)>,
    fails: (Vec<u64>, Vec<u64>),
    piece: usize,
) -> Result<Vec<u8>, Fail> {
    let words = words_of(alloc, line)?;
    let mut shelf = MemShelf::new(files, fails.0, piece);
    let mut sink = MemSink::new(alloc, fails.1, piece);
    let mut engine = Jib;
    let status = run_words(alloc, words.as_slice(), &mut shelf, &mut sink, &mut engine);
    let mut answer = Vec::from_slice(alloc, &[b'0' + status.code() % 10, b' '])?;
    answer.extend_from_slice(sink.bytes())?;
    Ok(answer)
}

// The same over the model M of a text, and the other files.
fn answer(
    alloc: Global,
    line: &str,
    text: Vec<u8>,
    fails: (Vec<u64>, Vec<u64>),
    piece: usize,
) -> Result<Vec<u8>, Fail> {
    answer_over(alloc, line, files_of(alloc, text)?, fails, piece)
}

/// A row of a table.
#[derive(Clone, Copy)]
struct Row<'a> {
    /// The words, with blanks between.
    words: &'a str,
    /// The text of the model M.
    text: &'a str,
    /// The body of its step; none where it is empty.
    body: &'a str,
    /// What is written for it, the status first.
    wanted: &'a str,
}

/// A row as it is written: behind `%` its words, if it has any, and behind `//` what it is about; on the next lines the text up to `#`; behind
/// that the body; and behind the `# ` of the next line what is wanted.
fn row_of(written: &str) -> Option<Row<'_>> {
    let (head, rest) = written.split_once('\n')?;
    let (text, rest) = rest.split_once('#')?;
    let (body, wanted) = rest.split_once("\n# ")?;
    let words = match head.split_once(" //") {
        Some((words, _)) => words,
        None => head,
    };
    Some(Row {
        words: words.strip_prefix(' ').unwrap_or(words),
        text,
        body: body.trim_start(),
        wanted,
    })
}

/// Whether a row is answered as it is to be, where so many bytes are moved at most.
fn is_answered(alloc: Global, row: Row<'_>, piece: usize) -> Result<bool, Fail> {
    let text = model(alloc, row.text, row.body)?;
    let fails = (Vec::new(alloc), Vec::new(alloc));
    let written = answer(alloc, row.words, text, fails, piece)?;
    Ok(written.as_slice() == row.wanted.as_bytes())
}

/// The first row of a table that isn't answered as it is to be; none where each is.
fn first_wrong(alloc: Global, table: &str, piece: usize) -> Result<Option<&str>, Fail> {
    for written in table.split('%').skip(1) {
        let row = row_of(written).ok_or("no row")?;
        if !is_answered(alloc, row, piece)? {
            return Ok(Some(written));
        }
    }
    Ok(None)
}

/// Whether what `check` writes for a model is what is wanted: of one that is accepted no count is.
fn is_checked(alloc: Global, row: Row<'_>) -> Result<bool, Fail> {
    let text = model(alloc, row.text, row.body)?;
    let fails = (Vec::new(alloc), Vec::new(alloc));
    let written = answer(alloc, "check M", text, fails, 4096)?;
    let wanted = row.wanted.as_bytes();
    if row.wanted == "0 accepted\n" {
        return Ok(written.as_slice().starts_with(b"0 accepted "));
    }
    Ok(written.as_slice() == wanted)
}

/// The same for models without words, by `check`.
fn first_wrong_model(alloc: Global, table: &str) -> Result<Option<&str>, Fail> {
    for written in table.split('%').skip(1) {
        let row = row_of(written).ok_or("no row")?;
        if !is_checked(alloc, row)? {
            return Ok(Some(written));
        }
    }
    Ok(None)
}

/// Each row of a table is answered as it is to be; else the first that isn't is named.
fn rows_answered(rt: &impl Abort, alloc: Global, table: &str, piece: usize) -> Result<(), Fail> {
    let wrong = first_wrong(alloc, table, piece)?;
    assert!(rt; wrong.is_none(), "{wrong:?}");
    Ok(())
}

/// The same for models without words.
fn models_answered(rt: &impl Abort, alloc: Global, table: &str) -> Result<(), Fail> {
    let wrong = first_wrong_model(alloc, table)?;
    assert!(rt; wrong.is_none(), "{wrong:?}");
    Ok(())
}

#[test]
fn words_are_answered(rt: HostRuntime) -> Result<(), Fail> {
    rows_answered(&rt, rt.alloc(), words_rows::WORDS, 7)
}

#[test]
fn taken_names_are_answered(rt: HostRuntime) -> Result<(), Fail> {
    models_answered(&rt, rt.alloc(), tables_rows::NAMES)
}

#[test]
fn definitions_and_cycles_are_answered(rt: HostRuntime) -> Result<(), Fail> {
    models_answered(&rt, rt.alloc(), tables_rows::BODIES)
}

#[test]
fn types_and_kinds_are_answered(rt: HostRuntime) -> Result<(), Fail> {
    models_answered(&rt, rt.alloc(), tables_rows::TYPES)
}

#[test]
fn names_in_use_are_answered(rt: HostRuntime) -> Result<(), Fail> {
    models_answered(&rt, rt.alloc(), tables_rows::USES)
}

#[test]
fn parts_and_entry_points_are_answered(rt: HostRuntime) -> Result<(), Fail> {
    models_answered(&rt, rt.alloc(), tables_rows::TEXTS)
}

#[test]
fn wanted_shapes_are_answered(rt: HostRuntime) -> Result<(), Fail> {
    models_answered(&rt, rt.alloc(), shapes_rows::WANTED)
}

#[test]
fn wanted_shapes_of_parts_are_answered(rt: HostRuntime) -> Result<(), Fail> {
    models_answered(&rt, rt.alloc(), shapes_rows::WANTED_OF_PARTS)
}

#[test]
fn branches_and_holes_are_answered(rt: HostRuntime) -> Result<(), Fail> {
    models_answered(&rt, rt.alloc(), shapes_rows::BRANCHES)
}

#[test]
fn calls_are_answered(rt: HostRuntime) -> Result<(), Fail> {
    models_answered(&rt, rt.alloc(), shapes_rows::CALLS)
}

#[test]
fn clauses_are_answered(rt: HostRuntime) -> Result<(), Fail> {
    models_answered(&rt, rt.alloc(), shapes_rows::CLAUSES)
}

#[test]
fn overloads_are_answered(rt: HostRuntime) -> Result<(), Fail> {
    models_answered(&rt, rt.alloc(), members_rows::OVERLOADS)
}

#[test]
fn operators_are_answered(rt: HostRuntime) -> Result<(), Fail> {
    models_answered(&rt, rt.alloc(), members_rows::OPERATORS)
}

#[test]
fn members_of_operators_are_answered(rt: HostRuntime) -> Result<(), Fail> {
    models_answered(&rt, rt.alloc(), members_rows::MEMBERS)
}

#[test]
fn parts_of_values_are_answered(rt: HostRuntime) -> Result<(), Fail> {
    models_answered(&rt, rt.alloc(), members_rows::PARTS)
}

#[test]
fn structs_and_printed_shapes_are_answered(rt: HostRuntime) -> Result<(), Fail> {
    models_answered(&rt, rt.alloc(), members_rows::STRUCTS)
}

#[test]
fn choices_by_shape_are_answered(rt: HostRuntime) -> Result<(), Fail> {
    models_answered(&rt, rt.alloc(), choices_rows::CHOICES)
}

#[test]
fn patterns_are_answered(rt: HostRuntime) -> Result<(), Fail> {
    models_answered(&rt, rt.alloc(), patterns_rows::PATTERNS)
}

#[test]
fn widths_in_patterns_are_answered(rt: HostRuntime) -> Result<(), Fail> {
    models_answered(&rt, rt.alloc(), patterns_rows::WIDTHS)
}

#[test]
fn mappings_are_answered(rt: HostRuntime) -> Result<(), Fail> {
    models_answered(&rt, rt.alloc(), patterns_rows::MAPPINGS)
}

#[test]
fn variables_and_registers_are_answered(rt: HostRuntime) -> Result<(), Fail> {
    models_answered(&rt, rt.alloc(), patterns_rows::VARIABLES)
}

#[test]
fn obligations_are_answered(rt: HostRuntime) -> Result<(), Fail> {
    let tables = [checks_rows::ORDER, checks_rows::WANTED, checks_rows::FORMS];
    for table in tables {
        rows_answered(&rt, rt.alloc(), table, 4096)?;
    }
    Ok(())
}

#[test]
fn facts_are_answered(rt: HostRuntime) -> Result<(), Fail> {
    for table in [facts_rows::FACTS, facts_rows::NAMES] {
        rows_answered(&rt, rt.alloc(), table, 4096)?;
    }
    Ok(())
}

#[test]
fn models_of_the_tutorial_are_answered(rt: HostRuntime) -> Result<(), Fail> {
    rows_answered(&rt, rt.alloc(), tutorial_rows::TUTORIAL, 4096)
}

#[test]
fn mappings_in_patterns_are_run(rt: HostRuntime) -> Result<(), Fail> {
    rows_answered(&rt, rt.alloc(), mapping_rows::RUNS, 4096)
}

#[test]
fn examples_are_answered(rt: HostRuntime) -> Result<(), Fail> {
    rows_answered(&rt, rt.alloc(), example_rows::EXAMPLES, 4096)
}

// What `check` writes for a model of these texts, the status first.
fn checked(alloc: Global, texts: &[&str]) -> Result<Vec<u8>, Fail> {
    let mut model = Vec::new(alloc);
    for text in texts {
        model.extend_from_slice(text.as_bytes())?;
    }
    let fails = (Vec::new(alloc), Vec::new(alloc));
    answer(alloc, "check M", model, fails, 1_000_000)
}

#[test]
fn the_shipped_machine_of_16_bits_is_accepted(rt: HostRuntime) -> Result<(), Fail> {
    let written = checked(rt.alloc(), &[TOY16])?;
    let wanted = "0 accepted 4 functions 53 obligations 3 instances\n";
    assert!(rt; written.as_slice() == wanted.as_bytes());
    Ok(())
}

#[test]
fn the_shipped_rv32i_is_accepted(rt: HostRuntime) -> Result<(), Fail> {
    let written = checked(rt.alloc(), &[RV32_BEGIN, RV32I, RV32_END])?;
    let wanted = "0 accepted 10 functions 690 obligations 9 instances\n";
    assert!(rt; written.as_slice() == wanted.as_bytes());
    Ok(())
}

#[test]
fn the_shipped_rv32ima_is_accepted(rt: HostRuntime) -> Result<(), Fail> {
    let texts = [RV32_BEGIN, RV32I, RV32M, RV32A, RV32_END];
    let written = checked(rt.alloc(), &texts)?;
    let wanted = "0 accepted 13 functions 1016 obligations 12 instances\n";
    assert!(rt; written.as_slice() == wanted.as_bytes());
    Ok(())
}

#[test]
fn the_shipped_rv64ima_is_accepted(rt: HostRuntime) -> Result<(), Fail> {
    let texts = [
        RV64_BEGIN, RV32I, RV64I, RV32M, RV64M, RV32A, RV64A, RV32_END,
    ];
    let written = checked(rt.alloc(), &texts)?;
    let wanted = "0 accepted 16 functions 1492 obligations 15 instances\n";
    assert!(rt; written.as_slice() == wanted.as_bytes());
    Ok(())
}

#[test]
fn instances_are_answered(rt: HostRuntime) -> Result<(), Fail> {
    let tables = [
        instances_rows::SIZES,
        instances_rows::SPLITS,
        instances_rows::FOUND,
    ];
    for table in tables {
        rows_answered(&rt, rt.alloc(), table, 4096)?;
    }
    Ok(())
}

#[test]
fn a_text_of_blanks_is_read_up_to_its_limit(rt: HostRuntime) -> Result<(), Fail> {
    let alloc = rt.alloc();
    for (length, wanted) in [(4_194_304, b'1'), (4_194_305, b'7')] {
        let fails = (Vec::new(alloc), Vec::new(alloc));
        let text = vec![in alloc; b' '; length]?;
        let written = answer(alloc, "run --elf Q M", text, fails, 1_000_000)?;
        assert!(rt; written.as_slice().starts_with(&[wanted]));
    }
    Ok(())
}

// A text of pieces, each written so many times.
fn repeated(alloc: Global, pieces: &[(&str, usize)]) -> Result<String, AllocError> {
    let mut text = String::new(alloc);
    for (piece, times) in pieces {
        for _ in 0..*times {
            text.push_str(piece)?;
        }
    }
    Ok(text)
}

#[test]
fn long_texts_are_accepted(rt: HostRuntime) -> Result<(), Fail> {
    let alloc = rt.alloc();
    for pieces in long_texts::BODIES {
        let body = repeated(alloc, pieces)?;
        let text = model(alloc, "register U : unit\n", body.as_str())?;
        let fails = (Vec::new(alloc), Vec::new(alloc));
        let written = answer(alloc, "check M", text, fails, 1_000_000)?;
        assert!(rt;
            written.as_slice().starts_with(b"0 accepted 2 functions "),
            "{pieces:?}"
        );
    }
    Ok(())
}

#[test]
fn a_failing_call_is_a_fault(rt: HostRuntime) -> Result<(), Fail> {
    let alloc = rt.alloc();
    // The model is begun and taken in three pieces and the end, the image in two pieces and the end. The
    // first three pieces of the report are put after the call that fails here.
    for call in 0..9 {
        let text = model(alloc, COUNTER, COUNT)?;
        let fails = (vec![in alloc; call]?, Vec::new(alloc));
        let written = answer(alloc, "run --elf Q --ram-size 8 M", text, fails, 64)?;
        assert!(rt; written.as_slice() == b"3 ".as_slice(), "call {call}");
    }
    for call in 0..3 {
        let text = model(alloc, COUNTER, COUNT)?;
        let fails = (Vec::new(alloc), vec![in alloc; call]?);
        let written = answer(alloc, "run --elf Q --ram-size 8 M", text, fails, 10)?;
        assert!(rt;
            written.as_slice().starts_with(b"4 ") && written.len() as u64 == 10 * call + 2,
            "call {call}"
        );
    }
    Ok(())
}
