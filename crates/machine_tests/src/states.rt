ghost use Rattle.std.specs.Prelude.{◌≡◌, ◌↔◌, ◌<◌, ◌≤◌, length, IfOk, IsTrue};

use mem_store::{Flat, Memory};
use model_state::{Cause, Register, RowError, Start, State, report};
use sail_base::{Items, Place, Text, Word};
use sail_types::{Num, Typ, Types, Value};
use std::alloc::{AllocError, Global};
use std::test::Fail;

/// What a hart does, with its number first, and then a count of bytes and their address.
#[derive(Clone, Copy)]
enum Act {
    /// The byte is put on the console.
    Read(u64),
    /// The bytes are reserved.
    Reserve(u8, u8, u64),
    /// A number is written.
    Write(u8, u8, u64, u128),
    /// A number is written where the reservation stands, and then `done` or `lost` is put on the console.
    WriteCond(u8, u8, u64, u128),
}

use Act::{Read, Reserve, Write, WriteCond};

/// The base and size of RAM, whose first byte the image has as `5a`; what two harts without registers do; and the
/// report, its cause that of the last act that stopped.
type Row = (u64, u64, &'static [Act], &'static str);

const MEMORY: &[Row] = &[
    // no byte is another one than the image has
    (
        0x8000_0010,
        33,
        &[],
        "== report\nstop steps-done\nsteps 3\nconsole 0\nhart 0\nhart 1\n== end\n",
    ),
    // the lowest byte first, over the edge of a row; the last row has one byte in RAM
    (
        0x8000_0010,
        33,
        &[
            Write(0, 2, 0x8000_001f, 0xbeef),
            Write(1, 1, 0x8000_0030, 1),
        ],
        concat!(
            "== report\nstop steps-done\nsteps 3\nconsole 0\nhart 0\nhart 1\n",
            "mem 0x0000000080000010 5a0000000000000000000000000000ef\n",
            "mem 0x0000000080000020 be000000000000000000000000000000\n",
            "mem 0x0000000080000030 01------------------------------\n",
            "== end\n",
        ),
    ),
    // a row whose bytes are the image's again isn't listed, and a row of which one isn't is
    (
        0x8000_0010,
        33,
        &[
            Write(0, 2, 0x8000_001f, 0xbeef),
            Write(1, 1, 0x8000_001f, 0),
        ],
        concat!(
            "== report\nstop steps-done\nsteps 3\nconsole 0\nhart 0\nhart 1\n",
            "mem 0x0000000080000020 be000000000000000000000000000000\n",
            "== end\n",
        ),
    ),
    (
        0x8000_0010,
        33,
        &[
            Write(0, 1, 0x8000_0010, 0x41),
            Read(0x8000_0010),
            Write(1, 1, 0x8000_0010, 0x5a),
            Read(0x8000_0010),
        ],
        "AZ== report\nstop steps-done\nsteps 3\nconsole 2\nhart 0\nhart 1\n== end\n",
    ),
    // zeros where the image has none are a change
    (
        0x8000_0010,
        1,
        &[Write(0, 1, 0x8000_0010, 0)],
        concat!(
            "== report\nstop steps-done\nsteps 3\nconsole 0\nhart 0\nhart 1\n",
            "mem 0x0000000080000010 00------------------------------\n",
            "== end\n",
        ),
    ),
    // the first and the last row of the address space
    (
        0,
        1,
        &[Write(0, 1, 0, 1)],
        concat!(
            "== report\nstop steps-done\nsteps 3\nconsole 0\nhart 0\nhart 1\n",
            "mem 0x0000000000000000 01------------------------------\n",
            "== end\n",
        ),
    ),
    (
        0xffff_ffff_ffff_fff7,
        9,
        &[Write(0, 1, 0xffff_ffff_ffff_ffff, 0xff)],
        concat!(
            "== report\nstop steps-done\nsteps 3\nconsole 0\nhart 0\nhart 1\n",
            "mem 0xfffffffffffffff0 --------------5a00000000000000ff\n",
            "== end\n",
        ),
    ),
    (
        0xffff_ffff_ffff_ffef,
        17,
        &[Write(
            0,
            16,
            0xffff_ffff_ffff_fff0,
            0x0102_0304_0506_0708_090a_0b0c_0d0e_0f10,
        )],
        concat!(
            "== report\nstop steps-done\nsteps 3\nconsole 0\nhart 0\nhart 1\n",
            "mem 0xfffffffffffffff0 100f0e0d0c0b0a090807060504030201\n",
            "== end\n",
        ),
    ),
];

const RESERVATIONS: &[Row] = &[
    // no access between, then another hart writes a reserved byte
    (
        0x8000_0010,
        16,
        &[Reserve(0, 4, 0x8000_0010), WriteCond(0, 4, 0x8000_0010, 7)],
        concat!(
            "done== report\nstop steps-done\nsteps 3\nconsole 4\nhart 0\nhart 1\n",
            "mem 0x0000000080000010 07000000000000000000000000000000\n",
            "== end\n",
        ),
    ),
    (
        0x8000_0010,
        16,
        &[
            Reserve(0, 4, 0x8000_0010),
            Write(1, 1, 0x8000_0013, 9),
            WriteCond(0, 4, 0x8000_0010, 7),
        ],
        concat!(
            "lost== report\nstop steps-done\nsteps 3\nconsole 4\nhart 0\nhart 1\n",
            "mem 0x0000000080000010 5a000009000000000000000000000000\n",
            "== end\n",
        ),
    ),
    // another hart writes the byte before or behind
    (
        0x8000_0010,
        16,
        &[
            Reserve(0, 2, 0x8000_0014),
            Write(1, 4, 0x8000_0010, 1),
            Write(1, 8, 0x8000_0016, 2),
            WriteCond(0, 2, 0x8000_0014, 7),
        ],
        concat!(
            "done== report\nstop steps-done\nsteps 3\nconsole 4\nhart 0\nhart 1\n",
            "mem 0x0000000080000010 01000000070002000000000000000000\n",
            "== end\n",
        ),
    ),
    // the hart itself writes a reserved byte
    (
        0x8000_0010,
        16,
        &[
            Reserve(0, 4, 0x8000_0010),
            Write(0, 2, 0x8000_0012, 0),
            WriteCond(0, 4, 0x8000_0010, 7),
        ],
        "lost== report\nstop steps-done\nsteps 3\nconsole 4\nhart 0\nhart 1\n== end\n",
    ),
    // a conditional write ends the reservation, whether it writes or not
    (
        0x8000_0010,
        16,
        &[
            Reserve(0, 4, 0x8000_0010),
            WriteCond(0, 4, 0x8000_0010, 7),
            WriteCond(0, 4, 0x8000_0010, 8),
        ],
        concat!(
            "donelost== report\nstop steps-done\nsteps 3\nconsole 8\nhart 0\nhart 1\n",
            "mem 0x0000000080000010 07000000000000000000000000000000\n",
            "== end\n",
        ),
    ),
    (
        0x8000_0010,
        16,
        &[
            Reserve(0, 4, 0x8000_0010),
            WriteCond(0, 8, 0x8000_0010, 7),
            WriteCond(0, 4, 0x8000_0010, 8),
        ],
        "lostlost== report\nstop steps-done\nsteps 3\nconsole 8\nhart 0\nhart 1\n== end\n",
    ),
    // it writes where the bytes are among the reserved ones
    (
        0x8000_0010,
        16,
        &[Reserve(0, 4, 0x8000_0010), WriteCond(0, 2, 0x8000_0012, 7)],
        concat!(
            "done== report\nstop steps-done\nsteps 3\nconsole 4\nhart 0\nhart 1\n",
            "mem 0x0000000080000010 5a000700000000000000000000000000\n",
            "== end\n",
        ),
    ),
    // a second reservation replaces the first
    (
        0x8000_0010,
        16,
        &[
            Reserve(0, 4, 0x8000_0010),
            Reserve(0, 4, 0x8000_0014),
            WriteCond(0, 4, 0x8000_0010, 7),
        ],
        "lost== report\nstop steps-done\nsteps 3\nconsole 4\nhart 0\nhart 1\n== end\n",
    ),
    // each hart has its own; one that writes ends the other, one that is lost does not
    (
        0x8000_0010,
        16,
        &[
            Reserve(0, 4, 0x8000_0010),
            Reserve(1, 4, 0x8000_0010),
            WriteCond(1, 4, 0x8000_0010, 7),
            WriteCond(0, 4, 0x8000_0010, 8),
        ],
        concat!(
            "donelost== report\nstop steps-done\nsteps 3\nconsole 8\nhart 0\nhart 1\n",
            "mem 0x0000000080000010 07000000000000000000000000000000\n",
            "== end\n",
        ),
    ),
    (
        0x8000_0010,
        16,
        &[
            Reserve(0, 4, 0x8000_0010),
            WriteCond(1, 4, 0x8000_0010, 7),
            WriteCond(0, 4, 0x8000_0010, 8),
        ],
        concat!(
            "lostdone== report\nstop steps-done\nsteps 3\nconsole 8\nhart 0\nhart 1\n",
            "mem 0x0000000080000010 08000000000000000000000000000000\n",
            "== end\n",
        ),
    ),
    // a stop leaves the memory and the reservation
    (
        0x8000_0010,
        4,
        &[
            Reserve(0, 4, 0x8000_0010),
            Write(1, 8, 0x8000_0010, 9),
            Reserve(0, 1, 0x8000_0014),
            WriteCond(0, 8, 0x8000_0010, 9),
            Read(0x8000_000f),
            WriteCond(0, 4, 0x8000_0010, 7),
        ],
        concat!(
            "done== report\nstop bad-address 0x000000008000000f\nsteps 3\nconsole 4\nhart 0\nhart 1\n",
            "mem 0x0000000080000010 07000000------------------------\n",
            "== end\n",
        ),
    ),
    // no sum of an address wraps
    (
        0xffff_ffff_ffff_fffc,
        4,
        &[
            Reserve(0, 4, 0xffff_ffff_ffff_fffc),
            Write(1, 2, 0xffff_ffff_ffff_ffff, 9),
            WriteCond(0, 4, 0xffff_ffff_ffff_fffc, 7),
        ],
        concat!(
            "done== report\nstop bad-address 0xffffffffffffffff\nsteps 3\nconsole 4\nhart 0\nhart 1\n",
            "mem 0xfffffffffffffff0 ------------------------07000000\n",
            "== end\n",
        ),
    ),
    (
        0xffff_ffff_ffff_fffc,
        4,
        &[
            Reserve(0, 4, 0xffff_ffff_ffff_fffc),
            Write(1, 1, 0xffff_ffff_ffff_ffff, 9),
            WriteCond(0, 4, 0xffff_ffff_ffff_fffc, 7),
        ],
        concat!(
            "lost== report\nstop steps-done\nsteps 3\nconsole 4\nhart 0\nhart 1\n",
            "mem 0xfffffffffffffff0 ------------------------5a000009\n",
            "== end\n",
        ),
    ),
];

/// Two harts with these registers over RAM whose first byte is `5a`, RAM as it is then, its base and its size.
#[tactic(auto, using(sail_base::specs::laws::WordParts::word_widths))]
fn begin(
    alloc: Global,
    base: u64,
    size: u64,
    registers: Items<Register>,
) -> Result<(State<Flat>, Start, u64, u64), Fail>
    ensures { IfOk result (λ begun. (begun.1.base ≡ begun.2) × (length begun.1.bytes ≡ begun.3)) }
{
    if size == 0 || size > 4096 || base > u64::MAX - (size - 1) {
        return Err("no such RAM".into());
    }
    let mut memory = Flat::new(alloc, base, size)?;
    if memory.mapped(1, base) {
        memory.write(1, base, Word::low(8, 0x5a));
    }
    let start = Start::of(alloc, &memory)?;
    let (base, size) = (memory.base(), memory.size());
    let types = Types {
        definitions: Items::new(alloc),
    };
    let state = State::new(alloc, types, registers, 2, memory)?;
    Ok((state, start, base, size))
}

/// The report of a run over RAM of this base and size.
fn text(
    alloc: Global,
    state: &State<Flat>,
    start: (&Start, u64, u64),
    cause: &Cause,
) -> Result<Vec<u8>, Fail>
    requires base { start.0.now.base ≡ start.1 }
    requires size { length start.0.now.bytes ≡ start.2 }
{
    let memory = state.memory();
    if memory.base() != start.1 || memory.size() != start.2 {
        return Err("RAM moved".into());
    }
    Ok(report(alloc, state, start.0, cause, 3)?)
}

/// Whether a builtin takes so many bytes, and the hart is there.
fn is_taken(state: &State<Flat>, hart: u8, w: u8) -> bool
    ensures { IsTrue result ↔ ((hart < length state.now.harts) × ((1 ≤ w) × (w ≤ 16))) }
{
    hart < state.harts() && 1 <= w && w <= 16
}

/// What is done; the error is a stop.
#[tactic(auto, using(sail_base::specs::laws::WordParts::word_widths))]
fn perform(state: &mut State<Flat>, act: Act) -> Result<(), RowError> {
    match act {
        Read(a) => {
            let byte = state.mem_read(1, a)?;
            state.console_put(Word::low(8, byte.bits()))
        }
        Reserve(hart, w, a) if is_taken(state, hart, w) => {
            let _ = state.mem_reserve(hart, w, a)?;
            Ok(())
        }
        Write(hart, w, a, number) if is_taken(state, hart, w) => {
            state.mem_write(hart, w, a, Word::low(8 * w, number))
        }
        WriteCond(hart, w, a, number) if is_taken(state, hart, w) => {
            let done = state.mem_write_cond(hart, w, a, Word::low(8 * w, number))?;
            state.print(if done { b"done" } else { b"lost" })
        }
        _ => state.print(b"no such act"),
    }
}

/// The cause of a stop of a builtin.
fn stop_of(answer: &Result<(), RowError>) -> Option<Cause> {
    match answer {
        Err(RowError::Stop(Cause::BadAddress(a))) => Some(Cause::BadAddress(*a)),
        Err(RowError::Stop(Cause::ConsoleFull)) => Some(Cause::ConsoleFull),
        _ => None,
    }
}

/// What is done in order; the cause of the last stop, else `steps-done`.
fn act_all(state: &mut State<Flat>, acts: &[Act]) -> Cause {
    let mut cause = Cause::StepsDone;
    for next in acts {
        if let Some(stop) = stop_of(&perform(state, *next)) {
            cause = stop;
        }
    }
    cause
}

/// The report once all is done.
fn acted(alloc: Global, base: u64, size: u64, acts: &[Act]) -> Result<Vec<u8>, Fail> {
    let (mut state, start, base, size) = begin(alloc, base, size, Items::new(alloc))?;
    let cause = act_all(&mut state, acts);
    text(alloc, &state, (&start, base, size), &cause)
}

#[test]
fn rows_of_memory_are_those_that_differ_from_the_image(rt: HostRuntime) -> Result<(), Fail> {
    for (base, size, acts, wanted) in MEMORY {
        let written = acted(rt.alloc(), *base, *size, acts)?;
        assert!(rt; written.as_slice() == wanted.as_bytes(), "{wanted}");
    }
    Ok(())
}

#[test]
fn a_conditional_write_needs_its_reservation(rt: HostRuntime) -> Result<(), Fail> {
    for (base, size, acts, wanted) in RESERVATIONS {
        let written = acted(rt.alloc(), *base, *size, acts)?;
        assert!(rt; written.as_slice() == wanted.as_bytes(), "{wanted}");
    }
    Ok(())
}

/// A boolean, a bit and four bits, their names not in the order of letters.
fn registers(alloc: Global) -> Result<Items<Register>, AllocError> {
    let mut registers = Items::new(alloc);
    let name = Text::new(alloc, "Z")?;
    registers.push(Register {
        name,
        typ: Typ::Bool,
    })?;
    let name = Text::new(alloc, "A")?;
    registers.push(Register {
        name,
        typ: Typ::Bit,
    })?;
    let name = Text::new(alloc, "B")?;
    registers.push(Register {
        name,
        typ: Typ::Bits(Num::constant(alloc, 4)),
    })?;
    Ok(registers)
}

/// Sets a register of a hart, if it is there.
fn set(state: &mut State<Flat>, hart: u8, index: u32, value: Value) {
    if state.find_register(hart, index).is_some() {
        state.set_register(hart, index, value);
    }
}

/// Sets a register of a hart to bits, if it is there.
fn set_bits(state: &mut State<Flat>, hart: u8, index: u32, bits: Word) {
    if state.find_register(hart, index).is_some() {
        state.set_bits(hart, index, bits);
    }
}

/// The report of two harts with registers, which stopped for a cause.
fn stopped(alloc: Global, cause: &Cause) -> Result<Vec<u8>, Fail> {
    let (mut state, start, base, size) = begin(alloc, 0, 1, registers(alloc)?)?;
    set(&mut state, 1, 0, Value::Truth(true));
    set(&mut state, 0, 1, Value::Bit(true));
    set_bits(&mut state, 1, 2, Word::low(4, 11));
    let _ = state.print_endline(b"a\n\xff");
    let _ = state.print(b"b");
    text(alloc, &state, (&start, base, size), cause)
}

#[test]
fn a_report_has_the_console_and_the_registers_of_each_hart(rt: HostRuntime) -> Result<(), Fail> {
    let written = stopped(rt.alloc(), &Cause::AllRest)?;
    let wanted =
        b"a\n\xff\nb== report\nstop all-rest\nsteps 3\nconsole 5\nhart 0\nZ = false\nA = bitone\nB = 0x0\nhart 1\nZ = true\nA = bitzero\nB = 0xb\n== end\n";
    assert!(rt; written.as_slice() == wanted.as_slice());
    Ok(())
}

/// Each cause that has a place or a text, and its line.
fn causes(alloc: Global) -> Result<[(Cause, &'static [u8]); 8], AllocError> {
    let place = Place {
        file: 1,
        line: 20,
        column: 300,
    };
    let text = Text::new(alloc, "a \\\"b\\\"")?;
    Ok([
        (Cause::Exit(place), b"\nstop exit 1:20:300\n"),
        (
            Cause::MatchFailure(place),
            b"\nstop match-failure 1:20:300\n",
        ),
        (
            Cause::Assertion(place, None),
            b"\nstop assertion 1:20:300\n",
        ),
        (
            Cause::Assertion(place, Some(text)),
            b"\nstop assertion 1:20:300 \"a \\\"b\\\"\"\n",
        ),
        (
            Cause::Exception(Text::new(alloc, "Trap")?),
            b"\nstop exception Trap\n",
        ),
        (Cause::Measure(place), b"\nstop measure 1:20:300\n"),
        (Cause::WorkLimit, b"\nstop work-limit\n"),
        (Cause::ConsoleFull, b"\nstop console-full\n"),
    ])
}

#[test]
fn a_report_names_the_cause(rt: HostRuntime) -> Result<(), Fail> {
    let alloc = rt.alloc();
    for (cause, wanted) in &causes(alloc)? {
        let written = stopped(alloc, cause)?;
        assert!(rt;
            written.as_slice().get(14..14 + wanted.len()) == Some(wanted),
            "{wanted:?}"
        );
    }
    Ok(())
}
