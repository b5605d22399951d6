use sail_outside::{
    BeginError, MemShelf, MemSink, ReadError, Shelf, Sink, StdShelf, StdSink, SureShelf, SureSink,
    WriteError, read_file, write_all,
};
use std::alloc::{AllocError, Global};
use std::fmt::Display;
use std::fs::File;
use std::io::Write;
use std::test::Fail;
use std::{fs, io};

/// Bytes of which no two neighbours are equal.
fn sample(alloc: Global, count: usize) -> Result<Vec<u8>, AllocError> {
    let mut bytes = Vec::new(alloc);
    for index in 0..count {
        bytes.push((index % 251) as u8)?;
    }
    Ok(bytes)
}

/// A file `a` of so many bytes, and an empty file `b`.
fn files(alloc: Global, count: usize) -> Result<Vec<(String, Vec<u8>)>, AllocError> {
    let a = (String::from_str(alloc, "a")?, sample(alloc, count)?);
    let b = (String::from_str(alloc, "b")?, Vec::new(alloc));
    Ok(Vec::from_array(alloc, [a, b])?)
}

#[test]
fn a_shelf_that_fails_at_each_call_in_turn_is_at_fault(rt: HostRuntime) -> Result<(), Fail> {
    let alloc = rt.alloc();
    for call in 0..5 {
        let mut shelf = MemShelf::new(files(alloc, 5)?, vec![in alloc; call]?, 2);
        let answer = read_file(alloc, &mut shelf, "a", 5);
        let counts = shelf.calls() == call + 1 && shelf.faults() == 1;
        assert!(rt; counts && answer.err() == Some(ReadError::Fault), "{call}");
        // The next file is read as if nothing had been.
        assert!(rt; read_file(alloc, &mut shelf, "b", 0)?.len() == 0, "{call}");
    }
    Ok(())
}

#[test]
fn pieces_are_written_up_to_the_failing_call(rt: HostRuntime) -> Result<(), Fail> {
    let alloc = rt.alloc();
    // the size of the pieces, the call that fails, the bytes that are then there
    for (piece, call, there) in [(5, 2, 10), (12, 0, 0), (0, 3, 3)] {
        let mut sink = MemSink::new(alloc, vec![in alloc; call]?, piece);
        let answer = write_all(&mut sink, b"twelve bytes");
        let counts = sink.calls() == call + 1 && sink.faults() == 1;
        let written = sink.bytes() == &b"twelve bytes"[..there];
        assert!(rt;
            counts && written && answer == Err(WriteError::Fault),
            "{piece}"
        );
    }
    Ok(())
}

#[test]
fn a_sure_shelf_and_a_sure_sink_carry_the_bytes(rt: HostRuntime) -> Result<(), Fail> {
    let alloc = rt.alloc();
    let mut shelf = SureShelf::new(files(alloc, 5000)?);
    let bytes = read_file(alloc, &mut shelf, "a", 5000)?;
    let mut sink = SureSink::new(alloc);
    let answer = write_all(&mut sink, bytes.as_slice());
    assert!(rt; answer == Ok(()) && sink.bytes() == sample(alloc, 5000)?.as_slice());
    Ok(())
}

/// A real file in the place of the standard output, which takes at most `most` bytes at once.
#[derive(Drop)]
struct Output {
    file: File,
    most: usize,
}

impl Print for Output {
    fn print<D: Display + Drop>(&self, value: D) -> io::Result<()> {
        drop(value);
        Err(io::Error::other("only bytes are written"))
    }

    fn println<D: Display + Drop>(&self, value: D) -> io::Result<()> {
        self.print(value)
    }

    fn write_all(&self, bytes: &[u8]) -> io::Result<()> {
        (&self.file).write_all(bytes)
    }

    fn write_some(&self, bytes: &[u8]) -> io::Result<usize> {
        (&self.file).write(&bytes[..bytes.len().min(self.most)])
    }
}

#[test]
fn the_real_output_takes_the_bytes(rt: HostRuntime) -> Result<(), Fail> {
    let alloc = rt.alloc();
    let name = "sail_outside_output.tmp";
    let all = sample(alloc, 5000)?;
    let output = Output {
        file: fs::create(&rt, name)?,
        most: 1700,
    };
    let mut sink = StdSink::new(&output);
    let nothing = sink.put(b"") == Ok(0);
    let written = write_all(&mut sink, all.as_slice()) == Ok(());
    assert!(rt; nothing && written && sink.faults() == 0);
    drop(sink);
    let Output { file, most: _ } = output;
    let stuck = Output { file, most: 0 };
    let mut sink = StdSink::new(&stuck);
    let stopped = write_all(&mut sink, b"x") == Err(WriteError::Fault);
    assert!(rt; stopped && sink.faults() == 1);
    assert!(rt; fs::read(&rt, name)?.as_slice() == all.as_slice());
    fs::remove_file(&rt, name)?;
    Ok(())
}

#[test]
fn real_files_are_read_and_refused(rt: HostRuntime) -> Result<(), Fail> {
    let alloc = rt.alloc();
    let name = "sail_outside_file.tmp";
    let all = sample(alloc, 5000)?;
    fs::write(&rt, name, all.as_slice())?;
    let mut shelf = StdShelf::new(&rt);
    let mut buffer = [0u8; 2];
    let nothing = shelf.take(&mut buffer) == Ok(0);
    let read = read_file(alloc, &mut shelf, name, 5000)?;
    let long = read_file(alloc, &mut shelf, name, 4999).err();
    let refused = long == Some(ReadError::TooLong { limit: 4999 });
    assert!(rt; nothing && refused && read.as_slice() == all.as_slice());
    // a name, its refusal, the faults that are then counted
    let refused = [
        ("sail_outside_none.tmp", BeginError::Missing, 0),
        ("sail_outside_file.tmp/x", BeginError::Failed, 1),
        ("sail_outside\0.tmp", BeginError::Failed, 2),
    ];
    for (other, refusal, faults) in refused {
        let begun = shelf.begin(name) == Ok(());
        let refused = shelf.begin(other) == Err(refusal);
        // Nothing is left of the file begun before.
        let nothing = shelf.take(&mut buffer) == Ok(0);
        assert!(rt;
            begun && refused && nothing && shelf.faults() == faults,
            "{other}"
        );
    }
    fs::remove_file(&rt, name)?;
    // A directory is opened, and its read is at fault.
    let folder = read_file(alloc, &mut shelf, ".", 5000).err();
    assert!(rt; folder == Some(ReadError::Fault) && shelf.faults() == 3);
    Ok(())
}
