use crate::answer;
use std::env::{Env, FillError};
use std::process::ExitCode;
use std::test::Fail;

/// A command line of these words, the program's name among them.
#[derive(Drop)]
struct Line<'a> {
    words: &'a [&'a [u8]],
}

impl Env for Line<'_> {
    fn arg(&self, index: usize, buffer: &mut [u8]) -> Result<usize, FillError> {
        let Some(word) = self.words.get(index) else {
            return Err(FillError::NotPresent);
        };
        let Some(front) = buffer.get_mut(..word.len()) else {
            return Err(FillError::TooLong);
        };
        front.copy_from_slice(word);
        Ok(word.len())
    }

    fn var(&self, _: &str, _: &mut [u8]) -> Result<usize, FillError> {
        Err(FillError::NotPresent)
    }

    fn var_at(&self, _: usize, _: &mut [u8]) -> Result<usize, FillError> {
        Err(FillError::NotPresent)
    }
}

#[test]
fn the_exit_status_is_that_of_the_answer(rt: HostRuntime) -> Result<(), Fail> {
    let rows: [(&[&[u8]], u8); 5] = [
        (&[], 2),
        (&[b"sail-run", b"--help"], 2),
        (&[b"sail-run", b"run", b"--elf", b"\xff", b"no.sail"], 2),
        (&[b"sail-run", b"run", b"--elf", b"no.elf", b"."], 3),
        (&[b"sail-run", b"run", b"--elf", b"no.elf", b"no.sail"], 9),
    ];
    for (words, status) in rows {
        assert!(rt; answer(&rt, &Line { words }) == ExitCode::from(status));
    }
    Ok(())
}
