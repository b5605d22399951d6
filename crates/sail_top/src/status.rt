ghost use Rattle.std.specs.Prelude.{◌≡◌};
ghost use Rattle.sail_top.specs.Exit.{exit_code};

use sail_base::{ElfRefusal, Items, Refusal};

/// How a call of the program ended.
#[derive(Debug)]
pub enum Status {
    /// The command's answer was written whole. Exit status 0.
    Done,
    /// A model is refused, and the line of the refusal was written. Exit status 1.
    ModelRefused(Refusal),
    /// The words are no command, and the line that says so was written. Exit status 2.
    Usage,
    /// The files could not be read; nothing was written. Exit status 3.
    ReadFault,
    /// The output could not be written; a front of the answer was. Exit status 4.
    WriteFault,
    /// Memory was wanting; a front of the answer may have been written. Exit status 5.
    OutOfMemory,
    /// The program's file is refused, and the line of the refusal was written. Exit status 6.
    ElfRefused(ElfRefusal),
    /// A file, counted from 0 in the order of reading, has more bytes than its limit, and the line
    /// that says so was written. Exit status 7.
    FileTooLong { file: u32, limit: u64 },
    /// There is no file of a name, counted likewise, and the line that says so was written. Exit
    /// status 9.
    NoFile { file: u32 },
}

impl Status {
    /// The exit status of the program.
    pub fn code(&self) -> u8
        ensures { result ≡ exit_code self.now }
    {
        match self {
            Status::Done => 0,
            Status::ModelRefused(_) => 1,
            Status::Usage => 2,
            Status::ReadFault => 3,
            Status::WriteFault => 4,
            Status::OutOfMemory => 5,
            Status::ElfRefused(_) => 6,
            Status::FileTooLong { file: _, limit: _ } => 7,
            Status::NoFile { file: _ } => 9,
        }
    }
}

impl Drop for Status {
    fn drop(self) {
        match self {
            Status::Done => {}
            Status::ModelRefused(_) => {}
            Status::Usage => {}
            Status::ReadFault => {}
            Status::WriteFault => {}
            Status::OutOfMemory => {}
            Status::ElfRefused(_) => {}
            Status::FileTooLong { file: _, limit: _ } => {}
            Status::NoFile { file: _ } => {}
        }
    }
}

/// What the program answers: its status once the bytes are written.
#[derive(Debug)]
pub struct Answer {
    pub status: Status,
    pub bytes: Items<u8>,
}

impl Answer {
    /// The status alone.
    pub fn into_status(self) -> Status
        ensures { result ≡ self.status }
    {
        let Answer { status, bytes: _ } = self;
        status
    }
}

impl Drop for Answer {
    fn drop(self) {
        let Answer {
            status: _,
            bytes: _,
        } = self;
    }
}
