//! A whole file, read within a limit.
ghost use Rattle.std.specs.Prelude.{◌≡◌, ◌≢◌, ◌≤◌, ℕ, length, IfOk, Err};
ghost use Rattle.sail_outside.specs.Files.{Lacks};
ghost use Rattle.sail_outside.specs.Faults.{Rose};
ghost use Rattle.sail_outside.specs.Bytes.{ReadWhole, IsUsedUp, PassedLimit, TookAll, TookPast};

use crate::edge::Shelf;
use crate::errors::ReadError;
use std::alloc::Global;

/// As many bytes are taken at once, at most.
const CHUNK: usize = 4096;

/// Reads the whole file of this name, of at most `limit` bytes, and answers its bytes.
///
/// At most `limit` + 1 bytes are taken, each of them once. The refusals are:
/// - `Missing`: the shelf has no such file; no fault was counted.
/// - `TooLong`: with no fault, the file has more than `limit` bytes; one past it was taken.
/// - `Fault`: the shelf is at fault, and its count of faults rose.
/// - `OutOfMemory`: opening the file or keeping its bytes wanted memory.
pub fn read_file<S: Shelf>(
    alloc: Global,
    shelf: &mut S,
    name: &str,
    limit: u64,
) -> Result<Vec<u8>, ReadError>
    ensures same { S.holds shelf.new ≡ S.holds shelf.old }
    ensures later { S.faults shelf.old ≤ S.faults shelf.new }
    ensures within { IfOk result (λ bytes. length bytes.items ≤ limit) }
    ensures whole { IfOk result (λ bytes.
        ReadWhole (S.holds shelf.old) name.now bytes.items (S.left shelf.new)) }
    ensures missing { result ≡ Err ReadError.Missing → Lacks (S.holds shelf.old) name.now }
    ensures unraised { result ≡ Err ReadError.Missing → S.faults shelf.new ≡ S.faults shelf.old }
    ensures unbegun { result ≡ Err ReadError.Missing → IsUsedUp (S.left shelf.new) }
    ensures asked { (l : ℕ) → result ≡ Err (ReadError.TooLong l) → l ≡ limit }
    ensures long { (l : ℕ) → result ≡ Err (ReadError.TooLong l) →
        PassedLimit (S.holds shelf.old) name.now limit (S.left shelf.new) }
    ensures fault { result ≡ Err ReadError.Fault → Rose (S.faults shelf.old) (S.faults shelf.new) }
{
    shelf.begin(name)?;
    read_rest(alloc, shelf, limit)
}

/// The bytes that are left of the begun file, at most `limit`.
fn read_rest<S: Shelf>(alloc: Global, shelf: &mut S, limit: u64) -> Result<Vec<u8>, ReadError>
    ensures same { S.holds shelf.new ≡ S.holds shelf.old }
    ensures later { S.faults shelf.old ≤ S.faults shelf.new }
    ensures within { IfOk result (λ bytes. length bytes.items ≤ limit) }
    ensures whole { IfOk result (λ bytes.
        TookAll (S.left shelf.old) bytes.items (S.left shelf.new)) }
    ensures begun { result ≢ Err ReadError.Missing }
    ensures asked { (l : ℕ) → result ≡ Err (ReadError.TooLong l) → l ≡ limit }
    ensures long { (l : ℕ) → result ≡ Err (ReadError.TooLong l) →
        TookPast (S.left shelf.old) limit (S.left shelf.new) }
    ensures fault { result ≡ Err ReadError.Fault → Rose (S.faults shelf.old) (S.faults shelf.new) }
{
    let mut bytes = Vec::new(alloc);
    let mut buffer = [0u8; CHUNK];
    loop {
        let room = limit - bytes.len() as u64;
        let wanted = room.min(CHUNK as u64 - 1) as usize + 1;
        let count = shelf.take(&mut buffer[..wanted])?;
        if count == 0 {
            return Ok(bytes);
        }
        if count as u64 > room {
            return Err(ReadError::TooLong { limit });
        }
        bytes.extend_from_slice(&buffer[..count])?;
    }
}
