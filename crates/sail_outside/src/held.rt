//! Files in memory, and what is left of the one that was begun.
ghost use Rattle.std.specs.Prelude.{◌≡◌, ◌≤◌, ◌<◌, ◌+◌, ◌^◌, ℕ, List, [], Some, None, length};
ghost use Rattle.std.specs.Prelude.{take, drop, min, IsTrue, IsSome, IfSome, IfNone, false};
ghost use Rattle.sail_outside.specs.Files.{lookup, files_of, bytes_at};
ghost use Rattle.sail_outside.specs.Bytes.{Takes};

use std::marker::Model;

/// Named files in memory, of which one may be begun: a contract sees the files as a map, and the
/// bytes of the begun file that aren't yet taken.
#[derive(Drop)]
pub struct Held {
    files: Vec<(String, Vec<u8>)>,
    begun: usize,
    taken: usize,
}

impl Model for Held {
    ghost use Rattle.std.specs.Prelude.{◌≤◌, length, drop};
    ghost use Rattle.sail_outside.specs.Files.{Reading, files_of, bytes_at};

    ghost Value = { Reading };

    ghost view = { λ h.
        record {
          files = files_of h.files.items;
          left = drop h.taken (bytes_at (files_of h.files.items) h.begun);
        } };

    ghost invariant = { λ h. h.taken ≤ length (bytes_at (files_of h.files.items) h.begun) };
}

impl Held {
    /// These files, none of them begun.
    pub fn new(files: Vec<(String, Vec<u8>)>) -> Held
        ensures files { result.files ≡ files_of files.items }
        ensures left { result.left ≡ [] }
    {
        let begun = files.len();
        Held {
            files,
            begun,
            taken: 0,
        }
    }

    /// Begins the file of this name, and answers whether there is one; if not, none is begun.
    pub fn begin(&mut self, name: &str) -> bool
        ensures files { self.new.files ≡ self.old.files }
        ensures begun { IsTrue result → lookup self.old.files name.now ≡ Some self.new.left }
        ensures missing { result ≡ false → lookup self.old.files name.now ≡ None }
        ensures none { result ≡ false → self.new.left ≡ [] }
    {
        self.taken = 0;
        match index_of(self.files.as_slice(), name) {
            Some(index) => {
                self.begun = index;
                true
            }
            None => {
                self.begun = self.files.len();
                false
            }
        }
    }

    /// Begins none: nothing is left.
    pub fn close(&mut self)
        ensures files { self.new.files ≡ self.old.files }
        ensures none { self.new.left ≡ [] }
    {
        self.taken = 0;
        self.begun = self.files.len();
    }

    /// Takes the next bytes, at most `most` and as many as `buf` has room for.
    pub fn take(&mut self, buf: &mut [u8], most: usize) -> usize
        requires { 0 < most }
        ensures files { self.new.files ≡ self.old.files }
        ensures count { result ≡ min (min (length self.old.left) (length buf.new)) most }
        ensures bytes { Takes (Some self.old.left) (Some self.new.left) result buf.new }
    {
        let rest = rest_of(self.files.as_slice(), self.begun, self.taken);
        let count = copy_front(rest, buf, most);
        self.taken += count;
        count
    }
}

/// The index of the first file of this name.
fn index_of(files: &[(String, Vec<u8>)], name: &str) -> Option<usize>
    ensures found { IfSome result (λ i.
        lookup (files_of files.now) name.now ≡ Some (bytes_at (files_of files.now) i)) }
    ensures missing { IfNone result (lookup (files_of files.now) name.now ≡ None) }
{
    for (index, file) in files.iter().enumerate() {
        if file.0.as_str() == name {
            return Some(index);
        }
    }
    None
}

/// The bytes of the file at an index, none past the end.
fn bytes_of(files: &[(String, Vec<u8>)], index: usize) -> &[u8]
    ensures { result.now ≡ bytes_at (files_of files.now) index }
{
    if index >= files.len() {
        return &[];
    }
    files[index].1.as_slice()
}

/// Those bytes but for the first `taken`.
fn rest_of(files: &[(String, Vec<u8>)], index: usize, taken: usize) -> &[u8]
    requires { taken ≤ length (bytes_at (files_of files.now) index) }
    ensures rest { result.now ≡ drop taken (bytes_at (files_of files.now) index) }
    ensures fits { taken + length result.now < 2 ^ 64 }
{
    let bytes = bytes_of(files, index);
    &bytes[taken..]
}

/// Copies the front of `from` to the front of `to`, at most `most` bytes, and answers how many.
fn copy_front(from: &[u8], to: &mut [u8], most: usize) -> usize
    requires { 0 < most }
    ensures count { result ≡ min (min (length from.now) (length to.new)) most }
    ensures front { take result to.new ≡ take result from.now }
    ensures some { result ≡ 0 → 0 < length to.new → from.now ≡ [] }
{
    let count = from.len().min(to.len()).min(most);
    to[..count].copy_from_slice(&from[..count]);
    count
}
