ghost use Rattle.std.specs.Prelude.{◌≡◌, ◌↔◌, IsTrue, IfOk, IsAscii, length};

use std::alloc::{AllocError, Global};
use std::fmt::{Debug, Formatter, Write};
use std::marker::Model;
use std::rc::RcStr;

/// A text that is cheap to copy, which contracts see as its bytes: two of them are equal where their
/// bytes are, whether or not they share memory.
pub struct Text {
    shared: RcStr,
}

impl Drop for Text {
    fn drop(self) {
        let Text { shared: _ } = self;
    }
}

impl Model for Text {
    ghost use Rattle.std.specs.Prelude.{List, ℕ};
    ghost use Rattle.std.specs.Coded.{coded_list, coded_ℕ};
    ghost use Rattle.std.specs.Rc.{rc_str_bytes};

    ghost Value = { List ℕ };

    ghost coded = { coded_list coded_ℕ };

    ghost view = { λ text. rc_str_bytes text.shared };
}

impl Text {
    /// A text with the bytes of another. It fails where memory is wanting.
    pub fn new(alloc: Global, text: &str) -> Result<Text, AllocError>
        ensures { IfOk result (λ made. made ≡ text.now) }
    {
        let shared = RcStr::from_str(alloc, text)?;
        Ok(Text { shared })
    }

    /// A text of bytes that are ASCII. It fails where memory is wanting.
    pub fn from_ascii(alloc: Global, bytes: &[u8]) -> Result<Text, AllocError>
        requires { IsAscii bytes.now }
        ensures { IfOk result (λ made. made ≡ bytes.now) }
    {
        let text = str::from_utf8(bytes).unwrap();
        Text::new(alloc, text)
    }

    /// The text, lent.
    pub fn as_str(&self) -> &str
        ensures { result.now ≡ self.now }
    {
        self.shared.as_str()
    }

    /// The bytes, lent.
    pub fn as_bytes(&self) -> &[u8]
        ensures { result.now ≡ self.now }
    {
        self.shared.as_str().as_bytes()
    }

    /// The count of the bytes.
    pub fn len(&self) -> usize
        ensures { result ≡ length self.now }
    {
        self.shared.len()
    }

    /// Whether the text has exactly these bytes.
    pub fn is(&self, spelling: &str) -> bool
        ensures { IsTrue result ↔ (self.now ≡ spelling.now) }
    {
        self.as_str() == spelling
    }
}

impl Clone for Text {
    ghost use Rattle.std.specs.Prelude.{◌≡◌};

    ghost is_clone = { λ text copy. copy ≡ text };

    /// The same text once more, over the same memory. It fails where the count of its sharers would
    /// not fit.
    fn clone(&self) -> Result<Text, AllocError>
        ensures { IfOk result (λ made. made ≡ self.now) }
    {
        let shared = self.shared.clone()?;
        Ok(Text { shared })
    }
}

impl PartialEq for Text {
    ghost use Rattle.std.specs.Str.{bytes_eq};
    ghost use Rattle.std.specs.Cmp.{partial_equiv_from_equiv};
    ghost use Rattle.std.specs.Cmp.Lexicographic.{nat_list_eq_equiv};

    ghost eq = { bytes_eq };

    ghost laws = { partial_equiv_from_equiv nat_list_eq_equiv };

    /// Whether two texts have the same bytes.
    fn eq(&self, other: &Text) -> bool
        ensures { IsTrue result ↔ (self.now ≡ other.now) }
    {
        self.as_bytes() == other.as_bytes()
    }
}

impl Eq for Text {
    ghost use Rattle.std.specs.Cmp.Lexicographic.{nat_list_eq_equiv};

    ghost laws = { nat_list_eq_equiv };
}

impl Debug for Text {
    fn fmt<W: Write>(&self, f: &mut Formatter<W>) -> std::fmt::Result {
        Debug::fmt(&self.shared, f)
    }
}
