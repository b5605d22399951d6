ghost use Rattle.std.specs.Prelude.{◌≡◌, IfOk};
ghost use Rattle.std.specs.String.{string_bytes};
ghost use Rattle.std.specs.Fmt.{signed_decimal};
ghost use Rattle.hex.specs.Hex.{encode_lower};

use itoa::Buffer;
use std::alloc::{AllocError, Global};

/// The decimal text of a number: its digits without leading zeros, after a `-` where it is
/// negative.
///
/// The one error is want of memory.
pub fn dec_text(alloc: Global, n: i128) -> Result<String, AllocError>
    ensures { IfOk result (λ text. string_bytes text ≡ signed_decimal n) }
{
    let mut buffer = Buffer::new();
    String::from_str(alloc, buffer.format(n))
}

/// The bytes in order, two lower-case hexadecimal digits each, the high four bits first.
///
/// The one error is want of memory.
pub fn hex_text(alloc: Global, bytes: &[u8]) -> Result<String, AllocError>
    ensures { IfOk result (λ text. string_bytes text ≡ encode_lower bytes.now) }
{
    hex::encode(alloc, bytes)
}
