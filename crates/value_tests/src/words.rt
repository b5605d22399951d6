//! Words and sums against values from outside: Python computed each with its own integers.
ghost use Rattle.std.specs.Prelude.{◌≡◌, ◌≤◌, length};

use sail_base::{Word, gcd, sum};

/// An operation on two words of one width.
#[derive(Clone, Copy)]
enum Two {
    Add,
    Sub,
    Mul,
    And,
    Or,
    Xor,
    LtU,
    LtS,
    WideUu,
    WideSs,
    WideSu,
}

/// An operation on a word and a number.
#[derive(Clone, Copy)]
enum One {
    Shl,
    Shr,
    Sar,
    Zext,
    Sext,
    Truncate,
    Replicate,
}

/// Two words: the operation, their width, their numbers, and the width and number of the result.
const TWO: [(Two, u8, u128, u128, u8, u128); 29] = [
    (Two::Add, 0, 0x0, 0x0, 0, 0x0),
    (
        Two::Add,
        65,
        0x10b09c1fb6b6137af,
        0x81c2eed4c62558ee,
        65,
        0x18cccb0d03186909d,
    ),
    (Two::Add, 128, u128::MAX, 0x1, 128, 0x0),
    (Two::Sub, 1, 0x0, 0x1, 1, 0x1),
    (
        Two::Sub,
        63,
        0x16d1209ae7eb2582,
        0x2d15990de9a124b7,
        63,
        0x69bb878cfe4a00cb,
    ),
    (
        Two::Mul,
        64,
        0x8000000000000000,
        0xffffffffffffffff,
        64,
        0x8000000000000000,
    ),
    (Two::Mul, 8, 0x22, 0xa, 8, 0x54),
    (Two::And, 4, 0b1100, 0b1010, 4, 0b1000),
    (Two::Or, 4, 0b1100, 0b1010, 4, 0b1110),
    (Two::Xor, 4, 0b1100, 0b1010, 4, 0b0110),
    (Two::LtU, 0, 0x0, 0x0, 1, 0x0),
    (Two::LtU, 8, 0x7f, 0x80, 1, 0x1),
    (Two::LtU, 8, 0x80, 0x80, 1, 0x0),
    (Two::LtU, 8, 0x80, 0x7f, 1, 0x0),
    (Two::LtS, 0, 0x0, 0x0, 1, 0x0),
    (Two::LtS, 8, 0x7f, 0x80, 1, 0x0),
    (Two::LtS, 8, 0x80, 0x80, 1, 0x0),
    (Two::LtS, 8, 0x80, 0xff, 1, 0x1),
    (Two::LtS, 1, 0x1, 0x0, 1, 0x1),
    (Two::WideUu, 8, 0xff, 0xff, 16, 0xfe01),
    (
        Two::WideUu,
        64,
        u64::MAX as u128,
        u64::MAX as u128,
        128,
        0xfffffffffffffffe0000000000000001,
    ),
    (Two::WideSs, 8, 0xff, 0xff, 16, 0x1),
    (Two::WideSs, 8, 0x47, 0x81, 16, 0xdcc7),
    (
        Two::WideSs,
        64,
        0x8000000000000000,
        0xffffffffffffffff,
        128,
        0x8000000000000000,
    ),
    (Two::WideSu, 1, 0x1, 0x1, 2, 0x3),
    (Two::WideSu, 8, 0xff, 0xff, 16, 0xff01),
    (Two::WideSu, 8, 0xc4, 0xda, 16, 0xcce8),
    (Two::WideSu, 8, 0x22, 0xa, 16, 0x154),
    (Two::WideSu, 0, 0x0, 0x0, 0, 0x0),
];

/// A word and a number: the operation, the width, the word's number, the number, and the width and
/// number of the result.
const ONE: [(One, u8, u128, u128, u8, u128); 26] = [
    (One::Shl, 8, 0xb8, 3, 8, 0xc0),
    (One::Shl, 8, 0xb8, 8, 8, 0x0),
    (
        One::Shl,
        64,
        0x8f5839c08704d1b8,
        0x80000000000000010000000000000001,
        64,
        0x0,
    ),
    (One::Shr, 8, 0xb8, 3, 8, 0x17),
    (One::Shr, 8, 0xb8, 256, 8, 0x0),
    (One::Sar, 8, 0xb8, 3, 8, 0xf7),
    (One::Sar, 8, 0x58, 3, 8, 0xb),
    (One::Sar, 8, 0xb8, 256, 8, 0xff),
    (One::Sar, 8, 0x58, 256, 8, 0x0),
    (One::Sar, 1, 0x1, 0x80000000000000010000000000000001, 1, 0x1),
    (One::Sar, 0, 0x0, 1, 0, 0x0),
    (One::Zext, 0, 0x0, 128, 128, 0x0),
    (One::Zext, 1, 0x1, 64, 64, 0x1),
    (
        One::Zext,
        128,
        0xd8ec70b684b04db18f4eff56d650bc1b,
        128,
        128,
        0xd8ec70b684b04db18f4eff56d650bc1b,
    ),
    (One::Sext, 0, 0x0, 128, 128, 0x0),
    (One::Sext, 1, 0x1, 64, 64, 0xffffffffffffffff),
    (
        One::Sext,
        63,
        0x1a0c13ac8ac3080c,
        64,
        64,
        0x1a0c13ac8ac3080c,
    ),
    (
        One::Sext,
        65,
        0x1907d69c72bc8da85,
        127,
        127,
        0x7fffffffffffffff907d69c72bc8da85,
    ),
    (One::Truncate, 1, 0x1, 0, 0, 0x0),
    (
        One::Truncate,
        64,
        0xd317ea7ff2e9cec7,
        63,
        63,
        0x5317ea7ff2e9cec7,
    ),
    (
        One::Truncate,
        128,
        0xc1cf6846b32190bf1cb5e319b9f53639,
        64,
        64,
        0x1cb5e319b9f53639,
    ),
    (One::Replicate, 0, 0x0, 0x10000000000000000000000000, 0, 0x0),
    (One::Replicate, 1, 0x1, 0, 0, 0x0),
    (One::Replicate, 1, 0x1, 128, 128, u128::MAX),
    (
        One::Replicate,
        3,
        0x3,
        42,
        126,
        0x1b6db6db6db6db6db6db6db6db6db6db,
    ),
    (
        One::Replicate,
        64,
        0x53a1dab086847d4c,
        2,
        128,
        0x53a1dab086847d4c53a1dab086847d4c,
    ),
];

/// A word read: its width and number, its bits turned, the zeros at its top, its top bit, its signed
/// number.
const READ: [(u8, u128, u128, u8, bool, i128); 8] = [
    (0, 0x0, 0x0, 0, false, 0),
    (1, 0x0, 0x1, 1, false, 0),
    (1, 0x1, 0x0, 0, true, -1),
    (8, 0x16, 0xe9, 3, false, 22),
    (8, 0x7f, 0x80, 1, false, 127),
    (8, 0x80, 0x7f, 0, true, -128),
    (
        65,
        0x10b46a65e888bd56b,
        0xf4b959a177742a94,
        0,
        true,
        -17634224365974596245,
    ),
    (
        128,
        0x80000000000000000000000000000000,
        i128::MAX as u128,
        0,
        true,
        i128::MIN,
    ),
];

/// The lowest bits of an integer: the width, the integer, and the word's number.
const LOWEST: [(u8, i128, u128); 4] = [
    (0, -2, 0x0),
    (1, 85070591730234615964609083967818596074, 0x0),
    (
        65,
        -85070591730234615865855997536843287431,
        0x1ffd423aba294b479,
    ),
    (128, -2, 0xfffffffffffffffffffffffffffffffe),
];

/// A word high and a word low: width and number of each, and the number of the result.
const APPENDED: [(u8, u128, u8, u128, u128); 4] = [
    (0, 0x0, 7, 0x6c, 0x6c),
    (7, 0x21, 0, 0x0, 0x21),
    (8, 0x58, 16, 0x7b38, 0x587b38),
    (
        63,
        0x6467ce70bd87348,
        65,
        0x1f8a34fca3dd0dac4,
        0xc8cf9ce17b0e691f8a34fca3dd0dac4,
    ),
];

/// Slices: the width and the number, the highest and the lowest bit, and the number of the slice.
const SLICES: [(u8, u128, u8, u8, u128); 5] = [
    (1, 0x0, 0, 0, 0x0),
    (63, 0x72e1b995a94604d9, 31, 21, 0x54a),
    (65, 0xc1f32586bdaf773a, 32, 21, 0x5ed),
    (
        128,
        0x3c1d9c1aef219605e49031a582057cba,
        126,
        1,
        0x1e0ece0d7790cb02f24818d2c102be5d,
    ),
    (128, 0xb3eb9eae49c0f182ff9dd4b546eb2c24, 127, 127, 0x1),
];

/// Two integers, their sum and their greatest common divisor.
const SUMS: [(i128, i128, Option<i128>, Option<i128>); 8] = [
    (i128::MAX, 1, None, Some(1)),
    (i128::MIN, -1, None, Some(1)),
    (i128::MIN, 0, Some(i128::MIN), None),
    (i128::MIN, i128::MAX, Some(-1), Some(1)),
    (-12, -18, Some(-30), Some(6)),
    (0, 0, Some(0), Some(0)),
    (0, -5, Some(-5), Some(5)),
    (600, -45, Some(555), Some(15)),
];

fn of_two(operation: Two, a: Word, b: Word) -> Option<Word>
    requires { length a ≡ length b }
{
    let found = match operation {
        Two::Add => a.add(b),
        Two::Sub => a.sub(b),
        Two::Mul => a.mul(b),
        Two::And => a.and(b),
        Two::Or => a.or(b),
        Two::Xor => a.xor(b),
        Two::LtU => Word::of_bool(a.lt_u(b)),
        Two::LtS => Word::of_bool(a.lt_s(b)),
        Two::WideUu if a.width() <= 64 => a.mul_wide_uu(b),
        Two::WideSs if a.width() <= 64 => a.mul_wide_ss(b),
        Two::WideSu if a.width() <= 64 => a.mul_wide_su(b),
        _ => return None,
    };
    Some(found)
}

fn of_one(operation: One, a: Word, number: u128) -> Option<Word> {
    let width = a.width();
    let found = match operation {
        One::Shl => a.shl(number),
        One::Shr => a.shr(number),
        One::Sar => a.sar(number),
        One::Zext if number <= 128 && width <= number as u8 => a.zext(number as u8),
        One::Sext if number <= 128 && width <= number as u8 => a.sext(number as u8),
        One::Truncate if number <= 128 && number as u8 <= width => a.truncate(number as u8),
        One::Replicate if number.checked_mul(u128::from(width))? <= 128 => a.replicate(number),
        _ => return None,
    };
    Some(found)
}

/// Whether the operation of a row on its two words gives the row's last word.
#[tactic(auto, using(sail_base::specs::laws::WordParts::word_widths))]
fn is_operation(row: &(Two, u8, u128, u128, u8, u128)) -> bool {
    let (operation, width, a, b, to, want) = *row;
    width <= 128
        && to <= 128
        && of_two(operation, Word::low(width, a), Word::low(width, b)) == Some(Word::low(to, want))
}

#[test]
fn operations_of_two_words(rt: HostRuntime) {
    for (at, row) in TWO.iter().enumerate() {
        assert!(rt; is_operation(row), "row {at}");
    }
}

/// Whether the operation of a row on its word and number gives the row's last word.
#[tactic(auto, using(sail_base::specs::laws::WordParts::word_widths))]
fn is_operation_by(row: &(One, u8, u128, u128, u8, u128)) -> bool {
    let (operation, width, a, number, to, want) = *row;
    width <= 128
        && to <= 128
        && of_one(operation, Word::low(width, a), number) == Some(Word::low(to, want))
}

#[test]
fn operations_of_a_word_and_a_number(rt: HostRuntime) {
    for (at, row) in ONE.iter().enumerate() {
        assert!(rt; is_operation_by(row), "row {at}");
    }
}

/// Whether the words of a row, one behind the other, have the row's last number.
#[tactic(auto, using(sail_base::specs::laws::WordParts::word_widths))]
fn is_appended(row: &(u8, u128, u8, u128, u128)) -> bool {
    let (width, a, low, b, want) = *row;
    width <= 128
        && low <= 128 - width
        && Word::low(width, a).append(Word::low(low, b)) == Word::low(width + low, want)
}

#[test]
fn words_are_appended(rt: HostRuntime) {
    for (at, row) in APPENDED.iter().enumerate() {
        assert!(rt; is_appended(row), "row {at}");
    }
}

/// Whether the slice of a row has the row's last number, and its lowest bit.
#[tactic(auto, using(sail_base::specs::laws::WordParts::word_widths))]
fn is_slice(row: &(u8, u128, u8, u8, u128)) -> bool {
    let (width, a, high, low, want) = *row;
    if width > 128 || high >= width || low > high {
        return false;
    }
    let word = Word::low(width, a);
    word.slice(high, low) == Word::low(high - low + 1, want) && word.bit(low) == (want % 2 == 1)
}

#[test]
fn words_are_sliced(rt: HostRuntime) {
    for (at, row) in SLICES.iter().enumerate() {
        assert!(rt; is_slice(row), "row {at}");
    }
}

/// Whether a word is read as its row says.
fn is_read(row: &(u8, u128, u128, u8, bool, i128)) -> bool {
    let (width, a, turned, zeros, top, number) = *row;
    if width > 128 {
        return false;
    }
    let word = Word::low(width, a);
    word.bits() == a
        && word.top() == top
        && word.signed() == number
        && word.count_leading_zeros() == zeros
        && word.not() == Word::low(width, turned)
        && Word::of_int(width, number) == word
}

#[test]
fn readings(rt: HostRuntime) {
    for (at, row) in READ.iter().enumerate() {
        assert!(rt; is_read(row), "row {at}");
    }
}

/// Whether the lowest bits of an integer are those of its row.
fn is_lowest(row: &(u8, i128, u128)) -> bool {
    let (width, number, want) = *row;
    width <= 128 && Word::of_int(width, number) == Word::low(width, want)
}

#[test]
fn lowest_bits(rt: HostRuntime) {
    for (at, row) in LOWEST.iter().enumerate() {
        assert!(rt; is_lowest(row), "row {at}");
    }
}

/// Whether the sum and the greatest common divisor of two integers are those of their row.
fn is_sum(row: &(i128, i128, Option<i128>, Option<i128>)) -> bool {
    let (a, b, total, divisor) = *row;
    sum(a, b) == total && gcd(a, b) == divisor
}

#[test]
fn sums_and_divisors(rt: HostRuntime) {
    for (at, row) in SUMS.iter().enumerate() {
        assert!(rt; is_sum(row), "row {at}");
    }
}
