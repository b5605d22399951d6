use sail_gen::synth;
use std::test::Fail;

/// The model of the seed 1 with three functions.
const MODEL: &str = concat!(
    "register PC : bits(64)\nregister A : bits(8)\n",
    "val f0 : bits(8) -> bits(8)\nfunction f0(x) = x ^ 0xf1\n",
    "val f1 : bits(8) -> bits(8)\nfunction f1(x) = x ^ 0x9c\n",
    "val f2 : bits(8) -> bits(8)\nfunction f2(x) = x | 0xf3\n",
    "val reset : (range(0, 7), bits(64)) -> unit\nfunction reset(h, e) = { PC = e }\n",
    "val step : unit -> bool\nfunction step() = { match mem_read(2, PC) { ",
    "0x0000 => { A = f0(A) }, 0x0001 => { A = f1(A) }, 0x0002 => { A = f2(A) }, ",
    "_ => return false }; PC = PC + 2; true }\n",
);

/// Its program's file, in hexadecimal digits.
const IMAGE: &str = concat!(
    "7f454c4602010100000000000000000002000000010000000000008000000000",
    "4000000000000000000000000000000000000000400038000100000000000000",
    "0100000005000000780000000000000000000080000000000000008000000000",
    "080000000000000008000000000000000400000000000000000002000200ffff",
);

/// The bytes as the digits of a number of the base 31, of which the lowest 32 bits are kept.
fn sum_of(bytes: &[u8]) -> u32 {
    let mut sum: u32 = 0;
    for byte in bytes {
        sum = sum.wrapping_mul(31).wrapping_add(u32::from(*byte));
    }
    sum
}

/// Seeds and sizes, with how many bytes the text has, their sum, how many the image has, and their sum.
const SUMS: [(u32, u32, usize, u32, usize, u32); 4] = [
    (1, 3, 468, 3369766520, 128, 3097569420),
    (0, 1, 310, 3117639104, 124, 3821924248),
    (5, 4000, 348901, 3321529975, 8122, 1146324791),
    (65535, 4000, 348901, 3257434469, 8122, 1095998347),
];

#[test]
fn three_functions_are_made_of_a_seed(rt: HostRuntime) -> Result<(), Fail> {
    let (text, image) = synth(rt.alloc(), 1, 3)?;
    assert!(rt; text.as_slice() == MODEL.as_bytes());
    assert!(rt; hex::encode(rt.alloc(), image.as_slice())?.as_str() == IMAGE);
    Ok(())
}

#[test]
fn small_and_large_models_are_made_of_seeds(rt: HostRuntime) -> Result<(), Fail> {
    for (seed, size, text_length, text_sum, image_length, image_sum) in SUMS {
        let (text, image) = synth(rt.alloc(), seed, size)?;
        assert!(rt; text.len() == text_length && sum_of(text.as_slice()) == text_sum);
        assert!(rt; image.len() == image_length && sum_of(image.as_slice()) == image_sum);
    }
    Ok(())
}
