// What no clause says: that the definitions mean the usual numbers, at values worked by hand.
use brace_num::{
    Generator, Kind, NoMemory, abs, add, clamp, fixed_div, fixed_mul, int_div, int_mul, int_rem,
    neg, print_count, print_fixed, print_int, read_count, read_fixed, read_int, sqrt, sub,
    to_fixed, trunc,
};
use std::alloc::Global;
use std::test::Fail;

const LEAST: i64 = -9223372036854775808;

const MOST: i64 = 9223372036854775807;

const OVERFLOW: Result<i64, Kind> = Err(Kind::Overflow);

const DIV_ZERO: Result<i64, Kind> = Err(Kind::DivZero);

const NEG_ROOT: Result<i64, Kind> = Err(Kind::NegRoot);

// What two operands give that are both the least number, or both the greatest.
const OF_EQUAL_ENDS: [Result<i64, Kind>; 7] = [
    OVERFLOW,
    Ok(0),
    OVERFLOW,
    Ok(1),
    Ok(0),
    OVERFLOW,
    Ok(1_000_000),
];

// An operand, what its negation, absolute value, fixed number and root are, and its whole part;
// roots are cut down, whole parts toward zero.
const OF_ONE: [(i64, [Result<i64, Kind>; 4], i64); 12] = [
    (
        LEAST,
        [OVERFLOW, OVERFLOW, OVERFLOW, NEG_ROOT],
        -9_223_372_036_854,
    ),
    (-1, [Ok(1), Ok(1), Ok(-1_000_000), NEG_ROOT], 0),
    (0, [Ok(0), Ok(0), Ok(0), Ok(0)], 0),
    (1, [Ok(-1), Ok(1), Ok(1_000_000), Ok(1000)], 0),
    (
        MOST,
        [Ok(-MOST), Ok(MOST), OVERFLOW, Ok(3_037_000_499_976)],
        9_223_372_036_854,
    ),
    (
        -1_500_000,
        [
            Ok(1_500_000),
            Ok(1_500_000),
            Ok(-1_500_000_000_000),
            NEG_ROOT,
        ],
        -1,
    ),
    (
        9_223_372_036_854,
        [
            Ok(-9_223_372_036_854),
            Ok(9_223_372_036_854),
            Ok(9_223_372_036_854_000_000),
            Ok(3_037_000_499),
        ],
        9_223_372,
    ),
    (
        9_223_372_036_855,
        [
            Ok(-9_223_372_036_855),
            Ok(9_223_372_036_855),
            OVERFLOW,
            Ok(3_037_000_499),
        ],
        9_223_372,
    ),
    (
        2_000_000,
        [
            Ok(-2_000_000),
            Ok(2_000_000),
            Ok(2_000_000_000_000),
            Ok(1_414_213),
        ],
        2,
    ),
    (
        4_000_000,
        [
            Ok(-4_000_000),
            Ok(4_000_000),
            Ok(4_000_000_000_000),
            Ok(2_000_000),
        ],
        4,
    ),
    (
        3_999_999,
        [
            Ok(-3_999_999),
            Ok(3_999_999),
            Ok(3_999_999_000_000),
            Ok(1_999_999),
        ],
        3,
    ),
    (
        9_000_000_000_000_000_000,
        [
            Ok(-9_000_000_000_000_000_000),
            Ok(9_000_000_000_000_000_000),
            OVERFLOW,
            Ok(3_000_000_000_000),
        ],
        9_000_000_000_000,
    ),
];

// Two operands, and what their sum, difference, product, quotient, rest, fixed product and fixed
// quotient are; quotients are cut toward zero.
const OF_TWO: [(i64, i64, [Result<i64, Kind>; 7]); 34] = [
    (LEAST, LEAST, OF_EQUAL_ENDS),
    (
        LEAST,
        -1,
        [
            OVERFLOW,
            Ok(-MOST),
            OVERFLOW,
            OVERFLOW,
            Ok(0),
            Ok(9_223_372_036_854),
            OVERFLOW,
        ],
    ),
    (
        LEAST,
        0,
        [
            Ok(LEAST),
            Ok(LEAST),
            Ok(0),
            DIV_ZERO,
            DIV_ZERO,
            Ok(0),
            DIV_ZERO,
        ],
    ),
    (
        LEAST,
        1,
        [
            Ok(-MOST),
            OVERFLOW,
            Ok(LEAST),
            Ok(LEAST),
            Ok(0),
            Ok(-9_223_372_036_854),
            OVERFLOW,
        ],
    ),
    (
        LEAST,
        MOST,
        [
            Ok(-1),
            OVERFLOW,
            OVERFLOW,
            Ok(-1),
            Ok(-1),
            OVERFLOW,
            Ok(-1_000_000),
        ],
    ),
    (
        -1,
        LEAST,
        [
            OVERFLOW,
            Ok(MOST),
            OVERFLOW,
            Ok(0),
            Ok(-1),
            Ok(9_223_372_036_854),
            Ok(0),
        ],
    ),
    (
        -1,
        -1,
        [Ok(-2), Ok(0), Ok(1), Ok(1), Ok(0), Ok(0), Ok(1_000_000)],
    ),
    (
        -1,
        0,
        [Ok(-1), Ok(-1), Ok(0), DIV_ZERO, DIV_ZERO, Ok(0), DIV_ZERO],
    ),
    (
        -1,
        1,
        [Ok(0), Ok(-2), Ok(-1), Ok(-1), Ok(0), Ok(0), Ok(-1_000_000)],
    ),
    (
        -1,
        MOST,
        [
            Ok(9_223_372_036_854_775_806),
            Ok(LEAST),
            Ok(-MOST),
            Ok(0),
            Ok(-1),
            Ok(-9_223_372_036_854),
            Ok(0),
        ],
    ),
    (
        0,
        LEAST,
        [Ok(LEAST), OVERFLOW, Ok(0), Ok(0), Ok(0), Ok(0), Ok(0)],
    ),
    (0, -1, [Ok(-1), Ok(1), Ok(0), Ok(0), Ok(0), Ok(0), Ok(0)]),
    (
        0,
        0,
        [Ok(0), Ok(0), Ok(0), DIV_ZERO, DIV_ZERO, Ok(0), DIV_ZERO],
    ),
    (0, 1, [Ok(1), Ok(-1), Ok(0), Ok(0), Ok(0), Ok(0), Ok(0)]),
    (
        0,
        MOST,
        [Ok(MOST), Ok(-MOST), Ok(0), Ok(0), Ok(0), Ok(0), Ok(0)],
    ),
    (
        1,
        LEAST,
        [
            Ok(-MOST),
            OVERFLOW,
            Ok(LEAST),
            Ok(0),
            Ok(1),
            Ok(-9_223_372_036_854),
            Ok(0),
        ],
    ),
    (
        1,
        -1,
        [Ok(0), Ok(2), Ok(-1), Ok(-1), Ok(0), Ok(0), Ok(-1_000_000)],
    ),
    (
        1,
        0,
        [Ok(1), Ok(1), Ok(0), DIV_ZERO, DIV_ZERO, Ok(0), DIV_ZERO],
    ),
    (
        1,
        1,
        [Ok(2), Ok(0), Ok(1), Ok(1), Ok(0), Ok(0), Ok(1_000_000)],
    ),
    (
        1,
        MOST,
        [
            OVERFLOW,
            Ok(-9_223_372_036_854_775_806),
            Ok(MOST),
            Ok(0),
            Ok(1),
            Ok(9_223_372_036_854),
            Ok(0),
        ],
    ),
    (
        MOST,
        LEAST,
        [
            Ok(-1),
            OVERFLOW,
            OVERFLOW,
            Ok(0),
            Ok(MOST),
            OVERFLOW,
            Ok(-999_999),
        ],
    ),
    (
        MOST,
        -1,
        [
            Ok(9_223_372_036_854_775_806),
            OVERFLOW,
            Ok(-MOST),
            Ok(-MOST),
            Ok(0),
            Ok(-9_223_372_036_854),
            OVERFLOW,
        ],
    ),
    (
        MOST,
        0,
        [
            Ok(MOST),
            Ok(MOST),
            Ok(0),
            DIV_ZERO,
            DIV_ZERO,
            Ok(0),
            DIV_ZERO,
        ],
    ),
    (
        MOST,
        1,
        [
            OVERFLOW,
            Ok(9_223_372_036_854_775_806),
            Ok(MOST),
            Ok(MOST),
            Ok(0),
            Ok(9_223_372_036_854),
            OVERFLOW,
        ],
    ),
    (MOST, MOST, OF_EQUAL_ENDS),
    (
        -7,
        2,
        [
            Ok(-5),
            Ok(-9),
            Ok(-14),
            Ok(-3),
            Ok(-1),
            Ok(0),
            Ok(-3_500_000),
        ],
    ),
    (
        7,
        -2,
        [Ok(5), Ok(9), Ok(-14), Ok(-3), Ok(1), Ok(0), Ok(-3_500_000)],
    ),
    (
        -7,
        -2,
        [Ok(-9), Ok(-5), Ok(14), Ok(3), Ok(-1), Ok(0), Ok(3_500_000)],
    ),
    (
        -1,
        500_000,
        [
            Ok(499_999),
            Ok(-500_001),
            Ok(-500_000),
            Ok(0),
            Ok(-1),
            Ok(0),
            Ok(-2),
        ],
    ),
    (
        MOST,
        1_000_000,
        [
            OVERFLOW,
            Ok(9_223_372_036_853_775_807),
            OVERFLOW,
            Ok(9_223_372_036_854),
            Ok(775_807),
            Ok(MOST),
            Ok(MOST),
        ],
    ),
    (
        LEAST,
        -1_000_000,
        [
            OVERFLOW,
            Ok(-9_223_372_036_853_775_808),
            OVERFLOW,
            Ok(9_223_372_036_854),
            Ok(-775_808),
            OVERFLOW,
            OVERFLOW,
        ],
    ),
    (
        1_000_000,
        3_000_000,
        [
            Ok(4_000_000),
            Ok(-2_000_000),
            Ok(3_000_000_000_000),
            Ok(0),
            Ok(1_000_000),
            Ok(3_000_000),
            Ok(333_333),
        ],
    ),
    (
        -2_000_000,
        3_000_000,
        [
            Ok(1_000_000),
            Ok(-5_000_000),
            Ok(-6_000_000_000_000),
            Ok(0),
            Ok(-2_000_000),
            Ok(-6_000_000),
            Ok(-666_666),
        ],
    ),
    (
        MOST,
        999_999,
        [
            OVERFLOW,
            Ok(9_223_372_036_853_775_808),
            OVERFLOW,
            Ok(9_223_381_260_236),
            Ok(36_043),
            Ok(9_223_362_813_482_738_952),
            OVERFLOW,
        ],
    ),
];

// A number, a new one, and what the new one is within a reach of 0, 1, 3 and the greatest number.
const CLAMPED: [(i64, i64, [i64; 4]); 26] = [
    (LEAST, LEAST, [LEAST, LEAST, LEAST, LEAST]),
    (LEAST, -1, [LEAST, -MOST, -9_223_372_036_854_775_805, -1]),
    (LEAST, 0, [LEAST, -MOST, -9_223_372_036_854_775_805, -1]),
    (LEAST, 1, [LEAST, -MOST, -9_223_372_036_854_775_805, -1]),
    (LEAST, MOST, [LEAST, -MOST, -9_223_372_036_854_775_805, -1]),
    (-1, LEAST, [-1, -2, -4, LEAST]),
    (-1, -1, [-1, -1, -1, -1]),
    (-1, 0, [-1, 0, 0, 0]),
    (-1, 1, [-1, 0, 1, 1]),
    (-1, MOST, [-1, 0, 2, 9_223_372_036_854_775_806]),
    (0, LEAST, [0, -1, -3, -MOST]),
    (0, -1, [0, -1, -1, -1]),
    (0, 0, [0, 0, 0, 0]),
    (0, 1, [0, 1, 1, 1]),
    (0, MOST, [0, 1, 3, MOST]),
    (1, LEAST, [1, 0, -2, -9_223_372_036_854_775_806]),
    (1, -1, [1, 0, -1, -1]),
    (1, 0, [1, 0, 0, 0]),
    (1, 1, [1, 1, 1, 1]),
    (1, MOST, [1, 2, 4, MOST]),
    (MOST, LEAST, [MOST, MOST - 1, MOST - 3, 0]),
    (MOST, -1, [MOST, MOST - 1, MOST - 3, 0]),
    (MOST, 0, [MOST, MOST - 1, MOST - 3, 0]),
    (MOST, 1, [MOST, MOST - 1, MOST - 3, 1]),
    (MOST, MOST, [MOST, MOST, MOST, MOST]),
    (-5, 9, [-5, -4, -2, 9]),
];

// A spelling, and the int, the count and the fixed number that it spells.
const SPELLINGS: [(&str, Option<i64>, Option<u64>, Option<i64>); 34] = [
    ("-0", Some(0), None, Some(0)),
    (
        "000000000000000000000000000042",
        Some(42),
        Some(42),
        Some(42_000_000),
    ),
    ("-9223372036854775808", Some(LEAST), None, None),
    (
        "18446744073709551615",
        None,
        Some(18_446_744_073_709_551_615),
        None,
    ),
    ("-1.5", None, None, Some(-1_500_000)),
    (
        "0000000000000000000000007.000001",
        None,
        None,
        Some(7_000_001),
    ),
    ("9223372036854.775807", None, None, Some(MOST)),
    ("-9223372036854.775808", None, None, Some(LEAST)),
    ("12", Some(12), Some(12), Some(12_000_000)),
    (
        "9223372036854775808",
        None,
        Some(9_223_372_036_854_775_808),
        None,
    ),
    ("", None, None, None),
    ("-", None, None, None),
    ("+1", None, None, None),
    ("--1", None, None, None),
    ("1x", None, None, None),
    (" 1", None, None, None),
    ("1.0", None, None, Some(1_000_000)),
    (".5", None, None, None),
    ("5.", None, None, None),
    ("1.0000000", None, None, None),
    ("1.2.3", None, None, None),
    ("1.-2", None, None, None),
    ("9223372036854.775808", None, None, None),
    ("-.1", None, None, None),
    ("18446744073709551616", None, None, None),
    ("-1", Some(-1), None, Some(-1_000_000)),
    ("-0.000001", None, None, Some(-1)),
    ("0", Some(0), Some(0), Some(0)),
    ("0.000000", None, None, Some(0)),
    ("1", Some(1), Some(1), Some(1_000_000)),
    ("0.000001", None, None, Some(1)),
    (
        "1500000",
        Some(1_500_000),
        Some(1_500_000),
        Some(1_500_000_000_000),
    ),
    ("1.500000", None, None, Some(1_500_000)),
    (
        "9223372036854775807",
        Some(MOST),
        Some(9_223_372_036_854_775_807),
        None,
    ),
];

#[test]
fn one_operand_at_the_ends_and_about_zero(rt: HostRuntime) {
    for &(a, results, whole) in &OF_ONE {
        assert_eq!(rt;
            ([neg(a), abs(a), to_fixed(a), sqrt(a)], trunc(a)),
            (results, whole)
        );
    }
}

fn of_two(a: i64, b: i64) -> [Result<i64, Kind>; 7] {
    [
        add(a, b),
        sub(a, b),
        int_mul(a, b),
        int_div(a, b),
        int_rem(a, b),
        fixed_mul(a, b),
        fixed_div(a, b),
    ]
}

#[test]
fn two_operands_at_the_ends_and_about_zero(rt: HostRuntime) {
    for &(a, b, results) in &OF_TWO {
        assert_eq!(rt; of_two(a, b), results);
    }
}

#[test]
fn clamps_at_the_ends_and_about_zero(rt: HostRuntime) {
    for &(old, new, results) in &CLAMPED {
        assert_eq!(rt;
            [
                clamp(old, new, 0),
                clamp(old, new, 1),
                clamp(old, new, 3),
                clamp(old, new, MOST)
            ],
            results
        );
    }
}

#[test]
fn reads_spellings(rt: HostRuntime) {
    for &(text, int, count, fixed) in &SPELLINGS {
        let bytes = text.as_bytes();
        assert_eq!(rt;
            (read_int(bytes), read_count(bytes), read_fixed(bytes)),
            (int, count, fixed)
        );
    }
}

// A number, a count, and their texts: the number's as an int and as a fixed number, the count's.
const PRINTED: [(i64, u64, &[u8]); 6] = [
    (LEAST, 0, b"-9223372036854775808 -9223372036854.775808 0"),
    (-1, 1, b"-1 -0.000001 1"),
    (0, u64::MAX, b"0 0.000000 18446744073709551615"),
    (1, 0, b"1 0.000001 0"),
    (1_500_000, 0, b"1500000 1.500000 0"),
    (MOST, 0, b"9223372036854775807 9223372036854.775807 0"),
];

fn print_all(alloc: Global, v: i64, n: u64) -> Result<Vec<u8>, NoMemory> {
    let mut out = Vec::new(alloc);
    print_int(&mut out, v)?;
    out.extend_from_slice(b" ")?;
    print_fixed(&mut out, v)?;
    out.extend_from_slice(b" ")?;
    print_count(&mut out, n)?;
    Ok(out)
}

#[test]
fn prints_the_ends_and_about_zero(rt: HostRuntime) -> Result<(), Fail> {
    for &(v, n, text) in &PRINTED {
        let out = print_all(rt.alloc(), v, n)?;
        assert_eq!(rt; out.as_slice(), text);
    }
    Ok(())
}

// The first two numbers from the seed 0 are those that Knuth and Lewis give for the modulus 2^32.
#[test]
fn generates_from_the_low_bits_of_a_seed(rt: HostRuntime) {
    for seed in [0, 4_294_967_296] {
        let mut generator = Generator::new(seed);
        assert_eq!(rt;
            [generator.draw(), generator.draw()],
            [1_013_904_223, 1_196_435_762]
        );
    }
}
