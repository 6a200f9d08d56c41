ghost use Rattle.std.specs.Prelude.{◌≡◌, ◌==◌, ◌↔◌, ℕ, ℤ, position, slice_index};
ghost use Rattle.brace_num.specs.Spelling.{count_of, part_of, joined, decimals_of, signed_fitting, int_of, fixed_of, SpellsCount, SpellsInt, SpellsFixed};

/// The number that decimal digits spell: one digit or more, at most 2^64-1.
///
/// `None` exactly where the text spells none.
pub fn read_count(text: &[u8]) -> Option<u64>
    ensures reading { result ≡ count_of text.now }
    ensures spelled { (v : ℕ) → SpellsCount text.now v ↔ result ≡ Some v }
{
    unsigned(text)
}

/// The int that the text spells: perhaps a minus sign, and digits, within 64 signed bits.
///
/// `None` exactly where the text spells none.
pub fn read_int(text: &[u8]) -> Option<i64>
    ensures reading { result ≡ int_of text.now }
    ensures spelled { (v : ℤ) → SpellsInt text.now v ↔ result ≡ Some v }
{
    signed_int(text)
}

/// The millionths of the fixed number that the text spells: perhaps a minus sign, digits, and
/// perhaps a point and one to six digits, within 64 signed bits of millionths.
///
/// `None` exactly where the text spells none.
pub fn read_fixed(text: &[u8]) -> Option<i64>
    ensures reading { result ≡ fixed_of text.now }
    ensures spelled { (v : ℤ) → SpellsFixed text.now v ↔ result ≡ Some v }
{
    signed_fixed(text)
}

// std's `parse` takes a plus sign, which no number here has.
fn starts_with_plus(text: &[u8]) -> bool
    ensures { result ≡ (slice_index text.now 0 == 43) }
{
    match text {
        [first, ..] => *first == b'+',
        [] => false,
    }
}

fn unsigned(text: &[u8]) -> Option<u64>
    ensures { result ≡ count_of text.now }
{
    if starts_with_plus(text) {
        return None;
    }
    match str::from_utf8(text) {
        Ok(digits) => digits.parse::<u64>().ok(),
        Err(_) => None,
    }
}

// The millionths that one to six digits after a point spell.
fn part(text: &[u8]) -> Option<u64>
    ensures { result ≡ part_of text.now }
{
    if text.len() > 6 {
        return None;
    }
    match unsigned(text) {
        Some(digits) => Some(digits * 10_u64.pow(6 - text.len() as u32)),
        None => None,
    }
}

// The millionths of a whole number and a part, where they fit 64 bits.
fn join(whole: u64, part: u64) -> Option<u64>
    ensures { result ≡ joined (Some whole) (Some part) }
{
    whole.checked_mul(1_000_000)?.checked_add(part)
}

fn find_point(text: &[u8]) -> Option<usize>
    ensures { result ≡ position (λ c. c == 46) text.now }
{
    text.iter().position(|byte| *byte == b'.')
}

// The millionths that digits spell, perhaps with a point.
fn decimals(text: &[u8]) -> Option<u64>
    ensures { result ≡ decimals_of text.now }
{
    match find_point(text) {
        None => join(unsigned(text)?, 0),
        Some(point) => {
            let whole = unsigned(&text[..point])?;
            let part = part(&text[point + 1..])?;
            join(whole, part)
        }
    }
}

// The magnitude with its sign, where it fits.
fn with_sign(minus: bool, magnitude: u64) -> Option<i64>
    ensures { result ≡ signed_fitting minus magnitude }
{
    let wide = if minus {
        -i128::from(magnitude)
    } else {
        i128::from(magnitude)
    };
    i64::try_from(wide).ok()
}

fn signed_int(text: &[u8]) -> Option<i64>
    ensures { result ≡ int_of text.now }
{
    match text {
        [b'-', rest @ ..] => with_sign(true, unsigned(rest)?),
        _ => with_sign(false, unsigned(text)?),
    }
}

fn signed_fixed(text: &[u8]) -> Option<i64>
    ensures { result ≡ fixed_of text.now }
{
    match text {
        [b'-', rest @ ..] => with_sign(true, decimals(rest)?),
        _ => with_sign(false, decimals(text)?),
    }
}
