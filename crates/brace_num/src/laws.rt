//! Facts on numbers and their spellings that hold always. The functions do nothing; their clauses
//! are the laws.
ghost use Rattle.std.specs.Prelude.{◌≡◌, ◌↔◌, ◌+◌, ◌*◌, ◌<◌, ◌≤◌, ◌^◌, ◌+ℤ◌, ◌*ℤ◌, ℕ, ℤ, List, IsTrue, int_div, int_rem, unsigned_abs};
ghost use Rattle.brace_num.specs.Exact.{fits, root};
ghost use Rattle.brace_num.specs.Spelling.{SpellsCount, SpellsInt, SpellsFixed, count_of, int_of, fixed_of, canonical_count, canonical_int, canonical_fixed};

/// A reading gives a number exactly where the text spells it; so a text spells at most one number.
pub fn readings_are_spellings()
    ensures counts { (text : List ℕ) (n : ℕ) → SpellsCount text n ↔ count_of text ≡ Some n }
    ensures ints { (text : List ℕ) (z : ℤ) → SpellsInt text z ↔ int_of text ≡ Some z }
    ensures fixed_numbers { (text : List ℕ) (z : ℤ) → SpellsFixed text z ↔ fixed_of text ≡ Some z }
{}

/// The canonical spelling of a number spells it, so what is printed is read back.
pub fn canonical_spellings_spell()
    ensures counts { (n : ℕ) → n < 2 ^ 64 → SpellsCount (canonical_count n) n }
    ensures ints { (z : ℤ) → IsTrue (fits z) → SpellsInt (canonical_int z) z }
    ensures fixed_numbers { (z : ℤ) → IsTrue (fits z) → SpellsFixed (canonical_fixed z) z }
{}

/// The root of a number is the greatest whose square is at most the number.
pub fn roots_are_greatest()
    ensures square_fits { (n : ℕ) → root n * root n ≤ n }
    ensures no_greater { (n r : ℕ) → r * r ≤ n → r ≤ root n }
{}

/// A quotient and its remainder give back the dividend, the remainder is nearer to zero than the
/// divisor, and the quotient is cut toward zero: it never takes more than the dividend.
pub fn quotients_leave_remainders()
    ensures gives_back { (a d : ℤ) → (int_div a d *ℤ d) +ℤ int_rem a d ≡ a }
    ensures near_zero { (a d : ℤ) → 0 < unsigned_abs d
        → unsigned_abs (int_rem a d) < unsigned_abs d }
    ensures toward_zero { (a d : ℤ)
        → unsigned_abs (int_div a d) * unsigned_abs d ≤ unsigned_abs a }
{}
