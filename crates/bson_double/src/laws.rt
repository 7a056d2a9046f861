//! Laws of finite doubles and their strings. The bits of a double are finite if they are below
//! 2^64, and the double is neither an infinity nor a NaN.
ghost use Rattle.std.specs.Prelude.{◌≡◌, ◌<◌, ◌^◌, ℕ, List, true, from_bits, Some};
ghost use Rattle.std.specs.Float.{binary64};
ghost use Rattle.ryu.specs.Plain.{IsPlainNumber};
ghost use Rattle.bson_double.specs.FiniteDoubles.{is_finite, parsed_finite_bits};
ghost use Rattle.bson_double.specs.ShortestDecimal.{DecimalRoundsTo, IsShortest};
ghost use Rattle.bson_double.specs.DoubleText.{IsDoubleText};

/// Proves that the bits of two equal finite doubles with the same sign are equal.
pub fn patterns_are_values()
    ensures { (bits other_bits : ℕ) → bits < 2 ^ 64 → other_bits < 2 ^ 64 → is_finite bits ≡ true
        → is_finite other_bits ≡ true
        → from_bits binary64 bits ≡ from_bits binary64 other_bits → bits ≡ other_bits }
{}

/// Proves that each finite double above zero has one shortest decimal, and no other. A decimal is
/// not the shortest one if a multiple of a higher power of ten is read as the double too: it has a
/// digit too many.
pub fn one_shortest_decimal()
    ensures one { (bits digits power other_digits other_power : ℕ) → IsShortest bits digits power
        → IsShortest bits other_digits other_power → (digits ≡ other_digits) × (power ≡ other_power) }
    ensures exists { (bits : ℕ) → 0 < bits → bits < 2 ^ 63 → is_finite bits ≡ true
        → (digits : ℕ) × (power : ℕ) × IsShortest bits digits power }
    ensures few_digits { (bits digits power other_digits other_power : ℕ)
        → DecimalRoundsTo bits other_digits other_power → power < other_power → IsShortest bits digits power → ⊥ }
{}

/// Proves that each finite double has one string, and no other, and that no two have the same.
pub fn one_text()
    ensures one { (bits : ℕ) (text other_text : List ℕ) → IsDoubleText bits text → IsDoubleText bits other_text
        → text ≡ other_text }
    ensures exists { (bits : ℕ) → is_finite bits ≡ true → (text : List ℕ) × IsDoubleText bits text }
    ensures apart { (bits other_bits : ℕ) (text : List ℕ) → bits < 2 ^ 64 → other_bits < 2 ^ 64 → is_finite bits ≡ true
        → is_finite other_bits ≡ true → IsDoubleText bits text → IsDoubleText other_bits text → bits ≡ other_bits }
{}

/// Proves that the string of a finite double is a JSON number (RFC 8259 section 6), with a point or
/// an exponent.
pub fn texts_are_numbers()
    ensures { (bits : ℕ) (text : List ℕ) → is_finite bits ≡ true → IsDoubleText bits text → IsPlainNumber text }
{}

/// Proves that the string of a finite double is read as the same bits.
pub fn texts_are_read_back()
    ensures { (bits : ℕ) (text : List ℕ) → bits < 2 ^ 64 → is_finite bits ≡ true → IsDoubleText bits text
        → parsed_finite_bits text ≡ Some bits }
{}
