// The digits of a coefficient before and after its point, as one list of bytes.
ghost use Rattle.std.specs.Prelude.{◌≡◌, ◌+◌, ◌-◌, ◌*◌, ◌^◌, ◌<◌, ◌≤◌, ◌++◌, List, ℕ, length, take};
ghost use Rattle.std.specs.Prelude.{drop, slice_index};
ghost use Rattle.std.specs.List.{list_all, prefix_len};
ghost use Rattle.std.specs.Option.{SomeIff};
ghost use Rattle.std.specs.Str.Parse.{AllDigits, digits_value};
ghost use Rattle.bson_decimal.specs.NumeralGrammar.{is_zero, without_leading_zeros};

use std::marker::Model;

#[derive(Drop)]
pub(crate) struct Digits<'a> {
    integer_digits: &'a [u8],
    fraction: &'a [u8],
}

impl<'a> Model for Digits<'a> {
    ghost Value = { List ℕ };

    ghost view = { λ digits. digits.integer_digits.now ++ digits.fraction.now };
}

impl<'a> Digits<'a> {
    pub(crate) fn new(integer_digits: &'a [u8], fraction: &'a [u8]) -> Digits<'a>
        ensures { result ≡ integer_digits.now ++ fraction.now }
    {
        Digits {
            integer_digits,
            fraction,
        }
    }

    pub(crate) fn len(&self) -> usize
        ensures { result ≡ length self.now }
    {
        self.integer_digits.len() + self.fraction.len()
    }

    pub(crate) fn byte(&self, digit_index: usize) -> u8
        requires { digit_index < length self.now }
        ensures { result ≡ slice_index self.now digit_index }
    {
        if digit_index < self.integer_digits.len() {
            self.integer_digits[digit_index]
        } else {
            self.fraction[digit_index - self.integer_digits.len()]
        }
    }

    // The first `digit_count` bytes.
    pub(crate) fn first(self, digit_count: usize) -> Digits<'a>
        requires { digit_count ≤ length self }
        ensures { result ≡ take digit_count self.entry }
    {
        if digit_count <= self.integer_digits.len() {
            Digits {
                integer_digits: &self.integer_digits[..digit_count],
                fraction: &[],
            }
        } else {
            Digits {
                integer_digits: self.integer_digits,
                fraction: &self.fraction[..digit_count - self.integer_digits.len()],
            }
        }
    }

    // The bytes after the first `digit_count`.
    pub(crate) fn after(self, digit_count: usize) -> Digits<'a>
        requires { digit_count ≤ length self }
        ensures { result ≡ drop digit_count self.entry }
    {
        if digit_count <= self.integer_digits.len() {
            Digits {
                integer_digits: &self.integer_digits[digit_count..],
                fraction: self.fraction,
            }
        } else {
            Digits {
                integer_digits: &[],
                fraction: &self.fraction[digit_count - self.integer_digits.len()..],
            }
        }
    }

    // The number of zeros after the first `digit_count` bytes, up to the first byte that is not a zero.
    fn zeros_after(&self, digit_count: usize) -> usize
        requires { digit_count ≤ length self.now }
        ensures value { result ≡ prefix_len is_zero (drop digit_count self.now) }
        ensures within { digit_count + result ≤ length self.now }
    {
        let len = self.len();
        for digit_index in digit_count..len {
            if self.byte(digit_index) != b'0' {
                return digit_index - digit_count;
            }
        }
        len - digit_count
    }

    pub(crate) fn without_leading_zeros(self) -> Digits<'a>
        ensures { result ≡ without_leading_zeros self.entry }
    {
        let zeros = self.zeros_after(0);
        self.after(zeros)
    }

    pub(crate) fn has_only_zeros_after(&self, digit_count: usize) -> bool
        requires { digit_count ≤ length self.now }
        ensures { result ≡ list_all is_zero (drop digit_count self.now) }
    {
        self.zeros_after(digit_count) == self.len() - digit_count
    }

    // The number that the bytes denote, if all are digits.
    pub(crate) fn value(&self) -> Option<u128>
        requires { length self.now ≤ 34 }
        ensures { SomeIff result (AllDigits 10 self.now) (digits_value 10 self.now) }
    {
        let mut number = 0u128;
        for digit_index in 0..self.len() {
            let digit_byte = self.byte(digit_index);
            if !digit_byte.is_ascii_digit() {
                return None;
            }
            number = number * 10 + u128::from(digit_byte - b'0');
        }
        Some(number)
    }
}
