//! Writes the parts of a date and time, and the whole as `Display` writes it.
ghost use Rattle.std.specs.Prelude.{◌≡◌, ◌<◌, Some, ℤ};
ghost use Rattle.bson_datetime.specs.JiffConversion.{fields_of};
ghost use Rattle.bson_datetime.specs.DateTimeText.{two_digit_text, year_text, hour_text};
ghost use Rattle.bson_datetime.specs.DateTimeText.{thousandths_text, civil_text};
ghost use Rattle.jiff.specs.Words.{IsWithin};

use jiff::civil::DateTime;
use std::fmt;

// A number below 100, in two digits.
#[derive(Clone, Copy)]
pub(crate) struct TwoDigits {
    pub displayed_number: u8,
    pub ghost small: { displayed_number < 100 },
}

impl fmt::Display for TwoDigits {
    ghost output = { λ shown. Some (two_digit_text shown.displayed_number) };

    fn fmt<W: fmt::Write>(&self, formatter: &mut fmt::Formatter<W>) -> fmt::Result {
        let tens_digit = (b'0' + self.displayed_number / 10) as char;
        let ones_digit = (b'0' + self.displayed_number % 10) as char;
        write!(formatter, "{tens_digit}{ones_digit}")
    }
}

// An hour without a leading zero.
#[derive(Clone, Copy)]
pub(crate) struct Hour {
    pub displayed_number: u8,
    pub ghost small: { displayed_number < 100 },
}

impl fmt::Display for Hour {
    ghost output = { λ shown. Some (hour_text shown.displayed_number) };

    fn fmt<W: fmt::Write>(&self, formatter: &mut fmt::Formatter<W>) -> fmt::Result {
        let tens_digit = (b'0' + self.displayed_number / 10) as char;
        let ones_digit = (b'0' + self.displayed_number % 10) as char;
        if self.displayed_number < 10 {
            return write!(formatter, "{ones_digit}");
        }
        write!(formatter, "{tens_digit}{ones_digit}")
    }
}

// A fraction in thousandths: at least one digit, and no further zeros at the end.
#[derive(Clone, Copy)]
pub(crate) struct Fraction {
    pub displayed_number: u16,
    pub ghost small: { displayed_number < 1000 },
}

impl fmt::Display for Fraction {
    ghost output = { λ shown. Some (thousandths_text shown.displayed_number) };

    fn fmt<W: fmt::Write>(&self, formatter: &mut fmt::Formatter<W>) -> fmt::Result {
        let tenths_digit = (b'0' + (self.displayed_number / 100) as u8) as char;
        let hundredths_digit = (b'0' + (self.displayed_number / 10 % 10) as u8) as char;
        let thousandths_digit = (b'0' + (self.displayed_number % 10) as u8) as char;
        if self.displayed_number % 100 == 0 {
            return write!(formatter, "{tenths_digit}");
        }
        if self.displayed_number % 10 == 0 {
            return write!(formatter, "{tenths_digit}{hundredths_digit}");
        }
        write!(
            formatter,
            "{tenths_digit}{hundredths_digit}{thousandths_digit}"
        )
    }
}

// A year in four digits, after a minus sign if it is negative.
#[derive(Clone, Copy)]
pub(crate) struct Year {
    pub displayed_number: i16,
    pub ghost small: { IsWithin 9999 displayed_number },
}

impl fmt::Display for Year {
    ghost output = { λ shown. Some (year_text shown.displayed_number) };

    fn fmt<W: fmt::Write>(&self, formatter: &mut fmt::Formatter<W>) -> fmt::Result {
        let absolute_year = self.displayed_number.unsigned_abs();
        let century = TwoDigits {
            displayed_number: (absolute_year / 100) as u8,
        };
        let year_of_century = TwoDigits {
            displayed_number: (absolute_year % 100) as u8,
        };
        if self.displayed_number < 0 {
            return write!(formatter, "-{century}{year_of_century}");
        }
        write!(formatter, "{century}{year_of_century}")
    }
}

// A date and time, for example `2023-01-23 20:11:47.316 +00:00:00`.
#[derive(Clone, Copy)]
pub(crate) struct CivilText {
    pub jiff_time: DateTime,
}

impl fmt::Display for CivilText {
    ghost output = { λ shown. Some (civil_text (fields_of shown.jiff_time)) };

    fn fmt<W: fmt::Write>(&self, formatter: &mut fmt::Formatter<W>) -> fmt::Result {
        let jiff_time = self.jiff_time.to_plain();
        let year = Year {
            displayed_number: jiff_time.date.year,
        };
        let month = TwoDigits {
            displayed_number: jiff_time.date.month,
        };
        let day = TwoDigits {
            displayed_number: jiff_time.date.day,
        };
        let hour = Hour {
            displayed_number: jiff_time.time.hour,
        };
        let minute = TwoDigits {
            displayed_number: jiff_time.time.minute,
        };
        let second = TwoDigits {
            displayed_number: jiff_time.time.second,
        };
        let fraction = Fraction {
            displayed_number: (jiff_time.time.subsec_nanosecond / 1_000_000) as u16,
        };
        write!(
            formatter,
            "{year}-{month}-{day} {hour}:{minute}:{second}.{fraction} +00:00:00"
        )
    }
}
