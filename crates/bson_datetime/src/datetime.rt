//! `DateTime`, a number of milliseconds since 1970-01-01T00:00:00Z: its sums, its parsing from
//! RFC 3339, and its formatting.
ghost use Rattle.std.specs.Prelude.{◌≡◌, ◌↔◌, pos, ℤ, ◌+ℤ◌, ◌-ℤ◌, ◌<ℤ◌, IsSome, IsNone, IfSome};
ghost use Rattle.std.specs.Int.{saturate_signed, w64};
ghost use Rattle.std.specs.Duration.{as_nanos};
ghost use Rattle.bson_datetime.specs.CivilTime.{CivilDateTime, HasCivilTime, IsCivilMillis, civil_of_millis};
ghost use Rattle.bson_datetime.specs.DateTimeSums.{saturating_sum, millis_since, nanos_of_millis};
ghost use Rattle.bson_datetime.specs.JiffConversion.{HasJiffTime};

use crate::builder::{DateTimeBuilder, NoDay, NoMonth, NoYear};
use crate::display::CivilText;
use crate::error::Message;
use crate::{Error, Result, rfc3339};
use jiff::civil;
use jiff_fmt::temporal::DateTimePrinter;
use std::alloc::Global;
use std::fmt;
use std::marker::Model;
use std::time::Duration;

/// A date-time, to the millisecond: BSON's UTC datetime, a signed number of 64 bits (BSON 1.1).
///
/// The years -9999 to 9999 have a date, on the proleptic Gregorian calendar.
///
/// ```
/// let moment = DateTime::parse_rfc3339_str("2020-06-01T00:42:40Z")?;
/// println!(rt; "{}", moment.timestamp_millis())?; // 1590972160000
/// println!(rt; "{moment}")?; // 2020-06-01 0:42:40.0 +00:00:00
/// ```
#[derive(Clone, Copy, PartialEq, Eq, PartialOrd, Ord, Hash)]
pub struct DateTime {
    millis: i64,
}

impl Model for DateTime {
    ghost Value = { ℤ };

    ghost view = { λ date_time. date_time.millis };

    ghost inverse = { λ number. record { millis = number } };
}

impl DateTime {
    ghost use Rattle.bson_datetime.specs.Builder.{empty_builder};

    /// The last date-time: 2^63 - 1 milliseconds after 1970-01-01T00:00:00Z.
    pub const MAX: DateTime = DateTime { millis: i64::MAX };

    /// The first date-time: 2^63 milliseconds before 1970-01-01T00:00:00Z.
    pub const MIN: DateTime = DateTime { millis: i64::MIN };

    /// Makes a builder with no field set.
    pub fn builder() -> DateTimeBuilder<NoYear, NoMonth, NoDay>
        ensures { result ≡ empty_builder }
    {
        DateTimeBuilder::default()
    }

    /// Makes the date-time this number of milliseconds after 1970-01-01T00:00:00Z, or before it if
    /// the number is negative.
    pub fn from_millis(millis: i64) -> DateTime
        ensures { result ≡ millis }
    {
        DateTime { millis }
    }

    /// Returns the milliseconds since 1970-01-01T00:00:00Z, negative before it.
    pub fn timestamp_millis(self) -> i64
        ensures value { result ≡ self }

        // A date-time of the years -9999 to 9999 has one date and time, which its strings show.
        // No other date-time has one.
        ensures exists { IsCivilMillis self → HasCivilTime self (civil_of_millis self) }
        ensures only { (civil_time : CivilDateTime) → HasCivilTime self civil_time
            → IsCivilMillis self × (civil_of_millis self ≡ civil_time) }
    {
        self.millis
    }

    /// Adds this number of milliseconds, and cuts the sum to `MIN` and `MAX`.
    pub fn saturating_add_millis(self, millis: i64) -> DateTime
        ensures { result ≡ saturate_signed w64 (self +ℤ millis) }
    {
        match self.millis.checked_add(millis) {
            Some(sum) => DateTime { millis: sum },
            None if millis < 0 => DateTime::MIN,
            None => DateTime::MAX,
        }
    }

    /// Adds the whole milliseconds of a duration exactly, but returns no date-time later than
    /// `MAX`.
    pub fn saturating_add_duration(self, duration: Duration) -> DateTime
        ensures { result ≡ saturating_sum self duration }
    {
        let sum = self.millis as i128 + duration.as_millis() as i128;
        DateTime {
            millis: sum.min(DateTime::MAX.millis as i128) as i64,
        }
    }

    /// Returns the exact time since `earlier`, or `None` if `earlier` is later than this date-time.
    pub fn checked_duration_since(self, earlier: DateTime) -> Option<Duration>
        ensures none { IsNone result ↔ (self <ℤ earlier) }
        ensures value { IfSome result (λ duration. pos (as_nanos duration) ≡ nanos_of_millis (self -ℤ earlier)) }
    {
        if self.millis < earlier.millis {
            return None;
        }
        Some(Duration::from_millis(self.millis.abs_diff(earlier.millis)))
    }

    /// Returns the exact time since `earlier`, or zero if `earlier` is later than this date-time.
    pub fn saturating_duration_since(self, earlier: DateTime) -> Duration
        ensures { pos (as_nanos result) ≡ nanos_of_millis (millis_since self earlier) }
    {
        match self.checked_duration_since(earlier) {
            Some(elapsed) => elapsed,
            None => Duration::ZERO,
        }
    }

    // The date and time, if the year is -9999 to 9999.
    pub(crate) fn civil(self) -> Option<civil::DateTime>
        ensures exists { IsSome result ↔ IsCivilMillis self }
        ensures value { IfSome result (HasJiffTime self) }
        ensures fields { IsCivilMillis self → HasCivilTime self (civil_of_millis self) }
    {
        match jiff_core::civil::DateTime::from_nanosecond(self.millis as i128 * 1_000_000) {
            Ok(jiff_time) => Some(civil::DateTime::from_plain(jiff_time)),
            Err(_) => None,
        }
    }
}

impl DateTime {
    ghost use Rattle.std.specs.Prelude.{Ok, Some, OnOk, IfOk, IfErr, string_bytes, ◌⊎◌};
    ghost use Rattle.bson_datetime.specs.CivilTime.{IsRfc3339Millis};
    ghost use Rattle.bson_datetime.specs.Rfc3339Parser.{parsed_rfc3339_millis};
    ghost use Rattle.bson_datetime.specs.Rfc3339Grammar.{DenotesDateTime};
    ghost use Rattle.bson_datetime.specs.DateTimeText.{rfc3339_text, civil_rfc3339_text};
    ghost use Rattle.bson_datetime.specs.DateTimeText.{rfc3339_millis_text, civil_rfc3339_millis_text};
    ghost use Rattle.bson_datetime.specs.Errors.{IsCannotFormat, IsInvalidWithMessage, IsInvalidTimestamp};
    ghost use Rattle.bson_datetime.specs.Errors.{IsOutOfMemory};

    /// Writes the RFC 3339 string (section 5.6) in UTC, for example `1998-02-12T00:01:00.023Z`. The
    /// fraction has no zeros at its end, and a fraction of zero is not written. Parsing the string
    /// returns this date-time.
    ///
    /// # Errors
    ///
    /// - `CannotFormat`: the date-time is outside the years 0000 to 9999.
    /// - `OutOfMemory`: a request for memory was refused.
    pub fn try_to_rfc3339_string(self, alloc: Global) -> Result<String>
        ensures ok { IfOk result (λ text. string_bytes text ≡ rfc3339_text self) }
        ensures fields { IfOk result
            (λ text. (civil_time : CivilDateTime) → HasCivilTime self civil_time
            → string_bytes text ≡ civil_rfc3339_text civil_time) }
        ensures reads_back { IfOk result (λ text. DenotesDateTime (string_bytes text) self) }

        ensures in_years { OnOk result (IsRfc3339Millis self) }
        ensures err { IfErr result (λ error. (IsCannotFormat error × ¬ (IsRfc3339Millis self)) ⊎ IsOutOfMemory error) }
    {
        let Some(jiff_time) = self.civil() else {
            return Err(CANNOT_FORMAT);
        };
        if jiff_time.year() < 0 {
            return Err(CANNOT_FORMAT);
        }
        match format!(in alloc; "{jiff_time}Z") {
            Ok(text) => Ok(text),
            Err(_) => Err(Error::OutOfMemory),
        }
    }

    /// Writes the RFC 3339 string in UTC with milliseconds, for example `1998-02-12T00:01:00.500Z`: as
    /// [`try_to_rfc3339_string`](DateTime::try_to_rfc3339_string), but a fraction has three digits.
    ///
    /// # Errors
    ///
    /// The errors of `try_to_rfc3339_string`.
    ///
    /// ```
    /// let moment = DateTime::from_millis(500);
    /// println!(rt; "{}", moment.try_to_rfc3339_millis_string(alloc)?)?; // 1970-01-01T00:00:00.500Z
    /// println!(rt; "{}", moment.try_to_rfc3339_string(alloc)?)?; // 1970-01-01T00:00:00.5Z
    /// ```
    pub fn try_to_rfc3339_millis_string(self, alloc: Global) -> Result<String>
        ensures ok { IfOk result (λ text. string_bytes text ≡ rfc3339_millis_text self) }
        ensures fields { IfOk result
            (λ text. (civil_time : CivilDateTime) → HasCivilTime self civil_time
            → string_bytes text ≡ civil_rfc3339_millis_text civil_time) }
        ensures reads_back { IfOk result (λ text. DenotesDateTime (string_bytes text) self) }
        ensures in_years { OnOk result (IsRfc3339Millis self) }
        ensures err { IfErr result (λ error. (IsCannotFormat error × ¬ (IsRfc3339Millis self)) ⊎ IsOutOfMemory error) }
    {
        let Some(jiff_time) = self.civil() else {
            return Err(CANNOT_FORMAT);
        };
        if jiff_time.year() < 0 {
            return Err(CANNOT_FORMAT);
        }
        let plain_time = jiff_time.to_plain();
        if plain_time.time.subsec_nanosecond == 0 {
            return self.try_to_rfc3339_string(alloc);
        }
        let printer = DateTimePrinter::new().precision(Some(3));
        let text = printer.datetime_text(plain_time);
        let text = text.as_str();
        match format!(in alloc; "{text}Z") {
            Ok(text) => Ok(text),
            Err(_) => Err(Error::OutOfMemory),
        }
    }

    /// Parses an RFC 3339 string (section 5.6): `YYYY-MM-DDThh:mm:ss`, an optional fraction, and `Z`
    /// or an offset.
    ///
    /// T and Z may be small letters. Nine digits of the fraction count, and the nanoseconds since
    /// 1970-01-01T00:00:00Z are cut to milliseconds towards zero.
    ///
    /// # Errors
    ///
    /// - `InvalidTimestamp` with `NotRfc3339`: the string has another form, or one of its parts is
    ///   out of range. A second of 60 is out of range.
    pub fn parse_rfc3339_str(text: &str) -> Result<DateTime>
        ensures ok { IfOk result (λ denoted_millis. DenotesDateTime text.now denoted_millis) }
        ensures refused { IfErr result
            (λ error. IsInvalidTimestamp error × ((denoted_millis : ℤ) → ¬ (DenotesDateTime text.now denoted_millis))) }
        ensures message { IfErr result (IsInvalidWithMessage Message.NotRfc3339) }

        // A string denotes at most one date-time. `parsed_rfc3339_millis`, which reads it from its start,
        // returns this one.
        ensures one { (millis other_millis : ℤ) → DenotesDateTime text.now millis
            → DenotesDateTime text.now other_millis → millis ≡ other_millis }
        ensures grammar { (denoted_millis : ℤ)
            → (parsed_rfc3339_millis text.now ≡ Some denoted_millis) ↔ DenotesDateTime text.now denoted_millis }

        // Every date-time of the years 0000 to 9999 round-trips through its string.
        ensures round_trip { (denoted_millis : ℤ) → IsRfc3339Millis denoted_millis
            → text.now ≡ rfc3339_text denoted_millis → result ≡ Ok denoted_millis }
    {
        match rfc3339::parse(text.as_bytes()) {
            Some(millis) => Ok(DateTime::from_millis(millis)),
            None => Err(NOT_RFC3339),
        }
    }
}

const CANNOT_FORMAT: Error = Error::CannotFormat {
    message: Message::YearOutOfRange,
};

const NOT_RFC3339: Error = Error::InvalidTimestamp {
    message: Message::NotRfc3339,
};

/// Writes it for example as `2023-01-23 20:11:47.316 +00:00:00`, and outside the years -9999 to
/// 9999 as the milliseconds in decimal.
impl fmt::Display for DateTime {
    ghost use Rattle.std.specs.Prelude.{Some};
    ghost use Rattle.bson_datetime.specs.DateTimeText.{date_time_text};

    ghost output = { λ millis. Some (date_time_text millis) };

    fn fmt<W: fmt::Write>(&self, formatter: &mut fmt::Formatter<W>) -> fmt::Result {
        let Some(jiff_time) = self.civil() else {
            let millis = self.millis;
            return write!(formatter, "{millis}");
        };
        let text = CivilText { jiff_time };
        write!(formatter, "{text}")
    }
}

/// Writes it for example as `DateTime(2023-01-23 20:11:47.316 +00:00:00)`.
impl fmt::Debug for DateTime {
    fn fmt<W: fmt::Write>(&self, formatter: &mut fmt::Formatter<W>) -> fmt::Result {
        write!(formatter, "DateTime({self})")
    }
}
