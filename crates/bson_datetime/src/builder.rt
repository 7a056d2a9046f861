//! A builder of date-times whose states are types: `build` can be called once year, month and day
//! are set.
ghost use Rattle.std.specs.Prelude.{◌≡◌, ◌↔◌, IsOk, IfOk, IfErr};
ghost use Rattle.jiff.specs.Words.{IsEpochDay};
ghost use Rattle.jiff_core.specs.Calendar.{IsCivilDate, days_from_civil};
ghost use Rattle.bson_datetime.specs.Errors.{IsInvalidWithMessage, IsInvalidTimestamp};
ghost use Rattle.bson_datetime.specs.CivilTime.{IsCivilDateTime, HasCivilTime, IsTimeOfDay, civil_of_millis};

use crate::error::Message;
use crate::{DateTime, Error, Result};
use jiff::civil::Date;

/// The year is set.
#[derive(Drop)]
pub struct Year {
    calendar_value: i32,
}

/// The year is not set.
#[derive(Drop)]
pub struct NoYear {}

/// The month is set.
#[derive(Drop)]
pub struct Month {
    calendar_value: u8,
}

/// The month is not set.
#[derive(Drop)]
pub struct NoMonth {}

/// The day of the month is set.
#[derive(Drop)]
pub struct Day {
    calendar_value: u8,
}

/// The day of the month is not set.
#[derive(Drop)]
pub struct NoDay {}

/// Builds a `DateTime` from a date and a time in UTC.
///
/// Year, month and day are set once each. A part of the time that is not set is 0.
///
/// ```
/// let empty: DateTimeBuilder<NoYear, NoMonth, NoDay> = DateTime::builder();
/// let day: DateTimeBuilder<Year, Month, Day> = empty.year(2020).month(6).day(1);
/// let noon = day.hour(12).build()?;
/// println!(rt; "{noon}")?; // 2020-06-01 12:00:00.0 +00:00:00
/// ```
#[derive(Drop)]
pub struct DateTimeBuilder<Y = NoYear, M = NoMonth, D = NoDay> {
    year: Y,
    month: M,
    day: D,
    time: TimeOfDay,
}

/// The parts of the time of day that are set.
#[derive(Drop)]
struct TimeOfDay {
    hour: Option<u8>,
    minute: Option<u8>,
    second: Option<u8>,
    millisecond: Option<u16>,
}

impl Default for DateTimeBuilder<NoYear, NoMonth, NoDay> {
    ghost use Rattle.bson_datetime.specs.Builder.{empty_builder};

    ghost is_default = { λ builder. builder ≡ empty_builder };

    fn default() -> Self {
        DateTimeBuilder {
            year: NoYear {},
            month: NoMonth {},
            day: NoDay {},
            time: TimeOfDay {
                hour: None,
                minute: None,
                second: None,
                millisecond: None,
            },
        }
    }
}

impl<M, D> DateTimeBuilder<NoYear, M, D> {
    ghost use Rattle.bson_datetime.specs.Builder.{with_year};

    /// Sets the year, from -9999 to 9999.
    pub fn year(self, year: i32) -> DateTimeBuilder<Year, M, D>
        ensures { result ≡ with_year year self }
    {
        DateTimeBuilder {
            year: Year {
                calendar_value: year,
            },
            month: self.month,
            day: self.day,
            time: self.time,
        }
    }
}

impl<Y, D> DateTimeBuilder<Y, NoMonth, D> {
    ghost use Rattle.bson_datetime.specs.Builder.{with_month};

    /// Sets the month, from 1 for January to 12 for December.
    pub fn month(self, month: u8) -> DateTimeBuilder<Y, Month, D>
        ensures { result ≡ with_month month self }
    {
        DateTimeBuilder {
            year: self.year,
            month: Month {
                calendar_value: month,
            },
            day: self.day,
            time: self.time,
        }
    }
}

impl<Y, M> DateTimeBuilder<Y, M, NoDay> {
    ghost use Rattle.bson_datetime.specs.Builder.{with_day};

    /// Sets the day of the month, from 1 to the last that the month has.
    pub fn day(self, day: u8) -> DateTimeBuilder<Y, M, Day>
        ensures { result ≡ with_day day self }
    {
        DateTimeBuilder {
            year: self.year,
            month: self.month,
            day: Day {
                calendar_value: day,
            },
            time: self.time,
        }
    }
}

impl<Y, M, D> DateTimeBuilder<Y, M, D> {
    ghost use Rattle.bson_datetime.specs.Builder.{with_hour, with_minute, with_second};
    ghost use Rattle.bson_datetime.specs.Builder.{with_millisecond};

    /// Sets the hour, from 0 to 23. The last call counts.
    pub fn hour(mut self, hour: u8) -> DateTimeBuilder<Y, M, D>
        ensures { result ≡ with_hour hour self }
    {
        self.time.hour = Some(hour);
        self
    }

    /// Sets the minute, from 0 to 59. The last call counts.
    pub fn minute(mut self, minute: u8) -> DateTimeBuilder<Y, M, D>
        ensures { result ≡ with_minute minute self }
    {
        self.time.minute = Some(minute);
        self
    }

    /// Sets the second, from 0 to 59. The last call counts.
    pub fn second(mut self, second: u8) -> DateTimeBuilder<Y, M, D>
        ensures { result ≡ with_second second self }
    {
        self.time.second = Some(second);
        self
    }

    /// Sets the millisecond, from 0 to 999. The last call counts.
    pub fn millisecond(mut self, millisecond: u16) -> DateTimeBuilder<Y, M, D>
        ensures { result ≡ with_millisecond millisecond self }
    {
        self.time.millisecond = Some(millisecond);
        self
    }
}

impl DateTimeBuilder<Year, Month, Day> {
    ghost use Rattle.bson_datetime.specs.Builder.{civil_fields};

    /// Returns the date-time with the date and time that were set, on the proleptic Gregorian
    /// calendar.
    ///
    /// # Errors
    ///
    /// - `InvalidTimestamp` with `NoSuchTime`: the time of day is out of range.
    /// - `InvalidTimestamp` with `NoSuchDay`: the time of day is in range, and the date is out of
    ///   range or does not exist.
    pub fn build(self) -> Result<DateTime>
        ensures exists { IsOk result ↔ IsCivilDateTime (civil_fields self) }
        ensures value { IfOk result (λ built_millis. HasCivilTime built_millis (civil_fields self)) }
        ensures fields { IfOk result (λ built_millis. civil_of_millis built_millis ≡ civil_fields self) }
        ensures err { IfErr result IsInvalidTimestamp }
        ensures time { ¬ (IsTimeOfDay (civil_fields self)) → IfErr result (IsInvalidWithMessage Message.NoSuchTime) }
        ensures day { IsTimeOfDay (civil_fields self) → IfErr result (IsInvalidWithMessage Message.NoSuchDay) }
    {
        let hour = self.time.hour.unwrap_or(0);
        let minute = self.time.minute.unwrap_or(0);
        let second = self.time.second.unwrap_or(0);
        let millisecond = self.time.millisecond.unwrap_or(0);
        if hour > 23 || minute > 59 || second > 59 || millisecond > 999 {
            return Err(NO_SUCH_TIME);
        }
        let day = day_number(
            self.year.calendar_value,
            self.month.calendar_value,
            self.day.calendar_value,
        )?;
        let seconds = hour as u32 * 3600 + minute as u32 * 60 + second as u32;
        let time = seconds * 1000 + millisecond as u32;
        Ok(DateTime::from_millis(day * 86_400_000 + time as i64))
    }
}

// How many days after 1970-01-01 a day is, if the calendar has the day.
fn day_number(year: i32, month: u8, day: u8) -> Result<i64>
    ensures exists { IsOk result ↔ IsCivilDate year month day }
    ensures value { IfOk result (λ epoch_day. epoch_day ≡ days_from_civil year month day) }
    ensures bound { IfOk result IsEpochDay }
    ensures err { IfErr result (IsInvalidWithMessage Message.NoSuchDay) }
{
    if year < -9999 || year > 9999 || month > 12 || day > 31 {
        return Err(NO_SUCH_DAY);
    }
    match Date::new(year as i16, month as i8, day as i8) {
        Ok(date) => Ok(date.to_plain().to_unix_epoch_day() as i64),
        Err(_) => Err(NO_SUCH_DAY),
    }
}

const NO_SUCH_DAY: Error = Error::InvalidTimestamp {
    message: Message::NoSuchDay,
};

const NO_SUCH_TIME: Error = Error::InvalidTimestamp {
    message: Message::NoSuchTime,
};
