//! `date CALL ARGS`: the calls of dates. A moment is a number of milliseconds, MIN or MAX.
use crate::arguments::{parse_number, split_at_colon, split_at_space};
use crate::row_error::{RowError, RowResult};
use crate::row_output::RowOutput;
use bson::DateTime;
use bson::datetime::{DateTimeBuilder, Day, Month, Year};
use std::time::Duration;

pub(crate) fn run_call(remaining_args: &str, output_line: &mut RowOutput) -> RowResult {
    let (call_name, text) = split_at_space(remaining_args);
    match call_name {
        "read" => write_date_time(DateTime::parse_rfc3339_str(text), output_line),
        "build" => build_date_time(text, output_line),
        _ => run_call_on_date(call_name, text, output_line),
    }
}

fn parse_date_time(text: &str) -> Result<DateTime, RowError> {
    match text {
        "MIN" => Ok(DateTime::MIN),
        "MAX" => Ok(DateTime::MAX),
        _ => Ok(DateTime::from_millis(parse_number::<i64>(text)?)),
    }
}

fn write_date_time(
    parsed: bson::datetime::Result<DateTime>,
    output_line: &mut RowOutput,
) -> RowResult {
    match parsed {
        Ok(date_time) => output_line.write_display(&date_time.timestamp_millis()),
        Err(error) => output_line.write_error(&error),
    }
    Ok(())
}

/// The calls on a moment.
fn run_call_on_date(call_name: &str, text: &str, output_line: &mut RowOutput) -> RowResult {
    let alloc = output_line.alloc;
    let (date_time, remaining_args) = split_at_space(text);
    let date_time = parse_date_time(date_time)?;
    match call_name {
        "written" => output_line.write_result(date_time.try_to_rfc3339_string(alloc)),
        "written_millis" => output_line.write_result(date_time.try_to_rfc3339_millis_string(alloc)),
        "shown" => output_line.write_value(&date_time),
        "order" => output_line.write_ordering(date_time, parse_date_time(remaining_args)?),
        "since" => write_difference(date_time, parse_date_time(remaining_args)?, output_line),
        "add_millis" => output_line.write_display(
            &date_time
                .saturating_add_millis(parse_number::<i64>(remaining_args)?)
                .timestamp_millis(),
        ),
        "add_duration" => output_line.write_display(
            &date_time
                .saturating_add_duration(parse_duration(remaining_args)?)
                .timestamp_millis(),
        ),
        _ => return Err(RowError::InvalidRow),
    }
    Ok(())
}

/// `YEAR MONTH DAY` and then any of `hour:H minute:M second:S millisecond:MS`, of which the last
/// call of each counts.
fn build_date_time(text: &str, output_line: &mut RowOutput) -> RowResult {
    let (year, remaining_args) = split_at_space(text);
    let (month, remaining_args) = split_at_space(remaining_args);
    let (day, remaining_args) = split_at_space(remaining_args);
    let mut builder = DateTime::builder()
        .day(parse_number::<u8>(day)?)
        .year(parse_number::<i32>(year)?)
        .month(parse_number::<u8>(month)?);
    for unit_and_amount in remaining_args.split_whitespace() {
        builder = with_time_unit(builder, unit_and_amount)?;
    }
    write_date_time(builder.build(), output_line)
}

type Builder = DateTimeBuilder<Year, Month, Day>;

fn with_time_unit(builder: Builder, unit_and_amount: &str) -> Result<Builder, RowError> {
    let (unit, amount) = split_at_colon(unit_and_amount);
    let amount = parse_number::<u16>(amount)?;
    if unit == "millisecond" {
        return Ok(builder.millisecond(amount));
    }
    let Ok(amount) = u8::try_from(amount) else {
        return Err(RowError::InvalidRow);
    };
    match unit {
        "hour" => Ok(builder.hour(amount)),
        "minute" => Ok(builder.minute(amount)),
        _ => Ok(builder.second(amount)),
    }
}

/// `Nms` or `Nus`.
fn parse_duration(text: &str) -> Result<Duration, RowError> {
    if let Some(micros) = text.strip_suffix("us") {
        return Ok(Duration::from_micros(parse_number::<u64>(micros)?));
    }
    match text.strip_suffix("ms") {
        Some(millis) => Ok(Duration::from_millis(parse_number::<u64>(millis)?)),
        None => Err(RowError::InvalidRow),
    }
}

/// Writes the checked difference, and then the saturating one.
fn write_difference(date_time: DateTime, earlier: DateTime, output_line: &mut RowOutput) {
    match date_time.checked_duration_since(earlier) {
        Some(difference) => write_millis(difference, output_line),
        None => output_line.write_str("None"),
    }
    output_line.write_str(", ");
    write_millis(date_time.saturating_duration_since(earlier), output_line);
}

fn write_millis(difference: Duration, output_line: &mut RowOutput) {
    output_line.write_display(&difference.as_millis());
    output_line.write_str(" ms");
}
