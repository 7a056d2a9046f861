//! The timestamp that MongoDB uses internally (BSON 1.1, type 0x11).
ghost use Rattle.std.specs.Prelude.{Some};

use std::fmt;

/// Seconds since 1970-01-01T00:00:00Z, and a counter within that second. Ordered by time, then by
/// increment. The type for other dates is `DateTime`.
///
/// ```
/// let time = 1_590_972_160;
/// let increment = 1;
/// println!(rt; "{}", Timestamp { time, increment })?; // Timestamp(1590972160, 1)
/// ```
#[derive(Clone, Copy, Debug, PartialEq, Eq, PartialOrd, Ord, Hash)]
pub struct Timestamp {
    /// Whole seconds since 1970-01-01T00:00:00Z.
    pub time: u32,
    /// Which of the operations of that second.
    pub increment: u32,
}

impl fmt::Display for Timestamp {
    ghost use Rattle.bson_types.specs.Timestamp.{timestamp_text};

    ghost output = { λ timestamp. Some (timestamp_text timestamp) };

    fn fmt<W: fmt::Write>(&self, formatter: &mut fmt::Formatter<W>) -> fmt::Result {
        write!(formatter, "Timestamp({}, {})", self.time, self.increment)
    }
}
