//! The sixteen wrapper keys of MongoDB Extended JSON v2.
ghost use Rattle.std.specs.Prelude.{◌≡◌, IsTrue, None};
ghost use Rattle.bson_scalar.specs.Table.{wrapper_of, later_wrapper, number_or_later_wrapper, timestamp_or_later_wrapper};

/// A wrapper: an object, recognized by its key, that denotes a value which JSON has no form for.
#[derive(Clone, Copy, Debug, Drop, PartialEq, Eq)]
pub enum Wrapper {
    /// `$oid`
    Oid,
    /// `$symbol`
    Symbol,
    /// `$regularExpression`
    RegularExpression,
    /// `$numberInt`
    NumberInt,
    /// `$numberLong`
    NumberLong,
    /// `$numberDouble`
    NumberDouble,
    /// `$numberDecimal`
    NumberDecimal,
    /// `$binary`
    Binary,
    /// `$uuid`
    Uuid,
    /// `$code`
    Code,
    /// `$timestamp`
    Timestamp,
    /// `$date`
    Date,
    /// `$minKey`
    MinKey,
    /// `$maxKey`
    MaxKey,
    /// `$dbPointer`
    DbPointer,
    /// `$undefined`
    Undefined,
}

// A key whose first byte is not `$` is no wrapper key: a cheap test, since most keys are ordinary.
fn is_ordinary_key(key: &str) -> bool
    ensures { IsTrue result → wrapper_of key.now ≡ None }
{
    let bytes = key.as_bytes();
    bytes.is_empty() || bytes[0] != b'$'
}

/// Returns the wrapper of a key.
pub fn wrapper_named(key: &str) -> Option<Wrapper>
    ensures { result ≡ wrapper_of key.now }
{
    if is_ordinary_key(key) {
        None
    } else if key == "$oid" {
        Some(Wrapper::Oid)
    } else if key == "$symbol" {
        Some(Wrapper::Symbol)
    } else if key == "$regularExpression" {
        Some(Wrapper::RegularExpression)
    } else if key == "$binary" {
        Some(Wrapper::Binary)
    } else {
        later_wrapper(key)
    }
}

// Of the keys that are left: UUIDs, code and pointers.
fn later_wrapper(key: &str) -> Option<Wrapper>
    ensures { result ≡ later_wrapper key.now }
{
    if key == "$uuid" {
        Some(Wrapper::Uuid)
    } else if key == "$code" {
        Some(Wrapper::Code)
    } else if key == "$dbPointer" {
        Some(Wrapper::DbPointer)
    } else {
        number_or_later_wrapper(key)
    }
}

// Of the keys that are left: the numbers.
fn number_or_later_wrapper(key: &str) -> Option<Wrapper>
    ensures { result ≡ number_or_later_wrapper key.now }
{
    if key == "$numberInt" {
        Some(Wrapper::NumberInt)
    } else if key == "$numberLong" {
        Some(Wrapper::NumberLong)
    } else if key == "$numberDouble" {
        Some(Wrapper::NumberDouble)
    } else if key == "$numberDecimal" {
        Some(Wrapper::NumberDecimal)
    } else {
        timestamp_or_later_wrapper(key)
    }
}

// Of the keys that are left: times, and the kinds of one value.
fn timestamp_or_later_wrapper(key: &str) -> Option<Wrapper>
    ensures { result ≡ timestamp_or_later_wrapper key.now }
{
    if key == "$timestamp" {
        Some(Wrapper::Timestamp)
    } else if key == "$date" {
        Some(Wrapper::Date)
    } else if key == "$minKey" {
        Some(Wrapper::MinKey)
    } else if key == "$maxKey" {
        Some(Wrapper::MaxKey)
    } else if key == "$undefined" {
        Some(Wrapper::Undefined)
    } else {
        None
    }
}
