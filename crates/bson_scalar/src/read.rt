//! Reads an object of one wrapper key: the table of wrappers and what each holds.
ghost use Rattle.serde_json.specs.View.{view};
ghost use Rattle.bson_scalar.specs.Faults.{IsReadResult};
ghost use Rattle.bson_scalar.specs.Reading.{wrapper_read_in, optional_wrapper_read_in};
ghost use Rattle.bson_scalar.specs.Table.{wrapper_of};
ghost use Rattle.bson_scalar.specs.View.{scalar_view};

use crate::binaries::{read_binary, read_uuid};
use crate::constants::{read_max_key, read_min_key, read_undefined};
use crate::dates::read_date;
use crate::decimals::read_decimal;
use crate::doubles::read_double;
use crate::error::Error;
use crate::form::Doubles;
use crate::ids::{read_oid, read_pointer};
use crate::ints::{read_int32, read_int64};
use crate::regexes::read_regex;
use crate::scalar::Scalar;
use crate::texts::{read_code, read_symbol};
use crate::timestamps::read_timestamp;
use crate::wrapper::{Wrapper, wrapper_named};
use serde_json::Value;
use std::alloc::Global;

/// Returns the meaning of the value under this wrapper's key.
///
/// # Errors
///
/// - `InvalidObjectId`: the text of an object id is wrong, and everything else is right.
/// - `DeserializationError`: this wrapper does not accept the value for another reason.
/// - `OutOfMemory`: a request for memory was refused.
pub fn read_wrapper(
    alloc: Global,
    doubles: Doubles,
    wrapper: Wrapper,
    value: Value,
) -> Result<Scalar, Error>
    ensures { IsReadResult scalar_view result (wrapper_read_in doubles wrapper (view value)) }
{
    match wrapper {
        Wrapper::Oid => read_oid(alloc, value),
        Wrapper::Symbol => read_symbol(value),
        Wrapper::RegularExpression => read_regex(alloc, value),
        Wrapper::NumberInt => read_int32(value),
        Wrapper::NumberLong => read_int64(value),
        Wrapper::NumberDouble => read_double(doubles, value),
        Wrapper::NumberDecimal => read_decimal(value),
        Wrapper::Binary => read_binary(alloc, value),
        Wrapper::Uuid => read_uuid(alloc, value),
        Wrapper::Code => read_code(value),
        Wrapper::Timestamp => read_timestamp(value),
        Wrapper::Date => read_date(value),
        Wrapper::MinKey => read_min_key(value),
        Wrapper::MaxKey => read_max_key(value),
        Wrapper::DbPointer => read_pointer(alloc, value),
        Wrapper::Undefined => read_undefined(value),
    }
}

/// Returns the meaning of an object with this one key.
///
/// # Errors
///
/// - `InvalidObjectId`: the text of an object id is wrong, and everything else is right.
/// - `DeserializationError`: the key is not a wrapper key, or its wrapper does not accept the value
///   for another reason.
/// - `OutOfMemory`: a request for memory was refused.
pub fn read_single_key_in(
    alloc: Global,
    doubles: Doubles,
    key: &str,
    value: Value,
) -> Result<Scalar, Error>
    ensures { IsReadResult scalar_view result (optional_wrapper_read_in doubles (wrapper_of key.now) (view value)) }
{
    match wrapper_named(key) {
        Some(wrapper) => read_wrapper(alloc, doubles, wrapper, value),
        None => Err(Error::DeserializationError {
            message: "an object of one wrapper key",
        }),
    }
}
