//! The options of a call, in a struct of the caller.
ghost use Rattle.std.specs.Prelude.{◌≡◌, ◌↔◌, IsTrue};
ghost use Rattle.vbson.specs.Convert.{options_of_call, key_order_of, layout_of, duplicate_keys_of, preprocessing_of};
ghost use Rattle.vbson.specs.Options.{AreInvalid, AreNotForDecoding, AreNotForReading};

use bson::extjson::{Doubles, KeyOrder, Options};
use bson_codec::de::DuplicateKeys;
use bson_run::task::Preprocessing;
use bson_scalar::form::Layout;

/// Finite doubles are read and written.
pub const DOUBLES_FINITE: u32 = 1;

/// Documents have their keys in the order of the text, or in their own.
pub const KEYS_AS_GIVEN: u32 = 1;

/// Input with a duplicate key is rejected.
pub const DUPLICATE_KEYS_REJECT: u32 = 1;

/// Extended JSON v1 is read too.
pub const V1_ACCEPT: u32 = 1;

/// The two forms have the layout of libbson and PyMongo.
pub const LAYOUT_MONGODB: u32 = 1;

/// The size of `CallOptions` in bytes. A later version with more fields has another size.
pub(crate) const CALL_OPTIONS_SIZE: usize = 32;

/// The options of a call. Each field after the size is 0 for what the specification describes, or 1.
#[repr(C)]
#[derive(Clone, Copy)]
pub struct CallOptions {
    /// The size of this struct in bytes.
    pub size: usize,
    /// 0, or `DOUBLES_FINITE`.
    pub doubles: u32,
    /// 0 for ascending keys, or `KEYS_AS_GIVEN`.
    pub key_order: u32,
    /// 0 if the last value of a duplicate key wins, or `DUPLICATE_KEYS_REJECT`.
    pub duplicate_keys: u32,
    /// 0, or `V1_ACCEPT`.
    pub v1: u32,
    /// 0 for the layout that the specification describes, or `LAYOUT_MONGODB`.
    pub layout: u32,
}

/// Returns whether the struct has another size, or a field that is not one of its two values.
pub fn are_invalid(options: CallOptions) -> bool
    ensures { IsTrue result ↔ AreInvalid options }
{
    options.size != CALL_OPTIONS_SIZE
        || options.doubles > DOUBLES_FINITE
        || options.key_order > KEYS_AS_GIVEN
        || options.duplicate_keys > DUPLICATE_KEYS_REJECT
        || options.v1 > V1_ACCEPT
        || options.layout > LAYOUT_MONGODB
}

/// Returns whether a call that decodes bytes rejects the options: they are invalid, or they request
/// Extended JSON v1, which bytes do not have.
pub fn are_not_for_decoding(options: CallOptions) -> bool
    ensures { IsTrue result ↔ AreNotForDecoding options }
{
    are_invalid(options) || options.v1 == V1_ACCEPT
}

/// Returns whether a call that only reads values rejects the options: they are invalid, or they
/// request an order of keys or a layout.
pub fn are_not_for_reading(options: CallOptions) -> bool
    ensures { IsTrue result ↔ AreNotForReading options }
{
    are_invalid(options) || options.key_order == KEYS_AS_GIVEN || options.layout == LAYOUT_MONGODB
}

/// Returns the options of a conversion.
pub fn options_of(options: CallOptions) -> Options
    ensures { result ≡ options_of_call options }
{
    let doubles = if options.doubles == DOUBLES_FINITE {
        Doubles::Finite
    } else {
        Doubles::Special
    };
    Options {
        doubles,
        key_order: key_order_of(options),
        layout: layout_of(options),
    }
}

// Returns the order of keys.
fn key_order_of(options: CallOptions) -> KeyOrder
    ensures { result ≡ key_order_of options }
{
    if options.key_order == KEYS_AS_GIVEN {
        KeyOrder::AsGiven
    } else {
        KeyOrder::Ascending
    }
}

// Returns the layout.
fn layout_of(options: CallOptions) -> Layout
    ensures { result ≡ layout_of options }
{
    if options.layout == LAYOUT_MONGODB {
        Layout::MongoDb
    } else {
        Layout::Specified
    }
}

/// Returns the preprocessing that the options request for a text.
pub fn preprocessing_of(options: CallOptions) -> Preprocessing
    ensures { result ≡ preprocessing_of options }
{
    Preprocessing {
        duplicate_keys: duplicate_keys_of(options),
        v1: options.v1 == V1_ACCEPT,
    }
}

/// Returns whether the options reject input with a duplicate key.
pub fn duplicate_keys_of(options: CallOptions) -> DuplicateKeys
    ensures { result ≡ duplicate_keys_of options }
{
    if options.duplicate_keys == DUPLICATE_KEYS_REJECT {
        DuplicateKeys::Reject
    } else {
        DuplicateKeys::LastWins
    }
}
