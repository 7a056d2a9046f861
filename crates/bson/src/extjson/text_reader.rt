//! Values from texts, with no tree of the whole.
//!
//! In reading order: `retry` (what is read if a text is not read at once) and `sorted_members` (the members
//! of an object in ascending order of keys).
ghost use Rattle.std.specs.Prelude.{◌≡◌, IfOk, IfErr};
ghost use Rattle.serde_json.specs.Data.{Data};
ghost use Rattle.bson_model.specs.Means.{Means, MeansIn};
ghost use Rattle.bson_model.specs.Normal.{NumbersInRange};
ghost use Rattle.bson_model.specs.Texts.{ValueRoundTrips};
ghost use Rattle.bson_model.specs.Value as model;
ghost use Rattle.bson.specs.View.{bson_view};
ghost use Rattle.bson.specs.TextMeaning.{IsTextOf, HasTextMeaning, IsTextFault};
ghost use Rattle.bson.specs.TextMeaning.{RoundTripsInKeyOrder, HasTextMeaningInKeyOrder, IsTextFaultIn, TextMeansInKeyOrder};
ghost use Rattle.bson.specs.declared.extjson.text_error.TextError.TheVariants.{OutOfMemory};

mod retry;
pub(crate) mod sorted_members;

use crate::bson::Bson;
use crate::extjson::bson_writer::read_once;
use crate::extjson::text_error::TextError;
use crate::extjson::text_reader::retry::read_again;
use bson_model::options::{KeyOrder, Options};
use bson_scalar::form::Doubles;
use bson_text::traversal_error::TraversalError;
use std::alloc::Global;

impl Bson {
    /// Returns the value that the bytes mean, as one text of MongoDB Extended JSON v2, in either
    /// form or mixed.
    ///
    /// The bytes must be UTF-8 and as a whole one JSON text, nested at most 127 deep, whose tree
    /// has a meaning. If a key is duplicated in an object, its last value wins. A document has its
    /// keys in ascending order of bytes.
    ///
    /// What is read reads back: its text in either form is read as the same value again, unless it
    /// nests deeper than 127.
    ///
    /// A text is read in one pass, without a tree of the whole. It is read again only if it has no
    /// meaning, for its first fault, or if a later value of a key replaces one without a meaning.
    ///
    /// # Errors
    ///
    /// - `NotJson`: the bytes are not UTF-8, or not one JSON text nested at most 127 deep, or have
    ///   a number out of range.
    /// - `NotExtendedJson`: the tree of the text has no meaning. It has the tree's first fault.
    /// - `OutOfMemory`: a request for memory was refused.
    ///
    /// ```
    /// let value = Bson::try_from_text(alloc, br#"{"n": {"$numberLong": "5"}}"#)?;
    /// println!(rt; "{value:?}")?; // Document({"n": Int64(5)})
    /// ```
    pub fn try_from_text(alloc: Global, bytes: &[u8]) -> Result<Bson, TextError>
        ensures ok { IfOk result (λ parsed. HasTextMeaning bytes.now (bson_view parsed)) }
        ensures accepts { (json_tree : Data) (parsed : model.Value) → IsTextOf bytes.now json_tree
            → Means json_tree parsed
            → IfErr result (λ error. error ≡ OutOfMemory) }
        ensures fault { IfErr result (λ error. IsTextFault bytes.now error) }
        ensures within_type_range { IfOk result (λ parsed. NumbersInRange (bson_view parsed)) }
        ensures round_trips { IfOk result (λ parsed. ValueRoundTrips (bson_view parsed)) }
    {
        read_text(alloc, Doubles::Special, KeyOrder::Ascending, bytes)
    }

    /// Returns the value that the bytes mean, read as the options say, otherwise as
    /// [`Bson::try_from_text`].
    ///
    /// With `Doubles::Finite` a JSON number that is not an i64 means a double. So does the text of
    /// a `$numberDouble` that is a decimal number. It has an optional sign, digits with at most one
    /// point, and optionally `e` or `E` with an optional sign and digits.
    ///
    /// The double is the one nearest to the number. If two are equally near, it is the one whose
    /// last bit is 0. A number too small for any other double is a zero of its sign, and `-0` is
    /// the double -0.0.
    ///
    /// With `KeyOrder::AsGiven` the keys of each document are in the order of the text, at every
    /// depth. If a key is duplicated in an object, its last value wins, at its first position. Inside
    /// a wrapper of one key the order has no meaning. Code and its scope may be in either order, and
    /// the scope keeps its order. The same texts have a meaning as by default: the same value except
    /// for the order of keys.
    ///
    /// What is read reads back: it is written in the order in both forms. Each text is read as the
    /// same value again, order included, unless it nests deeper than 127.
    ///
    /// If an object begins with `$scope` and keys are as given, the text is read once more for the
    /// code that follows.
    ///
    /// # Errors
    ///
    /// The errors of [`Bson::try_from_text`]. If the double nearest to a number is not finite, the
    /// error is `NotExtendedJson` in a `$numberDouble`, and else `NotJson`.
    ///
    /// ```
    /// let text = br#"{"price": 12.5, "count": 10}"#;
    /// let value = Bson::from_text(alloc, Options::mongodb(), text)?;
    /// println!(rt; "{value:?}")?;
    /// // Document({"price": Double(0x4029000000000000), "count": Int32(10)})
    /// ```
    pub fn from_text(alloc: Global, options: Options, bytes: &[u8]) -> Result<Bson, TextError>
        ensures ok { IfOk result
            (λ parsed. HasTextMeaningInKeyOrder options.key_order options.doubles bytes.now (bson_view parsed)) }
        ensures accepts { (json_tree : Data) (parsed : model.Value) → IsTextOf bytes.now json_tree
            → MeansIn options.doubles json_tree parsed
            → IfErr result (λ error. error ≡ OutOfMemory) }
        ensures accepts_in_key_order { (parsed : model.Value)
            → TextMeansInKeyOrder options.key_order options.doubles bytes.now parsed
            → IfErr result (λ error. error ≡ OutOfMemory) }
        ensures fault { IfErr result (λ error. IsTextFaultIn options.doubles bytes.now error) }
        ensures within_type_range { IfOk result (λ parsed. NumbersInRange (bson_view parsed)) }
        ensures round_trips { IfOk result
            (λ parsed. RoundTripsInKeyOrder options.key_order options.doubles (bson_view parsed)) }
    {
        read_text(alloc, options.doubles, options.key_order, bytes)
    }
}

// The value that the bytes mean in the order.
fn read_text(
    alloc: Global,
    doubles: Doubles,
    key_order: KeyOrder,
    bytes: &[u8],
) -> Result<Bson, TextError>
    ensures ok { IfOk result (λ parsed. HasTextMeaningInKeyOrder key_order doubles bytes.now (bson_view parsed)) }
    ensures fault { IfErr result (λ error. IsTextFaultIn doubles bytes.now error) }
{
    let Ok(text) = simdutf8::compat::from_utf8(bytes) else {
        return Err(TextError::NotJson);
    };
    match read_once(alloc, doubles, key_order, text) {
        Ok(value) => Ok(value),
        Err(TraversalError::OutOfMemory) => Err(TextError::OutOfMemory),
        Err(_) => read_again(alloc, doubles, key_order, text),
    }
}
