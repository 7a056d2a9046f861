//! Decodes the BSON bytes of a document to text that is written while they are read.
ghost use Rattle.std.specs.Prelude.{◌≡◌, ◌⊎◌, IfOk, IfErr, IsUtf8};
ghost use Rattle.bson_codec.specs.DocumentText.{IsDocumentTextOf};
ghost use Rattle.bson_model.specs.declared.options.DuplicateKeys.TheVariants.{LastWins};
ghost use Rattle.vbson.specs.Documents.{IsOneDocument, depth, streaming_form, streaming_form_in_order};

use crate::status;
use bson::extjson::{Doubles, Form, KeyOrder, Options};
use bson_codec::de::{DEPTH, DuplicateKeys, Error};
use bson_codec::text::decode_text;
use bson_convert::mode::Mode;
use std::alloc::Global;

/// Returns the form in which the text is written while the bytes are read, or `None` if the text needs a
/// document in memory. That text has finite doubles, and keys as given, and duplicate keys are allowed.
pub fn streaming_form(keys: DuplicateKeys, options: Options, mode: Mode) -> Option<Form>
    ensures { result ≡ streaming_form keys options mode }
{
    match keys {
        DuplicateKeys::Reject => None,
        DuplicateKeys::LastWins => streaming_form_in_order(options, mode),
    }
}

// Returns that form, if duplicate keys are allowed.
fn streaming_form_in_order(options: Options, mode: Mode) -> Option<Form>
    ensures { result ≡ streaming_form_in_order options.key_order options.doubles mode }
{
    match options.key_order {
        KeyOrder::Ascending => None,
        KeyOrder::AsGiven => match options.doubles {
            Doubles::Special => None,
            Doubles::Finite => match mode {
                Mode::Canonical => Some(Form::Canonical),
                Mode::Relaxed => Some(Form::Relaxed),
                Mode::Show => None,
            },
        },
    }
}

/// Returns the text in the form of the document that the bytes are, with finite doubles and with keys as
/// given. No document is made in memory, unless some document may have a duplicate key.
///
/// # Errors
///
/// - `NOT_A_DOCUMENT`: the bytes are not a document.
/// - `OUT_OF_MEMORY`: an allocation failed.
pub fn decode_streaming(alloc: Global, form: Form, bytes: &[u8]) -> Result<Vec<u8>, u32>
    ensures ok { IfOk result (λ text. IsDocumentTextOf form depth bytes.now text.items × IsUtf8 text.items) }
    ensures error_status { IfErr result
        (λ status. (status ≡ 5) ⊎ ((status ≡ 10) × (IsOneDocument LastWins bytes.now → ⊥))) }
{
    match decode_text(alloc, form, bytes, DEPTH) {
        Ok(text) => Ok(text.into_bytes()),
        Err(Error::Malformed { .. }) => Err(status::NOT_A_DOCUMENT),
        Err(Error::OutOfMemory) => Err(status::OUT_OF_MEMORY),
    }
}
