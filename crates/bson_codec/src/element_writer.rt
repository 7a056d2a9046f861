//! A writer of values that appends BSON elements.
ghost use Rattle.std.specs.Prelude.{◌≡◌, ◌↔◌, true, ⊤};
ghost use Rattle.std.specs.Str.{is_utf8};
ghost use Rattle.bson_bytes.specs.PutSteps.{has_no_nul};
ghost use Rattle.bson_text.specs.TraversalErrors.{IsWriterError};

use crate::put_scalars::{put_scalar, type_of};
use bson_bytes::error::Error;
use bson_bytes::read_parts::has_no_nul;
use bson_bytes::write_parts::{
    put_length, put_length_placeholder, put_name, put_nul_and_length, put_text,
};
use bson_scalar::scalar::Scalar;
use bson_text::distinct_keys::are_distinct;
use bson_text::traversal_error::TraversalError;
use bson_text::value_writer::ValueWriter;
use bson_types::spec::ElementType;
use itoa::Buffer;

/// The bytes of concatenated elements. For each open array, document or code, the position of its
/// length is kept.
#[derive(Drop)]
pub(crate) struct ElementWriter {
    pub(crate) bytes: Vec<u8>,
}

impl ValueWriter for ElementWriter {
    type OpenContainer = usize;

    ghost use Rattle.std.specs.Prelude.{decimal};
    ghost use Rattle.bson_codec.specs.PackedText.{ElementAppended, DocumentAppended, LengthReserved, ElementArrayOpened, ElementCodeOpened};

    ghost may_give_up = { λ doubles. ⊤ };

    ghost sorts_keys = { ⊥ };

    ghost item_name_of = { λ index. decimal index };

    ghost wrote_value = { λ old_writer name value new_writer. ElementAppended name value old_writer.bytes.items new_writer.bytes.items };

    ghost wrote_document = { λ old_writer pairs new_writer. DocumentAppended pairs old_writer.bytes.items new_writer.bytes.items };

    ghost began_array = { λ old_writer name length_start new_writer. ElementArrayOpened name length_start old_writer.bytes.items new_writer.bytes.items };

    ghost began_document = { λ old_writer length_start new_writer. LengthReserved length_start old_writer.bytes.items new_writer.bytes.items };

    ghost wrote_key = { λ old_writer name new_writer. (new_writer.bytes.items ≡ old_writer.bytes.items) × (has_no_nul name ≡ true)
        × (is_utf8 name ≡ true) };

    ghost began_code = { λ old_writer name code length_start new_writer. ElementCodeOpened name code length_start old_writer.bytes.items new_writer.bytes.items };

    fn string(&mut self, name: &str, text: &str) -> Result<(), TraversalError> {
        put_name(&mut self.bytes, ElementType::String, name)?;
        put_text(&mut self.bytes, text).map_err(to_traversal_error)
    }

    fn boolean(&mut self, name: &str, truth: bool) -> Result<(), TraversalError> {
        put_name(&mut self.bytes, ElementType::Boolean, name)?;
        Ok(self.bytes.extend_from_slice(&[u8::from(truth)])?)
    }

    fn null(&mut self, name: &str) -> Result<(), TraversalError> {
        Ok(put_name(&mut self.bytes, ElementType::Null, name)?)
    }

    fn scalar(&mut self, name: &str, value: Scalar) -> Result<(), TraversalError> {
        put_name(&mut self.bytes, type_of(&value), name)?;
        put_scalar(&mut self.bytes, &value).map_err(to_traversal_error)
    }

    fn item_name<'b>(buffer: &'b mut Buffer, item_index: usize) -> &'b str {
        buffer.format(item_index)
    }

    fn begin_array(&mut self, name: &str) -> Result<usize, TraversalError> {
        put_name(&mut self.bytes, ElementType::Array, name)?;
        self.begin_document()
    }

    fn end_array(&mut self, length_start: usize) -> Result<(), TraversalError> {
        put_nul_and_length(&mut self.bytes, length_start).map_err(to_traversal_error)
    }

    fn embed_document(&mut self, name: &str) -> Result<(), TraversalError> {
        Ok(put_name(&mut self.bytes, ElementType::EmbeddedDocument, name)?)
    }

    fn begin_document(&mut self) -> Result<usize, TraversalError> {
        let length_start = self.bytes.len();
        put_length_placeholder(&mut self.bytes)?;
        Ok(length_start)
    }

    fn key(&mut self, name: &str) -> Result<(), TraversalError> {
        if !has_no_nul(name.as_bytes()) {
            return Err(TraversalError::GaveUp);
        }
        Ok(())
    }

    fn end_document(
        &mut self,
        length_start: usize,
        keys: &mut [&str],
    ) -> Result<(), TraversalError> {
        if !are_distinct(*self.bytes.allocator(), keys) {
            return Err(TraversalError::DuplicateKey);
        }
        put_nul_and_length(&mut self.bytes, length_start).map_err(to_traversal_error)
    }

    fn begin_code(&mut self, name: &str, code: &str) -> Result<usize, TraversalError> {
        put_name(&mut self.bytes, ElementType::JavaScriptCodeWithScope, name)?;
        let length_start = self.begin_document()?;
        put_text(&mut self.bytes, code).map_err(to_traversal_error)?;
        Ok(length_start)
    }

    fn end_code(&mut self, length_start: usize) -> Result<(), TraversalError> {
        put_length(&mut self.bytes, length_start).map_err(to_traversal_error)
    }
}

// Returns the reason to stop if a part has no bytes.
fn to_traversal_error(error: Error) -> TraversalError
    ensures writer_error { IsWriterError (λ doubles. ⊤) result }
    ensures memory { (result ≡ TraversalError.OutOfMemory) ↔ (error ≡ Error.OutOfMemory) }
{
    match error {
        Error::OutOfMemory => TraversalError::OutOfMemory,
        _ => TraversalError::GaveUp,
    }
}
