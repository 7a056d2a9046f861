//! A text of Extended JSON that values are written to.
ghost use Rattle.std.specs.Prelude.{◌≡◌, [], IfOk};

use crate::distinct_keys::are_distinct;
use crate::traversal_error::{TraversalError, write_error};
use crate::value_writer::ValueWriter;
use bson_scalar::code::put_code;
use bson_scalar::form::{Doubles, Form};
use bson_scalar::scalar::Scalar;
use bson_scalar::write::print_ordered_scalar;
use itoa::Buffer;
use json::Writer;
use std::alloc::{AllocError, Global};

/// The compact text of values in a form.
#[derive(Drop)]
pub struct TextWriter {
    pub(crate) alloc: Global,
    pub(crate) doubles: Doubles,
    pub(crate) form: Form,
    /// The text so far.
    pub json_writer: Writer,
}

impl TextWriter {
    /// Returns a writer of an empty text, with room for this number of bytes.
    ///
    /// # Errors
    ///
    /// `AllocError`: an allocation failed.
    pub fn new(
        alloc: Global,
        doubles: Doubles,
        form: Form,
        capacity: usize,
    ) -> Result<TextWriter, AllocError>
        ensures modes { IfOk result (λ writer. (writer.doubles ≡ doubles) × (writer.form ≡ form)) }
        ensures empty { IfOk result
            (λ writer. (writer.json_writer.before ≡ []) × (writer.json_writer.tokens ≡ [])) }
    {
        let json_writer = Writer::new(Vec::with_capacity(alloc, capacity)?);
        Ok(TextWriter {
            alloc,
            doubles,
            form,
            json_writer,
        })
    }
}

impl ValueWriter for TextWriter {
    type OpenContainer = ();

    ghost use Rattle.std.specs.Prelude.{◌∷◌};
    ghost use Rattle.bson_scalar.specs.declared.form.Doubles.TheVariants.{Finite};
    ghost use Rattle.json.specs.Token as token;
    ghost use Rattle.bson_scalar.specs.Tokens.{code_tokens};
    ghost use Rattle.bson_text.specs.TextOutput.{HasTokensAdded, HasValueTokens, HasPairTokens};

    ghost may_give_up = { λ doubles. doubles ≡ Finite };

    ghost sorts_keys = { ⊥ };

    ghost item_name_of = { λ item_index. [] };

    ghost wrote_value = { λ old key_name written_value new. HasValueTokens old written_value new };

    ghost wrote_document = { λ old document_pairs new. HasPairTokens old document_pairs new };

    ghost began_array = { λ old key_name open_container new. HasTokensAdded old (token.begin_array ∷ []) new };

    ghost began_document = { λ old open_container new. HasTokensAdded old (token.begin_object ∷ []) new };

    ghost wrote_key = { λ old key_name new. HasTokensAdded old (token.key key_name ∷ []) new };

    ghost began_code = { λ old key_name code_bytes open_container new. HasTokensAdded old (code_tokens code_bytes) new };

    fn string(&mut self, _name: &str, text: &str) -> Result<(), TraversalError> {
        Ok(self.json_writer.string(text)?)
    }

    fn boolean(&mut self, _name: &str, truth: bool) -> Result<(), TraversalError> {
        Ok(self.json_writer.boolean(truth)?)
    }

    fn null(&mut self, _name: &str) -> Result<(), TraversalError> {
        Ok(self.json_writer.null()?)
    }

    fn scalar(&mut self, _name: &str, value: Scalar) -> Result<(), TraversalError> {
        print_ordered_scalar(
            self.alloc,
            self.doubles,
            self.form,
            value,
            &mut self.json_writer,
        )
        .map_err(write_error)
    }

    fn item_name<'b>(_buffer: &'b mut Buffer, _index: usize) -> &'b str {
        ""
    }

    fn begin_array(&mut self, _name: &str) -> Result<(), TraversalError> {
        Ok(self.json_writer.begin_array()?)
    }

    fn end_array(&mut self, _open_container: ()) -> Result<(), TraversalError> {
        Ok(self.json_writer.end_array()?)
    }

    fn embed_document(&mut self, _name: &str) -> Result<(), TraversalError> {
        Ok(())
    }

    fn begin_document(&mut self) -> Result<(), TraversalError> {
        Ok(self.json_writer.begin_object()?)
    }

    fn key(&mut self, name: &str) -> Result<(), TraversalError> {
        Ok(self.json_writer.key(name)?)
    }

    fn end_document(
        &mut self,
        _open_container: (),
        keys: &mut [&str],
    ) -> Result<(), TraversalError> {
        if !are_distinct(self.alloc, keys) {
            return Err(TraversalError::DuplicateKey);
        }
        Ok(self.json_writer.end_object()?)
    }

    fn begin_code(&mut self, _name: &str, code: &str) -> Result<(), TraversalError> {
        Ok(put_code(code, &mut self.json_writer)?)
    }

    fn end_code(&mut self, _open_container: ()) -> Result<(), TraversalError> {
        Ok(self.json_writer.end_object()?)
    }
}
