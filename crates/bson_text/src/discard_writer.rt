//! A writer that writes nothing, and the check of a text by it.
ghost use Rattle.std.specs.Prelude.{OnOk, IfErr};
ghost use Rattle.bson_model.specs.Value.{Value as Meaning};
ghost use Rattle.bson_model.specs.OrderedTexts.{HasMeaningInOrder};
ghost use Rattle.bson_text.specs.ErrorDenials.{ErrorRulesOutText};
ghost use Rattle.bson_text.specs.ErrorPaths.{LocatesTextError};

use crate::distinct_keys::are_distinct;
use crate::traversal::write_text;
use crate::traversal_error::TraversalError;
use crate::value_writer::ValueWriter;
use bson_scalar::form::Doubles;
use bson_scalar::scalar::Scalar;
use itoa::Buffer;
use json::Scratch;
use std::alloc::Global;

/// Checks that the text means a value in the order of its keys. The text is read token by token,
/// with no value in memory.
///
/// # Errors
///
/// - `OutOfMemory`: an allocation failed.
/// - `DuplicateKey`: an object has two equal keys.
/// - `GaveUp`: an object begins with `$scope`.
/// - `Syntax`: the text is not JSON of at most 127 levels, or a number is out of range.
/// - `Fault`: the text does not mean a value. If the keys of each object ascend, the place is that
///   of the first fault.
pub fn check_text(
    alloc: Global,
    doubles: Doubles,
    text: &str,
    scratch: &mut Scratch,
) -> Result<(), TraversalError>
    ensures ok { OnOk result ((written_value : Meaning) × HasMeaningInOrder doubles text.now written_value) }
    ensures stops { IfErr result (λ reported_error. ErrorRulesOutText doubles ⊥ ⊥ reported_error text.now) }
    ensures located { IfErr result (λ reported_error. LocatesTextError doubles reported_error text.now) }
{
    write_text(alloc, doubles, text, scratch, DiscardWriter { alloc })?;
    Ok(())
}

/// A writer that writes nothing.
#[derive(Drop)]
pub struct DiscardWriter {
    /// Where the keys of an object are compared.
    pub alloc: Global,
}

impl ValueWriter for DiscardWriter {
    type OpenContainer = ();

    ghost use Rattle.std.specs.Prelude.{[]};

    ghost may_give_up = { λ doubles. ⊥ };

    ghost sorts_keys = { ⊥ };

    ghost item_name_of = { λ item_index. [] };

    ghost wrote_value = { λ old key_name written_value new. Unit {0} };

    ghost wrote_document = { λ old document_pairs new. Unit {0} };

    ghost began_array = { λ old key_name open_container new. Unit {0} };

    ghost began_document = { λ old open_container new. Unit {0} };

    ghost wrote_key = { λ old key_name new. Unit {0} };

    ghost began_code = { λ old key_name code_bytes open_container new. Unit {0} };

    fn string(&mut self, _name: &str, _text: &str) -> Result<(), TraversalError> {
        Ok(())
    }

    fn boolean(&mut self, _name: &str, _truth: bool) -> Result<(), TraversalError> {
        Ok(())
    }

    fn null(&mut self, _name: &str) -> Result<(), TraversalError> {
        Ok(())
    }

    fn scalar(&mut self, _name: &str, _value: Scalar) -> Result<(), TraversalError> {
        Ok(())
    }

    fn item_name<'b>(_buffer: &'b mut Buffer, _index: usize) -> &'b str {
        ""
    }

    fn begin_array(&mut self, _name: &str) -> Result<(), TraversalError> {
        Ok(())
    }

    fn end_array(&mut self, _open_container: ()) -> Result<(), TraversalError> {
        Ok(())
    }

    fn embed_document(&mut self, _name: &str) -> Result<(), TraversalError> {
        Ok(())
    }

    fn begin_document(&mut self) -> Result<(), TraversalError> {
        Ok(())
    }

    fn key(&mut self, _name: &str) -> Result<(), TraversalError> {
        Ok(())
    }

    fn end_document(
        &mut self,
        _open_container: (),
        keys: &mut [&str],
    ) -> Result<(), TraversalError> {
        if !are_distinct(self.alloc, keys) {
            return Err(TraversalError::DuplicateKey);
        }
        Ok(())
    }

    fn begin_code(&mut self, _name: &str, _code: &str) -> Result<(), TraversalError> {
        Ok(())
    }

    fn end_code(&mut self, _open_container: ()) -> Result<(), TraversalError> {
        Ok(())
    }
}
