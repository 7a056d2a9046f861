//! A sink that keeps nothing.
ghost use Rattle.std.specs.Prelude.{◌≡◌, IfErr, OnOk, Ok, Err};
ghost use Rattle.bson_bytes.specs.Reading.{reads_bytes};
ghost use Rattle.bson_model.specs.declared.options.DuplicateKeys.TheVariants.{LastWins};
ghost use Rattle.bson_model.specs.Value.{Pairs};

use crate::fault::Fault;
use crate::fixed_scalar::FixedSizeScalar;
use crate::read_parts::skip_name;
use crate::sink::ValueSink;
use crate::source::read_document;
use crate::stop::Stop;
use std::alloc::AllocError;

/// A sink that keeps nothing.
#[derive(Drop)]
pub struct Nothing;

impl ValueSink for Nothing {
    type Value = ();

    type OpenList = ();

    type Name = ();

    type Document = ();

    type Code = ();

    ghost keys = { LastWins };

    ghost may_stop = { λ stop. ⊥ };

    ghost value_written = { λ old_sink value token new_sink. Unit {0} };

    ghost list_opened = { λ is_document old_sink pairs token new_sink. Unit {0} };

    ghost name_written = { λ is_document old_sink name token new_sink. Unit {0} };

    ghost document_written = { λ old_sink pairs token new_sink. Unit {0} };

    ghost code_opened = { λ old_sink code token new_sink. Unit {0} };

    fn fixed_scalar(&mut self, _value: FixedSizeScalar) -> Result<(), AllocError> {
        Ok(())
    }

    fn string(&mut self, _text: &str) -> Result<(), AllocError> {
        Ok(())
    }

    fn symbol(&mut self, _text: &str) -> Result<(), AllocError> {
        Ok(())
    }

    fn code(&mut self, _text: &str) -> Result<(), AllocError> {
        Ok(())
    }

    fn regex(&mut self, _pattern: &str, _options: &str) -> Result<(), AllocError> {
        Ok(())
    }

    fn binary(&mut self, _subtype: u8, _bytes: &[u8]) -> Result<(), AllocError> {
        Ok(())
    }

    fn pointer(&mut self, _namespace: &str, _id: [u8; 12]) -> Result<(), AllocError> {
        Ok(())
    }

    fn begin(&mut self, _is_document: bool) -> Result<(), AllocError> {
        Ok(())
    }

    fn name<'b>(
        &mut self,
        _is_document: bool,
        _list: &(),
        bytes: &'b [u8],
    ) -> Result<((), &'b [u8]), Stop> {
        Ok(((), skip_name(bytes)?))
    }

    fn element(
        &mut self,
        _is_document: bool,
        _list: &mut (),
        _name: (),
        _value: (),
    ) -> Result<(), AllocError> {
        Ok(())
    }

    fn end_array(&mut self, _list: ()) -> Result<(), AllocError> {
        Ok(())
    }

    fn end_document(&mut self, _list: ()) -> Result<(), Stop> {
        Ok(())
    }

    fn embed_document(&mut self, _document: ()) -> Result<(), AllocError> {
        Ok(())
    }

    fn begin_code(&mut self, _text: &str) -> Result<(), AllocError> {
        Ok(())
    }

    fn end_code(&mut self, _code: (), _scope: ()) -> Result<(), AllocError> {
        Ok(())
    }
}

/// Checks that all of the bytes are a document (BSON 1.1). Documents, arrays and scopes can nest at most
/// `depth` deep, counting the document itself. It allocates nothing.
///
/// # Errors
///
/// The first fault of the bytes, and its offset.
pub fn is_document(bytes: &[u8], depth: usize) -> Result<(), Fault>
    // The bytes are read as a document.
    ensures ok { OnOk result ((pairs : Pairs) × (reads_bytes depth bytes.now ≡ Ok pairs)) }
    // Which fault it is, and where.
    ensures fault { IfErr result (λ fault. reads_bytes depth bytes.now ≡ Err fault) }
{
    match read_document(bytes, depth, &mut Nothing) {
        Ok(()) => Ok(()),
        Err(Stop::Fault(fault)) => Err(fault),
        Err(Stop::GaveUp) => unreachable!(),
        Err(Stop::OutOfMemory) => unreachable!(),
    }
}
