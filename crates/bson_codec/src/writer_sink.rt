//! A sink that hands values to a writer of a text.
ghost use Rattle.std.specs.Prelude.{◌≡◌, ◌<◌, [], ℕ, OnOk, IfSome};
ghost use Rattle.std.specs.List.{slice_index};
ghost use Rattle.bson_bytes.specs.Reading.{reads_bytes};
ghost use Rattle.bson_bytes.specs.Source.{ReadsAllTo};
ghost use Rattle.bson_codec.specs.WriterSinks.{IsSound};
ghost use Rattle.bson_model.specs.Value.{document};
ghost use Rattle.bson_scalar.specs.Normal.{ScalarInRange};
ghost use Rattle.bson_scalar.specs.Scalar as kind;
ghost use Rattle.bson_scalar.specs.View.{scalar_view};

use bson_bytes::fixed_scalar::{FixedSizeScalar, to_scalar};
use bson_bytes::read_parts::{read_name, skip_name};
use bson_bytes::sink::ValueSink;
use bson_bytes::source::read_document;
use bson_bytes::stop::Stop;
use bson_scalar::scalar::Scalar;
use bson_text::display_writer::DisplayWriter;
use bson_text::sorted_writer::SortedWriter;
use bson_text::text_writer::TextWriter;
use bson_text::traversal_error::TraversalError;
use bson_text::value_writer::ValueWriter;
use bson_types::binary::Binary;
use bson_types::db_pointer::DbPointer;
use bson_types::oid::ObjectId;
use bson_types::regex::Regex;
use bson_types::spec::BinarySubtype;
use bson_types::timestamp::Timestamp;
use std::alloc::{AllocError, Global};
use std::str;

// Room for the keys of most documents, so that one allocation is enough.
const KEYS_CAPACITY: usize = 32;

/// A writer of a text, in which a value has no name of its own.
pub(crate) trait UnnamedWriter: ValueWriter {
    ghost use Rattle.std.specs.Prelude.{[], List, ℕ};
    ghost use Rattle.bson_model.specs.Value.{Value, Pairs, document};

    // What is written under a name is written under any.
    ghost ignores_names: { (writer_before : Self) (key_name other_name : List ℕ) (written_value : Value) (writer_after : Self)
        → Self.wrote_value writer_before key_name written_value writer_after
        → Self.wrote_value writer_before other_name written_value writer_after };

    // A document is also a value.
    ghost embeds: { (writer_before : Self) (document_pairs : Pairs) (writer_after : Self)
        → Self.wrote_document writer_before document_pairs writer_after
        → Self.wrote_value writer_before [] (document document_pairs) writer_after };
}

impl UnnamedWriter for TextWriter {
    ghost use Rattle.bson_codec.specs.WriterSinks.{embedded_text};

    ghost ignores_names = { λ old key_name other_name written_value new written. written };

    ghost embeds = { embedded_text };
}

impl UnnamedWriter for SortedWriter {
    ghost use Rattle.bson_codec.specs.WriterSinks.{embedded_sorted_text};

    ghost ignores_names = { λ old key_name other_name written_value new written. written };

    ghost embeds = { embedded_sorted_text };
}

impl UnnamedWriter for DisplayWriter {
    ghost ignores_names = { λ old key_name other_name written_value new written. written };

    ghost embeds = { λ old document_pairs new written. written };
}

/// A sink that hands the parts of values to a writer. It stops if the writer does, whatever the reason: the
/// caller then reads the document as a value, which succeeds or says why it doesn't.
#[derive(Drop)]
pub(crate) struct WriterSink<'b, W> {
    alloc: Global,
    writer: W,
    // The bytes that are read.
    input: &'b [u8],
    // The keys of the open documents, those of the outermost document before the others.
    keys: Vec<&'b str>,
}

/// An open array or document, and how many keys the documents around it have.
#[derive(Drop)]
pub(crate) struct OpenList<C> {
    container: C,
    first_key: usize,
}

/// Reads all of the bytes as a document, hands it to the writer as it is read, and returns the writer.
///
/// # Errors
///
/// `Stop::Fault` has the first fault of the bytes. With any other stop the caller reads the document as a value.
pub(crate) fn write_document<W: UnnamedWriter + Drop>(
    alloc: Global,
    bytes: &[u8],
    depth: usize,
    writer: W,
) -> Result<W, Stop>
    ensures { ReadsAllTo (λ stop. Unit {0})
        (λ pairs finished_writer. W.wrote_document writer pairs finished_writer × IsSound (document pairs)) result
        (reads_bytes depth bytes.now) }
{
    let mut sink = WriterSink {
        alloc,
        writer,
        input: bytes,
        keys: Vec::with_capacity(alloc, KEYS_CAPACITY)?,
    };
    read_document(bytes, depth, &mut sink)?;
    Ok(sink.writer)
}

impl<'b, W: UnnamedWriter> WriterSink<'b, W> {
    ghost use Rattle.std.specs.Prelude.{[]};
    ghost use Rattle.bson_model.specs.Value.{scalar};

    // Writes a scalar.
    fn put_scalar(&mut self, value: Scalar) -> Result<(), AllocError>
        ensures written { OnOk result (W.wrote_value self.old.writer [] (scalar (scalar_view value)) self.new.writer) }
        ensures keys { OnOk result (self.new.keys.items ≡ self.old.keys.items) }
        ensures in_range { OnOk result (ScalarInRange (scalar_view value)) }
    {
        read_numbers(&value);
        self.writer.scalar("", value).map_err(to_alloc_error)
    }
}

impl<'b, W: UnnamedWriter> ValueSink for WriterSink<'b, W> {
    type Value = ();

    type OpenList = OpenList<W::OpenContainer>;

    type Name = ();

    type Document = ();

    type Code = W::OpenContainer;

    ghost use Rattle.std.specs.Prelude.{◌≡◌, ◌∷◌, [], length};
    ghost use Rattle.bson_bytes.specs.Grammar.{pair_values};
    ghost use Rattle.bson_codec.specs.ReadToMemory.{DocumentOrArray};
    ghost use Rattle.bson_codec.specs.WriterSinks.{IsSound, AreSound, HasKeysAdded};
    ghost use Rattle.bson_model.specs.Value.{document};
    ghost use Rattle.bson_model.specs.declared.options.DuplicateKeys.TheVariants.{LastWins};
    ghost use Rattle.bson_text.specs.TraversalResults.{ItemsWritten, PairsWritten, keys_of};

    ghost keys = { LastWins };

    ghost may_stop = { λ stop. Unit {0} };

    ghost value_written = { λ old bson_value token new. W.wrote_value old.writer [] bson_value new.writer
        × (new.keys.items ≡ old.keys.items) × IsSound bson_value };

    ghost list_opened = { λ is_document old pairs list new. DocumentOrArray is_document
        ((begun : W) × W.began_document old.writer list.container begun
        × PairsWritten W.wrote_value W.wrote_key pairs begun new.writer
        × (list.first_key ≡ length old.keys.items) × HasKeysAdded old.keys.items (keys_of pairs) new.keys.items × AreSound pairs)
        ((begun : W) × W.began_array old.writer [] list.container begun
        × ItemsWritten W.wrote_value W.item_name_of 0 (pair_values pairs) begun new.writer
        × (new.keys.items ≡ old.keys.items) × AreSound pairs) };

    ghost name_written = { λ is_document old name token new. DocumentOrArray is_document
        (W.wrote_key old.writer name new.writer × HasKeysAdded old.keys.items (name ∷ []) new.keys.items)
        ((new.writer ≡ old.writer) × (new.keys.items ≡ old.keys.items)) };

    ghost document_written = { λ old pairs token new. W.wrote_document old.writer pairs new.writer
        × (new.keys.items ≡ old.keys.items) × IsSound (document pairs) };

    ghost code_opened = { λ old code container new. W.began_code old.writer [] code container new.writer
        × (new.keys.items ≡ old.keys.items) };

    fn fixed_scalar(&mut self, value: FixedSizeScalar) -> Result<(), AllocError> {
        self.put_scalar(to_scalar(value))
    }

    fn string(&mut self, text: &str) -> Result<(), AllocError> {
        self.writer.string("", text).map_err(to_alloc_error)
    }

    fn symbol(&mut self, text: &str) -> Result<(), AllocError> {
        self.put_scalar(Scalar::Symbol(String::from_str(self.alloc, text)?))
    }

    fn code(&mut self, text: &str) -> Result<(), AllocError> {
        self.put_scalar(Scalar::JavaScriptCode(String::from_str(self.alloc, text)?))
    }

    fn regex(&mut self, pattern: &str, options: &str) -> Result<(), AllocError> {
        let pattern = String::from_str(self.alloc, pattern)?;
        let options = String::from_str(self.alloc, options)?;
        self.put_scalar(Scalar::RegularExpression(Regex { pattern, options }))
    }

    fn binary(&mut self, subtype: u8, bytes: &[u8]) -> Result<(), AllocError> {
        let bytes = Vec::from_slice(self.alloc, bytes)?;
        let subtype = BinarySubtype::from(subtype);
        self.put_scalar(Scalar::Binary(Binary { subtype, bytes }))
    }

    fn pointer(&mut self, namespace: &str, id: [u8; 12]) -> Result<(), AllocError> {
        let namespace = String::from_str(self.alloc, namespace)?;
        let id = ObjectId::from_bytes(id);
        self.put_scalar(Scalar::DbPointer(DbPointer::new(namespace, id)))
    }

    fn begin(&mut self, is_document: bool) -> Result<OpenList<W::OpenContainer>, AllocError> {
        let first_key = self.keys.len();
        if is_document {
            let container = self.writer.begin_document().map_err(to_alloc_error)?;
            Ok(OpenList {
                container,
                first_key,
            })
        } else {
            let container = self.writer.begin_array("").map_err(to_alloc_error)?;
            Ok(OpenList {
                container,
                first_key,
            })
        }
    }

    fn name<'n>(
        &mut self,
        is_document: bool,
        _list: &OpenList<W::OpenContainer>,
        bytes: &'n [u8],
    ) -> Result<((), &'n [u8]), Stop> {
        if !is_document {
            return Ok(((), skip_name(bytes)?));
        }
        let (name, rest) = read_name(bytes)?;
        let Some(key) = same_text(self.input, bytes.len(), name) else {
            return Err(Stop::GaveUp);
        };
        self.keys.push(key)?;
        let Ok(()) = self.writer.key(key) else {
            return Err(Stop::GaveUp);
        };
        Ok(((), rest))
    }

    fn element(
        &mut self,
        _is_document: bool,
        _list: &mut OpenList<W::OpenContainer>,
        _name: (),
        _value: (),
    ) -> Result<(), AllocError> {
        Ok(())
    }

    #[tactic(auto, using(crate::proofs::WriterSinks::sound_items))]
    fn end_array(&mut self, list: OpenList<W::OpenContainer>) -> Result<(), AllocError> {
        self.writer
            .end_array(list.container)
            .map_err(to_alloc_error)
    }

    fn end_document(&mut self, list: OpenList<W::OpenContainer>) -> Result<(), Stop> {
        let keys = &mut self.keys.as_mut_slice()[list.first_key..];
        let Ok(()) = self.writer.end_document(list.container, keys) else {
            return Err(Stop::GaveUp);
        };
        self.keys.truncate(list.first_key);
        Ok(())
    }

    fn embed_document(&mut self, _document: ()) -> Result<(), AllocError> {
        Ok(())
    }

    fn begin_code(&mut self, text: &str) -> Result<W::OpenContainer, AllocError> {
        self.writer.begin_code("", text).map_err(to_alloc_error)
    }

    fn end_code(&mut self, code: W::OpenContainer, _scope: ()) -> Result<(), AllocError> {
        self.writer.end_code(code).map_err(to_alloc_error)
    }
}

fn to_alloc_error(_error: TraversalError) -> AllocError {
    AllocError
}

// Returns the text in the bytes that begins this number of bytes before their end, if it is equal to this one.
fn same_text<'b>(bytes: &'b [u8], bytes_to_end: usize, text: &str) -> Option<&'b str>
    ensures { IfSome result (λ key. key.now ≡ text.now) }
{
    let start = bytes.len().checked_sub(bytes_to_end)?;
    let found = &bytes[start..];
    if found.len() < text.len() {
        return None;
    }
    let Ok(found) = str::from_utf8(&found[..text.len()]) else {
        return None;
    };
    if found == text { Some(found) } else { None }
}

// Each number of a scalar is in the range of its type, for which it is read.
fn read_numbers(value: &Scalar)
    ensures { ScalarInRange (scalar_view value.now) }
{
    match value {
        Scalar::Double(pattern) => {
            let _pattern = *pattern;
        }
        Scalar::Int32(number) => {
            let _number = *number;
        }
        Scalar::Int64(number) => {
            let _number = *number;
        }
        Scalar::Timestamp(timestamp) => read_timestamp(*timestamp),
        Scalar::Binary(binary) => read_binary(binary),
        Scalar::ObjectId(id) => {
            let _bytes = id.bytes();
        }
        Scalar::DateTime(date) => {
            let _millis = date.timestamp_millis();
        }
        Scalar::DbPointer(pointer) => {
            let _bytes = pointer.id().bytes();
        }
        _ => {}
    }
}

fn read_timestamp(timestamp: Timestamp)
    ensures { ScalarInRange (kind.timestamp timestamp.time timestamp.increment) }
{
    let _time = timestamp.time;
}

fn read_binary(binary: &Binary)
    ensures { ScalarInRange (kind.binary binary.now.subtype binary.now.bytes.items) }
{
    let _subtype = u8::from(binary.subtype);
    read_bytes(binary.bytes.as_slice());
}

fn read_bytes(bytes: &[u8])
    ensures { (place : ℕ) → slice_index bytes.now place < 256 }
{
    let _length = bytes.len();
}
