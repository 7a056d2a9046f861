//! The text that shows values, each document's keys in ascending order or in the order in which they
//! came.
ghost use Rattle.std.specs.Prelude.{◌≡◌, ◌-◌, ◌∷◌, ◌++◌, [], length, map, take, true, false, codes, IfOk, OnOk, IfErr, ⊤};
ghost use Rattle.std.specs.Prelude.{if◌then◌else◌};
ghost use Rattle.std.specs.Str.{is_utf8};
ghost use Rattle.bson_scalar.specs.Displayed.{scalar_text};
ghost use Rattle.bson_scalar.specs.View.{scalar_of, scalar_view};
ghost use Rattle.bson_model.specs.Value.{Pairs};
ghost use Rattle.bson_model.specs.declared.options.KeyOrder.TheVariants as key_order;
ghost use Rattle.bson_text.specs.MemberSpans.{EndsWithBrace};
ghost use Rattle.bson_text.specs.TraversalErrors.{IsDocumentEndError};
ghost use Rattle.bson_text.specs.TraversalResults.{PairsWritten, keys_of, each_key_once};

use crate::distinct_keys::are_distinct;
use crate::member_spans::{allowed_sort_memory, end_object, put_comma};
use crate::sorted_writer::ContainerStart;
use crate::traversal_error::TraversalError;
use crate::value_writer::ValueWriter;
use bson_model::options::KeyOrder;
use bson_scalar::scalar::Scalar;
use bson_scalar::scalar_ref::ScalarRef;
use itoa::Buffer;
use std::alloc::{AllocError, Global};

/// The text of values on one line, as people read it. It has the members of an open
/// document in input order, each from its offset on.
#[derive(Drop)]
pub struct DisplayWriter {
    pub(crate) alloc: Global,
    // Where the keys of a document go.
    pub(crate) key_order: KeyOrder,
    /// The text so far.
    pub text: Vec<u8>,
    // Memory for the text of a scalar.
    pub(crate) fragment: String,
    // The offsets of the members of all open documents, the outermost document before the others.
    pub(crate) member_starts: Vec<usize>,
    // Whether a value precedes the next value.
    pub(crate) needs_comma: bool,
    // How many bytes may be allocated to sort members.
    pub(crate) sort_memory_limit: usize,
    ghost utf8: { is_utf8 text.items ≡ true },
}

impl DisplayWriter {
    ghost use Rattle.bson_text.specs.DisplayOutput.{HasDisplayAdded, HasBegunDisplay, HasDisplayOfKey, HasDisplayAfterSeparator, HasDisplayOfPairs, HasDisplayOfValue, closing_brace};
    ghost use Rattle.bson_text.specs.DisplayOutput.{separator_if};

    /// Returns a writer of an empty text, with room for this number of bytes. Sorting may allocate some nine times
    /// the input's length.
    ///
    /// # Errors
    ///
    /// `AllocError`: an allocation failed.
    pub fn new(
        alloc: Global,
        key_order: KeyOrder,
        capacity: usize,
        input_length: usize,
    ) -> Result<DisplayWriter, AllocError>
        ensures order { IfOk result (λ writer. writer.key_order ≡ key_order) }
        ensures empty { IfOk result (λ writer. (writer.text.items ≡ []) × (writer.needs_comma ≡ false)) }
    {
        Ok(DisplayWriter {
            alloc,
            key_order,
            text: Vec::with_capacity(alloc, capacity)?,
            fragment: String::new(alloc),
            member_starts: Vec::new(alloc),
            needs_comma: false,
            sort_memory_limit: allowed_sort_memory(input_length),
        })
    }

    // Adds the separator of elements that is due.
    fn add_separator(&mut self) -> Result<(), AllocError>
        ensures { OnOk result
            (HasDisplayAdded self.old (separator_if self.old.needs_comma) self.old.needs_comma self.new) }
    {
        if self.needs_comma {
            self.text.extend_from_slice(b", ")?;
        }
        Ok(())
    }

    // Adds the text, after which a comma is needed or not.
    fn add_text(&mut self, text: &str, needs_comma: bool) -> Result<(), AllocError>
        ensures { OnOk result (HasDisplayAdded self.old text.now needs_comma self.new) }
    {
        self.text.extend_from_slice(text.as_bytes())?;
        self.needs_comma = needs_comma;
        Ok(())
    }

    // Adds the separator that is due, and the scalar's text.
    fn add_scalar(&mut self, value: Scalar) -> Result<(), AllocError>
        ensures { OnOk result (HasDisplayAfterSeparator self.old (scalar_text (scalar_view value)) true self.new) }
    {
        self.add_separator()?;
        self.fragment.clear();
        write!(self.fragment, "{}", scalar_ref(&value))?;
        self.text.extend_from_slice(self.fragment.as_bytes())?;
        self.needs_comma = true;
        Ok(())
    }

    fn container_start(&self) -> ContainerStart
        ensures start { result.start ≡ length self.now.text.items }
        ensures outer_member_count { result.outer_member_count ≡ length self.now.member_starts.items }
    {
        ContainerStart {
            start: self.text.len(),
            outer_member_count: self.member_starts.len(),
        }
    }

    // Ends a document with its members in ascending key order.
    fn end_sorted(
        &mut self,
        open_container: ContainerStart,
        keys: &[&str],
    ) -> Result<(), TraversalError>
        requires members_written { (writer_before : DisplayWriter) × (writer_begun : DisplayWriter)
            × (document_pairs : Pairs)
            × HasBegunDisplay writer_before open_container writer_begun
            × PairsWritten
            (λ state_before key_name shown_value state_after.
            HasDisplayOfValue state_before shown_value state_after) HasDisplayOfKey document_pairs writer_begun self.old
            × (keys_of document_pairs ≡ map (λ key_name. key_name.now) keys.now) }
        requires ascending { self.old.key_order ≡ key_order.Ascending }
        ensures written { OnOk result
            ((writer_before : DisplayWriter) (writer_begun : DisplayWriter) (document_pairs : Pairs)
            → HasBegunDisplay writer_before open_container writer_begun
            → PairsWritten
            (λ state_before key_name shown_value state_after.
            HasDisplayOfValue state_before shown_value state_after) HasDisplayOfKey document_pairs writer_begun self.old
            → keys_of document_pairs ≡ map (λ key_name. key_name.now) keys.now
            → HasDisplayOfPairs writer_before (each_key_once document_pairs) self.new) }
        ensures stops { IfErr result (IsDocumentEndError (λ doubles. ⊥) ⊤ (map (λ key_name. key_name.now) keys.now)) }
    {
        let member_starts = &self.member_starts[open_container.outer_member_count..];
        end_object(
            self.alloc,
            keys,
            member_starts,
            open_container.start,
            self.sort_memory_limit,
            &mut self.text,
        )?;
        put_space_before_brace(keys.is_empty(), &mut self.text)?;
        self.member_starts
            .truncate(open_container.outer_member_count);
        self.needs_comma = true;
        Ok(())
    }

    // Ends a document, and keeps its members in input order. Rejects a duplicate key.
    fn end_in_order(
        &mut self,
        open_container: ContainerStart,
        keys: &mut [&str],
    ) -> Result<(), TraversalError>
        requires first_occurrences { self.old.key_order ≡ key_order.AsGiven }
        ensures written { OnOk result
            ((writer_before : DisplayWriter) (writer_begun : DisplayWriter) (document_pairs : Pairs)
            → HasBegunDisplay writer_before open_container writer_begun
            → PairsWritten
            (λ state_before key_name shown_value state_after.
            HasDisplayOfValue state_before shown_value state_after) HasDisplayOfKey document_pairs writer_begun self.old
            → keys_of document_pairs ≡ map (λ key_name. key_name.now) keys.old
            → HasDisplayOfPairs writer_before (each_key_once document_pairs) self.new) }
        ensures stops { IfErr result (IsDocumentEndError (λ doubles. ⊥) ⊤ (map (λ key_name. key_name.now) keys.old)) }
    {
        let brace = DisplayWriter::closing_brace(self.needs_comma);
        if !are_distinct(self.alloc, keys) {
            return Err(TraversalError::DuplicateKey);
        }
        self.member_starts
            .truncate(open_container.outer_member_count);
        Ok(self.add_text(brace, true)?)
    }

    // Returns the brace that ends a document, with a space after members.
    fn closing_brace(needs_comma: bool) -> &'static str
        ensures { result.now ≡ closing_brace needs_comma }
    {
        if needs_comma { " }" } else { "}" }
    }
}

// The members begin with a space, so that only a comma separates them.
impl ValueWriter for DisplayWriter {
    type OpenContainer = ContainerStart;

    ghost use Rattle.bson_text.specs.DisplayOutput.{HasBegunDisplay, HasBegunCodeDisplay, HasDisplayOfKey, HasDisplayAfterSeparator, HasDisplayOfPairs, HasDisplayOfValue};

    ghost may_give_up = { λ doubles. ⊥ };

    ghost sorts_keys = { ⊤ };

    ghost item_name_of = { λ item_index. [] };

    ghost wrote_value = { λ old key_name shown_value new. HasDisplayOfValue old shown_value new };

    ghost wrote_document = { λ old document_pairs new. HasDisplayOfPairs old document_pairs new };

    ghost began_array = { λ old key_name open_container new. HasDisplayAfterSeparator old (codes "[") false new };

    ghost began_document = { λ old open_container new. HasBegunDisplay old open_container new };

    ghost wrote_key = { λ old key_name new. HasDisplayOfKey old key_name new };

    ghost began_code = { λ old key_name code_bytes open_container new. HasBegunCodeDisplay old code_bytes open_container new };

    fn string(&mut self, _name: &str, text: &str) -> Result<(), TraversalError> {
        self.add_separator()?;
        self.add_text("\"", false)?;
        self.add_text(text, false)?;
        Ok(self.add_text("\"", true)?)
    }

    fn boolean(&mut self, _name: &str, truth: bool) -> Result<(), TraversalError> {
        Ok(self.add_scalar(Scalar::Boolean(truth))?)
    }

    fn null(&mut self, _name: &str) -> Result<(), TraversalError> {
        Ok(self.add_scalar(Scalar::Null)?)
    }

    fn scalar(&mut self, _name: &str, value: Scalar) -> Result<(), TraversalError> {
        Ok(self.add_scalar(value)?)
    }

    fn item_name<'b>(_buffer: &'b mut Buffer, _index: usize) -> &'b str {
        ""
    }

    fn begin_array(&mut self, _name: &str) -> Result<ContainerStart, TraversalError> {
        self.add_separator()?;
        let open_container = self.container_start();
        self.add_text("[", false)?;
        Ok(open_container)
    }

    fn end_array(&mut self, _open_container: ContainerStart) -> Result<(), TraversalError> {
        Ok(self.add_text("]", true)?)
    }

    fn embed_document(&mut self, _name: &str) -> Result<(), TraversalError> {
        Ok(())
    }

    fn begin_document(&mut self) -> Result<ContainerStart, TraversalError> {
        self.add_separator()?;
        let open_container = self.container_start();
        self.add_text("{", false)?;
        Ok(open_container)
    }

    fn key(&mut self, name: &str) -> Result<(), TraversalError> {
        put_comma(self.needs_comma, &mut self.text)?;
        let Ok(()) = self.member_starts.push(self.text.len()) else {
            return Err(TraversalError::OutOfMemory);
        };
        self.add_text(" \"", false)?;
        self.add_text(name, false)?;
        Ok(self.add_text("\": ", false)?)
    }

    fn end_document(
        &mut self,
        open_container: ContainerStart,
        keys: &mut [&str],
    ) -> Result<(), TraversalError> {
        match self.key_order {
            KeyOrder::AsGiven => self.end_in_order(open_container, keys),
            KeyOrder::Ascending => self.end_sorted(open_container, keys),
        }
    }

    // Begins the scope, which is not shown.
    fn begin_code(&mut self, _name: &str, code: &str) -> Result<ContainerStart, TraversalError> {
        self.add_separator()?;
        self.add_text(code, false)?;
        Ok(self.container_start())
    }

    fn end_code(&mut self, scope: ContainerStart) -> Result<(), TraversalError> {
        self.text.truncate(scope.start);
        self.needs_comma = true;
        Ok(())
    }
}

// Inserts a space before the brace that ends a document, if it has members.
fn put_space_before_brace(is_empty: bool, text: &mut Vec<u8>) -> Result<(), AllocError>
    requires { EndsWithBrace text.old.items }
    ensures text { OnOk result (text.new.items ≡ (if is_empty then text.old.items
        else (take (length text.old.items - 1) text.old.items ++ codes " }"))) }
    ensures utf8 { is_utf8 text.new.items ≡ true }
{
    if !is_empty {
        text.pop();
        text.extend_from_slice(b" }")?;
    }
    Ok(())
}

fn scalar_ref(value: &Scalar) -> ScalarRef<'_>
    ensures { scalar_of result ≡ scalar_view value.now }
{
    match value {
        Scalar::Null => ScalarRef::Null,
        Scalar::Undefined => ScalarRef::Undefined,
        Scalar::MinKey => ScalarRef::MinKey,
        Scalar::MaxKey => ScalarRef::MaxKey,
        Scalar::Boolean(truth) => ScalarRef::Boolean(*truth),
        Scalar::Double(pattern) => ScalarRef::Double(*pattern),
        Scalar::Int32(number_value) => ScalarRef::Int32(*number_value),
        Scalar::Int64(number_value) => ScalarRef::Int64(*number_value),
        Scalar::String(text) => ScalarRef::String(text.as_str()),
        Scalar::Symbol(text) => ScalarRef::Symbol(text.as_str()),
        Scalar::JavaScriptCode(code) => ScalarRef::JavaScriptCode(code.as_str()),
        Scalar::RegularExpression(regex) => ScalarRef::RegularExpression(regex),
        Scalar::Timestamp(stamp) => ScalarRef::Timestamp(*stamp),
        Scalar::Binary(binary) => ScalarRef::Binary(binary),
        Scalar::ObjectId(id) => ScalarRef::ObjectId(*id),
        Scalar::DateTime(date) => ScalarRef::DateTime(*date),
        Scalar::Decimal128(decimal) => ScalarRef::Decimal128(*decimal),
        Scalar::DbPointer(pointer) => ScalarRef::DbPointer(pointer),
    }
}
