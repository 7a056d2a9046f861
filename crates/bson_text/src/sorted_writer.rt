//! A text of Extended JSON that values are written to, each document's keys in ascending order.
ghost use Rattle.std.specs.Prelude.{◌≡◌, ◌<◌, ◌∷◌, [], length, true, false, OnOk, IfOk, ⊤};
ghost use Rattle.std.specs.Str.{is_utf8};
ghost use Rattle.json.specs.Print.{print};
ghost use Rattle.serde_json.specs.Written.{comma_if};

use crate::member_spans::{allowed_sort_memory, end_object, put_comma};
use crate::traversal_error::{TraversalError, write_error};
use crate::value_writer::ValueWriter;
use bson_scalar::code::put_code;
use bson_scalar::form::{Doubles, Form};
use bson_scalar::scalar::Scalar;
use bson_scalar::write::print_scalar_in;
use itoa::Buffer;
use json::Writer;
use std::alloc::{AllocError, Global};
use std::mem::replace;

// The capacity for a fragment, enough for almost every value, and for the offsets of members. A short
// input needs no more.
const FRAGMENT_CAPACITY: usize = 64;

const MEMBER_STARTS_CAPACITY: usize = 16;

/// The compact text of values in a form. It has the members of an open document in input order, each
/// from its offset on.
#[derive(Drop)]
pub struct SortedWriter {
    pub(crate) alloc: Global,
    pub(crate) doubles: Doubles,
    pub(crate) form: Form,
    /// The text so far.
    pub text: Vec<u8>,
    // Memory for the writer of a fragment: a writer of the long text would reserve much more.
    pub(crate) fragment: Vec<u8>,
    // The offsets of the members of all open documents, the outermost document before the others.
    pub(crate) member_starts: Vec<usize>,
    // Whether a value precedes the next value.
    pub(crate) needs_comma: bool,
    // How many bytes may be allocated to sort members.
    pub(crate) sort_memory_limit: usize,
    ghost utf8: { is_utf8 text.items ≡ true },
}

/// The offset at which an open array or object begins, and the number of open members before it.
#[derive(Clone, Copy, Drop)]
pub struct ContainerStart {
    pub(crate) start: usize,
    pub(crate) outer_member_count: usize,
}

impl SortedWriter {
    ghost use Rattle.bson_text.specs.SortedOutput.{HasOutputAdded};

    /// Returns a writer of an empty text, with room for this number of bytes. Sorting may allocate some nine times
    /// the input's length.
    ///
    /// # Errors
    ///
    /// `AllocError`: an allocation failed.
    pub fn new(
        alloc: Global,
        doubles: Doubles,
        form: Form,
        capacity: usize,
        input_length: usize,
    ) -> Result<SortedWriter, AllocError>
        ensures modes { IfOk result (λ writer. (writer.doubles ≡ doubles) × (writer.form ≡ form)) }
        ensures empty { IfOk result (λ writer. (writer.text.items ≡ []) × (writer.needs_comma ≡ false)) }
    {
        Ok(SortedWriter {
            alloc,
            doubles,
            form,
            text: Vec::with_capacity(alloc, capacity)?,
            fragment: Vec::with_capacity(alloc, FRAGMENT_CAPACITY)?,
            member_starts: Vec::with_capacity(alloc, MEMBER_STARTS_CAPACITY)?,
            needs_comma: false,
            sort_memory_limit: allowed_sort_memory(input_length),
        })
    }

    // Adds the comma that is due.
    fn add_comma(&mut self) -> Result<(), AllocError>
        ensures { OnOk result (HasOutputAdded self.old (comma_if self.old.needs_comma) self.old.needs_comma self.new) }
    {
        put_comma(self.needs_comma, &mut self.text)
    }

    // Adds a byte of ASCII, after which a comma is needed or not.
    fn add_byte(&mut self, byte: u8, needs_comma: bool) -> Result<(), AllocError>
        requires { byte < 128 }
        ensures { OnOk result (HasOutputAdded self.old (byte ∷ []) needs_comma self.new) }
    {
        self.text.push(byte)?;
        self.needs_comma = needs_comma;
        Ok(())
    }

    // Adds the comma that is due, and begins the fragment after it.
    fn begin_fragment(&mut self) -> Result<Writer, AllocError>
        ensures empty { IfOk result (λ fragment. (fragment.before ≡ []) × (fragment.tokens ≡ [])) }
        ensures comma { OnOk result
            (HasOutputAdded self.old (comma_if self.old.needs_comma) self.old.needs_comma self.new) }
    {
        self.add_comma()?;
        let mut fragment = replace(&mut self.fragment, Vec::new(self.alloc));
        fragment.clear();
        Ok(Writer::new(fragment))
    }

    // Adds the fragment that was begun, after which a comma is needed or not.
    fn add_fragment(&mut self, fragment: Writer, needs_comma: bool) -> Result<(), AllocError>
        requires { fragment.before ≡ [] }
        ensures { OnOk result (HasOutputAdded self.old (print fragment.tokens) needs_comma self.new) }
    {
        self.fragment = fragment.into_inner();
        self.text.extend_from_slice(&self.fragment)?;
        self.needs_comma = needs_comma;
        Ok(())
    }

    fn container_start(&self) -> ContainerStart
        ensures start { result.start ≡ length self.now.text.items }
        ensures outer_member_count { result.outer_member_count ≡ length self.now.member_starts.items }
    {
        ContainerStart {
            start: self.text.len(),
            outer_member_count: self.member_starts.len(),
        }
    }
}

impl ValueWriter for SortedWriter {
    type OpenContainer = ContainerStart;

    ghost use Rattle.bson_scalar.specs.Tokens.{code_tokens};
    ghost use Rattle.bson_scalar.specs.declared.form.Doubles.TheVariants.{Finite};
    ghost use Rattle.bson_text.specs.SortedOutput.{HasOutputAfterComma, HasSortedValue, HasSortedPairs, HasBegunObject, HasKeyAdded};

    ghost may_give_up = { λ doubles. doubles ≡ Finite };

    ghost sorts_keys = { ⊤ };

    ghost item_name_of = { λ item_index. [] };

    ghost wrote_value = { λ old key_name written_value new. HasSortedValue old written_value new };

    ghost wrote_document = { λ old document_pairs new. HasSortedPairs old document_pairs new };

    ghost began_array = { λ old key_name open_container new. HasOutputAfterComma old (91 ∷ []) false new };

    ghost began_document = { λ old open_container new. HasBegunObject old open_container new };

    ghost wrote_key = { λ old key_name new. HasKeyAdded old key_name new };

    ghost began_code = { λ old key_name code_bytes open_container new. HasOutputAfterComma old (print (code_tokens code_bytes)) false new };

    fn string(&mut self, _name: &str, text: &str) -> Result<(), TraversalError> {
        let mut fragment = self.begin_fragment()?;
        fragment.string(text)?;
        Ok(self.add_fragment(fragment, true)?)
    }

    fn boolean(&mut self, _name: &str, truth: bool) -> Result<(), TraversalError> {
        let mut fragment = self.begin_fragment()?;
        fragment.boolean(truth)?;
        Ok(self.add_fragment(fragment, true)?)
    }

    fn null(&mut self, _name: &str) -> Result<(), TraversalError> {
        let mut fragment = self.begin_fragment()?;
        fragment.null()?;
        Ok(self.add_fragment(fragment, true)?)
    }

    fn scalar(&mut self, _name: &str, value: Scalar) -> Result<(), TraversalError> {
        let mut fragment = self.begin_fragment()?;
        print_scalar_in(self.alloc, self.doubles, self.form, value, &mut fragment).map_err(
            write_error,
        )?;
        Ok(self.add_fragment(fragment, true)?)
    }

    fn item_name<'b>(_buffer: &'b mut Buffer, _index: usize) -> &'b str {
        ""
    }

    fn begin_array(&mut self, _name: &str) -> Result<ContainerStart, TraversalError> {
        self.add_comma()?;
        let open_container = self.container_start();
        self.add_byte(b'[', false)?;
        Ok(open_container)
    }

    fn end_array(&mut self, _open_container: ContainerStart) -> Result<(), TraversalError> {
        Ok(self.add_byte(b']', true)?)
    }

    fn embed_document(&mut self, _name: &str) -> Result<(), TraversalError> {
        Ok(())
    }

    fn begin_document(&mut self) -> Result<ContainerStart, TraversalError> {
        self.add_comma()?;
        let open_container = self.container_start();
        self.add_byte(b'{', false)?;
        Ok(open_container)
    }

    fn key(&mut self, name: &str) -> Result<(), TraversalError> {
        let mut fragment = self.begin_fragment()?;
        let Ok(()) = self.member_starts.push(self.text.len()) else {
            return Err(TraversalError::OutOfMemory);
        };
        fragment.key(name)?;
        Ok(self.add_fragment(fragment, false)?)
    }

    fn end_document(
        &mut self,
        open_container: ContainerStart,
        keys: &mut [&str],
    ) -> Result<(), TraversalError> {
        let member_starts = &self.member_starts[open_container.outer_member_count..];
        end_object(
            self.alloc,
            keys,
            member_starts,
            open_container.start,
            self.sort_memory_limit,
            &mut self.text,
        )?;
        self.member_starts
            .truncate(open_container.outer_member_count);
        self.needs_comma = true;
        Ok(())
    }

    fn begin_code(&mut self, _name: &str, code: &str) -> Result<ContainerStart, TraversalError> {
        let mut fragment = self.begin_fragment()?;
        let open_container = self.container_start();
        put_code(code, &mut fragment)?;
        self.add_fragment(fragment, false)?;
        Ok(open_container)
    }

    fn end_code(&mut self, _open_container: ContainerStart) -> Result<(), TraversalError> {
        Ok(self.add_byte(b'}', true)?)
    }
}
