//! The writer to which the values of a text are written as they are read.
ghost use Rattle.std.specs.Prelude.{◌≡◌, ℕ, List, map, OnOk, IfOk, IfErr};
ghost use Rattle.bson_scalar.specs.Scalar as kind;
ghost use Rattle.bson_scalar.specs.View.{scalar_view};
ghost use Rattle.bson_scalar.specs.declared.form.Doubles.{Doubles};
ghost use Rattle.bson_model.specs.Value.{Value, Values, Pairs, scalar, code_scope, array, document};
ghost use Rattle.bson_text.specs.TraversalResults.{ItemsWritten, PairsWritten, keys_of, each_key_once};
ghost use Rattle.bson_text.specs.TraversalErrors.{IsWriterError, IsScalarWriterError, IsDocumentEndError};

use crate::traversal_error::TraversalError;
use bson_scalar::scalar::Scalar;
use itoa::Buffer;

/// A writer of values, part by part. Each value has a name: its key in a document, or the name of its
/// position in an array.
pub trait ValueWriter {
    /// An array, a document or code that was begun.
    type OpenContainer: Drop;

    // Whether it may give up a text whose doubles are read in this mode.
    ghost may_give_up: { (doubles : Doubles) → Type 0 };

    // Whether it may give up a document whose keys do not ascend.
    ghost sorts_keys: { Type 0 };

    // The name of the element at a position of an array.
    ghost item_name_of: { (item_index : ℕ) → List ℕ };

    // Between two states the value was written under the name.
    ghost wrote_value: { (writer_before : Self) → (key_name : List ℕ) → (written_value : Value) → (writer_after : Self) → Type 0 };

    // Between two states the document of the pairs was written, under no name.
    ghost wrote_document: { (writer_before : Self) → (document_pairs : Pairs) → (writer_after : Self) → Type 0 };

    // Between two states an array of this name was begun.
    ghost began_array: { (writer_before : Self) → (key_name : List ℕ) → Self.OpenContainer → (writer_after : Self) → Type 0 };

    // Between two states a document was begun.
    ghost began_document: { (writer_before : Self) → Self.OpenContainer → (writer_after : Self) → Type 0 };

    // Between two states the key was written of the value that comes next in a document.
    ghost wrote_key: { (writer_before : Self) → (key_name : List ℕ) → (writer_after : Self) → Type 0 };

    // Between two states code of this name was begun, whose scope comes next.
    ghost began_code: { (writer_before : Self) → (key_name code_bytes : List ℕ) → Self.OpenContainer → (writer_after : Self) → Type 0 };

    /// Writes a text.
    fn string(&mut self, name: &str, text: &str) -> Result<(), TraversalError>
        ensures written { OnOk result (wrote_value self.old name.now (scalar (kind.text text.now)) self.new) }
        ensures stops { IfErr result (IsWriterError may_give_up) };

    /// Writes a boolean.
    fn boolean(&mut self, name: &str, truth: bool) -> Result<(), TraversalError>
        ensures written { OnOk result (wrote_value self.old name.now (scalar (kind.boolean truth)) self.new) }
        ensures stops { IfErr result (IsWriterError may_give_up) };

    /// Writes `null`.
    fn null(&mut self, name: &str) -> Result<(), TraversalError>
        ensures written { OnOk result (wrote_value self.old name.now (scalar kind.null) self.new) }
        ensures stops { IfErr result (IsWriterError may_give_up) };

    /// Writes a scalar.
    fn scalar(&mut self, name: &str, value: Scalar) -> Result<(), TraversalError>
        ensures written { OnOk result (wrote_value self.old name.now (scalar (scalar_view value)) self.new) }
        ensures stops { IfErr result (IsScalarWriterError may_give_up (scalar_view value)) };

    /// Returns the name of the element at the position of an array.
    fn item_name<'b>(buffer: &'b mut Buffer, index: usize) -> &'b str
        ensures { result.now ≡ item_name_of index };

    /// Begins an array.
    fn begin_array(&mut self, name: &str) -> Result<Self::OpenContainer, TraversalError>
        ensures written { IfOk result (λ open_container. began_array self.old name.now open_container self.new) }
        ensures stops { IfErr result (IsWriterError may_give_up) };

    /// Ends the array that was begun.
    fn end_array(&mut self, open_container: Self::OpenContainer) -> Result<(), TraversalError>
        requires { (writer_before : Self) × (writer_begun : Self) × (key_name : List ℕ) × (item_values : Values)
            × began_array writer_before key_name open_container writer_begun
            × ItemsWritten wrote_value item_name_of 0 item_values writer_begun self.old }
        ensures written { OnOk result
            ((writer_before : Self) (writer_begun : Self) (key_name : List ℕ) (item_values : Values)
            → began_array writer_before key_name open_container writer_begun
            → ItemsWritten wrote_value item_name_of 0 item_values writer_begun self.old
            → wrote_value writer_before key_name (array item_values) self.new) }
        ensures stops { IfErr result (IsWriterError may_give_up) };

    /// Writes what precedes a document that has a name.
    fn embed_document(&mut self, name: &str) -> Result<(), TraversalError>
        ensures written { OnOk result ((document_pairs : Pairs) (writer_after : Self)
            → wrote_document self.new document_pairs writer_after
            → wrote_value self.old name.now (document document_pairs) writer_after) }
        ensures stops { IfErr result (IsWriterError may_give_up) };

    /// Begins a document.
    fn begin_document(&mut self) -> Result<Self::OpenContainer, TraversalError>
        ensures written { IfOk result (λ open_container. began_document self.old open_container self.new) }
        ensures stops { IfErr result (IsWriterError may_give_up) };

    /// Writes the next key of a document.
    fn key(&mut self, name: &str) -> Result<(), TraversalError>
        ensures written { OnOk result (wrote_key self.old name.now self.new) }
        ensures stops { IfErr result (IsWriterError may_give_up) };

    /// Ends the document that was begun, with these keys in their order. If a key is duplicated, its
    /// last value wins, at its first position. The keys may be sorted. A writer may
    /// give up a document whose keys are not in order.
    fn end_document(
        &mut self,
        open_container: Self::OpenContainer,
        keys: &mut [&str],
    ) -> Result<(), TraversalError>
        requires { (writer_before : Self) × (writer_begun : Self) × (document_pairs : Pairs)
            × began_document writer_before open_container writer_begun
            × PairsWritten wrote_value wrote_key document_pairs writer_begun self.old
            × (keys_of document_pairs ≡ map (λ key_name. key_name.now) keys.old) }
        ensures written { OnOk result ((writer_before : Self) (writer_begun : Self) (document_pairs : Pairs)
            → began_document writer_before open_container writer_begun
            → PairsWritten wrote_value wrote_key document_pairs writer_begun self.old
            → keys_of document_pairs ≡ map (λ key_name. key_name.now) keys.old
            → wrote_document writer_before (each_key_once document_pairs) self.new) }
        ensures stops { IfErr result
            (IsDocumentEndError may_give_up sorts_keys (map (λ key_name. key_name.now) keys.old)) };

    /// Begins code with its scope.
    fn begin_code(&mut self, name: &str, code: &str) -> Result<Self::OpenContainer, TraversalError>
        ensures written { IfOk result
            (λ open_container. began_code self.old name.now code.now open_container self.new) }
        ensures stops { IfErr result (IsWriterError may_give_up) };

    /// Ends the code that was begun.
    fn end_code(&mut self, open_container: Self::OpenContainer) -> Result<(), TraversalError>
        requires { (writer_before : Self) × (writer_begun : Self) × (key_name : List ℕ) × (code_bytes : List ℕ)
            × (document_pairs : Pairs) × began_code writer_before key_name code_bytes open_container writer_begun
            × wrote_document writer_begun document_pairs self.old }
        ensures written { OnOk result
            ((writer_before : Self) (writer_begun : Self) (key_name : List ℕ) (code_bytes : List ℕ)
            (document_pairs : Pairs) → began_code writer_before key_name code_bytes open_container writer_begun
            → wrote_document writer_begun document_pairs self.old
            → wrote_value writer_before key_name (code_scope code_bytes document_pairs) self.new) }
        ensures stops { IfErr result (IsWriterError may_give_up) };
}
