//! Sinks of values.
ghost use Rattle.std.specs.Prelude.{◌≤◌, Bool, true, false, List, ℕ, length, IfOk, IfErr, OnOk};
ghost use Rattle.bson_scalar.specs.Scalar as kind;
ghost use Rattle.bson_types.specs.BinarySubtypes.{subtype_of};
ghost use Rattle.bson_bytes.specs.Grammar.{deduplicated, pair_values};
ghost use Rattle.bson_bytes.specs.Reading.{read_key};
ghost use Rattle.bson_model.specs.declared.options.DuplicateKeys.{DuplicateKeys};
ghost use Rattle.bson_model.specs.Value.{Value, Pairs, no_pairs, scalar, code_scope, array, document};
ghost use Rattle.bson_bytes.specs.declared.stop.Stop.{Stop};
ghost use Rattle.bson_bytes.specs.declared.stop.Stop.TheVariants as stops;
ghost use Rattle.bson_bytes.specs.FixedScalars.{fixed_scalar_view};
ghost use Rattle.bson_bytes.specs.Source.{ReadsTo, IsSinkStop, earlier_keys, with_last_pair};

use crate::fixed_scalar::FixedSizeScalar;
use crate::stop::Stop;
use std::alloc::AllocError;

/// A sink of values, which receives each part of a value as it is read. Each call returns a token
/// for its output: a value in memory, or nothing if the sink appends to an output.
pub trait ValueSink {
    /// A value that was written.
    type Value: Drop;

    /// An open array or document.
    type OpenList: Drop;

    /// The name of the next element.
    type Name: Drop;

    /// A document that was written.
    type Document: Drop;

    /// Open code, whose scope comes next.
    type Code: Drop;

    // Whether duplicate keys are allowed in documents.
    ghost keys: { DuplicateKeys };

    // A reason for which the sink can stop.
    ghost may_stop: { Stop → Type 0 };

    // The value was written between two states, and this is its token.
    ghost value_written: { (old_sink : Self) → Value → (token : Self.Value) → (new_sink : Self) → Type 0 };

    // A document (true) or an array (false) was opened between two states, and these elements were written.
    ghost list_opened: { (is_document : Bool) → (old_sink : Self) → Pairs → Self.OpenList → (new_sink : Self) → Type 0 };

    // The name of the next element in a document (true) or an array was written between two states.
    ghost name_written: { (is_document : Bool) → (old_sink : Self) → (name : List ℕ) → (token : Self.Name) → (new_sink : Self) → Type 0 };

    // The document of the pairs was written between two states, and this is its token.
    ghost document_written: { (old_sink : Self) → Pairs → (token : Self.Document) → (new_sink : Self) → Type 0 };

    // Code was opened between two states, and its scope comes next.
    ghost code_opened: { (old_sink : Self) → (code : List ℕ) → (token : Self.Code) → (new_sink : Self) → Type 0 };

    /// Writes a scalar with a constant size: a number, a boolean, an object id and others.
    fn fixed_scalar(&mut self, value: FixedSizeScalar) -> Result<Self::Value, AllocError>
        ensures outcome { IfOk result
            (λ token. value_written self.old (scalar (fixed_scalar_view value)) token self.new) }
        ensures stop { IfErr result (λ error. may_stop stops.OutOfMemory) };

    /// Writes a string.
    fn string(&mut self, text: &str) -> Result<Self::Value, AllocError>
        ensures outcome { IfOk result (λ token. value_written self.old (scalar (kind.text text.now)) token self.new) }
        ensures stop { IfErr result (λ error. may_stop stops.OutOfMemory) };

    /// Writes a symbol.
    fn symbol(&mut self, text: &str) -> Result<Self::Value, AllocError>
        ensures outcome { IfOk result (λ token. value_written self.old (scalar (kind.symbol text.now)) token self.new) }
        ensures stop { IfErr result (λ error. may_stop stops.OutOfMemory) };

    /// Writes code without a scope.
    fn code(&mut self, text: &str) -> Result<Self::Value, AllocError>
        ensures outcome { IfOk result (λ token. value_written self.old (scalar (kind.code text.now)) token self.new) }
        ensures stop { IfErr result (λ error. may_stop stops.OutOfMemory) };

    /// Writes a regular expression.
    fn regex(&mut self, pattern: &str, options: &str) -> Result<Self::Value, AllocError>
        ensures outcome { IfOk result
            (λ token. value_written self.old (scalar (kind.regex pattern.now options.now)) token self.new) }
        ensures stop { IfErr result (λ error. may_stop stops.OutOfMemory) };

    /// Writes binary data with a subtype.
    fn binary(&mut self, subtype: u8, bytes: &[u8]) -> Result<Self::Value, AllocError>
        ensures outcome { IfOk result
            (λ token. value_written self.old (scalar (kind.binary (subtype_of subtype) bytes.now)) token self.new) }
        ensures stop { IfErr result (λ error. may_stop stops.OutOfMemory) };

    /// Writes a pointer to a document of another collection.
    fn pointer(&mut self, namespace: &str, id: [u8; 12]) -> Result<Self::Value, AllocError>
        ensures outcome { IfOk result
            (λ token. value_written self.old (scalar (kind.db_pointer namespace.now id)) token self.new) }
        ensures stop { IfErr result (λ error. may_stop stops.OutOfMemory) };

    /// Begins a document or an array.
    fn begin(&mut self, is_document: bool) -> Result<Self::OpenList, AllocError>
        ensures outcome { IfOk result (λ open_list. list_opened is_document self.old no_pairs open_list self.new) }
        ensures stop { IfErr result (λ error. may_stop stops.OutOfMemory) };

    /// Reads the name at the front of the bytes, and writes it as that of the next element of the list.
    /// An array accepts any names. If duplicate keys are refused, a key that the document has already
    /// is a fault of the bytes.
    fn name<'b>(
        &mut self,
        is_document: bool,
        list: &Self::OpenList,
        bytes: &'b [u8],
    ) -> Result<(Self::Name, &'b [u8]), Stop>
        ensures outcome { (sink_before : Self) (pairs : Pairs)
            → list_opened is_document sink_before pairs list.now self.old
            → ReadsTo may_stop (λ returned. returned.1.now)
            (λ name_read returned. name_written is_document self.old name_read returned.0 self.new) result
            (read_key (earlier_keys keys is_document pairs) bytes.now) }
        ensures shorter { IfOk result (λ returned. length returned.1.now ≤ length bytes.now) };

    /// Adds the value with this name to the document or array.
    fn element(
        &mut self,
        is_document: bool,
        list: &mut Self::OpenList,
        name: Self::Name,
        value: Self::Value,
    ) -> Result<(), AllocError>
        ensures outcome { OnOk result
            ((sink_before : Self) (sink_before_name : Self) (sink_after_name : Self) (pairs : Pairs) (key : List ℕ)
            (bson_value : Value)
            → list_opened is_document sink_before pairs list.old sink_before_name
            → name_written is_document sink_before_name key name sink_after_name
            → value_written sink_after_name bson_value value self.old
            → list_opened is_document sink_before (with_last_pair pairs key bson_value) list.new self.new) }
        ensures stop { IfErr result (λ error. may_stop stops.OutOfMemory) };

    /// Ends an array.
    fn end_array(&mut self, list: Self::OpenList) -> Result<Self::Value, AllocError>
        requires { (sink_before : Self) × (pairs : Pairs) × list_opened false sink_before pairs list self.old }
        ensures outcome { IfOk result (λ token. (sink_before : Self) (pairs : Pairs)
            → list_opened false sink_before pairs list self.old
            → value_written sink_before (array (pair_values pairs)) token self.new) }
        ensures stop { IfErr result (λ error. may_stop stops.OutOfMemory) };

    /// Ends a document. If a key is duplicated, its last value wins, at its first position. A sink can
    /// give up instead.
    fn end_document(&mut self, list: Self::OpenList) -> Result<Self::Document, Stop>
        requires { (sink_before : Self) × (pairs : Pairs) × list_opened true sink_before pairs list self.old }
        ensures outcome { IfOk result (λ token. (sink_before : Self) (pairs : Pairs)
            → list_opened true sink_before pairs list self.old
            → document_written sink_before (deduplicated pairs) token self.new) }
        ensures stop { IfErr result may_stop }
        ensures no_fault { IfErr result IsSinkStop };

    /// Writes the document as a value.
    fn embed_document(
        &mut self,
        written_document: Self::Document,
    ) -> Result<Self::Value, AllocError>
        ensures outcome { IfOk result (λ token. (sink_before : Self) (pairs : Pairs)
            → document_written sink_before pairs written_document self.old
            → value_written sink_before (document pairs) token self.new) }
        ensures stop { IfErr result (λ error. may_stop stops.OutOfMemory) };

    /// Begins code with its scope.
    fn begin_code(&mut self, text: &str) -> Result<Self::Code, AllocError>
        ensures outcome { IfOk result (λ opened_code. code_opened self.old text.now opened_code self.new) }
        ensures stop { IfErr result (λ error. may_stop stops.OutOfMemory) };

    /// Ends code whose scope was written.
    fn end_code(
        &mut self,
        code: Self::Code,
        scope: Self::Document,
    ) -> Result<Self::Value, AllocError>
        requires { (sink_before : Self) × (sink_after_code : Self) × (code_text : List ℕ) × (pairs : Pairs)
            × code_opened sink_before code_text code sink_after_code
            × document_written sink_after_code pairs scope self.old }
        ensures outcome { IfOk result
            (λ token. (sink_before : Self) (sink_after_code : Self) (code_text : List ℕ) (pairs : Pairs)
            → code_opened sink_before code_text code sink_after_code
            → document_written sink_after_code pairs scope self.old
            → value_written sink_before (code_scope code_text pairs) token self.new) }
        ensures stop { IfErr result (λ error. may_stop stops.OutOfMemory) };
}
