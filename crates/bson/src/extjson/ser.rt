//! Trees and texts from values.
ghost use Rattle.std.specs.Prelude.{◌≡◌, ◌-◌, ◌*◌, ◌<◌, ◌≤◌, ◌++◌, ℕ, List, length, IfOk, IfErr, OnOk, OnErr, Err, true, false};
ghost use Rattle.std.specs.Prelude.{string_bytes, vec_capacity, vec_len};
ghost use Rattle.serde_json.specs.View.{view};
ghost use Rattle.bson_scalar.specs.Forms.{form_in};
ghost use Rattle.bson_scalar.specs.declared.form.Form.TheVariants.{Canonical, Relaxed};
ghost use Rattle.bson_scalar.specs.declared.write_error.WriteError.{WriteError};
ghost use Rattle.bson_model.specs.Texts.{ReadsAgain, ReadsAgainIn};
ghost use Rattle.bson_model.specs.Normal.{NumbersInRange, writable, writable_in};
ghost use Rattle.bson_model.specs.Laws.{IsTreeOf, IsTreeOfIn, FormsAreIdempotent, FormsAreIdempotentIn};
ghost use Rattle.bson_model.specs.DistinctKeys.{AllKeysDistinct};
ghost use Rattle.bson.specs.OutputCapacity.{IsAllocationFree, value_capacity};
ghost use Rattle.bson.specs.Texts.{IsTextInKeyOrder, IsTextIn, IsTextInOrder, IsWriteErrorIn};
ghost use Rattle.bson.specs.View.{bson_view};

use crate::bson::Bson;
use crate::extjson::text_writer::{append_text, text_of};
use crate::extjson::write::write;
use bson_model::options::Options;
use bson_scalar::form::{Doubles, Form};
use bson_scalar::write_error::WriteError;
use serde_json::Value;
use std::alloc::Global;

impl Bson {
    /// Makes the canonical tree of the value (MongoDB Extended JSON v2), which keeps every type.
    ///
    /// It is the tree of the value's normal form. The options of a regular expression are sorted,
    /// and a NaN is its sign's one pattern. A binary's subtype is as its byte reads, and a decimal
    /// has its canonical pattern.
    ///
    /// # Errors
    ///
    /// - `FiniteDouble`: the value contains a finite double other than zero.
    /// - `OutOfMemory`: a request for memory was refused.
    pub fn into_canonical_extjson(self, alloc: Global) -> Result<Value, WriteError>
        ensures tree { IfOk result (λ json_tree. IsTreeOf Canonical (bson_view self) (view json_tree)) }
        ensures reads_again { IfOk result (λ json_tree. ReadsAgain Canonical (bson_view self) (view json_tree)) }
        ensures idempotent { FormsAreIdempotent (bson_view self) }
        ensures within_type_range { OnOk result (NumbersInRange (bson_view self)) }
        ensures writable { OnOk result (writable (bson_view self) ≡ true) }
        ensures finite { result ≡ Err WriteError.FiniteDouble → writable (bson_view self) ≡ false }
    {
        self.into_extjson(alloc, Doubles::Special, Form::Canonical)
    }

    /// Makes the relaxed tree of the value (MongoDB Extended JSON v2), with plain numbers and
    /// readable dates. It reads back as the normal form in which each `Int64` that fits an i32 is
    /// the `Int32`.
    ///
    /// # Errors
    ///
    /// - `FiniteDouble`: the value contains a finite double other than zero.
    /// - `OutOfMemory`: a request for memory was refused.
    pub fn into_relaxed_extjson(self, alloc: Global) -> Result<Value, WriteError>
        ensures tree { IfOk result (λ json_tree. IsTreeOf Relaxed (bson_view self) (view json_tree)) }
        ensures reads_again { IfOk result (λ json_tree. ReadsAgain Relaxed (bson_view self) (view json_tree)) }
        ensures idempotent { FormsAreIdempotent (bson_view self) }
        ensures within_type_range { OnOk result (NumbersInRange (bson_view self)) }
        ensures writable { OnOk result (writable (bson_view self) ≡ true) }
        ensures finite { result ≡ Err WriteError.FiniteDouble → writable (bson_view self) ≡ false }
    {
        self.into_extjson(alloc, Doubles::Special, Form::Relaxed)
    }

    /// Makes the tree of the value in a form (MongoDB Extended JSON v2), with these doubles.
    ///
    /// With `Doubles::Finite` every value has a tree. A finite double is its shortest decimal, for
    /// example `{"$numberDouble": "12.5"}`, and a number in the relaxed form. With
    /// `Doubles::Special` it is the tree of [`Bson::into_canonical_extjson`] or
    /// [`Bson::into_relaxed_extjson`].
    ///
    /// # Errors
    ///
    /// - `FiniteDouble`: the value contains a finite double other than zero, with
    ///   `Doubles::Special`.
    /// - `OutOfMemory`: a request for memory was refused.
    pub fn into_extjson(
        self,
        alloc: Global,
        doubles: Doubles,
        form: Form,
    ) -> Result<Value, WriteError>
        ensures tree { IfOk result (λ json_tree. IsTreeOfIn doubles form (bson_view self) (view json_tree)) }
        ensures reads_again { IfOk result (λ json_tree. ReadsAgainIn doubles form (bson_view self) (view json_tree)) }
        ensures idempotent { FormsAreIdempotentIn doubles (bson_view self) }
        ensures within_type_range { OnOk result (NumbersInRange (bson_view self)) }
        ensures writable { OnOk result (writable_in doubles (bson_view self) ≡ true) }
        ensures finite { result ≡ Err WriteError.FiniteDouble → writable_in doubles (bson_view self) ≡ false }
        ensures possible_errors { IfErr result (IsWriteErrorIn doubles) }
    {
        write(alloc, doubles, form, self)
    }

    /// Writes the compact text of the canonical tree of the value, as
    /// [`Bson::into_canonical_extjson`] makes it and `serde_json` writes it. No tree is made.
    ///
    /// # Errors
    ///
    /// - `FiniteDouble`: the value contains a finite double other than zero.
    /// - `OutOfMemory`: a request for memory was refused.
    pub fn to_canonical_text(&self, alloc: Global) -> Result<String, WriteError>
        ensures text { IfOk result (λ text. IsTextIn Canonical (bson_view self.now) (string_bytes text)) }
        ensures within_type_range { OnOk result (NumbersInRange (bson_view self.now)) }
        ensures writable { OnOk result (writable (bson_view self.now) ≡ true) }
        ensures finite { result ≡ Err WriteError.FiniteDouble → writable (bson_view self.now) ≡ false }
    {
        self.to_text(alloc, Options::default(), Form::Canonical)
    }

    /// Writes the text of [`Bson::to_canonical_text`], and drops the value.
    ///
    /// # Errors
    ///
    /// The errors of [`Bson::to_canonical_text`].
    pub fn into_canonical_text(self, alloc: Global) -> Result<String, WriteError>
        ensures text { IfOk result (λ text. IsTextIn Canonical (bson_view self) (string_bytes text)) }
        ensures within_type_range { OnOk result (NumbersInRange (bson_view self)) }
        ensures writable { OnOk result (writable (bson_view self) ≡ true) }
        ensures finite { result ≡ Err WriteError.FiniteDouble → writable (bson_view self) ≡ false }
    {
        self.to_canonical_text(alloc)
    }

    /// Writes the compact text of the relaxed tree of the value, as [`Bson::into_relaxed_extjson`]
    /// makes it and `serde_json` writes it. No tree is made.
    ///
    /// # Errors
    ///
    /// - `FiniteDouble`: the value contains a finite double other than zero.
    /// - `OutOfMemory`: a request for memory was refused.
    pub fn to_relaxed_text(&self, alloc: Global) -> Result<String, WriteError>
        ensures text { IfOk result (λ text. IsTextIn Relaxed (bson_view self.now) (string_bytes text)) }
        ensures within_type_range { OnOk result (NumbersInRange (bson_view self.now)) }
        ensures writable { OnOk result (writable (bson_view self.now) ≡ true) }
        ensures finite { result ≡ Err WriteError.FiniteDouble → writable (bson_view self.now) ≡ false }
    {
        self.to_text(alloc, Options::default(), Form::Relaxed)
    }

    /// Writes the text of [`Bson::to_relaxed_text`], and drops the value.
    ///
    /// # Errors
    ///
    /// The errors of [`Bson::to_relaxed_text`].
    pub fn into_relaxed_text(self, alloc: Global) -> Result<String, WriteError>
        ensures text { IfOk result (λ text. IsTextIn Relaxed (bson_view self) (string_bytes text)) }
        ensures within_type_range { OnOk result (NumbersInRange (bson_view self)) }
        ensures writable { OnOk result (writable (bson_view self) ≡ true) }
        ensures finite { result ≡ Err WriteError.FiniteDouble → writable (bson_view self) ≡ false }
    {
        self.to_relaxed_text(alloc)
    }

    /// Writes the compact text of the value in a form (MongoDB Extended JSON v2), in the layout of the
    /// options. No tree is made.
    ///
    /// With `KeyOrder::Ascending` it is the text of the tree that [`Bson::into_extjson`] makes in the
    /// form that [`Layout::form`](bson_scalar::form::Layout::form) returns. With `KeyOrder::AsGiven`
    /// each document has its keys in its own order, at every depth. Apart from the order of keys, its
    /// tree is the same. Inside a wrapper the order is that of the layout, and `$code` is before
    /// `$scope` in both. A scope is a document, and keeps its order.
    ///
    /// It is the text that `serde_json` writes, except that a number that is a double is its
    /// shortest decimal: `1e16`, and not `1e+16`. With `Doubles::Finite` every value has a text.
    ///
    /// # Errors
    ///
    /// - `FiniteDouble`: the value contains a finite double other than zero, with
    ///   `Doubles::Special`.
    /// - `OutOfMemory`: a request for memory was refused.
    ///
    /// ```
    /// let orders = Bson::string(alloc, "orders")?;
    /// let mut command = Document::new(alloc);
    /// drop(command.insert(String::from_str(alloc, "find")?, orders)?);
    /// drop(command.insert(String::from_str(alloc, "batchSize")?, Bson::Int32(10))?);
    /// let command = Bson::Document(command);
    /// let text = command.to_text(alloc, Options::mongodb(), Form::Relaxed)?;
    /// println!(rt; "{text}")?; // {"find":"orders","batchSize":10}
    /// println!(rt; "{}", command.to_relaxed_text(alloc)?)?; // {"batchSize":10,"find":"orders"}
    /// ```
    pub fn to_text(&self, alloc: Global, options: Options, form: Form) -> Result<String, WriteError>
        ensures text { IfOk result
            (λ text. IsTextInKeyOrder options.key_order options.doubles (form_in options.layout form)
            (bson_view self.now) (string_bytes text)) }
        ensures within_type_range { OnOk result (NumbersInRange (bson_view self.now)) }
        ensures distinct { OnOk result (AllKeysDistinct (bson_view self.now)) }
        ensures writable { OnOk result (writable_in options.doubles (bson_view self.now) ≡ true) }
        ensures finite { result ≡ Err WriteError.FiniteDouble
            → writable_in options.doubles (bson_view self.now) ≡ false }
        ensures possible_errors { IfErr result (IsWriteErrorIn options.doubles) }
    {
        text_of(alloc, options, options.layout.form(form), self)
    }

    /// Writes the text of [`Bson::to_text`], and drops the value.
    ///
    /// # Errors
    ///
    /// The errors of [`Bson::to_text`].
    pub fn into_text(
        self,
        alloc: Global,
        options: Options,
        form: Form,
    ) -> Result<String, WriteError>
        ensures text { IfOk result
            (λ text. IsTextInKeyOrder options.key_order options.doubles (form_in options.layout form)
            (bson_view self) (string_bytes text)) }
        ensures within_type_range { OnOk result (NumbersInRange (bson_view self)) }
        ensures distinct { OnOk result (AllKeysDistinct (bson_view self)) }
        ensures writable { OnOk result (writable_in options.doubles (bson_view self) ≡ true) }
        ensures finite { result ≡ Err WriteError.FiniteDouble → writable_in options.doubles (bson_view self) ≡ false }
        ensures possible_errors { IfErr result (IsWriteErrorIn options.doubles) }
    {
        self.to_text(alloc, options, form)
    }

    /// Appends the text of [`Bson::to_text`] to `output`, whose keys are as given whatever the options say.
    /// On an error `output` has the bytes that it had.
    ///
    /// If the value is allocation-free, it runs out of memory only if `output` has too little spare
    /// capacity: twice the length of the text is enough. A value is allocation-free unless it contains
    /// one of these, whose texts are first made in memory of their own:
    ///
    /// - a binary;
    /// - a decimal;
    /// - a regular expression;
    /// - in the relaxed form, a date;
    /// - with `Layout::MongoDb`, a timestamp and a pointer.
    ///
    /// # Errors
    ///
    /// - `FiniteDouble`: the value contains a finite double other than zero, with
    ///   `Doubles::Special`.
    /// - `OutOfMemory`: a request for memory was refused.
    ///
    /// ```
    /// let mut line = Vec::with_capacity(alloc, 64)?;
    /// let count = Bson::Int32(5);
    /// count.write_text_into(alloc, Options::default(), Form::Relaxed, &mut line)?;
    /// line.push(b'\n')?;
    /// println!(rt; "{line:?}")?; // [53, 10]
    /// ```
    pub fn write_text_into(
        &self,
        alloc: Global,
        options: Options,
        form: Form,
        output: &mut Vec<u8>,
    ) -> Result<(), WriteError>
        ensures text { IfOk result (λ _. (text : List ℕ)
            × IsTextInOrder options.doubles (form_in options.layout form) (bson_view self.now) text
            × (output.new.items ≡ output.old.items ++ text)) }
        ensures unchanged { OnErr result (output.new.items ≡ output.old.items) }

        // With enough room memory is never wanting.
        ensures room { IsAllocationFree (form_in options.layout form) (bson_view self.now)
            → result ≡ Err WriteError.OutOfMemory → vec_capacity output.old - vec_len output.old
            < value_capacity options.doubles (form_in options.layout form) (bson_view self.now) }
        ensures capacity_bound { (text : List ℕ)
            → IsTextInOrder options.doubles (form_in options.layout form) (bson_view self.now) text
            → NumbersInRange (bson_view self.now)
            → value_capacity options.doubles (form_in options.layout form) (bson_view self.now) ≤ 2 * length text }
        ensures within_type_range { OnOk result (NumbersInRange (bson_view self.now)) }
        ensures distinct { OnOk result (AllKeysDistinct (bson_view self.now)) }
        ensures writable { OnOk result (writable_in options.doubles (bson_view self.now) ≡ true) }
        ensures finite { result ≡ Err WriteError.FiniteDouble
            → writable_in options.doubles (bson_view self.now) ≡ false }
        ensures possible_errors { IfErr result (IsWriteErrorIn options.doubles) }
    {
        append_text(
            alloc,
            options.doubles,
            options.layout.form(form),
            self,
            output,
        )
    }
}
