//! `$symbol`, and `$code` alone: a text. Read and written as `{"$symbol": "s"}`, `{"$code": "s"}`.
ghost use Rattle.std.specs.Prelude.{◌≡◌, IfOk, string_bytes};
ghost use Rattle.serde_json.specs.View.{view};
ghost use Rattle.bson_scalar.specs.Faults.{IsReadResult};
ghost use Rattle.bson_scalar.specs.Reading.{symbol_read, code_read};
ghost use Rattle.bson_scalar.specs.Texts.{symbol_tree, code_tree};
ghost use Rattle.bson_scalar.specs.View.{scalar_view};

use crate::error::Error;
use crate::object_writer::write_owned_text_object;
use crate::scalar::Scalar;
use crate::sink::Sink;
use crate::tree_parts::expect_string;
use serde_json::Value;
use std::alloc::AllocError;

// What `$symbol` holds, as a symbol.
pub(crate) fn read_symbol(value: Value) -> Result<Scalar, Error>
    ensures { IsReadResult scalar_view result (symbol_read (view value)) }
{
    Ok(Scalar::Symbol(expect_string(value, "`$symbol` must be a string")?))
}

// Reads the value at `$code`, the only key of its object, as code without a scope.
pub(crate) fn read_code(value: Value) -> Result<Scalar, Error>
    ensures { IsReadResult scalar_view result (code_read (view value)) }
{
    Ok(Scalar::JavaScriptCode(expect_string(value, "`$code` must be a string")?))
}

// Writes the tree of a symbol, in both forms.
pub(crate) fn write_symbol<S: Sink>(text: String, sink: &mut S) -> Result<S::Tree, AllocError>
    ensures written { IfOk result
        (λ written_tree. S.wrote_tree sink.old (symbol_tree (string_bytes text)) written_tree sink.new) }
    ensures before { S.before sink.new ≡ S.before sink.old }
{
    write_owned_text_object("$symbol", text, sink)
}

// Writes the tree of code without a scope, in both forms.
pub(crate) fn write_code<S: Sink>(text: String, sink: &mut S) -> Result<S::Tree, AllocError>
    ensures written { IfOk result
        (λ written_tree. S.wrote_tree sink.old (code_tree (string_bytes text)) written_tree sink.new) }
    ensures before { S.before sink.new ≡ S.before sink.old }
{
    write_owned_text_object("$code", text, sink)
}
