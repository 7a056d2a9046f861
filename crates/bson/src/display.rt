//! The texts of values on one line.
ghost use Rattle.std.specs.Prelude.{◌≡◌, ◌==◌, ◌++◌, cond, [], codes};
ghost use Rattle.std.specs.Fmt.{WritesOnOk};
ghost use Rattle.bson_model.specs.Value.{array, document as document_of};
ghost use Rattle.bson_model.specs.Displayed.{display_text, displayed_entry};
ghost use Rattle.bson.specs.View.{bson_view, values_view, pairs_view};

use crate::bson::{Bson, JavaScriptCodeWithScope};
use crate::document::Document;
use crate::scalar::scalar_ref;
use bson_store::PairStore;
use std::fmt;

/// The value on one line, as MongoDB's shell would show it: `{ "k": v, "l": w }`, `[a, b]`,
/// `ObjectId("..")`.
///
/// Documents keep their own order. Keys and texts are written as they are, with nothing
/// escaped; a double is written as its pattern of bits, `Double(0x3ff8000000000000)`. No memory is
/// allocated.
impl fmt::Display for Bson {
    ghost use Rattle.std.specs.Prelude.{Some};
    ghost use Rattle.bson_model.specs.Displayed.{display_text};
    ghost use Rattle.bson.specs.View.{bson_view};

    ghost output = { λ value. Some (display_text (bson_view value)) };

    fn fmt<W: fmt::Write>(&self, formatter: &mut fmt::Formatter<W>) -> fmt::Result {
        show(self, formatter)
    }
}

/// The document on one line, its pairs in their order: `{ "k": v, "l": w }`, or `{}` where it has
/// none.
impl fmt::Display for Document {
    ghost use Rattle.std.specs.Prelude.{Some};
    ghost use Rattle.bson_model.specs.Value.{document};
    ghost use Rattle.bson_model.specs.Displayed.{display_text};
    ghost use Rattle.bson.specs.View.{document_view};

    ghost output = { λ document_value. Some (display_text (document (document_view document_value))) };

    fn fmt<W: fmt::Write>(&self, formatter: &mut fmt::Formatter<W>) -> fmt::Result {
        show_pairs(self, formatter)
    }
}

/// The code alone.
impl fmt::Display for JavaScriptCodeWithScope {
    ghost use Rattle.std.specs.Prelude.{Some, string_bytes};

    ghost output = { λ code_value. Some (string_bytes code_value.code) };

    fn fmt<W: fmt::Write>(&self, formatter: &mut fmt::Formatter<W>) -> fmt::Result {
        formatter.write_str(self.code.as_str())
    }
}

#[cycle(show)]
fn show<W: fmt::Write>(value: &Bson, formatter: &mut fmt::Formatter<W>) -> fmt::Result
    ensures { WritesOnOk W.write_str_gives formatter.old result (display_text (bson_view value.now)) formatter.new }
{
    match value {
        Bson::Array(items) => show_items(items, formatter),
        Bson::Document(document) => show_pairs(document, formatter),
        Bson::JavaScriptCodeWithScope(code_with_scope) => formatter.write_str(
            code_with_scope.code.as_str(),
        ),
        value => write!(formatter, "{}", scalar_ref(value)),
    }
}

#[cycle(show)]
fn show_items<W: fmt::Write>(items: &Vec<Bson>, formatter: &mut fmt::Formatter<W>) -> fmt::Result
    ensures { WritesOnOk W.write_str_gives formatter.old result
        (display_text (array (values_view items.now.items))) formatter.new }
{
    if items.is_empty() {
        return formatter.write_str("[]");
    }
    formatter.write_str("[")?;
    for element_index in 0..items.len() {
        show_separator(element_index, formatter)?;
        show(&items[element_index], formatter)?;
    }
    formatter.write_str("]")
}

#[cycle(show)]
fn show_pairs<W: fmt::Write>(document: &Document, formatter: &mut fmt::Formatter<W>) -> fmt::Result
    ensures { WritesOnOk W.write_str_gives formatter.old result
        (display_text (document_of (pairs_view document.now.pairs))) formatter.new }
{
    let pairs = &document.pairs;
    if pairs.len() == 0 {
        return formatter.write_str("{}");
    }
    formatter.write_str("{ ")?;
    for element_index in 0..pairs.len() {
        show_separator(element_index, formatter)?;
        show_entry(
            pairs.key_at(element_index).as_str(),
            pairs.value_at(element_index),
            formatter,
        )?;
    }
    formatter.write_str(" }")
}

#[cycle(show)]
fn show_entry<W: fmt::Write>(
    key: &str,
    value: &Bson,
    formatter: &mut fmt::Formatter<W>,
) -> fmt::Result
    ensures { WritesOnOk W.write_str_gives formatter.old result
        (displayed_entry key.now (display_text (bson_view value.now))) formatter.new }
{
    write!(formatter, "\"{key}\": ")?;
    show(value, formatter)
}

// Writes the separator before the element at an index.
fn show_separator<W: fmt::Write>(
    element_index: usize,
    formatter: &mut fmt::Formatter<W>,
) -> fmt::Result
    ensures { WritesOnOk W.write_str_gives formatter.old result
        (cond (element_index == 0) [] (codes ", ")) formatter.new }
{
    if element_index == 0 {
        Ok(())
    } else {
        formatter.write_str(", ")
    }
}
