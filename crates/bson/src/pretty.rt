//! The texts of values on several lines.
ghost use Rattle.std.specs.Prelude.{◌≡◌, ◌==◌, cond, [], IfOk, string_bytes};
ghost use Rattle.bson_model.specs.Value.{array, document as document_of};
ghost use Rattle.bson_model.specs.Pretty.{pretty_text, blanks, inner_indent, closing_line};
ghost use Rattle.bson.specs.PrettyLines.{AppendsBytesIfOk, entry_line, item_line};
ghost use Rattle.bson.specs.View.{bson_view, values_view, pairs_view, document_view};

use crate::bson::Bson;
use crate::document::Document;
use bson_store::PairStore;
use std::alloc::{AllocError, Global};

impl Bson {
    /// Writes the value on several lines. Each entry of a document and each element of an array is
    /// on a line of its own, at the indent, a number of blanks.
    ///
    /// The indent grows by 2 blanks at each level, up to the greatest usize. A closing bracket has
    /// 2 blanks less, if there are any. Empty documents, empty arrays and all other values are
    /// written as by `Display`.
    ///
    /// # Errors
    ///
    /// Returns `AllocError` if a request for memory is refused.
    pub fn to_pretty_string(&self, alloc: Global, indent: usize) -> Result<String, AllocError>
        ensures { IfOk result (λ text. string_bytes text ≡ pretty_text indent (bson_view self.now)) }
    {
        let mut output = String::new(alloc);
        push_value(self, indent, &mut output)?;
        Ok(output)
    }
}

impl Document {
    /// Writes the document on several lines at an indent, as [`Bson::to_pretty_string`] writes it.
    /// The memory comes from the document's allocator.
    ///
    /// # Errors
    ///
    /// Returns `AllocError` if a request for memory is refused.
    pub fn to_pretty_string(&self, indent: usize) -> Result<String, AllocError>
        ensures { IfOk result (λ text. string_bytes text ≡ pretty_text indent (document_of (document_view self.now))) }
    {
        let mut output = String::new(self.pairs.allocator());
        push_pairs(self, indent, &mut output)?;
        Ok(output)
    }
}

#[cycle(pretty)]
fn push_value(value: &Bson, indent: usize, output: &mut String) -> Result<(), AllocError>
    ensures { AppendsBytesIfOk output.old result (pretty_text indent (bson_view value.now)) output.new }
{
    match value {
        Bson::Array(items) => push_items(items, indent, output),
        Bson::Document(document) => push_pairs(document, indent, output),
        _ => write!(output, "{value}"),
    }
}

#[cycle(pretty)]
fn push_items(items: &Vec<Bson>, indent: usize, output: &mut String) -> Result<(), AllocError>
    ensures { AppendsBytesIfOk output.old result (pretty_text indent (array (values_view items.now.items))) output.new }
{
    if items.is_empty() {
        return output.push_str("[]");
    }
    output.push_str("[")?;
    for element_index in 0..items.len() {
        push_separator(element_index, ", ", output)?;
        push_item(&items[element_index], indent, output)?;
    }
    push_closing(indent, "]", output)
}

#[cycle(pretty)]
fn push_item(value: &Bson, indent: usize, output: &mut String) -> Result<(), AllocError>
    ensures { AppendsBytesIfOk output.old result (item_line indent value.now) output.new }
{
    output.push_str("\n")?;
    push_blanks(indent, output)?;
    push_value(value, inner_indent(indent), output)
}

#[cycle(pretty)]
fn push_pairs(document: &Document, indent: usize, output: &mut String) -> Result<(), AllocError>
    ensures { AppendsBytesIfOk output.old result
        (pretty_text indent (document_of (pairs_view document.now.pairs))) output.new }
{
    let pairs = &document.pairs;
    if pairs.len() == 0 {
        return output.push_str("{}");
    }
    output.push_str("{\n")?;
    for element_index in 0..pairs.len() {
        push_separator(element_index, ",\n", output)?;
        push_entry(
            pairs.key_at(element_index).as_str(),
            pairs.value_at(element_index),
            indent,
            output,
        )?;
    }
    push_closing(indent, "}", output)
}

#[cycle(pretty)]
fn push_entry(key: &str, value: &Bson, indent: usize, output: &mut String) -> Result<(), AllocError>
    ensures { AppendsBytesIfOk output.old result (entry_line indent (key.now, value.now)) output.new }
{
    push_blanks(indent, output)?;
    write!(output, "\"{key}\": ")?;
    push_value(value, inner_indent(indent), output)
}

// Returns the indent of what is inside: 2 more, up to the greatest usize.
fn inner_indent(indent: usize) -> usize
    ensures { result ≡ inner_indent indent }
{
    indent.saturating_add(2)
}

// Writes the separator before the element at an index.
fn push_separator(
    element_index: usize,
    separator: &str,
    output: &mut String,
) -> Result<(), AllocError>
    ensures { AppendsBytesIfOk output.old result (cond (element_index == 0) [] separator.now) output.new }
{
    if element_index == 0 {
        Ok(())
    } else {
        output.push_str(separator)
    }
}

fn push_blanks(count: usize, output: &mut String) -> Result<(), AllocError>
    ensures { AppendsBytesIfOk output.old result (blanks count) output.new }
{
    output.reserve(count)?;
    for _ in 0..count {
        output.push(' ')?;
    }
    Ok(())
}

// The closing bracket, on a line of its own.
fn push_closing(indent: usize, bracket: &str, output: &mut String) -> Result<(), AllocError>
    ensures { AppendsBytesIfOk output.old result (closing_line indent bracket.now) output.new }
{
    output.push_str("\n")?;
    push_blanks(indent.saturating_sub(2), output)?;
    output.push_str(bracket)
}
