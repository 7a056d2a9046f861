//! `$regularExpression`: two texts. Read as `{"pattern": "a", "options": "xi"}` under that key,
//! and written with the options sorted by character.
ghost use Rattle.std.specs.Prelude.{◌≡◌, IfOk, string_bytes};
ghost use Rattle.serde_json.specs.View.{view};
ghost use Rattle.bson_types.specs.Regex.{sorted_regex_options};
ghost use Rattle.bson_scalar.specs.Faults.{IsReadResult};
ghost use Rattle.bson_scalar.specs.Reading.{regex_read};
ghost use Rattle.bson_scalar.specs.Regexes.{regex_tree};
ghost use Rattle.bson_scalar.specs.View.{scalar_view};

use crate::error::Error;
use crate::object_writer::{begin_object, end_one_key_object, write_two_texts_object};
use crate::scalar::Scalar;
use crate::sink::Sink;
use crate::tree_parts::{expect_string, expect_two_keys};
use bson_types::regex::{Regex, sort_characters};
use serde_json::Value;
use std::alloc::{AllocError, Global};

const SHAPE_MESSAGE: &str = "`$regularExpression` must have the strings `pattern` and `options`";

// What `$regularExpression` holds, as a regular expression with its options sorted.
pub(crate) fn read_regex(alloc: Global, value: Value) -> Result<Scalar, Error>
    ensures { IsReadResult scalar_view result (regex_read (view value)) }
{
    let (options, pattern) = expect_two_keys(value, "options", "pattern", SHAPE_MESSAGE)?;
    let options = expect_string(options, SHAPE_MESSAGE)?;
    let pattern = expect_string(pattern, SHAPE_MESSAGE)?;
    let options = sort_characters(alloc, options.as_str())?;
    Ok(Scalar::RegularExpression(Regex { pattern, options }))
}

// Writes the tree of a regular expression, in both forms, its options sorted.
pub(crate) fn write_regex<S: Sink>(
    alloc: Global,
    regex: Regex,
    sink: &mut S,
) -> Result<S::Tree, AllocError>
    ensures written { IfOk result (λ written_tree. S.wrote_tree sink.old
        (regex_tree (string_bytes regex.pattern)
        (sorted_regex_options (string_bytes regex.options))) written_tree sink.new) }
    ensures before { S.before sink.new ≡ S.before sink.old }
{
    let Regex { pattern, options } = regex;
    let sorted_options = sort_characters(alloc, options.as_str())?;
    let key = begin_object("$regularExpression", sink)?;
    let content_tree = write_two_texts_object("options", sorted_options, "pattern", pattern, sink)?;
    end_one_key_object(key, content_tree, sink)
}
