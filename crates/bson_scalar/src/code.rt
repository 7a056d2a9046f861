//! Code with its scope, the object of the keys `$code` and `$scope`. What its scope holds, the
//! layer above reads and writes.
ghost use Rattle.std.specs.Prelude.{◌≡◌, ◌++◌, ◌&&◌, IfOk, OnOk, codes, string_bytes};
ghost use Rattle.std.specs.Str.{bytes_eq};
ghost use Rattle.serde_json.specs.Data.{object, string};
ghost use Rattle.serde_json.specs.View.{view, members_view};
ghost use Rattle.bson_scalar.specs.TreeParts.{two_key_object};
ghost use Rattle.bson_scalar.specs.Tokens.{code_tokens};

use json::Writer;
use serde_json::{Map, Value};
use std::alloc::{AllocError, Global};

/// Returns whether an object with these two keys, in ascending order, is code with its scope.
pub fn is_code_with_scope(key: &str, other_key: &str) -> bool
    ensures { result ≡ (bytes_eq key.now (codes "$code") && bytes_eq other_key.now (codes "$scope")) }
{
    key == "$code" && is_scope(other_key)
}

/// Returns whether the key is that of a scope, next to code.
pub fn is_scope(key: &str) -> bool
    ensures { result ≡ bytes_eq key.now (codes "$scope") }
{
    key == "$scope"
}

/// Makes the tree of code with its scope's map.
///
/// # Errors
///
/// Returns `AllocError` if a request for memory is refused.
pub fn code_with_scope_tree(
    alloc: Global,
    code: String,
    scope: Map<String, Value>,
) -> Result<Value, AllocError>
    ensures { IfOk result (λ tree. view tree ≡ two_key_object (codes "$code") (string (string_bytes code))
        (codes "$scope") (object (members_view scope.entries))) }
{
    let mut members = Map::new(alloc);
    serde_json::put(&mut members, alloc, "$scope", Value::Object(scope))?;
    serde_json::put(&mut members, alloc, "$code", Value::String(code))?;
    Ok(Value::Object(members))
}

/// Writes the part of the text of code with its scope that is before the scope.
///
/// # Errors
///
/// Returns `AllocError` if a request for memory is refused.
pub fn put_code(code: &str, writer: &mut Writer) -> Result<(), AllocError>
    ensures put { OnOk result (writer.new.tokens ≡ writer.old.tokens ++ code_tokens code.now) }
    ensures before { writer.new.before ≡ writer.old.before }
{
    writer.begin_object()?;
    writer.key("$code")?;
    writer.string(code)?;
    writer.key("$scope")
}
