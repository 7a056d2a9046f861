//! Parts of a wrapper.
ghost use Rattle.std.specs.Prelude.{◌≡◌, ◌<◌, ◌∷◌, ◌&&◌, length, false, is_some, codes, IfOk, IfErr, OnOk, OnErr, Ok};
ghost use Rattle.std.specs.Prelude.{None, Some, string_bytes};
ghost use Rattle.json.specs.Json.{read_key};
ghost use Rattle.json.specs.Token as token;
ghost use Rattle.bson_scalar.specs.Reading.{number_read_in};
ghost use Rattle.bson_scalar.specs.Table.{wrapper_of};
ghost use Rattle.bson_scalar.specs.View.{scalar_view};
ghost use Rattle.serde_json.specs.Data.{Num, string};
ghost use Rattle.serde_json.specs.Find.{as_str};
ghost use Rattle.serde_json.specs.Read.{number_of};
ghost use Rattle.serde_json.specs.View.{view};
ghost use Rattle.bson_text.specs.ErrorDenials.{ErrorRulesOutEnd, ErrorRulesOutNumber};
ghost use Rattle.bson_text.specs.ScopeTokens.{scope_token, IsNotScopeStart};
ghost use Rattle.bson_text.specs.ErrorPaths.{IsScopeTypeError, IsExtraKeyError, IsScalarFault};
ghost use Rattle.bson_text.specs.TraversalErrors.{IsSameKindOrOutOfMemory};
ghost use Rattle.bson_text.specs.TraversalResults.{IsEndOfCode};
ghost use Rattle.bson_text.specs.declared.traversal_error.TraversalError.TheVariants.{Syntax};

use crate::error_paths::{scalar_error, skip_items, wrong_shape_at_key, wrong_shape_at_value};
use crate::level::Level;
use crate::traversal_error::TraversalError;
use bson_scalar::doubles::read_number;
use bson_scalar::form::Doubles;
use bson_scalar::scalar::Scalar;
use bson_scalar::wrapper::{Wrapper, wrapper_named};
use bson_tokens::number::number;
use bson_tree::shape::{SCOPE_MESSAGE, other_keys_reason};
use json::{Reader, Token};
use serde_json::Value;
use std::alloc::Global;

// How the scope of code begins.
#[derive(Clone, Copy, Debug, Drop)]
pub(crate) enum Scope {
    Null,
    Object,
}

// Reads the token at which a scope begins. If no scope begins there, the rest of the object is
// skipped.
pub(crate) fn read_scope(level: Level, reader: &mut Reader<'_>) -> Result<Scope, TraversalError>
    ensures ok { IfOk result (λ scope. reader.old ≡ scope_token scope ∷ reader.new) }
    ensures located { IfErr result
        (λ reported_error. IsScopeTypeError level.depth reader.old reported_error reader.new) }
    ensures kind { IfErr result (λ reported_error. IsSameKindOrOutOfMemory Syntax reported_error
        × IsNotScopeStart reader.old) }
{
    let token = reader.next().ok_or(TraversalError::Syntax)?;
    match token {
        Token::Null => Ok(Scope::Null),
        Token::BeginObject => Ok(Scope::Object),
        Token::String(_) | Token::Number(_) | Token::Bool(_) => {
            Err(wrong_shape_at_key(level, reader, SCOPE_MESSAGE))
        }
        Token::BeginArray => {
            if level.depth == 0 {
                return Err(TraversalError::Syntax);
            }
            let Ok(()) = skip_items(reader, level.depth - 1) else {
                return Err(TraversalError::Syntax);
            };
            Err(wrong_shape_at_key(level, reader, SCOPE_MESSAGE))
        }
        Token::EndObject | Token::EndArray | Token::Key(_) | Token::Bad => Err(
            TraversalError::Syntax,
        ),
    }
}

// Returns the string of the tree, if it is a string. The caller knows the path of the error.
pub(crate) fn text_of(tree: Value) -> Result<String, TraversalError>
    ensures ok { IfOk result (λ text. view tree ≡ string (string_bytes text)) }
    ensures not_a_string { OnErr result (as_str (view tree) ≡ None) }
{
    match tree {
        Value::String(text) => Ok(text),
        Value::Null | Value::Bool(_) | Value::Number(_) => Err(TraversalError::Syntax),
        Value::Array(_) => Err(TraversalError::Syntax),
        Value::Object(_) => Err(TraversalError::Syntax),
    }
}

// Returns the number of a token.
pub(crate) fn parse_number(
    alloc: Global,
    doubles: Doubles,
    text: &str,
) -> Result<Scalar, TraversalError>
    ensures ok { IfOk result (λ scalar_value. (parsed_number : Num) × (number_of text.now ≡ Some parsed_number)
        × (number_read_in doubles parsed_number ≡ Ok (scalar_view scalar_value))) }
    ensures stops { IfErr result (λ reported_error. ErrorRulesOutNumber doubles reported_error text.now) }
    ensures located { IfErr result (λ reported_error. (parsed_number : Num) → number_of text.now ≡ Some parsed_number
        → IsScalarFault (number_read_in doubles parsed_number) reported_error) }
{
    let parsed_number = number(text).ok_or(TraversalError::Syntax)?;
    match read_number(doubles, &parsed_number) {
        Ok(scalar) => Ok(scalar),
        Err(cause) => Err(scalar_error(alloc, cause)),
    }
}

// Returns the wrapper of the key, if it is a wrapper key in a document.
pub(crate) fn misplaced_wrapper(is_document: bool, key: &str) -> Option<Wrapper>
    ensures { is_some result ≡ (is_document && is_some (wrapper_of key.now)) }
{
    if is_document {
        wrapper_named(key)
    } else {
        None
    }
}

// Reads the end of the object of code and its scope. Code after its scope is read here.
pub(crate) fn end_object(
    level: Level,
    reader: &mut Reader<'_>,
    code: &str,
    code_follows_scope: bool,
) -> Result<(), TraversalError>
    ensures ok { OnOk result (IsEndOfCode code.now code_follows_scope reader.old reader.new) }
    ensures shorter { OnOk result (length reader.new < length reader.old) }
    ensures stops { IfErr result (λ reported_error. ErrorRulesOutEnd reported_error code_follows_scope reader.old) }
    ensures located { IfErr result (λ reported_error. code_follows_scope ≡ false
        → IsExtraKeyError level.depth reader.old reported_error reader.new) }
{
    if code_follows_scope {
        skip_code_after_scope(reader, code)?;
    }
    let extra_key = reader.next_key()?;
    match extra_key {
        None => Ok(()),
        Some(_) => Err(wrong_shape_at_value(level, reader, other_keys_reason(Wrapper::Code))),
    }
}

// Reads the key of code, and then this string.
fn skip_code_after_scope(reader: &mut Reader<'_>, code: &str) -> Result<(), TraversalError>
    ensures ok { OnOk result (read_key reader.old ≡ Some (Some (codes "$code"), token.string code.now ∷ reader.new)) }
    ensures kind { IfErr result (λ reported_error. reported_error ≡ Syntax) }
{
    let Some(key) = reader.next_key()? else {
        return Err(TraversalError::Syntax);
    };
    if key != "$code" {
        return Err(TraversalError::Syntax);
    }
    let Some(Token::String(text)) = reader.next() else {
        return Err(TraversalError::Syntax);
    };
    if text != code {
        return Err(TraversalError::Syntax);
    }
    Ok(())
}
