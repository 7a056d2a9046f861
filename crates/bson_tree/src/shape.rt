//! Wrong shapes: which wrapper an object is not, though it has its key, and the message for it.
ghost use Rattle.std.specs.Prelude.{◌≡◌, is_some};
ghost use Rattle.bson_tree.specs.Shape.{only_key_message, first_wrapper_in};
ghost use Rattle.bson_scalar.specs.Table.{has_wrapper};
ghost use Rattle.serde_json.specs.View.{members_view};

pub use bson_scalar::doubles::NUMBER_MESSAGE;
use bson_scalar::wrapper::{Wrapper, wrapper_named};
use serde_json::{Map, Value};

/// The message for code that is not a string, next to a scope.
pub const CODE_MESSAGE: &str = "`$code` must be a string";

/// The message for a scope that is not an object, next to code.
pub const SCOPE_MESSAGE: &str = "`$scope` must be an object";

/// Returns the reason for an object that has the wrapper's key, and other keys than the wrapper's
/// object.
pub fn other_keys_reason(wrapper: Wrapper) -> &'static str
    ensures message { result.now ≡ only_key_message wrapper }
{
    match wrapper {
        Wrapper::Oid => "`$oid` must be the only key of its object",
        Wrapper::Symbol => "`$symbol` must be the only key of its object",
        Wrapper::RegularExpression => "`$regularExpression` must be the only key of its object",
        Wrapper::NumberInt => "`$numberInt` must be the only key of its object",
        Wrapper::NumberLong => "`$numberLong` must be the only key of its object",
        Wrapper::NumberDouble => "`$numberDouble` must be the only key of its object",
        Wrapper::NumberDecimal => "`$numberDecimal` must be the only key of its object",
        Wrapper::Binary => "`$binary` must be the only key of its object",
        Wrapper::Uuid => "`$uuid` must be the only key of its object",
        Wrapper::Code => "`$code` must be the only key of its object, or next to `$scope`",
        Wrapper::Timestamp => "`$timestamp` must be the only key of its object",
        Wrapper::Date => "`$date` must be the only key of its object",
        Wrapper::MinKey => "`$minKey` must be the only key of its object",
        Wrapper::MaxKey => "`$maxKey` must be the only key of its object",
        Wrapper::DbPointer => "`$dbPointer` must be the only key of its object",
        Wrapper::Undefined => "`$undefined` must be the only key of its object",
    }
}

/// Finds the first wrapper, by ascending key, whose key a map has.
pub fn first_wrapper(members: &Map<String, Value>) -> Option<Wrapper>
    ensures wrapper { result ≡ first_wrapper_in (members_view members.now.entries) }
    ensures is_present { is_some result ≡ has_wrapper (members_view members.now.entries) }
{
    for (key, _) in members.iter() {
        if let Some(wrapper) = wrapper_named(key.as_str()) {
            return Some(wrapper);
        }
    }
    None
}
