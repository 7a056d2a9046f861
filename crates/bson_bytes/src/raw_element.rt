//! Elements in their bytes.
ghost use Rattle.std.specs.Prelude.{◌≡◌, ◌<◌, ◌≤◌, ◌-◌, ℕ, length, Ok, IfSome, IsSomeAnd};
ghost use Rattle.bson_bytes.specs.Grammar.{deduplicated};
ghost use Rattle.bson_bytes.specs.Reading.{reads_bytes};
ghost use Rattle.bson_model.specs.Value.{Pairs};
ghost use Rattle.bson_types.specs.ElementTags.{tag_of};
ghost use Rattle.bson_types.specs.declared.spec.ElementType.{ElementType};
ghost use Rattle.bson_bytes.specs.ReadElements.{BeginsWithElements, BeginsWithDocument};
ghost use Rattle.bson_bytes.specs.RawElements.{IsFirstElement};

use crate::skip_value::{name_and_value_end, skip_bytes, skip_length_prefixed};
use bson_types::spec::ElementType;

/// An element in its bytes.
#[derive(Clone, Copy)]
pub struct RawElement<'a> {
    /// The type of the value.
    pub kind: ElementType,
    /// The key.
    pub key: &'a [u8],
    /// The bytes that begin with the value.
    pub value: &'a [u8],
    /// The bytes after the value.
    pub rest: &'a [u8],
}

// By the tag of the type. Tag 0 has no type, and two types have greater tags.
static TYPES_BY_TAG: [ElementType; 20] = [
    ElementType::Null,
    ElementType::Double,
    ElementType::String,
    ElementType::EmbeddedDocument,
    ElementType::Array,
    ElementType::Binary,
    ElementType::Undefined,
    ElementType::ObjectId,
    ElementType::Boolean,
    ElementType::DateTime,
    ElementType::Null,
    ElementType::RegularExpression,
    ElementType::DbPointer,
    ElementType::JavaScriptCode,
    ElementType::Symbol,
    ElementType::JavaScriptCodeWithScope,
    ElementType::Int32,
    ElementType::Timestamp,
    ElementType::Int64,
    ElementType::Decimal128,
];

// Returns the type with this tag, or any type if there is none. A table needs no call and no jump per type.
#[inline(always)]
fn type_of(tag: u8) -> ElementType
    ensures { (element_type : ElementType) → tag_of element_type ≡ tag → result ≡ element_type }
{
    if tag < 20 {
        TYPES_BY_TAG[tag as usize]
    } else if tag == 0x7F {
        ElementType::MaxKey
    } else {
        ElementType::MinKey
    }
}

/// Returns the bytes of the document with which the bytes begin.
pub fn document_bytes(bytes: &[u8]) -> Option<&[u8]>
    ensures { (depth : ℕ) (pairs : Pairs) → BeginsWithDocument depth bytes.now pairs
        → IsSomeAnd result (λ front. reads_bytes depth front.now ≡ Ok (deduplicated pairs)) }
{
    let Some(rest) = skip_length_prefixed(bytes) else {
        return None;
    };
    Some(&bytes[..bytes.len() - rest.len()])
}

/// Returns the bytes of a document after its length: they begin with its elements.
pub fn elements_after_length(bytes: &[u8]) -> Option<&[u8]>
    ensures elements { (depth : ℕ) (pairs : Pairs) → BeginsWithDocument depth bytes.now pairs
        → (1 ≤ depth) × IsSomeAnd result (λ list. BeginsWithElements (depth - 1) list.now pairs) }
    ensures shorter { IfSome result (λ element_bytes. length element_bytes.now ≤ length bytes.now) }
{
    skip_bytes(4, bytes)
}

/// Returns the first element, or `None` at the end. The element is right if the bytes begin
/// with the elements of a document.
#[inline(always)]
pub fn first_element(bytes: &[u8]) -> Option<RawElement<'_>>
    ensures is_first_element { (depth : ℕ) (pairs : Pairs) → BeginsWithElements depth bytes.now pairs
        → IsFirstElement depth result pairs }
    ensures shorter { IfSome result (λ element. length element.rest.now < length bytes.now) }
    ensures rest_in_value { IfSome result (λ element. length element.rest.now ≤ length element.value.now) }
{
    let [tag, ..] = bytes else {
        return None;
    };
    let kind = type_of(*tag);
    let Some((key, value_end)) = name_and_value_end(bytes, 0) else {
        return None;
    };
    Some(RawElement {
        kind,
        key,
        value: &bytes[key.len() + 2..],
        rest: &bytes[value_end..],
    })
}
