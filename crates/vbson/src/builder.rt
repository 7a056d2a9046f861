//! Documents that a builder writes in the caller's memory.
ghost use Rattle.std.specs.Prelude.{◌≡◌, ◌≢◌, ◌≤◌, ◌<◌, ◌+◌, ◌-◌, ◌^◌, ◌++◌, ◌⊎◌, IsTrue, ℕ, List, drop, length, min, take};
ghost use Rattle.std.specs.Prelude.{decimal, false};
ghost use Rattle.std.specs.Int.{w32};
ghost use Rattle.std.specs.Str.{is_utf8};
ghost use Rattle.bson_bytes.specs.Grammar.{IsLength, little_endian};
ghost use Rattle.bson_bytes.specs.Writing.{document_bytes, elements_bytes, name_bytes, type_of, value_bytes};
ghost use Rattle.bson_model.specs.HashInput.{items_count};
ghost use Rattle.bson_model.specs.Value.{Pairs, Value, Values, array, no_pairs, no_values};
ghost use Rattle.vbson.specs.Builder.{Appends, IsAppended, AppendsBytes, IsDocumentEnded, HasSameBytes, IsUnfinishedDocument, IsUnfinishedArray, IsBuilderTooSmall};
ghost use Rattle.vbson.specs.Builder.{append_pair, append_value, written_bytes, length_placeholder, element_value};

use crate::status;
use bson_bytes::read_parts::has_no_nul;
use bson_types::spec::ElementType;
use std::str;

/// Documents in the caller's memory: the memory, how many bytes of it are written, and the size that
/// a call needed.
#[repr(C)]
pub struct Builder<'a> {
    pub bytes: &'a mut [u8],
    pub len: usize,
    pub needed: usize,
}

/// An element: its type, its key, and the bytes of its value in three slices.
#[derive(Clone, Copy)]
pub struct Element<'a> {
    pub kind: ElementType,
    pub key: &'a [u8],
    pub value_head: &'a [u8],
    pub value_body: &'a [u8],
    pub value_tail: &'a [u8],
}

/// Begins a document, and sets the position of its beginning.
#[unsafe(no_mangle)]
pub extern "C" fn vbson_document_begin(builder: &mut Builder<'_>, start_offset: &mut usize) -> u32
    ensures success { result ≡ 0 → IsAppended length_placeholder builder.old builder.new
        × (start_offset.new ≡ builder.old.len) }
    ensures too_small { result ≡ 8 → IsBuilderTooSmall 4 builder.old builder.new }
    ensures possible_statuses { (result ≡ 0) ⊎ (result ≡ 8) }
    ensures unchanged { 0 < result → HasSameBytes builder.old builder.new × (start_offset.new ≡ start_offset.old) }
    ensures needed { result ≢ 8 → builder.new.needed ≡ builder.old.needed }
    ensures memory { builder.new.bytes.ghost_name ≡ builder.old.bytes.ghost_name }
{
    if !has_room(builder, 4) {
        return status::BUFFER_TOO_SMALL;
    }
    *start_offset = builder.len;
    push_bytes(builder, &[0, 0, 0, 0]);
    status::OK
}

/// Ends the document or the array that begins at the offset: sets its length, and appends its
/// last byte.
#[unsafe(no_mangle)]
pub extern "C" fn vbson_document_end(builder: &mut Builder<'_>, start_offset: usize) -> u32
    ensures success { result ≡ 0 → IsDocumentEnded start_offset builder.old builder.new }
    // The elements become the canonical bytes of the document of their pairs, or of the array of their values.
    ensures document { (prefix : List ℕ) (document_pairs : Pairs) → result ≡ 0 → start_offset ≡ length prefix
        → IsUnfinishedDocument prefix document_pairs builder.old
        → (written_bytes builder.new ≡ prefix ++ document_bytes document_pairs)
        × IsLength (length (elements_bytes document_pairs) + 5) }
    ensures array { (prefix : List ℕ) (array_values : Values) → result ≡ 0 → start_offset ≡ length prefix
        → IsUnfinishedArray prefix array_values builder.old
        → written_bytes builder.new ≡ prefix ++ value_bytes (array array_values) }

    // When each other status comes, and that nothing is changed then.
    ensures no_start { result ≡ 1 → builder.old.len < start_offset + 4 }
    ensures too_small { result ≡ 8 → IsBuilderTooSmall 1 builder.old builder.new }
    ensures too_long { result ≡ 13 → 2 ^ 31 ≤ builder.old.len - start_offset + 1 }
    ensures possible_statuses { (result ≡ 0) ⊎ (result ≡ 1) ⊎ (result ≡ 8) ⊎ (result ≡ 13) }
    ensures unchanged { 0 < result → HasSameBytes builder.old builder.new }
    ensures needed { result ≢ 8 → builder.new.needed ≡ builder.old.needed }
    ensures memory { builder.new.bytes.ghost_name ≡ builder.old.bytes.ghost_name }
{
    if builder.len < 4 {
        return status::INVALID_ARGUMENT;
    }
    if builder.len - 4 < start_offset {
        return status::INVALID_ARGUMENT;
    }
    if builder.len - start_offset >= 0x7fff_ffff {
        return status::TOO_LONG;
    }
    if !has_room(builder, 1) {
        return status::BUFFER_TOO_SMALL;
    }
    push_bytes(builder, &[0]);
    set_length(builder, start_offset);
    status::OK
}

/// Appends an element.
pub fn append_element(builder: &mut Builder<'_>, element: Element<'_>) -> u32
    ensures appended { Appends element.entry.kind element.entry.key.now
        (element_value element.entry) result builder.old builder.new }
    ensures not_utf8 { result ≡ 6 → is_utf8 element.entry.key.now ≡ false }
    ensures possible_statuses { (result ≡ 0) ⊎ (result ≡ 6) ⊎ (result ≡ 8) ⊎ (result ≡ 11) }
{
    if !has_no_nul(element.key) {
        return status::ZERO_IN_KEY;
    }
    if !is_text(element.key) {
        return status::INVALID_STRING;
    }
    if !has_room(builder, size_of(element)) {
        return status::BUFFER_TOO_SMALL;
    }
    push_name(builder, element);
    push_value(builder, element);
    status::OK
}

/// Returns whether the bytes are UTF-8.
pub fn is_text(bytes: &[u8]) -> bool
    ensures { result ≡ is_utf8 bytes.now }
{
    match str::from_utf8(bytes) {
        Ok(_) => true,
        Err(_) => false,
    }
}

/// Returns whether there is room for so many bytes more. If not, it sets the size that they need.
pub fn has_room(builder: &mut Builder<'_>, byte_count: usize) -> bool
    ensures fits { IsTrue result → builder.old.len + byte_count ≤ length builder.old.bytes.now }
    ensures builder_unchanged { IsTrue result → builder.new ≡ builder.old }
    ensures too_small { result ≡ false → IsBuilderTooSmall byte_count builder.old builder.new }
    ensures unchanged { HasSameBytes builder.old builder.new }
    ensures memory { builder.new.bytes.ghost_name ≡ builder.old.bytes.ghost_name }
{
    let needed_size = builder.len.saturating_add(byte_count);
    if needed_size <= builder.bytes.len() {
        return true;
    }
    builder.needed = needed_size;
    false
}

// Returns the number of bytes of the element.
fn size_of(element: Element<'_>) -> usize
    ensures { result
        ≡ min (length (name_bytes element.entry.kind element.entry.key.now ++ element_value element.entry))
        (2 ^ 64 - 1) }
{
    let name_size = element.key.len() + 2;
    let value_size = element
        .value_head
        .len()
        .saturating_add(element.value_body.len());
    name_size
        .saturating_add(value_size)
        .saturating_add(element.value_tail.len())
}

fn push_name(builder: &mut Builder<'_>, element: Element<'_>)
    requires { builder.old.len + length (name_bytes element.kind element.key.now) ≤ length builder.old.bytes.now }
    ensures push_bytes { IsAppended (name_bytes element.entry.kind element.entry.key.now) builder.old builder.new }
    ensures needed { builder.new.needed ≡ builder.old.needed }
    ensures memory { builder.new.bytes.ghost_name ≡ builder.old.bytes.ghost_name }
{
    push_bytes(builder, &[element.kind.tag()]);
    push_bytes(builder, element.key);
    push_bytes(builder, &[0]);
}

fn push_value(builder: &mut Builder<'_>, element: Element<'_>)
    requires { builder.old.len + length (element_value element) ≤ length builder.old.bytes.now }
    ensures push_bytes { IsAppended (element_value element.entry) builder.old builder.new }
    ensures needed { builder.new.needed ≡ builder.old.needed }
    ensures memory { builder.new.bytes.ghost_name ≡ builder.old.bytes.ghost_name }
{
    push_bytes(builder, element.value_head);
    push_bytes(builder, element.value_body);
    push_bytes(builder, element.value_tail);
}

// Appends bytes, for which there is room.
fn push_bytes(builder: &mut Builder<'_>, bytes: &[u8])
    requires { builder.old.len + length bytes.now ≤ length builder.old.bytes.now }
    ensures push_bytes { IsAppended bytes.now builder.old builder.new }
    ensures needed { builder.new.needed ≡ builder.old.needed }
    ensures memory { builder.new.bytes.ghost_name ≡ builder.old.bytes.ghost_name }
{
    let new_len = builder.len + bytes.len();
    builder.bytes[builder.len..new_len].copy_from_slice(bytes);
    builder.len = new_len;
}

// Sets the length of the bytes from the start offset on.
#[tactic(auto, unfolding(bson_bytes::specs::Grammar::little_endian))]
fn set_length(builder: &mut Builder<'_>, start_offset: usize)
    requires starts { start_offset + 4 ≤ builder.old.len }
    requires written_bytes { builder.old.len ≤ length builder.old.bytes.now }
    requires counts { builder.old.len - start_offset < 2 ^ 31 }
    ensures written_bytes { written_bytes builder.new
        ≡ take start_offset (written_bytes builder.old)
        ++ (little_endian w32 (builder.old.len - start_offset) ++ drop (start_offset + 4) (written_bytes builder.old)) }
    ensures rest_unchanged { drop builder.old.len builder.new.bytes.now ≡ drop builder.old.len builder.old.bytes.now }
    ensures size { length builder.new.bytes.now ≡ length builder.old.bytes.now }
    ensures len { builder.new.len ≡ builder.old.len }
    ensures needed { builder.new.needed ≡ builder.old.needed }
    ensures memory { builder.new.bytes.ghost_name ≡ builder.old.bytes.ghost_name }
{
    let length = ((builder.len - start_offset) as u32).to_le_bytes();
    let bytes = &mut builder.bytes[..builder.len];
    bytes[start_offset..start_offset + 4].copy_from_slice(&length);
}

/// Proves that what is appended after the beginning of a document or an array are its elements.
pub fn appended_elements_are_values()
    ensures begun { (prefix name : List ℕ) (builder_before builder_after : Builder)
        → written_bytes builder_before ≡ prefix
        → AppendsBytes (name ++ length_placeholder) builder_before builder_after
        → IsUnfinishedDocument (prefix ++ name) no_pairs builder_after
        × IsUnfinishedArray (prefix ++ name) no_values builder_after }
    ensures appended { (prefix : List ℕ) (document_pairs : Pairs) (element_key : List ℕ) (new_value : Value)
        (builder_before builder_after : Builder) → IsUnfinishedDocument prefix document_pairs builder_before
        → AppendsBytes
        (name_bytes (type_of new_value) element_key ++ value_bytes new_value) builder_before builder_after
        → IsUnfinishedDocument prefix (append_pair document_pairs element_key new_value) builder_after }
    ensures in_array { (prefix : List ℕ) (array_values : Values) (new_value : Value)
        (builder_before builder_after : Builder)
        → IsUnfinishedArray prefix array_values builder_before
        → AppendsBytes
        (name_bytes (type_of new_value) (decimal (items_count array_values))
        ++ value_bytes new_value) builder_before builder_after
        → IsUnfinishedArray prefix (append_value array_values new_value) builder_after }
{}
