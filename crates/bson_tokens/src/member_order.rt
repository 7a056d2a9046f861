//! Puts the members of an object in order, each key once.
ghost use Rattle.std.specs.Prelude.{◌≡◌, ◌<◌, ◌++◌, ◌∷◌, [], false, length, map, None, option_map, true, IfOk, OnOk};
ghost use Rattle.std.specs.List.{All};
ghost use Rattle.std.specs.List.Sorted.{IsPermutation, IsSortedBy, IsSortedByKey};
ghost use Rattle.std.specs.Ordering.{is_lt, nat_cmp};
ghost use Rattle.serde_json.specs.Written.{comma_if};
ghost use Rattle.bson_tokens.specs.NormalizerStates.{key_and_offset_cmp, merge, member_span_key, span_offset};
ghost use Rattle.bson_tokens.specs.NormalizerStates.{AreSpansOrdered, AreSpansArranged, IsFirstSpanOfKey, AreSpansJoined, IsMemberSpanWithin, SpansNormalized, AreKeysInOrder};
ghost use Rattle.json.specs.Strict.{AreDistinct};
ghost use Rattle.bson_tokens.specs.PutMembers.{merged, KeyIsGreater, KeysAscendFrom};

use bson_model::options::KeyOrder;
use std::alloc::{AllocError, Global};
use std::cmp::Ordering;

// Among this many members, a duplicate key is searched for by comparing all pairs.
const MAX_KEYS_COMPARED_PAIRWISE: usize = 32;

// The key of a member, its position among the others, and the span of its text (`"a":1`).
// All positions are relative to the start of its object.
#[derive(Clone, Copy, Drop)]
pub(crate) struct MemberSpan<'a> {
    pub(crate) key: &'a str,
    pub(crate) offset_in_object: usize,
    pub(crate) start: usize,
    pub(crate) end: usize,
}

// Adds a member, and reserves capacity for at most a quarter more.
pub(crate) fn push_span<'a>(
    spans: &mut Vec<MemberSpan<'a>>,
    span: MemberSpan<'a>,
) -> Result<(), AllocError>
    ensures { OnOk result (spans.new.items ≡ spans.old.items ++ span.entry ∷ []) }
{
    if spans.len() == spans.capacity() {
        spans.reserve_exact(spans.len() / 4 + 4)?;
    }
    spans.push(span)?;
    Ok(())
}

// Puts the members in order, each key once with its last text, and returns their text. Returns
// `None` if they are in order.
pub(crate) fn normalize_spans(
    alloc: Global,
    key_order: KeyOrder,
    spans: &mut Vec<MemberSpan<'_>>,
    body: &[u8],
) -> Result<Option<Vec<u8>>, AllocError>
    requires { All (IsMemberSpanWithin body.now) spans.old.items }
    ensures { IfOk result (λ text. SpansNormalized key_order body.now spans.old.items spans.new.items text) }
{
    if are_normalized(key_order, spans) {
        return Ok(None);
    }
    order_spans(key_order, spans);
    Ok(Some(join_spans(alloc, spans, body)?))
}

// Returns true if the members are in order, each key once. Many members at first positions are not
// compared.
fn are_normalized(key_order: KeyOrder, spans: &Vec<MemberSpan<'_>>) -> bool
    ensures { result ≡ true → AreKeysInOrder key_order (map member_span_key spans.now.items) }
{
    if span_keys_ascend(spans) {
        return true;
    }
    match key_order {
        KeyOrder::AsGiven => are_few_and_distinct(spans),
        KeyOrder::Ascending => false,
    }
}

// Returns true if there are only some keys, and no two of them are equal.
fn are_few_and_distinct(spans: &Vec<MemberSpan<'_>>) -> bool
    ensures { result ≡ true → AreDistinct (map member_span_key spans.now.items) }
{
    if spans.len() > MAX_KEYS_COMPARED_PAIRWISE {
        return false;
    }
    for span_index in 1..spans.len() {
        if is_duplicate_at(spans, span_index) {
            return false;
        }
    }
    true
}

// Returns whether an earlier member has the same key.
fn is_duplicate_at(spans: &Vec<MemberSpan<'_>>, span_index: usize) -> bool
    requires { span_index < length spans.now.items }
    ensures { result ≡ false → IsFirstSpanOfKey spans.now.items span_index }
{
    let key = spans[span_index].key;
    for earlier_index in 0..span_index {
        if spans[earlier_index].key == key {
            return true;
        }
    }
    false
}

// Keeps each key once, with the text of its last member.
fn order_spans(key_order: KeyOrder, spans: &mut Vec<MemberSpan<'_>>)
    ensures { AreSpansOrdered key_order spans.old.items spans.new.items }
{
    sort_by_key(spans);
    merge_equal_keys(spans);
    arrange_spans(key_order, spans);
}

// Puts members that are sorted by key in the key order.
fn arrange_spans(key_order: KeyOrder, spans: &mut Vec<MemberSpan<'_>>)
    ensures { AreSpansArranged key_order spans.old.items spans.new.items }
{
    match key_order {
        KeyOrder::AsGiven => sort_by_offset(spans),
        KeyOrder::Ascending => {}
    }
}

// Returns whether each key is greater than the one before, by bytes.
fn span_keys_ascend(spans: &Vec<MemberSpan<'_>>) -> bool
    ensures { result ≡ true → KeysAscendFrom None (map member_span_key spans.now.items) }
{
    let mut last_key: Option<&str> = None;
    for span_index in 0..spans.len() {
        let key = spans[span_index].key;
        if !key_follows(last_key, key) {
            return false;
        }
        last_key = Some(key);
    }
    true
}

// Returns whether the key is greater than the last one, by bytes.
fn key_follows(last_key: Option<&str>, key: &str) -> bool
    ensures { result ≡ true → KeyIsGreater (option_map (λ key_text. key_text.now) last_key.entry) key.now }
{
    match last_key {
        Some(last_key) => last_key.cmp(key).is_lt(),
        None => true,
    }
}

// Sorts by key, and members with one key by position.
fn sort_by_key(spans: &mut Vec<MemberSpan<'_>>)
    ensures permutation { IsPermutation spans.old.items spans.new.items }
    ensures sorted { IsSortedBy
        (λ first_span second_span. is_lt (key_and_offset_cmp first_span second_span)) spans.new.items }
{
    spans.sort_unstable_by(|first_span, second_span| by_key_and_offset(first_span, second_span));
}

fn by_key_and_offset(first_span: &MemberSpan<'_>, second_span: &MemberSpan<'_>) -> Ordering
    ensures { result ≡ key_and_offset_cmp first_span.now second_span.now }
{
    let by_key = first_span.key.cmp(second_span.key);
    by_key.then(
        first_span
            .offset_in_object
            .cmp(&second_span.offset_in_object),
    )
}

// Merges adjacent members with one key into one, with the position of the first and the text of the
// last.
fn merge_equal_keys(spans: &mut Vec<MemberSpan<'_>>)
    ensures { spans.new.items ≡ merged member_span_key merge spans.old.items }
{
    if spans.is_empty() {
        return;
    }
    let mut merged_count = 0;
    let mut last_span = spans[0];
    'spans: for span_index in 1..spans.len() {
        let next_span = spans[span_index];
        if next_span.key == last_span.key {
            last_span.start = next_span.start;
            last_span.end = next_span.end;
        } else {
            spans[merged_count] = last_span;
            merged_count += 1;
            last_span = next_span;
        }
    }
    spans[merged_count] = last_span;
    spans.truncate(merged_count + 1);
}

fn sort_by_offset(spans: &mut Vec<MemberSpan<'_>>)
    ensures permutation { IsPermutation spans.old.items spans.new.items }
    ensures sorted { IsSortedByKey span_offset nat_cmp spans.new.items }
{
    spans.sort_unstable_by_key(|span| span.offset_in_object);
}

// Concatenates the texts of the members, and updates their spans.
fn join_spans(
    alloc: Global,
    spans: &mut Vec<MemberSpan<'_>>,
    body: &[u8],
) -> Result<Vec<u8>, AllocError>
    requires { All (IsMemberSpanWithin body.now) spans.old.items }
    ensures { IfOk result (λ text. AreSpansJoined body.now spans.old.items spans.new.items text.items) }
{
    // Twice the capacity, half of which is never touched: glibc maps a block that is larger than all
    // that were freed before it, and so returns it at once (mallopt(3), M_MMAP_THRESHOLD).
    let mut text = Vec::with_capacity(alloc, body.len().saturating_mul(2))?;
    'spans: for span_index in 0..spans.len() {
        let MemberSpan {
            key,
            start,
            end,
            ..
        } = spans[span_index];
        put_comma(span_index > 0, &mut text)?;
        let offset_in_object = text.len();
        text.extend_from_slice(&body[start..end])?;
        spans[span_index] = MemberSpan {
            key,
            offset_in_object,
            start: offset_in_object,
            end: text.len(),
        };
    }
    Ok(text)
}

fn put_comma(needs_comma: bool, text: &mut Vec<u8>) -> Result<(), AllocError>
    ensures { OnOk result (text.new.items ≡ text.old.items ++ comma_if needs_comma) }
{
    if needs_comma {
        text.push(b',')?;
    }
    Ok(())
}
