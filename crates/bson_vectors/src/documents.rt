//! Documents over several calls, and their state after a failed allocation.
ghost use Rattle.std.specs.Prelude.{◌<◌, length, IfSome};

use crate::fixtures::{document_of, insert_pair};
use bson::document::Refused;
use bson::{Bson, Document, JavaScriptCodeWithScope};
use std::alloc::{AllocError, Global};
use std::process::Abort;
use std::test::Fail;
use std::vec::IntoIter;

fn is_pair(pair: Option<(&String, &Bson)>, key: &str, value: i32) -> bool {
    match pair {
        Some((found_key, number)) => found_key.as_str() == key && number.as_i32() == Some(value),
        None => false,
    }
}

fn has_pair(document: &Document, key: &str, value: i32) -> bool {
    document.get_i32(key) == Ok(value)
}

/// Returns whether the document has exactly these pairs in this order, and finds each key.
fn has_exactly(document: &Document, pairs: &[(&str, i32)]) -> bool {
    let mut remaining_pairs = document.iter();
    for &(key, value) in pairs {
        if !is_pair(remaining_pairs.next(), key, value) || !has_pair(document, key, value) {
            return false;
        }
    }
    remaining_pairs.next().is_none() && document.len() == pairs.len()
}

/// Whether the document has exactly `a` with the value, and then the other pairs in their order,
/// and finds each key.
fn has_a_then(document: &Document, value: i32, other_pairs: &[(String, i32)]) -> bool {
    let mut remaining_pairs = document.iter();
    if !is_pair(remaining_pairs.next(), "a", value) || !has_pair(document, "a", value) {
        return false;
    }
    for (key, number) in other_pairs {
        if !is_pair(remaining_pairs.next(), key.as_str(), *number)
            || !has_pair(document, key.as_str(), *number)
        {
            return false;
        }
    }
    remaining_pairs.next().is_none() && document.len() == other_pairs.len() + 1
}

/// Returns k1 to k40 with their numbers.
fn numbered_pairs(alloc: Global) -> Result<Vec<(String, i32)>, AllocError> {
    let mut numbered = Vec::new(alloc);
    for number in 1..41 {
        numbered.push((format!(in alloc; "k{number}")?, number))?;
    }
    Ok(numbered)
}

/// Returns a with 9, then the others.
fn owned_items(
    alloc: Global,
    other_pairs: &[(String, i32)],
) -> Result<Vec<(String, Bson)>, AllocError> {
    let mut owned_pairs = Vec::new(alloc);
    owned_pairs.push((String::from_str(alloc, "a")?, Bson::Int32(9)))?;
    for (key, number) in other_pairs {
        owned_pairs.push((key.clone()?, Bson::Int32(*number)))?;
    }
    Ok(owned_pairs)
}

/// Returns the index of the key in the pairs.
fn index_of_key(pairs: &[(String, i32)], key: &str) -> Option<usize>
    ensures { IfSome result (λ found_index. found_index < length pairs.now) }
{
    for found_index in 0..pairs.len() {
        if pairs[found_index].0.as_str() == key {
            return Some(found_index);
        }
    }
    None
}

/// Returns whether inserting the key and number failed and returned both.
fn returns_pair(returned: &Result<Option<Bson>, Refused>, key: &str, value: i32) -> bool {
    match returned {
        Err(refused) => refused.key.as_str() == key && refused.value.as_i32() == Some(value),
        Ok(_) => false,
    }
}

/// Returns whether inserting an existing key replaces its value, and returns the old one.
fn replaces_value(document: &mut Document, key: String, value: i32, old_value: i32) -> bool {
    match document.insert(key, Bson::Int32(value)) {
        Ok(Some(number)) => number.as_i32() == Some(old_value),
        _ => false,
    }
}

/// k1 to k40 are inserted after `a`. A failed insertion returns the pair and leaves the document
/// unchanged, and the value of an existing key can then still be replaced.
#[test]
fn refused_insert(rt: HostRuntime) -> Result<(), Fail> {
    let alloc = rt.alloc();
    let other_pairs = numbered_pairs(alloc)?;
    let existing_key = String::from_str(alloc, "a")?;
    let mut document = document_of(alloc, &[("a", 1)])?;
    let mut inserted_count = 0;
    for pair_index in 0..other_pairs.len() {
        let (key, value) = &other_pairs[pair_index];
        let owned_key = key.clone()?;
        let result = document.insert(owned_key, Bson::Int32(*value));
        if result.is_err() {
            assert!(rt; returns_pair(&result, key.as_str(), *value));
            break;
        }
        inserted_count = pair_index + 1;
    }
    assert!(rt; inserted_count <= other_pairs.len());
    assert!(rt; has_a_then(&document, 1, &other_pairs[..inserted_count]));
    assert!(rt; replaces_value(&mut document, existing_key, 3, 1));
    assert!(rt; has_a_then(&document, 3, &other_pairs[..inserted_count]));
    end_test(inserted_count == other_pairs.len())
}

/// Ends a test: `Ok` if the call under test succeeded, and out of memory if an allocation failed.
fn end_test(all_passed: bool) -> Result<(), Fail> {
    if all_passed {
        Ok(())
    } else {
        Err(Fail::from(AllocError))
    }
}

/// Returns whether the items that remain are exactly these.
fn remaining_are(
    remaining_items: &mut IntoIter<(String, Bson)>,
    other_pairs: &[(String, i32)],
) -> bool {
    for (key, number) in other_pairs {
        if !is_owned_pair(remaining_items.next(), key.as_str(), *number) {
            return false;
        }
    }
    remaining_items.next().is_none()
}

/// Returns whether the refused pair is `a` 9 or one of the others, and those after it remain.
fn returns_refused(
    refused: &Refused,
    remaining_items: &mut IntoIter<(String, Bson)>,
    other_pairs: &[(String, i32)],
) -> bool {
    let value = refused.value.as_i32();
    match index_of_key(other_pairs, refused.key.as_str()) {
        Some(found_index) => value == Some(other_pairs[found_index].1)
            && remaining_are(remaining_items, &other_pairs[found_index + 1..]),
        None => refused.key.as_str() == "a"
            && value == Some(9)
            && remaining_are(remaining_items, other_pairs),
    }
}

/// Whether the document has `a` 9 and exactly the others before the refused pair.
fn has_pairs_before(document: &Document, refused: &Refused, other_pairs: &[(String, i32)]) -> bool {
    match index_of_key(other_pairs, refused.key.as_str()) {
        Some(inserted_count) => has_a_then(document, 9, &other_pairs[..inserted_count]),
        None => false,
    }
}

/// The refused item is returned, exactly those before it are inserted, and those after it remain.
#[test]
fn refused_extend(rt: HostRuntime) -> Result<(), Fail> {
    let alloc = rt.alloc();
    let other_pairs = numbered_pairs(alloc)?;
    let mut remaining_items = owned_items(alloc, &other_pairs)?.into_iter();
    let mut document = document_of(alloc, &[("a", 1)])?;
    match document.extend(&mut remaining_items) {
        Ok(()) => {
            assert!(rt;
                remaining_are(&mut remaining_items, &[]) && has_a_then(&document, 9, &other_pairs)
            );
            end_test(true)
        }
        Err(refused) => {
            assert!(rt; returns_refused(&refused, &mut remaining_items, &other_pairs));
            assert!(rt; has_pairs_before(&document, &refused, &other_pairs));
            end_test(false)
        }
    }
}

/// The refused item is returned, and those after it remain.
#[test]
fn refused_from_pairs(rt: HostRuntime) -> Result<(), Fail> {
    let alloc = rt.alloc();
    let other_pairs = numbered_pairs(alloc)?;
    let mut remaining_items = owned_items(alloc, &other_pairs)?.into_iter();
    match Document::from_pairs(alloc, &mut remaining_items) {
        Ok(document) => {
            assert!(rt;
                remaining_are(&mut remaining_items, &[]) && has_a_then(&document, 9, &other_pairs)
            );
            end_test(true)
        }
        Err(refused) => {
            assert!(rt; returns_refused(&refused, &mut remaining_items, &other_pairs));
            end_test(false)
        }
    }
}

/// A vacant entry that is refused leaves the document as it was.
#[test]
fn refused_entry(rt: HostRuntime) -> Result<(), Fail> {
    let alloc = rt.alloc();
    let first_key = String::from_str(alloc, "a")?;
    let second_key = String::from_str(alloc, "b")?;
    let mut document = Document::new(alloc);
    let was_inserted = document
        .entry(first_key)
        .or_insert_with(|| Bson::Int32(1))
        .is_ok();
    if !was_inserted {
        assert!(rt; has_exactly(&document, &[]));
        return end_test(false);
    }
    let was_inserted = document.entry(second_key).or_insert(Bson::Int32(2)).is_ok();
    if !was_inserted {
        assert!(rt; has_exactly(&document, &[("a", 1)]));
        return end_test(false);
    }
    assert!(rt; has_exactly(&document, &[("a", 1), ("b", 2)]));
    Ok(())
}

/// An occupied entry allocates no memory, calls nothing and lends the value that is there.
#[test]
fn refused_no_allocation_at_an_occupied_entry(rt: HostRuntime) -> Result<(), Fail> {
    let alloc = rt.alloc();
    let key = String::from_str(alloc, "a")?;
    let mut document = document_of(alloc, &[("a", 1)])?;
    let mut closure_called = false;
    let result = document.entry(key).or_insert_with(|| {
        closure_called = true;
        Bson::Null
    });
    assert!(rt; matches!(result, Ok(value) if value.as_i32() == Some(1)));
    assert!(rt; !closure_called);
    assert!(rt; has_exactly(&document, &[("a", 1)]));
    Ok(())
}

/// So does one with a value in the place of a closure; what is lent is written.
#[test]
fn refused_no_allocation_writing_an_occupied_entry(rt: HostRuntime) -> Result<(), Fail> {
    let alloc = rt.alloc();
    let key = String::from_str(alloc, "a")?;
    let mut document = document_of(alloc, &[("a", 1)])?;
    if let Ok(value) = document.entry(key).or_insert(Bson::Null)
        && value.as_i32() == Some(1)
    {
        *value = Bson::Int32(2);
    }
    assert!(rt; has_exactly(&document, &[("a", 2)]));
    Ok(())
}

#[test]
fn what_a_vacant_entry_lends_is_written(rt: HostRuntime) -> Result<(), Fail> {
    let alloc = rt.alloc();
    let mut document = document_of(alloc, &[("a", 1)])?;
    let value = document
        .entry(String::from_str(alloc, "b")?)
        .or_insert_with(|| Bson::Int32(2))?;
    *value = Bson::Int32(3);
    let value = document
        .entry(String::from_str(alloc, "c")?)
        .or_insert(Bson::Null)?;
    *value = Bson::Int32(4);
    assert!(rt; has_exactly(&document, &[("a", 1), ("b", 3), ("c", 4)]));
    Ok(())
}

/// Look-ups, walks, writes and removals allocate no memory.
#[test]
fn refused_no_allocation_in_a_document(rt: HostRuntime) -> Result<(), Fail> {
    let mut document = document_of(rt.alloc(), &[("a", 1), ("b", 2), ("c", 3)])?;
    assert!(rt; has_exactly(&document, &[("a", 1), ("b", 2), ("c", 3)]));
    assert!(rt; document.contains_key("b") && !document.contains_key("d"));
    if let Ok(number) = document.get_i32_mut("a") {
        *number = 10;
    }
    if let Some((_, value)) = document.get_index_mut(2) {
        *value = Bson::Int32(30);
    }
    assert!(rt; document == document);
    assert!(rt; has_exactly(&document, &[("a", 10), ("b", 2), ("c", 30)]));
    drop(document.remove("a"));
    assert!(rt; has_exactly(&document, &[("b", 2), ("c", 30)]));
    document.clear();
    assert!(rt; has_exactly(&document, &[]));
    Ok(())
}

#[test]
fn walks_go_in_order_to_the_end(rt: HostRuntime) -> Result<(), Fail> {
    let document = document_of(rt.alloc(), &[("b", 1), ("a", 2)])?;
    let mut keys = document.keys();
    assert!(rt; matches!(keys.next(), Some(key) if key.as_str() == "b"));
    assert!(rt; matches!(keys.next(), Some(key) if key.as_str() == "a"));
    assert!(rt; keys.next().is_none());
    let mut values = document.values();
    assert!(rt; matches!(values.next(), Some(value) if value.as_i32() == Some(1)));
    assert!(rt; matches!(values.next(), Some(value) if value.as_i32() == Some(2)));
    assert!(rt; values.next().is_none());
    let mut pairs = document.into_iter();
    assert!(rt; is_owned_pair(pairs.next(), "b", 1));
    assert!(rt; is_owned_pair(pairs.next(), "a", 2));
    assert!(rt; pairs.next().is_none());
    Ok(())
}

fn is_owned_pair(pair: Option<(String, Bson)>, key: &str, value: i32) -> bool {
    match pair {
        Some((found_key, number)) => found_key.as_str() == key && number.as_i32() == Some(value),
        None => false,
    }
}

/// What a getter lends is written, at any depth.
#[test]
fn what_a_getter_lends_is_written(rt: HostRuntime) -> Result<(), Fail> {
    let alloc = rt.alloc();
    let mut document = document_of(alloc, &[("a", 1)])?;
    let inner_document = Bson::Document(Document::new(alloc));
    let _ = document.insert(String::from_str(alloc, "b")?, inner_document);
    if let Ok(inner_document) = document.get_document_mut("b") {
        insert_pair(
            inner_document,
            String::from_str(alloc, "c")?,
            Bson::Int32(3),
        )?;
    }
    if let Ok(number) = document.get_i32_mut("a") {
        *number = 2;
    }
    assert!(rt; has_pair(&document, "a", 2));
    assert!(rt; document.len() == 2);
    assert!(rt;
        matches!(document.get_document("b"), Ok(inner_document) if has_exactly(inner_document, &[("c", 3)]))
    );
    Ok(())
}

/// A copy has the same pairs in the same order, or there is none.
#[test]
fn refused_clone(rt: HostRuntime) -> Result<(), Fail> {
    let alloc = rt.alloc();
    let scope = document_of(alloc, &[("y", 3), ("b", 4)])?;
    let code = String::from_str(alloc, "f()")?;
    let scoped = JavaScriptCodeWithScope { code, scope };
    let copy = scoped.clone(alloc)?;
    assert!(rt; copy.code.as_str() == "f()");
    assert!(rt; has_exactly(&copy.scope, &[("y", 3), ("b", 4)]));
    let copy = scoped.scope.clone()?;
    assert!(rt; has_exactly(&copy, &[("y", 3), ("b", 4)]));
    Ok(())
}
