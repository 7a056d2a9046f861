//! Values that are changed in place by a closure. A call that finds no value to change leaves the
//! whole document as it was.
use crate::fixtures::{document_of, insert_pair};
use bson::document::ValueAccessError;
use bson::{Bson, Document};
use std::alloc::{AllocError, Global};
use std::process::Abort;
use std::test::Fail;

/// Returns a document with each letter of the text as a key, with the values 1, 2 and so on.
fn document_of_letters(alloc: Global, keys: &str) -> Result<Document, AllocError> {
    let mut document = Document::new(alloc);
    let mut number = 0i32;
    for letter in keys.chars() {
        number = number.wrapping_add(1);
        let mut key = String::new(alloc);
        key.push(letter)?;
        insert_pair(&mut document, key, Bson::Int32(number))?;
    }
    Ok(document)
}

/// Returns a document of `b` with 1, `inner_document` with the document of the letters, and `a` with 3.
fn nested_document(alloc: Global, keys: &str) -> Result<Document, AllocError> {
    let mut document = document_of(alloc, &[("b", 1)])?;
    let inner_document = Bson::Document(document_of_letters(alloc, keys)?);
    insert_pair(
        &mut document,
        String::from_str(alloc, "inner")?,
        inner_document,
    )?;
    insert_pair(&mut document, String::from_str(alloc, "a")?, Bson::Int32(3))?;
    Ok(document)
}

/// Returns whether the two documents have the same pairs in the same order, and the first finds each
/// of its keys.
fn has_same_pairs(document: &Document, document_before: &Document) -> bool {
    let mut remaining_pairs = document_before.iter();
    for (key, value) in document {
        let looked_up = document.get(key.as_str());
        let is_same_pair = match (remaining_pairs.next(), looked_up) {
            (Some((other_key, other_value)), Some(found_value)) => other_key == key
                && other_value == value
                && found_value == value,
            _ => false,
        };
        if !is_same_pair {
            return false;
        }
    }
    remaining_pairs.next().is_none()
}

/// If no pair has the index, the closure is not called and the document is unchanged, with few pairs
/// and with many.
#[test]
fn refused_no_allocation_past_the_last_index(rt: HostRuntime) -> Result<(), Fail> {
    let alloc = rt.alloc();
    for keys in ["", "cab", "mlkjihgfedcba"] {
        let mut document = document_of_letters(alloc, keys)?;
        let document_before = document.clone()?;
        let document_len = document.len();
        for pair_index in [document_len, usize::MAX] {
            let mut closure_called = false;
            let result = document.change_index(pair_index, |_, value| {
                closure_called = true;
                *value = Bson::Null;
            });
            assert!(rt; result.is_none() && !closure_called);
            assert!(rt; has_same_pairs(&document, &document_before));
            assert!(rt; document.get_index_mut(pair_index).is_none());
            assert!(rt; has_same_pairs(&document, &document_before));
            assert!(rt; document.place_mut(pair_index).is_none());
            assert!(rt; has_same_pairs(&document, &document_before));
        }
    }
    Ok(())
}

/// The value at the index is what the closure leaves, its result is returned, and the other pairs
/// are unchanged.
#[test]
fn refused_no_allocation_at_an_index(rt: HostRuntime) -> Result<(), Fail> {
    let alloc = rt.alloc();
    for keys in ["cab", "mlkjihgfedcba"] {
        let mut document = document_of_letters(alloc, keys)?;
        let document_before = document.clone()?;
        for pair_index in 0..document.len() {
            let old_number = document.change_index(pair_index, |key, value| {
                let old_number = value.as_i32();
                *value = Bson::Int32(-1);
                (key.len(), old_number)
            });
            assert!(rt;
                matches!(old_number, Some((1, Some(number)))
                    if usize::try_from(number).ok() == Some(pair_index + 1))
            );
            assert!(rt; document != document_before);
            let replaced_value = document.change_index(pair_index, |_, value| {
                let replaced_number = value.as_i32();
                *value = Bson::Int32(old_number.unwrap_or((0, None)).1.unwrap_or(0));
                replaced_number
            });
            assert!(rt; replaced_value == Some(Some(-1)));
            assert!(rt; has_same_pairs(&document, &document_before));
        }
    }
    Ok(())
}

/// If the key is absent, or its value is not a document, the closure is not called and the whole
/// document is unchanged.
#[test]
fn refused_no_allocation_if_not_a_document(rt: HostRuntime) -> Result<(), Fail> {
    let alloc = rt.alloc();
    let mut document = nested_document(alloc, "zy")?;
    let document_before = document.clone()?;
    let cases = [
        ("c", ValueAccessError::NotPresent),
        ("", ValueAccessError::NotPresent),
        ("z", ValueAccessError::NotPresent),
        ("b", ValueAccessError::UnexpectedType),
        ("a", ValueAccessError::UnexpectedType),
    ];
    for (key, expected_error) in cases {
        let mut closure_called = false;
        let result = document.change_document(key, |inner_document| {
            closure_called = true;
            inner_document.clear();
        });
        assert!(rt; result == Err(expected_error) && !closure_called);
        assert!(rt; has_same_pairs(&document, &document_before));
        assert!(rt;
            matches!(document.get_document_mut(key), Err(error) if error == expected_error)
        );
        assert!(rt; has_same_pairs(&document, &document_before));
    }
    Ok(())
}

/// The document at the key is what the closure leaves, its result is returned, and the other pairs
/// are unchanged.
#[test]
fn refused_no_allocation_in_an_inner_document(rt: HostRuntime) -> Result<(), Fail> {
    let alloc = rt.alloc();
    let mut document = nested_document(alloc, "zyx")?;
    let expected_document = nested_document(alloc, "zy")?;
    let removed_value = document.change_document(
        "inner",
        |inner_document| inner_document.remove("x"),
    );
    assert!(rt; matches!(removed_value, Ok(Some(Bson::Int32(3)))));
    assert!(rt; has_same_pairs(&document, &expected_document));
    let innermost_result = document.change_document("inner", |inner_document| {
        inner_document.change_document("z", |innermost| innermost.clear())
    });
    assert!(rt; matches!(innermost_result, Ok(Err(ValueAccessError::UnexpectedType))));
    assert!(rt; has_same_pairs(&document, &expected_document));
    Ok(())
}

/// An insertion within, refused or done, leaves the document as it was or with that pair.
#[test]
fn refused_insert_within(rt: HostRuntime) -> Result<(), Fail> {
    let alloc = rt.alloc();
    let mut document = nested_document(alloc, "zy")?;
    let document_before = nested_document(alloc, "zy")?;
    let expected_document = nested_document(alloc, "zyx")?;
    let key = String::from_str(alloc, "x")?;
    let insert_result = document.change_document(
        "inner",
        |inner_document| inner_document.insert(key, Bson::Int32(3)).is_ok(),
    );
    match insert_result {
        Ok(true) => {
            assert!(rt; has_same_pairs(&document, &expected_document));
            Ok(())
        }
        Ok(false) => {
            assert!(rt; has_same_pairs(&document, &document_before));
            Err(Fail::from(AllocError))
        }
        Err(_) => {
            assert!(rt; false);
            Ok(())
        }
    }
}

/// Each value is shown once, in order, with its key, and becomes what the closure leaves.
#[test]
fn refused_no_allocation_in_change_values(rt: HostRuntime) -> Result<(), Fail> {
    let alloc = rt.alloc();
    for keys in ["", "a", "cab", "mlkjihgfedcba"] {
        let mut document = document_of_letters(alloc, keys)?;
        let document_before = document.clone()?;
        let mut visited_count = 0i32;
        let mut call_count = 0usize;
        let mut in_order = true;
        document.change_values(|key, value| {
            visited_count = visited_count.wrapping_add(1);
            call_count = call_count.wrapping_add(1);
            in_order = in_order && key.len() == 1 && value.as_i32() == Some(visited_count);
            *value = Bson::Int32(visited_count.wrapping_neg());
        });
        assert!(rt; in_order && call_count == document_before.len());
        assert!(rt; document.is_empty() || document != document_before);
        document.change_values(|_, value| {
            if let Bson::Int32(number) = value {
                *number = number.wrapping_neg();
            }
        });
        assert!(rt; has_same_pairs(&document, &document_before));
    }
    Ok(())
}
