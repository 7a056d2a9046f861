//! Equality and hashing by a real hasher, whatever the order of keys.
use crate::fixtures::document_of;
use bson::extjson::{Form, Options};
use bson::{Bson, Document};
use std::alloc::{AllocError, Global};
use std::collections::HashMap;
use std::hash::{DefaultHasher, Hash, Hasher};
use std::test::Fail;

fn hash_of(value: &Bson) -> u64 {
    let mut hasher = DefaultHasher::new();
    value.hash(&mut hasher);
    hasher.finish()
}

/// Returns {x: 1, y: 2}, or with its keys in reverse order.
fn document_of_x_and_y(alloc: Global, reversed: bool) -> Result<Document, AllocError> {
    if reversed {
        document_of(alloc, &[("y", 2), ("x", 1)])
    } else {
        document_of(alloc, &[("x", 1), ("y", 2)])
    }
}

/// Returns [{x: 1, y: 2}], or with its keys in reverse order.
fn array_of_document(alloc: Global, reversed: bool) -> Result<Bson, AllocError> {
    let mut array_items = Vec::new(alloc);
    array_items.push(Bson::Document(document_of_x_and_y(alloc, reversed)?))?;
    Ok(Bson::Array(array_items))
}

/// Comparing and hashing allocate no memory.
#[test]
fn refused_no_allocation_in_comparing_and_hashing(rt: HostRuntime) -> Result<(), Fail> {
    let original = array_of_document(rt.alloc(), false)?;
    let reordered = array_of_document(rt.alloc(), true)?;
    assert!(rt; original == reordered);
    assert!(rt; hash_of(&original) == hash_of(&reordered));
    assert!(rt; original != Bson::Null);
    assert!(rt; original.eq_ordered(&original));
    assert!(rt; !original.eq_ordered(&reordered));
    Ok(())
}

#[test]
fn refused_no_allocation_in_comparing_documents(rt: HostRuntime) -> Result<(), Fail> {
    let original = document_of_x_and_y(rt.alloc(), false)?;
    let reordered = document_of_x_and_y(rt.alloc(), true)?;
    assert!(rt; original == reordered);
    assert!(rt; original.eq_ordered(&original));
    assert!(rt; !original.eq_ordered(&reordered));
    Ok(())
}

/// Writing into a vector with room allocates no memory.
#[test]
fn refused_no_allocation_writing_into_a_vector(rt: HostRuntime) -> Result<(), Fail> {
    let value = array_of_document(rt.alloc(), false)?;
    let mut output = Vec::with_capacity(rt.alloc(), 256)?;
    let options = Options::default();
    let write_result = value.write_text_into(rt.alloc(), options, Form::Relaxed, &mut output);
    assert!(rt; write_result.is_ok());
    assert!(rt; output.as_slice() == b"[{\"x\":1,\"y\":2}]".as_slice());
    Ok(())
}

#[test]
fn a_value_is_found_under_another_order_of_its_keys(rt: HostRuntime) -> Result<(), Fail> {
    let alloc = rt.alloc();
    let mut number_by_value: HashMap<Bson, u32> = HashMap::new(alloc);
    drop(number_by_value.insert(array_of_document(alloc, false)?, 7)?);
    assert!(rt;
        number_by_value
            .get(&array_of_document(alloc, true)?)
            .copied()
            == Some(7)
    );
    Ok(())
}
