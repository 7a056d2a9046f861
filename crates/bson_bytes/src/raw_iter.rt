//! The elements of a document in its bytes, in their order.
ghost use Rattle.std.specs.Prelude.{◌≡◌, true, IsUtf8};
ghost use Rattle.std.specs.Result.{is_ok};
ghost use Rattle.bson_bytes.specs.ReadElements.{elements_from_bytes};

use crate::raw_document::{RawArray, RawDocument};
use crate::raw_element::{elements_after_length, first_element};
use crate::raw_read::read_valid_value;
use crate::raw_value::RawBsonRef;
use std::str;

/// An iterator over the elements of a document: the key and the value of each.
#[derive(Clone, Copy)]
pub struct RawIter<'a> {
    // These begin with the elements that are left.
    bytes: &'a [u8],
    // Documents, arrays and scopes nest at most so deep in a value.
    depth: usize,
    ghost is_read: { is_ok (elements_from_bytes depth bytes.now) ≡ true },
}

/// An iterator over the values of an array.
#[derive(Clone, Copy)]
pub struct RawArrayIter<'a> {
    elements: RawIter<'a>,
}

impl<'a> RawDocument<'a> {
    ghost use Rattle.bson_bytes.specs.RawContents.{raw_elements};
    ghost use Rattle.bson_bytes.specs.RawIterators.{remaining_elements};

    /// Returns an iterator over the elements, in the order of the bytes. If a key is duplicated, each
    /// of its elements occurs.
    pub fn iter(&self) -> RawIter<'a>
        ensures { remaining_elements result ≡ raw_elements self.now }
    {
        let Some(bytes) = elements_after_length(self.bytes) else {
            unreachable!();
        };
        RawIter {
            bytes,
            depth: self.depth - 1,
        }
    }
}

impl<'a> RawArray<'a> {
    ghost use Rattle.bson_bytes.specs.RawContents.{raw_array_values};
    ghost use Rattle.bson_bytes.specs.RawIterators.{remaining_items, values_list};

    /// Returns an iterator over the values, in their order.
    pub fn iter(&self) -> RawArrayIter<'a>
        ensures { remaining_items result ≡ values_list (raw_array_values self.now) }
    {
        RawArrayIter {
            elements: self.elements.iter(),
        }
    }
}

impl<'a> Iterator for RawIter<'a> {
    ghost use Rattle.std.specs.Iterator.{YieldsFirstBy, item_count};
    ghost use Rattle.bson_bytes.specs.RawIterators.{element_view, remaining_pairs_list};

    type Item = (&'a str, RawBsonRef<'a>);

    ghost next_gives = { YieldsFirstBy element_view remaining_pairs_list };

    ghost remaining = { item_count remaining_pairs_list };

    fn next(&mut self) -> Option<(&'a str, RawBsonRef<'a>)> {
        let Some(element) = first_element(self.bytes) else {
            return None;
        };
        let value = read_valid_value(element.kind, element.value, self.depth);
        let key = valid_key(element.key);
        *self = RawIter {
            bytes: element.rest,
            depth: self.depth,
        };
        Some((key, value))
    }
}

impl<'a> Iterator for RawArrayIter<'a> {
    ghost use Rattle.std.specs.Iterator.{YieldsFirstBy, item_count};
    ghost use Rattle.bson_bytes.specs.RawIterators.{remaining_items};
    ghost use Rattle.bson_bytes.specs.RawView.{raw_view};

    type Item = RawBsonRef<'a>;

    ghost next_gives = { YieldsFirstBy raw_view remaining_items };

    ghost remaining = { item_count remaining_items };

    fn next(&mut self) -> Option<RawBsonRef<'a>> {
        match self.elements.next() {
            Some((_, value)) => Some(value),
            None => None,
        }
    }
}

// Returns the key as a string.
fn valid_key(bytes: &[u8]) -> &str
    requires { IsUtf8 bytes.now }
    ensures { result.now ≡ bytes.now }
{
    match str::from_utf8(bytes) {
        Ok(key) => key,
        Err(_) => unreachable!(),
    }
}
