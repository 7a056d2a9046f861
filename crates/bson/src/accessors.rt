//! The content of a value, by its kind.
ghost use Rattle.std.specs.Prelude.{◌≡◌, ◌↔◌, IsSome, option_copied, option_map};
ghost use Rattle.std.specs.Borrow.{LendsIf, sem};
ghost use Rattle.bson.specs.declared.bson.Bson.TheVariants as value;
ghost use Rattle.bson.specs.Kinds.{array_of, boolean_of, text_bytes_of, date_of, db_pointer_of};
ghost use Rattle.bson.specs.Kinds.{document_of, double_of, int32_of, int64_of, object_id_of};
ghost use Rattle.bson.specs.Kinds.{string_of, symbol_of, timestamp_of};
ghost use Rattle.bson.specs.LoanTypes.{array_rust_type, bson_rust_type, date_rust_type, document_rust_type, object_id_rust_type};
ghost use Rattle.bson.specs.LoanTypes.{string_rust_type};

use crate::bson::{Array, Bson};
use crate::document::Document;
use crate::kinds::Kind;
use bson_types::datetime::DateTime;
use bson_types::db_pointer::DbPointer;
use bson_types::oid::ObjectId;
use bson_types::timestamp::Timestamp;

/// Each accessor gives what a value of its kind holds, and None for a value of any other kind. What
/// is written through a `_mut` form is then what the value holds.
impl Bson {
    /// Returns the pattern of a `Double` (IEEE 754 binary64).
    pub fn as_f64(&self) -> Option<u64>
        ensures { result ≡ double_of self.now }
    {
        u64::get_from(self).copied()
    }

    /// Returns the text of a `String`.
    pub fn as_str(&self) -> Option<&str>
        ensures { option_copied result ≡ text_bytes_of string_of self.now }
    {
        match self {
            Bson::String(text) => Some(text.as_str()),
            _ => None,
        }
    }

    /// Returns the text of a `String`, to write.
    pub fn as_str_mut(&mut self) -> Option<&mut String>
        ensures* writes_back { sem 𝓛 (LendsIf bson_rust_type string_rust_type self.entry result value.String self.old) }
        ensures value { option_map (λ reference. reference.now) result ≡ string_of self.old }
    {
        String::get_mut_from(self)
    }

    /// Returns the elements of an `Array`.
    pub fn as_array(&self) -> Option<&Array>
        ensures { option_copied result ≡ array_of self.now }
    {
        Array::get_from(self)
    }

    /// Returns the elements of an `Array`, to write.
    pub fn as_array_mut(&mut self) -> Option<&mut Array>
        ensures* writes_back { sem 𝓛 (LendsIf bson_rust_type array_rust_type self.entry result value.Array self.old) }
        ensures value { option_map (λ reference. reference.now) result ≡ array_of self.old }
    {
        Array::get_mut_from(self)
    }

    /// Returns the document of a `Document`.
    pub fn as_document(&self) -> Option<&Document>
        ensures { option_copied result ≡ document_of self.now }
    {
        Document::get_from(self)
    }

    /// Returns the document of a `Document`, to write.
    pub fn as_document_mut(&mut self) -> Option<&mut Document>
        ensures* writes_back { sem 𝓛
            (LendsIf bson_rust_type document_rust_type self.entry result value.Document self.old) }
        ensures value { option_map (λ reference. reference.now) result ≡ document_of self.old }
    {
        Document::get_mut_from(self)
    }

    /// Returns the boolean of a `Boolean`.
    pub fn as_bool(&self) -> Option<bool>
        ensures { result ≡ boolean_of self.now }
    {
        bool::get_from(self).copied()
    }

    /// Returns `Some` for `Null`, which has no contents.
    pub fn as_null(&self) -> Option<()>
        ensures { IsSome result ↔ (self.now ≡ value.Null) }
    {
        match self {
            Bson::Null => Some(()),
            _ => None,
        }
    }

    /// Returns the number of an `Int32`.
    pub fn as_i32(&self) -> Option<i32>
        ensures { result ≡ int32_of self.now }
    {
        i32::get_from(self).copied()
    }

    /// Returns the number of an `Int64`.
    pub fn as_i64(&self) -> Option<i64>
        ensures { result ≡ int64_of self.now }
    {
        i64::get_from(self).copied()
    }

    /// Returns the timestamp of a `Timestamp`.
    pub fn as_timestamp(&self) -> Option<Timestamp>
        ensures { result ≡ timestamp_of self.now }
    {
        Timestamp::get_from(self).copied()
    }

    /// Returns the id of an `ObjectId`.
    pub fn as_object_id(&self) -> Option<ObjectId>
        ensures { result ≡ object_id_of self.now }
    {
        ObjectId::get_from(self).copied()
    }

    /// Returns the id of an `ObjectId`, to write.
    pub fn as_object_id_mut(&mut self) -> Option<&mut ObjectId>
        ensures* writes_back { sem 𝓛
            (LendsIf bson_rust_type object_id_rust_type self.entry result value.ObjectId self.old) }
        ensures value { option_map (λ reference. reference.now) result ≡ object_id_of self.old }
    {
        ObjectId::get_mut_from(self)
    }

    /// Returns the date-time of a `DateTime`.
    pub fn as_datetime(&self) -> Option<&DateTime>
        ensures { option_copied result ≡ date_of self.now }
    {
        DateTime::get_from(self)
    }

    /// Returns the date-time of a `DateTime`, to write.
    pub fn as_datetime_mut(&mut self) -> Option<&mut DateTime>
        ensures* writes_back { sem 𝓛 (LendsIf bson_rust_type date_rust_type self.entry result value.DateTime self.old) }
        ensures value { option_map (λ reference. reference.now) result ≡ date_of self.old }
    {
        DateTime::get_mut_from(self)
    }

    /// Returns the text of a `Symbol`.
    pub fn as_symbol(&self) -> Option<&str>
        ensures { option_copied result ≡ text_bytes_of symbol_of self.now }
    {
        match self {
            Bson::Symbol(text) => Some(text.as_str()),
            _ => None,
        }
    }

    /// Returns the text of a `Symbol`, to write.
    pub fn as_symbol_mut(&mut self) -> Option<&mut String>
        ensures* writes_back { sem 𝓛 (LendsIf bson_rust_type string_rust_type self.entry result value.Symbol self.old) }
        ensures value { option_map (λ reference. reference.now) result ≡ symbol_of self.old }
    {
        match self {
            Bson::Symbol(text) => Some(text),
            _ => None,
        }
    }

    /// Returns the pointer of a `DbPointer`.
    pub fn as_db_pointer(&self) -> Option<&DbPointer>
        ensures { option_copied result ≡ db_pointer_of self.now }
    {
        match self {
            Bson::DbPointer(pointer) => Some(pointer),
            _ => None,
        }
    }
}
