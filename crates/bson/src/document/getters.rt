//! Typed access to a document's values.
//!
//! Each getter answers `NotPresent` exactly where the key is absent, and `UnexpectedType` exactly
//! where its value is of another kind. What is written through a `_mut` form becomes the value of
//! that key, and the rest stays.
use crate::bson::Array;
use crate::document::Document;
use crate::kinds::Kind;
use bson_types::datetime::DateTime;
use bson_types::decimal128::Decimal128;
use bson_types::oid::ObjectId;
use bson_types::timestamp::Timestamp;

/// Why a typed getter has no value to give.
///
/// Where `document` is `{ "a": 1, "b": 2 }`:
///
/// ```
/// println!(rt; "{:?}", document.get_i32("c"))?; // Err(NotPresent)
/// if document.get_str("a") == Err(ValueAccessError::UnexpectedType) {
///     println!(rt; "a is no text")?; // a is no text
/// }
/// ```
#[derive(Clone, Copy, PartialEq, Eq, Debug, thiserror::Error)]
pub enum ValueAccessError {
    /// The key is absent.
    #[error("the key is not present")]
    NotPresent,
    /// The key's value is of another kind.
    #[error("the value is of another kind")]
    UnexpectedType,
}

/// What a typed getter answers.
pub type ValueAccessResult<T> = Result<T, ValueAccessError>;

impl Document {
    ghost use Rattle.std.specs.Prelude.{◌≡◌, Ok, Err, IfOk, IfErr};
    ghost use Rattle.std.specs.Borrow.{MutBor, sem};
    ghost use Rattle.std.specs.Fn.{FnOnceReturnsAtMut};
    ghost use Rattle.bson.specs.Loans.{WritesBackAtKey};
    ghost use Rattle.bson.specs.View.{contents};
    ghost use Rattle.bson.specs.declared.document.Document as document;
    ghost use Rattle.bson_store.specs.Pairs.{insert_pair};
    ghost use Rattle.bson.specs.declared.bson.Bson.TheVariants as value;
    ghost use Rattle.bson.specs.LoanTypes.{array_rust_type, boolean_rust_type, bytes_rust_type, date_rust_type, decimal_rust_type};
    ghost use Rattle.bson.specs.LoanTypes.{double_rust_type, int32_rust_type, int64_rust_type, object_id_rust_type, string_rust_type};
    ghost use Rattle.bson.specs.LoanTypes.{timestamp_rust_type};
    ghost use Rattle.bson.specs.Kinds.{typed_get, dereferenced_result, dereferenced_mut_result};
    ghost use Rattle.bson.specs.Kinds.{array_of, boolean_of, date_of, decimal_of, document_of};
    ghost use Rattle.bson.specs.Kinds.{double_of};
    ghost use Rattle.bson.specs.Kinds.{generic_binary_value, generic_binary_bytes_of, int32_of, int64_of, object_id_of};
    ghost use Rattle.bson.specs.Kinds.{string_of};
    ghost use Rattle.bson.specs.Kinds.{text_bytes_of, timestamp_of};

    /// Returns the pattern of the double at the key.
    ///
    /// # Errors
    ///
    /// - `NotPresent`: the key is absent.
    /// - `UnexpectedType`: the value of the key is of another kind.
    pub fn get_f64(&self, key: &str) -> ValueAccessResult<u64>
        ensures { result ≡ typed_get double_of key.now self.now }
    {
        Ok(*self.get_as::<u64>(key)?)
    }

    /// Returns the pattern of the double at the key, to write.
    ///
    /// # Errors
    ///
    /// The errors of [`Document::get_f64`].
    pub fn get_f64_mut(&mut self, key: &str) -> ValueAccessResult<&mut u64>
        ensures* writes_back { sem 𝓛 (WritesBackAtKey double_rust_type value.Double self.entry self.old key.now result) }
        ensures value { dereferenced_mut_result result ≡ typed_get double_of key.now self.old }
    {
        self.get_as_mut::<u64>(key)
    }

    /// Returns the string at the key.
    ///
    /// # Errors
    ///
    /// - `NotPresent`: the key is absent.
    /// - `UnexpectedType`: the value of the key is of another kind.
    pub fn get_str(&self, key: &str) -> ValueAccessResult<&str>
        ensures { dereferenced_result result ≡ typed_get (text_bytes_of string_of) key.now self.now }
    {
        let text = self.get_as::<String>(key)?;
        Ok(text.as_str())
    }

    /// Returns the string at the key, to write.
    ///
    /// # Errors
    ///
    /// The errors of [`Document::get_str`].
    pub fn get_str_mut(&mut self, key: &str) -> ValueAccessResult<&mut String>
        ensures* writes_back { sem 𝓛 (WritesBackAtKey string_rust_type value.String self.entry self.old key.now result) }
        ensures value { dereferenced_mut_result result ≡ typed_get string_of key.now self.old }
    {
        self.get_as_mut::<String>(key)
    }

    /// Returns the array at the key.
    ///
    /// # Errors
    ///
    /// - `NotPresent`: the key is absent.
    /// - `UnexpectedType`: the value of the key is of another kind.
    pub fn get_array(&self, key: &str) -> ValueAccessResult<&Array>
        ensures { dereferenced_result result ≡ typed_get array_of key.now self.now }
    {
        self.get_as::<Array>(key)
    }

    /// Returns the array at the key, to write.
    ///
    /// # Errors
    ///
    /// The errors of [`Document::get_array`].
    pub fn get_array_mut(&mut self, key: &str) -> ValueAccessResult<&mut Array>
        ensures* writes_back { sem 𝓛 (WritesBackAtKey array_rust_type value.Array self.entry self.old key.now result) }
        ensures value { dereferenced_mut_result result ≡ typed_get array_of key.now self.old }
    {
        self.get_as_mut::<Array>(key)
    }

    /// Returns the document at the key.
    ///
    /// # Errors
    ///
    /// - `NotPresent`: the key is absent.
    /// - `UnexpectedType`: the value of the key is of another kind.
    pub fn get_document(&self, key: &str) -> ValueAccessResult<&Document>
        ensures { dereferenced_result result ≡ typed_get document_of key.now self.now }
    {
        self.get_as::<Document>(key)
    }

    /// Returns the document at the key, to write.
    ///
    /// The contract does not say what this document is after the call, even if the call fails.
    /// [`Document::change_document`] says it in full, and so do [`Document::get_mut`] and then
    /// [`Bson::as_document_mut`](crate::Bson::as_document_mut).
    ///
    /// # Errors
    ///
    /// The errors of [`Document::get_document`].
    pub fn get_document_mut(&mut self, key: &str) -> ValueAccessResult<&mut Document>
        ensures value { dereferenced_mut_result result ≡ typed_get document_of key.now self.old }
    {
        self.get_as_mut::<Document>(key)
    }

    /// Calls `change` on the document at the key, and returns its result. The document that
    /// `change` leaves becomes the value of the key. The key keeps its position, and the other
    /// pairs are unchanged.
    ///
    /// # Errors
    ///
    /// The errors of [`Document::get_document`]. `change` was then not called, and this document is
    /// unchanged.
    pub fn change_document<U, F: FnOnce(&mut Document) -> U>(
        &mut self,
        key: &str,
        change: F,
    ) -> ValueAccessResult<U>
        requires { (loaned : MutBor document.Document)
            → typed_get document_of key.now self.old ≡ Ok loaned.now → F.pre change loaned }
        ensures changed { IfOk result (λ returned. (document_before document_after : document.Document)
            × (typed_get document_of key.now self.old ≡ Ok document_before)
            × FnOnceReturnsAtMut F.FnOnce change document_before returned document_after
            × (contents self.new ≡ insert_pair key.now (value.Document document_after) (contents self.old))) }
        ensures refused { IfErr result (λ error. (typed_get document_of key.now self.old ≡ Err error)
            × (contents self.new ≡ contents self.old)) }
    {
        match self.get_mut(key) {
            None => Err(ValueAccessError::NotPresent),
            Some(value) => match value.as_document_mut() {
                Some(document) => Ok(change(document)),
                None => Err(ValueAccessError::UnexpectedType),
            },
        }
    }

    /// Returns the boolean at the key.
    ///
    /// # Errors
    ///
    /// - `NotPresent`: the key is absent.
    /// - `UnexpectedType`: the value of the key is of another kind.
    pub fn get_bool(&self, key: &str) -> ValueAccessResult<bool>
        ensures { result ≡ typed_get boolean_of key.now self.now }
    {
        Ok(*self.get_as::<bool>(key)?)
    }

    /// Returns the boolean at the key, to write.
    ///
    /// # Errors
    ///
    /// The errors of [`Document::get_bool`].
    pub fn get_bool_mut(&mut self, key: &str) -> ValueAccessResult<&mut bool>
        ensures* writes_back { sem 𝓛 (WritesBackAtKey boolean_rust_type value.Boolean self.entry self.old key.now result) }
        ensures value { dereferenced_mut_result result ≡ typed_get boolean_of key.now self.old }
    {
        self.get_as_mut::<bool>(key)
    }

    /// Returns the number of 32 bits at the key.
    ///
    /// # Errors
    ///
    /// - `NotPresent`: the key is absent.
    /// - `UnexpectedType`: the value of the key is of another kind.
    pub fn get_i32(&self, key: &str) -> ValueAccessResult<i32>
        ensures { result ≡ typed_get int32_of key.now self.now }
    {
        Ok(*self.get_as::<i32>(key)?)
    }

    /// Returns the number of 32 bits at the key, to write.
    ///
    /// # Errors
    ///
    /// The errors of [`Document::get_i32`].
    pub fn get_i32_mut(&mut self, key: &str) -> ValueAccessResult<&mut i32>
        ensures* writes_back { sem 𝓛 (WritesBackAtKey int32_rust_type value.Int32 self.entry self.old key.now result) }
        ensures value { dereferenced_mut_result result ≡ typed_get int32_of key.now self.old }
    {
        self.get_as_mut::<i32>(key)
    }

    /// Returns the number of 64 bits at the key.
    ///
    /// # Errors
    ///
    /// - `NotPresent`: the key is absent.
    /// - `UnexpectedType`: the value of the key is of another kind.
    pub fn get_i64(&self, key: &str) -> ValueAccessResult<i64>
        ensures { result ≡ typed_get int64_of key.now self.now }
    {
        Ok(*self.get_as::<i64>(key)?)
    }

    /// Returns the number of 64 bits at the key, to write.
    ///
    /// # Errors
    ///
    /// The errors of [`Document::get_i64`].
    pub fn get_i64_mut(&mut self, key: &str) -> ValueAccessResult<&mut i64>
        ensures* writes_back { sem 𝓛 (WritesBackAtKey int64_rust_type value.Int64 self.entry self.old key.now result) }
        ensures value { dereferenced_mut_result result ≡ typed_get int64_of key.now self.old }
    {
        self.get_as_mut::<i64>(key)
    }

    /// Returns the timestamp at the key.
    ///
    /// # Errors
    ///
    /// - `NotPresent`: the key is absent.
    /// - `UnexpectedType`: the value of the key is of another kind.
    pub fn get_timestamp(&self, key: &str) -> ValueAccessResult<Timestamp>
        ensures { result ≡ typed_get timestamp_of key.now self.now }
    {
        Ok(*self.get_as::<Timestamp>(key)?)
    }

    /// Returns the timestamp at the key, to write.
    ///
    /// # Errors
    ///
    /// The errors of [`Document::get_timestamp`].
    pub fn get_timestamp_mut(&mut self, key: &str) -> ValueAccessResult<&mut Timestamp>
        ensures* writes_back { sem 𝓛 (WritesBackAtKey timestamp_rust_type value.Timestamp self.entry self.old key.now result) }
        ensures value { dereferenced_mut_result result ≡ typed_get timestamp_of key.now self.old }
    {
        self.get_as_mut::<Timestamp>(key)
    }

    /// Returns the bytes of the binary of subtype `Generic` at the key.
    ///
    /// # Errors
    ///
    /// - `NotPresent`: the key is absent.
    /// - `UnexpectedType`: the value is of another kind or subtype, for example `UserDefined(0)`.
    pub fn get_binary_generic(&self, key: &str) -> ValueAccessResult<&Vec<u8>>
        ensures { dereferenced_result result ≡ typed_get generic_binary_bytes_of key.now self.now }
    {
        self.get_as::<Vec<u8>>(key)
    }

    /// Returns the bytes of the binary of subtype `Generic` at the key, to write.
    ///
    /// # Errors
    ///
    /// The errors of [`Document::get_binary_generic`].
    pub fn get_binary_generic_mut(&mut self, key: &str) -> ValueAccessResult<&mut Vec<u8>>
        ensures* writes_back { sem 𝓛 (WritesBackAtKey bytes_rust_type generic_binary_value self.entry self.old key.now result) }
        ensures value { dereferenced_mut_result result ≡ typed_get generic_binary_bytes_of key.now self.old }
    {
        self.get_as_mut::<Vec<u8>>(key)
    }

    /// Returns the object id at the key.
    ///
    /// # Errors
    ///
    /// - `NotPresent`: the key is absent.
    /// - `UnexpectedType`: the value of the key is of another kind.
    pub fn get_object_id(&self, key: &str) -> ValueAccessResult<ObjectId>
        ensures { result ≡ typed_get object_id_of key.now self.now }
    {
        Ok(*self.get_as::<ObjectId>(key)?)
    }

    /// Returns the object id at the key, to write.
    ///
    /// # Errors
    ///
    /// The errors of [`Document::get_object_id`].
    pub fn get_object_id_mut(&mut self, key: &str) -> ValueAccessResult<&mut ObjectId>
        ensures* writes_back { sem 𝓛 (WritesBackAtKey object_id_rust_type value.ObjectId self.entry self.old key.now result) }
        ensures value { dereferenced_mut_result result ≡ typed_get object_id_of key.now self.old }
    {
        self.get_as_mut::<ObjectId>(key)
    }

    /// Returns the moment at the key.
    ///
    /// # Errors
    ///
    /// - `NotPresent`: the key is absent.
    /// - `UnexpectedType`: the value of the key is of another kind.
    pub fn get_datetime(&self, key: &str) -> ValueAccessResult<&DateTime>
        ensures { dereferenced_result result ≡ typed_get date_of key.now self.now }
    {
        self.get_as::<DateTime>(key)
    }

    /// Returns the moment at the key, to write.
    ///
    /// # Errors
    ///
    /// The errors of [`Document::get_datetime`].
    pub fn get_datetime_mut(&mut self, key: &str) -> ValueAccessResult<&mut DateTime>
        ensures* writes_back { sem 𝓛 (WritesBackAtKey date_rust_type value.DateTime self.entry self.old key.now result) }
        ensures value { dereferenced_mut_result result ≡ typed_get date_of key.now self.old }
    {
        self.get_as_mut::<DateTime>(key)
    }

    /// Returns the decimal at the key.
    ///
    /// # Errors
    ///
    /// - `NotPresent`: the key is absent.
    /// - `UnexpectedType`: the value of the key is of another kind.
    pub fn get_decimal128(&self, key: &str) -> ValueAccessResult<&Decimal128>
        ensures { dereferenced_result result ≡ typed_get decimal_of key.now self.now }
    {
        self.get_as::<Decimal128>(key)
    }

    /// Returns the decimal at the key, to write.
    ///
    /// # Errors
    ///
    /// The errors of [`Document::get_decimal128`].
    pub fn get_decimal128_mut(&mut self, key: &str) -> ValueAccessResult<&mut Decimal128>
        ensures* writes_back { sem 𝓛 (WritesBackAtKey decimal_rust_type value.Decimal128 self.entry self.old key.now result) }
        ensures value { dereferenced_mut_result result ≡ typed_get decimal_of key.now self.old }
    {
        self.get_as_mut::<Decimal128>(key)
    }

    // The value at the key, of the one kind that the type represents.
    fn get_as<T: Kind>(&self, key: &str) -> ValueAccessResult<&T>
        ensures { dereferenced_result result ≡ typed_get T.content_of key.now self.now }
    {
        let value = self.get(key).ok_or(ValueAccessError::NotPresent)?;
        T::get_from(value).ok_or(ValueAccessError::UnexpectedType)
    }

    // The same, to write.
    fn get_as_mut<T: Kind>(&mut self, key: &str) -> ValueAccessResult<&mut T>
        ensures* writes_back { sem 𝓛 (WritesBackAtKey T.row T.value_of self.entry self.old key.now result) }
        ensures value { dereferenced_mut_result result ≡ typed_get T.content_of key.now self.old }
    {
        match self.get_mut(key) {
            None => Err(ValueAccessError::NotPresent),
            Some(value) => match T::get_mut_from(value) {
                Some(content) => Ok(content),
                None => Err(ValueAccessError::UnexpectedType),
            },
        }
    }
}
