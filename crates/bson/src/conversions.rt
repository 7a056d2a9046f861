//! Values made of what they hold.
ghost use Rattle.std.specs.Prelude.{◌≡◌, Option, unwrap_or};
ghost use Rattle.bson.specs.declared.bson.Bson.TheVariants as value;

use crate::bson::{Bson, JavaScriptCodeWithScope};
use crate::document::Document;
use bson_types::binary::{Binary, Vector};
use bson_types::datetime::DateTime;
use bson_types::db_pointer::DbPointer;
use bson_types::decimal128::Decimal128;
use bson_types::oid::ObjectId;
use bson_types::regex::Regex;
use bson_types::spec::BinarySubtype;
use bson_types::timestamp::Timestamp;
use bson_types::uuid_value::Uuid;
use std::alloc::{AllocError, Global};

/// `Null`.
impl Default for Bson {
    ghost is_default = { λ bson_value. bson_value ≡ value.Null };

    fn default() -> Bson {
        Bson::Null
    }
}

impl From<String> for Bson {
    ghost from_gives = { λ text bson_value. bson_value ≡ value.String text };

    fn from(text: String) -> Bson {
        Bson::String(text)
    }
}

impl From<Document> for Bson {
    ghost from_gives = { λ document bson_value. bson_value ≡ value.Document document };

    fn from(document: Document) -> Bson {
        Bson::Document(document)
    }
}

impl From<bool> for Bson {
    ghost from_gives = { λ truth bson_value. bson_value ≡ value.Boolean truth };

    fn from(truth: bool) -> Bson {
        Bson::Boolean(truth)
    }
}

impl From<Regex> for Bson {
    ghost from_gives = { λ regex bson_value. bson_value ≡ value.RegularExpression regex };

    fn from(regex: Regex) -> Bson {
        Bson::RegularExpression(regex)
    }
}

impl From<JavaScriptCodeWithScope> for Bson {
    ghost from_gives = { λ code bson_value. bson_value ≡ value.JavaScriptCodeWithScope code };

    fn from(code: JavaScriptCodeWithScope) -> Bson {
        Bson::JavaScriptCodeWithScope(code)
    }
}

impl From<Binary> for Bson {
    ghost from_gives = { λ binary bson_value. bson_value ≡ value.Binary binary };

    fn from(binary: Binary) -> Bson {
        Bson::Binary(binary)
    }
}

impl From<Timestamp> for Bson {
    ghost from_gives = { λ timestamp bson_value. bson_value ≡ value.Timestamp timestamp };

    fn from(timestamp: Timestamp) -> Bson {
        Bson::Timestamp(timestamp)
    }
}

impl From<Vec<Bson>> for Bson {
    ghost from_gives = { λ values bson_value. bson_value ≡ value.Array values };

    fn from(values: Vec<Bson>) -> Bson {
        Bson::Array(values)
    }
}

impl From<i32> for Bson {
    ghost from_gives = { λ number bson_value. bson_value ≡ value.Int32 number };

    fn from(number: i32) -> Bson {
        Bson::Int32(number)
    }
}

impl From<i64> for Bson {
    ghost from_gives = { λ number bson_value. bson_value ≡ value.Int64 number };

    fn from(number: i64) -> Bson {
        Bson::Int64(number)
    }
}

/// An `Int32` where the number fits, and else an `Int64`.
impl From<u32> for Bson {
    ghost use Rattle.bson.specs.Kinds.{smallest_integer};

    ghost from_gives = { λ unsigned_number bson_value. bson_value ≡ smallest_integer unsigned_number };

    fn from(number: u32) -> Bson {
        match i32::try_from(number) {
            Ok(int32) => Bson::Int32(int32),
            Err(_) => Bson::Int64(i64::from(number)),
        }
    }
}

/// The `ObjectId` of these bytes.
impl From<[u8; 12]> for Bson {
    ghost from_gives = { λ bytes bson_value. bson_value ≡ value.ObjectId bytes };

    fn from(bytes: [u8; 12]) -> Bson {
        Bson::ObjectId(ObjectId::from_bytes(bytes))
    }
}

impl From<ObjectId> for Bson {
    ghost from_gives = { λ id bson_value. bson_value ≡ value.ObjectId id };

    fn from(id: ObjectId) -> Bson {
        Bson::ObjectId(id)
    }
}

impl From<DateTime> for Bson {
    ghost from_gives = { λ date bson_value. bson_value ≡ value.DateTime date };

    fn from(date: DateTime) -> Bson {
        Bson::DateTime(date)
    }
}

impl From<DbPointer> for Bson {
    ghost from_gives = { λ pointer bson_value. bson_value ≡ value.DbPointer pointer };

    fn from(pointer: DbPointer) -> Bson {
        Bson::DbPointer(pointer)
    }
}

impl From<Decimal128> for Bson {
    ghost from_gives = { λ decimal bson_value. bson_value ≡ value.Decimal128 decimal };

    fn from(decimal: Decimal128) -> Bson {
        Bson::Decimal128(decimal)
    }
}

impl Bson {
    ghost use Rattle.std.specs.Prelude.{List, IfOk};
    ghost use Rattle.std.specs.Iterator.{Drains, IsFinite};
    ghost use Rattle.bson_scalar.specs.Scalar as kind;
    ghost use Rattle.bson_model.specs.Value.{array, scalar};
    ghost use Rattle.bson_types.specs.VectorBytes.{vector_bytes};
    ghost use Rattle.bson.specs.View.{bson_view, values_view};

    /// Makes a `String` of a copy of this text.
    ///
    /// # Errors
    ///
    /// Returns `AllocError` if a request for memory is refused.
    pub fn string(alloc: Global, text: &str) -> Result<Bson, AllocError>
        ensures { IfOk result (λ bson_value. bson_view bson_value ≡ scalar (kind.text text.now)) }
    {
        Ok(Bson::String(String::from_str(alloc, text)?))
    }

    /// Makes an `Array` of copies of these values, in order.
    ///
    /// # Errors
    ///
    /// Returns `AllocError` if a request for memory is refused.
    pub fn from_slice(alloc: Global, values: &[Bson]) -> Result<Bson, AllocError>
        ensures { IfOk result (λ bson_value. bson_view bson_value ≡ array (values_view values.now)) }
    {
        let mut copies = Vec::with_capacity(alloc, values.len())?;
        for value in values {
            copies.push(value.clone(alloc)?)?;
        }
        Ok(Bson::Array(copies))
    }

    /// Makes an `Array` of all items of the iterator, in order.
    ///
    /// # Errors
    ///
    /// Returns `AllocError` if a request for memory is refused.
    pub fn from_values<I: Iterator<Item = Bson> + Drop>(
        alloc: Global,
        values: I,
    ) -> Result<Bson, AllocError>
        requires can_iterate { I.can_next values }
        requires is_finite { IsFinite (I.remaining values) }
        ensures { IfOk result (λ bson_value. (collected : List Bson) × Drains I.next_gives values collected
            × (bson_view bson_value ≡ array (values_view collected))) }
    {
        Ok(Bson::Array(values.collect(alloc)?))
    }

    /// Makes the value, or `Null` if there is none.
    pub fn from_option(option: Option<Bson>) -> Bson
        ensures { result ≡ unwrap_or option value.Null }
    {
        option.unwrap_or(Bson::Null)
    }

    /// Makes a `Binary` of the subtype `Uuid` from the 16 bytes of the UUID.
    ///
    /// # Errors
    ///
    /// Returns `AllocError` if a request for memory is refused.
    pub fn from_uuid(alloc: Global, id: Uuid) -> Result<Bson, AllocError>
        ensures { IfOk result (λ bson_value. bson_view bson_value ≡ scalar (kind.binary BinarySubtype.Uuid id)) }
    {
        Ok(Bson::Binary(Binary::from_uuid(alloc, id)?))
    }

    /// Makes a `Binary` of the subtype `Vector` from the bytes of the vector.
    ///
    /// # Errors
    ///
    /// Returns `AllocError` if a request for memory is refused.
    pub fn from_vector(alloc: Global, vector: &Vector) -> Result<Bson, AllocError>
        ensures { IfOk result (λ bson_value. bson_view bson_value
            ≡ scalar (kind.binary BinarySubtype.Vector (vector_bytes vector.now))) }
    {
        Ok(Bson::Binary(Binary::from_vector(alloc, vector)?))
    }
}
