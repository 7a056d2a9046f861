//! The types that represent one kind of value each.
ghost use Rattle.std.specs.Prelude.{◌≡◌, Option, option_copied, option_map};
ghost use Rattle.std.specs.Borrow.{LendsIf, sem};
ghost use Rattle.bson.specs.declared.bson.Bson.{Bson};
ghost use Rattle.bson.specs.declared.bson.Bson.TheVariants as value;
ghost use Rattle.bson.specs.Kinds.{generic_binary, generic_bytes};
ghost use Rattle.bson.specs.LoanTypes.{binary_rust_type, bson_rust_type, bytes_rust_type};

use crate::bson::{Array, Bson};
use crate::document::Document;
use bson_types::binary::Binary;
use bson_types::datetime::DateTime;
use bson_types::decimal128::Decimal128;
use bson_types::oid::ObjectId;
use bson_types::spec::BinarySubtype;
use bson_types::timestamp::Timestamp;

/// A type whose values are what one kind of `Bson` holds.
pub(crate) trait Kind {
    // What a value of the kind holds.
    ghost content_of: { Bson → Option Self };

    // The value of the kind that holds it.
    ghost value_of: { Self → Bson };

    /// What the value holds, if it is of the kind.
    fn get_from(value: &Bson) -> Option<&Self>
        ensures { option_copied result ≡ content_of value.now };

    /// The same, to write.
    fn get_mut_from(value: &mut Bson) -> Option<&mut Self>
        ensures* writes_back { sem 𝓛 (LendsIf bson_rust_type Self.row value.entry result value_of value.old) }
        ensures value { option_map (λ reference. reference.now) result ≡ content_of value.old };
}

impl Kind for u64 {
    ghost use Rattle.bson.specs.Kinds.{double_of};

    ghost content_of = { double_of };

    ghost value_of = { value.Double };

    fn get_from(value: &Bson) -> Option<&u64> {
        match value {
            Bson::Double(pattern) => Some(pattern),
            _ => None,
        }
    }

    fn get_mut_from(value: &mut Bson) -> Option<&mut u64> {
        match value {
            Bson::Double(pattern) => Some(pattern),
            _ => None,
        }
    }
}

impl Kind for String {
    ghost use Rattle.bson.specs.Kinds.{string_of};

    ghost content_of = { string_of };

    ghost value_of = { value.String };

    fn get_from(value: &Bson) -> Option<&String> {
        match value {
            Bson::String(text) => Some(text),
            _ => None,
        }
    }

    fn get_mut_from(value: &mut Bson) -> Option<&mut String> {
        match value {
            Bson::String(text) => Some(text),
            _ => None,
        }
    }
}

impl Kind for Array {
    ghost use Rattle.bson.specs.Kinds.{array_of};

    ghost content_of = { array_of };

    ghost value_of = { value.Array };

    fn get_from(value: &Bson) -> Option<&Array> {
        match value {
            Bson::Array(values) => Some(values),
            _ => None,
        }
    }

    fn get_mut_from(value: &mut Bson) -> Option<&mut Array> {
        match value {
            Bson::Array(values) => Some(values),
            _ => None,
        }
    }
}

impl Kind for Document {
    ghost use Rattle.bson.specs.Kinds.{document_of};

    ghost content_of = { document_of };

    ghost value_of = { value.Document };

    fn get_from(value: &Bson) -> Option<&Document> {
        match value {
            Bson::Document(document) => Some(document),
            _ => None,
        }
    }

    fn get_mut_from(value: &mut Bson) -> Option<&mut Document> {
        match value {
            Bson::Document(document) => Some(document),
            _ => None,
        }
    }
}

impl Kind for bool {
    ghost use Rattle.bson.specs.Kinds.{boolean_of};

    ghost content_of = { boolean_of };

    ghost value_of = { value.Boolean };

    fn get_from(value: &Bson) -> Option<&bool> {
        match value {
            Bson::Boolean(truth) => Some(truth),
            _ => None,
        }
    }

    fn get_mut_from(value: &mut Bson) -> Option<&mut bool> {
        match value {
            Bson::Boolean(truth) => Some(truth),
            _ => None,
        }
    }
}

impl Kind for i32 {
    ghost use Rattle.bson.specs.Kinds.{int32_of};

    ghost content_of = { int32_of };

    ghost value_of = { value.Int32 };

    fn get_from(value: &Bson) -> Option<&i32> {
        match value {
            Bson::Int32(number) => Some(number),
            _ => None,
        }
    }

    fn get_mut_from(value: &mut Bson) -> Option<&mut i32> {
        match value {
            Bson::Int32(number) => Some(number),
            _ => None,
        }
    }
}

impl Kind for i64 {
    ghost use Rattle.bson.specs.Kinds.{int64_of};

    ghost content_of = { int64_of };

    ghost value_of = { value.Int64 };

    fn get_from(value: &Bson) -> Option<&i64> {
        match value {
            Bson::Int64(number) => Some(number),
            _ => None,
        }
    }

    fn get_mut_from(value: &mut Bson) -> Option<&mut i64> {
        match value {
            Bson::Int64(number) => Some(number),
            _ => None,
        }
    }
}

impl Kind for Timestamp {
    ghost use Rattle.bson.specs.Kinds.{timestamp_of};

    ghost content_of = { timestamp_of };

    ghost value_of = { value.Timestamp };

    fn get_from(value: &Bson) -> Option<&Timestamp> {
        match value {
            Bson::Timestamp(timestamp) => Some(timestamp),
            _ => None,
        }
    }

    fn get_mut_from(value: &mut Bson) -> Option<&mut Timestamp> {
        match value {
            Bson::Timestamp(timestamp) => Some(timestamp),
            _ => None,
        }
    }
}

// A binary of another subtype is of another kind here.
impl Kind for Vec<u8> {
    ghost use Rattle.bson.specs.Kinds.{generic_binary_value, generic_binary_bytes_of};

    ghost content_of = { generic_binary_bytes_of };

    ghost value_of = { generic_binary_value };

    fn get_from(value: &Bson) -> Option<&Vec<u8>> {
        match value {
            Bson::Binary(
                Binary {
                    subtype: BinarySubtype::Generic,
                    bytes,
                },
            ) => Some(bytes),
            _ => None,
        }
    }

    fn get_mut_from(value: &mut Bson) -> Option<&mut Vec<u8>> {
        match value {
            Bson::Binary(binary) => generic_bytes_mut(binary),
            _ => None,
        }
    }
}

// The bytes of a binary of the subtype Generic, to write.
fn generic_bytes_mut(binary: &mut Binary) -> Option<&mut Vec<u8>>
    ensures* writes_back { sem 𝓛
        (LendsIf binary_rust_type bytes_rust_type binary.entry result generic_binary binary.old) }
    ensures value { option_map (λ reference. reference.now) result ≡ generic_bytes binary.old.subtype binary.old.bytes }
{
    match binary.subtype {
        BinarySubtype::Generic => Some(&mut binary.bytes),
        _ => None,
    }
}

impl Kind for ObjectId {
    ghost use Rattle.bson.specs.Kinds.{object_id_of};

    ghost content_of = { object_id_of };

    ghost value_of = { value.ObjectId };

    fn get_from(value: &Bson) -> Option<&ObjectId> {
        match value {
            Bson::ObjectId(id) => Some(id),
            _ => None,
        }
    }

    fn get_mut_from(value: &mut Bson) -> Option<&mut ObjectId> {
        match value {
            Bson::ObjectId(id) => Some(id),
            _ => None,
        }
    }
}

impl Kind for DateTime {
    ghost use Rattle.bson.specs.Kinds.{date_of};

    ghost content_of = { date_of };

    ghost value_of = { value.DateTime };

    fn get_from(value: &Bson) -> Option<&DateTime> {
        match value {
            Bson::DateTime(date) => Some(date),
            _ => None,
        }
    }

    fn get_mut_from(value: &mut Bson) -> Option<&mut DateTime> {
        match value {
            Bson::DateTime(date) => Some(date),
            _ => None,
        }
    }
}

impl Kind for Decimal128 {
    ghost use Rattle.bson.specs.Kinds.{decimal_of};

    ghost content_of = { decimal_of };

    ghost value_of = { value.Decimal128 };

    fn get_from(value: &Bson) -> Option<&Decimal128> {
        match value {
            Bson::Decimal128(decimal) => Some(decimal),
            _ => None,
        }
    }

    fn get_mut_from(value: &mut Bson) -> Option<&mut Decimal128> {
        match value {
            Bson::Decimal128(decimal) => Some(decimal),
            _ => None,
        }
    }
}
