//! The element type of a value.
ghost use Rattle.std.specs.Prelude.{◌≡◌};
ghost use Rattle.bson.specs.ElementType.{element_type_of};

use crate::bson::Bson;
use crate::scalar::scalar_ref;
use bson_scalar::scalar_ref::Element;
use bson_types::spec::ElementType;

impl Bson {
    /// Returns the element type that stores the value (BSON 1.1): that of its kind's own name, and
    /// `EmbeddedDocument` for a `Document`.
    pub fn element_type(&self) -> ElementType
        ensures { result ≡ element_type_of self.now }
    {
        match self {
            Bson::Array(_) => ElementType::Array,
            Bson::Document(_) => ElementType::EmbeddedDocument,
            Bson::JavaScriptCodeWithScope(_) => ElementType::JavaScriptCodeWithScope,
            // (with names: the toolchain has to see each type that a scalar borrows)
            Bson::RegularExpression(_regex) => ElementType::RegularExpression,
            Bson::Binary(_binary) => ElementType::Binary,
            Bson::DbPointer(_pointer) => ElementType::DbPointer,
            value => scalar_ref(value).element_type(),
        }
    }
}
