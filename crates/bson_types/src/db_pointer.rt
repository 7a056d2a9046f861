//! Pointers into a collection (BSON 1.1, type 0x0C, deprecated).
ghost use Rattle.std.specs.Prelude.{◌≡◌, IfOk, string_bytes};

use crate::oid::ObjectId;
use std::alloc::{AllocError, Global};

/// The name of a collection, and the id of a document in it.
///
/// ```
/// let id = ObjectId::parse_str(alloc, "53e37d08776f724e42000000")?;
/// let pointer = DbPointer::new(String::from_str(alloc, "orders")?, id);
/// println!(rt; "{} {}", pointer.namespace(), pointer.id())?; // orders 53e37d08776f724e42000000
/// ```
#[derive(Debug, Drop, PartialEq, Eq, Hash)]
pub struct DbPointer {
    namespace: String,
    id: ObjectId,
}

impl DbPointer {
    ghost use Rattle.bson_types.specs.DbPointer.{pointer_namespace, pointer_id};

    /// Makes the pointer to the document with this id in this collection.
    pub fn new(namespace: String, id: ObjectId) -> DbPointer
        ensures namespace { pointer_namespace result ≡ string_bytes namespace }
        ensures id { pointer_id result ≡ id }
    {
        DbPointer { namespace, id }
    }

    /// Returns the name of the collection.
    pub fn namespace(&self) -> &str
        ensures { result.now ≡ pointer_namespace self.now }
    {
        self.namespace.as_str()
    }

    /// Returns the id of the document.
    pub fn id(&self) -> ObjectId
        ensures { result ≡ pointer_id self.now }
    {
        self.id
    }

    /// Returns the name and the id, without a copy of the name.
    pub fn into_parts(self) -> (String, ObjectId)
        ensures namespace { string_bytes result.0 ≡ pointer_namespace self }
        ensures id { result.1 ≡ pointer_id self }
    {
        let DbPointer { namespace, id } = self;
        (namespace, id)
    }

    /// Returns a copy of the pointer, in memory of its own.
    ///
    /// # Errors
    ///
    /// Returns `AllocError` if a request for memory is refused.
    pub fn clone(&self, alloc: Global) -> Result<DbPointer, AllocError>
        ensures namespace { IfOk result (λ copy. pointer_namespace copy ≡ pointer_namespace self.now) }
        ensures id { IfOk result (λ copy. pointer_id copy ≡ pointer_id self.now) }
    {
        Ok(DbPointer {
            namespace: String::from_str(alloc, self.namespace.as_str())?,
            id: self.id,
        })
    }
}
