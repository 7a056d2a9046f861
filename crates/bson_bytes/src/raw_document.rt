//! Documents in their bytes.
ghost use Rattle.std.specs.Prelude.{◌≡◌, true};
ghost use Rattle.std.specs.Result.{is_ok};
ghost use Rattle.bson_bytes.specs.Reading.{read_first_document};

use crate::fault::Fault;
use crate::nothing_sink;
use crate::raw_element::document_bytes;

/// A document that remains its bytes, which were validated once. It borrows the bytes and copies
/// nothing.
#[derive(Clone, Copy)]
pub struct RawDocument<'a> {
    // These begin with the document. Others may follow.
    pub(crate) bytes: &'a [u8],
    // Documents, arrays and scopes nest at most so deep, counting the document itself.
    pub(crate) depth: usize,
    ghost is_read: { is_ok (read_first_document depth bytes.now) ≡ true },
}

/// An array that remains its bytes, which were validated with the document around it.
#[derive(Clone, Copy)]
pub struct RawArray<'a> {
    pub(crate) elements: RawDocument<'a>,
}

impl<'a> RawDocument<'a> {
    ghost use Rattle.std.specs.Prelude.{Ok, Err, IfOk, IfErr};
    ghost use Rattle.bson_bytes.specs.Reading.{reads_bytes};
    ghost use Rattle.bson_bytes.specs.RawContents.{raw_contents};

    /// Validates the bytes (BSON 1.1), all of which must be one document. Documents, arrays and scopes
    /// may nest at most `depth` deep, counting the document itself. It allocates nothing.
    ///
    /// # Errors
    ///
    /// The first fault of the bytes, and its offset.
    #[tactic(auto, using(crate::proofs::Finding::whole_from))]
    pub fn new(bytes: &'a [u8], depth: usize) -> Result<RawDocument<'a>, Fault>
        // The document has what the bytes are read as.
        ensures ok { IfOk result (λ raw_document. reads_bytes depth bytes.now ≡ Ok (raw_contents raw_document)) }
        // Which fault it is, and where.
        ensures fault { IfErr result (λ fault. reads_bytes depth bytes.now ≡ Err fault) }
    {
        match nothing_sink::is_document(bytes, depth) {
            Ok(()) => Ok(RawDocument { bytes, depth }),
            Err(fault) => Err(fault),
        }
    }

    /// Returns the bytes of the document alone.
    pub fn as_bytes(&self) -> &'a [u8]
        ensures { reads_bytes self.now.depth result.now ≡ Ok (raw_contents self.now) }
    {
        match document_bytes(self.bytes) {
            Some(bytes) => bytes,
            None => unreachable!(),
        }
    }
}
