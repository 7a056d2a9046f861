//! Laws of the definitions.
ghost use Rattle.std.specs.Prelude.{◌≡◌, ◌↔◌, ◌++◌, ◌<◌, ◌≤◌, ℕ, suc, List, length, Ok, Err, slice_index};
ghost use Rattle.bson_bytes.specs.declared.fault.Fault.{Fault};
ghost use Rattle.bson_bytes.specs.Grammar.{IsDocument};
ghost use Rattle.bson_bytes.specs.ReadDocuments.{IsReadAsDocument, IsReadAsDocumentIn};
ghost use Rattle.bson_bytes.specs.Reading.{reads_bytes_in};
ghost use Rattle.bson_model.specs.declared.options.DuplicateKeys.{DuplicateKeys};
ghost use Rattle.bson_bytes.specs.Writing.{document_bytes, pairs_read_back, NoBytesCause, FitsDocument, DocumentDoesNotFit};
ghost use Rattle.bson_bytes.specs.Writing.{IsWellTypedDocument, PairsNestUpTo};
ghost use Rattle.bson_model.specs.Value.{Pairs};

/// Proves that bytes are those of a document if and only if reading them returns it. So what is no
/// document is read as a fault.
pub fn reading_is_grammar()
    ensures { (keys : DuplicateKeys) (depth : ℕ) (bytes : List ℕ) (pairs : Pairs)
        → ((index : ℕ) → slice_index bytes index < 256)
        → (reads_bytes_in keys depth bytes ≡ Ok pairs) ↔ IsReadAsDocumentIn keys depth bytes pairs }
{}

/// Proves that bytes that are read without duplicate keys are read as the same document if
/// duplicate keys are allowed.
pub fn refusing_keys_changes_no_document()
    ensures { (keys : DuplicateKeys) (depth : ℕ) (bytes : List ℕ) (pairs : Pairs)
        → IsReadAsDocumentIn keys depth bytes pairs
        → IsReadAsDocument depth bytes pairs }
{}

/// Proves that the position of a fault is one of the bytes, or their end.
pub fn fault_is_in_the_bytes()
    ensures { (keys : DuplicateKeys) (depth : ℕ) (bytes : List ℕ) (fault : Fault)
        → reads_bytes_in keys depth bytes ≡ Err fault
        → fault.bytes_to_end ≤ length bytes }
{}

/// Proves that no document's bytes begin another's, and that no bytes are those of two.
pub fn one_document()
    ensures { (keys : DuplicateKeys) (depth : ℕ) (first_bytes second_bytes first_rest second_rest : List ℕ)
        (pairs other_pairs : Pairs) → IsDocument keys depth first_bytes pairs
        → IsDocument keys depth second_bytes other_pairs → first_bytes ++ first_rest ≡ second_bytes ++ second_rest
        → (first_bytes ≡ second_bytes) × (pairs ≡ other_pairs) }
{}

/// Proves that the bytes of a document are read back as that document: the same keys in the same
/// order, the same numbers, patterns and options, and each binary under the subtype that its byte
/// names.
pub fn written_is_read()
    ensures { (depth : ℕ) (pairs : Pairs) → FitsDocument pairs → IsWellTypedDocument pairs → PairsNestUpTo pairs depth
        → IsReadAsDocument (suc depth) (document_bytes pairs) (pairs_read_back pairs) }
{}

/// Proves that documents that are written as the same bytes are read back as the same.
pub fn written_is_one()
    ensures { (depth : ℕ) (pairs other_pairs : Pairs) → FitsDocument pairs → FitsDocument other_pairs
        → IsWellTypedDocument pairs → IsWellTypedDocument other_pairs
        → PairsNestUpTo pairs depth → PairsNestUpTo other_pairs depth
        → document_bytes pairs ≡ document_bytes other_pairs → pairs_read_back pairs ≡ pairs_read_back other_pairs }
{}

/// Proves that a document whose parts all fit does not fail for a cause.
pub fn what_fits_has_no_cause()
    ensures { (pairs : Pairs) (cause : NoBytesCause) → FitsDocument pairs → DocumentDoesNotFit cause pairs → ⊥ }
{}

/// Proves that a document fails for one cause at most: that of the first of its parts that has no
/// bytes.
pub fn first_cause_is_one()
    ensures { (pairs : Pairs) (cause other_cause : NoBytesCause) → DocumentDoesNotFit cause pairs
        → DocumentDoesNotFit other_cause pairs → cause ≡ other_cause }
{}
