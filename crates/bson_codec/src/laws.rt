//! Laws of the definitions.
ghost use Rattle.std.specs.Prelude.{◌≡◌, ℕ, List, Option, Some, IsUtf8};
ghost use Rattle.std.specs.Io.KnownBytes.{Appends};
ghost use Rattle.bson_codec.specs.DumpRuns.{Dump, EndsAt, EndsInside, IsFaultOfDocument};
ghost use Rattle.bson_codec.specs.declared.documents.Run.{Run};
ghost use Rattle.bson_codec.specs.declared.run_end.RunFault.{RunFault};

/// Proves that the same bytes are one dump, with one output, one report and one pair of counts.
pub fn one_dump()
    ensures { (run : Run) (bytes first_output second_output first_diagnostics second_diagnostics : List ℕ)
        (first_count second_count first_refused second_refused : ℕ)
        → Dump run bytes first_output first_diagnostics first_count first_refused
        → Dump run bytes second_output second_diagnostics second_count second_refused
        → (first_output ≡ second_output) × (first_diagnostics ≡ second_diagnostics) × (first_count ≡ second_count)
        × (first_refused ≡ second_refused) }
{}

/// Proves that the output of a dump, and its report, are UTF-8.
pub fn dumps_are_utf8()
    ensures { (run : Run) (bytes output diagnostics : List ℕ) (document_count refused : ℕ)
        → Dump run bytes output diagnostics document_count refused → IsUtf8 output × IsUtf8 diagnostics }
{}

/// Proves that a run that ends inside the same bytes ends at one document, for one error. It has
/// one output and one report before that document, and the bytes are not a dump.
pub fn one_end()
    ensures same_end { (run : Run) (all_bytes first_output second_output first_diagnostics second_diagnostics : List ℕ)
        (first_number second_number first_refused second_refused first_offset second_offset : ℕ)
        (first_fault second_fault : RunFault)
        → EndsInside run all_bytes first_output first_diagnostics first_fault first_number first_refused first_offset
        → EndsInside run all_bytes second_output second_diagnostics second_fault second_number second_refused second_offset
        → (first_output ≡ second_output) × (first_diagnostics ≡ second_diagnostics) × (first_fault ≡ second_fault)
        × (first_number ≡ second_number) × (first_refused ≡ second_refused) × (first_offset ≡ second_offset) }
    ensures never_both { (run : Run)
        (all_bytes first_output second_output first_diagnostics second_diagnostics : List ℕ)
        (second_count second_refused document_number first_refused document_offset : ℕ)
        (fault : RunFault) → Dump run all_bytes second_output second_diagnostics second_count second_refused
        → EndsInside run all_bytes first_output first_diagnostics fault document_number first_refused document_offset
        → ⊥ }
{}

/// Proves that a run that ends for an error of its bytes ends inside them. Its output and its
/// report are those of the documents before the end.
pub fn ends_are_inside()
    ensures { (run : Run) (all_bytes : List ℕ)
        (input_after output_before output_after diagnostics_before diagnostics_after : Option (List ℕ))
        (fault : RunFault)
        (document_number refused document_offset : ℕ)
        → EndsAt run (Some all_bytes) input_after output_before output_after diagnostics_before diagnostics_after fault document_number refused document_offset
        → IsFaultOfDocument fault → (output : List ℕ) × (diagnostic_lines : List ℕ)
        × EndsInside run all_bytes output diagnostic_lines fault document_number refused document_offset
        × Appends output_before output_after output × Appends diagnostics_before diagnostics_after diagnostic_lines }
{}
