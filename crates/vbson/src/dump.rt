//! A block of concatenated documents, as a dump has them.
ghost use Rattle.std.specs.Prelude.{◌≡◌, ◌⊎◌, ◌↔◌, ◌<◌, List, ℕ, IfSome};
ghost use Rattle.bson_codec.specs.declared.documents.Run.{Run};
ghost use Rattle.vbson.specs.Dumps.{DocumentsAreDecoded, AddsLastDiagnostic, IsOutputOfDocuments, dump_line_format, dump_run_of_mode};
ghost use Rattle.vbson.specs.Options.{AreNotForDecoding};
ghost use Rattle.vbson.specs.Text.{IsOwnedText};

use crate::convert::mode_of;
use crate::options::{CallOptions, are_not_for_decoding, duplicate_keys_of, options_of};
use crate::status;
use crate::text::{Text, append_nul, text_before_nul};
use bson::extjson::{Form, Options};
use bson_codec::de::{DEPTH, DuplicateKeys};
use bson_codec::diagnostic::DiagnosticFormat;
use bson_codec::documents::{Line, Run, run_documents};
use bson_codec::run_end::{RunEnd, RunFault};
use bson_convert::mode::Mode;
use std::alloc::Global;

/// The result for a block of documents: the output of each, the diagnostics of the rejected ones,
/// the number of documents, and the number of bytes before the document that the block cuts off, or
/// of all bytes.
#[repr(C)]
#[derive(Drop)]
pub struct Documents<'a> {
    pub text: Text<'a>,
    pub diagnostics: Text<'a>,
    pub documents: u64,
    pub consumed: u64,
}

/// Decodes the concatenated documents of the block. Writes the text of each in a mode, in their
/// order, each on one line, and a diagnostic for each rejected document, with its number and offset.
/// A document with fewer bytes than its length is the last one. The options are those of
/// `vbson_decode_nonnull`. The caller frees the blocks of both texts with `free`.
#[unsafe(no_mangle)]
pub extern "C" fn vbson_decode_documents_nonnull(
    alloc: Global,
    mode: u32,
    options: &CallOptions,
    block: &[u8],
    out: &mut Documents<'static>,
) -> u32
    ensures success { result ≡ 0 → DocumentsAreDecoded options.now mode block.now out.new }

    // When each other status comes, and that nothing is left then.
    ensures invalid_argument { result ≡ 1 ↔ (2 < mode) ⊎ AreNotForDecoding options.now }
    ensures possible_statuses { (result ≡ 0) ⊎ (result ≡ 1) ⊎ (result ≡ 5) }
    ensures unchanged { 0 < result → out.new ≡ out.old }
{
    if are_not_for_decoding(*options) {
        return status::INVALID_ARGUMENT;
    }
    let Some(mode) = mode_of(mode) else {
        return status::INVALID_ARGUMENT;
    };
    let run = dump_run_of_mode(duplicate_keys_of(*options), options_of(*options), mode);
    let Some(documents) = decode_block(alloc, run, block) else {
        return status::OUT_OF_MEMORY;
    };
    *out = documents;
    status::OK
}

// Returns the options of the run over the documents.
fn dump_run_of_mode(keys: DuplicateKeys, options: Options, mode: Mode) -> Run
    ensures { result ≡ dump_run_of_mode keys options mode }
{
    Run {
        depth: DEPTH,
        duplicate_keys: keys,
        options,
        line: line_kind_of_mode(mode),
        keep_going: true,
        diagnostics: DiagnosticFormat::Text,
    }
}

// Returns the kind of line that is written for each document.
fn line_kind_of_mode(mode: Mode) -> Line
    ensures { result ≡ dump_line_format mode }
{
    match mode {
        Mode::Canonical => Line::Text(Form::Canonical),
        Mode::Relaxed => Line::Text(Form::Relaxed),
        Mode::Show => Line::Shown,
    }
}

// Decodes the documents of the block. Returns `None` if memory runs out.
fn decode_block(alloc: Global, run: Run, block: &[u8]) -> Option<Documents<'static>>
    ensures { IfSome result (λ output. (text : List ℕ) × (diagnostics : List ℕ)
        × IsOutputOfDocuments run block.now text diagnostics output.documents output.consumed
        × IsOwnedText text output.text × IsOwnedText diagnostics output.diagnostics) }
{
    let mut reader = block;
    let (mut text, mut diagnostics) = (Vec::new(alloc), Vec::new(alloc));
    match run_documents(alloc, run, &mut reader, &mut text, &mut diagnostics) {
        Ok(counts) => documents_of(text, diagnostics, counts.documents, block.len() as u64),
        Err(run_end) => documents_of(
            text,
            add_last_diagnostic(alloc, run_end, diagnostics)?,
            run_end.number,
            run_end.start,
        ),
    }
}

// Returns the result with these texts and counts, or `None` if memory runs out.
fn documents_of(
    text: Vec<u8>,
    diagnostics: Vec<u8>,
    documents: u64,
    consumed: u64,
) -> Option<Documents<'static>>
    ensures { IfSome result (λ output. IsOwnedText text.items output.text
        × IsOwnedText diagnostics.items output.diagnostics × (output.documents ≡ documents)
        × (output.consumed ≡ consumed)) }
{
    // (a text that is made is not freed here, so all memory is requested before)
    let (Ok(text), Ok(diagnostics)) = (append_nul(text), append_nul(diagnostics)) else {
        return None;
    };
    Some(Documents {
        text: text_before_nul(text),
        diagnostics: text_before_nul(diagnostics),
        documents,
        consumed,
    })
}

// Appends the diagnostic of the document at which the run ended. Returns `None` if memory, a reader
// or a writer failed.
fn add_last_diagnostic(alloc: Global, run_end: RunEnd, mut diagnostics: Vec<u8>) -> Option<Vec<u8>>
    ensures { IfSome result (λ all_diagnostics. AddsLastDiagnostic run_end diagnostics.items all_diagnostics.items) }
{
    match run_end.fault {
        RunFault::Malformed { .. } | RunFault::FiniteDouble => {
            let Ok(last_diagnostic) = run_end.to_line(alloc, DiagnosticFormat::Text) else {
                return None;
            };
            let Ok(()) = diagnostics.extend_from_slice(last_diagnostic.as_bytes()) else {
                return None;
            };
            Some(diagnostics)
        }
        RunFault::CannotRead | RunFault::CannotWrite | RunFault::OutOfMemory => None,
    }
}
