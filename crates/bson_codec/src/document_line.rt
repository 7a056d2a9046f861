//! The line of a document of a dump.
ghost use Rattle.std.specs.Prelude.{◌≡◌, ◌++◌, IfOk, IfErr, OnOk, IsUtf8};
ghost use Rattle.bson_model.specs.Displayed.{display_text};
ghost use Rattle.bson_model.specs.Value as model;
ghost use Rattle.bson_model.specs.Value.{Pairs};
ghost use Rattle.bson_model.specs.declared.options.DuplicateKeys.TheVariants.{LastWins};
ghost use Rattle.bson_bytes.specs.ReadDocuments.{IsReadAsDocumentIn};
ghost use Rattle.bson_bytes.specs.Reading.{reads_bytes};
ghost use Rattle.bson_bytes.specs.Source.{ReadsAllTo};
ghost use Rattle.bson.specs.View.{document_view};
ghost use Rattle.bson_codec.specs.DumpRuns.{IsConversionFault, IsLineFault, IsLineOfDocument, WritesLine, run_fault};
ghost use Rattle.bson_codec.specs.Diagnostics.{line_feed};
ghost use Rattle.bson_codec.specs.declared.documents.Line.TheVariants.{Text};
ghost use Rattle.bson_codec.specs.declared.run_end.RunFault.TheVariants.{OutOfMemory};

use crate::de::{DuplicateKeys, Error, ReadOptions, add_offset, from_bytes, is_document};
use crate::documents::{Line, Run};
use crate::run_end::RunFault;
use crate::text::{ordered_text, shown_text, sorted_text};
use bson::extjson::{Form, KeyOrder, WriteError};
use bson::{Bson, Document};
use bson_bytes::stop::Stop;
use std::alloc::Global;

/// Returns the line of the document that the bytes are. It needs no document in memory, unless duplicate keys
/// are rejected or a writer gives up.
pub(crate) fn line_of(alloc: Global, run: Run, bytes: &[u8]) -> Result<Vec<u8>, RunFault>
    ensures ok { IfOk result (λ line. IsLineOfDocument run bytes.now line.items) }
    ensures fault { IfErr result (λ run_end_fault. IsConversionFault run_end_fault run bytes.now) }
{
    match (run.line, run.duplicate_keys) {
        (Line::Nothing, _) => match check_document(alloc, run, bytes) {
            Ok(()) => Ok(Vec::new(alloc)),
            Err(fault) => Err(fault),
        },
        (_, DuplicateKeys::LastWins) => written_line(alloc, run, bytes),
        (_, DuplicateKeys::Reject) => value_line(alloc, run, read_document(alloc, run, bytes)?),
    }
}

// Writes the line while the bytes are read, or by a document in memory if the writer stops.
fn written_line(alloc: Global, run: Run, bytes: &[u8]) -> Result<Vec<u8>, RunFault>
    requires { run.duplicate_keys ≡ LastWins }
    ensures ok { IfOk result (λ line. IsLineOfDocument run bytes.now line.items) }
    ensures fault { IfErr result (λ run_end_fault. IsConversionFault run_end_fault run bytes.now) }
{
    match document_text(alloc, run, bytes) {
        Ok(text) => end_line(text),
        Err(Stop::Fault(fault)) => Err(to_run_fault(add_offset(Stop::Fault(fault), bytes))),
        Err(_) => value_line(alloc, run, read_document(alloc, run, bytes)?),
    }
}

// Returns the line without its newline, unless duplicate keys are rejected.
fn document_text(alloc: Global, run: Run, bytes: &[u8]) -> Result<Vec<u8>, Stop>
    ensures { ReadsAllTo (λ stop. Unit {0})
        (λ pairs text. WritesLine run.options run.line pairs (text.items ++ line_feed) × IsUtf8 text.items) result
        (reads_bytes run.depth bytes.now) }
{
    let doubles = run.options.doubles;
    match (run.line, run.options.key_order) {
        (Line::Text(form), KeyOrder::Ascending) => {
            let form = run.options.layout.form(form);
            sorted_text(alloc, doubles, form, bytes, run.depth)
        }
        (Line::Text(form), KeyOrder::AsGiven) => {
            let form = run.options.layout.form(form);
            ordered_text(alloc, doubles, form, bytes, run.depth)
        }
        (Line::Shown, _) => shown_text(alloc, bytes, run.depth),
        (Line::Nothing, _) => Err(Stop::GaveUp),
    }
}

// Reads the document.
fn read_document(alloc: Global, run: Run, bytes: &[u8]) -> Result<Document, RunFault>
    ensures ok { IfOk result
        (λ document. IsReadAsDocumentIn run.duplicate_keys run.depth bytes.now (document_view document)) }
    ensures fault { IfErr result (λ run_end_fault. IsConversionFault run_end_fault run bytes.now) }
{
    let options = ReadOptions {
        depth: run.depth,
        duplicate_keys: run.duplicate_keys,
    };
    match from_bytes(alloc, options, bytes) {
        Ok(document) => Ok(document),
        Err(error) => Err(to_run_fault(error)),
    }
}

// Checks whether the bytes are a document. It allocates nothing, unless duplicate keys are rejected.
fn check_document(alloc: Global, run: Run, bytes: &[u8]) -> Result<(), RunFault>
    ensures ok { OnOk result
        ((pairs : Pairs) × IsReadAsDocumentIn run.duplicate_keys run.depth bytes.now pairs) }
    ensures fault { IfErr result (λ run_end_fault. IsConversionFault run_end_fault run bytes.now) }
{
    match run.duplicate_keys {
        DuplicateKeys::LastWins => match is_document(bytes, run.depth) {
            Ok(()) => Ok(()),
            Err(error) => Err(to_run_fault(error)),
        },
        DuplicateKeys::Reject => {
            drop(read_document(alloc, run, bytes)?);
            Ok(())
        }
    }
}

// Why the bytes are not a document.
fn to_run_fault(error: Error) -> RunFault
    ensures { result ≡ run_fault error }
{
    match error {
        Error::Malformed { kind, offset } => RunFault::Malformed { kind, offset },
        Error::OutOfMemory => RunFault::OutOfMemory,
    }
}

// Returns the line of the document.
fn value_line(alloc: Global, run: Run, document: Document) -> Result<Vec<u8>, RunFault>
    ensures ok { IfOk result
        (λ line. WritesLine run.options run.line (document_view document) line.items × IsUtf8 line.items) }
    ensures fault { IfErr result (λ run_end_fault. IsLineFault run_end_fault run.options run.line (document_view document)) }
{
    match run.line {
        Line::Text(form) => text_line(alloc, run, form, document),
        Line::Shown => shown_line(alloc, document),
        Line::Nothing => Ok(Vec::new(alloc)),
    }
}

// Returns the line of the document in the form.
fn text_line(alloc: Global, run: Run, form: Form, document: Document) -> Result<Vec<u8>, RunFault>
    ensures ok { IfOk result
        (λ line. WritesLine run.options (Text form) (document_view document) line.items × IsUtf8 line.items) }
    ensures fault { IfErr result (λ run_end_fault. IsLineFault run_end_fault run.options (Text form) (document_view document)) }
{
    match Bson::Document(document).into_text(alloc, run.options, form) {
        Ok(text) => end_line(text.into_bytes()),
        Err(WriteError::FiniteDouble) => Err(RunFault::FiniteDouble),
        Err(WriteError::OutOfMemory) => Err(RunFault::OutOfMemory),
    }
}

// Returns the line with the output of `Display`.
fn shown_line(alloc: Global, document: Document) -> Result<Vec<u8>, RunFault>
    ensures ok { IfOk result (λ line. (line.items ≡ display_text (model.document (document_view document)) ++ line_feed)
        × IsUtf8 line.items) }
    ensures fault { IfErr result (λ run_end_fault. run_end_fault ≡ OutOfMemory) }
{
    match format!(in alloc; "{document}\n") {
        Ok(line) => Ok(line.into_bytes()),
        Err(_) => Err(RunFault::OutOfMemory),
    }
}

// Appends a newline.
fn end_line(text: Vec<u8>) -> Result<Vec<u8>, RunFault>
    requires { IsUtf8 text.items }
    ensures ok { IfOk result (λ line. (line.items ≡ text.items ++ line_feed) × IsUtf8 line.items) }
    ensures fault { IfErr result (λ run_end_fault. run_end_fault ≡ OutOfMemory) }
{
    let mut line = text;
    match line.push(b'\n') {
        Ok(()) => Ok(line),
        Err(_) => Err(RunFault::OutOfMemory),
    }
}
