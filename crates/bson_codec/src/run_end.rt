//! Why a run over documents ends or skips a document, and its diagnostic.
ghost use Rattle.std.specs.Prelude.{◌≡◌, IfOk, string_bytes};
ghost use Rattle.bson_codec.specs.Diagnostics.{diagnostic_of, error_offset_of, fault_kind_message, full_message};
ghost use Rattle.bson_codec.specs.Diagnostics.{run_fault_code, run_fault_message};

use crate::diagnostic::{DiagnosticFormat, begin_with_number, write_message, write_number};
use bson_bytes::fault::FaultKind;
use json::Writer;
use std::alloc::{AllocError, Global};

/// Why a run over documents ended.
///
/// ```
/// let mut input: &[u8] = b"\x05\0\0\0\0\x01";
/// let (mut output, mut reported) = (Vec::new(alloc), Vec::new(alloc));
/// let run = Run::default();
/// if let Err(end) = run_documents(alloc, run, &mut input, &mut output, &mut reported) {
///     println!(rt; "{:?}", end.fault)?; // Malformed { kind: Short, offset: 0 }
/// }
/// ```
#[derive(Clone, Copy, PartialEq, Eq, Debug)]
pub enum RunFault {
    /// A document is not one of BSON 1.1, because of its first error.
    Malformed {
        /// What is wrong.
        kind: FaultKind,
        /// The offset of the error in the document.
        offset: usize,
    },
    /// A document has a finite double other than zero, and those are not accepted.
    FiniteDouble,
    /// The reader failed.
    CannotRead,
    /// A writer failed, or accepted no byte.
    CannotWrite,
    /// An allocation failed.
    OutOfMemory,
}

/// Why a run over documents ended, and where.
///
/// ```
/// let mut input: &[u8] = b"\x05\0\0\0\0\x05\0\0";
/// let (mut output, mut reported) = (Vec::new(alloc), Vec::new(alloc));
/// let run = Run::default();
/// if let Err(end) = run_documents(alloc, run, &mut input, &mut output, &mut reported) {
///     let line = end.to_line(alloc, DiagnosticFormat::Text)?;
///     rt.print(&line)?; // document 2 at byte 5: ends too early at its byte 0
/// }
/// ```
#[derive(Clone, Copy, PartialEq, Eq, Debug)]
pub struct RunEnd {
    /// Why.
    pub fault: RunFault,
    /// The number of the document, from 1.
    pub number: u64,
    /// The number of documents before it that were skipped.
    pub refused: u64,
    /// The offset of the document.
    pub start: u64,
}

impl RunEnd {
    /// Writes the document and its fault in the format, and a newline.
    ///
    /// # Errors
    ///
    /// Returns `AllocError` if a request for memory is refused.
    pub fn to_line(&self, alloc: Global, format: DiagnosticFormat) -> Result<String, AllocError>
        ensures { IfOk result
            (λ diagnostic. string_bytes diagnostic ≡ diagnostic_of format self.now.number self.now.start self.now.fault) }
    {
        diagnostic_line(alloc, format, self.number, self.start, self.fault)
    }
}

/// Returns the diagnostic of a document and its fault, and a newline.
pub(crate) fn diagnostic_line(
    alloc: Global,
    format: DiagnosticFormat,
    document_number: u64,
    document_offset: u64,
    fault: RunFault,
) -> Result<String, AllocError>
    ensures { IfOk result
        (λ diagnostic. string_bytes diagnostic ≡ diagnostic_of format document_number document_offset fault) }
{
    match format {
        DiagnosticFormat::Text => text_line(alloc, document_number, document_offset, fault),
        DiagnosticFormat::Json => json_object(alloc, document_number, document_offset, fault),
    }
}

// Returns the diagnostic as a message.
fn text_line(
    alloc: Global,
    document_number: u64,
    document_offset: u64,
    fault: RunFault,
) -> Result<String, AllocError>
    ensures { IfOk result
        (λ diagnostic. string_bytes diagnostic ≡ diagnostic_of DiagnosticFormat.Text document_number document_offset fault) }
{
    let message = fault.full_message(alloc)?;
    format!(in alloc; "document {document_number} at byte {document_offset}: {message}\n")
}

// Returns the diagnostic as a JSON object.
fn json_object(
    alloc: Global,
    document_number: u64,
    document_offset: u64,
    fault: RunFault,
) -> Result<String, AllocError>
    ensures { IfOk result
        (λ diagnostic. string_bytes diagnostic ≡ diagnostic_of DiagnosticFormat.Json document_number document_offset fault) }
{
    let message = fault.full_message(alloc)?;
    let mut writer = Writer::new(Vec::new(alloc));
    begin_with_number(&mut writer, "document", document_number)?;
    write_number(&mut writer, "start", Some(document_offset as usize))?;
    write_number(&mut writer, "offset", fault.offset())?;
    write_message(&mut writer, fault.code(), &message)?;
    let Ok(mut line) = String::from_utf8(writer.into_inner()) else {
        unreachable!();
    };
    line.push_str("\n")?;
    Ok(line)
}

impl RunFault {
    /// Returns what is wrong, in words for people.
    pub fn message(self) -> &'static str
        ensures { result.now ≡ run_fault_message self }
    {
        match self {
            RunFault::Malformed { kind, .. } => fault_message(kind),
            RunFault::FiniteDouble => "a finite double",
            RunFault::CannotRead => "cannot read",
            RunFault::CannotWrite => "cannot write",
            RunFault::OutOfMemory => "out of memory",
        }
    }

    /// Returns the code of the fault: one word that programs compare.
    pub fn code(self) -> &'static str
        ensures { result.now ≡ run_fault_code self }
    {
        match self {
            RunFault::Malformed { .. } => "malformed",
            RunFault::FiniteDouble => "finite_double",
            RunFault::CannotRead => "cannot_read",
            RunFault::CannotWrite => "cannot_write",
            RunFault::OutOfMemory => "out_of_memory",
        }
    }

    // Returns the offset of the error in the document.
    fn offset(self) -> Option<usize>
        ensures { result ≡ error_offset_of self }
    {
        match self {
            RunFault::Malformed { offset, .. } => Some(offset),
            RunFault::FiniteDouble
            | RunFault::CannotRead
            | RunFault::CannotWrite
            | RunFault::OutOfMemory => None,
        }
    }

    // Returns the message, and where in the document the error is.
    fn full_message(self, alloc: Global) -> Result<String, AllocError>
        ensures { IfOk result (λ message. string_bytes message ≡ full_message self) }
    {
        let message = self.message();
        match self.offset() {
            Some(offset) => format!(in alloc; "{message} at its byte {offset}"),
            None => String::from_str(alloc, message),
        }
    }
}

// Returns the message for a kind of error.
fn fault_message(kind: FaultKind) -> &'static str
    ensures { result.now ≡ fault_kind_message kind }
{
    match kind {
        FaultKind::Depth => "nested too deep",
        FaultKind::Short => "ends too early",
        FaultKind::Length => "invalid length",
        FaultKind::Tag => "unknown element type",
        FaultKind::End => "missing NUL after a string",
        FaultKind::Utf8 => "invalid UTF-8",
        FaultKind::Boolean => "a boolean is neither 0 nor 1",
        FaultKind::Trailing => "trailing bytes after the document",
        FaultKind::DuplicateKey => "duplicate key",
    }
}
