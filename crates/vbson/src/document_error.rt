//! Why bytes are rejected as a document that has a text, and where.
ghost use Rattle.std.specs.Prelude.{◌≡◌, ◌⊎◌, ◌↔◌, ◌<◌, string_bytes, IfOk};
ghost use Rattle.bson.specs.View.{document_view};
ghost use Rattle.vbson.specs.DocumentError.{AreFieldsOfFinding, ExplainsDocument, HasDocumentText, IsFinding, IsFindingOfDocument};
ghost use Rattle.vbson.specs.DocumentError.{ReportsFinding, finding_code, finding_message, finding_offset, finding_reason, malformed_message};
ghost use Rattle.vbson.specs.Options.{AreInvalid};
ghost use Rattle.vbson.specs.declared.document_error.Finding.TheVariants.{Nothing};

use crate::explain::{BytePosition, Rejection, RejectionFields, rejection_with_fields};
use crate::options::{CallOptions, are_invalid, duplicate_keys_of, options_of};
use crate::path::path_bytes;
use crate::status;
use bson::extjson::{Form, Options, WriteError};
use bson::{Bson, Document};
use bson_bytes::error::Error as PathError;
use bson_codec::de::{DEPTH, Error, FaultKind, ReadOptions, from_bytes};
use bson_codec::run_end::RunFault;
use std::alloc::{AllocError, Global};

/// What is wrong with bytes, as a document that has a text.
#[derive(Clone, Copy)]
pub enum Finding {
    /// The bytes are a document that has a text.
    Nothing,
    /// The bytes are not a document.
    Malformed {
        /// What is wrong.
        kind: FaultKind,
        /// The offset of the fault in the bytes.
        offset: usize,
    },
    /// The document has a finite double, which the options do not accept.
    FiniteDouble,
}

/// Explains why bytes are not a document that has a text in the two forms, and where. The code is 0,
/// and the message is empty, if they are one. All options are accepted; the order of keys, `v1` and
/// the layout change nothing here.
#[unsafe(no_mangle)]
pub extern "C" fn vbson_explain_document_nonnull(
    alloc: Global,
    options: &CallOptions,
    bytes: &[u8],
    out: &mut Rejection<'static>,
) -> u32
    ensures success { result ≡ 0 → ExplainsDocument options.now bytes.now out.new }
    // The code is 0 if and only if the bytes are a document that has a text.
    ensures accepted { result ≡ 0 → out.new.code ≡ 0 → HasDocumentText options.now bytes.now }
    ensures accepts { HasDocumentText options.now bytes.now → result ≡ 0 → out.new.code ≡ 0 }

    // When each other status comes, and that nothing is left then.
    ensures invalid_argument { result ≡ 1 ↔ AreInvalid options.now }
    ensures possible_statuses { (result ≡ 0) ⊎ (result ≡ 1) ⊎ (result ≡ 5) }
    ensures unchanged { 0 < result → out.new ≡ out.old }
{
    if are_invalid(*options) {
        return status::INVALID_ARGUMENT;
    }
    match explain_bytes(alloc, *options, bytes) {
        Ok(rejection) => *out = rejection,
        // (a path without segments is not too long)
        Err(_) => return status::OUT_OF_MEMORY,
    }
    status::OK
}

// Explains the bytes, under the options.
fn explain_bytes(
    alloc: Global,
    options: CallOptions,
    bytes: &[u8],
) -> Result<Rejection<'static>, PathError>
    ensures error_report { IfOk result (λ rejection. ExplainsDocument options bytes.now rejection) }
    ensures accepts { HasDocumentText options bytes.now → IfOk result (λ rejection. rejection.code ≡ 0) }
{
    let finding = find_error(alloc, options, bytes)?;
    rejection_of(alloc, finding)
}

// Finds what is wrong with the bytes, under the options.
fn find_error(alloc: Global, options: CallOptions, bytes: &[u8]) -> Result<Finding, AllocError>
    ensures is_finding { IfOk result (λ finding. IsFinding options bytes.now finding) }
    ensures accepts { HasDocumentText options bytes.now → IfOk result (λ finding. finding ≡ Nothing) }
{
    let read_options = ReadOptions {
        depth: DEPTH,
        duplicate_keys: duplicate_keys_of(options),
    };
    match from_bytes(alloc, read_options, bytes) {
        Ok(document) => find_finite_double(alloc, options_of(options), document),
        Err(Error::Malformed { kind, offset }) => Ok(Finding::Malformed { kind, offset }),
        Err(Error::OutOfMemory) => Err(AllocError),
    }
}

// Finds whether the document has a text.
fn find_finite_double(
    alloc: Global,
    options: Options,
    document: Document,
) -> Result<Finding, AllocError>
    ensures is_finding { IfOk result (λ finding. IsFindingOfDocument options (document_view document) finding) }
{
    match Bson::Document(document).into_text(alloc, options, Form::Canonical) {
        Ok(_) => Ok(Finding::Nothing),
        Err(WriteError::FiniteDouble) => Ok(Finding::FiniteDouble),
        Err(WriteError::OutOfMemory) => Err(AllocError),
    }
}

// Returns the error struct for the finding.
fn rejection_of(alloc: Global, finding: Finding) -> Result<Rejection<'static>, PathError>
    ensures error_report { IfOk result (λ rejection. ReportsFinding finding rejection) }
{
    let message = message_of(alloc, finding)?;
    let fields = rejection_fields_of(alloc, finding)?;
    Ok(rejection_with_fields(fields, message)?)
}

// Returns the fields of the error struct for the finding.
fn rejection_fields_of(alloc: Global, finding: Finding) -> Result<RejectionFields, PathError>
    ensures error_report { IfOk result (λ fields. AreFieldsOfFinding finding fields) }
{
    let path = path_bytes(alloc, &[])?;
    let reason = String::from_str(alloc, reason_of(finding))?;
    Ok(RejectionFields {
        code: code_of(finding),
        position: BytePosition {
            line: 0,
            column: 0,
            offset: offset_of(finding),
        },
        path,
        reason,
    })
}

// Returns the status of the finding.
fn code_of(finding: Finding) -> u32
    ensures { result ≡ finding_code finding }
{
    match finding {
        Finding::Nothing => status::OK,
        Finding::Malformed { .. } => status::NOT_A_DOCUMENT,
        Finding::FiniteDouble => status::NOT_REPRESENTABLE,
    }
}

// Returns the offset of the fault, or 0.
fn offset_of(finding: Finding) -> usize
    ensures { result ≡ finding_offset finding }
{
    match finding {
        Finding::Malformed { offset, .. } => offset,
        Finding::Nothing | Finding::FiniteDouble => 0,
    }
}

// Returns what is wrong, as a message for people.
fn reason_of(finding: Finding) -> &'static str
    ensures { result.now ≡ finding_reason finding }
{
    match finding {
        Finding::Nothing => "",
        Finding::Malformed { kind, offset } => RunFault::Malformed { kind, offset }.message(),
        Finding::FiniteDouble => RunFault::FiniteDouble.message(),
    }
}

// Returns the message of the finding.
fn message_of(alloc: Global, finding: Finding) -> Result<String, AllocError>
    ensures { IfOk result (λ message. string_bytes message ≡ finding_message finding) }
{
    let description = reason_of(finding);
    match finding {
        Finding::Nothing => Ok(String::new(alloc)),
        Finding::Malformed { offset, .. } => malformed_message(alloc, offset, description),
        Finding::FiniteDouble => format!(in alloc; "not representable ({description})"),
    }
}

// Returns the message for a fault at the offset.
fn malformed_message(alloc: Global, offset: usize, description: &str) -> Result<String, AllocError>
    ensures { IfOk result (λ message. string_bytes message ≡ malformed_message offset description.now) }
{
    format!(in alloc; "not a document at byte {offset} ({description})")
}
