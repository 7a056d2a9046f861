//! Runs of the calls on BSON bytes.
use crate::runs::RunStreams;
use bson::extjson::{Doubles, KeyOrder, Options};
use bson::{Bson, Document};
use bson_codec::de::DEPTH;
use bson_codec::documents::{Line, Run, run_documents};
use bson_codec::stream::{from_reader, to_writer};
use bson_codec::to_vec;
use bson_run::task::OnRefusal;
use std::alloc::{AllocError, Global};

/// Returns the result of `from_reader`: `done` and how many bytes the reader has left, or its error.
/// The document's bytes become the bytes of the writer.
pub(crate) fn read_document(
    alloc: Global,
    streams: &mut RunStreams<'_>,
) -> Result<String, AllocError> {
    match from_reader(alloc, &mut streams.reader, DEPTH) {
        Ok(document) => {
            match to_vec(alloc, &document) {
                Ok(bytes) => streams.writer.accepted_bytes = bytes,
                Err(error) => return format!(in alloc; "{error}"),
            }
            format!(in alloc; "done, {} left", streams.reader.unread_bytes.len())
        }
        Err(error) => format!(in alloc; "{error}"),
    }
}

/// Returns the result of `to_writer` for the document of the text: `done`, or its error.
pub(crate) fn write_document(
    alloc: Global,
    text: &[u8],
    streams: &mut RunStreams<'_>,
) -> Result<String, AllocError> {
    let Some(document) = document_of(alloc, text) else {
        return String::from_str(alloc, "no document");
    };
    match to_writer(alloc, &document, &mut streams.writer) {
        Ok(()) => String::from_str(alloc, "done"),
        Err(error) => format!(in alloc; "{error}"),
    }
}

fn document_of(alloc: Global, text: &[u8]) -> Option<Document> {
    match Bson::try_from_text(alloc, text) {
        Ok(Bson::Document(document)) => Some(document),
        _ => None,
    }
}

/// Returns the result of `run_documents`, with finite doubles: `DOCUMENTS REFUSED`, or the document
/// at which the run ended and the message of its fault.
pub(crate) fn run_dump(
    alloc: Global,
    line: Line,
    key_order: KeyOrder,
    on_refusal: OnRefusal,
    streams: &mut RunStreams<'_>,
) -> Result<String, AllocError> {
    let run = Run {
        options: Options {
            doubles: Doubles::Finite,
            key_order,
            ..Options::default()
        },
        line,
        keep_going: on_refusal == OnRefusal::KeepGoing,
        ..Run::default()
    };
    let (reader, writer, diagnostics_writer) = (
        &mut streams.reader,
        &mut streams.writer,
        &mut streams.diagnostics_writer,
    );
    match run_documents(alloc, run, reader, writer, diagnostics_writer) {
        Ok(counts) => format!(in alloc; "{} {}", counts.documents, counts.refused),
        Err(run_end) => {
            let fault_message = run_end.fault.message();
            format!(in alloc;
                "document {} at byte {}: {fault_message}",
                run_end.number, run_end.start
            )
        }
    }
}
