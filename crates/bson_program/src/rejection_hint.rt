//! The hint that follows the error of an input: what it contains instead, and what reads that.
ghost use Rattle.std.specs.Prelude.{◌≡◌, IfOk, IfSome, string_bytes};
ghost use Rattle.bson_program.specs.HintTexts.{IsHelpFor, advice_text, hint_line, is_rejected, is_strict, option_if, reading_mode, reading_command};
ghost use Rattle.bson_program.specs.HintTexts.{sorts_keys, preprocessing_options, hint_text};

use crate::advice::Advice;
use crate::hints::{Hint, RejectedInput, hint_for};
use crate::invocation::{Input, Invocation, Purpose, STDIO};
use crate::messages::show_name;
use crate::run::RunFailure;
use crate::usage_error::mode_arg;
use bson::extjson::{Doubles, KeyOrder};
use bson_codec::run_end::RunFault;
use bson_convert::error::Error;
use bson_model::options::DuplicateKeys;
use bson_run::lines::Counts;
use bson_run::task::{Output, Preprocessing};
use std::alloc::{AllocError, Global};

const ARCHIVE_MESSAGE: &str =
    "is an archive of mongodump; mongodump without '--archive' writes dumps";

const UTF_16_MESSAGE: &str =
    "is UTF-16, and JSON is UTF-8; give it through 'iconv -f UTF-16 -t UTF-8'";

const UTF_16_LITTLE_ENDIAN_MESSAGE: &str =
    "is UTF-16, and JSON is UTF-8; give it through 'iconv -f UTF-16LE -t UTF-8'";

const UTF_16_BIG_ENDIAN_MESSAGE: &str =
    "is UTF-16, and JSON is UTF-8; give it through 'iconv -f UTF-16BE -t UTF-8'";

const SHELL_VALUES_MESSAGE: &str =
    "has values of the mongo shell, such as ObjectId(..) for {\"$oid\": ..}; EJSON.stringify writes Extended JSON";

const NOT_FINITE_MESSAGE: &str =
    "has NaN or Infinity, which JSON does not have; write {\"$numberDouble\": \"NaN\"}";

const NOT_FINITE_V1_MESSAGE: &str =
    "has NaN or Infinity, which JSON does not have; they are read with --v1";

const CONTROL_CHARACTER_MESSAGE: &str =
    "has a control character in a string; write a tab as \\t, a newline as \\n, any other as \\u0001";

const NOT_UTF_8_MESSAGE: &str =
    "is not UTF-8; if it is Latin-1, give it through 'iconv -f latin1 -t utf-8'";

const NOT_A_DOCUMENT_MESSAGE: &str =
    "has a value that is not a document, and encode makes bytes of documents alone";

const BYTE_ORDER_MARK_MESSAGE: &str = "begins with a byte order mark, which only a named file may";

/// Returns the line that helps with an input that was rejected, whose first bytes these are; nothing
/// where it was not, or where nothing helps.
pub fn rejection_help(
    alloc: Global,
    invocation: &Invocation,
    file_name: &str,
    first_bytes: &[u8],
    advice: Option<Advice>,
) -> Option<String>
    ensures { IfSome result
        (λ line. IsHelpFor invocation.now file_name.now first_bytes.now advice (string_bytes line)) }
{
    let rejected_input = RejectedInput {
        input: invocation.input,
        writes_bson_bytes: invocation.writes_bson_bytes(),
        is_standard_stream: file_name == STDIO,
        advice,
    };
    let hint = hint_for(rejected_input, first_bytes)?;
    let Ok(command) = reading_command(alloc, invocation) else {
        return None;
    };
    match hint_line(alloc, file_name, hint, command.as_str()) {
        Ok(line) => Some(line),
        Err(_) => None,
    }
}

/// Whether a run over one file ended with a rejected input, or passed some of it over.
pub fn is_rejected(run_result: &Result<Counts, RunFailure<'_>>) -> bool
    ensures { result ≡ is_rejected run_result.now }
{
    match run_result {
        Ok(counts) => counts.refused > 0,
        Err(RunFailure::Text(_, _, fault, _)) => {
            !matches!(
                fault,
                Error::CannotRead | Error::CannotWrite | Error::OutOfMemory
            )
        }
        Err(RunFailure::Document(_, run_end)) => {
            matches!(
                run_end.fault,
                RunFault::Malformed { .. } | RunFault::FiniteDouble
            )
        }
        Err(RunFailure::NotArray(_)) => true,
        Err(_) => false,
    }
}

// The mode and the options of a command that reads the input.
fn reading_command(alloc: Global, invocation: &Invocation) -> Result<String, AllocError>
    ensures { IfOk result (λ command. string_bytes command ≡ reading_command invocation.now) }
{
    let mode = mode_for(invocation);
    let options = invocation.options;
    let sorts_keys = option_if(
        sorts_keys(invocation.purpose, options.doubles, options.key_order),
        " --sort-keys",
    );
    let strict_option = option_if(is_strict(options.doubles), " --strict");
    let preprocessing = preprocessing_options(invocation.task.preprocessing);
    format!(in alloc; "{mode}{sorts_keys}{strict_option}{preprocessing}")
}

// The mode of a command that reads the input.
fn mode_for(invocation: &Invocation) -> &'static str
    ensures { result.now ≡ reading_mode invocation.now.input invocation.now.purpose invocation.now.task.output }
{
    match (invocation.input, invocation.task.output) {
        (Input::Lines, Output::Bytes) => "canonical",
        (_, output) => mode_arg(invocation.purpose, output),
    }
}

fn is_strict(doubles: Doubles) -> bool
    ensures { result ≡ is_strict doubles }
{
    match doubles {
        Doubles::Special => true,
        Doubles::Finite => false,
    }
}

fn option_if(is_given: bool, option: &'static str) -> &'static str
    ensures { result.now ≡ option_if is_given option.now }
{
    if is_given { option } else { "" }
}

fn preprocessing_options(preprocessing: Preprocessing) -> &'static str
    ensures { result.now ≡ preprocessing_options preprocessing }
{
    match (preprocessing.v1, preprocessing.duplicate_keys) {
        (true, DuplicateKeys::LastWins) => " --v1",
        (false, DuplicateKeys::Reject) => " --no-double-keys",
        (true, DuplicateKeys::Reject) => " --v1 --no-double-keys",
        (false, DuplicateKeys::LastWins) => "",
    }
}

// Whether the option that sorts keys is set, and not another that sorts them.
fn sorts_keys(purpose: Purpose, doubles: Doubles, key_order: KeyOrder) -> bool
    ensures { result ≡ sorts_keys purpose doubles key_order }
{
    match (purpose, doubles, key_order) {
        (Purpose::Output, Doubles::Finite, KeyOrder::Ascending) => true,
        _ => false,
    }
}

// The line for a hint.
fn hint_line(
    alloc: Global,
    file_name: &str,
    hint: Hint,
    command: &str,
) -> Result<String, AllocError>
    ensures { IfOk result (λ line. string_bytes line ≡ hint_line file_name.now hint command.now) }
{
    let explanation = write_hint(alloc, hint, command)?;
    let file_name = show_name(alloc, file_name, "input")?;
    format!(in alloc; "bson: {file_name} {explanation}")
}

// Returns the text of a hint: what an input contains instead, and what reads it.
fn write_hint(alloc: Global, hint: Hint, command: &str) -> Result<String, AllocError>
    ensures { IfOk result (λ explanation. string_bytes explanation ≡ hint_text hint command.now) }
{
    match hint {
        Hint::JsonText => {
            format!(in alloc;
                "holds text, and no BSON bytes; 'bson lines {command}' reads a document per line"
            )
        }
        Hint::MultilineTexts => {
            format!(in alloc; "has texts over several lines; 'bson {command}' reads them")
        }
        Hint::MultilineTextsToEncode => {
            format!(in alloc; "has texts over several lines; 'bson {command}' makes a line of each")
        }
        Hint::ArrayToEncode => {
            String::from_str(
                alloc,
                "has a JSON array, whose documents are encoded with --array",
            )
        }
        Hint::Gzip => String::from_str(alloc, "is compressed; give it through 'gzip -dc'"),
        Hint::Zstd => String::from_str(alloc, "is compressed; give it through 'zstd -dc'"),
        Hint::Bzip2 => String::from_str(alloc, "is compressed; give it through 'bzip2 -dc'"),
        Hint::Xz => String::from_str(alloc, "is compressed; give it through 'xz -dc'"),
        Hint::MongodumpArchive => String::from_str(alloc, ARCHIVE_MESSAGE),
        Hint::BsonDocuments => String::from_str(
            alloc,
            "holds BSON bytes, and no text; 'bson decode' reads them",
        ),
        Hint::Utf16 => String::from_str(alloc, UTF_16_MESSAGE),
        Hint::Utf16LittleEndian => String::from_str(alloc, UTF_16_LITTLE_ENDIAN_MESSAGE),
        Hint::Utf16BigEndian => String::from_str(alloc, UTF_16_BIG_ENDIAN_MESSAGE),
        Hint::ByteOrderMark => String::from_str(alloc, BYTE_ORDER_MARK_MESSAGE),
        Hint::Advised(advice) => String::from_str(alloc, advice_text(advice)),
    }
}

// Returns the text of an advice.
fn advice_text(advice: Advice) -> &'static str
    ensures { result.now ≡ advice_text advice }
{
    match advice {
        Advice::FiniteDoubles => "has numbers that are read without --strict",
        Advice::SeveralTexts => "has several texts, which are read without --strict",
        Advice::MongoShellValue => SHELL_VALUES_MESSAGE,
        Advice::NotFinite => NOT_FINITE_MESSAGE,
        Advice::NotFiniteV1 => NOT_FINITE_V1_MESSAGE,
        Advice::PythonOrJsLiterals =>
            "has names of Python or JavaScript; JSON has true, false and null",
        Advice::Comment => "has a comment, and JSON has none; remove it",
        Advice::SeveralTextsOnOneLine =>
            "has several texts on one line; write each on a line of its own",
        Advice::ControlCharacter => CONTROL_CHARACTER_MESSAGE,
        Advice::NotUtf8 => NOT_UTF_8_MESSAGE,
        Advice::V1 => "has Extended JSON v1, which is read with --v1",
        Advice::NotADocument => NOT_A_DOCUMENT_MESSAGE,
    }
}
