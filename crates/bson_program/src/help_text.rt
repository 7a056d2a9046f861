//! The texts that the program writes about itself.
use crate::invocation::Command;

/// The message if there is no memory for any other.
pub const OUT_OF_MEMORY: &str = "bson: out of memory";

pub const VERSION: &str = "bson 0.3.0";

/// Returns the help of a command.
pub fn help_of(command: Command) -> &'static str {
    match command {
        Command::AllCommands => HELP,
        Command::Text => TEXT_HELP,
        Command::Lines => LINES_HELP,
        Command::Decode => DECODE_HELP,
        Command::Encode => ENCODE_HELP,
    }
}

/// Returns the usage of a command.
pub fn usage_of(command: Command) -> &'static str {
    match command {
        Command::AllCommands => USAGE,
        Command::Text => {
            "usage: bson canonical|relaxed|show|check|hash [OPTION ..] [FILE ..]
       bson same [OPTION ..] FILE FILE"
        }
        Command::Lines => {
            "usage: bson lines canonical|relaxed|show|check|hash [OPTION ..] [FILE ..]
       bson lines same [OPTION ..] FILE FILE"
        }
        Command::Decode => {
            "usage: bson decode [canonical|relaxed|show|check|hash] [OPTION ..] [FILE ..]
       bson decode same [OPTION ..] FILE FILE"
        }
        Command::Encode => "usage: bson encode [OPTION ..] [FILE ..]",
    }
}

/// The usage of all commands.
pub const USAGE: &str = "usage: bson canonical|relaxed|show|check|hash [OPTION ..] [FILE ..]
       bson lines canonical|relaxed|show|check|hash [OPTION ..] [FILE ..]
       bson decode [canonical|relaxed|show|check|hash] [OPTION ..] [FILE ..]
       bson same|lines same|decode same [OPTION ..] FILE FILE
       bson encode [OPTION ..] [FILE ..]";

/// The help of `canonical`, `relaxed`, `show`, `check`, `hash` and `same`.
const TEXT_HELP: &str = "usage: bson canonical|relaxed|show|check|hash [OPTION ..] [FILE ..]
       bson same [OPTION ..] FILE FILE

Reads JSON documents from each FILE or standard input as MongoDB Extended JSON v2: one document, or several with white
space between. For each it writes one line:
  canonical   its canonical form, which keeps every type
  relaxed     its relaxed form, with plain numbers, and with dates as strings
  show        the value as the library's Display writes it, which is not JSON
  check       nothing; it only reports a rejected document
  hash        the SHA-256 digest of its canonical form with sorted keys, as 64 hexadecimal digits
`same` compares the values of two files, and reports the first difference.

  --sort-keys             (canonical, relaxed, show) writes keys in ascending order at every depth
  --strict                reads one document of a file, and accepts of all doubles only zeros, infinities and NaNs; keys
                          are written in ascending order
  --v1                    also reads objects of Extended JSON v1
  --no-double-keys        rejects input in which an object has a duplicate key, at any depth
  --canonical             (check) accepts only canonical JSON, byte for byte as `canonical --sort-keys` writes it
  --indent N              (canonical, relaxed) writes each document over several lines, with N spaces for each bracket
  --array                 (not check --canonical) reads each FILE as one JSON array, whose elements are the documents
  --unordered             (same) ignores the order of values
  --diagnostics FORMAT    (not same) writes errors as text, the default, or as JSON objects with their positions: json
  -o FILE, --output FILE  (not check, same) writes the output to FILE, as a whole at the end

`bson --help` says more of each option, and lists the statuses.";

/// The help of `lines`.
const LINES_HELP: &str = "usage: bson lines canonical|relaxed|show|check|hash [OPTION ..] [FILE ..]
       bson lines same [OPTION ..] FILE FILE

Reads one JSON document per line, from files or standard input, and writes a line for each. It needs the memory of the
longest line. A rejected line is reported as FILE:LINE:, or with its number for standard input. `check` writes only these
reports. `hash` writes the SHA-256 digest of each canonical form with sorted keys. `same` compares the values of two
files, and reports the first difference. Blank lines are counted, and write nothing.

  --sort-keys             (canonical, relaxed, show) writes keys in ascending order at every depth
  --strict                accepts of all doubles only zeros, infinities and NaNs; keys are written in ascending order
  --v1                    also reads objects of Extended JSON v1
  --no-double-keys        rejects a line in which an object has a duplicate key, at any depth
  --canonical             (check) accepts only canonical JSON, byte for byte as `canonical --sort-keys` writes it
  --keep-going            (not same) skips a rejected line and reports it; without it the run ends there
  --jobs N                (not same) converts N parts of named files at a time
  --unordered             (same) ignores the order of values
  --diagnostics FORMAT    (not same) writes errors as text, the default, or as JSON objects with their positions: json
  -o FILE, --output FILE  (not check, same) writes the output to FILE, as a whole at the end

`bson --help` says more of each option, and lists the statuses.";

/// The help of `decode`.
const DECODE_HELP: &str =
    "usage: bson decode [canonical|relaxed|show|check|hash] [OPTION ..] [FILE ..]
       bson decode same [OPTION ..] FILE FILE

Reads concatenated documents of BSON 1.1, as in a dump, and writes a line for each. Without a mode, the lines are
relaxed. A file with the name of a mode is `./show`. A run needs the memory of the largest document, which may nest 100
levels deep. `check` only checks the bytes. `hash` writes the SHA-256 digest of each canonical form with sorted keys.
`same` compares the documents of two files, and reports the first difference. A rejected document is reported with its
number, its offset in the file, and the offset of the error in it.

  --sort-keys             (canonical, relaxed) writes keys in ascending order at every depth
  --strict                (not show, check) rejects finite doubles other than zeros; keys are written in ascending order
  --no-double-keys        rejects a document in which an object has a duplicate key, at any depth
  --keep-going            (not same) skips a rejected document and reports it, if all the bytes of its length are present
  --jobs N                (not same) converts N parts of named files at a time
  --unordered             (same) ignores the order of documents
  --diagnostics FORMAT    (not same) writes errors as text, the default, or as JSON objects with their positions: json
  -o FILE, --output FILE  (not check, same) writes the output to FILE, as a whole at the end

`bson --help` says more of each option, and lists the statuses.";

/// The help of `encode`.
const ENCODE_HELP: &str = "usage: bson encode [OPTION ..] [FILE ..]

Reads one JSON document per line, as `lines` does, and writes their bytes (BSON 1.1) without anything in between. A line
is rejected if its value is not a document, or if a key or a regular expression has a 0 byte. Each part must have fewer
than 2^31 bytes. Bytes are not written to a terminal.

  --sort-keys             writes keys in ascending order at every depth
  --strict                accepts of all doubles only zeros, infinities and NaNs; keys are written in ascending order
  --v1                    also reads objects of Extended JSON v1
  --no-double-keys        rejects a line in which an object has a duplicate key, at any depth
  --array                 reads each FILE as one JSON array, whose elements are the documents; not with the two options
                          below
  --keep-going            skips a rejected line and reports it; without it the run ends there
  --jobs N                converts N parts of named files at a time
  --diagnostics FORMAT    writes errors as text, the default, or as JSON objects with their positions: json
  -o FILE, --output FILE  writes the output to FILE, as a whole at the end

`bson --help` says more of each option, and lists the statuses.";

/// The help of all commands.
pub const HELP: &str = "usage: bson canonical|relaxed|show|check|hash [OPTION ..] [FILE ..]
       bson lines canonical|relaxed|show|check|hash [OPTION ..] [FILE ..]
       bson decode [canonical|relaxed|show|check|hash] [OPTION ..] [FILE ..]
       bson same|lines same|decode same [OPTION ..] FILE FILE
       bson encode [OPTION ..] [FILE ..]

Reads JSON documents from each FILE or standard input as MongoDB Extended JSON v2, in either form or mixed: one document,
or several with white space between. For each it writes one line:
  canonical   its canonical form, which keeps every type
  relaxed     its relaxed form, with plain numbers, and with dates as strings
  show        the value as the library's Display writes it, which is not JSON
  check       nothing; it only reports a rejected document
  hash        the SHA-256 digest of its canonical form with sorted keys, as 64 hexadecimal digits

`same` compares the values of two files, each with its canonical form and sorted keys, and keeps both in memory. It writes
nothing if the values are the same in the same order. Otherwise it reports the first difference.

Keys keep the order of the input. A duplicate key has its last value at its first position. A number that is not a
64-bit integer, such as 1.5, is read as the nearest double. A double is written as its shortest decimal.

Input is rejected, with one line on standard error, if it is not JSON. It is also rejected if a wrapper, such as
{\"$oid\": ..}, does not have its shape. A document nests at most 127 levels deep.

`lines` reads one document per line, from files or standard input, in the memory of the longest line. A rejected line is
reported as FILE:LINE:, or with its number for standard input. `check` writes only these reports.

`decode` reads concatenated documents of BSON 1.1, as in a dump. It writes a line for each, in the memory of the largest
document, and `bson decode FILE` writes relaxed lines. `check` only checks the bytes. A rejected document is reported
with its number, its offset in the file, and the offset of the error in it.

`encode` reads one document per line, as `lines` does, and writes their bytes (BSON 1.1) without anything in between.
`decode canonical` reads this dump as the same lines. A line is rejected if its value is not a document, or if a key or
a regular expression has a 0 byte. Each part must have fewer than 2^31 bytes. Bytes are not written to a terminal.

  --sort-keys             (not check, hash, same, decode show) writes keys in ascending order at every depth, so that
                          equal values have equal output
  --strict                (not decode show, decode check) accepts of all doubles only zeros, infinities and NaNs, and
                          rejects numbers such as 1.5 and 0.0; a double zero is {\"$numberDouble\": \"0.0\"}. Keys are
                          written in ascending order at every depth. A file has one document, unless `lines` or
                          `encode` reads it
  --v1                    (not decode) also reads objects of Extended JSON v1, as those of v2: $binary with
                          $type, and $regex with $options. A $date may have no seconds, or no colon in its offset, and
                          a $uuid no hyphens. The keys of a scope stay as they are. The words NaN, Infinity and
                          -Infinity outside of strings are doubles
  --no-double-keys        rejects input in which an object has a duplicate key, at any depth, and reports the path to the
                          first one, or with `decode` its offset; keys are compared after their escapes are decoded
  --canonical             (check, lines check) accepts only canonical JSON with keys in ascending order, byte for byte as
                          `canonical --sort-keys` writes it, with its newline or without; not with the two options above
  --indent N              (canonical, relaxed) writes a document over several lines, one for each member and element,
                          with N spaces for each bracket, N from 1 to 16; it reads as exactly the same tree
  --array                 (not lines, decode, check --canonical) reads each FILE as one JSON array, as mongoexport writes
                          it with --jsonArray; the elements are the documents, also with --strict
  --keep-going            (lines, decode, encode; not same) skips a rejected line or document and reports it; a rejected
                          BSON document is skipped if all the bytes of its length are present
  --jobs N                (lines, decode, encode; not same) cuts named files at ends of lines, or at the start of
                          documents, and converts N parts at a time. Output, messages and status are those of one job.
                          Many small files are one job
  --unordered             (same) ignores the order of values: each value must occur as often in both files
  --diagnostics FORMAT    (not same) writes errors as text, the default, or as JSON objects with their positions: json
  -o FILE, --output FILE  (not check, same) writes the output to FILE, as a whole at the end; if a run ends early, FILE
                          stays as it was
  -h, --help; -v, --version  after a command, `--help` writes the help of that command alone

Options can be anywhere before the word --, and FILE - is standard input or output. If a file is both input and output,
the run is rejected before anything is read. A byte order mark at the start of a named file is skipped.

Status:
  0    done; no line or document was rejected. For `same`: the values are the same
  1    the input was rejected, or a file could not be read or written as a whole. The output has every document before
       the error, and with --keep-going all that were not rejected. For `same`: the values differ
  2    wrong arguments. For `same` also: an input was rejected, or could not be read
  3    the program is not built, and cannot be built here
  141  nobody reads the output any more
  128 and more  a signal ended the program

Examples:
  $ echo '{\"n\": 5, \"at\": {\"$date\": \"2020-06-01T00:42:40Z\"}}' | bson canonical
  {\"n\":{\"$numberInt\":\"5\"},\"at\":{\"$date\":{\"$numberLong\":\"1590972160000\"}}}
  $ echo '{\"price\": 12.50, \"count\": 3}' | bson relaxed --sort-keys
  {\"count\":3,\"price\":12.5}
  $ echo '{\"price\": 12.50, \"count\": 3}' | bson encode | bson decode relaxed
  {\"price\":12.5,\"count\":3}";
