//! The program `bson_streams`: runs of the libraries `bson_run` and `bson_codec` over readers that
//! deliver their bytes in chunks and writers that accept one byte a call, and that fail. tests/streams
//! has the runs and their expected results.
//!
//! Standard input has one request on each line, then an empty line, and then the input of each run. For
//! each request the program writes a line `WRITTEN REPORTED ANSWER`, the bytes that the writer and the
//! report accepted, and a newline. The first two words are the numbers of these bytes.
#![tactic(auto)]

mod codec_runs;
mod failing_streams;
mod run_request;
mod runs;

use run_request::parse_request;
use runs::execute_request;
use std::io;
use std::io::{Read, Write};

fn main(rt: HostRuntime) -> io::Result<()> {
    let alloc = rt.alloc();
    let mut standard_input = Vec::new(alloc);
    rt.stdin().read_to_end(&mut standard_input)?;
    let (requests, input) = cut_at_empty_line(&standard_input);
    for line in requests.split(|byte| *byte == b'\n') {
        let response = match parse_request(line) {
            Some(request) => execute_request(alloc, request, input)?,
            None => Vec::from_slice(alloc, b"this order is not understood\n")?,
        };
        rt.stdout().write_all(&response)?;
    }
    Ok(())
}

/// Returns the bytes before the first empty line, and those after it.
fn cut_at_empty_line(standard_input: &[u8]) -> (&[u8], &[u8]) {
    for line_end in 0..standard_input.len() {
        if standard_input[line_end..].starts_with(b"\n\n") {
            return (&standard_input[..line_end], &standard_input[line_end + 2..]);
        }
    }
    (standard_input, &[])
}
