//! The path to a wrong value, as bytes of BSON.
ghost use Rattle.std.specs.Prelude.{◌≡◌, ◌≤◌, decimal, length, map, IfOk, IfErr, OnOk};
ghost use Rattle.bson_bytes.specs.PutSteps.{put_elements, PutsBytes};
ghost use Rattle.bson_bytes.specs.Writing.{document_bytes, FitsDocument};
ghost use Rattle.bson_bytes.specs.declared.error.Error.TheVariants as errors;
ghost use Rattle.bson_model.specs.Value.{no_pairs, pair};
ghost use Rattle.bson_tree.specs.Place.{segment_of};
ghost use Rattle.vbson.specs.Path.{index_value, name_value, path_pairs, segment_value};

use bson_bytes::error::Error;
use bson_bytes::write_parts::{
    put_key, put_length_placeholder, put_nul_and_length, put_text, put_u64,
};
use bson_tree::place::Segment;
use bson_types::spec::ElementType;
use std::alloc::Global;

/// Returns the bytes of a path, whose segments lead from the value outward.
///
/// # Errors
///
/// - `Size`: the path has 2^31 bytes or more.
/// - `OutOfMemory`: an allocation failed.
pub fn path_bytes(alloc: Global, segments: &[Segment]) -> Result<Vec<u8>, Error>
    ensures ok { IfOk result (λ bytes. bytes.items ≡ document_bytes (path_pairs (map segment_of segments.now))) }
    ensures only_out_of_memory { FitsDocument (path_pairs (map segment_of segments.now))
        → IfErr result (λ error. error ≡ errors.OutOfMemory) }
{
    let mut bytes = Vec::new(alloc);
    put_length_placeholder(&mut bytes)?;
    put_segments(alloc, &mut bytes, segments)?;
    put_nul_and_length(&mut bytes, 0)?;
    Ok(bytes)
}

// Appends the elements of a path, the outermost first.
fn put_segments(alloc: Global, bytes: &mut Vec<u8>, segments: &[Segment]) -> Result<(), Error>
    ensures puts_bytes { PutsBytes result bytes.new.items
        (put_elements (path_pairs (map segment_of segments.now)) bytes.old.items) }
    ensures length_grows { OnOk result (length bytes.old.items ≤ length bytes.new.items) }
{
    let Some((segment, outer_segments)) = segments.split_first() else {
        return Ok(());
    };
    put_segments(alloc, bytes, outer_segments)?;
    put_segment(alloc, bytes, outer_segments.len(), segment)
}

// Appends a segment, under its number as its key.
fn put_segment(
    alloc: Global,
    bytes: &mut Vec<u8>,
    segment_number: usize,
    segment: &Segment,
) -> Result<(), Error>
    ensures puts_bytes { PutsBytes result bytes.new.items
        (put_elements
        (pair (decimal segment_number) (segment_value (segment_of segment.now)) no_pairs) bytes.old.items) }
    ensures length_grows { OnOk result (length bytes.old.items ≤ length bytes.new.items) }
{
    let key = format!(in alloc; "{segment_number}")?;
    match segment {
        Segment::Key(name) => put_name(bytes, &key, name.as_str()),
        Segment::Element(index) => put_index(bytes, &key, *index),
    }
}

// Appends a string with its key.
#[tactic(auto, unfolding(bson_bytes::specs::PutSteps::put_value))]
fn put_name(bytes: &mut Vec<u8>, key: &str, name: &str) -> Result<(), Error>
    ensures puts_bytes { PutsBytes result bytes.new.items
        (put_elements (pair key.now (name_value name.now) no_pairs) bytes.old.items) }
    ensures length_grows { OnOk result (length bytes.old.items ≤ length bytes.new.items) }
{
    put_key(bytes, ElementType::String, key)?;
    put_text(bytes, name)
}

// Appends an integer of 64 bits with its key.
#[tactic(auto, unfolding(bson_bytes::specs::PutSteps::put_value))]
fn put_index(bytes: &mut Vec<u8>, key: &str, index: usize) -> Result<(), Error>
    ensures puts_bytes { PutsBytes result bytes.new.items
        (put_elements (pair key.now (index_value index) no_pairs) bytes.old.items) }
    ensures length_grows { OnOk result (length bytes.old.items ≤ length bytes.new.items) }
{
    put_key(bytes, ElementType::Int64, key)?;
    Ok(put_u64(bytes, index as u64)?)
}
