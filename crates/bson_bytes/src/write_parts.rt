//! Writers of the parts of an element, which `read_parts` reads. Each appends to the bytes.
ghost use Rattle.std.specs.Prelude.{◌≡◌, ◌≤◌, ◌+◌, ◌++◌, length, vec_len, OnOk, string_bytes};
ghost use Rattle.std.specs.Int.{w32, w64};
ghost use Rattle.bson_bytes.specs.Grammar.{little_endian, old_binary_bytes, binary_bytes};
ghost use Rattle.bson_bytes.specs.PutSteps.{put_if_size_fits, put_text, put_regex, put_binary, put_pointer, put_name};
ghost use Rattle.bson_bytes.specs.PutSteps.{put_length_placeholder, put_length, put_nul_and_length, PutsBytes};
ghost use Rattle.bson_bytes.specs.Writing.{name_bytes, IsWellTypedScalar};
ghost use Rattle.bson_scalar.specs.Scalar as kind;
ghost use Rattle.bson_types.specs.DbPointer.{pointer_namespace, pointer_id};
ghost use Rattle.bson_types.specs.BinarySubtypes.{subtype_byte};

use crate::error::Error;
use crate::read_parts::has_no_nul;
use bson_types::binary::Binary;
use bson_types::db_pointer::DbPointer;
use bson_types::regex::Regex;
use bson_types::spec::ElementType;
use bson_types::timestamp::Timestamp;
use std::alloc::AllocError;

/// Appends a number of 32 bits, its lowest byte first.
///
/// # Errors
///
/// Returns `AllocError` if a request for memory is refused.
#[inline]
#[tactic(auto, unfolding(crate::specs::Grammar::little_endian))]
pub fn put_u32(output: &mut Vec<u8>, number: u32) -> Result<(), AllocError>
    ensures { OnOk result (output.new.items ≡ output.old.items ++ little_endian w32 number) }
{
    output.extend_from_slice(&number.to_le_bytes())
}

/// Appends a number of 64 bits, its lowest byte first.
///
/// # Errors
///
/// Returns `AllocError` if a request for memory is refused.
#[inline]
#[tactic(auto, unfolding(crate::specs::Grammar::little_endian))]
pub fn put_u64(output: &mut Vec<u8>, number: u64) -> Result<(), AllocError>
    ensures { OnOk result (output.new.items ≡ output.old.items ++ little_endian w64 number) }
{
    output.extend_from_slice(&number.to_le_bytes())
}

/// Appends a timestamp: its increment, and then its time.
///
/// # Errors
///
/// Returns `AllocError` if a request for memory is refused.
#[inline]
pub fn put_timestamp(output: &mut Vec<u8>, timestamp: Timestamp) -> Result<(), AllocError>
    ensures put { OnOk result
        (output.new.items
        ≡ output.old.items ++ (little_endian w32 timestamp.increment ++ little_endian w32 timestamp.time)) }
    ensures typed { IsWellTypedScalar (kind.timestamp timestamp.time timestamp.increment) }
{
    put_u32(output, timestamp.increment)?;
    put_u32(output, timestamp.time)
}

/// Appends a text: its length, its bytes and a 0.
///
/// # Errors
///
/// - `Size`: the text has 2^31 - 1 bytes or more.
/// - `OutOfMemory`: a request for memory was refused.
#[inline]
pub fn put_text(output: &mut Vec<u8>, text: &str) -> Result<(), Error>
    ensures put { PutsBytes result output.new.items (put_text text.now output.old.items) }
    ensures grows { OnOk result (length output.old.items ≤ length output.new.items) }
{
    if text.len() >= 0x7fff_ffff {
        return Err(Error::Size);
    }
    put_u32(output, text.len() as u32 + 1)?;
    output.extend_from_slice(text.as_bytes())?;
    output.push(0)?;
    Ok(())
}

/// Appends a binary: its length, its subtype and its bytes. A second length comes before the bytes
/// if the subtype is 2.
///
/// # Errors
///
/// - `Size`: the length is 2^31 or more. It includes the 4 bytes of a second length.
/// - `OutOfMemory`: a request for memory was refused.
pub fn put_binary(output: &mut Vec<u8>, binary: &Binary) -> Result<(), Error>
    ensures put { PutsBytes result output.new.items
        (put_binary (subtype_byte binary.now.subtype) binary.now.bytes.items output.old.items) }
    ensures typed { IsWellTypedScalar (kind.binary binary.now.subtype binary.now.bytes.items) }
    ensures grows { OnOk result (length output.old.items ≤ length output.new.items) }
{
    let subtype = u8::from(binary.subtype);
    if subtype == 2 {
        put_old_binary(output, binary.bytes.as_slice())
    } else {
        put_plain_binary(output, subtype, binary.bytes.as_slice())
    }
}

fn put_plain_binary(output: &mut Vec<u8>, subtype: u8, bytes: &[u8]) -> Result<(), Error>
    ensures put { PutsBytes result output.new.items
        (put_if_size_fits (length bytes.now) (binary_bytes subtype bytes.now) output.old.items) }
    ensures grows { OnOk result (length output.old.items ≤ length output.new.items) }
{
    if bytes.len() >= 0x8000_0000 {
        return Err(Error::Size);
    }
    put_u32(output, bytes.len() as u32)?;
    output.push(subtype)?;
    output.extend_from_slice(bytes)?;
    Ok(())
}

fn put_old_binary(output: &mut Vec<u8>, bytes: &[u8]) -> Result<(), Error>
    ensures put { PutsBytes result output.new.items
        (put_if_size_fits (length bytes.now + 4) (old_binary_bytes bytes.now) output.old.items) }
    ensures grows { OnOk result (length output.old.items ≤ length output.new.items) }
{
    if bytes.len() >= 0x7fff_fffc {
        return Err(Error::Size);
    }
    put_u32(output, bytes.len() as u32 + 4)?;
    output.push(2)?;
    put_u32(output, bytes.len() as u32)?;
    output.extend_from_slice(bytes)?;
    Ok(())
}

/// Appends a regular expression: its pattern and its options, each with a 0 after it.
///
/// # Errors
///
/// - `Regex`: the pattern or the options contain a 0.
/// - `OutOfMemory`: a request for memory was refused.
pub fn put_regex(output: &mut Vec<u8>, regex: &Regex) -> Result<(), Error>
    ensures put { PutsBytes result output.new.items
        (put_regex (string_bytes regex.now.pattern) (string_bytes regex.now.options) output.old.items) }
    ensures grows { OnOk result (length output.old.items ≤ length output.new.items) }
{
    if !has_no_nul(regex.pattern.as_bytes()) {
        return Err(Error::Regex);
    }
    if !has_no_nul(regex.options.as_bytes()) {
        return Err(Error::Regex);
    }
    output.extend_from_slice(regex.pattern.as_bytes())?;
    output.push(0)?;
    output.extend_from_slice(regex.options.as_bytes())?;
    output.push(0)?;
    Ok(())
}

/// Appends a pointer: its namespace as a text, and its object id.
///
/// # Errors
///
/// - `Size`: the namespace has 2^31 - 1 bytes or more.
/// - `OutOfMemory`: a request for memory was refused.
#[tactic(auto, using(crate::proofs::Texts::string_utf8))]
pub fn put_pointer(output: &mut Vec<u8>, pointer: &DbPointer) -> Result<(), Error>
    ensures put { PutsBytes result output.new.items
        (put_pointer (pointer_namespace pointer.now) (pointer_id pointer.now) output.old.items) }
    ensures typed { OnOk result
        (IsWellTypedScalar (kind.db_pointer (pointer_namespace pointer.now) (pointer_id pointer.now))) }
    ensures grows { OnOk result (length output.old.items ≤ length output.new.items) }
{
    put_text(output, pointer.namespace())?;
    output.extend_from_slice(&pointer.id().bytes())?;
    Ok(())
}

/// Appends the tag and the key of an element of a document.
///
/// # Errors
///
/// - `Key`: the key contains a 0.
/// - `OutOfMemory`: a request for memory was refused.
#[inline]
pub fn put_key(output: &mut Vec<u8>, element_type: ElementType, key: &str) -> Result<(), Error>
    ensures put { PutsBytes result output.new.items (put_name element_type key.now output.old.items) }
    ensures grows { OnOk result (length output.old.items ≤ length output.new.items) }
{
    if !has_no_nul(key.as_bytes()) {
        return Err(Error::Key);
    }
    Ok(put_name(output, element_type, key)?)
}

/// Appends the tag and the name of an element. The name contains no 0.
///
/// # Errors
///
/// Returns `AllocError` if a request for memory is refused.
#[inline]
pub fn put_name(
    output: &mut Vec<u8>,
    element_type: ElementType,
    name: &str,
) -> Result<(), AllocError>
    ensures put { OnOk result (output.new.items ≡ output.old.items ++ name_bytes element_type name.now) }
{
    output.push(element_type.tag())?;
    output.extend_from_slice(name.as_bytes())?;
    output.push(0)?;
    Ok(())
}

/// Writes the length of the bytes from `length_start` on into the first four of them.
///
/// # Errors
///
/// - `Size`: the length is 2^31 or more.
#[inline]
#[tactic(auto, unfolding(crate::specs::Grammar::little_endian, crate::specs::PutSteps::put_length))]
pub fn put_length(output: &mut Vec<u8>, length_start: usize) -> Result<(), Error>
    requires { length_start + 4 ≤ vec_len output.old }
    ensures put { PutsBytes result output.new.items (put_length length_start output.old.items) }
    ensures grows { OnOk result (length output.old.items ≤ length output.new.items) }
{
    let size = output.len() - length_start;
    if size >= 0x8000_0000 {
        return Err(Error::Size);
    }
    let length_bytes = (size as u32).to_le_bytes();
    let length_slot = &mut output.as_mut_slice()[length_start..length_start + 4];
    length_slot.copy_from_slice(&length_bytes);
    Ok(())
}

/// Appends four bytes for a length that is not known yet.
///
/// # Errors
///
/// Returns `AllocError` if a request for memory is refused.
#[inline]
pub fn put_length_placeholder(output: &mut Vec<u8>) -> Result<(), AllocError>
    ensures { OnOk result (output.new.items ≡ put_length_placeholder output.old.items) }
{
    output.extend_from_slice(&[0, 0, 0, 0])
}

/// Appends the 0 after a list of elements, and fills in the length of the document.
///
/// # Errors
///
/// - `Size`: the length is 2^31 or more.
/// - `OutOfMemory`: a request for memory was refused.
#[inline]
pub fn put_nul_and_length(output: &mut Vec<u8>, length_start: usize) -> Result<(), Error>
    requires { length_start + 4 ≤ vec_len output.old }
    ensures put { PutsBytes result output.new.items (put_nul_and_length length_start output.old.items) }
    ensures grows { OnOk result (length output.old.items ≤ length output.new.items) }
{
    output.push(0)?;
    put_length(output, length_start)
}
