//! Regular expressions (BSON 1.1, type 0x0B).
ghost use Rattle.std.specs.Prelude.{◌≡◌, ℕ, IfOk, List, Some, string_bytes};
ghost use Rattle.std.specs.List.Sorted.{IsNonDecreasing, IsPermutation};
ghost use Rattle.std.specs.Str.{chars, encode_utf8_all};
ghost use Rattle.bson_types.specs.Regex.{sorted_regex_options, ascending_numbers};

use std::alloc::{AllocError, Global};
use std::fmt;

/// A pattern and its options. Neither is checked. Extended JSON is written with the options sorted,
/// whatever their order here.
///
/// ```
/// let regex = Regex::new(alloc, "^a", "xi")?;
/// println!(rt; "{regex}")?; // /^a/ix
/// ```
#[derive(Debug, Drop, PartialEq, Eq, Hash)]
pub struct Regex {
    /// The pattern.
    pub pattern: String,
    /// The options, each of one character: `i`, `m`, `x`, `l`, `s` or `u`.
    pub options: String,
}

impl Regex {
    /// Makes the regular expression of a pattern and options, with the options sorted by character.
    ///
    /// # Errors
    ///
    /// Returns `AllocError` if a request for memory is refused.
    pub fn new(alloc: Global, pattern: &str, options: &str) -> Result<Regex, AllocError>
        ensures pattern { IfOk result (λ regex. string_bytes regex.pattern ≡ pattern.now) }
        ensures options { IfOk result (λ regex. string_bytes regex.options ≡ sorted_regex_options options.now) }

        // Sorting keeps the same characters, and none comes before a lower one.
        ensures ascending { (given_numbers : List ℕ)
            → let sorted_numbers = ascending_numbers given_numbers in IsPermutation given_numbers sorted_numbers
            × IsNonDecreasing sorted_numbers }
    {
        Ok(Regex {
            pattern: String::from_str(alloc, pattern)?,
            options: sort_characters(alloc, options)?,
        })
    }

    /// Returns a copy of the pattern and the options, in memory of its own.
    ///
    /// # Errors
    ///
    /// Returns `AllocError` if a request for memory is refused.
    pub fn clone(&self, alloc: Global) -> Result<Regex, AllocError>
        ensures pattern { IfOk result (λ regex. string_bytes regex.pattern ≡ string_bytes self.now.pattern) }
        ensures options { IfOk result (λ regex. string_bytes regex.options ≡ string_bytes self.now.options) }
    {
        Ok(Regex {
            pattern: String::from_str(alloc, self.pattern.as_str())?,
            options: String::from_str(alloc, self.options.as_str())?,
        })
    }
}

impl fmt::Display for Regex {
    ghost use Rattle.bson_types.specs.Regex.{regex_text};

    ghost output = { λ regex. Some (regex_text regex) };

    fn fmt<W: fmt::Write>(&self, formatter: &mut fmt::Formatter<W>) -> fmt::Result {
        write!(formatter, "/{}/{}", self.pattern, self.options)
    }
}

/// Returns the characters of the string in ascending order.
///
/// # Errors
///
/// Returns `AllocError` if a request for memory is refused.
pub fn sort_characters(alloc: Global, text: &str) -> Result<String, AllocError>
    ensures { IfOk result (λ sorted_text. string_bytes sorted_text ≡ sorted_regex_options text.now) }
{
    let characters = in_ascending_order(characters_of(alloc, text)?);
    string_of(alloc, characters)
}

fn characters_of(alloc: Global, text: &str) -> Result<Vec<char>, AllocError>
    ensures { IfOk result (λ characters. characters.items ≡ chars text.now) }
{
    text.chars().collect(alloc)
}

fn in_ascending_order(mut characters: Vec<char>) -> Vec<char>
    ensures { result.items ≡ ascending_numbers characters.items }
{
    characters.sort_unstable();
    characters
}

fn string_of(alloc: Global, characters: Vec<char>) -> Result<String, AllocError>
    ensures { IfOk result (λ text. string_bytes text ≡ encode_utf8_all characters.items) }
{
    characters.into_iter().collect(alloc)
}
