//! Objects of one key and of two, written to a sink.
ghost use Rattle.std.specs.Prelude.{◌≡◌, ℕ, List, IfOk, string_bytes};
ghost use Rattle.std.specs.Fmt.{signed_decimal};
ghost use Rattle.serde_json.specs.Data.{Data, no_members, member, put};
ghost use Rattle.serde_json.specs.Data as tree;
ghost use Rattle.bson_scalar.specs.TreeParts.{one_key_object, two_key_object};

use crate::sink::Sink;
use std::alloc::AllocError;

// Begins an object with its first key.
pub(crate) fn begin_object<S: Sink>(key_name: &str, sink: &mut S) -> Result<S::Key, AllocError>
    ensures written { IfOk result (λ key. S.wrote_key sink.old no_members key_name.now key sink.new) }
    ensures before { S.before sink.new ≡ S.before sink.old }
{
    let map = sink.begin_map()?;
    sink.key(map, key_name)
}

// Ends an object of one key with the tree that was written under it.
pub(crate) fn end_one_key_object<S: Sink>(
    key: S::Key,
    tree: S::Tree,
    sink: &mut S,
) -> Result<S::Tree, AllocError>
    ensures written { IfOk result
        (λ written_tree. (state_before_object state_after_key : S) (first_key : List ℕ) (first_tree : Data)
        → S.wrote_key state_before_object no_members first_key key state_after_key
        → S.wrote_tree state_after_key first_tree tree sink.old
        → S.wrote_tree state_before_object (one_key_object first_key first_tree) written_tree sink.new) }
    ensures before { S.before sink.new ≡ S.before sink.old }
{
    let map = sink.member(key, tree)?;
    sink.end_map(map)
}

// Writes the second key after the tree under the first.
pub(crate) fn begin_second_member<S: Sink>(
    key: S::Key,
    tree: S::Tree,
    key_name: &str,
    sink: &mut S,
) -> Result<S::Key, AllocError>
    ensures written { IfOk result
        (λ written_key. (state_before_object state_after_key : S) (first_key : List ℕ) (first_tree : Data)
        → S.wrote_key state_before_object no_members first_key key state_after_key
        → S.wrote_tree state_after_key first_tree tree sink.old
        → S.wrote_key state_before_object (member first_key first_tree no_members) key_name.now written_key sink.new) }
    ensures before { S.before sink.new ≡ S.before sink.old }
{
    let map = sink.member(key, tree)?;
    sink.key(map, key_name)
}

// Ends an object of two keys, of which the second is the greater.
pub(crate) fn end_two_key_object<S: Sink>(
    key: S::Key,
    tree: S::Tree,
    sink: &mut S,
) -> Result<S::Tree, AllocError>
    ensures written { IfOk result
        (λ written_tree. (state_before_object state_after_key : S) (first_key second_key : List ℕ)
        (first_tree second_tree : Data)
        → S.wrote_key state_before_object (member first_key first_tree no_members) second_key key state_after_key
        → S.wrote_tree state_after_key second_tree tree sink.old
        → put second_key second_tree (member first_key first_tree no_members)
        ≡ member first_key first_tree (member second_key second_tree no_members)
        → S.wrote_tree state_before_object
        (two_key_object first_key first_tree second_key second_tree) written_tree sink.new) }
    ensures before { S.before sink.new ≡ S.before sink.old }
{
    let map = sink.member(key, tree)?;
    sink.end_map(map)
}

// An object of one key that holds a text.
pub(crate) fn write_text_object<S: Sink>(
    key_name: &str,
    text: &str,
    sink: &mut S,
) -> Result<S::Tree, AllocError>
    ensures written { IfOk result
        (λ written_tree. S.wrote_tree sink.old
        (one_key_object key_name.now (tree.string text.now)) written_tree sink.new) }
    ensures before { S.before sink.new ≡ S.before sink.old }
{
    let key = begin_object(key_name, sink)?;
    let text = sink.text(text)?;
    end_one_key_object(key, text, sink)
}

// An object of one key that holds a text, which is moved into a tree in memory.
pub(crate) fn write_owned_text_object<S: Sink>(
    key_name: &str,
    text: String,
    sink: &mut S,
) -> Result<S::Tree, AllocError>
    ensures written { IfOk result (λ written_tree. S.wrote_tree sink.old
        (one_key_object key_name.now (tree.string (string_bytes text))) written_tree sink.new) }
    ensures before { S.before sink.new ≡ S.before sink.old }
{
    let key = begin_object(key_name, sink)?;
    let text = sink.owned_text(text)?;
    end_one_key_object(key, text, sink)
}

// An object of two texts, of whose keys the second is the greater.
pub(crate) fn write_two_texts_object<S: Sink>(
    key: &str,
    text: String,
    second_key_name: &str,
    second_text: String,
    sink: &mut S,
) -> Result<S::Tree, AllocError>
    requires { (first_tree second_tree : Data)
        → put second_key_name.now second_tree (member key.now first_tree no_members)
        ≡ member key.now first_tree (member second_key_name.now second_tree no_members) }
    ensures written { IfOk result (λ written_tree. S.wrote_tree sink.old
        (two_key_object key.now (tree.string (string_bytes text)) second_key_name.now
        (tree.string (string_bytes second_text)))
        written_tree sink.new) }
    ensures before { S.before sink.new ≡ S.before sink.old }
{
    let begun_key = begin_object(key, sink)?;
    let text = sink.owned_text(text)?;
    let begun_key = begin_second_member(begun_key, text, second_key_name, sink)?;
    let text = sink.owned_text(second_text)?;
    end_two_key_object(begun_key, text, sink)
}

// An object of one key that holds the text of a number.
pub(crate) fn write_numeral_object<S: Sink>(
    key_name: &str,
    number: i64,
    sink: &mut S,
) -> Result<S::Tree, AllocError>
    ensures written { IfOk result (λ written_tree. S.wrote_tree sink.old
        (one_key_object key_name.now (tree.string (signed_decimal number))) written_tree sink.new) }
    ensures before { S.before sink.new ≡ S.before sink.old }
{
    let key = begin_object(key_name, sink)?;
    let numeral = sink.numeral(number)?;
    end_one_key_object(key, numeral, sink)
}
