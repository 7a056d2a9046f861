//! Where trees are written to: into memory, or onto a text.
ghost use Rattle.std.specs.Prelude.{◌≡◌, ℕ, List, IfOk, IsTrue, string_bytes};
ghost use Rattle.std.specs.Fmt.{signed_decimal};
ghost use Rattle.serde_json.specs.Data.{Data, null, boolean, number, string, object, unsigned};
ghost use Rattle.serde_json.specs.Data.{Members, no_members, put};
ghost use Rattle.serde_json.specs.Find.{of_integer};
ghost use Rattle.bson_double.specs.FiniteDoubles.{is_finite};
ghost use Rattle.bson_scalar.specs.Tokens.{with_last_member};
ghost use Rattle.bson_scalar.specs.Written.{number_tree};

use json::Writer;
use serde_json::{Map, Value};
use std::alloc::{AllocError, Global};

// Where a tree is written to, its parts in their order. Each call returns what it wrote: a tree in
// memory, or `()` if its text was appended.
pub(crate) trait Sink {
    // A tree that was written.
    type Tree: Drop;

    // A map that was begun.
    type Map: Drop;

    // A map that was begun, and the key of the tree that comes next in it.
    type Key: Drop;

    // The contents of the sink before anything was written to it.
    ghost before: { Self → List ℕ };

    // Between two states of the sink the tree was written, and the call returned this for it.
    ghost wrote_tree: { Self → Data → Self.Tree → Self → Type 0 };

    // Between two states of the sink a map was begun, and these members were written in it.
    ghost wrote_members: { Self → Members → Self.Map → Self → Type 0 };

    // Between two states of the sink a map was begun, and these members and then the key were
    // written in it.
    ghost wrote_key: { Self → Members → List ℕ → Self.Key → Self → Type 0 };

    // Writes `null`.
    fn null(&mut self) -> Result<Self::Tree, AllocError>
        ensures written { IfOk result (λ written_tree. wrote_tree self.old null written_tree self.new) }
        ensures before { before self.new ≡ before self.old };

    // Writes a boolean.
    fn boolean(&mut self, truth_value: bool) -> Result<Self::Tree, AllocError>
        ensures written { IfOk result
            (λ written_tree. wrote_tree self.old (boolean truth_value) written_tree self.new) }
        ensures before { before self.new ≡ before self.old };

    // Writes a number.
    fn integer(&mut self, integer_value: i64) -> Result<Self::Tree, AllocError>
        ensures written { IfOk result
            (λ written_tree. wrote_tree self.old (number (of_integer integer_value)) written_tree self.new) }
        ensures before { before self.new ≡ before self.old };

    // Writes a number that is not below zero.
    fn natural(&mut self, natural_number: u32) -> Result<Self::Tree, AllocError>
        ensures written { IfOk result
            (λ written_tree. wrote_tree self.old (number (unsigned natural_number)) written_tree self.new) }
        ensures before { before self.new ≡ before self.old };

    // Writes a finite double, given as its pattern, as a number: on a text its shortest decimal.
    fn double(&mut self, pattern: u64) -> Result<Self::Tree, AllocError>
        requires { IsTrue (is_finite pattern) }
        ensures written { IfOk result
            (λ written_tree. wrote_tree self.old (number_tree pattern) written_tree self.new) }
        ensures before { before self.new ≡ before self.old };

    // Writes the text of a number.
    fn numeral(&mut self, integer_value: i64) -> Result<Self::Tree, AllocError>
        ensures written { IfOk result
            (λ written_tree. wrote_tree self.old (string (signed_decimal integer_value)) written_tree self.new) }
        ensures before { before self.new ≡ before self.old };

    // Writes a text, which a tree in memory has as a copy.
    fn text(&mut self, text: &str) -> Result<Self::Tree, AllocError>
        ensures written { IfOk result (λ written_tree. wrote_tree self.old (string text.now) written_tree self.new) }
        ensures before { before self.new ≡ before self.old };

    // Writes a text, which is moved into a tree in memory.
    fn owned_text(&mut self, text: String) -> Result<Self::Tree, AllocError>
        ensures written { IfOk result
            (λ written_tree. wrote_tree self.old (string (string_bytes text)) written_tree self.new) }
        ensures before { before self.new ≡ before self.old };

    // Begins a map.
    fn begin_map(&mut self) -> Result<Self::Map, AllocError>
        ensures written { IfOk result (λ written_map. wrote_members self.old no_members written_map self.new) }
        ensures before { before self.new ≡ before self.old };

    // Writes the next key of a map.
    fn key(&mut self, map: Self::Map, key_name: &str) -> Result<Self::Key, AllocError>
        ensures written { IfOk result (λ key. (state_before_map : Self) (member_list : Members)
            → wrote_members state_before_map member_list map self.old
            → wrote_key state_before_map member_list key_name.now key self.new) }
        ensures before { before self.new ≡ before self.old };

    // Puts the tree that was written under the key. The member is the last one where its key is
    // above all others.
    fn member(&mut self, key: Self::Key, tree: Self::Tree) -> Result<Self::Map, AllocError>
        ensures written { IfOk result
            (λ written_map. (state_before_map state_after_key : Self) (member_list : Members) (key_text : List ℕ)
            (json_tree : Data)
            → wrote_key state_before_map member_list key_text key state_after_key
            → wrote_tree state_after_key json_tree tree self.old
            → put key_text json_tree member_list ≡ with_last_member member_list key_text json_tree
            → wrote_members state_before_map (with_last_member member_list key_text json_tree) written_map self.new) }
        ensures before { before self.new ≡ before self.old };

    // Ends a map.
    fn end_map(&mut self, map: Self::Map) -> Result<Self::Tree, AllocError>
        ensures written { IfOk result (λ written_tree. (state_before_map : Self) (member_list : Members)
            → wrote_members state_before_map member_list map self.old
            → wrote_tree state_before_map (object member_list) written_tree self.new) }
        ensures before { before self.new ≡ before self.old };
}

/// Trees in memory.
#[derive(Drop)]
pub(crate) struct Trees {
    alloc: Global,
}

impl Trees {
    // A sink of trees in memory of the allocator.
    pub(crate) fn new(alloc: Global) -> Trees {
        Trees { alloc }
    }
}

impl Sink for Trees {
    type Tree = Value;

    type Map = Map<String, Value>;

    type Key = (Map<String, Value>, String);

    ghost use Rattle.std.specs.Prelude.{[]};
    ghost use Rattle.serde_json.specs.View.{view, members_view};

    ghost before = { λ trees. [] };

    ghost wrote_tree = { λ old json_tree written_tree new. view written_tree ≡ json_tree };

    ghost wrote_members = { λ old member_list written_map new. members_view written_map.entries ≡ member_list };

    ghost wrote_key = { λ old member_list key_text key new. (members_view key.0.entries ≡ member_list)
        × (string_bytes key.1 ≡ key_text) };

    fn null(&mut self) -> Result<Value, AllocError> {
        Ok(Value::Null)
    }

    fn boolean(&mut self, truth_value: bool) -> Result<Value, AllocError> {
        Ok(Value::Bool(truth_value))
    }

    fn integer(&mut self, integer_value: i64) -> Result<Value, AllocError> {
        Ok(Value::from(integer_value))
    }

    fn natural(&mut self, natural_number: u32) -> Result<Value, AllocError> {
        Ok(Value::from(natural_number))
    }

    fn double(&mut self, pattern: u64) -> Result<Value, AllocError> {
        Ok(Value::from(f64::from_bits(pattern)))
    }

    fn numeral(&mut self, number_value: i64) -> Result<Value, AllocError> {
        let text = format!(in self.alloc; "{number_value}")?;
        Ok(Value::String(text))
    }

    fn text(&mut self, text: &str) -> Result<Value, AllocError> {
        Value::try_from_str(self.alloc, text)
    }

    fn owned_text(&mut self, text: String) -> Result<Value, AllocError> {
        Ok(Value::String(text))
    }

    fn begin_map(&mut self) -> Result<Map<String, Value>, AllocError> {
        Ok(Map::new(self.alloc))
    }

    fn key(
        &mut self,
        map: Map<String, Value>,
        key_name: &str,
    ) -> Result<(Map<String, Value>, String), AllocError> {
        let key_name = String::from_str(self.alloc, key_name)?;
        Ok((map, key_name))
    }

    fn member(
        &mut self,
        key: (Map<String, Value>, String),
        tree: Value,
    ) -> Result<Map<String, Value>, AllocError> {
        let (mut map, key_name) = key;
        drop(map.insert(key_name, tree)?);
        Ok(map)
    }

    fn end_map(&mut self, map: Map<String, Value>) -> Result<Value, AllocError> {
        Ok(Value::Object(map))
    }
}

// A string of JSON, to which the tokens are appended.
impl Sink for Writer {
    type Tree = ();

    type Map = ();

    type Key = ();

    ghost use Rattle.std.specs.Prelude.{[], ◌∷◌, ◌++◌};
    ghost use Rattle.json.specs.Token.{begin_object, key};
    ghost use Rattle.bson_scalar.specs.Tokens.{tokens_of, members_as_tokens};

    ghost before = { λ writer. writer.before };

    ghost wrote_tree = { λ old json_tree written_tree new. new.tokens ≡ old.tokens ++ tokens_of json_tree };

    ghost wrote_members = { λ old member_list written_map new. new.tokens ≡ old.tokens ++ begin_object ∷ members_as_tokens member_list };

    ghost wrote_key = { λ old member_list key_text written_key new. new.tokens
        ≡ old.tokens ++ begin_object ∷ (members_as_tokens member_list ++ key key_text ∷ []) };

    fn null(&mut self) -> Result<(), AllocError> {
        Writer::null(self)
    }

    fn boolean(&mut self, truth_value: bool) -> Result<(), AllocError> {
        Writer::boolean(self, truth_value)
    }

    fn integer(&mut self, integer_value: i64) -> Result<(), AllocError> {
        Writer::i64(self, integer_value)
    }

    fn natural(&mut self, natural_number: u32) -> Result<(), AllocError> {
        Writer::u64(self, natural_number as u64)
    }

    fn double(&mut self, pattern: u64) -> Result<(), AllocError> {
        Writer::number(self, bson_double::double_text(pattern).as_str())
    }

    fn numeral(&mut self, integer_value: i64) -> Result<(), AllocError> {
        Writer::quoted_i64(self, integer_value)
    }

    fn text(&mut self, text: &str) -> Result<(), AllocError> {
        Writer::string(self, text)
    }

    fn owned_text(&mut self, text: String) -> Result<(), AllocError> {
        Writer::string(self, text.as_str())
    }

    fn begin_map(&mut self) -> Result<(), AllocError> {
        Writer::begin_object(self)
    }

    fn key(&mut self, _map: (), key_name: &str) -> Result<(), AllocError> {
        Writer::key(self, key_name)
    }

    fn member(&mut self, _key: (), _tree: ()) -> Result<(), AllocError> {
        Ok(())
    }

    fn end_map(&mut self, _map: ()) -> Result<(), AllocError> {
        Writer::end_object(self)
    }
}
