//! Laws of the definitions.
ghost use Rattle.std.specs.Prelude.{◌≡◌, ◌≤◌, ◌↔◌, ℕ, List, option_map};
ghost use Rattle.std.specs.Cmp.Lexicographic.{slice_cmp};
ghost use Rattle.std.specs.List.Sorted.{IsStrictlySortedBy};
ghost use Rattle.std.specs.Ordering.{nat_cmp};
ghost use Rattle.json.specs.Find.{get_member};
ghost use Rattle.json.specs.Json.{Json, Members, no_members};
ghost use Rattle.json.specs.Strict.{keys, HasUniqueKeys};
ghost use Rattle.json.specs.Tree.{depth};
ghost use Rattle.serde_json.specs.Read.{read};
ghost use Rattle.bson_scalar.specs.declared.form.Doubles.{Doubles};
ghost use Rattle.bson_model.specs.Value.{Value};
ghost use Rattle.bson_model.specs.OrderedTrees.{read_in_order};
ghost use Rattle.bson_model.specs.DuplicateKeys.{first_occurrences};
ghost use Rattle.bson_model.specs.OrderedTexts.{HasMeaningInOrder, MeansByDefault};
ghost use Rattle.bson_tree.specs.Place.{PathSegment};
ghost use Rattle.bson_tokens.specs.Normalized.{normalized, normalized_members, IsNormalizedText};
ghost use Rattle.bson_tokens.specs.DuplicateKeys.{DuplicateAt};
ghost use Rattle.bson_model.specs.declared.options.KeyOrder.{KeyOrder};
ghost use Rattle.bson_model.specs.declared.options.KeyOrder.TheVariants.{AsGiven, Ascending};

/// Proves that a value with a duplicate key has no unique keys, and one path to the first such key;
/// each value that has no unique keys has one.
pub fn one_duplicate_path()
    ensures has_duplicate_key { (json_value : Json) (path : List PathSegment) → DuplicateAt json_value path
        → ¬ HasUniqueKeys json_value }
    ensures path { (json_value : Json) (path other_path : List PathSegment) → DuplicateAt json_value path
        → DuplicateAt json_value other_path → path ≡ other_path }
    ensures path_exists { (json_value : Json) → ¬ HasUniqueKeys json_value → (path : List PathSegment)
        × DuplicateAt json_value path }
{}

/// Proves that the normalized text is read as the text is: by first places as a tree in the order
/// of the text, and in either order of keys as `serde_json`'s tree.
pub fn normalized_texts_read_alike()
    ensures in_order { (text written : List ℕ) → IsNormalizedText AsGiven text written
        → read_in_order written ≡ read_in_order text }
    ensures by_default { (key_order : KeyOrder) (text written : List ℕ) → IsNormalizedText key_order text written
        → read written ≡ read text }
{}

/// Proves that a normalized tree has each key of an object once and nests no deeper than the tree;
/// normalized again it is the same.
pub fn normalized_once()
    ensures unique { (key_order : KeyOrder) (json_value : Json) → HasUniqueKeys (normalized key_order json_value) }
    ensures no_deeper { (key_order : KeyOrder) (json_value : Json)
        → depth (normalized key_order json_value) ≤ depth json_value }
    ensures normalized_again { (key_order : KeyOrder) (json_value : Json)
        → normalized key_order (normalized key_order json_value) ≡ normalized key_order json_value }
{}

/// Proves that a normalized object has each key at its first place or by ascending bytes, with its
/// last value in the object, normalized.
pub fn normalized_places()
    ensures first_positions { (json_members : Members)
        → keys (normalized_members AsGiven json_members no_members) ≡ first_occurrences (keys json_members) }
    ensures ascending_keys { (json_members : Members)
        → IsStrictlySortedBy (slice_cmp nat_cmp) (keys (normalized_members Ascending json_members no_members)) }
    ensures last_values { (key_order : KeyOrder) (json_members : Members) (member_key : List ℕ)
        → get_member member_key (normalized_members key_order json_members no_members)
        ≡ option_map (normalized key_order) (get_member member_key json_members) }
{}

/// Proves that a text means the values that its normalized text means: by first places in the order
/// of the text, and in either order of keys by default.
pub fn normalized_texts_mean_alike()
    ensures in_order { (doubles : Doubles) (text written : List ℕ) (bson_value : Value)
        → IsNormalizedText AsGiven text written
        → (HasMeaningInOrder doubles written bson_value ↔ HasMeaningInOrder doubles text bson_value) }
    ensures by_default { (doubles : Doubles) (key_order : KeyOrder) (text written : List ℕ) (bson_value : Value)
        → IsNormalizedText key_order text written
        → (MeansByDefault doubles written bson_value ↔ MeansByDefault doubles text bson_value) }
{}
