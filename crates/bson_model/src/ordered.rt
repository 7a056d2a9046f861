//! Laws of the definitions.
ghost use Rattle.std.specs.Prelude.{◌≡◌, ◌↔◌, ℕ, List, true, false, Some, Ok, option_map};
ghost use Rattle.json.specs.Json as json;
ghost use Rattle.serde_json.specs.Data.{Data, Members};
ghost use Rattle.serde_json.specs.Read.{read};
ghost use Rattle.bson_scalar.specs.TreeText.{HasNoFloatIn};
ghost use Rattle.bson_scalar.specs.declared.form.Doubles.{Doubles};
ghost use Rattle.bson_scalar.specs.declared.form.Doubles.TheVariants.{Special, Finite};
ghost use Rattle.bson_scalar.specs.declared.form.Form.{Form};
ghost use Rattle.bson_scalar.specs.declared.form.Form.TheVariants.{Canonical};
ghost use Rattle.bson_model.specs.Means.{MeansIn};
ghost use Rattle.bson_model.specs.Normal.{NumbersInRange, normal_form, plain, writable_in};
ghost use Rattle.bson_model.specs.Sorted.{sorted};
ghost use Rattle.bson_model.specs.Texts.{IsTree};
ghost use Rattle.bson_model.specs.Value.{Value};
ghost use Rattle.bson_model.specs.Written.{WrittenIn};
ghost use Rattle.bson_model.specs.DistinctKeys.{AllKeysDistinct};
ghost use Rattle.bson_model.specs.OrderedTrees.{members_of_json, read_in_order, tree_sorted_by_key, IsTreeInOrder};
ghost use Rattle.bson_model.specs.OrderedMeans.{MeansInOrder};
ghost use Rattle.bson_model.specs.DuplicateKeys.{HasFirstPositions};
ghost use Rattle.bson_model.specs.OrderedReading.{reads_tree_in_order};
ghost use Rattle.bson_model.specs.OrderedTexts.{TextReadsBackInOrder, HasMeaningInOrder, MeansByDefault};
ghost use Rattle.bson_model.specs.OrderedTexts.{IsOrderedTextOf, ValueRoundTripsInOrder};
ghost use Rattle.bson_model.specs.OrderedWriting.{writes_value_in_order};
ghost use Rattle.bson_model.specs.OrderedWritten.{WrittenInOrder};

/// Proves that the tree of a text, with its order forgotten, is `serde_json`'s. So the same texts
/// have one.
pub fn order_forgotten()
    ensures { (text : List ℕ) → read text ≡ option_map tree_sorted_by_key (read_in_order text) }
{}

/// Proves that a duplicate key of a text has its last value, at its first position.
pub fn first_positions_are_kept()
    ensures { (json_members : json.Members) (member_list : Members)
        → members_of_json json_members Members.no_members ≡ Some member_list
        → HasFirstPositions json_members member_list }
{}

/// Proves that a tree that was read from a text has its numbers in range and each key of an object
/// once.
pub fn texts_have_ordered_trees()
    ensures { (text : List ℕ) (json_tree : Data) → read_in_order text ≡ Some json_tree → IsTreeInOrder json_tree }
{}

/// Proves that the text that a mode of `Doubles` and a form give a tree, whatever the order of its
/// keys, is read as that tree again, order included, unless it nests deeper than texts may. No
/// other tree has this text. Except in the relaxed form of the mode `Finite`, which has the
/// shortest decimal of each of its floats, the tree has no float.
pub fn ordered_texts_read_back()
    ensures { (doubles : Doubles) (text_form : Form) (json_tree : Data) → HasNoFloatIn doubles text_form json_tree
        → IsTreeInOrder json_tree → TextReadsBackInOrder doubles text_form json_tree }
{}

/// Proves that a tree with each key once means at most one value in order.
pub fn ordered_trees_have_one_meaning()
    ensures { (doubles : Doubles) (json_tree : Data) (bson_value other_value : Value) → IsTreeInOrder json_tree
        → MeansInOrder doubles json_tree bson_value → MeansInOrder doubles json_tree other_value
        → bson_value ≡ other_value }
{}

/// Proves that a tree with each key once means a value in order if and only if reading it in order
/// returns that value.
pub fn ordered_reading_is_meaning()
    ensures { (doubles : Doubles) (json_tree : Data) (bson_value : Value) → IsTreeInOrder json_tree
        → ((reads_tree_in_order doubles json_tree ≡ Ok bson_value) ↔ MeansInOrder doubles json_tree bson_value) }
{}

/// Proves that a value that a tree means in order is, with the keys of each document in ascending
/// order, what the tree means with its order forgotten.
pub fn meaning_forgets_order()
    ensures { (doubles : Doubles) (json_tree : Data) (bson_value : Value) → MeansInOrder doubles json_tree bson_value
        → MeansIn doubles (tree_sorted_by_key json_tree) (sorted bson_value) }
{}

/// Proves that a tree with each key once that means a value with its order forgotten means it in
/// order too.
pub fn meaning_has_an_order()
    ensures { (doubles : Doubles) (json_tree : Data) (other_value : Value) → IsTreeInOrder json_tree
        → MeansIn doubles (tree_sorted_by_key json_tree) other_value
        → (bson_value : Value) × MeansInOrder doubles json_tree bson_value × (sorted bson_value ≡ other_value) }
{}

/// Proves that the meaning in order is the meaning by default if the keys of a tree ascend.
pub fn sorted_trees_mean_alike()
    ensures { (doubles : Doubles) (json_tree : Data) (bson_value : Value) → IsTree json_tree
        → (MeansInOrder doubles json_tree bson_value ↔ MeansIn doubles json_tree bson_value) }
{}

/// Proves that a text whose tree means a value in order means that value, and by default the same,
/// sorted.
pub fn ordered_texts_have_meaning()
    ensures { (doubles : Doubles) (text : List ℕ) (json_tree : Data) (bson_value : Value)
        → read_in_order text ≡ Some json_tree → MeansInOrder doubles json_tree bson_value
        → HasMeaningInOrder doubles text bson_value }
{}

/// Proves that a text that means a value by default means it in order too, so the same texts are
/// accepted.
pub fn accepted_in_either_order()
    ensures { (doubles : Doubles) (text : List ℕ) (other_value : Value) → MeansByDefault doubles text other_value
        → (bson_value : Value) × HasMeaningInOrder doubles text bson_value × (sorted bson_value ≡ other_value) }
{}

/// Proves that a value has a tree in its own order if and only if writing it in order returns that
/// tree.
pub fn ordered_writing_is_written()
    ensures { (doubles : Doubles) (text_form : Form) (bson_value : Value) (json_tree : Data)
        → ((writes_value_in_order doubles text_form bson_value ≡ Ok json_tree)
        ↔ WrittenInOrder doubles text_form (normal_form bson_value) json_tree) }
{}

/// Proves that a writable value has a tree in its own order in each form.
pub fn writable_has_ordered_tree()
    ensures { (doubles : Doubles) (text_form : Form) (bson_value : Value) → writable_in doubles bson_value ≡ true
        → (json_tree : Data) × WrittenInOrder doubles text_form (normal_form bson_value) json_tree }
{}

/// Proves that the tree of a value in its own order is, with the order forgotten, the tree by
/// default.
pub fn written_forgets_order()
    ensures { (doubles : Doubles) (text_form : Form) (bson_value : Value) (json_tree : Data)
        → WrittenInOrder doubles text_form (normal_form bson_value) json_tree → NumbersInRange bson_value
        → WrittenIn doubles text_form (normal_form bson_value) (tree_sorted_by_key json_tree) }
{}

/// Proves that the tree and text of a plain value in its own order are read as the very value in
/// normal form, as that form reads it. Two of these texts are equal if and only if the normal forms
/// are, order included.
pub fn ordered_texts()
    ensures { (doubles : Doubles) (text_form : Form) (bson_value : Value) (json_tree : Data)
        → WrittenInOrder doubles text_form (normal_form bson_value) json_tree → plain bson_value ≡ true
        → NumbersInRange bson_value → AllKeysDistinct bson_value
        → IsOrderedTextOf doubles text_form bson_value json_tree }
{}

/// Proves that the value of a text in order round-trips: it is written in both forms in that order,
/// and each text is read as exactly that value again.
pub fn ordered_values_round_trip()
    ensures { (doubles : Doubles) (text : List ℕ) (bson_value : Value) → HasMeaningInOrder doubles text bson_value
        → ValueRoundTripsInOrder doubles bson_value }
{}

/// Proves that every value in range has a tree in its own order in each form, in the mode `Finite`.
pub fn every_value_has_ordered_tree()
    ensures { (text_form : Form) (bson_value : Value) → NumbersInRange bson_value → (json_tree : Data)
        × WrittenInOrder Finite text_form (normal_form bson_value) json_tree }
{}

/// Proves that in the mode `Finite` a tree or a text means in order what it means in the mode
/// `Special`, and a canonical tree of a value in its own order is its tree in both modes.
pub fn finite_is_wider_for_ordered_trees()
    ensures finite_meaning { (json_tree : Data) (bson_value : Value) → MeansInOrder Special json_tree bson_value
        → MeansInOrder Finite json_tree bson_value }
    ensures finite_text_meaning { (text : List ℕ) (bson_value : Value) → HasMeaningInOrder Special text bson_value
        → HasMeaningInOrder Finite text bson_value }
    ensures finite_writing { (bson_value : Value) (json_tree : Data)
        → WrittenInOrder Special Canonical bson_value json_tree
        → WrittenInOrder Finite Canonical bson_value json_tree }
{}
