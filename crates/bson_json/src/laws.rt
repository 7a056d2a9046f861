//! Laws of the grammar.
ghost use Rattle.std.specs.Prelude.{◌≡◌, ◌≤◌, ◌↔◌, ◌++◌, [], ◌∷◌, ℕ, List, Some};
ghost use Rattle.std.specs.List.{AllByRecursion};
ghost use Rattle.std.specs.Str.{IsUtf8, encode_utf8_all};
ghost use Rattle.json.specs.Json.{Json, value};
ghost use Rattle.json.specs.Lex.{tokens};
ghost use Rattle.json.specs.Text.{content, plain};
ghost use Rattle.json.specs.Tree.{depth};
ghost use Rattle.json.specs.Word.{after_number};
ghost use Rattle.serde_json.specs.Data.{Data};
ghost use Rattle.serde_json.specs.Read.{read, max_depth};
ghost use Rattle.bson_scalar.specs.declared.form.Doubles.{Doubles};
ghost use Rattle.bson_model.specs.Laws.{HasMeaningIn};
ghost use Rattle.bson_model.specs.Value.{Value};
ghost use Rattle.bson_model.specs.OrderedTexts.{MeansByDefault};
ghost use Rattle.bson_tokens.specs.DuplicateKeys.{json_of};
ghost use Rattle.bson_json.specs.Characters.{IsUnescapedCharacter};
ghost use Rattle.bson_json.specs.Corners.{AcceptedCorners, RejectedCorners};
ghost use Rattle.bson_json.specs.Sequence.{AreElements, AreTexts, texts_in};
ghost use Rattle.bson_json.specs.declared.sequence.Separator.TheVariants.{Comma, WhiteSpace};
ghost use Rattle.bson_json.specs.Grammar.{AreChars, IsJson, IsJsonOf, IsNumber, IsUnescaped};

/// Proves that the kit's reader finds a value in a text if and only if the grammar gives the text
/// that value, and it nests at most 127 deep. The same holds for every other bound. Each text has
/// at most one value.
pub fn reading_is_the_grammar()
    ensures value_is_read { (text : List ℕ) (json_value : Json)
        → (json_of text ≡ Some json_value) ↔ (IsJson text json_value × (depth json_value ≤ max_depth)) }
    ensures value_within_depth { (limit : ℕ) (text : List ℕ) (json_value : Json)
        → (value limit (tokens text) ≡ Some (json_value, [])) ↔ (IsJson text json_value × (depth json_value ≤ limit)) }
    ensures one_value { (text : List ℕ) (json_value other_value : Json) → IsJson text json_value
        → IsJson text other_value
        → json_value ≡ other_value }
{}

/// Proves that `serde_json` reads a tree of a text if and only if the grammar gives the text a
/// value with that tree. A text means the values that this tree means.
pub fn texts_mean_by_the_grammar()
    ensures tree_is_read { (text : List ℕ) (json_tree : Data) → (read text ≡ Some json_tree) ↔ IsJsonOf text json_tree }
    ensures text_meaning { (doubles : Doubles) (text : List ℕ) (bson_value : Value)
        → MeansByDefault doubles text bson_value
        ↔ ((json_tree : Data) × IsJsonOf text json_tree × HasMeaningIn doubles json_tree bson_value) }
{}

/// Proves that the kit's reader of numbers reads all of a text if and only if the grammar has this
/// number. Its reader of strings reads bytes after a quotation mark if and only if chars that
/// denote them come first, and then a quotation mark.
pub fn parts_are_the_grammar()
    ensures numbers { (text : List ℕ) → (after_number text ≡ Some []) ↔ IsNumber text }
    ensures strings { (following_bytes bytes : List ℕ) → (content plain following_bytes ≡ Some bytes)
        ↔ ((text : List ℕ) × (later_bytes : List ℕ) × (following_bytes ≡ text ++ 0x22 ∷ later_bytes)
        × AreChars text bytes) }
{}

/// Proves that a text in UTF-8 has unescaped bytes alone if and only if it is the UTF-8 of
/// characters that RFC 8259 lets a string have unescaped.
pub fn unescaped_is_by_character()
    ensures { (text : List ℕ) → (IsUtf8 text × AllByRecursion IsUnescaped text)
        ↔ ((code_points : List ℕ) × AllByRecursion IsUnescapedCharacter code_points
        × (encode_utf8_all code_points ≡ text)) }
{}

/// Proves which texts at the edges of the grammar have a value, and which have none.
pub fn corner_cases()
    ensures accepts { AcceptedCorners }
    ensures refuses { RejectedCorners }
{}

/// Proves that bytes are a sequence of JSON texts if and only if each text that is found in them is
/// JSON. The sequence has the texts that are found, and no others.
pub fn sequences_have_one_reading()
    ensures are_texts { (content : List ℕ)
        → AllByRecursion (λ text. (json_value : Json) × IsJson text json_value) (texts_in WhiteSpace content)
        → AreTexts content (texts_in WhiteSpace content) }
    ensures all_texts_found { (content : List ℕ) (text_list : List (List ℕ)) → AreTexts content text_list
        → texts_in WhiteSpace content ≡ text_list }
    ensures one_sequence { (content : List ℕ) (text_list other_list : List (List ℕ)) → AreTexts content text_list
        → AreTexts content other_list → text_list ≡ other_list }
{}

/// Proves that bytes are the elements of an array, with commas between them, if and only if each part
/// between the commas is JSON. The array has these elements, and no others.
pub fn arrays_have_one_reading()
    ensures are_elements { (content : List ℕ)
        → AllByRecursion (λ text. (json_value : Json) × IsJson text json_value) (texts_in Comma content)
        → AreElements content (texts_in Comma content) }
    ensures all_elements_found { (content : List ℕ) (text_list : List (List ℕ)) → AreElements content text_list
        → texts_in Comma content ≡ text_list }
{}
