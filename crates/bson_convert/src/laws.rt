//! Laws of the definitions.
ghost use Rattle.std.specs.Prelude.{◌≡◌, ◌↔◌, ◌++◌, ℕ, List};
ghost use Rattle.serde_json.specs.Data.{Data};
ghost use Rattle.bson_model.specs.Normal.{normal_form};
ghost use Rattle.bson_model.specs.TextMeaning.{IsTextOf};
ghost use Rattle.bson_model.specs.declared.options.KeyOrder.{KeyOrder};
ghost use Rattle.bson_model.specs.declared.options.Options.{Options};
ghost use Rattle.bson_convert.specs.Convert.{ConvertsIn, IsAccepted, IsCanonicalText, newline};
ghost use Rattle.bson_convert.specs.InOrder.{ConvertsBy};
ghost use Rattle.bson_convert.specs.declared.mode.Mode.{Mode};
ghost use Rattle.bson_convert.specs.declared.mode.Mode.TheVariants.{Canonical};

/// Proves that values with one normal form have one canonical text. Conversion to the canonical
/// form gives it, followed by a newline, unless it nests deeper than a text may.
pub fn canonical_texts_are_one()
    ensures unique { (options : Options) (bytes other_bytes : List ℕ) (left_canonical : IsCanonicalText options bytes)
        (right_canonical : IsCanonicalText options other_bytes)
        → normal_form left_canonical.value ≡ normal_form right_canonical.value → bytes ≡ other_bytes }
    ensures given { (options : Options) (bytes text : List ℕ) (tree : Data)
        → ConvertsIn options Canonical bytes (text ++ newline) → IsTextOf text tree → IsCanonicalText options text }
{}

/// Proves that bytes are the text of a tree that means a value if and only if they have an output, in
/// each mode and in either order of keys.
pub fn accepted_texts_have_outputs()
    ensures { (key_order : KeyOrder) (options : Options) (mode : Mode) (bytes : List ℕ)
        → (IsAccepted options bytes ↔ ((output : List ℕ) × ConvertsBy key_order options mode bytes output)) }
{}
