//! Laws of the definitions.
ghost use Rattle.std.specs.Prelude.{◌≡◌, ◌↔◌, ℕ, List};
ghost use Rattle.json.specs.Json.{Json, Members, object};
ghost use Rattle.bson_scalar.specs.declared.form.Doubles.{Doubles};
ghost use Rattle.bson_model.specs.Value.{Value};
ghost use Rattle.bson_model.specs.OrderedTexts.{HasMeaningInOrder, MeansByDefault};
ghost use Rattle.bson_v1.specs.Upgraded.{upgraded, upgraded_object};
ghost use Rattle.bson_v1.specs.Text.{IsUpgradedText};
ghost use Rattle.bson_v1.specs.Version1.{IsNotVersion1, IsTextOfVersion2, IsVersion1, IsVersion2};

/// Proves that an object of a shape of v1 becomes the object of v2 that it denotes; every other
/// object keeps its keys; and a tree of v2 stays.
pub fn version_1_is_rewritten()
    ensures v1_object { (json_members : Members) (v2_value : Json) → IsVersion1 json_members v2_value
        → upgraded (object json_members) ≡ v2_value }
    ensures other_objects { (json_members : Members) → IsNotVersion1 json_members
        → upgraded (object json_members) ≡ object (upgraded_object json_members) }
    ensures v2_stays { (json_value : Json) → IsVersion2 json_value → upgraded json_value ≡ json_value }
{}

/// Proves that a text of v2 means what the text in its place means, in the order of its keys and by
/// default.
pub fn version_2_keeps_its_value()
    ensures in_order { (doubles : Doubles) (text written : List ℕ) (bson_value : Value) → IsUpgradedText text written
        → IsTextOfVersion2 text
        → (HasMeaningInOrder doubles written bson_value ↔ HasMeaningInOrder doubles text bson_value) }
    ensures by_default { (doubles : Doubles) (text written : List ℕ) (bson_value : Value) → IsUpgradedText text written
        → IsTextOfVersion2 text → (MeansByDefault doubles written bson_value ↔ MeansByDefault doubles text bson_value) }
{}
