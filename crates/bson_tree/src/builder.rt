//! What is built of a tree as it is read.
ghost use Rattle.std.specs.Prelude.{◌≡◌, None, IfOk, OnOk, string_bytes};
ghost use Rattle.bson_scalar.specs.View.{scalar_view};
ghost use Rattle.bson_model.specs.Value as model;
ghost use Rattle.bson_model.specs.Value.{Values, Pairs, no_values, no_pairs, value_at_key, scalar, code_scope};
ghost use Rattle.bson_model.specs.Value.{array, document};
ghost use Rattle.bson_tree.specs.Built.{push_pair, push_value};

use bson_scalar::scalar::Scalar;
use std::alloc::{AllocError, Global};

/// Builds a value from its parts, each of which is built before what it is a part of.
///
/// ```
/// let tree = Value::from_slice(alloc, br#"[1, {"n": 2}]"#)?;
/// let read = read_tree::<Nothing>(alloc, Doubles::Special, tree)?;
/// println!(rt; "{}", read.is_ok())?; // true
/// ```
pub trait ValueBuilder {
    /// A value.
    type Value: Drop;
    /// The elements of an array, so far.
    type Items: Drop;
    /// The pairs of a document, so far.
    type Pairs: Drop;

    // What was built represents the value.
    ghost represents: { Self.Value → model.Value → Type 0 };

    // What was built represents these elements.
    ghost represents_items: { Self.Items → Values → Type 0 };

    // What was built represents these pairs.
    ghost represents_pairs: { Self.Pairs → Pairs → Type 0 };

    /// A value that holds no other.
    fn scalar(value: Scalar) -> Self::Value
        ensures { represents result (scalar (scalar_view value)) };

    /// No elements yet, with room for so many.
    fn items(alloc: Global, len: usize) -> Result<Self::Items, AllocError>
        ensures { IfOk result (λ items. represents_items items no_values) };

    /// Adds the next element.
    fn push(items: &mut Self::Items, value: Self::Value) -> Result<(), AllocError>
        ensures { OnOk result ((value_list : Values) (bson_value : model.Value) → represents_items items.old value_list
            → represents value bson_value
            → represents_items items.new (push_value value_list bson_value)) };

    /// The array of the elements.
    fn array(items: Self::Items) -> Self::Value
        ensures { (value_list : Values) → represents_items items value_list → represents result (array value_list) };

    /// No pairs yet, with room for so many.
    fn pairs(alloc: Global, len: usize) -> Result<Self::Pairs, AllocError>
        ensures { IfOk result (λ pairs. represents_pairs pairs no_pairs) };

    /// Adds the next pair, whose key is not there yet.
    fn put(pairs: &mut Self::Pairs, key: String, value: Self::Value) -> Result<(), AllocError>
        requires { (pair_list : Pairs) × represents_pairs pairs.old pair_list
            × (value_at_key (string_bytes key) pair_list ≡ None) }
        ensures { OnOk result ((pair_list : Pairs) (bson_value : model.Value) → represents_pairs pairs.old pair_list
            → represents value bson_value
            → represents_pairs pairs.new (push_pair pair_list (string_bytes key) bson_value)) };

    /// The document of the pairs.
    fn document(pairs: Self::Pairs) -> Self::Value
        ensures { (pair_list : Pairs) → represents_pairs pairs pair_list → represents result (document pair_list) };

    /// Code with the scope of the pairs.
    fn code(code: String, scope: Self::Pairs) -> Self::Value
        ensures { (pair_list : Pairs) → represents_pairs scope pair_list
            → represents result (code_scope (string_bytes code) pair_list) };
}

/// Builds nothing, where only the first fault is asked for.
///
/// ```
/// let tree = Value::from_slice(alloc, br#"{"n": [1.5]}"#)?;
/// if let Err(place) = read_tree::<Nothing>(alloc, Doubles::Special, tree)? {
///     println!(rt; "{}", place.path(alloc)?)?; // n.0
/// }
/// ```
pub struct Nothing;

impl ValueBuilder for Nothing {
    type Value = ();

    type Items = ();

    type Pairs = ();

    ghost use Rattle.std.specs.Prelude.{⊤};

    ghost represents = { λ built_value bson_value. ⊤ };

    ghost represents_items = { λ built_value value_list. ⊤ };

    ghost represents_pairs = { λ built_value pair_list. ⊤ };

    fn scalar(_value: Scalar) {}

    fn items(_alloc: Global, _len: usize) -> Result<(), AllocError> {
        Ok(())
    }

    fn push(_items: &mut (), _value: ()) -> Result<(), AllocError> {
        Ok(())
    }

    fn array(_items: ()) {}

    fn pairs(_alloc: Global, _len: usize) -> Result<(), AllocError> {
        Ok(())
    }

    fn put(_pairs: &mut (), _key: String, _value: ()) -> Result<(), AllocError> {
        Ok(())
    }

    fn document(_pairs: ()) {}

    fn code(_code: String, _scope: ()) {}
}
