//! Makes a store from pairs in ascending key order, without moving them.
ghost use Rattle.std.specs.Prelude.{◌≡◌, IsOk, IfOk, IfErr};
ghost use Rattle.bson_store.specs.KeyIndex.{stored_pairs, HasAscendingKeys};

use crate::small::{Pair, SmallPairs};

impl<V: Drop> SmallPairs<V> {
    /// Makes a store of the pairs in their own block of memory, and frees its unused room.
    ///
    /// # Errors
    ///
    /// Returns the pairs unchanged if a key is not above the key before it, compared by their
    /// bytes.
    pub fn try_from_ascending(mut pairs: Vec<Pair<V>>) -> Result<SmallPairs<V>, Vec<Pair<V>>>
        ensures ok { IfOk result (λ store. store ≡ stored_pairs pairs.items) }
        ensures ascending { IfOk result (λ _. HasAscendingKeys (stored_pairs pairs.items)) }
        ensures taken { HasAscendingKeys (stored_pairs pairs.items) → IsOk result }
        ensures refused { IfErr result (λ returned_pairs. returned_pairs ≡ pairs) }
    {
        if !pairs.is_sorted_by(|pair, next_pair| pair.key < next_pair.key) {
            return Err(pairs);
        }
        pairs.shrink_to_fit();
        Ok(SmallPairs {
            pairs,
            positions: None,
        })
    }
}
