//! Binary search for a key in pairs that have no index, since their keys ascend.
ghost use Rattle.std.specs.Prelude.{◌≡◌, ◌≤◌, [], ◌∷◌, ◌++◌, Some, None, length, take};
ghost use Rattle.std.specs.Prelude.{IsTrue, false};
ghost use Rattle.bson_store.specs.AscendingKeys.{IsFirstKeyAbove};
ghost use Rattle.bson_store.specs.Pairs.{position_of, HasDistinctKeys};
ghost use Rattle.bson_store.specs.KeyIndex.{stored_pairs, HasAscendingKeys, HasNeededIndex};

use crate::key_index::MAX_UNINDEXED;
use crate::small::Pair;

// The position of the first key above the key, or the number of the pairs.
fn first_key_above<V>(pairs: &Vec<Pair<V>>, key: &str) -> usize
    requires { HasAscendingKeys (stored_pairs pairs.now.items) }
    ensures { IsFirstKeyAbove (Some key.now) (stored_pairs pairs.now.items) result }
{
    let mut low = 0;
    let mut high = pairs.len();
    'binary_search: while low < high {
        let middle = low + (high - low) / 2;
        if key.cmp(pairs[middle].key.as_str()).is_lt() {
            high = middle;
        } else {
            low = middle + 1;
        }
    }
    low
}

// The position of the key.
pub(crate) fn find_ascending<V>(pairs: &Vec<Pair<V>>, key: &str) -> Option<usize>
    requires distinct { HasDistinctKeys (stored_pairs pairs.now.items) }
    requires ascending { HasAscendingKeys (stored_pairs pairs.now.items) }
    ensures { result ≡ position_of key.now (stored_pairs pairs.now.items) }
{
    let position_above = first_key_above(pairs, key);
    if position_above == 0 {
        return None;
    }
    if key == pairs[position_above - 1].key.as_str() {
        return Some(position_above - 1);
    }
    None
}

// Whether the key is above the keys of the first `count` pairs, which ascend.
fn is_above_first_keys<V>(pairs: &Vec<Pair<V>>, count: usize, key: &str) -> bool
    requires within { count ≤ length (stored_pairs pairs.now.items) }
    requires ascending { HasAscendingKeys (take count (stored_pairs pairs.now.items)) }
    ensures { IsTrue result
        → (pushed_value : V)
        → HasAscendingKeys (take count (stored_pairs pairs.now.items) ++ (key.now, pushed_value) ∷ []) }
{
    if count == 0 {
        return true;
    }
    pairs[count - 1].key.as_str().cmp(key).is_lt()
}

// Whether the keys ascend.
pub(crate) fn has_ascending_keys<V>(pairs: &Vec<Pair<V>>) -> bool
    ensures { IsTrue result → HasAscendingKeys (stored_pairs pairs.now.items) }
{
    let mut count = 0;
    'pairs: while count < pairs.len()
        && is_above_first_keys(pairs, count, pairs[count].key.as_str())
    {
        count += 1;
    }
    count == pairs.len()
}

// Whether the pairs need no index once the key is pushed: there are few of them, or their keys
// ascend.
pub(crate) fn needs_no_index<V>(pairs: &Vec<Pair<V>>, key: &str) -> bool
    requires { HasNeededIndex (stored_pairs pairs.now.items) None }
    ensures yes { IsTrue result → (pushed_value : V)
        → HasNeededIndex (stored_pairs pairs.now.items ++ (key.now, pushed_value) ∷ []) None }
    ensures no { result ≡ false → 16 ≤ length (stored_pairs pairs.now.items) }
{
    if pairs.len() < MAX_UNINDEXED {
        return true;
    }
    if pairs.len() == MAX_UNINDEXED && !has_ascending_keys(pairs) {
        return false;
    }
    is_above_first_keys(pairs, pairs.len(), key)
}
