//! Whether keys are distinct.
ghost use Rattle.std.specs.Prelude.{◌≡◌, ◌↔◌, map, IfOk, IsTrue, IsSorted};
ghost use Rattle.std.specs.Cmp.Lexicographic.{slice_cmp};
ghost use Rattle.std.specs.Ordering.{nat_cmp};
ghost use Rattle.json.specs.Strict.{AreDistinct};
ghost use Rattle.bson_scalar.specs.KeyHash.{key_hash};

use bson_scalar::key_hash::{are_distinct_hashes, hash_key};
use std::alloc::{AllocError, Global};

// No more keys than this are compared in pairs.
const MAX_KEYS_COMPARED_IN_PAIRS: usize = 32;

/// Returns whether no two of the keys are equal. If there are many and they do not ascend, their
/// hashes are sorted, and the keys themselves only if two hashes are equal.
pub fn are_distinct(alloc: Global, keys: &mut [&str]) -> bool
    ensures { IsTrue result ↔ AreDistinct (map (λ member_key. member_key.now) keys.old) }
{
    if keys_ascend(keys) {
        return true;
    }
    if keys.len() <= MAX_KEYS_COMPARED_IN_PAIRS {
        return are_distinct_pairwise(keys);
    }
    if are_distinct_by_hashes(alloc, keys) {
        return true;
    }
    keys.sort_unstable();
    keys_ascend(keys)
}

// Each key is less than the next, by bytes.
fn keys_ascend(keys: &[&str]) -> bool
    ensures distinct { IsTrue result → AreDistinct (map (λ member_key. member_key.now) keys.now) }
    ensures sorted { IsSorted (λ first_key second_key. slice_cmp nat_cmp first_key.now second_key.now) keys.now
        → AreDistinct (map (λ member_key. member_key.now) keys.now)
        → IsTrue result }
{
    for next_index in 1..keys.len() {
        if !keys[next_index - 1].cmp(keys[next_index]).is_lt() {
            return false;
        }
    }
    true
}

fn are_distinct_pairwise(keys: &[&str]) -> bool
    ensures { IsTrue result ↔ AreDistinct (map (λ member_key. member_key.now) keys.now) }
{
    for key_index in 1..keys.len() {
        if keys[..key_index].contains(&keys[key_index]) {
            return false;
        }
    }
    true
}

// Returns whether no two keys have the same hash; false if an allocation fails.
fn are_distinct_by_hashes(alloc: Global, keys: &[&str]) -> bool
    ensures { IsTrue result → AreDistinct (map (λ member_key. member_key.now) keys.now) }
{
    match hashes_of(alloc, keys) {
        Ok(mut hashes) => are_distinct_hashes(hashes.as_mut_slice()),
        Err(_) => false,
    }
}

fn hashes_of(alloc: Global, keys: &[&str]) -> Result<Vec<u64>, AllocError>
    ensures { IfOk result (λ hashes. hashes.items ≡ map key_hash (map (λ member_key. member_key.now) keys.now)) }
{
    let mut hashes = Vec::with_capacity(alloc, keys.len())?;
    'keys: for key_index in 0..keys.len() {
        hashes.push(hash_key(keys[key_index]))?;
    }
    Ok(hashes)
}
