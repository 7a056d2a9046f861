//! Keys that collide under the hasher of std's maps, and the order in which an index iterates over
//! its keys.
//!
//! tests/rows/many_keys.py makes the same keys, and inserts 100,000 of them into a document.
use bson::Bson;
use bson::store::{PairStore, SmallPairs};
use std::hash::{FoldHasher, Hash, Hasher};
use std::test::Fail;

/// Keys of one hash under the hasher that std's maps have, which starts from a fixed, public state.
/// The first 16 bytes lead it to a state that the next 8 undo, so that what comes after them is
/// multiplied by zero; the last 16 go in by themselves, and are alike.
const COLLIDING_KEYS: [&str; 4] = [
    "k000000000002398]rCpp7mg00000000TTTTTTTTTTTTTTTT",
    "k000000000002398]rCpp7mg00000001TTTTTTTTTTTTTTTT",
    "k000000000002398]rCpp7mg00001000TTTTTTTTTTTTTTTT",
    "k000000000002398]rCpp7mg0001869fTTTTTTTTTTTTTTTT",
];

/// Keys like these, whose hashes differ.
const ORDINARY_KEYS: [&str; 4] = [
    "k000000000002398]rCpp7mh00000000TTTTTTTTTTTTTTTT",
    "k000000000002398]rCpp7mh00000001TTTTTTTTTTTTTTTT",
    "k000000000002398]rCpp7mh00001000TTTTTTTTTTTTTTTT",
    "k000000000002398]rCpp7mh0001869fTTTTTTTTTTTTTTTT",
];

fn hash_in_a_map(key: &str) -> u64 {
    let mut hasher = FoldHasher::default();
    key.hash(&mut hasher);
    hasher.finish()
}

#[test]
fn chosen_keys_have_one_hash(rt: HostRuntime) -> Result<(), Fail> {
    for key_index in 1..4 {
        assert_eq!(rt;
            hash_in_a_map(COLLIDING_KEYS[key_index]),
            hash_in_a_map(COLLIDING_KEYS[0])
        );
        assert_ne!(rt;
            hash_in_a_map(ORDINARY_KEYS[key_index]),
            hash_in_a_map(ORDINARY_KEYS[0])
        );
    }
    Ok(())
}

const TWELVE_KEYS: [&str; 12] = ["l", "k", "j", "i", "h", "g", "f", "e", "d", "c", "b", "a"];

#[test]
fn an_index_gives_the_keys_in_ascending_order(rt: HostRuntime) -> Result<(), Fail> {
    let alloc = rt.alloc();
    let mut store: SmallPairs<Bson> = SmallPairs::new(alloc);
    for key in TWELVE_KEYS {
        let key = String::from_str(alloc, key)?;
        if store.find(key.as_str()).is_none() {
            drop(store.push(key, Bson::Null));
        }
    }
    assert_eq!(rt; store.len(), 12);
    assert!(rt;
        store
            .iter()
            .next()
            .is_some_and(|pair| pair.0.as_str() == "l")
    );
    let mut remaining_pairs = store.by_key();
    for reverse_index in 0..12 {
        let key = TWELVE_KEYS[11 - reverse_index];
        assert!(rt;
            remaining_pairs
                .next()
                .is_some_and(|pair| pair.0.as_str() == key)
        );
    }
    assert!(rt; remaining_pairs.next().is_none());
    Ok(())
}
