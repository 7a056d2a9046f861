//! The state of a store after a failed allocation. Each test runs on both stores.
use bson::store::{Command, IndexedPairs, Pair, PairStore, SmallPairs, Stopped, replay};
use bson_store::by_key::{put, take};
use std::alloc::{AllocError, Global};
use std::process::Abort;
use std::test::Fail;

const PAIRS: [(&str, u32); 20] = [
    ("k1", 1),
    ("k2", 2),
    ("k3", 3),
    ("k4", 4),
    ("k5", 5),
    ("k6", 6),
    ("k7", 7),
    ("k8", 8),
    ("k9", 9),
    ("k10", 10),
    ("k11", 11),
    ("k12", 12),
    ("k13", 13),
    ("k14", 14),
    ("k15", 15),
    ("k16", 16),
    ("k17", 17),
    ("k18", 18),
    ("k19", 19),
    ("k20", 20),
];

/// Returns whether the store has exactly these pairs in this order, and finds each key at its index.
fn has_exactly<S: PairStore<u32>>(store: &S, pairs: &[(&str, u32)]) -> bool {
    let mut all_equal = store.len() == pairs.len();
    for pair_index in 0..store.len().min(pairs.len()) {
        let (key, value) = pairs[pair_index];
        all_equal = all_equal
            && store.key_at(pair_index).as_str() == key
            && *store.value_at(pair_index) == value;
        all_equal = all_equal && store.find(key) == Some(pair_index);
    }
    all_equal
}

fn fill_store<S: PairStore<u32>>(
    alloc: Global,
    store: &mut S,
    pairs: &[(&str, u32)],
) -> Result<(), AllocError> {
    for &(key, value) in pairs {
        if put(store, String::from_str(alloc, key)?, value).is_err() {
            return Err(AllocError);
        }
    }
    Ok(())
}

/// A failed push returns the pair and leaves the store unchanged; the same pair is then pushed again.
fn check_pushes<S: PairStore<u32>>(
    rt: &impl Abort,
    alloc: Global,
    store: &mut S,
) -> Result<(), Fail> {
    let mut was_refused = false;
    for pair_index in 0..PAIRS.len() {
        let (key, value) = PAIRS[pair_index];
        let owned_key = String::from_str(alloc, key)?;
        assert!(rt; store.find(owned_key.as_str()).is_none());
        if let Err((returned_key, returned_value)) = store.push(owned_key, value) {
            was_refused = true;
            assert!(rt; returned_key.as_str() == key && returned_value == value);
            assert!(rt; has_exactly(store, &PAIRS[..pair_index]));
            assert!(rt; store.find(returned_key.as_str()).is_none());
            assert!(rt; store.push(returned_key, returned_value).is_ok());
        }
        assert!(rt; has_exactly(store, &PAIRS[..pair_index + 1]));
    }
    if was_refused {
        Err(Fail::from(AllocError))
    } else {
        Ok(())
    }
}

#[test]
fn refused_push(rt: HostRuntime) -> Result<(), Fail> {
    let alloc = rt.alloc();
    check_pushes(&rt, alloc, &mut IndexedPairs::new(alloc))?;
    check_pushes(&rt, alloc, &mut IndexedPairs::with_capacity(alloc, 9)?)
}

#[test]
fn refused_push_to_a_small_store(rt: HostRuntime) -> Result<(), Fail> {
    let alloc = rt.alloc();
    check_pushes(&rt, alloc, &mut SmallPairs::new(alloc))?;
    check_pushes(&rt, alloc, &mut SmallPairs::with_capacity(alloc, 9)?)
}

/// The first nineteen pairs.
fn nineteen_pairs(alloc: Global) -> Result<Vec<Pair<u32>>, AllocError> {
    let mut first_pairs = Vec::new(alloc);
    for &(key, value) in &PAIRS[..19] {
        let key = String::from_str(alloc, key)?;
        first_pairs.push(Pair { key, value })?;
    }
    Ok(first_pairs)
}

/// Entries whose keys don't ascend are found by their sorted indexes. A failed insertion returns the pair
/// and leaves them unchanged; two keys are then removed, which allocates no memory.
#[test]
fn refused_from_entries(rt: HostRuntime) -> Result<(), Fail> {
    let alloc = rt.alloc();
    let mut store = SmallPairs::from_entries(alloc, nineteen_pairs(alloc)?)?;
    assert!(rt; has_exactly(&store, &PAIRS[..19]));
    let (key, value) = PAIRS[19];
    if let Err((returned_key, returned_value)) = put(
        &mut store,
        String::from_str(alloc, key)?,
        value,
    ) {
        assert!(rt; returned_key.as_str() == key && returned_value == value);
        assert!(rt; has_exactly(&store, &PAIRS[..19]));
        for pair_index in 0..2 {
            assert!(rt; take(&mut store, PAIRS[pair_index].0) == Some(PAIRS[pair_index].1));
            assert!(rt; has_exactly(&store, &PAIRS[pair_index + 1..19]));
        }
        return Err(Fail::from(AllocError));
    }
    assert!(rt; has_exactly(&store, &PAIRS));
    Ok(())
}

/// Nine keys are removed one by one, the rest is cleared, and none of it allocates memory.
fn check_removals<S: PairStore<u32>>(
    rt: &impl Abort,
    alloc: Global,
    store: &mut S,
) -> Result<(), Fail> {
    fill_store(alloc, store, &PAIRS)?;
    for pair_index in 0..9 {
        let (key, value) = PAIRS[pair_index];
        assert!(rt; take(store, key) == Some(value));
        assert!(rt; has_exactly(store, &PAIRS[pair_index + 1..]));
    }
    store.clear();
    assert!(rt; has_exactly(store, &[]));
    Ok(())
}

#[test]
fn refused_no_allocation_in_removals(rt: HostRuntime) -> Result<(), Fail> {
    let alloc = rt.alloc();
    check_removals(&rt, alloc, &mut IndexedPairs::new(alloc))?;
    check_removals(&rt, alloc, &mut SmallPairs::new(alloc))
}

/// Put k1 1 to k17 17, Put k9 10, Take k1 twice, Clear.
fn commands(alloc: Global) -> Result<Vec<Command<u32>>, AllocError> {
    let mut command_list = Vec::new(alloc);
    for &(key, value) in &PAIRS[..17] {
        command_list.push(Command::Put(String::from_str(alloc, key)?, value))?;
    }
    command_list.push(Command::Put(String::from_str(alloc, "k9")?, 10))?;
    command_list.push(Command::Take(String::from_str(alloc, "k1")?))?;
    command_list.push(Command::Take(String::from_str(alloc, "k1")?))?;
    command_list.push(Command::Clear)?;
    Ok(command_list)
}

const REPLIES: [Option<u32>; 21] = [
    None,
    None,
    None,
    None,
    None,
    None,
    None,
    None,
    None,
    None,
    None,
    None,
    None,
    None,
    None,
    None,
    None,
    Some(9),
    Some(1),
    None,
    None,
];

/// A stopped replay leaves the store as it is after the first `done` commands. From the
/// eighteenth on, no command allocates memory.
fn check_replay<S: PairStore<u32>>(
    rt: &impl Abort,
    alloc: Global,
    store: &mut S,
) -> Result<(), Fail> {
    match replay(alloc, store, commands(alloc)?) {
        Ok(replies) => {
            assert!(rt; replies.as_slice() == REPLIES.as_slice());
            assert!(rt; has_exactly(store, &[]));
            Ok(())
        }
        Err(Stopped { done }) => {
            assert!(rt; done < 17);
            assert!(rt; has_exactly(store, &PAIRS[..done]));
            Err(Fail::from(AllocError))
        }
    }
}

#[test]
fn refused_replay(rt: HostRuntime) -> Result<(), Fail> {
    let alloc = rt.alloc();
    check_replay(&rt, alloc, &mut IndexedPairs::new(alloc))?;
    check_replay(&rt, alloc, &mut SmallPairs::new(alloc))
}

#[test]
fn pairs_by_value_keep_their_order(rt: HostRuntime) -> Result<(), Fail> {
    let alloc = rt.alloc();
    let mut indexed_store = IndexedPairs::new(alloc);
    let mut small_store = SmallPairs::new(alloc);
    fill_store(indexed_store.allocator(), &mut indexed_store, &PAIRS)?;
    fill_store(small_store.allocator(), &mut small_store, &PAIRS)?;
    let mut small_pairs = small_store.into_pairs();
    let mut expected_pairs = PAIRS.iter();
    for (key, value) in indexed_store.into_pairs() {
        assert!(rt; expected_pairs.next() == Some(&(key.as_str(), value)));
        assert!(rt; small_pairs.next() == Some((key, value)));
    }
    assert!(rt; expected_pairs.next().is_none());
    assert!(rt; small_pairs.next().is_none());
    Ok(())
}
