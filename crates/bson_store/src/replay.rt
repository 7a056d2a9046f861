//! Commands to any store, one after another.
ghost use Rattle.std.specs.Prelude.{◌≡◌, ◌<◌, IfOk, IfErr, OnErr, length, take};
ghost use Rattle.bson_store.specs.Replay.{reply, list_after_command, replies, list_after_commands};

use crate::by_key;
use crate::pair_store::PairStore;
use std::alloc::Global;
use thiserror::Error;

/// A call to a store.
///
/// ```
/// let mut commands = Vec::new(alloc);
/// commands.push(Command::Put(String::from_str(alloc, "a")?, 1))?;
/// commands.push(Command::Take(String::from_str(alloc, "a")?))?;
/// let mut pairs: SmallPairs<u32> = SmallPairs::new(alloc);
/// println!(rt; "{:?}", replay(alloc, &mut pairs, commands)?)?; // [None, Some(1)]
/// ```
#[derive(Drop)]
pub enum Command<V> {
    /// Inserts the value at the key. The reply is the old value.
    Put(String, V),
    /// Removes the pair of the key. The reply is its value.
    Take(String),
    /// Removes every pair. The reply is `None`.
    Clear,
}

/// Out of memory in `replay`: the first `done` commands were run, and no other.
///
/// ```
/// println!(rt; "{}", Stopped { done: 3 })?; // out of memory after 3 commands
/// ```
#[derive(Debug, Drop, PartialEq, Eq, Error)]
#[error("out of memory after {done} commands")]
pub struct Stopped {
    pub done: usize,
}

fn run_command<V: Drop, S: PairStore<V>>(
    store: &mut S,
    command: Command<V>,
) -> Result<Option<V>, (String, V)>
    ensures ok { IfOk result (λ command_reply. (command_reply ≡ reply command (S.pairs store.old))
        × (S.pairs store.new ≡ list_after_command command (S.pairs store.old))) }
    ensures err { OnErr result (S.pairs store.new ≡ S.pairs store.old) }
{
    match command {
        Command::Put(key, value) => by_key::put(store, key, value),
        Command::Take(key) => Ok(by_key::take(store, key.as_str())),
        Command::Clear => {
            store.clear();
            Ok(None)
        }
    }
}

/// Runs the commands one after another, and returns their replies in the same order.
///
/// # Errors
///
/// Returns `Stopped` if a request for memory is refused, for the replies or for a new key. The
/// store is then as it is after the first `done` commands.
pub fn replay<V: Drop, S: PairStore<V>>(
    alloc: Global,
    store: &mut S,
    commands: Vec<Command<V>>,
) -> Result<Vec<Option<V>>, Stopped>
    ensures ok { IfOk result (λ all_replies. (all_replies.items ≡ replies commands.items (S.pairs store.old))
        × (S.pairs store.new ≡ list_after_commands commands.items (S.pairs store.old))) }

    // Out of memory.
    ensures err { IfErr result
        (λ stopped. S.pairs store.new ≡ list_after_commands (take stopped.done commands.items) (S.pairs store.old)) }
    ensures within { IfErr result (λ stopped. stopped.done < length commands.items) }
{
    let mut reply_list = Vec::new(alloc);
    if reply_list.reserve(commands.len()).is_err() {
        return Err(Stopped { done: 0 });
    }
    for command in commands {
        let done = reply_list.len();
        match run_command(store, command) {
            Err(_) => return Err(Stopped { done }),
            Ok(reply) => match reply_list.push(reply) {
                Ok(()) => {}
                Err(_) => unreachable!(),
            },
        }
    }
    Ok(reply_list)
}
