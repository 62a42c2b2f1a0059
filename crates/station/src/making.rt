//! The datagrams that a station makes.

ghost use Rattle.std.specs.Prelude.{◌≡◌, ◌≤◌, ◌∷◌, [], ◌++◌, ℕ, List, length, option_to_list};
ghost use Rattle.std.specs.Prelude.{IfSome, OnErr};
ghost use Rattle.station.specs.Made.{AreMade, AreShort, IsWayIn, Puts};
ghost use Rattle.station.specs.Ways.{replying};
ghost use Rattle.station.specs.declared.output.Output.{Output as OutputValue};
ghost use Rattle.at_base.specs.Limits.{max_data};

use crate::output::Output;
use crate::way::Way;
use at_base::{Bytes, Error};
use std::alloc::Global;

/// No outputs yet.
#[tactic(auto, unfolding(crate::specs::Made::AreMade))]
pub fn nothing(alloc: Global) -> Vec<Output>
    ensures none { result.items ≡ [] }
    ensures good { (n : ℕ) → AreMade n result.items }
{
    Vec::new(alloc)
}

/// Adds the datagram with this data, if there is a way. The caller ensures that the data has at
/// most 586 bytes. Error: `Memory`; nothing changes then.
#[tactic(auto, unfolding(crate::specs::Made::AreMade))]
pub fn put(made: &mut Vec<Output>, way: &Option<Way>, payload: &[u8]) -> Result<(), Error>
    requires { length payload.now ≤ max_data }
    ensures puts { Puts 1 (replying way.now (payload.now ∷ [])) made.old.items made.new.items
        result }
    ensures good { (n : ℕ) → IsWayIn n way.now → AreMade n made.old.items → AreMade n made.new.items }
    ensures stays { OnErr result (made.new.items ≡ made.old.items) }
{
    match way {
        None => Ok(()),
        Some(way) => {
            let output = way.make(*made.allocator(), payload)?;
            made.push(output)?;
            Ok(())
        }
    }
}

/// Adds the datagrams with these data, one for each, if there is a way. Error: `Memory`; only the
/// first of the datagrams were added then.
fn put_each(made: &mut Vec<Output>, way: &Option<Way>, payloads: &[Bytes]) -> Result<(), Error>
    requires { AreShort payloads.now }
    ensures puts { Puts (length payloads.now) (replying way.now payloads.now) made.old.items made.new.items
        result }
    ensures good { (n : ℕ) → IsWayIn n way.now → AreMade n made.old.items → AreMade n made.new.items }
    ensures in_part { OnErr result
        ((first : List OutputValue) × (made.new.items ≡ made.old.items ++ first)) }
{
    match payloads {
        [] => Ok(()),
        [payload, rest @ ..] => {
            put(made, way, payload.as_slice())?;
            put_each(made, way, rest)
        }
    }
}

/// Adds the datagrams with these data, one for each, if there is a way. The caller ensures that
/// each has at most 586 bytes. Error: `Memory`; nothing changes then.
#[tactic(auto, unfolding(crate::specs::Made::AreMade))]
pub fn put_all(made: &mut Vec<Output>, way: &Option<Way>, payloads: &[Bytes]) -> Result<(), Error>
    requires { AreShort payloads.now }
    ensures puts { Puts (length payloads.now) (replying way.now payloads.now) made.old.items made.new.items
        result }
    ensures good { (n : ℕ) → IsWayIn n way.now → AreMade n made.old.items → AreMade n made.new.items }
    ensures stays { OnErr result (made.new.items ≡ made.old.items) }
{
    let before = made.len();
    let result = put_each(made, way, payloads);
    if result.is_err() {
        made.truncate(before);
    }
    result
}

/// Adds the datagram with this data, if there is data and a way. The caller ensures that the data
/// has at most 586 bytes. Error: `Memory`; nothing changes then.
pub fn put_one(
    made: &mut Vec<Output>,
    way: &Option<Way>,
    payload: &Option<Bytes>,
) -> Result<(), Error>
    requires { IfSome payload.now (λ bytes. length bytes ≤ max_data) }
    ensures puts { Puts 1 (replying way.now (option_to_list payload.now)) made.old.items made.new.items
        result }
    ensures good { (n : ℕ) → IsWayIn n way.now → AreMade n made.old.items → AreMade n made.new.items }
    ensures stays { OnErr result (made.new.items ≡ made.old.items) }
{
    match payload {
        Some(payload) => put(made, way, payload.as_slice()),
        None => Ok(()),
    }
}
