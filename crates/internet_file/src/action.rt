//! The actions of nodes.

ghost use Rattle.std.specs.Prelude.{◌≡◌, IfOk, IsOkUnless, is_some};
ghost use Rattle.std.specs.Result.{result_ok};
ghost use Rattle.toml.specs.Data.{as_str};
ghost use Rattle.toml.specs.View.{table_view};
ghost use Rattle.at_base.specs.Text.{same_bytes};
ghost use Rattle.text.specs.Words.{given};
ghost use Rattle.internet_file.specs.Actions.{action_of, doing, looking_up, sending};
ghost use Rattle.file_entries.specs.Entries.{at};
ghost use Rattle.file_entries.specs.Faults.{noted, spot};
ghost use Rattle.file_entries.specs.Values as spec;

use crate::node::Node;
use at_base::{Addr, Bytes, Error, Text32};
use file_entries::bytes::hex;
use file_entries::entries::Reader;
use file_entries::fields::{address_at, byte_at, number_at, one_at, short_at};
use file_entries::key::{get, only, table, value_at};
use file_entries::value::text;
use file_entries::{Faults, Place, Why, Words};
use std::alloc::Global;
use toml::{Table, Value};

/// An operation of a node.
#[derive(Debug, Drop)]
pub enum Do {
    /// Sends a datagram without a checksum.
    Send {
        /// The target: any network, and any node.
        to: Addr,
        /// The target socket.
        socket: u8,
        /// The source socket.
        source: u8,
        /// The type of the datagram.
        kind: u8,
        /// The data. It may be longer than a datagram can carry.
        hex: Bytes,
    },
    /// Asks for the names that match.
    Lookup {
        /// The ID that replies repeat; its low byte is sent.
        id: u16,
        /// The object, 1 to 32 bytes.
        object: Text32,
        /// The type, 1 to 32 bytes.
        kind: Text32,
        /// The zone, at most 32 bytes.
        zone: Text32,
    },
}

/// An action of a node.
#[derive(Debug, Drop)]
pub struct Action {
    /// The tick in which it happens, from 1.
    pub at: u32,
    /// The number of the node, from 1.
    pub node: u16,
    /// The operation.
    pub action: Do,
}

/// The bytes at the key. Error: `Memory`.
fn hex_at(alloc: Global, table: &Table, key: &str) -> Result<Result<Bytes, Why>, Error>
    ensures read { IfOk result (λ x. result_ok x ≡ at key.now spec.hex (table_view table.now)) }
    ensures refused { IsOkUnless result Error.Memory }
{
    match get(table, key) {
        Some(value) => hex(alloc, value),
        None => Ok(Err(Why::Missing)),
    }
}

/// The datagram in an entry. Error: `Memory`.
#[tactic(auto, using(file_entries::proofs::Notes::noted_again))]
fn send(
    alloc: Global,
    place: &Place,
    table: &Table,
    faults: &mut Faults,
) -> Result<Option<Do>, Error>
    ensures read { IfOk result (λ x. x ≡ sending (table_view table.now)) }
    ensures told { IfOk result (λ x. faults.new ≡ noted (spot place.now) (is_some x) faults.old) }
    ensures refused { IsOkUnless result Error.Memory }
{
    let to = faults.take(place, "to", address_at(table, "to"));
    let socket = faults.take(place, "socket", byte_at(table, "socket"));
    let source = faults.take(place, "source", byte_at(table, "source"));
    let kind = faults.take(place, "type", byte_at(table, "type"));
    let hex = faults.take(place, "hex", hex_at(alloc, table, "hex")?);
    match (to, socket, source, kind, hex) {
        (Some(to), Some(socket), Some(source), Some(kind), Some(hex)) => Ok(Some(Do::Send {
            to,
            socket,
            source,
            kind,
            hex,
        })),
        _ => Ok(None),
    }
}

/// The lookup in an entry.
fn lookup(place: &Place, table: &Table, faults: &mut Faults) -> Option<Do>
    ensures value { result ≡ looking_up (table_view table.now) }
    ensures told { faults.new ≡ noted (spot place.now) (is_some result) faults.old }
{
    let id = faults.take(place, "id", number_at(table, "id", 0, 65535));
    let object = faults.take(place, "object", short_at(table, "object", 1));
    let kind = faults.take(place, "type", short_at(table, "type", 1));
    let zone = faults.take(place, "zone", short_at(table, "zone", 0));
    match (id, object, kind, zone) {
        (Some(id), Some(object), Some(kind), Some(zone)) => Some(Do::Lookup {
            id: id as u16,
            object,
            kind,
            zone,
        }),
        _ => None,
    }
}

fn is_word(word: &[u8], other: &[u8]) -> bool
    ensures { result ≡ same_bytes word.now other.now }
{
    word == other
}

/// The operation that the word names. Error: `Memory`.
fn done(
    alloc: Global,
    place: &Place,
    table: &Table,
    word: &[u8],
    faults: &mut Faults,
) -> Result<Option<Do>, Error>
    ensures read { IfOk result (λ x. x ≡ doing (table_view table.now) word.now) }
    ensures told { IfOk result (λ x. faults.new ≡ noted (spot place.now) (is_some x) faults.old) }
    ensures refused { IsOkUnless result Error.Memory }
{
    if is_word(word, b"send") {
        let named = ["at", "node", "do", "to", "socket", "source", "type", "hex"];
        let only = only(&named, place, table, faults);
        let sent = send(alloc, place, table, faults)?;
        if only { Ok(sent) } else { Ok(None) }
    } else if is_word(word, b"lookup") {
        let named = ["at", "node", "do", "id", "object", "type", "zone"];
        let only = only(&named, place, table, faults);
        let asked = lookup(place, table, faults);
        if only { Ok(asked) } else { Ok(None) }
    } else {
        let words = Words::Actions;
        faults.note(&place.at("do"), Why::NoWord { words });
        Ok(None)
    }
}

/// The operation in an action's entry. Error: `Memory`.
fn do_at(
    alloc: Global,
    place: &Place,
    table: &Table,
    key: &str,
    faults: &mut Faults,
) -> Result<Option<Do>, Error>
    ensures read { IfOk result (λ x.
        x ≡ given (at key.now as_str (table_view table.now)) (doing (table_view table.now))) }
    ensures told { IfOk result (λ x. faults.new ≡ noted (spot place.now) (is_some x) faults.old) }
    ensures refused { IsOkUnless result Error.Memory }
{
    let Some(value) = value_at(place, table, key, faults) else {
        return Ok(None);
    };
    match text(value) {
        Ok(word) => done(alloc, place, table, word, faults),
        Err(why) => {
            faults.note(&place.at(key), why);
            Ok(None)
        }
    }
}

/// Reads actions of these nodes, in a file with this many ticks.
#[derive(Clone, Copy)]
pub(crate) struct Actions<'a> {
    pub(crate) ticks: u32,
    pub(crate) nodes: &'a [Node],
}

impl<'a> Reader for Actions<'a> {
    type Entry = Action;

    ghost meaning = { λ r _ d. action_of r.ticks r.nodes.now d };

    fn read_one(
        &self,
        alloc: Global,
        place: &Place,
        _number: usize,
        value: &Value,
        faults: &mut Faults,
    ) -> Result<Option<Action>, Error> {
        let Some(table) = table(place, value, faults) else {
            return Ok(None);
        };
        let at = faults.take(place, "at", number_at(table, "at", 1, self.ticks));
        let node = faults.take(place, "node", one_at(table, "node", self.nodes));
        match (at, node, do_at(alloc, place, table, "do", faults)?) {
            (Some(at), Some(node), Some(action)) => Ok(Some(Action { at, node, action })),
            _ => Ok(None),
        }
    }
}
