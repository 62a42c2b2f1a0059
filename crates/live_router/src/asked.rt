//! The queries for zone lists that a router sends.

ghost use Rattle.std.specs.Prelude.{◌≡◌, ◌<◌, ◌≤◌, ◌∷◌, [], ℕ, length};
ghost use Rattle.std.specs.Prelude.{IfOk, IsOkUnless, None, Some};
ghost use Rattle.at_base.specs.Spelling.{bytes_of};
ghost use Rattle.live_router.specs.Ticking.{all_queries, query_from};
ghost use Rattle.router.specs.Holding as holding_spec;
ghost use Rattle.station.specs.Made.{AreMade, Puts};
ghost use Rattle.zip_zones.specs.Formats as formats_spec;
ghost use Rattle.zip_zones.specs.declared.packet.Packet.TheVariants.{Query as QueryPacket};
ghost use Rattle.at_base.specs.Limits.{max_data};

use crate::sent::header_of;
use aarp::Chooser;
use at_base::{Addr, Bytes, Error};
use ddp::{kind, socket};
use learning::Query;
use router::own_at;
use station::making::put;
use station::{Next, Output, Way};
use std::alloc::Global;
use zip_zones::write_query;

/// The bytes of the query about the range that begins with this network. Error: `Memory`.
fn query_bytes(alloc: Global, start: u16) -> Result<Bytes, Error>
    ensures ok { IfOk result
        (λ bytes. bytes ≡ bytes_of formats_spec.packet (QueryPacket (start ∷ []))) }
    ensures short { IfOk result (λ bytes. length bytes ≤ max_data) }
    ensures refused { IsOkUnless result Error.Memory }
{
    match write_query(alloc, &[start]) {
        Ok(bytes) => Ok(bytes),
        Err(_) => Err(Error::Memory),
    }
}

/// Adds a query with this source address, which is that of the query's port. Error: `Memory`.
fn put_query_from(made: &mut Vec<Output>, me: Addr, query: &Query) -> Result<(), Error>
    ensures puts { Puts 1 (query_from (Some me) query.now)
        made.old.items made.new.items result }
    ensures good { (n : ℕ) → query.now.port < n → AreMade n made.old.items
        → AreMade n made.new.items }
{
    let payload = query_bytes(*made.allocator(), query.start)?;
    let way = Way {
        port: query.port,
        next: Next::Station(query.next),
        header: header_of(me, query.next, socket::ZIP, kind::ZIP),
    };
    put(made, &Some(way), payload.as_slice())
}

/// Adds a query on its port, if that is settled. Error: `Memory`.
fn put_query(made: &mut Vec<Output>, ports: &[Chooser], query: &Query) -> Result<(), Error>
    ensures puts { Puts 1 (query_from (holding_spec.own_at ports.now query.now.port) query.now)
        made.old.items made.new.items result }
    ensures good { (n : ℕ) → length ports.now ≤ n → AreMade n made.old.items
        → AreMade n made.new.items }
{
    match own_at(ports, query.port) {
        Some(me) => put_query_from(made, me, query),
        None => Ok(()),
    }
}

/// Adds the queries whose ports are settled, each on its port. Error: `Memory`.
pub(crate) fn put_queries(
    made: &mut Vec<Output>,
    ports: &[Chooser],
    queries: &[Query],
) -> Result<(), Error>
    ensures puts { Puts (length queries.now) (all_queries ports.now queries.now)
        made.old.items made.new.items result }
    ensures good { (n : ℕ) → length ports.now ≤ n → AreMade n made.old.items
        → AreMade n made.new.items }
{
    match queries {
        [] => Ok(()),
        [query, rest @ ..] => {
            put_query(made, ports, query)?;
            put_queries(made, ports, rest)
        }
    }
}
