//! Hardware addresses that are made up where a file gives none.

ghost use Rattle.std.specs.Prelude.{◌≡◌, ◌+◌, ◌≤◌, map};
ghost use Rattle.std.specs.List.{list_any};
ghost use Rattle.toml.specs.View.{table_view, view};
ghost use Rattle.tables_file.specs.Marks as spec;

use at_base::Hw;
use file_entries::fields::hardware_at;
use file_entries::key::entries_at;
use toml::{Table, Value};

/// A hardware address that is made up: 2, the mark, a kind of station, and two numbers of it.
pub(crate) fn made_up(mark: u16, kind: u8, one: usize, two: usize) -> Hw
    ensures { result ≡ spec.made_up mark kind one two }
{
    let (high, low) = ((mark / 256) as u8, (mark % 256) as u8);
    Hw([2, high, low, kind, (one % 256) as u8, (two % 256) as u8])
}

/// Whether the bytes begin with 2 and the mark.
fn begins_with(mark: u16, bytes: &[u8]) -> bool
    ensures { result ≡ spec.begins_with mark bytes.now }
{
    match bytes {
        [two, high, low, ..] => {
            *two == 2 && u16::from(*high) == mark / 256 && u16::from(*low) == mark % 256
        }
        _ => false,
    }
}

/// Whether the hardware address, if there is one, begins with 2 and the mark.
fn bears(mark: u16, hardware: Option<Hw>) -> bool
    ensures { result ≡ spec.bears mark hardware }
{
    match hardware {
        Some(hardware) => begins_with(mark, hardware.as_slice()),
        None => false,
    }
}

/// The hardware address that the entry of a port or a node gives.
fn given_in(value: &Value) -> Option<Hw>
    ensures { result ≡ spec.given_in (view value.now) }
{
    hardware_at(value.as_table()?, "hardware").ok()
}

/// Whether the entry of a port or a node gives a hardware address that begins with 2 and the mark.
fn gives(mark: u16, value: &Value) -> bool
    ensures { result ≡ spec.gives mark (view value.now) }
{
    bears(mark, given_in(value))
}

/// Whether one of these entries does.
fn one_gives(mark: u16, values: &[Value]) -> bool
    ensures { result ≡ list_any (spec.gives mark) (map view values.now) }
{
    match values {
        [] => false,
        [first, rest @ ..] => gives(mark, first) || one_gives(mark, rest),
    }
}

/// The entries of a router's ports.
fn ports_in(value: &Value) -> &[Value]
    ensures { map view result.now ≡ spec.ports_in (view value.now) }
{
    match value.as_table() {
        Some(table) => entries_at(table, "port"),
        None => &[],
    }
}

/// Whether a port of one of these routers does.
fn a_port_gives(mark: u16, routers: &[Value]) -> bool
    ensures { result ≡ list_any (spec.gives_one mark) (map view routers.now) }
{
    match routers {
        [] => false,
        [first, rest @ ..] => one_gives(mark, ports_in(first)) || a_port_gives(mark, rest),
    }
}

/// Whether a port or a node of the file does.
fn is_taken(mark: u16, table: &Table) -> bool
    ensures { result ≡ spec.is_taken mark (table_view table.now) }
{
    a_port_gives(mark, entries_at(table, "router")) || one_gives(mark, entries_at(table, "node"))
}

/// The least mark that isn't taken, of `mark` and as many after it as `more` says, or the one after
/// them.
fn free_from(more: u16, mark: u16, table: &Table) -> u16
    requires { more + mark ≤ 65535 }
    ensures { result ≡ spec.free_from more mark (table_view table.now) }
{
    if more > 0 && is_taken(mark, table) {
        free_from(more - 1, mark + 1, table)
    } else {
        mark
    }
}

/// The mark of a file: the least one that isn't taken.
#[tactic(auto, unfolding(crate::specs::Marks::mark_of))]
pub(crate) fn mark_of(table: &Table) -> u16
    ensures { result ≡ spec.mark_of (table_view table.now) }
{
    free_from(65535, 0, table)
}
