//! Readers for values: numbers, texts, addresses, lists.

ghost use Rattle.std.specs.Prelude.{◌≡◌, ◌≤◌, map, length, Some, None, IfOk, IfErr};
ghost use Rattle.std.specs.Result.{result_ok};
ghost use Rattle.toml.specs.Data.{as_str};
ghost use Rattle.toml.specs.View.{view};
ghost use Rattle.file_entries.specs.Values as spec;

use crate::why::Why;
use at_base::{Addr, Name, Range, Text32};
use text::address;
use toml::Value;

/// The greatest network of a cable.
const MAX_NETWORK: u32 = 0xFEFF;

/// The number of the value, if it is an integer from `low` to `high`.
pub fn number(low: u32, high: u32, value: &Value) -> Result<u32, Why>
    ensures value { result_ok result ≡ spec.number low high (view value.now) }
    ensures low { IfOk result (λ n. low ≤ n) }
    ensures high { IfOk result (λ n. n ≤ high) }
{
    let Some(n) = value.as_integer() else {
        return Err(Why::NoInteger);
    };
    if i64::from(low) <= n && n <= i64::from(high) {
        Ok(n as u32)
    } else {
        Err(Why::Outside { low, high })
    }
}

/// The number of one of the entries, counted from 1, at most 200.
pub fn one_of<T>(entries: &[T], value: &Value) -> Result<u16, Why>
    ensures value { result_ok result ≡ spec.one_of entries.now (view value.now) }
    ensures low { IfOk result (λ k. 1 ≤ k) }
    ensures high { IfOk result (λ k. k ≤ length entries.now) }
{
    let count = entries.len();
    match number(1, 200, value) {
        Ok(k) => {
            if k as usize <= count {
                Ok(k as u16)
            } else {
                Err(Why::Absent { count })
            }
        }
        Err(Why::NoInteger) => Err(Why::NoInteger),
        Err(_) => Err(Why::Absent { count }),
    }
}

/// The bytes of a text.
pub fn text(value: &Value) -> Result<&[u8], Why>
    ensures ok { IfOk result (λ s. as_str (view value.now) ≡ Some s.now) }
    ensures err { IfErr result (λ _. as_str (view value.now) ≡ None) }
{
    match value.as_str() {
        Some(text) => Ok(text.as_bytes()),
        None => Err(Why::NoText),
    }
}

/// A text of at least `low` and at most 32 bytes.
pub fn short(low: usize, value: &Value) -> Result<Text32, Why>
    ensures { result_ok result ≡ spec.short low (view value.now) }
{
    let bytes = text(value)?;
    let wrong = Why::Length { low, high: 32 };
    if bytes.len() < low {
        return Err(wrong);
    }
    Text32::new(bytes).ok().ok_or(wrong)
}

/// The name of a zone.
pub fn zone(value: &Value) -> Result<Name, Why>
    ensures { result_ok result ≡ spec.zone (view value.now) }
{
    Name::new(text(value)?).ok().ok_or(Why::NoZone)
}

/// An address of any network and node, as `10.7`.
pub fn any_address(value: &Value) -> Result<Addr, Why>
    ensures { result_ok result ≡ spec.any_address (view value.now) }
{
    address(text(value)?).ok_or(Why::NoAddress)
}

/// The values of a list.
pub fn list(value: &Value) -> Result<&[Value], Why>
    ensures ok { IfOk result (λ vs. spec.list (view value.now) ≡ Some (map view vs.now)) }
    ensures err { IfErr result (λ _. spec.list (view value.now) ≡ None) }
{
    match value.as_array() {
        Some(values) => Ok(values.as_slice()),
        None => Err(Why::NoList),
    }
}

/// The values of a list with at least `low` and at most `high` values.
pub fn list_within(low: usize, high: usize, value: &Value) -> Result<&[Value], Why>
    ensures ok { IfOk result (λ vs.
        spec.list_within low high (view value.now) ≡ Some (map view vs.now)) }
    ensures err { IfErr result (λ _. spec.list_within low high (view value.now) ≡ None) }
{
    let values = list(value)?;
    if low <= values.len() && values.len() <= high {
        Ok(values)
    } else {
        Err(Why::Count { low, high })
    }
}

/// Why these two networks aren't a range.
fn why_no_range(start: u32, end: u32) -> Why {
    if start > end {
        Why::Reversed
    } else {
        Why::Outside {
            low: 1,
            high: MAX_NETWORK,
        }
    }
}

/// A range of networks, as a list of its first and its last network.
pub fn range(value: &Value) -> Result<Range, Why>
    ensures { result_ok result ≡ spec.range (view value.now) }
{
    match list(value)? {
        [first, last] => {
            let start = number(0, 65535, first)?;
            let end = number(0, 65535, last)?;
            Range::new(start as u16, end as u16)
                .ok()
                .ok_or(why_no_range(start, end))
        }
        _ => Err(Why::NoPair),
    }
}
