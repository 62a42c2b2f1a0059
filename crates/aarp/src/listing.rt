//! The mappings that a port knows, by rising address.

ghost use Rattle.std.specs.Prelude.{◌≡◌, ◌≤◌, [], length, map, IfOk, IsOk, IsOkUnless};
ghost use Rattle.std.specs.List.{All, IsDistinct};
ghost use Rattle.at_base.specs.Address.{same_address};
ghost use Rattle.aarp.specs.Mapping.{AddressesRise, FitsMapping, address_number, by_address};

use at_base::{Addr, Error, Hw};
use lru::LruCache;

/// The number of an address.
fn number_of(addr: Addr) -> u32
    ensures { result ≡ address_number addr }
{
    u32::from(addr.net) * 256 + u32::from(addr.node)
}

/// Does nothing. It gives the prover the fact that the mapping's numbers fit, which only reading
/// them can.
fn recall_fit(addr: Addr, hw: Hw)
    ensures { FitsMapping (addr, hw) }
{
    let _net = addr.net;
    let _node = addr.node;
    let _six = hw.as_slice();
}

/// The mappings, the one learnt last first. Error: `Memory`, which no mappings never need.
fn collected(known: &LruCache<Addr, Hw>) -> Result<Vec<(Addr, Hw)>, Error>
    ensures ok { IfOk result (λ all. all.items ≡ known.now.entries) }
    ensures fits { IfOk result (λ all. All FitsMapping all.items) }
    ensures none { known.now.entries ≡ [] → IsOk result }
    ensures refused { IsOkUnless result Error.Memory }
{
    if known.is_empty() {
        return Ok(Vec::new(*known.allocator()));
    }
    let mut all = Vec::with_capacity(*known.allocator(), known.len())?;
    for (addr, hw) in known {
        recall_fit(*addr, *hw);
        all.push((*addr, *hw))?;
    }
    Ok(all)
}

/// Sorts mappings, of which no two have one address, by their addresses.
fn sort(all: &mut Vec<(Addr, Hw)>)
    requires distinct { IsDistinct same_address (map (λ m. m.0) all.old.items) }
    requires fits { All FitsMapping all.old.items }
    ensures sorted { all.new.items ≡ by_address all.old.items }
    ensures rises { AddressesRise 0 all.new.items }
    ensures fits { All FitsMapping all.new.items }
    ensures number { length all.new.items ≡ length all.old.items }
{
    all.sort_unstable_by_key(
        |mapping: &(Addr, Hw)| -> u32
            ensures { result ≡ address_number mapping.now.0 }
        { number_of(mapping.0) },
    );
}

/// The mappings, by rising address. Error: `Memory`, which no mappings never need.
pub(crate) fn all_of(known: &LruCache<Addr, Hw>) -> Result<Vec<(Addr, Hw)>, Error>
    ensures ok { IfOk result (λ all. all.items ≡ by_address known.now.entries) }
    ensures rises { IfOk result (λ all. AddressesRise 0 all.items) }
    ensures fits { IfOk result (λ all. All FitsMapping all.items) }
    ensures number { IfOk result (λ all. length all.items ≡ length known.now.entries) }
    ensures few { length known.now.entries ≤ known.now.cap }
    ensures none { known.now.entries ≡ [] → IsOk result }
    ensures refused { IsOkUnless result Error.Memory }
{
    // The length gives the prover the fact that no two mappings have one address.
    let _len = known.len();
    let mut all = collected(known)?;
    sort(&mut all);
    Ok(all)
}
