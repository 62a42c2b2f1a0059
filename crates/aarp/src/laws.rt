//! Laws of AARP packets and of mappings, for the crates that use this one. Each law is the contract
//! of a function that does nothing.

ghost use Rattle.std.specs.Prelude.{◌≡◌, ◌++◌, ℕ, List, length};
ghost use Rattle.at_base.specs.declared.address.Addr.{Addr};
ghost use Rattle.at_base.specs.declared.address.Hw.{Hw};
ghost use Rattle.at_base.specs.Spelling.{Spells, Begins};
ghost use Rattle.aarp.specs.declared.packet.Packet.{Packet};
ghost use Rattle.aarp.specs.Mapping.{by_address, mapping_of};
ghost use Rattle.aarp.specs.Packets.{Whole, packet, written};

/// A packet that was written is read back, whatever follows it.
pub fn written_is_read()
    ensures { (p : Packet) (bytes rest : List ℕ)
        → Spells packet bytes (written p)
        → Begins packet (bytes ++ rest) (written p)
        × ((w : Whole) → Begins packet (bytes ++ rest) w → w ≡ written p) }
{}

/// Mappings by rising address are the same mappings: each address has the one that it had, and
/// there are as many.
pub fn by_address_is_the_same()
    ensures same { (a : Addr) (known : List (Addr × Hw))
        → mapping_of a (by_address known) ≡ mapping_of a known }
    ensures number { (known : List (Addr × Hw)) → length (by_address known) ≡ length known }
{}
