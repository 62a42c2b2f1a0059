//! Laws of capture files: what is printed is read back, whatever follows it. Each law is the contract
//! of a function that does nothing.

ghost use Rattle.std.specs.Prelude.{◌≡◌, ◌++◌, ◌<◌, ◌≤◌, List, length, ℕ};
ghost use Rattle.at_base.specs.Reading.{read};
ghost use Rattle.at_base.specs.Spelling.{bytes_of};
ghost use Rattle.pcapng.specs.Blocks.{interface, packet_block, section};
ghost use Rattle.pcapng.specs.Captures.{FitsPacket, block_of, cable_name};
ghost use Rattle.pcapng.specs.Captures.{interface_bytes, packet_bytes, section_bytes};
ghost use Rattle.pcapng.specs.Fields.{blocks};
ghost use Rattle.ethertalk.specs.Frames.{max_bytes};
ghost use Rattle.pcapng.specs.declared.packet.Packet.{Packet};

/// The section header is read back.
pub fn section_is_read()
    ensures { (rest : List ℕ) → read blocks section (section_bytes ++ rest) ≡ Ok (tt, rest) }
{}

/// The description of a cable as an interface is read back as the cable's name.
pub fn interface_is_read()
    ensures { (cable start end : ℕ) (rest : List ℕ) → cable < 256 → start < 65536 → end < 65536
        → read blocks interface (interface_bytes cable start end ++ rest)
        ≡ Ok (cable_name cable start end, rest) }
{}

/// The block of a packet is read back: its interface, its time, its frame, and whether it was lost.
pub fn packet_is_read()
    ensures { (p : Packet) (bytes rest : List ℕ) → FitsPacket p → length bytes ≤ max_bytes
        → read blocks packet_block (packet_bytes p bytes ++ rest) ≡ Ok (block_of p bytes, rest) }
{}
