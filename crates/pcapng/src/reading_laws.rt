//! Laws of captures that are read: what a writer spells is what the calls of this crate read, whatever
//! follows it. Each law is the contract of a function that does nothing.

ghost use Rattle.std.specs.Prelude.{◌≡◌, ◌++◌, ◌∷◌, ◌<◌, ◌≤◌, ◌^◌, [], false, true, List, Some, length, nat_lt, not, slice_get, ℕ};
ghost use Rattle.at_base.specs.Spelling.{bytes_of};
ghost use Rattle.ethertalk.specs.Frames.{frame, max_bytes};
ghost use Rattle.pcapng.specs.Captures.{FitsPacket, cable_name, frame_of};
ghost use Rattle.pcapng.specs.Captures.{heartbeat_bytes, interface_bytes, packet_bytes, section_bytes};
ghost use Rattle.pcapng.specs.Classics.{classic_interface};
ghost use Rattle.pcapng.specs.First.{IsFirst};
ghost use Rattle.pcapng.specs.Sections.{beats, begins, classic, describes, ethernet, opens, packs, pcapng, unread};
ghost use Rattle.pcapng.specs.Spelled.{header_bytes, micros_of, record_bytes};
ghost use Rattle.pcapng.specs.declared.form.Forms.{Forms};
ghost use Rattle.pcapng.specs.declared.form.Forms.TheVariants.{Either};
ghost use Rattle.pcapng.specs.declared.interface.Interface.{Interface};
ghost use Rattle.pcapng.specs.declared.item.Fraction.{Fraction};
ghost use Rattle.pcapng.specs.declared.order.Order.{Order};
ghost use Rattle.pcapng.specs.declared.order.Order.TheVariants.{Big};
ghost use Rattle.pcapng.specs.declared.packet.Packet.{Packet};

/// The section header that `print_section` prints begins a section without interfaces.
pub fn section_begins()
    ensures { (forms : Forms) (rest : List ℕ)
        → IsFirst (unread forms) (section_bytes ++ rest) begins (pcapng Big []) rest }
{}

/// What `print_interface` prints describes one Ethernet interface more, with the cable's name and with
/// times in microseconds.
pub fn interface_is_described()
    ensures { (is : List Interface) (cable start end : ℕ) (rest : List ℕ)
        → length is < 256 → cable < 256 → start < 65536 → end < 65536
        → IsFirst (pcapng Big is) (interface_bytes cable start end ++ rest)
        (describes (record { interface = ethernet; name = Some (cable_name cable start end) }))
        (pcapng Big (is ++ ethernet ∷ [])) rest }
{}

/// What `print_packet` prints is a packet on its interface, with its time and its whole frame, lost
/// where it was marked so. What is in the frame, `ethertalk::written_is_read` says.
pub fn packet_is_seen()
    ensures { (is : List Interface) (p : Packet) (bytes rest : List ℕ)
        → FitsPacket p → length bytes ≤ max_bytes → slice_get is p.interface ≡ Some ethernet
        → IsFirst (pcapng Big is) (packet_bytes p bytes ++ rest)
        (packs (record {
          interface = p.interface;
          time = p.time;
          ethernet = true;
          whole = true;
          lost = p.lost;
          bytes = bytes_of frame (frame_of p bytes);
        }))
        (pcapng Big is) rest }
{}

/// What `print_heartbeat` prints is a heartbeat of the first interface, with its time.
pub fn heartbeat_is_heard()
    ensures { (is : List Interface) (time : ℕ) (rest : List ℕ)
        → time < 2 ^ 64 → slice_get is 0 ≡ Some ethernet
        → IsFirst (pcapng Big is) (heartbeat_bytes time ++ rest) (beats 0 time) (pcapng Big is) rest }
{}

/// A classic capture's header opens a capture with its one interface, in either order of bytes.
pub fn header_is_opened()
    ensures { (o : Order) (f : Fraction) (zone accuracy limit link : ℕ) (rest : List ℕ)
        → zone < 2 ^ 32 → accuracy < 2 ^ 32 → limit < 2 ^ 32 → link < 2 ^ 32
        → IsFirst (unread Either) (header_bytes o f zone accuracy limit link ++ rest)
        (opens (classic_interface f link)) (classic o (classic_interface f link)) rest }
{}

/// A record of at most 2,048 bytes is a packet, with the bytes that were captured, and its time in
/// microseconds. It is whole where no fewer bytes were captured than there were.
pub fn record_is_seen()
    ensures { (o : Order) (f : Fraction) (link seconds fraction len : ℕ) (bytes rest : List ℕ)
        → seconds < 2 ^ 32 → fraction < 2 ^ 32 → len < 2 ^ 32 → length bytes ≤ 2032
        → IsFirst (classic o (classic_interface f link))
        (record_bytes o seconds fraction len bytes ++ rest)
        (packs (record {
          interface = 0;
          time = micros_of f seconds fraction;
          ethernet = (classic_interface f link).ethernet;
          whole = not (nat_lt (length bytes) len);
          lost = false;
          bytes = bytes;
        }))
        (classic o (classic_interface f link)) rest }
{}
