//! Laws of NBP packets, for the crates that use this one. Each law is the contract of a function
//! that does nothing.

ghost use Rattle.std.specs.Prelude.{◌≡◌, ◌≢◌, ◌<◌, ◌++◌, List, ℕ};
ghost use Rattle.at_base.specs.Spelling.{bytes_of, Begins};
ghost use Rattle.nbp.specs.declared.packet.Function.{Function as FunctionValue};
ghost use Rattle.nbp.specs.declared.packet.Function.TheVariants.{Reply};
ghost use Rattle.nbp.specs.declared.tuple.Tuple.{Tuple as TupleValue};
ghost use Rattle.nbp.specs.Packets.{NbpPacket, IsTuple, key, packet, packet_of};

/// A packet that was written is read back, whatever follows it.
pub fn written_is_read()
    ensures { (f : FunctionValue) (id : ℕ) (t : TupleValue) (rest : List ℕ) → id < 256 → IsTuple t
        → Begins packet (bytes_of packet (packet_of f id t) ++ rest) (packet_of f id t)
        × ((p : NbpPacket) → Begins packet (bytes_of packet (packet_of f id t) ++ rest) p
        → p ≡ packet_of f id t) }
{}

/// A packet that isn't a reply has exactly one tuple, so `write` can write it.
pub fn requests_have_one_tuple()
    ensures { (p : NbpPacket) (bytes : List ℕ) → Begins packet bytes p → p.function ≢ Reply
        → (t : TupleValue) × IsTuple t × (p ≡ packet_of p.function p.id t) }
{}

/// A request keeps its key when its function is changed.
pub fn functions_leave_the_key()
    ensures { (f g : FunctionValue) (id : ℕ) (t : TupleValue)
        → key (packet_of f id t) ≡ key (packet_of g id t) }
{}

/// Bytes after the last tuple aren't part of the key.
pub fn trailing_bytes_leave_the_key()
    ensures { (p q : NbpPacket) (bytes rest : List ℕ) → Begins packet bytes p
        → Begins packet (bytes ++ rest) q → key q ≡ key p }
{}
