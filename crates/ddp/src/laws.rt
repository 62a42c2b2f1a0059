//! Laws of datagrams, for the crates that use this one. Each law is the contract of a function that
//! does nothing.

ghost use Rattle.std.specs.Prelude.{◌≡◌, ℕ, ◌≤◌, List, ◌++◌, length};
ghost use Rattle.at_base.specs.Spelling.{bytes_of, Spells, Begins};
ghost use Rattle.ddp.specs.declared.header.Header.{Header as HeaderValue};
ghost use Rattle.ddp.specs.Datagram.{Datagram, datagram, datagram_of, length_of};
ghost use Rattle.ddp.specs.Bodies as spec;
ghost use Rattle.ddp.specs.Bodies.{named_length, body, with_hops};

/// A datagram that was written is read back, whatever follows it.
pub fn written_is_read()
    ensures { (h : HeaderValue) (payload bytes rest : List ℕ)
        → Spells datagram bytes (datagram_of h payload)
        → Begins datagram (bytes ++ rest) (datagram_of h payload)
        × ((d : Datagram) → Begins datagram (bytes ++ rest) d → d ≡ datagram_of h payload) }
{}

/// After `with_hops n` the hop count is n, and the body, the target and the length are unchanged.
pub fn hops_leave_the_body()
    ensures { (n : ℕ) (bytes : List ℕ) → n ≤ 15 → 13 ≤ named_length bytes
        → (spec.hops (with_hops n bytes) ≡ n)
        × (body (with_hops n bytes) ≡ body bytes)
        × (spec.target (with_hops n bytes) ≡ spec.target bytes)
        × (named_length (with_hops n bytes) ≡ named_length bytes) }
{}

/// A datagram whose hop count was set is read with that count, and nothing else changed.
pub fn set_hops_are_read()
    ensures { (n : ℕ) (bytes : List ℕ) (d : Datagram) → n ≤ 15 → Begins datagram bytes d
        → Begins datagram (with_hops n bytes) (record d { hops = n }) }
{}

/// Bytes that are exactly one datagram are exactly one after the hop count was set, with that
/// count.
pub fn set_hops_are_spelled()
    ensures { (n : ℕ) (bytes : List ℕ) (d : Datagram) → n ≤ 15 → Spells datagram bytes d
        → Spells datagram (with_hops n bytes) (record d { hops = n }) }
{}

/// Padding isn't part of the body.
pub fn padding_leaves_the_body()
    ensures { (bytes rest : List ℕ) → named_length bytes ≤ length bytes → 2 ≤ length bytes
        → body (bytes ++ rest) ≡ body bytes }
{}

/// The value that is read has the hop count, the target, the length and the body of the bytes.
pub fn value_agrees_with_bytes()
    ensures { (bytes : List ℕ) (d : Datagram) → Begins datagram bytes d
        → (spec.hops bytes ≡ d.hops)
        × (spec.target bytes ≡ d.target)
        × (named_length bytes ≡ length_of d)
        × (body bytes ≡ bytes_of datagram (record d { hops = 0 })) }
{}

/// A datagram that was written has hop count 0, so its body is all of its bytes.
pub fn written_has_no_hops()
    ensures { (h : HeaderValue) (payload bytes : List ℕ)
        → Spells datagram bytes (datagram_of h payload)
        → (spec.hops bytes ≡ 0) × (body bytes ≡ bytes) }
{}
