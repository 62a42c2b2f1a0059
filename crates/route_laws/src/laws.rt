//! The laws. Each law is the contract of a function that does nothing.

ghost use Rattle.std.specs.Prelude.{◌≡◌, ◌≤◌, ◌+◌, ◌⊎◌, [], Bool, List, None, Option, ℕ};
ghost use Rattle.cabled.specs.Acting.{Event, Heard};
ghost use Rattle.cabled.specs.Steps.{Running, hearing_at, router_acts, step};
ghost use Rattle.capture_feed.specs.Stages.{Standing, coming, pending};
ghost use Rattle.ethertalk.specs.Frames.{Framed};
ghost use Rattle.pcapng.specs.Sections.{Told};
ghost use Rattle.route_laws.specs.Carrying.{HasKept, after_all, all_brought, all_made, all_put};
ghost use Rattle.route_laws.specs.Carrying.{brought_by, passed_for, waiting_in};
ghost use Rattle.routing.specs.Run.{HaveHeard, Routed, SoFar};
ghost use Rattle.station.specs.Lawful.{count};

use cabled::Cabled;

/// Two runs that began alike, over the same bytes, write the same and end alike, however the bytes were
/// cut, if neither dropped an event and each was at the end of what it had read: what a station writes
/// is one function of how it began and of what it reads.
pub fn one_run<C: Cabled>()
    ensures { (m a b : Routed C) (bytes kept left : List ℕ) (last end : Standing)
        (u v x y : Option (List ℕ)) → (s : SoFar C.acts m u bytes a v last kept)
        → (t : SoFar C.acts m x bytes b y end left)
        → coming last kept ≡ pending → coming end left ≡ pending
        → a.dropped ≡ 0 → b.dropped ≡ 0 → (s.due ≡ t.due) × (a ≡ b) }
{}

/// A frame that no port hears puts nothing and changes nothing: one that isn't for the port, one that
/// by the rules of real cables is the port's own, and one on no port of the router.
pub fn unheard()
    ensures { (r : Running) (k : ℕ) (f : Framed) → hearing_at r.peers r.ports k f ≡ None
        → step r (Heard k f) ≡ ([], r) }
{}

/// For an event a router passes on nothing, or one datagram: the one that the event brings, with one
/// hop more, and nothing else of it changed.
pub fn passed_once()
    ensures { (r : Running) (e : Event)
        → (passed_for r e ≡ []) ⊎ (passed_for r e ≡ brought_by e) }
{}

/// A router multiplies nothing. For some events, one after the other, it puts datagrams that pass a
/// test, such as to have certain bytes, at most as often as one waited at its ports at the beginning,
/// as it made one itself, and as the events brought one with a hop fewer, less those that wait at the
/// end.
pub fn carried()
    ensures { (r : Running) (es : List Event) (test : List ℕ → Bool)
        → count test (all_put r es) + count test (waiting_in (after_all router_acts r es).ports)
        ≤ count test (waiting_in r.ports) + count test (all_made r es)
        + count test (all_brought es) }
{}

/// What a router wrote for the blocks of a capture is what it puts for the events that they bring, one
/// after the other, without those that were dropped; and so the law on events speaks of captures.
pub fn kept()
    ensures { (m after : Routed Running) (ts : List Told) (bytes : List ℕ)
        → HaveHeard router_acts m ts bytes after → HasKept m after ts bytes }
{}
