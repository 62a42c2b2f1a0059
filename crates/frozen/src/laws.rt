//! Laws that hold of every run over an internet that passes the audit. The functions do nothing:
//! each law is the function's ensures clause.

ghost use Rattle.std.specs.Prelude.{◌≡◌, ◌≢◌, [], Contains, List, None, Some, ℕ, ◌+◌};
ghost use Rattle.std.specs.Prelude.{false, length, true};
ghost use Rattle.audit.specs.Example.{three_cables};
ghost use Rattle.audit.specs.Routing.{home};
ghost use Rattle.audit.specs.Rules.{Passes};
ghost use Rattle.cable_model.specs.Holdings.{still_held};
ghost use Rattle.cable_model.specs.Transcript.{ArePutOnce, Holding};
ghost use Rattle.ddp.specs.Bodies.{target};
ghost use Rattle.frozen.specs.Examples.{echoed, ended, held_for_nobody, run_of, sends, underway};
ghost use Rattle.frozen.specs.Promises.{AreAllCarried, AreTaken, HasArrived, HaveHadALookup};
ghost use Rattle.frozen.specs.Promises.{HaveOnlyAsked, IsAtRest, IsEachOnce, OnlyAsks};
ghost use Rattle.frozen.specs.Runs.{IsFrozen, Running, RunsOver, transcript};
ghost use Rattle.frozen.specs.Sentence.{HasBeenLookedUp, HasReached, IsLossless, WasHeardBy};
ghost use Rattle.legal_runs.specs.Carriage.{AreByHand, AreCarried, AreTakenThere, none_yet};
ghost use Rattle.legal_runs.specs.Counts.{HasHopsLeft, IsConserved, reached, sent, under_way};
ghost use Rattle.legal_runs.specs.Example.{echo_request};
ghost use Rattle.legal_runs.specs.Example.{plain as plain_to};
ghost use Rattle.legal_runs.specs.Legal.{IsLegal};
ghost use Rattle.legal_runs.specs.LookupExample.{blue};
ghost use Rattle.legal_runs.specs.Lookups.{IsLookedUp, lookups};
ghost use Rattle.legal_runs.specs.Requests.{is_among, listing, zone_of};
ghost use Rattle.resolved_runs.specs.AskedFor.{AreAskedFor, AreHeardOrOnTheirWay, AreHeldOnce};
ghost use Rattle.resolved_runs.specs.AskedFor.{heard, let_down};
ghost use Rattle.resolved_runs.specs.HeldChains.{AreCarriedOrHeld};
ghost use Rattle.resolved_runs.specs.HeldCounts.{under_way_or_held};
ghost use Rattle.resolved_runs.specs.Plain.{plain};
ghost use Rattle.resolved_runs.specs.ResolvedLaws.{HasHopsLeftResolved, IsConservedResolved};
ghost use Rattle.resolved_runs.specs.ResolvedLaws.{IsLookedUpResolved};
ghost use Rattle.resolved_runs.specs.ResolvedRuns.{IsLegalResolved};
ghost use Rattle.resolved_runs.specs.Rings.{AreFewHeld};
ghost use Rattle.table_image.specs.Seats.{Seat, seat_at};
ghost use Rattle.table_image.specs.declared.version.Version.TheVariants.{V1, V2};

/// In every run over frozen tables of an image of version 1 (`Frozen::image` returns the proof that
/// the tables are frozen), the transcript is legal. Each datagram to a listed network is under way
/// once or has reached its destination's cable once; it has enough hops left; it was carried by at
/// most fifteen routers, each of which shares a cable with the next, over the cables of its walk's
/// steps; a station that takes a frame is on the frame's cable; and, if no node sends a forward
/// request or a lookup, each request for names that was taken has had one lookup, or has a forward
/// request under way, on exactly the cables that list its zone.
pub fn promises_hold()
    ensures legal { (r : Running) → RunsOver V1 r → IsLegal r.internet (transcript r) }
    ensures conservation { (r : Running) → RunsOver V1 r → IsConserved r.internet (transcript r) }
    ensures hops { (r : Running) → RunsOver V1 r → HasHopsLeft r.internet (transcript r) }
    ensures carriage { (r : Running) → RunsOver V1 r
        → AreCarried r.internet none_yet (transcript r) }
    ensures takers { (r : Running) → RunsOver V1 r
        → AreTakenThere r.internet [] (transcript r) }
    ensures handed { (r : Running) → RunsOver V1 r → AreByHand r.internet false (transcript r) }
    ensures lookups { (r : Running) (k : List ℕ) → RunsOver V1 r → HaveOnlyAsked r
        → IsLookedUp r.internet (transcript r) k }
{}

/// In every run over frozen tables of an image of version 2, the transcript is legal with
/// resolution, and the same holds, but that a datagram may also be held, or have been given up where
/// sixteen others were held. Each datagram is held once and put once; each one that is held for a
/// station is asked for; and each one to a station's address was taken by that station, is on its
/// way to it, or was given up.
pub fn promises_hold_with_resolution()
    ensures legal { (r : Running) → RunsOver V2 r → IsLegalResolved r.internet (transcript r) }
    ensures conservation { (r : Running) → RunsOver V2 r
        → IsConservedResolved r.internet (transcript r) }
    ensures hops { (r : Running) → RunsOver V2 r
        → HasHopsLeftResolved r.internet (transcript r) }
    ensures carriage { (r : Running) → RunsOver V2 r
        → AreCarriedOrHeld r.internet none_yet (transcript r) }
    ensures takers { (r : Running) → RunsOver V2 r
        → AreTakenThere r.internet [] (transcript r) }
    ensures handed { (r : Running) → RunsOver V2 r
        → AreByHand r.internet false (plain r.internet (transcript r)) }
    ensures lookups { (r : Running) (k : List ℕ) → RunsOver V2 r → HaveOnlyAsked r
        → IsLookedUpResolved r.internet (transcript r) k }
    ensures held_once { (r : Running) → RunsOver V2 r → AreHeldOnce (transcript r) }
    ensures put_once { (r : Running) → RunsOver V2 r → ArePutOnce (transcript r) }
    ensures asked_for { (r : Running) → RunsOver V2 r → AreAskedFor r.internet (transcript r) }
    ensures heard { (r : Running) → RunsOver V2 r
        → AreHeardOrOnTheirWay r.internet (transcript r) }
{}

/// The main result, in one place. A run over frozen tables starts only if the image passes the
/// audit. In every such run, each datagram to a listed network is under way once or has reached its
/// destination's cable once, carried by at most fifteen routers over cables that they share. If no
/// frame is pending, each datagram to a listed network has reached its cable as often as it was
/// sent. If also no node sent a forward request or a lookup, each broadcast request was taken and
/// has had one lookup on each cable that lists its zone, and none on any other cable.
///
/// Over an image of version 2, a datagram may also be held for a router meanwhile; and what was
/// given up where sixteen others were held counts beside what arrived, was taken or was looked up.
pub fn the_headline()
    ensures audited { (r : Running) → IsFrozen r → Passes r.internet }
    ensures each_once { (r : Running) → IsFrozen r → IsEachOnce r }
    ensures carried { (r : Running) → IsFrozen r → AreAllCarried r }
    ensures arrived { (r : Running) (b : List ℕ) (c : ℕ) → IsFrozen r → IsAtRest r
        → home r.internet (target b).net ≡ Some c → HasArrived r b c }
    ensures nowhere_else { (r : Running) (b : List ℕ) (c d : ℕ) → IsFrozen r
        → home r.internet (target b).net ≡ Some c → d ≢ c → reached b d (transcript r) ≡ 0 }
    ensures taken { (r : Running) (k : List ℕ) → IsFrozen r → IsAtRest r → HaveOnlyAsked r
        → AreTaken r k }
    ensures looked_up { (r : Running) (k : List ℕ) (c : ℕ) → IsFrozen r → IsAtRest r
        → HaveOnlyAsked r → is_among c (listing r.internet (zone_of k)) ≡ true
        → HaveHadALookup r k c }
    ensures not_looked_up { (r : Running) (k : List ℕ) (c : ℕ) → IsFrozen r
        → HaveOnlyAsked r → is_among c (listing r.internet (zone_of k)) ≡ false
        → lookups r.internet k c (transcript r) ≡ 0 }
{}

/// What a yes promises, for an image of version 1. A run starts only over an image whose audit says
/// yes. Then at every moment of every run of sends and takes over its frozen tables, each datagram to
/// a listed network is under way once or has reached its destination's cable once, carried by at
/// most fifteen routers over cables that they share. And when no frame is pending, each datagram to
/// a listed network has reached its destination's cable, and no other, as often as it was sent; and
/// where nodes sent no forward request and no lookup, each broadcast request has made one lookup on
/// exactly the cables that list its zone.
pub fn what_a_yes_promises()
    ensures audited { (r : Running) → RunsOver V1 r → Passes r.internet }
    ensures every_moment { (r : Running) (b : List ℕ) (c : ℕ) → RunsOver V1 r
        → home r.internet (target b).net ≡ Some c
        → sent b (transcript r)
        ≡ reached b c (transcript r) + under_way r.internet b (transcript r) }
    ensures carried { (r : Running) → RunsOver V1 r → AreAllCarried r }
    ensures reached { (r : Running) (b : List ℕ) (c : ℕ) → RunsOver V1 r → IsAtRest r
        → home r.internet (target b).net ≡ Some c → HasReached r b c }
    ensures looked_up { (r : Running) (k : List ℕ) → RunsOver V1 r → IsAtRest r
        → HaveOnlyAsked r → HasBeenLookedUp r k }
{}

/// What a yes promises, for an image of version 2, where stations ask for hardware addresses and
/// hold datagrams meanwhile: the same of every run in which nothing was lost, but that a datagram
/// may also be held; and when no frame is pending, each datagram to a station's address was heard by
/// that station as often as it was sent. Nothing is lost as long as no station holds seventeen
/// datagrams on a cable at once.
pub fn what_a_yes_promises_with_resolution()
    ensures audited { (r : Running) → RunsOver V2 r → Passes r.internet }
    ensures every_moment { (r : Running) (b : List ℕ) (c : ℕ) → RunsOver V2 r → IsLossless r
        → home r.internet (target b).net ≡ Some c
        → sent b (transcript r)
        ≡ reached b c (transcript r) + under_way_or_held r.internet b (transcript r) }
    ensures carried { (r : Running) → RunsOver V2 r → AreAllCarried r }
    ensures reached { (r : Running) (b : List ℕ) (c : ℕ) → RunsOver V2 r → IsLossless r
        → IsAtRest r → home r.internet (target b).net ≡ Some c → HasReached r b c }
    ensures heard { (r : Running) (b : List ℕ) (c : ℕ) (s : Seat) → RunsOver V2 r → IsLossless r
        → IsAtRest r → seat_at r.internet c (target b) ≡ Some s → WasHeardBy r s.station b }
    ensures looked_up { (r : Running) (k : List ℕ) → RunsOver V2 r → IsLossless r → IsAtRest r
        → HaveOnlyAsked r → HasBeenLookedUp r k }
    ensures lossless { (r : Running) → RunsOver V2 r → AreFewHeld (transcript r)
        → IsLossless r }
{}

/// What asking for addresses promises, in one place. If no frame is pending in a run over an image
/// of version 2, nothing is held for a station any more, and each datagram to a station's address
/// was taken by that station as often as it was sent, but for what was given up.
pub fn every_datagram_is_heard()
    ensures none_held { (r : Running) (h : Holding) → RunsOver V2 r → IsAtRest r
        → Contains (still_held (transcript r)) h
        → seat_at r.internet h.cable h.next ≡ None }
    ensures heard { (r : Running) (b : List ℕ) (c : ℕ) (s : Seat) → RunsOver V2 r → IsAtRest r
        → seat_at r.internet c (target b) ≡ Some s
        → sent b (transcript r)
        ≡ heard r.internet s.station b (transcript r) + let_down r.internet b (transcript r) }
{}

/// What the conditions of these laws mean. A broadcast request is one that a node may send; a
/// forward request and a lookup aren't, but the same data of another type are. While a frame is
/// pending for the router, a run isn't at rest; after the router has taken the frame, it is.
pub fn the_examples_of_conditions()
    ensures asks { OnlyAsks three_cables (sends 2 (blue 17)) }
    ensures other_type { OnlyAsks three_cables (sends 3 (blue 65)) }
    ensures forwards { ¬ OnlyAsks three_cables (sends 2 (blue 65)) }
    ensures looks { ¬ OnlyAsks three_cables (sends 2 (blue 33)) }
    ensures under_way { ¬ IsAtRest (run_of underway) }
    ensures at_rest { IsAtRest (run_of ended) }
{}

/// The conditions can be met together: over an image of version 1, by the run of an echo, which
/// reached its cable once, and its reply; and over one of version 2 without mappings, by a run in
/// which a datagram reached the cable of an address that nobody has, and is held there.
pub fn the_conditions_can_be_met()
    ensures one { RunsOver V1 echoed × IsAtRest echoed × HaveOnlyAsked echoed }
    ensures reached { (sent (echo_request 0) (transcript echoed) ≡ 1)
        × (reached (echo_request 0) 2 (transcript echoed) ≡ 1) }
    ensures two { RunsOver V2 held_for_nobody × IsLossless held_for_nobody
        × IsAtRest held_for_nobody × HaveOnlyAsked held_for_nobody }
    ensures held { (sent (plain_to 0 10 9) (transcript held_for_nobody) ≡ 1)
        × (reached (plain_to 0 10 9) 0 (transcript held_for_nobody) ≡ 1)
        × (length (still_held (transcript held_for_nobody)) ≡ 1) }
{}
