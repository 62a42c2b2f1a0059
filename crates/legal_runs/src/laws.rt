//! Laws of legal transcripts of an internet that passes the audit, for use by other crates. The
//! functions do nothing: each law is the function's ensures clause.

ghost use Rattle.std.specs.Prelude.{◌≡◌, ◌≤◌, [], List, None, false, length, true, ℕ};
ghost use Rattle.table_image.specs.Internet.{Internet};
ghost use Rattle.audit.specs.Example.{three_cables};
ghost use Rattle.audit.specs.Rules.{Passes};
ghost use Rattle.cable_model.specs.Transcript.{Entry};
ghost use Rattle.legal_runs.specs.Carriage.{AreByHand, AreCarried, AreTakenThere, IsChain, none_yet};
ghost use Rattle.legal_runs.specs.Counts.{HasHopsLeft, IsConserved, reached, sent, under_way};
ghost use Rattle.legal_runs.specs.Example.{echo, echo_reply, echo_request};
ghost use Rattle.legal_runs.specs.Example.{to_everybody, to_nobody, to_nowhere};
ghost use Rattle.legal_runs.specs.Illegal.{asked_alone, dropped_on_its_way, dropped_too};
ghost use Rattle.legal_runs.specs.Illegal.{dropped_twice, forward_elsewhere, gone};
ghost use Rattle.legal_runs.specs.Illegal.{looked_elsewhere, taken_from_afar};
ghost use Rattle.legal_runs.specs.Illegal.{looked_nowhere, many_hops, out_of_hops, passed_back};
ghost use Rattle.legal_runs.specs.Illegal.{passed_from_all};
ghost use Rattle.legal_runs.specs.Illegal.{put_from_afar, reached_alone, reached_elsewhere};
ghost use Rattle.legal_runs.specs.Illegal.{reached_from_afar, reached_unlisted, same_hops};
ghost use Rattle.legal_runs.specs.Illegal.{taken_twice, taken_unput};
ghost use Rattle.legal_runs.specs.Legal.{IsLegal};
ghost use Rattle.legal_runs.specs.LookupExample.{blue_names, blue_request, blue_to};
ghost use Rattle.legal_runs.specs.Lookups as spec;
ghost use Rattle.legal_runs.specs.Lookups.{IsLookedUp, NodesOnlyAsk, taken};
ghost use Rattle.legal_runs.specs.Requests.{is_broadcast, key_in, request};

/// Conservation. A datagram to a listed network is under way once or has reached its destination's
/// cable once, and has reached no other cable. A datagram to a network that is neither listed nor 0
/// is under way once or was dropped once. No datagram is dropped because of its hop count.
pub fn conservation()
    ensures { (i : Internet) (t : List Entry) → Passes i → IsLegal i t → IsConserved i t }
{}

/// Hops left: the hop count of a datagram that is under way to a listed network leaves enough hops
/// for the routers that remain on its path.
pub fn hops_left()
    ensures { (i : Internet) (t : List Entry) → Passes i → IsLegal i t → HasHopsLeft i t }
{}

/// Carriage. A datagram that reached a cable was carried by no router, or by the routers of its
/// only walk, at most 15. A station that puts a frame on a cable is on that cable, and the hop
/// count in the frame is the number of routers that have carried its datagram. A station that takes
/// a frame is on the frame's cable, and a router that carries a datagram on puts it on the cable
/// onto which it hands datagrams for its network, which is that of the walk's step.
pub fn carriage()
    ensures carried { (i : Internet) (t : List Entry) → Passes i → IsLegal i t
        → AreCarried i none_yet t }
    ensures taken { (i : Internet) (t : List Entry) → Passes i → IsLegal i t
        → AreTakenThere i [] t }
    ensures handed { (i : Internet) (t : List Entry) → Passes i → IsLegal i t
        → AreByHand i false t }
{}

/// Lookups, provided that no node sends a forward request or a lookup. For each broadcast request
/// that was taken, each cable that lists its zone has had one lookup, or a forward request to it is
/// under way; no other cable has had a lookup. Each broadcast request that was sent was taken or is
/// still to be taken.
pub fn lookups()
    ensures { (i : Internet) (t : List Entry) (k : List ℕ)
        → Passes i → IsLegal i t → NodesOnlyAsk i t → IsLookedUp i t k }
{}

/// The echo over three cables is legal, and each of its two datagrams has reached its destination's
/// cable once.
pub fn the_echo_is_legal()
    ensures legal { IsLegal three_cables echo }
    ensures asked { (sent (echo_request 0) echo ≡ 1) × (reached (echo_request 0) 2 echo ≡ 1) }
    ensures replied { (sent (echo_reply 0) echo ≡ 1) × (reached (echo_reply 0) 0 echo ≡ 1) }
    ensures done { (under_way three_cables (echo_request 0) echo ≡ 0)
        × (under_way three_cables (echo_reply 0) echo ≡ 0) }
{}

/// The transcripts of a datagram to an address that no station has, to all nodes of a cable, and to
/// a network that no cable has are legal.
pub fn each_end_is_legal()
    ensures nobody { IsLegal three_cables to_nobody }
    ensures everybody { IsLegal three_cables to_everybody }
    ensures nowhere { IsLegal three_cables to_nowhere }
{}

/// The request for the names in the zone blue over three cables is legal. It was sent and taken
/// once, and caused one lookup on each of the two cables that list the zone and none on the first
/// cable.
pub fn the_lookup_is_legal()
    ensures legal { IsLegal three_cables blue_names }
    ensures asked { (spec.asked three_cables (key_in (request blue_request)) blue_names ≡ 1)
        × (taken three_cables (key_in (request blue_request)) blue_names ≡ 1) }
    ensures looked { (spec.lookups three_cables (key_in (request blue_request)) 0 blue_names ≡ 0)
        × (spec.lookups three_cables (key_in (request blue_request)) 1 blue_names ≡ 1)
        × (spec.lookups three_cables (key_in (request blue_request)) 2 blue_names ≡ 1) }
{}

/// A datagram with the same bytes but to another socket, or of another type, is no request.
pub fn others_are_no_requests()
    ensures request { is_broadcast (request blue_request) ≡ true }
    ensures socket { request (blue_to 3 2) ≡ None }
    ensures kind { request (blue_to 2 3) ≡ None }
{}

/// Transcripts that are not legal, so that each part of the laws excludes something. They have a
/// datagram that reached a cable but was never sent; one under way that reached another cable, or
/// was dropped; a cable reached, or a frame put on it, by a station that isn't on it; a frame that
/// one station takes twice, or takes from a cable that it isn't on; a broadcast frame that a router
/// passes on, or puts on another cable than that of the walk's step; a datagram passed on with
/// its hop count unchanged, or with too many hops for the routers that remain; a datagram to an
/// unlisted network that is neither under way nor dropped, that reached a cable, that is dropped
/// because of its hop count, dropped twice, or both dropped and under way; a lookup on a cable that
/// doesn't list the zone, and none on one that does; and a request that is neither taken nor to be
/// taken.
pub fn words_exclude()
    ensures reached { ¬ IsLegal three_cables reached_alone }
    ensures elsewhere { ¬ IsLegal three_cables reached_elsewhere }
    ensures dropped { ¬ IsLegal three_cables dropped_too }
    ensures afar { (¬ IsLegal three_cables reached_from_afar)
        × (¬ IsLegal three_cables put_from_afar) }
    ensures taken { ¬ IsLegal three_cables taken_twice }
    ensures taken_afar { ¬ IsLegal three_cables taken_from_afar }
    ensures heard { ¬ IsLegal three_cables passed_from_all }
    ensures handed { ¬ IsLegal three_cables passed_back }
    ensures hops { (¬ IsLegal three_cables same_hops) × (¬ IsLegal three_cables many_hops) }
    ensures unlisted { (¬ IsLegal three_cables gone) × (¬ IsLegal three_cables (reached_unlisted 0))
        × (¬ IsLegal three_cables out_of_hops) }
    ensures unlisted_twice { (¬ IsLegal three_cables dropped_twice)
        × (¬ IsLegal three_cables dropped_on_its_way) }
    ensures looked { ¬ IsLegal three_cables looked_elsewhere }
    ensures not_looked { ¬ IsLegal three_cables looked_nowhere }
    ensures asked { ¬ IsLegal three_cables asked_alone }
{}

/// The laws themselves exclude what `words_exclude` names: each breaks the law that its part is
/// about, whether or not it is legal. They exclude, too, a chain of sixteen routers, a forward
/// request for a cable that doesn't list the zone, and a frame that is taken and was never put.
pub fn laws_exclude()
    ensures counted { (¬ IsConserved three_cables reached_alone)
        × (¬ IsConserved three_cables taken_twice)
        × (¬ IsConserved three_cables passed_from_all) }
    ensures elsewhere { ¬ IsConserved three_cables reached_elsewhere }
    ensures kept { ¬ IsConserved three_cables dropped_too }
    ensures unlisted { (¬ IsConserved three_cables gone)
        × (¬ IsConserved three_cables (reached_unlisted 0))
        × (¬ IsConserved three_cables (reached_unlisted 2))
        × (¬ IsConserved three_cables out_of_hops) }
    ensures unlisted_twice { (¬ IsConserved three_cables dropped_twice)
        × (¬ IsConserved three_cables dropped_on_its_way) }
    ensures hops { ¬ HasHopsLeft three_cables many_hops }
    ensures carried { (¬ AreCarried three_cables none_yet reached_from_afar)
        × (¬ AreCarried three_cables none_yet put_from_afar)
        × (¬ AreCarried three_cables none_yet same_hops) }
    ensures fifteen { (i : Internet) (n : ℕ) (cable : ℕ) (chain : List ℕ) → IsChain i n cable chain
        → length chain ≤ 15 }
    ensures taken { (¬ AreTakenThere three_cables [] taken_from_afar)
        × (¬ AreTakenThere three_cables [] taken_unput) }
    ensures handed { ¬ AreByHand three_cables false passed_back }
    ensures asked { ¬ IsLookedUp three_cables asked_alone (key_in (request blue_request)) }
    ensures looked { (¬ IsLookedUp three_cables looked_elsewhere (key_in (request blue_request)))
        × (¬ IsLookedUp three_cables forward_elsewhere (key_in (request blue_request)))
        × (¬ IsLookedUp three_cables looked_nowhere (key_in (request blue_request))) }
{}
