//! Laws of transcripts in which stations resolve addresses, for use by other crates. The functions
//! do nothing: each law is the function's ensures clause.

ghost use Rattle.std.specs.Prelude.{◌≡◌, ◌≤◌, ◌++◌, ◌∷◌, [], List, drop, false, length, take, ℕ};
ghost use Rattle.at_base.specs.Limits.{max_held};
ghost use Rattle.table_image.specs.Internet.{Internet};
ghost use Rattle.audit.specs.Rules.{Passes};
ghost use Rattle.cable_model.specs.Holdings.{still_held};
ghost use Rattle.cable_model.specs.Pending.{Pair, pending};
ghost use Rattle.cable_model.specs.Transcript.{ArePutOnce, Entry, count, Lost};
ghost use Rattle.legal_runs.specs.Carriage.{AreByHand, AreTakenThere, none_yet};
ghost use Rattle.legal_runs.specs.Counts.{reached, sent, under_way};
ghost use Rattle.legal_runs.specs.Example.{echo, echo_reply, echo_request, framed, to_nobody};
ghost use Rattle.legal_runs.specs.Example.{plain as plain_to};
ghost use Rattle.legal_runs.specs.Illegal.{forward_elsewhere, looked_elsewhere, many_hops};
ghost use Rattle.legal_runs.specs.Legs.{fate, leg};
ghost use Rattle.legal_runs.specs.LossCounts.{lost};
ghost use Rattle.legal_runs.specs.LossyRuns.{IsLegalWithLosses};
ghost use Rattle.legal_runs.specs.Lookups.{NodesOnlyAsk};
ghost use Rattle.legal_runs.specs.Stations.{cable_seats};
ghost use Rattle.resolved_runs.specs.AskedFor.{AreAskedFor, AreHeard, AreHeardOrOnTheirWay};
ghost use Rattle.resolved_runs.specs.AskedFor.{AreHeldOnce};
ghost use Rattle.resolved_runs.specs.Example as example;
ghost use Rattle.resolved_runs.specs.Example.{echo_again, full_ring, plain_echo, resolved_echo};
ghost use Rattle.resolved_runs.specs.Example.{resolved_to_nobody, ring_released, unmapped};
ghost use Rattle.resolved_runs.specs.Excluded.{another_told, asked_by_another, asked_elsewhere};
ghost use Rattle.resolved_runs.specs.Excluded.{asked_for_another, asked_from_afar};
ghost use Rattle.resolved_runs.specs.Excluded.{asked_in_a_datagram, blue_key, told_by_another};
ghost use Rattle.resolved_runs.specs.Excluded.{forward_given_up_elsewhere, forward_held_and_put};
ghost use Rattle.resolved_runs.specs.Excluded.{forward_held_elsewhere};
ghost use Rattle.resolved_runs.specs.Excluded.{given_up_and_held, given_up_and_reached};
ghost use Rattle.resolved_runs.specs.Excluded.{heard_and_held, heard_as_packet, heard_by_all};
ghost use Rattle.resolved_runs.specs.Excluded.{heard_by_another, held_and_dropped};
ghost use Rattle.resolved_runs.specs.Excluded.{held_for_nobody};
ghost use Rattle.resolved_runs.specs.Excluded.{held_and_elsewhere, held_and_put, held_back};
ghost use Rattle.resolved_runs.specs.Excluded.{held_with_hops, not_forwarded, one_held, one_stamp};
ghost use Rattle.resolved_runs.specs.Excluded.{held_twice, own_held, released_from_afar};
ghost use Rattle.resolved_runs.specs.Excluded.{released_twice, released_with_hops};
ghost use Rattle.resolved_runs.specs.Excluded.{given_up_later, held_there_twice, lost_at_once};
ghost use Rattle.resolved_runs.specs.Excluded.{newest_given_up, own_given_up, request_given_up};
ghost use Rattle.resolved_runs.specs.Excluded.{request_held_and_put, request_taken_from_afar};
ghost use Rattle.resolved_runs.specs.Excluded.{unlisted_and_dropped, unlisted_and_reached};
ghost use Rattle.resolved_runs.specs.Excluded.{unlisted_out_of_hops, vanished};
ghost use Rattle.resolved_runs.specs.Fates.{fate_with};
ghost use Rattle.resolved_runs.specs.Fitting.{SeatsFit};
ghost use Rattle.resolved_runs.specs.HeldChains.{AreCarriedOrHeld};
ghost use Rattle.resolved_runs.specs.HeldCounts.{given_up, under_way_or_held};
ghost use Rattle.resolved_runs.specs.Illegal.{answered_for_another, asked_again, asked_for_each};
ghost use Rattle.resolved_runs.specs.Illegal.{given_up_put, held_though_mapped};
ghost use Rattle.resolved_runs.specs.Illegal.{learnt_from_request, new_stamp, one_released};
ghost use Rattle.resolved_runs.specs.Illegal.{put_twice, put_unmapped, reached_again};
ghost use Rattle.resolved_runs.specs.Illegal.{second_given_up};
ghost use Rattle.resolved_runs.specs.Lossless.{IsNothingGivenUp, is_loss};
ghost use Rattle.resolved_runs.specs.Plain.{plain};
ghost use Rattle.resolved_runs.specs.Resolved.{held_at};
ghost use Rattle.resolved_runs.specs.ResolvedLaws.{HasHopsLeftResolved, IsConservedResolved};
ghost use Rattle.resolved_runs.specs.ResolvedLaws.{IsLookedUpResolved};
ghost use Rattle.resolved_runs.specs.ResolvedRuns.{IsLegalResolved};
ghost use Rattle.resolved_runs.specs.Rings.{AreFewHeld, AreHeldAsReached, AreShed};

/// Where every hardware address is known, the fate of a datagram is that of a plain run.
pub fn plain_legs_have_plain_fates()
    ensures { (i : Internet) (stamp : ℕ) (p : Pair) → fate_with i (leg i stamp) p ≡ fate i stamp p }
{}

/// Erasure: the plain transcript of a transcript that is legal with resolution is legal with losses.
pub fn plain_transcripts_are_legal()
    ensures { (i : Internet) (t : List Entry) → Passes i → SeatsFit i → IsLegalResolved i t
        → IsLegalWithLosses i (plain i t) }
{}

/// Conservation. A datagram to a listed network is under way or held for a router once, has reached
/// its destination's cable once, or was given up once, and has reached no other cable. A datagram to
/// a network that is neither listed nor 0 is under way or held once, was dropped once or was given up
/// once. No datagram is dropped because of its hop count.
pub fn conservation_with_resolution()
    ensures { (i : Internet) (t : List Entry) → Passes i → SeatsFit i → IsLegalResolved i t
        → IsConservedResolved i t }
{}

/// Hops left: the hop count of a datagram that is under way to a listed network, or held for the
/// next router, leaves enough hops for the routers that remain on its path.
pub fn hops_left_with_resolution()
    ensures { (i : Internet) (t : List Entry) → Passes i → SeatsFit i → IsLegalResolved i t
        → HasHopsLeftResolved i t }
{}

/// Lookups, provided that no node sends a forward request or a lookup. For each broadcast request
/// that was taken, each cable that lists its zone has had one lookup, or a forward request to it is
/// under way, held or was given up; no other cable has had any of these. Each broadcast request that
/// was sent was taken, is pending, is held or was given up.
pub fn lookups_with_resolution()
    ensures { (i : Internet) (t : List Entry) (k : List ℕ)
        → Passes i → SeatsFit i → IsLegalResolved i t → NodesOnlyAsk i t → IsLookedUpResolved i t k }
{}

/// Asked for. Each datagram is held once and released at most once; and for each one that is held
/// for a station, a request for that station's address, or the station's response to the holder, is
/// pending.
pub fn held_datagrams_are_asked_for()
    ensures once { (i : Internet) (t : List Entry) → Passes i → SeatsFit i → IsLegalResolved i t
        → AreHeldOnce t }
    ensures put_once { (i : Internet) (t : List Entry) → Passes i → SeatsFit i → IsLegalResolved i t
        → ArePutOnce t }
    ensures asked { (i : Internet) (t : List Entry) → Passes i → SeatsFit i → IsLegalResolved i t
        → AreAskedFor i t }
{}

/// Where no entry is a loss, nothing was given up: then the counts of the laws with resolution are
/// those without.
pub fn nothing_is_given_up_without_losses()
    ensures { (i : Internet) (t : List Entry) → count is_loss t ≡ 0 → IsNothingGivenUp i t }
{}

/// When stations hold datagrams, and give them up. A datagram is held for the station that it is
/// addressed to once for each time that it reached its cable. A station holds at most sixteen
/// datagrams on a cable; what is given up is the oldest of sixteen, directly after one more was held
/// there. So where no station holds seventeen on a cable at once, nothing is given up.
pub fn full_rings_give_up_their_oldest()
    ensures reached { (i : Internet) (t : List Entry) → IsLegalResolved i t → AreHeldAsReached t }
    ensures most { (i : Internet) (t : List Entry) (station cable : ℕ) → IsLegalResolved i t
        → length (held_at t station cable) ≤ max_held }
    ensures oldest { (i : Internet) (t : List Entry) → IsLegalResolved i t → AreShed t }
    ensures none { (i : Internet) (t : List Entry) → IsLegalResolved i t → AreFewHeld t
        → IsNothingGivenUp i t }
{}

/// Heard. Each body to a station's address was taken by that station, is on its way in frames or
/// held, or was given up while it was held, as often as it was sent. So where no frame is pending,
/// it was taken or given up as often as it was sent.
pub fn datagrams_are_heard()
    ensures always { (i : Internet) (t : List Entry) → Passes i → SeatsFit i → IsLegalResolved i t
        → AreHeardOrOnTheirWay i t }
    ensures at_rest { (i : Internet) (t : List Entry) → Passes i → SeatsFit i → IsLegalResolved i t
        → AreHeard i t }
{}

/// Carriage. A datagram that reached a cable was carried by no router, or by the routers of its only
/// walk, at most 15. A station that puts a frame on a cable is on that cable, and the hop count of a
/// datagram in the frame is the number of routers that have carried it. A station that takes a frame
/// is on the frame's cable. In the plain transcript, a router that carries a datagram on puts it on
/// the cable of the walk's step.
pub fn carriage_with_resolution()
    ensures carried { (i : Internet) (t : List Entry) → Passes i → SeatsFit i → IsLegalResolved i t
        → AreCarriedOrHeld i none_yet t }
    ensures taken { (i : Internet) (t : List Entry) → Passes i → SeatsFit i → IsLegalResolved i t
        → AreTakenThere i [] t }
    ensures handed { (i : Internet) (t : List Entry) → Passes i → SeatsFit i → IsLegalResolved i t
        → AreByHand i false (plain i t) }
{}

/// Where no station has a mapping, the echo over three cables is legal: each of its two datagrams
/// is held by each of its three stations, and reaches its destination's cable once. A second echo
/// needs no requests.
pub fn the_resolved_echo_is_legal()
    ensures legal { IsLegalResolved unmapped resolved_echo }
    ensures entries { length resolved_echo ≡ 46 }
    ensures asked { (sent (echo_request 0) resolved_echo ≡ 1)
        × (reached (echo_request 0) 2 resolved_echo ≡ 1) }
    ensures replied { (sent (echo_reply 0) resolved_echo ≡ 1)
        × (reached (echo_reply 0) 0 resolved_echo ≡ 1) }
    ensures done { (under_way_or_held unmapped (echo_request 0) resolved_echo ≡ 0)
        × (under_way_or_held unmapped (echo_reply 0) resolved_echo ≡ 0) }
    ensures again { IsLegalResolved unmapped (resolved_echo ++ echo_again) }
    ensures entries_again { length (resolved_echo ++ echo_again) ≡ 62 }
{}

/// Where every neighbour is mapped, the plain echo is legal.
pub fn the_mapped_echo_is_legal()
    ensures { IsLegalResolved example.mapped echo }
{}

/// A datagram to an address that no station has is legal: the router on its cable holds it, and
/// nothing is pending.
pub fn the_absent_are_held()
    ensures legal { IsLegalResolved unmapped resolved_to_nobody }
    ensures entries { length resolved_to_nobody ≡ 12 }
    ensures reached { reached (plain_to 0 10 9) 0 resolved_to_nobody ≡ 1 }
    ensures held { length (still_held resolved_to_nobody) ≡ 1 }
    ensures quiet { pending (cable_seats unmapped) resolved_to_nobody ≡ [] }
{}

/// Seventeen datagrams that a node sends before its router answers are legal: sixteen are held, the
/// oldest is given up, and one request is pending. Its response releases the sixteen.
pub fn a_full_ring_gives_up_its_oldest()
    ensures legal { IsLegalResolved unmapped full_ring }
    ensures entries { length full_ring ≡ 36 }
    ensures counts { (sent (echo_request 0) full_ring ≡ 17)
        × (under_way_or_held unmapped (echo_request 0) full_ring ≡ 16)
        × (given_up unmapped (echo_request 0) full_ring ≡ 1) }
    ensures held { length (still_held full_ring) ≡ 16 }
    ensures pending { length (pending (cable_seats unmapped) full_ring) ≡ 1 }
    ensures released { IsLegalResolved unmapped ring_released }
    ensures none_held { still_held ring_released ≡ [] }
{}

/// The plain transcript of the echo is legal with losses: each frame stands where its datagram was
/// held. That of a datagram for an absent station is as ever, and a plain transcript stays as it
/// is. In that of the full ring as many copies are under way and lost as were held and given up.
pub fn examples_have_plain_transcripts()
    ensures echo { plain unmapped resolved_echo ≡ plain_echo }
    ensures legal { IsLegalWithLosses unmapped plain_echo }
    ensures nobody { plain unmapped resolved_to_nobody ≡ to_nobody }
    ensures mapped { plain example.mapped echo ≡ echo }
    ensures ring { (sent (echo_request 0) (plain unmapped full_ring) ≡ 17)
        × (under_way unmapped (echo_request 0) (plain unmapped full_ring) ≡ 16)
        × (lost unmapped (echo_request 0) (plain unmapped full_ring) ≡ 1) }
{}

/// Transcripts that are not legal: each has an entry that doesn't follow from those before it. They
/// have a datagram that reaches its cable once more when it is released; a request for an address
/// that was asked for, with a further datagram held or without; a response by a station that
/// doesn't have the address; a response that releases one of two datagrams; a frame with another
/// stamp than its holding; one that is put twice, or after its datagram was given up; a datagram
/// that is held although its next station is mapped, or put although it isn't; another datagram
/// given up than the oldest; and a mapping that is taken from a request.
pub fn words_exclude_with_resolution()
    ensures released { (¬ IsLegalResolved unmapped reached_again) × (¬ IsLegalResolved unmapped one_released)
        × (¬ IsLegalResolved unmapped new_stamp) × (¬ IsLegalResolved unmapped put_twice) }
    ensures asked { (¬ IsLegalResolved unmapped asked_for_each) × (¬ IsLegalResolved unmapped asked_again) }
    ensures answered { ¬ IsLegalResolved example.mapped answered_for_another }
    ensures known { (¬ IsLegalResolved example.mapped held_though_mapped) × (¬ IsLegalResolved unmapped put_unmapped)
        × (¬ IsLegalResolved unmapped learnt_from_request) }
    ensures shed { (¬ IsLegalResolved unmapped given_up_put) × (¬ IsLegalResolved unmapped second_given_up) }
{}

/// Four of the transcripts of `words_exclude_with_resolution`, which are no beginnings of the
/// examples, are legal without their mistakes: the datagram reaches its cable once, both datagrams
/// are released, one request is enough for them, and the printer doesn't answer.
pub fn they_are_legal_without_mistakes()
    ensures reached { IsLegalResolved unmapped (take 7 reached_again ++ drop 8 reached_again) }
    ensures released { IsLegalResolved unmapped
        (one_released ++ framed 2 0 2 1 (echo_request 0) ∷ []) }
    ensures asked { IsLegalResolved unmapped (take 5 asked_for_each) }
    ensures answered { IsLegalResolved example.mapped (take 9 answered_for_another) }
{}

/// Transcripts that break the laws with resolution, so that each part of these excludes something.
/// They have a datagram that vanished; one that is held, and is in a frame, reached another cable
/// or was dropped; one that was given up, and is held or reached its cable; one to an unlisted
/// network that is held and was dropped, or reached a cable; one dropped because of its hop count,
/// and one held with too many hops for the routers that remain; a cable reached, a request put, or
/// one taken by a station that isn't on the cable; one released with another hop count than it was
/// held with; one held on another cable than that of the walk's step; a request for names that is
/// held and in a frame; a forward request that is missing, that is held and in a frame, or that is
/// held, in a frame or given up for a cable that doesn't list the zone, and a lookup there; two
/// datagrams held with one stamp, one held twice, and one released twice; one for an address that
/// nobody has that reached its cable once and is held twice; one given up where no other is held, the
/// newest and the second oldest of sixteen given up, and the oldest given up later than it must be;
/// one that is held and isn't asked for, but another address is, or another station asks, or the request is a datagram,
/// or the answer tells another address, or is another station's, or the request is on another
/// cable; one given up of seventeen, and a request for names, a forward request and a datagram to a
/// router's own address that were given up; one that was heard and is held, one heard or on its way
/// in a frame to all or in an AARP frame, one held or given up for an address that nobody has, one
/// held where no frame is pending, and one that another station took.
pub fn laws_exclude_with_resolution()
    ensures counted { (¬ IsConservedResolved unmapped vanished)
        × (¬ IsConservedResolved unmapped held_and_put)
        × (¬ IsConservedResolved unmapped given_up_and_held)
        × (¬ IsConservedResolved unmapped given_up_and_reached) }
    ensures elsewhere { ¬ IsConservedResolved unmapped held_and_elsewhere }
    ensures kept { ¬ IsConservedResolved unmapped held_and_dropped }
    ensures unlisted { (¬ IsConservedResolved unmapped unlisted_and_dropped)
        × (¬ IsConservedResolved unmapped (unlisted_and_reached 0))
        × (¬ IsConservedResolved unmapped (unlisted_and_reached 2))
        × (¬ IsConservedResolved unmapped unlisted_out_of_hops) }
    ensures hops { (¬ HasHopsLeftResolved unmapped many_hops)
        × (¬ HasHopsLeftResolved unmapped held_with_hops) }
    ensures carried { (¬ AreCarriedOrHeld unmapped none_yet released_from_afar)
        × (¬ AreCarriedOrHeld unmapped none_yet asked_from_afar)
        × (¬ AreCarriedOrHeld unmapped none_yet released_with_hops) }
    ensures taken { ¬ AreTakenThere unmapped [] request_taken_from_afar }
    ensures handed { ¬ AreByHand unmapped false (plain unmapped held_back) }
    ensures requested { ¬ IsLookedUpResolved unmapped request_held_and_put blue_key }
    ensures looked { (¬ IsLookedUpResolved unmapped not_forwarded blue_key)
        × (¬ IsLookedUpResolved unmapped forward_held_and_put blue_key)
        × (¬ IsLookedUpResolved unmapped looked_elsewhere blue_key)
        × (¬ IsLookedUpResolved unmapped forward_elsewhere blue_key)
        × (¬ IsLookedUpResolved unmapped forward_held_elsewhere blue_key)
        × (¬ IsLookedUpResolved unmapped forward_given_up_elsewhere blue_key) }
    ensures once { (¬ AreHeldOnce one_stamp) × (¬ AreHeldOnce held_twice) }
    ensures put_once { ¬ ArePutOnce released_twice }
    ensures reached { ¬ AreHeldAsReached held_there_twice }
    ensures shed { (¬ AreShed lost_at_once) × (¬ AreShed newest_given_up)
        × (¬ AreShed second_given_up) × (¬ AreShed given_up_later) }
    ensures asked { (¬ AreAskedFor unmapped one_held) × (¬ AreAskedFor unmapped asked_for_another)
        × (¬ AreAskedFor unmapped asked_by_another) × (¬ AreAskedFor unmapped asked_in_a_datagram)
        × (¬ AreAskedFor unmapped another_told) × (¬ AreAskedFor unmapped told_by_another)
        × (¬ AreAskedFor unmapped asked_elsewhere) }
    ensures given_up { (¬ IsNothingGivenUp unmapped full_ring)
        × (¬ IsNothingGivenUp unmapped request_given_up)
        × (¬ IsNothingGivenUp unmapped forward_given_up_elsewhere)
        × (¬ IsNothingGivenUp unmapped own_given_up) }
    ensures heard { (¬ AreHeardOrOnTheirWay unmapped heard_and_held)
        × (¬ AreHeardOrOnTheirWay unmapped heard_by_all)
        × (¬ AreHeardOrOnTheirWay unmapped (take 2 heard_by_all))
        × (¬ AreHeardOrOnTheirWay unmapped heard_as_packet)
        × (¬ AreHeardOrOnTheirWay unmapped (take 2 heard_as_packet))
        × (¬ AreHeardOrOnTheirWay unmapped held_for_nobody)
        × (¬ AreHeardOrOnTheirWay unmapped (held_for_nobody ++ Lost 0 ∷ [])) }
    ensures at_rest { (¬ AreHeard unmapped own_held) × (¬ AreHeard unmapped heard_by_another) }
{}
