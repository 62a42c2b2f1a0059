//! Laws of routers that hold the tables of an internet that passes the audit, for use by other
//! crates. The functions do nothing: each law is the function's ensures clause.

ghost use Rattle.std.specs.Prelude.{◌≡◌, ℕ, [], ◌∷◌, IsTrue, List, Some, true};
ghost use Rattle.std.specs.List.{All, AllByRecursion as Each};
ghost use Rattle.at_base.specs.Text.{is_name};
ghost use Rattle.at_base.specs.declared.address.Hw.{Hw};
ghost use Rattle.audit.specs.Example.{first_router, three_cables};
ghost use Rattle.audit.specs.Routing.{home};
ghost use Rattle.audit.specs.Rules.{Passes};
ghost use Rattle.audit.specs.Walks.{HasPort};
ghost use Rattle.ddp.specs.Datagram.{Datagram};
ghost use Rattle.image_stations.specs.Holders.{HoldsRouter};
ghost use Rattle.legal_stations.specs.Agreeing.{Agree};
ghost use Rattle.legal_stations.specs.Disagreeing.{by_no_port, by_the_second_port};
ghost use Rattle.legal_stations.specs.Disagreeing.{over_the_first_cable, round_about, rowless};
ghost use Rattle.legal_stations.specs.Disagreeing.{said_to_be_there, through_nobody, to_unlisted};
ghost use Rattle.legal_stations.specs.Disagreeing.{unlisted_there};
ghost use Rattle.legal_stations.specs.Made.{legs};
ghost use Rattle.legal_runs.specs.Answers.{Expands, IsLookup, IsMade};
ghost use Rattle.legal_runs.specs.Legs.{Leg};
ghost use Rattle.legal_runs.specs.Requests.{listing, zone_of};
ghost use Rattle.nbp.specs.Packets.{NbpPacket, key};
ghost use Rattle.nbp.specs.declared.packet.Function.TheVariants.{BroadcastRequest, ForwardRequest};
ghost use Rattle.router.specs.Holding.{Holding};
ghost use Rattle.router.specs.Requests.{requests_made};
ghost use Rattle.nbp.specs.Packets.{names_in};
ghost use Rattle.station.specs.Lawful.{IsGood, are_bytes};
ghost use Rattle.station.specs.declared.output.DropCause.{DropCause};
ghost use Rattle.station.specs.declared.output.Next.{Next};
ghost use Rattle.station.specs.declared.output.Output.TheVariants.{Dropped, Kept, Passed, Wire};
ghost use Rattle.table_image.specs.Bounds.{IsBounded};
ghost use Rattle.table_image.specs.Internet.{Internet};

/// A router that holds the tables of the image hands a datagram on as the image says: neither has a
/// route; or both put it on the cable of one of the router's ports, which is the home of the
/// network; or both hand it, over the cable of one of the router's ports, to the owner of an
/// address there.
pub fn hands_agree()
    ensures { (i : Internet) (r n : ℕ) (h : Holding) → Passes i → (holds : HoldsRouter i r h)
        → Agree i r holds.router h n }
{}

/// Tables with which the first router of the example doesn't agree with the image: none; the row of
/// its own cable by another port, by none of its ports, or through another router; the row of the
/// last cable as if it were there, by another port, or through an address that nobody has; and a row
/// for a network that no cable has.
pub fn agreement_excludes()
    ensures nowhere { (¬ Agree three_cables 0 first_router rowless 10)
        × (¬ Agree three_cables 0 first_router rowless 30) }
    ensures there { (¬ Agree three_cables 0 first_router by_the_second_port 10)
        × (¬ Agree three_cables 0 first_router by_no_port 10)
        × (¬ Agree three_cables 0 first_router said_to_be_there 30)
        × (¬ Agree three_cables 0 first_router unlisted_there 50) }
    ensures on { (¬ Agree three_cables 0 first_router round_about 10)
        × (¬ Agree three_cables 0 first_router over_the_first_cable 30)
        × (¬ Agree three_cables 0 first_router through_nobody 30)
        × (¬ Agree three_cables 0 first_router to_unlisted 50) }
{}

/// Of a station's outputs only the datagrams that it made are legs.
pub fn legs_are_of_made_datagrams()
    ensures passed { (i : Internet) (s q : ℕ) (to : Next) (bytes : List ℕ) → legs i s (Passed q to bytes ∷ []) ≡ [] }
    ensures kept { (i : Internet) (s q : ℕ) (bytes : List ℕ) → legs i s (Kept q bytes ∷ []) ≡ [] }
    ensures dropped { (i : Internet) (s : ℕ) (cause : DropCause) (bytes : List ℕ)
        → legs i s (Dropped cause bytes ∷ []) ≡ [] }
    ensures wire { (i : Internet) (s q : ℕ) (to : Hw) (bytes : List ℕ) → legs i s (Wire q to bytes ∷ []) ≡ [] }
{}

/// The requests that a router makes from a broadcast request that ends at it: for each cable that
/// lists the zone, in increasing order of ranges, one lookup on that cable or one forward request
/// to it, with the request's key. Each is a whole datagram and leaves in an allowed way. Inside
/// AppleTalk, the chapter on NBP.
pub fn broadcast_requests_expand()
    ensures { (i : Internet) (r n : ℕ) (h : Holding) (d : Datagram) (p : NbpPacket)
        → Passes i → IsBounded i → HoldsRouter i r h
        → IsTrue (are_bytes d.payload) → names_in d.payload ≡ Some p
        → p.function ≡ BroadcastRequest
        → All (IsGood n) (requests_made h d (Some p))
        → Expands i (key p) r (listing i (zone_of (key p))) (legs i r (requests_made h d (Some p)))
        × Each (IsMade i) (legs i r (requests_made h d (Some p))) }
{}

/// The request that a router makes from a forward request for a zone that ends at it, if the router
/// has a port on the target's cable: one lookup on that cable, with the request's key. It is a
/// whole datagram and leaves in an allowed way. Inside AppleTalk, the chapter on NBP.
pub fn forward_requests_are_looked_up()
    ensures { (i : Internet) (r n c : ℕ) (h : Holding) (d : Datagram) (p : NbpPacket)
        → Passes i → IsBounded i → HoldsRouter i r h
        → IsTrue (are_bytes d.payload) → names_in d.payload ≡ Some p
        → p.function ≡ ForwardRequest → is_name (zone_of (key p)) ≡ true
        → home i d.target.net ≡ Some c → HasPort i r c
        → All (IsGood n) (requests_made h d (Some p))
        → (l : Leg) × (legs i r (requests_made h d (Some p)) ≡ l ∷ [])
        × IsLookup i (key p) r c l × IsMade i l }
{}
