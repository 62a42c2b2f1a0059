//! Laws of stations that hold the tables of an internet that passes the audit, for use by other
//! crates. The functions do nothing: each law is the function's ensures clause.

ghost use Rattle.std.specs.Prelude.{◌≡◌, ◌+◌, ◌∷◌, ℕ, List, Contains, length};
ghost use Rattle.audit.specs.Rules.{Passes};
ghost use Rattle.cable_model.specs.Outcomes as outcomes_spec;
ghost use Rattle.cable_model.specs.Outcomes.{all_entries, heard_by};
ghost use Rattle.cable_model.specs.Pending.{Pair, pending};
ghost use Rattle.cable_model.specs.Transcript.{Entry, Sent, Took, stamps};
ghost use Rattle.end_node.specs.Answers as answers_spec;
ghost use Rattle.end_node.specs.Holding.{NodeHolding};
ghost use Rattle.image_stations.specs.Holders.{HoldsNode, HoldsRouter};
ghost use Rattle.legal_runs.specs.Answers.{IsMade, IsOwn};
ghost use Rattle.legal_runs.specs.Legal.{Block, IsLegal};
ghost use Rattle.legal_runs.specs.Legs.{Leg, places_of};
ghost use Rattle.legal_runs.specs.Stations.{cable_seats};
ghost use Rattle.router.specs.Answers.{Hears};
ghost use Rattle.router.specs.Holding.{Holding};
ghost use Rattle.station.specs.Lawful.{AreLawful};
ghost use Rattle.station.specs.declared.output.Output.{Output};
ghost use Rattle.table_image.specs.Bounds.{IsBounded};
ghost use Rattle.table_image.specs.Internet.{Internet};

/// If a router with the image's tables takes a pending frame, the entries that follow are a block
/// of a legal transcript, and the router still holds the image's tables.
pub fn routers_takes_are_legal()
    ensures { (i : Internet) (t : List Entry) (p : Pair) (n : ℕ) (old new : Holding)
        (added : List Output)
        → Passes i → IsBounded i → IsLegal i t → Contains (pending (cable_seats i) t) p
        → HoldsRouter i p.seat.station old → Hears old (heard_by p) added new → AreLawful n added
        → Block i t (Took p.frame.stamp p.seat.station
        ∷ all_entries (places_of i) (cable_seats i) p.seat.station (stamps t) added)
        × HoldsRouter i p.seat.station new }
{}

/// If a node with the image's contents takes a pending frame, the entries that follow are a block
/// of a legal transcript, and the node still holds the image's contents.
pub fn nodes_takes_are_legal()
    ensures { (i : Internet) (t : List Entry) (p : Pair) (k n : ℕ) (old new : NodeHolding)
        (added : List Output)
        → Passes i → IsBounded i → IsLegal i t → Contains (pending (cable_seats i) t) p
        → p.seat.station ≡ length i.routers + k
        → HoldsNode i k old → answers_spec.Hears old (heard_by p) added new → AreLawful n added
        → Block i t (Took p.frame.stamp p.seat.station
        ∷ all_entries (places_of i) (cable_seats i) p.seat.station (stamps t) added)
        × HoldsNode i k new }
{}

/// If a node sends a datagram on its own initiative, the entries that follow are a block of a legal
/// transcript.
pub fn sendings_are_legal()
    ensures { (i : Internet) (t : List Entry) (l : Leg) → IsMade i l → IsOwn i l
        → Block i t (Sent l.station l.body ∷ outcomes_spec.leg (places_of i)
        (record { stamp = stamps t; cable = l.cable; station = l.station }) l.next l.body) }
{}
