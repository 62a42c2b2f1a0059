//! Laws of transactions, for the crates that use this one. Each law is the contract of a function
//! that does nothing.

ghost use Rattle.std.specs.Prelude.{◌≡◌, ◌↔◌, ◌∷◌, [], List, Some, ℕ, false, true};
ghost use Rattle.at_base.specs.Spelling.{bytes_of, Begins};
ghost use Rattle.atp.specs.declared.ask.Ask.{Ask};
ghost use Rattle.atp.specs.declared.ask.AnswerPart.{AnswerPart};
ghost use Rattle.atp.specs.declared.outcome.Outcome.TheVariants.{Complete, Waiting};
ghost use Rattle.atp.specs.declared.ask.Peer.{Peer};
ghost use Rattle.atp.specs.declared.request.Request.{Request};
ghost use Rattle.atp.specs.declared.request.Todo.TheVariants.{Again};
ghost use Rattle.atp.specs.Bitmaps.{asks_for};
ghost use Rattle.atp.specs.Complete.{CompleteResponse, Step, history, is_missing, is_whole, run};
ghost use Rattle.atp.specs.CompleteExample.{heard, response, steps, three_parts};
ghost use Rattle.atp.specs.Keeping as keeping_spec;
ghost use Rattle.atp.specs.Keeping.{Event, lasts};
ghost use Rattle.atp.specs.Outcomes.{outcome_of};
ghost use Rattle.atp.specs.Packets.{AtpPacket, IsPacket, is_request, packet};
ghost use Rattle.atp.specs.Requesting as requesting_spec;
ghost use Rattle.atp.specs.Requesting.{IsAsk, begun, part_of};
ghost use Rattle.atp.specs.Responding as responding_spec;
ghost use Rattle.atp.specs.Responding.{answered, kept, request_of};

/// A packet that was written is read back, if nothing follows it.
pub fn written_is_read()
    ensures { (p : AtpPacket) → IsPacket p
        → Begins packet (bytes_of packet p) p
        × ((d : AtpPacket) → Begins packet (bytes_of packet p) d → d ≡ p) }
{}

/// A response is complete exactly when each of its parts was received. After any steps of a valid
/// transaction, its result is the first copy of each part, up to the least part marked as the end,
/// from the packets that it accepted. It waits while one of these parts is missing, and its request
/// asks for the missing parts.
///
/// The steps are the effects of a requester's calls on one transaction, between `begin`, which
/// leaves it as `begun`, and `result`, which returns its `outcome_of`: `heard` is a step `Came`,
/// `request` a step `Sent`, `tick` a step `Tick`, by their clauses on `known`.
pub fn complete_response()
    ensures complete { (steps : List Step) (id : ℕ) (ask : Ask) (parts : List AnswerPart)
        → IsAsk ask → let t = run steps (begun id ask) in
        (outcome_of t ≡ Complete parts)
        ↔ ((t.failed ≡ false) × CompleteResponse ask.parts (history steps id ask) parts) }
    ensures waiting { (steps : List Step) (id : ℕ) (ask : Ask) → IsAsk ask
        → let t = run steps (begun id ask) in
        (outcome_of t ≡ Waiting)
        ↔ ((t.failed ≡ false) × (is_whole ask.parts (history steps id ask) ≡ false)) }
    ensures missing { (steps : List Step) (id : ℕ) (ask : Ask) (i : ℕ) → IsAsk ask
        → asks_for (requesting_spec.request_of (run steps (begun id ask))).part i
        ≡ is_missing ask.parts (history steps id ask) i }
{}

/// An example: three parts are requested, and part 1 is the end. Packets that come twice, from
/// another socket or late aren't in the response. Without an end, the last part is missing until it
/// comes.
pub fn the_end_may_come_early()
    ensures asked { IsAsk three_parts }
    ensures heard { history steps 1 three_parts ≡ heard }
    ensures complete { CompleteResponse 3 heard
        (part_of (response 0x80 0 10) ∷ part_of (response 0x90 1 11) ∷ []) }
    ensures missing { (parts : List AnswerPart)
        → ¬ CompleteResponse 3 (response 0x80 0 10 ∷ response 0x80 1 11 ∷ []) parts }
{}

/// An answer to an exactly-once request is kept until it is released or its time is over. Until
/// then the asker gets it again for a request with the same ID, whichever kind that request is, so
/// the user isn't asked twice.
///
/// The events are the effects of a responder's calls, where they aren't refused: `heard`,
/// `respond`, `released` and `tick`.
pub fn a_kept_answer_lasts()
    ensures kept { (from : Peer) (id : ℕ) (parts : List AnswerPart) (requests : List Request)
        (r : Request) (events : List Event)
        → request_of from id requests ≡ Some r → r.once ≡ true
        → lasts from id r.release r.release events ≡ true
        → kept (request_of from id (keeping_spec.run events (answered from id parts requests)))
        ≡ Some parts }
    ensures again { (from : Peer) (id : ℕ) (requests : List Request) (parts : List AnswerPart)
        (p : AtpPacket)
        → kept (request_of from id requests) ≡ Some parts
        → p.id ≡ id → is_request p.control ≡ true → (responding_spec.heard from p requests).0 ≡ Again }
{}
