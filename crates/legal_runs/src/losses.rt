//! Laws of transcripts in which frames may be lost, and whose stamps rise without being
//! consecutive.

ghost use Rattle.std.specs.Prelude.{◌≡◌, [], Contains, List, false, ℕ};
ghost use Rattle.table_image.specs.Internet.{Internet};
ghost use Rattle.audit.specs.Example.{three_cables};
ghost use Rattle.audit.specs.Rules.{Passes};
ghost use Rattle.cable_model.specs.Transcript.{Entry, Lost};
ghost use Rattle.legal_runs.specs.Carriage.{AreByHand, AreCarried, AreTakenThere, none_yet};
ghost use Rattle.legal_runs.specs.Counts.{HasHopsLeft, reached, sent, under_way};
ghost use Rattle.legal_runs.specs.Example.{echo_request};
ghost use Rattle.legal_runs.specs.Illegal.{asked_alone, dropped_on_its_way, dropped_too};
ghost use Rattle.legal_runs.specs.Illegal.{dropped_twice, forward_elsewhere, gone};
ghost use Rattle.legal_runs.specs.Illegal.{looked_elsewhere, taken_from_afar};
ghost use Rattle.legal_runs.specs.Illegal.{looked_nowhere, many_hops, out_of_hops, passed_back};
ghost use Rattle.legal_runs.specs.Illegal.{passed_from_all};
ghost use Rattle.legal_runs.specs.Illegal.{put_from_afar, reached_alone, reached_elsewhere};
ghost use Rattle.legal_runs.specs.Illegal.{reached_from_afar, reached_unlisted, same_hops};
ghost use Rattle.legal_runs.specs.Illegal.{taken_twice};
ghost use Rattle.legal_runs.specs.IllegalLosses.{forward_lost_elsewhere};
ghost use Rattle.legal_runs.specs.IllegalLosses.{lost_after, lost_twice, lost_unknown, stamp_falls};
ghost use Rattle.legal_runs.specs.IllegalLosses.{stamp_twice, taken_after};
ghost use Rattle.legal_runs.specs.Legal.{IsLegal};
ghost use Rattle.legal_runs.specs.LookupExample.{blue_request};
ghost use Rattle.legal_runs.specs.Lookups as spec;
ghost use Rattle.legal_runs.specs.Lookups.{NodesOnlyAsk, forwards, taken};
ghost use Rattle.legal_runs.specs.LossCounts.{IsConservedWithLosses, IsLookedUpWithLosses, lost};
ghost use Rattle.legal_runs.specs.LossCounts.{lost_forwards, lost_requests};
ghost use Rattle.legal_runs.specs.LossExample.{echo_lost, echo_skips, forward_lost, lost_between};
ghost use Rattle.legal_runs.specs.LossyRuns.{IsLegalWithLosses};
ghost use Rattle.legal_runs.specs.Requests.{key_in, request};

/// Conservation with losses. A datagram to a listed network is under way once, has reached its
/// destination's cable once, or was lost once, and has reached no other cable. A datagram to a
/// network that is neither listed nor 0 is under way once, was dropped once, or was lost once. No
/// datagram is dropped because of its hop count.
pub fn conservation_with_losses()
    ensures { (i : Internet) (t : List Entry) → Passes i → IsLegalWithLosses i t
        → IsConservedWithLosses i t }
{}

/// Hops left, as without losses: the hop count of a datagram that is under way to a listed network
/// leaves enough hops for the routers that remain on its path.
pub fn hops_left_with_losses()
    ensures { (i : Internet) (t : List Entry) → Passes i → IsLegalWithLosses i t → HasHopsLeft i t }
{}

/// Carriage, as without losses: routers carry a datagram along its only walk, at most 15 of them,
/// stations put frames on cables that they are on and take frames from such cables, and hop counts
/// are the numbers of routers.
pub fn carriage_with_losses()
    ensures carried { (i : Internet) (t : List Entry) → Passes i → IsLegalWithLosses i t
        → AreCarried i none_yet t }
    ensures taken { (i : Internet) (t : List Entry) → Passes i → IsLegalWithLosses i t
        → AreTakenThere i [] t }
    ensures handed { (i : Internet) (t : List Entry) → Passes i → IsLegalWithLosses i t
        → AreByHand i false t }
{}

/// Lookups with losses, provided that no node sends a forward request or a lookup. For each
/// broadcast request that was taken, each cable that lists its zone has had one lookup, or a
/// forward request to it is under way or was lost; no other cable has had any of these. Each
/// broadcast request that was sent was taken, is still to be taken, or was lost.
pub fn lookups_with_losses()
    ensures { (i : Internet) (t : List Entry) (k : List ℕ)
        → Passes i → IsLegalWithLosses i t → NodesOnlyAsk i t → IsLookedUpWithLosses i t k }
{}

/// A legal transcript is legal with losses, and has none: no frame is lost, so that nothing is
/// counted as lost.
pub fn legal_is_lossy()
    ensures legal { (i : Internet) (t : List Entry) → IsLegal i t → IsLegalWithLosses i t }
    ensures none { (i : Internet) (t : List Entry) (stamp : ℕ) → IsLegal i t
        → ¬ Contains t (Lost stamp) }
    ensures counts { (i : Internet) (t : List Entry) (b k : List ℕ) (c : ℕ) → IsLegal i t
        → (lost i b t ≡ 0) × (lost_requests i k t ≡ 0) × (lost_forwards i k c t ≡ 0) }
{}

/// The echo request over three cables may be lost on the second cable, or while the node sends it
/// again; its frames may have stamps that aren't consecutive; and a forward request may be lost.
pub fn the_losses_are_legal()
    ensures lost { IsLegalWithLosses three_cables echo_lost }
    ensures lost_once { (sent (echo_request 0) echo_lost ≡ 1)
        × (reached (echo_request 0) 2 echo_lost ≡ 0)
        × (under_way three_cables (echo_request 0) echo_lost ≡ 0)
        × (lost three_cables (echo_request 0) echo_lost ≡ 1) }
    ensures skips { IsLegalWithLosses three_cables echo_skips }
    ensures reached_once { (sent (echo_request 0) echo_skips ≡ 1)
        × (reached (echo_request 0) 2 echo_skips ≡ 1) }
    ensures between { IsLegalWithLosses three_cables lost_between }
    ensures one_left { (sent (echo_request 0) lost_between ≡ 2)
        × (under_way three_cables (echo_request 0) lost_between ≡ 1)
        × (lost three_cables (echo_request 0) lost_between ≡ 1) }
    ensures forward { IsLegalWithLosses three_cables forward_lost }
    ensures forward_once { (taken three_cables (key_in (request blue_request)) forward_lost ≡ 1)
        × (spec.lookups three_cables (key_in (request blue_request)) 2 forward_lost ≡ 0)
        × (forwards three_cables (key_in (request blue_request)) 2 forward_lost ≡ 0)
        × (lost_forwards three_cables (key_in (request blue_request)) 2 forward_lost ≡ 1) }
{}

/// Transcripts that are not legal with losses: a frame is lost twice, or after it was taken; a
/// stamp is lost that no frame has; a frame is taken after it was lost; two frames have the same
/// stamp; and a frame has a smaller stamp than an earlier one.
pub fn losses_exclude()
    ensures twice { ¬ IsLegalWithLosses three_cables lost_twice }
    ensures after { ¬ IsLegalWithLosses three_cables lost_after }
    ensures unknown { ¬ IsLegalWithLosses three_cables lost_unknown }
    ensures taken { ¬ IsLegalWithLosses three_cables taken_after }
    ensures same { ¬ IsLegalWithLosses three_cables stamp_twice }
    ensures falls { ¬ IsLegalWithLosses three_cables stamp_falls }
{}

/// The transcripts that `words_exclude` names are not legal with losses either, so that each part
/// of the laws with losses excludes something.
pub fn words_exclude_with_losses()
    ensures reached { ¬ IsLegalWithLosses three_cables reached_alone }
    ensures elsewhere { ¬ IsLegalWithLosses three_cables reached_elsewhere }
    ensures dropped { ¬ IsLegalWithLosses three_cables dropped_too }
    ensures afar { (¬ IsLegalWithLosses three_cables reached_from_afar)
        × (¬ IsLegalWithLosses three_cables put_from_afar) }
    ensures taken { ¬ IsLegalWithLosses three_cables taken_twice }
    ensures taken_afar { ¬ IsLegalWithLosses three_cables taken_from_afar }
    ensures heard { ¬ IsLegalWithLosses three_cables passed_from_all }
    ensures handed { ¬ IsLegalWithLosses three_cables passed_back }
    ensures hops { (¬ IsLegalWithLosses three_cables same_hops) × (¬ IsLegalWithLosses three_cables many_hops) }
    ensures unlisted { (¬ IsLegalWithLosses three_cables gone) × (¬ IsLegalWithLosses three_cables (reached_unlisted 0))
        × (¬ IsLegalWithLosses three_cables out_of_hops) }
    ensures unlisted_twice { (¬ IsLegalWithLosses three_cables dropped_twice)
        × (¬ IsLegalWithLosses three_cables dropped_on_its_way) }
    ensures looked { ¬ IsLegalWithLosses three_cables looked_elsewhere }
    ensures not_looked { ¬ IsLegalWithLosses three_cables looked_nowhere }
    ensures asked { ¬ IsLegalWithLosses three_cables asked_alone }
{}

/// The laws with losses themselves exclude what `words_exclude` names of counts and lookups.
pub fn laws_exclude_with_losses()
    ensures counted { (¬ IsConservedWithLosses three_cables reached_alone)
        × (¬ IsConservedWithLosses three_cables taken_twice)
        × (¬ IsConservedWithLosses three_cables passed_from_all) }
    ensures elsewhere { ¬ IsConservedWithLosses three_cables reached_elsewhere }
    ensures kept { ¬ IsConservedWithLosses three_cables dropped_too }
    ensures unlisted { (¬ IsConservedWithLosses three_cables gone)
        × (¬ IsConservedWithLosses three_cables (reached_unlisted 0))
        × (¬ IsConservedWithLosses three_cables (reached_unlisted 2))
        × (¬ IsConservedWithLosses three_cables out_of_hops) }
    ensures unlisted_twice { (¬ IsConservedWithLosses three_cables dropped_twice)
        × (¬ IsConservedWithLosses three_cables dropped_on_its_way) }
    ensures asked { ¬ IsLookedUpWithLosses three_cables asked_alone
        (key_in (request blue_request)) }
    ensures looked { (¬ IsLookedUpWithLosses three_cables looked_elsewhere
        (key_in (request blue_request)))
        × (¬ IsLookedUpWithLosses three_cables forward_elsewhere (key_in (request blue_request)))
        × (¬ IsLookedUpWithLosses three_cables forward_lost_elsewhere
        (key_in (request blue_request)))
        × (¬ IsLookedUpWithLosses three_cables looked_nowhere (key_in (request blue_request))) }
{}
