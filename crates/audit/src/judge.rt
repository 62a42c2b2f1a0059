//! The audit of an internet: the rules, one after the other.

ghost use Rattle.std.specs.Prelude.{◌≡◌, true, None};
ghost use Rattle.audit.specs.Firsts.{FirstPlace};
ghost use Rattle.audit.specs.Mapped.{MappingsAreTrue};
ghost use Rattle.audit.specs.Rules.{c1, c2, c6, c7};
ghost use Rattle.audit.specs.Served.{NodesAreServed};
ghost use Rattle.audit.specs.Straight.{AreStraight};
ghost use Rattle.audit.specs.Verdicts.{Judges, OnYes};
ghost use Rattle.audit.specs.Walks.{WalksHome};
ghost use Rattle.audit.specs.ZoneLists.{ZonesAgree};

use crate::cables::bad_cable;
use crate::mappings::bad_mapping;
use crate::next::Hints;
use crate::nodes::unserved_node;
use crate::rows::bad_row;
use crate::rule::Rule;
use crate::stations::bad_station;
use crate::straight::are_straight;
use crate::summary::summarize;
use crate::verdict::Verdict;
use crate::zone_lists::bad_zone_list;
use at_base::Place;
use table_image::Image;

// The first place that breaks C6, if any. A row that breaks C6 breaks C7 too, so the rows are
// searched again only if C7 is broken.
fn bad_next(image: &Image, hints: &Hints, straight: bool, steps: Option<Place>) -> Option<Place>
    requires cables { FirstPlace (c1 image.now) None }
    requires stations { FirstPlace (c2 image.now) None }
    requires rows { straight ≡ true → AreStraight image.now }
    requires steps { FirstPlace (c7 image.now) steps }
    ensures { FirstPlace (c6 image.now) result }
{
    // Only for the prover: the contract of `routers` says that rows rise, without which C7 doesn't
    // imply C6.
    let _routers = image.routers();
    match steps {
        Some(_) => bad_row(image, hints, straight, Rule::NextRoutersExist),
        None => None,
    }
}

/// Audits an internet: returns yes with a summary, or no with the first broken rule and the first
/// place that breaks it. Allocates nothing.
pub fn audit(image: &Image) -> Verdict
    // The verdict is right: yes exactly if no place breaks a rule, else no with the first place
    // that breaks the first broken rule.
    ensures judged { Judges image.now result }
    // If the verdict is yes, each datagram to a listed network has exactly one walk, and it ends at
    // that network's cable.
    ensures walks { OnYes result (WalksHome image.now) }
    // If the verdict is yes, each router's zone table has a zone for exactly the cables that have
    // it.
    ensures zones { OnYes result (ZonesAgree image.now) }
    // If the verdict is yes, each node's router, if it has one, and each node's zone are on its
    // cable.
    ensures nodes { OnYes result (NodesAreServed image.now) }
    // If the verdict is yes, each mapping of a port or a node is the address and the hardware
    // address of one station on its cable.
    ensures mappings { OnYes result (MappingsAreTrue image.now) }
{
    if let Some(place) = bad_cable(image) {
        return Verdict::No(Rule::CablesInOrder.broken_at(place));
    }
    if let Some(place) = bad_station(image) {
        return Verdict::No(Rule::StationsAddressed.broken_at(place));
    }
    let hints = Hints::of(image);
    let straight = are_straight(image, &hints);
    if let Some(place) = bad_row(image, &hints, straight, Rule::RowsCoverCables) {
        return Verdict::No(Rule::RowsCoverCables.broken_at(place));
    }
    if let Some(place) = bad_row(image, &hints, straight, Rule::DirectRowsDirect) {
        return Verdict::No(Rule::DirectRowsDirect.broken_at(place));
    }
    if let Some(place) = bad_row(image, &hints, straight, Rule::DistancesFit) {
        return Verdict::No(Rule::DistancesFit.broken_at(place));
    }
    let steps = bad_row(image, &hints, straight, Rule::DistancesFall);
    if let Some(place) = bad_next(image, &hints, straight, steps) {
        return Verdict::No(Rule::NextRoutersExist.broken_at(place));
    }
    if let Some(place) = steps {
        return Verdict::No(Rule::DistancesFall.broken_at(place));
    }
    if let Some(place) = bad_zone_list(image) {
        return Verdict::No(Rule::ZoneListsAgree.broken_at(place));
    }
    if let Some(place) = unserved_node(image, &hints) {
        return Verdict::No(Rule::NodesServed.broken_at(place));
    }
    if let Some(place) = bad_mapping(image) {
        return Verdict::No(Rule::MappingsTrue.broken_at(place));
    }
    // Only for the prover: the contract of `routers` says that zone lists rise.
    let _routers = image.routers();
    Verdict::Yes(summarize(image))
}
