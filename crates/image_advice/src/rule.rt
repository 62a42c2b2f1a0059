//! The rules, each in a sentence, and what to change if one is broken.

use crate::finding::Finding;

/// The rule in a sentence.
pub(crate) fn meaning(rule: u8) -> &'static str {
    match rule {
        1 => {
            "the ranges of the cables lie within 1 to 65279, rise and do not overlap, \
             and each cable has at least one zone and none twice."
        }
        2 => {
            "each port and node has an address in its cable's range, a node number of 1 to 253, \
             and a hardware address of a single station, and shares neither with another \
             station; a router has at most one port on a cable."
        }
        3 => {
            "each row is Good or Suspect and has the range of a cable, \
             and each router has a row for each cable."
        }
        4 => {
            "a row of a cable on which the router has a port has distance 0, that port \
             and no next router; each other row has a distance and a next router."
        }
        5 => "a distance is at most 14.",
        6 => {
            "the next router of a row is another router, \
             with a port of that address on the cable of the row's port."
        }
        7 => "the next router has a row for the same range, and it is exactly one nearer.",
        8 => {
            "each zone list is complete and has the range of a cable and that cable's zones, \
             each once, and each router has a zone list for each cable."
        }
        9 => {
            "the router of a node that has one has a port of that address on the node's cable, \
             and the node's zone is one of that cable's zones."
        }
        10 => {
            "each mapping of a port or a node is the address and the hardware address \
             of one station on its cable."
        }
        _ => "this rule is broken.",
    }
}

/// What to change if the rule is broken, and this is wrong at its place.
pub(crate) fn what_to_change(rule: u8, finding: Finding) -> &'static str {
    match finding {
        Finding::Rule => what_the_rule_says(rule),
        Finding::Unsettled => {
            "wait until it has settled, in a play for 11 ticks or more; if it never does, \
             let it try an address that no other station of its cable tries."
        }
        Finding::HardwareElsewhere => {
            "give the second station another hardware address in the file, \
             whose first byte is even."
        }
        Finding::NoRouter => "give a router a port on that cable, or take the cable out.",
        Finding::Apart(_) => {
            "give a router a port on a cable of each group, or make a file of each group alone."
        }
        Finding::OtherRange(_, _, _) => {
            "the seed ranges of all routers on that cable must be the same: \
             change those that differ, and restart their routers."
        }
        Finding::NoCable => {
            "if there is a cable with the range of the row, add it to the cables; if there is none, \
             wait a minute or two until the row has aged out, and look again."
        }
    }
}

/// What to change if the rule is broken, and nothing more is known.
fn what_the_rule_says(rule: u8) -> &'static str {
    match rule {
        1 => {
            "give each cable a range of its own and at least one zone in the seed router's \
             settings, and list the cables by rising range."
        }
        2 => {
            "let the second station choose its address anew; \
             give a copied emulator a hardware address of its own."
        }
        3 => {
            "wait a minute or two until the routers have heard of each other, and look again; \
             if the row stays away, look for a router between that does not send."
        }
        4 => "restart the router: the rows of its own cables are made when its ports come up.",
        5 => "shorten the line of routers, or join its ends.",
        6 => "wait for the row to age out, or restart the router that has it.",
        7 => "restart the routers nearest to that range, and then those further away.",
        8 => {
            "if the list isn't complete, wait a minute or two and look again. A complete one isn't \
             asked for again: let all routers whose settings name the zones of that cable name \
             the same zones, and restart the router that is named here."
        }
        9 => {
            "restart the node: it hears of its router anew, and asks for its zone; \
             if its router stays wrong, look for a station on that cable that sends routing \
             tables and is no router; if its zone does, choose one of that cable's zones."
        }
        10 => {
            "restart the station: it forgets its mappings, and asks anew; \
             if the mapping stays wrong, look for a station on that cable that answers for \
             an address which is not its own."
        }
        _ => "see man atalk.",
    }
}
