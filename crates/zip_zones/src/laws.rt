//! Laws of ZIP packets, and examples of a router's replies. Each is the contract of a function that
//! does nothing.

ghost use Rattle.std.specs.Prelude.{◌≡◌, ◌<◌, ◌≤◌, ◌++◌, ◌∷◌, [], List, ℕ, codes, length, map};
ghost use Rattle.std.specs.Prelude.{option_map, replicate, None, Some};
ghost use Rattle.std.specs.List.{All};
ghost use Rattle.at_base.specs.Range.{IsRange, Span};
ghost use Rattle.at_base.specs.Spelling.{bytes_of};
ghost use Rattle.at_base.specs.Text.{IsName};
ghost use Rattle.zip_zones.specs.declared.packet.Packet.TheVariants.{ExtendedReply, NetInfoReply};
ghost use Rattle.zip_zones.specs.declared.packet.Packet.TheVariants.{Query, Reply};
ghost use Rattle.zip_zones.specs.declared.zone_function.ZoneFunction.TheVariants.{GetLocalZones};
ghost use Rattle.zip_zones.specs.declared.zone_function.ZoneFunction.TheVariants.{GetMyZone};
ghost use Rattle.zip_zones.specs.declared.zone_function.ZoneFunction.TheVariants.{GetZoneList};
ghost use Rattle.zip_zones.specs.Answers.{after_reply, asked_page, net_info_reply, replies};
ghost use Rattle.zip_zones.specs.Answers.{zone_page};
ghost use Rattle.zip_zones.specs.Examples.{IsShown, blue, four_rows, known, long, named, red, span};
ghost use Rattle.zip_zones.specs.Examples.{three_lists};
ghost use Rattle.zip_zones.specs.Formats.{packet};
ghost use Rattle.zip_zones.specs.Pages.{names_bytes};
ghost use Rattle.zip_zones.specs.Written.{BeginsWith, extended_reply, net_info, question};

/// A query that was written is read back, whatever follows it.
pub fn queries_are_read()
    ensures { (nets rest : List ℕ) → length nets ≤ 255 → All (λ net. net < 65536) nets
        → BeginsWith (bytes_of packet (Query nets) ++ rest) (Query nets) }
{}

/// A GetNetInfo request that was written is read back, whatever follows it.
pub fn questions_are_read()
    ensures { (asked rest : List ℕ) → length asked ≤ 32
        → BeginsWith (bytes_of packet (question asked) ++ rest) (question asked) }
{}

/// A NetInfo reply that was written is read back, whatever follows it.
pub fn answers_are_read()
    ensures { (asked : List ℕ) (range : Span) (names : List (List ℕ)) (rest : List ℕ)
        → length asked ≤ 32 → IsRange range.start range.end → 0 < length names
        → All IsName names
        → BeginsWith (bytes_of packet (NetInfoReply (net_info asked range names)) ++ rest)
        (NetInfoReply (net_info asked range names)) }
{}

/// An extended reply that was written is read back, if nothing follows it.
pub fn extended_replies_are_read()
    ensures { (net total : ℕ) (names : List (List ℕ)) → net < 65536 → total < 256
        → 0 < length names → All IsName names
        → BeginsWith (bytes_of packet (extended_reply net total names))
        (extended_reply net total names) }
{}

/// A router replies for the networks of a query in their order, with their numbers as asked: of the
/// first 16, those whose list is complete and not empty. A long list is sent in several packets,
/// each as full as possible.
pub fn the_examples_of_replies()
    ensures bytes { map (bytes_of packet) (replies three_lists (30 ∷ 20 ∷ []))
        ≡ (8 ∷ 1 ∷ 0 ∷ 30 ∷ 4 ∷ blue)
        ∷ (8 ∷ 2 ∷ 0 ∷ 20 ∷ 3 ∷ red ++ 0 ∷ 20 ∷ 4 ∷ blue) ∷ [] }
    ensures number { replies three_lists (25 ∷ [])
        ≡ extended_reply 25 2 (red ∷ blue ∷ []) ∷ [] }
    ensures sixteenth { replies three_lists (replicate 15 5 ++ 30 ∷ [])
        ≡ extended_reply 30 1 (blue ∷ []) ∷ [] }
    ensures seventeenth { replies three_lists (replicate 16 5 ++ 30 ∷ []) ≡ [] }
    ensures incomplete { replies (known 10 19 2 (red ∷ []) ∷ []) (10 ∷ []) ≡ [] }
    ensures empty { replies (known 10 19 0 [] ∷ []) (10 ∷ []) ≡ [] }
    ensures split { replies (known 1 9 255 (replicate 255 long) ∷ []) (5 ∷ [])
        ≡ replicate 15 (extended_reply 5 255 (replicate 16 long))
        ++ extended_reply 5 255 (replicate 15 long) ∷ [] }
    ensures short { replies (known 50 59 255 (replicate 255 blue) ∷ []) (50 ∷ [])
        ≡ replicate 3 (extended_reply 50 255 (replicate 83 blue))
        ++ extended_reply 50 255 (replicate 6 blue) ∷ [] }
    ensures sizes { (length (bytes_of packet (extended_reply 50 255 (replicate 83 blue))) ≡ 583)
        × (length (bytes_of packet (extended_reply 50 255 (replicate 6 blue))) ≡ 44) }
    ensures full { replies (known 1 9 17 (replicate 16 long ++ replicate 21 66 ∷ []) ∷ []) (5 ∷ [])
        ≡ extended_reply 5 17 (replicate 16 long ++ replicate 21 66 ∷ []) ∷ [] }
    ensures over { replies (known 1 9 17 (replicate 16 long ++ replicate 22 66 ∷ []) ∷ []) (5 ∷ [])
        ≡ extended_reply 5 17 (replicate 16 long)
        ∷ extended_reply 5 17 (replicate 22 66 ∷ []) ∷ [] }
{}

/// A node that asks for Red on 10-19 gets a reply about that cable, unless the cable has no zones.
pub fn the_examples_of_net_info()
    ensures told { option_map (bytes_of packet)
        (net_info_reply (codes "red") (span 10 19) (red ∷ []))
        ≡ Some (6 ∷ 0x20 ∷ 0 ∷ 10 ∷ 0 ∷ 19 ∷ 3 ∷ codes "red" ++ 6 ∷ 9 ∷ 0 ∷ 7 ∷ 0 ∷ 0 ∷ 0x38 ∷ []) }
    ensures none { net_info_reply (codes "red") (span 10 19) [] ≡ None }
{}

/// The request in a request's user bytes, and the user bytes and the data of the response.
pub fn the_examples_of_zone_pages()
    ensures asked { asked_page (8 ∷ 0 ∷ 0 ∷ 1 ∷ []) ≡ Some (GetZoneList, 1) }
    ensures ignored { asked_page (9 ∷ 255 ∷ 1 ∷ 2 ∷ []) ≡ Some (GetLocalZones, 258) }
    ensures mine { asked_page (7 ∷ 0 ∷ 0 ∷ 0 ∷ []) ≡ Some (GetMyZone, 0) }
    ensures others { (asked_page (6 ∷ 0 ∷ 0 ∷ 1 ∷ []) ≡ None)
        × (asked_page (10 ∷ 0 ∷ 0 ∷ 1 ∷ []) ≡ None) }
    ensures all { IsShown (1 ∷ 0 ∷ 0 ∷ 2 ∷ []) (3 ∷ red ++ 4 ∷ blue)
        (zone_page GetZoneList 1 [] three_lists) }
    ensures from_0 { IsShown (1 ∷ 0 ∷ 0 ∷ 2 ∷ []) (3 ∷ red ++ 4 ∷ blue)
        (zone_page GetLocalZones 0 (red ∷ blue ∷ []) []) }
    ensures from_2 { IsShown (1 ∷ 0 ∷ 0 ∷ 1 ∷ []) (4 ∷ blue)
        (zone_page GetLocalZones 2 (red ∷ blue ∷ []) []) }
    ensures from_256 { IsShown (1 ∷ 0 ∷ 0 ∷ 1 ∷ []) (4 ∷ blue)
        (zone_page GetLocalZones 256 (replicate 255 red ++ blue ∷ []) []) }
    ensures past { IsShown (1 ∷ 0 ∷ 0 ∷ 0 ∷ []) [] (zone_page GetZoneList 3 [] three_lists) }
    ensures default { IsShown (0 ∷ 0 ∷ 0 ∷ 1 ∷ []) (3 ∷ red)
        (zone_page GetMyZone 9 (red ∷ blue ∷ []) []) }
    ensures no_zone { IsShown (1 ∷ 0 ∷ 0 ∷ 0 ∷ []) [] (zone_page GetMyZone 1 [] three_lists) }
    ensures no_list { IsShown (1 ∷ 0 ∷ 0 ∷ 0 ∷ []) [] (zone_page GetLocalZones 1 [] three_lists) }
    ensures long { IsShown (0 ∷ 0 ∷ 0 ∷ 17 ∷ []) (names_bytes (replicate 17 long))
        (zone_page GetLocalZones 1 (replicate 18 long) []) }
{}

/// A reply is accepted for a network whose row is usable and not direct. Its names are added to the
/// list of that row's range, if the zone table has room. In a reply of function 2 the names of a
/// network are its complete list.
pub fn the_examples_of_replies_heard()
    ensures named { after_reply four_rows (ExtendedReply 2 (named 25 red ∷ [])) []
        ≡ known 20 29 2 (red ∷ []) ∷ [] }
    ensures completed { after_reply four_rows (ExtendedReply 2 (named 25 blue ∷ named 25 red ∷ []))
        (known 20 29 2 (red ∷ []) ∷ []) ≡ known 20 29 2 (red ∷ blue ∷ []) ∷ [] }
    ensures listed { after_reply four_rows
        (Reply 9 (named 30 blue ∷ named 20 red ∷ named 30 red ∷ named 30 blue ∷ [])) []
        ≡ known 20 29 1 (red ∷ []) ∷ known 30 39 2 (blue ∷ red ∷ []) ∷ [] }
    ensures order { after_reply four_rows
        (Reply 2 (named 20 red ∷ named 25 blue ∷ named 20 red ∷ [])) []
        ≡ known 20 29 1 (blue ∷ []) ∷ [] }
    ensures direct { after_reply four_rows (Reply 1 (named 10 blue ∷ [])) three_lists
        ≡ three_lists }
    ensures bad { after_reply four_rows (ExtendedReply 1 (named 40 blue ∷ [])) [] ≡ [] }
    ensures unknown { after_reply four_rows (ExtendedReply 1 (named 50 blue ∷ [])) [] ≡ [] }
    ensures overlaps { after_reply four_rows (Reply 1 (named 20 blue ∷ []))
        (known 29 35 1 (red ∷ []) ∷ []) ≡ known 29 35 1 (red ∷ []) ∷ [] }
    ensures total { after_reply four_rows (ExtendedReply 255 (named 20 blue ∷ [])) []
        ≡ known 20 29 255 (blue ∷ []) ∷ [] }
    ensures doubled { after_reply four_rows (Reply 1 (replicate 256 (named 20 blue))) [] ≡ [] }
    ensures others { after_reply four_rows (Query (20 ∷ [])) three_lists ≡ three_lists }
{}
