//! Computed examples of a router's learning and aging. Each is the contract of a function that does
//! nothing.

ghost use Rattle.std.specs.Prelude.{◌≡◌, ◌∷◌, []};
ghost use Rattle.rtmp.specs.Routes.{aged};
ghost use Rattle.rtmp.specs.declared.state.State.TheVariants.{Good, Suspect, Bad, Last};
ghost use Rattle.rtmp.specs.declared.tuple.Nonextended.TheVariants.{Skipped};
ghost use Rattle.learning.specs.Examples.{five_rows, known, own, red, row, said_by, span};
ghost use Rattle.learning.specs.Forgetting.{without_gone};
ghost use Rattle.learning.specs.Heard.{routes_after};
ghost use Rattle.learning.specs.Queries.{queries_of};

/// Routing data is accepted from a router whose network is one of the cable's, if its first tuple
/// has the cable's range.
pub fn the_examples_of_routes_heard()
    ensures first { routes_after Skipped (span 10 19) 0 (said_by 10 10 19) (own ∷ [])
        ≡ own ∷ row 20 29 Good ∷ [] }
    ensures last { routes_after Skipped (span 10 19) 0 (said_by 19 10 19) [] ≡
        record (row 10 19 Good) { next = record { net = 19; node = 2 } }
        ∷ record (row 20 29 Good) { next = record { net = 19; node = 2 } } ∷ [] }
    ensures below { routes_after Skipped (span 10 19) 0 (said_by 9 10 19) (own ∷ []) ≡ own ∷ [] }
    ensures above { routes_after Skipped (span 10 19) 0 (said_by 20 10 19) (own ∷ []) ≡ own ∷ [] }
    ensures start { routes_after Skipped (span 10 19) 0 (said_by 10 9 19) (own ∷ []) ≡ own ∷ [] }
    ensures end { routes_after Skipped (span 10 19) 0 (said_by 10 10 18) (own ∷ []) ≡ own ∷ [] }
{}

/// A row that isn't direct gets the next state in each period. The zone list of a row that is
/// removed is removed too.
pub fn the_examples_of_ageing()
    ensures rows { aged five_rows
        ≡ own ∷ row 20 29 Suspect ∷ row 30 39 Bad ∷ row 40 49 Last ∷ [] }
    ensures lists { without_gone five_rows (known 10 19 1 (red ∷ []) ∷ known 20 29 1 (red ∷ [])
        ∷ known 40 49 1 (red ∷ []) ∷ known 50 59 1 (red ∷ []) ∷ [])
        ≡ known 10 19 1 (red ∷ []) ∷ known 20 29 1 (red ∷ []) ∷ known 40 49 1 (red ∷ []) ∷ [] }
    ensures same { without_gone five_rows (known 50 58 1 (red ∷ []) ∷ [])
        ≡ known 50 58 1 (red ∷ []) ∷ [] }
    ensures direct { without_gone (record own { state = Last } ∷ [])
        (known 10 19 1 (red ∷ []) ∷ []) ≡ known 10 19 1 (red ∷ []) ∷ [] }
{}

/// A router asks for the lists of its good and suspect rows that aren't direct, if the lists aren't
/// complete.
pub fn the_examples_of_queries()
    ensures all { queries_of five_rows []
        ≡ record { port = 0; next = record { net = 10; node = 2 }; start = 20 }
        ∷ record { port = 0; next = record { net = 10; node = 2 }; start = 30 } ∷ [] }
    ensures complete { queries_of five_rows (known 20 29 1 (red ∷ []) ∷ [])
        ≡ record { port = 0; next = record { net = 10; node = 2 }; start = 30 } ∷ [] }
    ensures begun { queries_of (row 20 29 Good ∷ []) (known 20 29 2 (red ∷ []) ∷ [])
        ≡ record { port = 0; next = record { net = 10; node = 2 }; start = 20 } ∷ [] }
    ensures other { queries_of (row 20 29 Good ∷ []) (known 20 28 1 (red ∷ []) ∷ [])
        ≡ record { port = 0; next = record { net = 10; node = 2 }; start = 20 } ∷ [] }
{}
