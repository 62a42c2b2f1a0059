//! Laws of routing data and of requests for it, for the crates that use this one. A law is the
//! contract of a function that does nothing.

ghost use Rattle.std.specs.Prelude.{◌≡◌, ◌++◌, ℕ, List};
ghost use Rattle.at_base.specs.Spelling.{Spells, Begins};
ghost use Rattle.rtmp.specs.Data.{RoutingData, routing_data};
ghost use Rattle.rtmp.specs.Requests.{request};
ghost use Rattle.rtmp.specs.declared.request.Request.{Request};

/// Bytes that spell a packet begin with that packet and with no other. Nothing follows its tuples.
pub fn data_is_read_back()
    ensures { (p : RoutingData) (bytes : List ℕ) → Spells routing_data bytes p
        → Begins routing_data bytes p
        × ((q : RoutingData) → Begins routing_data bytes q → q ≡ p) }
{}

/// A request that was written is read back, whatever follows it.
pub fn request_is_read_back()
    ensures { (r : Request) (bytes rest : List ℕ) → Spells request bytes r
        → Begins request (bytes ++ rest) r
        × ((q : Request) → Begins request (bytes ++ rest) q → q ≡ r) }
{}
