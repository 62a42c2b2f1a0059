//! Laws of nodes, for the crates that use this one. Each is the contract of a function that does
//! nothing.

ghost use Rattle.std.specs.Prelude.{List};
ghost use Rattle.end_node.specs.Answers.{Hears};
ghost use Rattle.end_node.specs.Holding.{NodeHolding};
ghost use Rattle.end_node.specs.Stays.{NodeStays};
ghost use Rattle.station.specs.Hearing.{Hearing};
ghost use Rattle.station.specs.declared.output.Output.{Output};

/// Receiving a frame changes neither a node's address, nor its zone, nor its router, nor its names.
pub fn node_stays()
    ensures { (old new : NodeHolding) (x : Hearing) (added : List Output)
        → Hears old x added new → NodeStays old new }
{}
