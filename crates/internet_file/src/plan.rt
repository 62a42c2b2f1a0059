//! The plan in an internet file.

ghost use Rattle.std.specs.Prelude.{◌≡◌};
ghost use Rattle.internet_file.specs.Sound.{IsSound};

use crate::action::Action;
use crate::cable::Cable;
use crate::loss::Loss;
use crate::node::Node;
use crate::router::Router;
use at_base::Listed;
use std::marker::Model;

/// The plan in an internet file: a network, and what happens in it in each tick.
#[derive(Debug, Drop)]
pub struct Plan {
    pub(crate) ticks: u32,
    pub(crate) cables: Listed<Cable>,
    pub(crate) routers: Listed<Router>,
    pub(crate) nodes: Listed<Node>,
    pub(crate) losses: Listed<Loss>,
    pub(crate) actions: Listed<Action>,
}

impl Model for Plan {
    ghost use Rattle.internet_file.specs.Files.{Planned};
    ghost use Rattle.internet_file.specs.Sound.{IsSound};

    ghost Value = { Planned };

    ghost view = { λ p. record {
      ticks = p.ticks;
      cables = p.cables;
      routers = p.routers;
      nodes = p.nodes;
      losses = p.losses;
      actions = p.actions;
    } };

    ghost invariant = { λ p. IsSound (record {
      ticks = p.ticks;
      cables = p.cables;
      routers = p.routers;
      nodes = p.nodes;
      losses = p.losses;
      actions = p.actions;
    }) };
}

impl Plan {
    /// The number of ticks, 1 to 100,000.
    pub fn ticks(&self) -> u32
        ensures { result ≡ self.now.ticks }
    {
        self.ticks
    }

    /// The cables, at most 200.
    pub fn cables(&self) -> &[Cable]
        ensures value { result.now ≡ self.now.cables }
        ensures sound { IsSound self.now }
    {
        self.cables.as_slice()
    }

    /// The routers, at most 200.
    pub fn routers(&self) -> &[Router]
        ensures value { result.now ≡ self.now.routers }
        ensures sound { IsSound self.now }
    {
        self.routers.as_slice()
    }

    /// The nodes, at most 200.
    pub fn nodes(&self) -> &[Node]
        ensures value { result.now ≡ self.now.nodes }
        ensures sound { IsSound self.now }
    {
        self.nodes.as_slice()
    }

    /// The losses, in the order of the file.
    pub fn losses(&self) -> &[Loss]
        ensures value { result.now ≡ self.now.losses }
        ensures sound { IsSound self.now }
    {
        self.losses.as_slice()
    }

    /// The actions, in the order of the file.
    pub fn actions(&self) -> &[Action]
        ensures value { result.now ≡ self.now.actions }
        ensures sound { IsSound self.now }
    {
        self.actions.as_slice()
    }
}
