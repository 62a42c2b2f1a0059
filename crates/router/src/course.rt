//! The course of a datagram that a router receives: whether it is forwarded, kept or dropped, and
//! whether it ends at the router.

ghost use Rattle.std.specs.Prelude.{◌≡◌, ◌<◌, ◌≤◌, ℕ, length, IfSome};
ghost use Rattle.router.specs.Forwarding as spec;
ghost use Rattle.router.specs.Forwarding.{IsCourse};
ghost use Rattle.router.specs.Holding.{IsHandIn};
ghost use Rattle.station.specs.Ports as ports_spec;

use crate::hand::Hand;
use crate::router::{Router, own_at};
use aarp::Chooser;
use at_base::Addr;
use rtmp::RouteTable;
use station::ways::EVERY_NODE;
use station::{DropCause, Link, Next};

/// The hop count at which a datagram isn't forwarded any more.
///
/// Inside AppleTalk, the chapter on DDP.
const MAX_HOPS: u8 = 15;

/// The step that a router takes with a datagram that doesn't end at once. Ports are counted from 0.
#[derive(Clone, Copy, Debug, PartialEq, Eq)]
pub enum Step {
    /// It is forwarded on the port, with one hop more.
    Pass { port: u8, next: Next },
    /// The router keeps it: its target is the port's address, or node 0 of a network on the port's
    /// cable.
    Keep { port: u8 },
    /// It is dropped.
    Drop(DropCause),
}

/// How a datagram ended at a router.
#[derive(Clone, Copy, Debug, PartialEq, Eq)]
pub struct Ending {
    /// The port on whose cable it ended.
    pub port: u8,
    /// Whether it was for the router itself. Otherwise it was for every node of the cable.
    pub is_own: bool,
}

/// The course of a datagram: the step that is taken with it, and how it ended at the router. Both
/// may be missing, and both may be there.
#[derive(Clone, Copy, Debug, PartialEq, Eq)]
pub struct Course {
    pub step: Option<Step>,
    pub ending: Option<Ending>,
}

fn is_own(link: Link) -> bool
    ensures { result ≡ spec.is_own link }
{
    match link {
        Link::Own => true,
        Link::All | Link::Group(_) => false,
    }
}

/// Whether this is the port's address.
pub(crate) fn has(target: Addr, own: Option<Addr>) -> bool
    ensures { result ≡ ports_spec.has target own }
{
    match own {
        Some(own) => target == own,
        None => false,
    }
}

fn ends_at_once(ports: &[Chooser], port: u8, link: Link, target: Addr) -> bool
    ensures { result ≡ spec.ends_at_once ports.now port link target }
{
    !is_own(link) || target.net == 0 || has(target, own_at(ports, port))
}

fn heard_as(port: u8, link: Link, target: Addr) -> Option<Ending>
    ensures value { result ≡ spec.heard_as port link target }
    ensures inside { IfSome result (λ e. e.port ≡ port) }
{
    match link {
        Link::Own => Some(Ending { port, is_own: true }),
        Link::All if target.node == EVERY_NODE => Some(Ending {
            port,
            is_own: false,
        }),
        Link::All | Link::Group(_) => None,
    }
}

fn goes(step: Step) -> Course
    ensures { result ≡ record { step = Some step; ending = None } }
{
    Course {
        step: Some(step),
        ending: None,
    }
}

/// The course of a datagram whose target's network is on the port's cable.
fn arrived(ports: &[Chooser], port: u8, hops: u8, target: Addr) -> Course
    requires { port < length ports.now }
    ensures value { result ≡ spec.arrived ports.now port hops target }
    ensures inside { hops ≤ 15 → IsCourse (length ports.now) hops result }
{
    if target.node == 0 || has(target, own_at(ports, port)) {
        return Course {
            step: Some(Step::Keep { port }),
            ending: Some(Ending { port, is_own: true }),
        };
    }
    if hops == MAX_HOPS {
        return goes(Step::Drop(DropCause::HopLimit));
    }
    if target.node == EVERY_NODE {
        return Course {
            step: Some(Step::Pass {
                port,
                next: Next::All,
            }),
            ending: Some(Ending {
                port,
                is_own: false,
            }),
        };
    }
    let next = Next::Station(target);
    goes(Step::Pass { port, next })
}

/// The course of a datagram that is forwarded to the next router.
fn handed_on(port: u8, router: Addr, hops: u8) -> Course
    ensures value { result ≡ spec.handed_on port router hops }
    ensures inside { hops ≤ 15 → (n : ℕ) → port < n → IsCourse n hops result }
{
    if hops == MAX_HOPS {
        return goes(Step::Drop(DropCause::HopLimit));
    }
    let next = Next::Station(router);
    goes(Step::Pass { port, next })
}

/// The course of a datagram that doesn't end at once, by the router's route to its target.
fn course_by(ports: &[Chooser], hand: Hand, hops: u8, target: Addr) -> Course
    requires { IsHandIn (length ports.now) hand }
    ensures value { result ≡ spec.course_by ports.now hand hops target }
    ensures inside { hops ≤ 15 → IsCourse (length ports.now) hops result }
{
    match hand {
        Hand::Nowhere => goes(Step::Drop(DropCause::NoRoute)),
        Hand::Here(port) => arrived(ports, port, hops, target),
        Hand::On(port, router) => handed_on(port, router, hops),
    }
}

impl<T: RouteTable> Router<T> {
    /// The course of a datagram that was received on one of the ports. Allocates nothing.
    ///
    /// Inside AppleTalk, the chapter on DDP.
    pub fn course(&self, port: u8, link: Link, hops: u8, target: Addr) -> Course
        requires port { port < length self.now.ports }
        requires hops { hops ≤ 15 }
        ensures value { result
            ≡ spec.course self.now.ports self.now.routes port link hops target }
        ensures inside { IsCourse (length self.now.ports) hops result }
    {
        let ports = self.ports.as_slice();
        if ends_at_once(ports, port, link, target) {
            return Course {
                step: None,
                ending: heard_as(port, link, target),
            };
        }
        course_by(ports, self.hand(target.net), hops, target)
    }
}
