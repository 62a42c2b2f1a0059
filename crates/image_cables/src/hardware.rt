//! The hardware addresses of the seats of an image.

ghost use Rattle.std.specs.Prelude.{◌≡◌, length};
ghost use Rattle.std.specs.List.{AllByRecursion as Each};
ghost use Rattle.resolved_runs.specs.Fitting.{SeatsFit};

use at_base::Hw;
use table_image::{Image, Node, Port, Router};

/// A fact for the prover: a hardware address has six bytes. Does nothing.
fn recall(hardware: &Hw)
    ensures { length hardware.now.0 ≡ 6 }
{
    let _bytes: [u8; 6] = hardware.0;
}

/// The same of those of ports.
fn recall_ports(ports: &[Port])
    ensures { Each (λ port. length port.hardware.0 ≡ 6) ports.now }
{
    match ports {
        [] => {}
        [port, rest @ ..] => {
            recall(&port.hardware);
            recall_ports(rest)
        }
    }
}

/// The same of those of routers' ports.
fn recall_routers(routers: &[Router])
    ensures { Each (λ router. Each (λ port. length port.hardware.0 ≡ 6) router.ports) routers.now }
{
    match routers {
        [] => {}
        [router, rest @ ..] => {
            recall_ports(router.ports.as_slice());
            recall_routers(rest)
        }
    }
}

/// The same of those of nodes.
fn recall_nodes(nodes: &[Node])
    ensures { Each (λ node. length node.hardware.0 ≡ 6) nodes.now }
{
    match nodes {
        [] => {}
        [node, rest @ ..] => {
            recall(&node.hardware);
            recall_nodes(rest)
        }
    }
}

/// The same of those of all seats.
#[tactic(auto, using(crate::proofs::Fitting::all_fit))]
pub fn recall_seats(image: &Image)
    ensures { SeatsFit image.now }
{
    recall_routers(image.routers());
    recall_nodes(image.nodes());
}
