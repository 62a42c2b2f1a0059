//! The replies that the stations of a run received.

ghost use Rattle.std.specs.Prelude.{IsOkUnless};

use crate::deliveries::{Deliveries, Receiver};
use crate::frames::Frames;
use crate::reply::Reply;
use crate::said::said_by;
use at_base::{Error, Hw};
use cable_model::Entry;
use ddp::View;
use frozen::Frozen;
use rtmp::RouteTable;
use station::Kind;
use std::alloc::Global;
use table_image::Directory;

/// Keeps the replies in frames that their targets took. Error: `Memory`.
pub(crate) fn gather_run<T: RouteTable>(
    alloc: Global,
    deliveries: &mut Deliveries,
    run: &Frozen<T>,
) -> Result<(), Error>
    ensures { IsOkUnless result Error.Memory }
{
    let directory = Directory::of(alloc, run.image())?;
    let mut frames = Frames::new(alloc);
    for entry in run.transcript() {
        match *entry {
            Entry::Put {
                stamp,
                cable,
                to,
                kind: Kind::Ddp,
                bytes,
                ..
            } => {
                if is_reply(&directory, cable, &to, run.bytes(bytes)) {
                    frames.put(stamp, bytes)?;
                }
            }
            Entry::Took { stamp, .. } => {
                if let Some(number) = frames.number(stamp) {
                    keep(alloc, deliveries, run.bytes(number))?;
                }
            }
            _ => {}
        }
    }
    Ok(())
}

/// Whether a frame on a cable has a reply to the station that hears it. Frames for a router on the
/// way aren't for their target, and a reply has one target, so what is for all stations of a cable,
/// or for a group of them, is none.
fn is_reply(directory: &Directory, cable: u8, to: &Hw, bytes: &[u8]) -> bool {
    match (View::read(bytes), directory.holder(cable, to)) {
        (Ok(view), Some(place)) => {
            view.target() == place.address && said_by(view.kind(), view.payload()).is_some()
        }
        _ => false,
    }
}

/// Keeps the reply in a datagram that its target received. Error: `Memory`.
fn keep(alloc: Global, deliveries: &mut Deliveries, bytes: &[u8]) -> Result<(), Error>
    ensures { IsOkUnless result Error.Memory }
{
    let Ok(view) = View::read(bytes) else {
        return Ok(());
    };
    let reply = Reply::new(alloc, view.source(), view.kind(), view.payload())?;
    deliveries.take_in(Receiver::Station(view.target()), reply)
}
