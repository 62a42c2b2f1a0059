//! The lines of a play.

ghost use Rattle.std.specs.Prelude.{◌≡◌, ◌≤◌, ◌+◌, ◌++◌, ◌∷◌, [], IfOk, IsOkUnless, OnOk, length};
ghost use Rattle.audit.specs.Verdicts.{verdict_line};
ghost use Rattle.playing.specs.Lines.{received_lines, refused_lines};
ghost use Rattle.playing.specs.Plays.{all_received, play_lines};
ghost use Rattle.world.specs.Seen.{node_at, received_by};

use crate::playing::Played;
use crate::received::put_received;
use crate::refused::put_refused;
use at_base::Error;
use audit::Verdict;
use rtmp::Routes;
use std::alloc::Global;
use world::World;

/// Appends the lines of the datagrams that a node received. Error: `Memory`.
fn put_node(text: &mut Vec<u8>, world: &World<Routes>, number: u16) -> Result<(), Error>
    ensures lines { OnOk result (text.new.items
        ≡ text.old.items ++ received_lines number (received_by (node_at world.now number))) }
    ensures refused { IsOkUnless result Error.Memory }
{
    if let Some(node) = world.node(number) {
        let datagrams = node.received()?;
        put_received(text, number, datagrams.as_slice())?;
    }
    Ok(())
}

/// Appends the lines of the datagrams that the `left` nodes from `number` on received. Error:
/// `Memory`.
fn put_nodes(text: &mut Vec<u8>, world: &World<Routes>, number: u16, left: u16) -> Result<(), Error>
    requires within { number + left ≤ 65535 }
    ensures lines { OnOk result
        (text.new.items ≡ text.old.items ++ all_received world.now number left) }
    ensures refused { IsOkUnless result Error.Memory }
{
    if left == 0 {
        return Ok(());
    }
    put_node(text, world, number)?;
    put_nodes(text, world, number + 1, left - 1)
}

/// The number of a world's nodes.
fn nodes_of(world: &World<Routes>) -> u16
    ensures number { result ≡ length world.now.plan.nodes }
    ensures few { result ≤ 200 }
{
    world.plan().nodes().len() as u16
}

/// Appends the lines of the actions that had an error, and then those of the datagrams that the
/// nodes received. Error: `Memory`.
fn put_world(text: &mut Vec<u8>, world: &World<Routes>) -> Result<(), Error>
    ensures lines { OnOk result (text.new.items ≡ text.old.items ++ refused_lines world.now.refused
        ++ all_received world.now 1 (length world.now.plan.nodes)) }
    ensures refused { IsOkUnless result Error.Memory }
{
    put_refused(text, world.refused())?;
    let nodes = nodes_of(world);
    put_nodes(text, world, 1, nodes)
}

/// Appends the line of the verdict and a line feed. Error: `Memory`.
fn put_verdict(alloc: Global, text: &mut Vec<u8>, verdict: &Verdict) -> Result<(), Error>
    ensures ok { OnOk result
        (text.new.items ≡ text.old.items ++ verdict_line verdict.now ++ 10 ∷ []) }
    ensures refused { IsOkUnless result Error.Memory }
{
    let line = verdict.line(alloc)?;
    text.extend_from_slice(line.as_bytes())?;
    text.push(b'\n')?;
    Ok(())
}

/// The lines of a play: the actions that had an error, the datagrams that the nodes received, and
/// the verdict. Error: `Memory`.
pub fn lines_of(alloc: Global, played: &Played) -> Result<Vec<u8>, Error>
    ensures lines { IfOk result
        (λ text. text.items ≡ play_lines played.now.world played.now.verdict) }
    ensures refused { IsOkUnless result Error.Memory }
{
    let mut text = Vec::new(alloc);
    put_world(&mut text, &played.world)?;
    put_verdict(alloc, &mut text, &played.verdict)?;
    Ok(text)
}
