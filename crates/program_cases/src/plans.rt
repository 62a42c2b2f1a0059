//! Internet files and their plans.

use at_base::{Addr, Error, Name};
use case_words::{Answer, put_hw, put_line, put_text};
use internet_file::{Action, Cable, Do, Node, Plan, Port, Router, read};
use std::alloc::{AllocError, Global};

/// The plan of the bytes.
pub(crate) fn plan_of(alloc: Global, bytes: &[u8]) -> Result<Plan, Error> {
    match read(alloc, bytes) {
        Ok(plan) => Ok(plan),
        Err(refused) => Err(refused.error),
    }
}

/// Appends whether the bytes are an internet file, or their error.
pub(crate) fn read_it(alloc: Global, bytes: &[u8], text: &mut String) -> Answer {
    let _plan = plan_of(alloc, bytes)?;
    writeln!(text, "a plan")?;
    Ok(())
}

fn put_cable(text: &mut String, cable: &Cable) -> Result<(), AllocError> {
    let range = cable.range;
    write!(text, "cable {range}")?;
    for zone in cable.zones.as_slice() {
        text.push(' ')?;
        put_text(text, zone.as_slice())?;
    }
    writeln!(text)
}

fn put_tries(text: &mut String, tries: &[Addr]) -> Result<(), AllocError> {
    write!(text, " try")?;
    for addr in tries {
        let addr = *addr;
        write!(text, " {addr}")?;
    }
    Ok(())
}

fn put_port(text: &mut String, port: &Port) -> Result<(), AllocError> {
    let cable = port.cable;
    write!(text, "port cable {cable} ")?;
    put_hw(text, port.hardware)?;
    put_tries(text, port.tries.as_slice())?;
    writeln!(text)
}

fn put_router(text: &mut String, router: &Router) -> Result<(), AllocError> {
    writeln!(text, "router")?;
    for port in router.port.as_slice() {
        put_port(text, port)?;
    }
    Ok(())
}

fn put_zone(text: &mut String, zone: &Name) -> Result<(), AllocError> {
    write!(text, " zone ")?;
    put_text(text, zone.as_slice())?;
    writeln!(text)
}

fn put_names(text: &mut String, node: &Node) -> Result<(), AllocError> {
    for name in node.name.entries() {
        let (socket, enumerator) = (name.socket, name.enumerator);
        write!(text, "name socket {socket} enumerator {enumerator} ")?;
        put_text(text, name.object.as_slice())?;
        text.push(' ')?;
        put_text(text, name.kind.as_slice())?;
        writeln!(text)?;
    }
    Ok(())
}

fn put_node(text: &mut String, node: &Node) -> Result<(), AllocError> {
    let cable = node.cable;
    write!(text, "node cable {cable} ")?;
    put_hw(text, node.hardware)?;
    put_tries(text, node.tries.as_slice())?;
    put_zone(text, &node.zone)?;
    put_names(text, node)
}

fn put_action(text: &mut String, action: &Action) -> Result<(), AllocError> {
    let (at, node) = (action.at, action.node);
    write!(text, "action at {at} node {node} ")?;
    match &action.action {
        Do::Send {
            to,
            socket,
            source,
            kind,
            hex,
        } => {
            let (to, socket, source, kind) = (*to, *socket, *source, *kind);
            write!(
                text,
                "send to {to} socket {socket} source {source} type {kind} "
            )?;
            put_line(text, hex.as_slice())
        }
        Do::Lookup {
            id,
            object,
            kind,
            zone,
        } => {
            let id = *id;
            write!(text, "lookup id {id} ")?;
            put_text(text, object.as_slice())?;
            text.push(':')?;
            put_text(text, kind.as_slice())?;
            text.push('@')?;
            put_text(text, zone.as_slice())?;
            writeln!(text)
        }
    }
}

fn put_parts(text: &mut String, plan: &Plan) -> Result<(), AllocError> {
    for cable in plan.cables() {
        put_cable(text, cable)?;
    }
    for router in plan.routers() {
        put_router(text, router)?;
    }
    for node in plan.nodes() {
        put_node(text, node)?;
    }
    Ok(())
}

/// Appends the actions of a plan.
fn put_events(text: &mut String, plan: &Plan) -> Result<(), AllocError> {
    for loss in plan.losses() {
        let (cable, first, last) = (loss.cable, loss.first, loss.last);
        writeln!(text, "lose cable {cable} from {first} to {last}")?;
    }
    for action in plan.actions() {
        put_action(text, action)?;
    }
    Ok(())
}

/// Appends the plan of the bytes, a line for each part of it.
pub(crate) fn plan(alloc: Global, bytes: &[u8], text: &mut String) -> Answer {
    let plan = plan_of(alloc, bytes)?;
    let ticks = plan.ticks();
    writeln!(text, "ticks {ticks}")?;
    put_parts(text, &plan)?;
    put_events(text, &plan)?;
    Ok(())
}
