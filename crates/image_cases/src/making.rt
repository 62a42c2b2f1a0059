//! Parts of images as text, such as `row 10-19 distance 1 port 0 next 20.1 good`.

use at_base::{Addr, Name};
use case_words::{Answer, Stop, Words};
use rtmp::State;
use std::alloc::Global;
use table_image::{
    Cable, Image, Listed, Mapping, Node, NodeName, Port, Router, Row, Version, ZoneList,
};

/// A port without its mappings, and the mappings that were read.
#[derive(Drop)]
struct PortDraft {
    port: Port,
    mappings: Vec<Mapping>,
}

/// A router whose parts are still being read.
#[derive(Drop)]
struct RouterDraft {
    ports: Vec<PortDraft>,
    rows: Vec<Row>,
    lists: Vec<ZoneList>,
}

/// A node without its names and mappings, and those that were read.
#[derive(Drop)]
struct NodeDraft {
    node: Node,
    names: Vec<NodeName>,
    mappings: Vec<Mapping>,
}

/// All parts that were read.
#[derive(Drop)]
struct Draft {
    alloc: Global,
    version: Version,
    cables: Vec<Cable>,
    routers: Vec<RouterDraft>,
    nodes: Vec<NodeDraft>,
}

fn zones(alloc: Global, words: &mut Words<'_>) -> Result<Listed<Name>, Stop> {
    Ok(Listed::from_vec(words.list(alloc, |words: &mut Words<'_>| words.name(alloc))?))
}

fn cable(alloc: Global, words: &mut Words<'_>) -> Result<Cable, Stop> {
    let (start, end) = words.bounds()?;
    let zones = zones(alloc, words)?;
    Ok(Cable { start, end, zones })
}

fn port(alloc: Global, words: &mut Words<'_>) -> Result<PortDraft, Stop> {
    let port = Port {
        cable: words.named("cable")?,
        address: words.addr()?,
        hardware: words.hw()?,
        mappings: Listed::from_vec(Vec::new(alloc)),
    };
    Ok(PortDraft {
        port,
        mappings: Vec::new(alloc),
    })
}

fn mapping(words: &mut Words<'_>) -> Result<Mapping, Stop> {
    Ok(Mapping {
        address: words.addr()?,
        hardware: words.hw()?,
    })
}

fn version(words: &mut Words<'_>) -> Result<Version, Stop> {
    match words.word() {
        "1" => Ok(Version::V1),
        "2" => Ok(Version::V2),
        _ => Err(Stop::Unclear),
    }
}

fn state(words: &mut Words<'_>) -> Result<State, Stop> {
    Ok(match words.word() {
        "good" => State::Good,
        "suspect" => State::Suspect,
        "bad" => State::Bad,
        "last" => State::Last,
        _ => return Err(Stop::Unclear),
    })
}

fn row(words: &mut Words<'_>) -> Result<Row, Stop> {
    let (start, end) = words.bounds()?;
    let distance = words.named("distance")?;
    let port = words.named("port")?;
    words.expect("next")?;
    Ok(Row {
        start,
        end,
        distance,
        port,
        next: words.addr()?,
        state: state(words)?,
    })
}

fn is_complete(words: &mut Words<'_>) -> Result<bool, Stop> {
    match words.word() {
        "complete" => Ok(true),
        "incomplete" => Ok(false),
        _ => Err(Stop::Unclear),
    }
}

fn zone_list(alloc: Global, words: &mut Words<'_>) -> Result<ZoneList, Stop> {
    let (start, end) = words.bounds()?;
    let complete = is_complete(words)?;
    let zones = zones(alloc, words)?;
    Ok(ZoneList {
        start,
        end,
        complete,
        zones,
    })
}

fn router(words: &mut Words<'_>) -> Result<Option<Addr>, Stop> {
    words.expect("router")?;
    if words.passes("none") {
        return Ok(None);
    }
    Ok(Some(words.addr()?))
}

fn node(alloc: Global, words: &mut Words<'_>) -> Result<Node, Stop> {
    let cable = words.named("cable")?;
    let address = words.addr()?;
    let hardware = words.hw()?;
    words.expect("zone")?;
    let zone = words.name(alloc)?;
    let router = router(words)?;
    Ok(Node {
        cable,
        address,
        hardware,
        zone,
        router,
        names: Listed::from_vec(Vec::new(alloc)),
        mappings: Listed::from_vec(Vec::new(alloc)),
    })
}

fn name(alloc: Global, words: &mut Words<'_>) -> Result<NodeName, Stop> {
    let socket = words.named("socket")?;
    let enumerator = words.named("enumerator")?;
    let object = words.text32(alloc)?;
    let kind = words.text32(alloc)?;
    Ok(NodeName {
        socket,
        enumerator,
        object,
        kind,
    })
}

impl Draft {
    fn last_router(&mut self) -> Result<&mut RouterDraft, Stop> {
        match self.routers.last_mut() {
            Some(router) => Ok(router),
            None => Err(Stop::Unclear),
        }
    }

    fn begin_router(&mut self) -> Answer {
        let router = RouterDraft {
            ports: Vec::new(self.alloc),
            rows: Vec::new(self.alloc),
            lists: Vec::new(self.alloc),
        };
        self.routers.push(router)?;
        Ok(())
    }

    fn begin_node(&mut self, words: &mut Words<'_>) -> Answer {
        let node = node(self.alloc, words)?;
        let names = Vec::new(self.alloc);
        let mappings = Vec::new(self.alloc);
        self.nodes.push(NodeDraft {
            node,
            names,
            mappings,
        })?;
        Ok(())
    }

    /// Adds a mapping of the last node, or else of the last port.
    fn add_mapping(&mut self, words: &mut Words<'_>) -> Answer {
        let mapping = mapping(words)?;
        if let Some(node) = self.nodes.last_mut() {
            node.mappings.push(mapping)?;
            return Ok(());
        }
        match self.last_router()?.ports.last_mut() {
            Some(port) => port.mappings.push(mapping)?,
            None => return Err(Stop::Unclear),
        }
        Ok(())
    }

    fn add_name(&mut self, words: &mut Words<'_>) -> Answer {
        let name = name(self.alloc, words)?;
        match self.nodes.last_mut() {
            Some(node) => node.names.push(name)?,
            None => return Err(Stop::Unclear),
        }
        Ok(())
    }

    fn add(&mut self, words: &mut Words<'_>) -> Answer {
        match words.word() {
            "version" => self.version = version(words)?,
            "cable" => self.cables.push(cable(self.alloc, words)?)?,
            "router" => self.begin_router()?,
            "port" => {
                let port = port(self.alloc, words)?;
                self.last_router()?.ports.push(port)?;
            }
            "knows" => self.add_mapping(words)?,
            "row" => self.last_router()?.rows.push(row(words)?)?,
            "list" => {
                let list = zone_list(self.alloc, words)?;
                self.last_router()?.lists.push(list)?;
            }
            "node" => self.begin_node(words)?,
            _ => self.add_name(words)?,
        }
        Ok(())
    }
}

/// The parts that the lines describe.
fn drafted(alloc: Global, lines: &str) -> Result<Draft, Stop> {
    let mut draft = Draft {
        alloc,
        version: Version::V1,
        cables: Vec::new(alloc),
        routers: Vec::new(alloc),
        nodes: Vec::new(alloc),
    };
    for line in lines.lines() {
        draft.add(&mut Words::new(line))?;
    }
    Ok(draft)
}

/// The ports, with their mappings.
fn ports(alloc: Global, drafts: Vec<PortDraft>) -> Result<Vec<Port>, Stop> {
    let mut ports = Vec::with_capacity(alloc, drafts.len())?;
    for draft in drafts {
        let mut port = draft.port;
        port.mappings = Listed::from_vec(draft.mappings);
        ports.push(port)?;
    }
    Ok(ports)
}

/// The routers, with their parts.
fn routers(alloc: Global, drafts: Vec<RouterDraft>) -> Result<Vec<Router>, Stop> {
    let mut routers = Vec::with_capacity(alloc, drafts.len())?;
    for draft in drafts {
        routers.push(Router {
            ports: Listed::from_vec(ports(alloc, draft.ports)?),
            rows: Listed::from_vec(draft.rows),
            lists: Listed::from_vec(draft.lists),
        })?;
    }
    Ok(routers)
}

/// The nodes, with their names.
fn nodes(alloc: Global, drafts: Vec<NodeDraft>) -> Result<Vec<Node>, Stop> {
    let mut nodes = Vec::with_capacity(alloc, drafts.len())?;
    for draft in drafts {
        let mut node = draft.node;
        node.names = Listed::from_vec(draft.names);
        node.mappings = Listed::from_vec(draft.mappings);
        nodes.push(node)?;
    }
    Ok(nodes)
}

/// The version, the cables, the routers and the nodes of the lines.
pub(crate) type All = (Version, Vec<Cable>, Vec<Router>, Vec<Node>);

pub(crate) fn all(alloc: Global, lines: &str) -> Result<All, Stop> {
    let draft = drafted(alloc, lines)?;
    let routers = routers(alloc, draft.routers)?;
    let nodes = nodes(alloc, draft.nodes)?;
    Ok((draft.version, draft.cables, routers, nodes))
}

/// The image with the parts of the lines.
pub(crate) fn image(alloc: Global, lines: &str) -> Result<Image, Stop> {
    let (version, cables, routers, nodes) = all(alloc, lines)?;
    Ok(Image::make(version, cables, routers, nodes)?)
}
