//! The bench of a case, with which its commands are carried out.

use crate::askers::{ask_asker, asker_of};
use crate::asking::ask_user;
use crate::beginning::{cabled_router_of, live_node_of, live_router_of, node_of, router_of};
use crate::frames::{Frame, frame_of};
use crate::on_cables;
use crate::outputs::put_next;
use crate::passing::{hear, let_pass};
use crate::plan::Plan;
use crate::routers::ask_router;
use cabled::{CabledRouter, Peers};
use case_words::{Answer, Bench, Stop, Words};
use end_node::EndNode;
use live_node::LiveNode;
use live_router::LiveRouter;
use router::Router;
use rtmp::RouteTable;
use station::ways::straight;
use std::alloc::Global;
use survey::Asker;

/// The station of a case, by its kind.
#[derive(Drop)]
enum Subject<T: RouteTable> {
    Nothing,
    Router(Router<T>),
    LiveRouter(LiveRouter<T>),
    CabledRouter(CabledRouter<T>),
    Asker(Asker),
    Node(EndNode),
    LiveNode(LiveNode),
}

/// Room for the lines of a station's outputs: 256 datagrams of 599 bytes, in hexadecimal digits.
const ROOM: usize = 400_000;

/// The plan of a case's station, the station itself, the number of its ticks so far, and the bytes
/// with which the next frame begins.
#[derive(Drop)]
pub(crate) struct Stations<T: RouteTable> {
    alloc: Global,
    plan: Plan,
    subject: Subject<T>,
    ticks: u32,
    bytes: Vec<u8>,
}

/// The live station of a plan, of this kind.
fn live_subject_of<T: RouteTable>(
    alloc: Global,
    plan: &Plan,
    kind: &str,
) -> Result<Subject<T>, Stop> {
    match kind {
        "router" => Ok(Subject::LiveRouter(live_router_of(alloc, plan)?)),
        "node" => Ok(Subject::LiveNode(live_node_of(alloc, plan)?)),
        _ => Err(Stop::Unclear),
    }
}

/// The router of a plan with its ports on cables, which follows these rules.
fn cabled_subject_of<T: RouteTable>(
    alloc: Global,
    plan: &Plan,
    rules: &str,
) -> Result<Subject<T>, Stop> {
    let peers = match rules {
        "played" => Peers::Played,
        "real" => Peers::Real,
        _ => return Err(Stop::Unclear),
    };
    Ok(Subject::CabledRouter(cabled_router_of(alloc, plan, peers)?))
}

/// The station of a plan, of this kind.
fn subject_of<T: RouteTable>(
    alloc: Global,
    plan: &Plan,
    mut words: Words<'_>,
) -> Result<Subject<T>, Stop> {
    match words.word() {
        "live" => live_subject_of(alloc, plan, words.word()),
        "cabled" => cabled_subject_of(alloc, plan, words.word()),
        "asks" => Ok(Subject::Asker(asker_of(alloc, &mut words)?)),
        "router" => Ok(Subject::Router(router_of(alloc, plan)?)),
        "node" => Ok(Subject::Node(node_of(alloc, plan)?)),
        _ => Err(Stop::Unclear),
    }
}

impl<T: RouteTable> Subject<T> {
    fn hear(&mut self, alloc: Global, frame: &Frame, text: &mut String) -> Answer {
        match self {
            Subject::Nothing | Subject::CabledRouter(_) | Subject::Asker(_) => Err(Stop::Unclear),
            Subject::Router(router) => hear(alloc, router, frame, text),
            Subject::LiveRouter(live) => hear(alloc, live, frame, text),
            Subject::Node(node) => hear(alloc, node, frame, text),
            Subject::LiveNode(live) => hear(alloc, live, frame, text),
        }
    }

    /// Lets a station with ports on cables that it doesn't own hear a frame.
    fn hear_frame(
        &mut self,
        alloc: Global,
        first: &[u8],
        words: Words<'_>,
        text: &mut String,
    ) -> Answer {
        match self {
            Subject::CabledRouter(router) => on_cables::hear(alloc, router, first, words, text),
            Subject::Asker(asker) => on_cables::hear(alloc, asker, first, words, text),
            _ => Err(Stop::Unclear),
        }
    }

    /// Advances the station by a tick. Each output line begins with the tick's number, if one is
    /// given. Returns the number of outputs.
    fn tick(
        &mut self,
        alloc: Global,
        number: Option<u32>,
        text: &mut String,
    ) -> Result<usize, Stop> {
        match self {
            Subject::Nothing => Err(Stop::Unclear),
            Subject::Router(router) => let_pass(alloc, router, number, text),
            Subject::LiveRouter(live) => let_pass(alloc, live, number, text),
            Subject::CabledRouter(router) => on_cables::let_pass(alloc, router, number, text),
            Subject::Asker(asker) => on_cables::let_pass(alloc, asker, number, text),
            Subject::Node(node) => let_pass(alloc, node, number, text),
            Subject::LiveNode(live) => let_pass(alloc, live, number, text),
        }
    }

    /// Answers a question about the station's state, or carries out a call of its user.
    fn ask(&mut self, alloc: Global, words: Words<'_>, text: &mut String) -> Answer {
        match self {
            Subject::Nothing => Err(Stop::Unclear),
            Subject::Router(router) => ask_router(router, words, text),
            Subject::LiveRouter(live) => ask_live_router(live, words, text),
            Subject::CabledRouter(router) => ask_router(router.router().router(), words, text),
            Subject::Asker(asker) => ask_asker(asker, words, text),
            Subject::Node(node) => ask_user(alloc, node, words, text),
            Subject::LiveNode(live) => ask_user(alloc, live, words, text),
        }
    }
}

fn ask_live_router<T: RouteTable>(
    live: &mut LiveRouter<T>,
    mut words: Words<'_>,
    text: &mut String,
) -> Answer {
    if words.passes("give-up") {
        live.give_up(words.addr()?);
        return Ok(());
    }
    ask_router(live.router(), words, text)
}

impl<T: RouteTable> Stations<T> {
    fn begin(&mut self, words: Words<'_>) -> Answer {
        self.subject = subject_of(self.alloc, &self.plan, words)?;
        self.ticks = 0;
        Ok(())
    }

    fn hear(&mut self, words: Words<'_>, text: &mut String) -> Answer {
        let frame = frame_of(self.alloc, self.bytes.as_slice(), words)?;
        self.subject.hear(self.alloc, &frame, text)?;
        self.bytes.clear();
        if text.as_str().is_empty() {
            writeln!(text, "nothing")?;
        }
        Ok(())
    }

    fn hear_frame(&mut self, words: Words<'_>, text: &mut String) -> Answer {
        let first = self.bytes.as_slice();
        self.subject.hear_frame(self.alloc, first, words, text)?;
        self.bytes.clear();
        if text.as_str().is_empty() {
            writeln!(text, "nothing")?;
        }
        Ok(())
    }

    fn tick(&mut self, text: &mut String) -> Answer {
        let _ = self.subject.tick(self.alloc, None, text)?;
        self.ticks = self.ticks.saturating_add(1);
        if text.as_str().is_empty() {
            writeln!(text, "nothing")?;
        }
        Ok(())
    }

    /// Advances the station by ticks, and appends each output with the number of its tick.
    fn ticks(&mut self, count: u32, text: &mut String) -> Answer {
        for _ in 0..count {
            self.ticks = self.ticks.saturating_add(1);
            let _ = self.subject.tick(self.alloc, Some(self.ticks), text)?;
        }
        if text.as_str().is_empty() {
            writeln!(text, "nothing")?;
        }
        Ok(())
    }

    /// Advances the station by ticks, and appends the number of outputs.
    fn pass(&mut self, count: u32, text: &mut String) -> Answer {
        let mut sum = 0usize;
        for _ in 0..count {
            let many = self.subject.tick(self.alloc, None, text)?;
            sum = sum.saturating_add(many);
            text.clear();
        }
        self.ticks = self.ticks.saturating_add(count);
        writeln!(text, "{sum} put out")?;
        Ok(())
    }

    fn keep(&mut self, words: &mut Words<'_>) -> Answer {
        let bytes = words.bytes(self.alloc)?;
        self.bytes.extend_from_slice(bytes.as_slice())?;
        Ok(())
    }
}

/// Appends the next station of a datagram on the cable of its target.
fn put_straight(words: &mut Words<'_>, text: &mut String) -> Answer {
    put_next(text, straight(words.addr()?))?;
    writeln!(text)?;
    Ok(())
}

impl<T: RouteTable> Bench for Stations<T> {
    fn new(alloc: Global) -> Stations<T> {
        Stations {
            alloc,
            plan: Plan::new(alloc),
            subject: Subject::Nothing,
            ticks: 0,
            bytes: Vec::new(alloc),
        }
    }

    fn act(&mut self, mut words: Words<'_>, text: &mut String) -> Answer {
        text.reserve(ROOM)?;
        let line = words;
        match words.word() {
            "port" | "row" | "list" | "zone" | "router" | "name" | "unname" => {
                self.plan.act(self.alloc, line, text)
            }
            "begin" => self.begin(words),
            "bytes" => self.keep(&mut words),
            "hears" => self.hear(words, text),
            "frame" => self.hear_frame(words, text),
            "tick" => self.tick(text),
            "ticks" => self.ticks(words.number()?, text),
            "pass" => self.pass(words.number()?, text),
            "straight" => put_straight(&mut words, text),
            _ => self.subject.ask(self.alloc, line, text),
        }
    }
}
