//! Who watches a router on real cables: its images are written, and its changes are told.

use crate::explain::Evidence;
use crate::outputs::{Outputs, Wanted};
use crate::performed::Performed;
use at_base::{Error, What};
use cabled::CabledRouter;
use command_line::{Outcome, Route};
use file_router::image_of;
use internet_file::Plan;
use planned_stations::router_at;
use route_log::Known;
use routing::Watch;
use rtmp::Routes;
use std::io::Write;
use table_image::write;
use text::Output;

/// Writes images of a router each so many ticks, and lines about its changes to standard error, as far
/// as they are wanted.
#[derive(Drop)]
pub struct Keeper<'a> {
    rt: &'a HostRuntime,
    plan: &'a Plan,
    /// The index of the router, from 0.
    index: usize,
    image: Option<&'a str>,
    every: u32,
    known: Option<Known>,
}

impl<'a> Keeper<'a> {
    /// Who watches a router of a plan as the command line asks.
    pub fn new(
        rt: &'a HostRuntime,
        plan: &'a Plan,
        index: usize,
        route: Route<'a>,
        every: u32,
    ) -> Keeper<'a> {
        Keeper {
            rt,
            plan,
            index,
            image: route.image,
            every,
            known: if route.log {
                Some(Known::new(rt.alloc()))
            } else {
                None
            },
        }
    }

    /// Writes the image of the router to an output.
    fn put_image(&self, router: &CabledRouter<Routes>, outputs: &mut Outputs) -> Result<(), Error> {
        let Some(planned) = router_at(self.plan, self.index) else {
            return Err(Error::NoSuch(What::Router));
        };
        if planned.port.len() != router.router().router().ports_now().len() {
            return Err(Error::NoSuch(What::Router));
        }
        let image = image_of(self.rt.alloc(), self.plan, planned, router)?;
        let bytes = write(self.rt.alloc(), &image)?;
        match outputs.image.writer.write_all(bytes.as_slice()) {
            Ok(()) => Ok(()),
            Err(_) => Err(Error::WriteFault),
        }
    }

    /// Writes the image of the router, if one is wanted. What couldn't be written is told.
    fn save(&self, router: &CabledRouter<Routes>) {
        let Ok(mut outputs) = Outputs::open(self.rt, Wanted::of(self.image, None)) else {
            return;
        };
        let answer = match self.put_image(router, &mut outputs) {
            Ok(()) => Ok(true),
            Err(error) => Err(error),
        };
        if outputs.end(answer).answer.is_err() {
            let _ = eprintln!(self.rt; "atalk: the image was not written");
        }
    }

    /// Ends a run with this answer: the image is written after a run that ended well.
    pub fn end<'b>(
        &self,
        router: &CabledRouter<Routes>,
        mut outputs: Outputs,
        answer: Result<(), Error>,
        wanted: Wanted<'b>,
    ) -> Performed<'b> {
        let answer = match answer {
            Ok(()) if self.image.is_some() => self.put_image(router, &mut outputs),
            answer => answer,
        };
        let answer = match answer {
            Ok(()) => Ok(true),
            Err(error) => Err(error),
        };
        let ended = outputs.end(answer);
        Performed {
            outcome: Outcome::Answered(ended.answer),
            evidence: Evidence {
                missed: wanted.missed(ended.unwritten),
                ..Evidence::of(None)
            },
        }
    }

    /// Prints what changed of the router.
    fn tell(&mut self, router: &CabledRouter<Routes>, ticks: u64, dropped: u64) {
        let mut lines = Vec::new(self.rt.alloc());
        if let Some(known) = &mut self.known {
            let _ = known.tell(router, ticks, dropped, &mut lines);
        }
        if !lines.is_empty() {
            let text = std::str::from_utf8(lines.as_slice()).unwrap_or("");
            let _ = eprint!(self.rt; "{text}");
        }
    }
}

impl Watch<CabledRouter<Routes>> for Keeper<'_> {
    fn ticked(&mut self, router: &CabledRouter<Routes>, _time: u64, ticks: u64, dropped: u64) {
        if self.known.is_some() {
            self.tell(router, ticks, dropped);
        }
        if self.every > 0 && ticks % u64::from(self.every) == 0 {
            self.save(router);
        }
    }

    fn heard(&mut self, _router: &CabledRouter<Routes>, _time: u64, _bytes: &[u8]) {}
}
