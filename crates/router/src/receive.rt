//! A router's reaction to the datagrams that it receives.

ghost use Rattle.std.specs.Prelude.{◌≡◌, ◌<◌, ◌≤◌, [], ◌++◌, ℕ, false, length, option_to_list, None, Some};
ghost use Rattle.std.specs.Prelude.{IfOk, IfSome, IsOk, IsOkUnless, OnErr, OnOk, option_map};
ghost use Rattle.std.specs.Option.{unwrap_or};
ghost use Rattle.station.specs.Hearing.{hearing};
ghost use Rattle.station.specs.Lawful.{AreLawful, IsGood, PutsOut, is_made};
ghost use Rattle.router.specs.Answers.{followed, heard_datagram, may_ask};
ghost use Rattle.router.specs.Ending.{ended_by};
ghost use Rattle.router.specs.Forwarding as spec;
ghost use Rattle.router.specs.Forwarding.{IsBy, IsCourse, IsNear};

use crate::course::{Course, Step};
use crate::router::Router;
use at_base::Error;
use atp::Responder;
use ddp::View;
use rtmp::RouteTable;
use station::{Heard, Output, Outputs};
use std::alloc::Global;

/// The output for the datagram itself, if a step is taken. Error: `Memory`.
#[inline(always)]
fn fate(alloc: Global, step: Option<Step>, view: &View<'_>) -> Result<Option<Output>, Error>
    requires { IfSome step (IsNear view.now.hops) }
    ensures ok { IfOk result (λ made. option_to_list made ≡ spec.fate step view.now) }
    ensures other { IfOk result (λ made. IfSome made (λ o. is_made o ≡ false)) }
    ensures good { IfOk result (λ made. (n : ℕ) → IfSome step (IsBy n)
        → IfSome made (λ o. IsGood n o)) }
    ensures silent { step ≡ None → IsOk result }
    ensures refused { IsOkUnless result Error.Memory }
{
    match step {
        Some(step) => {
            let output = step.output(alloc, view)?;
            Ok(Some(output))
        }
        None => Ok(None),
    }
}

/// A router's reaction to a datagram that it received. It hasn't been carried out yet.
#[derive(Drop)]
pub struct Reaction {
    /// The output for the datagram itself, if it is forwarded, kept or dropped.
    pub fate: Option<Output>,
    /// The outputs that the router makes.
    pub made: Vec<Output>,
    /// The exactly-once requests for zone lists that the router holds after the datagram, if they
    /// may have changed.
    pub responder: Option<Responder>,
    /// The port on whose cable the datagram ended, if it did and its checksum is right.
    pub ended: Option<u8>,
}

impl Reaction {
    /// The number of its outputs: the one for the datagram itself, if any, and those that the router
    /// makes.
    pub fn count(&self) -> usize
        ensures { result ≡ length (option_to_list self.now.fate ++ self.now.made.items) }
    {
        match self.fate {
            Some(_) => 1 + self.made.len(),
            None => self.made.len(),
        }
    }
}

/// Adds the output for a datagram itself, if any, and then the outputs that the router makes. The
/// queue must have room for them.
fn put_out(outputs: &mut Outputs, fate: Option<Output>, made: Vec<Output>)
    requires { length (option_to_list fate ++ made.items) ≤ outputs.old.spare }
    ensures { outputs.new.items ≡ outputs.old.items ++ (option_to_list fate ++ made.items) }
{
    if let Some(output) = fate {
        outputs.add(output);
    }
    outputs.append(made);
}

impl<T: RouteTable> Router<T> {
    /// The router's reaction to a datagram that took this course. It changes nothing; `follow` carries
    /// it out. Error: `Memory`.
    ///
    /// Inside AppleTalk, the chapter on DDP.
    pub fn react(&self, course: Course, view: &View<'_>) -> Result<Reaction, Error>
        requires { IsCourse (length self.now.ports) view.now.hops course }
        ensures outputs { IfOk result (λ x. option_to_list x.fate ++ x.made.items
            ≡ (followed self.now course view.now).0) }
        ensures holds { IfOk result (λ x.
            record self.now { requests = unwrap_or x.responder self.now.requests }
            ≡ (followed self.now course view.now).1) }
        ensures lawful { IfOk result (λ x.
            AreLawful (length self.now.ports) (option_to_list x.fate ++ x.made.items)) }
        ensures ended { IfOk result (λ x. option_map (λ p. (p, view.now)) x.ended
            ≡ ended_by course.ending view.now) }
        ensures inside { IfOk result (λ x. IfSome x.ended (λ p. p < length self.now.ports)) }
        // Where nothing is put out, no memory is needed, except for requests for names and for
        // zone lists.
        ensures silent { may_ask view.now ≡ false → (followed self.now course view.now).0 ≡ []
            → IsOk result }
        ensures refused { IsOkUnless result Error.Memory }
    {
        let handled = self.handle(course.ending, view)?;
        let fate = fate(*self.ports.allocator(), course.step, view)?;
        Ok(Reaction {
            fate,
            made: handled.made,
            responder: handled.responder,
            ended: handled.ended,
        })
    }

    /// Replaces the requests with these, if there are any.
    fn keep(&mut self, responder: Option<Responder>)
        ensures { self.new
            ≡ record self.old { requests = unwrap_or responder self.old.requests } }
    {
        if let Some(responder) = responder {
            self.responder = responder;
        }
    }

    /// Carries out a reaction: adds its outputs, and holds its requests. The caller ensures that
    /// the outputs are lawful, as those of `react` are. Error: `Memory`, where there is no room for
    /// the outputs; neither the router nor the outputs change then.
    pub fn follow(&mut self, reaction: Reaction, outputs: &mut Outputs) -> Result<(), Error>
        requires { AreLawful (length self.old.ports)
            (option_to_list reaction.fate ++ reaction.made.items) }
        ensures ok { OnOk result
            (PutsOut (length self.old.ports) outputs.old.items outputs.new.items (λ added.
            added ≡ option_to_list reaction.fate ++ reaction.made.items)) }
        ensures holds { OnOk result (self.new ≡ record self.old {
          requests = unwrap_or reaction.responder self.old.requests;
        }) }
        ensures ports_stay { self.new.ports ≡ self.old.ports }
        ensures sure { length (option_to_list reaction.fate ++ reaction.made.items)
            ≤ outputs.old.spare → IsOk result }
        ensures refused { IsOkUnless result Error.Memory }
        ensures station_stays { OnErr result (self.new ≡ self.old) }
        ensures outputs_stay { OnErr result (outputs.new.items ≡ outputs.old.items) }
    {
        outputs.room(reaction.count())?;
        let Reaction {
            fate,
            made,
            responder,
            ..
        } = reaction;
        put_out(outputs, fate, made);
        self.keep(responder);
        Ok(())
    }

    /// Takes the step of a datagram whose course doesn't end at the router: nothing else comes of it.
    /// Error: `Memory`; the outputs don't change then.
    ///
    /// Inside AppleTalk, the chapter on DDP.
    pub fn carry(
        &self,
        step: Option<Step>,
        view: &View<'_>,
        outputs: &mut Outputs,
    ) -> Result<(), Error>
        requires near { IfSome step (IsNear view.now.hops) }
        requires by { IfSome step (IsBy (length self.now.ports)) }
        ensures ok { OnOk result
            (PutsOut (length self.now.ports) outputs.old.items outputs.new.items (λ added.
            added ≡ spec.fate step view.now)) }
        ensures silent { step ≡ None → IsOk result }
        ensures refused { IsOkUnless result Error.Memory }
        ensures outputs_stay { OnErr result (outputs.new.items ≡ outputs.old.items) }
    {
        let fate = fate(*self.ports.allocator(), step, view)?;
        if let Some(output) = fate {
            outputs.room(1)?;
            outputs.add(output);
        }
        Ok(())
    }

    /// Receives a datagram on one of the ports. Error: `Memory`; neither the router nor the outputs
    /// change then.
    pub(crate) fn hear_datagram(
        &mut self,
        heard: &Heard<'_>,
        view: &View<'_>,
        outputs: &mut Outputs,
    ) -> Result<(), Error>
        requires { heard.now.port < length self.old.ports }
        ensures ok { OnOk result
            (PutsOut (length self.old.ports) outputs.old.items outputs.new.items (λ added.
            (added, self.new) ≡ heard_datagram self.old (hearing heard.now) (Some view.now))) }
        ensures ports_stay { self.new.ports ≡ self.old.ports }
        ensures silent { may_ask view.now ≡ false
            → (heard_datagram self.old (hearing heard.now) (Some view.now)).0 ≡ []
            → IsOk result }
        ensures refused { IsOkUnless result Error.Memory }
        ensures station_stays { OnErr result (self.new ≡ self.old) }
        ensures outputs_stay { OnErr result (outputs.new.items ≡ outputs.old.items) }
    {
        let course = self.course(heard.port, heard.link, view.hops(), view.target());
        // Most datagrams only pass: for them no reaction is made.
        if course.ending.is_none() {
            return self.carry(course.step, view, outputs);
        }
        let reaction = self.react(course, view)?;
        self.follow(reaction, outputs)
    }
}
