//! Runs over frozen tables.

ghost use Rattle.std.specs.Prelude.{◌≡◌, IfOk, List, Some, true, ℕ};
ghost use Rattle.audit.specs.Routing.{home};
ghost use Rattle.ddp.specs.Bodies.{target};
ghost use Rattle.frozen.specs.Promises.{HaveOnlyAsked};
ghost use Rattle.frozen.specs.Runs.{RunsOver};
ghost use Rattle.frozen.specs.Sentence.{HasBeenLookedUp, HasReached, IsLossless, WasHeardBy};
ghost use Rattle.table_image.specs.Seats.{Seat, seat_at};
ghost use Rattle.table_image.specs.declared.version.Version.TheVariants.{V1, V2};

use crate::entries::put_trace;
use crate::scripts::steps;
use at_base::Error;
use cable_model::Entry;
use case_words::{Answer, Stop, Words, put_line, yes_or_no};
use events::Event;
use frozen::{Frozen, what_a_yes_promises, what_a_yes_promises_with_resolution};
use rtmp::RouteTable;
use script::{Step, read};
use std::alloc::Global;

/// A run over the image in the bytes, for at most `limit` entries.
pub(crate) fn started<T: RouteTable>(
    alloc: Global,
    bytes: &[u8],
    mut words: Words<'_>,
) -> Result<Frozen<T>, Stop> {
    let limit = words.named("limit")?;
    let image = image_feed::read(alloc, bytes)?;
    Ok(Frozen::start(alloc, image, limit)?)
}

/// The number of frames that were taken so far.
fn taken<T: RouteTable>(run: &Frozen<T>) -> u32 {
    let mut taken = 0u32;
    for entry in run.transcript() {
        if let Entry::Took { .. } = entry {
            taken = taken.saturating_add(1);
        }
    }
    taken
}

/// Takes pending frames, at most so many. Where none is left, the run has what a yes promises of it.
fn rest<T: RouteTable>(run: &mut Frozen<T>, most: u32) -> Result<bool, Error>
    ensures reached { IfOk result (λ none_left. none_left ≡ true → RunsOver V1 run.new
        → (b : List ℕ) (c : ℕ) → home run.new.internet (target b).net ≡ Some c
        → HasReached run.new b c) }
    ensures heard { IfOk result (λ none_left. none_left ≡ true → RunsOver V2 run.new
        → IsLossless run.new → (b : List ℕ) (c : ℕ) (s : Seat)
        → seat_at run.new.internet c (target b) ≡ Some s → WasHeardBy run.new s.station b) }
    ensures looked_up { IfOk result (λ none_left. none_left ≡ true → RunsOver V1 run.new
        → HaveOnlyAsked run.new → (k : List ℕ) → HasBeenLookedUp run.new k) }
{
    what_a_yes_promises();
    what_a_yes_promises_with_resolution();
    run.drain(most)
}

/// Drains a run. The takes before one that ran out of memory stay, so the rest follows.
fn drain<T: RouteTable>(run: &mut Frozen<T>, most: u32) -> Result<bool, Error> {
    let before = taken(run);
    match rest(run, most) {
        Err(Error::Memory) => {
            let done = taken(run).saturating_sub(before);
            rest(run, most.saturating_sub(done))
        }
        answer => answer,
    }
}

/// Carries out the line of a script.
fn happen<T: RouteTable>(
    alloc: Global,
    run: &mut Frozen<T>,
    line: &str,
    text: &mut String,
) -> Answer {
    let steps = read(alloc, line.as_bytes())?;
    for step in steps.iter() {
        match step {
            Step::Event(event) => run.event(event)?,
            Step::Drain(most) => {
                let done = yes_or_no(drain(run, *most)?);
                writeln!(text, "all taken: {done}")?;
            }
        }
    }
    Ok(())
}

/// The events of steps, which must all be events.
fn events_of(alloc: Global, steps: Vec<Step>) -> Result<Vec<Event>, Stop> {
    let mut events = Vec::new(alloc);
    for step in steps {
        match step {
            Step::Event(event) => events.push(event)?,
            Step::Drain(_) => return Err(Stop::Unclear),
        }
    }
    Ok(events)
}

/// Appends the result of a run, before which this many events had happened.
fn put_outcome(text: &mut String, before: usize, outcome: Result<(), (usize, Error)>) -> Answer {
    match outcome {
        Ok(()) => writeln!(text, "all happened")?,
        Err((place, error)) => {
            let place = place.saturating_add(before);
            writeln!(text, "event {place}: {error}")?;
        }
    }
    Ok(())
}

/// Carries out the events of a script, up to the first one that returns an error.
fn happen_all<T: RouteTable>(
    alloc: Global,
    run: &mut Frozen<T>,
    words: Words<'_>,
    text: &mut String,
) -> Answer {
    let events = events_of(alloc, steps(alloc, words)?)?;
    match run.run(events.as_slice()) {
        // The events before one that ran out of memory stay, so the rest follows.
        Err((place, Error::Memory)) if place < events.len() => {
            let outcome = run.run(&events.as_slice()[place..]);
            put_outcome(text, place, outcome)
        }
        outcome => put_outcome(text, 0, outcome),
    }
}

/// Appends, for each cable of the image, how many datagrams reached it.
fn put_reached<T: RouteTable>(run: &Frozen<T>, text: &mut String) -> Answer {
    for cable in 0..run.image().cables().len() {
        let mut count: u32 = 0;
        for entry in run.transcript() {
            if let Entry::Reached { cable: c, .. } = entry {
                if *c as usize == cable {
                    count = count.saturating_add(1);
                }
            }
        }
        write!(text, "{count} ")?;
    }
    writeln!(text, "reached")?;
    Ok(())
}

/// Appends the numbers of entries and of pending pairs.
fn put_counts<T: RouteTable>(run: &Frozen<T>, text: &mut String) -> Answer {
    let (entries, pending) = (run.transcript().len(), run.pending_count());
    writeln!(text, "{entries} entries, {pending} pending")?;
    Ok(())
}

/// Carries out a line of a script, or answers a question.
pub(crate) fn act<T: RouteTable>(
    alloc: Global,
    run: &mut Frozen<T>,
    words: Words<'_>,
    text: &mut String,
) -> Answer {
    let mut rest = words;
    match rest.word() {
        "send" | "request" | "take" | "drain" => {
            let mut line = words;
            happen(alloc, run, line.rest(), text)
        }
        "events" => happen_all(alloc, run, rest, text),
        "trace" => put_trace(alloc, run, 0, text),
        "from" => put_trace(alloc, run, rest.number()?, text),
        "counts" => put_counts(run, text),
        "reached" => put_reached(run, text),
        "number" => {
            put_line(text, run.bytes(rest.number()?))?;
            Ok(())
        }
        _ => Err(Stop::Unclear),
    }
}
