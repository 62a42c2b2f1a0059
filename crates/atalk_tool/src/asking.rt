//! Who watches a station that asks: what it is told is told to a person.

use asked_lines::{Answers, Log, Style};
use json_lines::note;
use routing::Watch;
use survey::{Asker, Stage};

/// What is told of a station that asks.
#[derive(Drop)]
pub enum Tells {
    /// The answers to its question.
    Answers(Answers),
    /// What happens in a survey.
    Log(Log),
}

/// Tells what happens to the questions of a station, on standard error.
#[derive(Drop)]
pub struct Asking<'a> {
    rt: &'a HostRuntime,
    style: Style,
    tells: Tells,
    ticks: u64,
}

impl<'a> Asking<'a> {
    /// Who tells so much of a station that asks.
    pub fn new(rt: &'a HostRuntime, style: Style, tells: Tells) -> Asking<'a> {
        Asking {
            rt,
            style,
            tells,
            ticks: 0,
        }
    }

    /// Prints lines that are text.
    fn print(&self, lines: &[u8]) {
        if !lines.is_empty() {
            let text = str::from_utf8(lines).unwrap_or("");
            let _ = eprint!(self.rt; "{text}");
        }
    }

    /// Tells why a station came to no end, in the style of its answers.
    fn say(&self, sentence: &str) {
        match self.style {
            Style::Text => {
                let _ = eprintln!(self.rt; "{sentence}");
            }
            Style::Json => {
                if let Ok(line) = note(self.rt.alloc(), sentence, None) {
                    let _ = eprint!(self.rt; "{line}");
                }
            }
            Style::Nothing => {}
        }
    }

    /// Tells that no router was heard.
    fn say_unheard(&self) {
        let ticks = self.ticks;
        match format!(in self.rt.alloc(); "no router was heard in {ticks} ticks") {
            Ok(sentence) => self.say(sentence.as_str()),
            Err(_) => self.say("no router was heard"),
        }
    }

    /// Whether what was asked was answered. Of a survey that is always so: not every router answers
    /// everything, and its log and its capture tell.
    fn is_answered(&self) -> bool {
        match &self.tells {
            Tells::Answers(answers) => answers.silent() == 0,
            Tells::Log(_) => true,
        }
    }

    /// Tells what was left out of answers.
    fn tell_rest(&self) {
        if let Tells::Answers(answers) = &self.tells {
            let mut lines = Vec::new(self.rt.alloc());
            let _ = answers.end(&mut lines);
            self.print(lines.as_slice());
        }
    }

    /// Tells how a run ended, and returns whether what was asked was answered.
    pub fn end(&self, asker: &Asker) -> bool {
        self.tell_rest();
        match (asker.stage(), asker.is_through()) {
            (Stage::Listens, _) => self.say_unheard(),
            (Stage::Chooses, true) => self.say("no address was free"),
            (Stage::Chooses, false) => self.say("the input ended before an address was chosen"),
            (Stage::Settled(_), false) => self.say("the input ended before all was asked"),
            (Stage::Settled(_), true) => return self.is_answered(),
        }
        false
    }
}

impl Watch<Asker> for Asking<'_> {
    fn ticked(&mut self, asker: &Asker, time: u64, ticks: u64, _dropped: u64) {
        self.ticks = ticks;
        let mut lines = Vec::new(self.rt.alloc());
        let told = asker.told();
        let _ = match &mut self.tells {
            Tells::Answers(answers) => answers.tick(told, time, &mut lines),
            Tells::Log(log) => log.tick(asker.stage(), told, &mut lines),
        };
        self.print(lines.as_slice());
    }

    fn heard(&mut self, asker: &Asker, time: u64, bytes: &[u8]) {
        let mut lines = Vec::new(self.rt.alloc());
        let told = asker.told();
        let _ = match &mut self.tells {
            Tells::Answers(answers) => answers.hear(told, time, bytes, &mut lines),
            Tells::Log(log) => log.hear(told, bytes, &mut lines),
        };
        self.print(lines.as_slice());
    }
}
