//! Reads the arguments of the command line.

ghost use Rattle.std.specs.Prelude.{◌≡◌, ◌≢◌, ◌⊎◌, ◌≤◌, ◌∷◌, ◌++◌};
ghost use Rattle.std.specs.Prelude.{List, ℕ, [], None, true, codes, length, map};
ghost use Rattle.std.specs.Prelude.{IfOk, IfErr, IsErrAnd, OnOk, Some, option_map, unwrap_or};
ghost use Rattle.clap.specs.Words.{FailsBy, all_of, fault_of, first_of, found_of, kind_of};
ghost use Rattle.clap.specs.Words.{rows_of};
ghost use Rattle.clap.specs.Words.{subcommand_of, subcommand_rows_of, takes};
ghost use Rattle.clap.specs.declared.error.ErrorKind.TheVariants.{OutOfMemory};
ghost use Rattle.command_line.specs.Arguments.{About, AreNamed, IsMeantBy, IsRequest, IsWord, Names};
ghost use Rattle.command_line.specs.Arguments.{IsStation, ToAsk, ToRoute, about_kind, about_word, asked, is_set};
ghost use Rattle.command_line.specs.Arguments.{later, source_for, version_by};
ghost use Rattle.command_line.specs.Forms.{AreOperands, Asks, Form, operands_of, words_of};
ghost use Rattle.command_line.specs.Syntax.{atalk_app};

use crate::syntax::atalk_command;
use clap::{ArgMatches, Error};
use std::alloc::{AllocError, Global};
use std::convert::AsStr;
use table_image::Version;

/// The source from which an image, a script or an internet file is read.
#[derive(Clone, Copy, Debug, PartialEq, Eq)]
pub enum Source<'a> {
    StandardInput,
    File(&'a str),
}

/// What a router on real cables is asked for, with the words of options as they are given.
#[derive(Clone, Copy, Debug, PartialEq, Eq)]
pub struct Route<'a> {
    /// The internet file.
    pub source: Source<'a>,
    /// The word of `--router`.
    pub router: &'a str,
    /// The file for the router's image, if one is wanted.
    pub image: Option<&'a str>,
    /// The word of `--every`, if it is given.
    pub every: Option<&'a str>,
    /// Whether `--log` is given.
    pub log: bool,
}

/// A station on a real cable, with the words of options as they are given.
#[derive(Clone, Copy, Debug, PartialEq, Eq)]
pub struct Station<'a> {
    /// The word of `--cable`.
    pub cable: &'a str,
    /// The word of `--hardware`.
    pub hardware: &'a str,
}

/// The job that the command line asks for.
#[derive(Clone, Copy, Debug, PartialEq, Eq)]
pub enum Job<'a> {
    /// The audit of an image.
    Audit(Source<'a>),
    /// The run of a script over an image: the image, then the script, and the file for its capture,
    /// if one is wanted.
    Trace(Source<'a>, Source<'a>, Option<&'a str>),
    /// The play of an internet file, the file for its image, if one is wanted, the version of the
    /// image, if one is asked for, and the file for its capture, if one is wanted.
    Play(Source<'a>, Option<&'a str>, Option<Version>, Option<&'a str>),
    /// The audit of what a tables file says, and the file for its image, if one is wanted.
    Make(Source<'a>, Option<&'a str>),
    /// The tables file of an image.
    Show(Source<'a>),
    /// The drawing of an image, and the word for the network to which the ways are drawn, if one is
    /// asked for.
    Draw(Source<'a>, Option<&'a str>),
    /// The joining of images, the first of which is this one, and the file for the image of all.
    Join(Source<'a>, &'a str),
    /// A router of an internet file, on real cables.
    Route(Route<'a>),
    /// A survey of real routers, and whether answers are told.
    Survey(Station<'a>, bool),
    /// A question to real stations: whether it is about the zones of the station's own cable, or about
    /// its own zone, and the word of `--count`, if it is given.
    Ask(Station<'a>, bool, bool, Option<&'a str>),
}

/// What the command line asks for.
#[derive(Debug, Drop)]
pub struct Request<'a> {
    /// The job.
    pub job: Job<'a>,
    /// The images that an audit judges or that are joined after the first one, in their order.
    pub further: Vec<Source<'a>>,
    /// The words of the options `--cable`, in their order.
    pub cables: Vec<&'a str>,
    /// The words of a question, in their order.
    pub question: Vec<&'a str>,
    /// The word of `--explain`, if it is given.
    pub explain: Option<&'a str>,
    /// Whether `--quiet` is given.
    pub quiet: bool,
    /// Whether `--json` is given.
    pub json: bool,
    /// Whether `--settled` is given.
    pub settled: bool,
}

/// Reads the arguments. The first one is the program's own name.
pub fn read_arguments<'a, S: AsStr>(alloc: Global, arguments: &'a [S]) -> Result<Request<'a>, Error>
    // Without arguments the job is an audit of standard input; the only error is out of memory.
    ensures alone { length arguments.entry.now ≤ 1
        → IfOk result (λ r. r.job ≡ Job.Audit Source.StandardInput) }
    ensures alone_err { length arguments.entry.now ≤ 1
        → IfErr result (λ e. kind_of e ≡ OutOfMemory) }
    // The job is that of the command and its operands, in the parse that clap's contracts define, and
    // so is what is told.
    ensures meant { IfOk result
        (IsRequest (subcommand_of atalk_app (map S.text arguments.entry.now))) }
    // Arguments that are refused have the kind of their fault in that parse, and others none; the
    // only other error is out of memory.
    ensures kinds { FailsBy (fault_of atalk_app (map S.text arguments.entry.now)) result }
    // Arguments that the parse takes have no error but out of memory.
    ensures taken { takes atalk_app (map S.text arguments.entry.now) ≡ true
        → IfErr result (λ e. kind_of e ≡ OutOfMemory) }
    // Arguments of one of the forms ask for its job; the only error is out of memory.
    ensures written { (name : List ℕ) (form : Form)
        → map S.text arguments.entry.now ≡ name ∷ words_of form
        → AreOperands (operands_of form) → IfOk result (λ r. Asks form r.job) }
    ensures written_err { (name : List ℕ) (form : Form)
        → map S.text arguments.entry.now ≡ name ∷ words_of form
        → AreOperands (operands_of form) → IfErr result (λ e. kind_of e ≡ OutOfMemory) }
    // `--help`, `-h`, `--version` and `-V` return the errors `DisplayHelp` and `DisplayVersion`.
    ensures about { (name : List ℕ) (about : About)
        → map S.text arguments.entry.now ≡ name ∷ about_word about ∷ []
        → IsErrAnd result (λ e. (kind_of e ≡ about_kind about) ⊎ (kind_of e ≡ OutOfMemory)) }
{
    let matches = atalk_command(alloc)?.try_get_matches_from(arguments)?;
    match request_of(alloc, &matches) {
        Ok(request) => Ok(request),
        Err(error) => Err(Error::from(error)),
    }
}

/// What was matched. Without a command it is an audit of standard input. Error: `AllocError`.
fn request_of<'a>(alloc: Global, matches: &ArgMatches<'a>) -> Result<Request<'a>, AllocError>
    ensures none { subcommand_rows_of matches.now ≡ None
        → IfOk result (λ r. r.job ≡ Job.Audit Source.StandardInput) }
    ensures meant { IfOk result (IsRequest (subcommand_rows_of matches.now)) }
{
    match matches.subcommand() {
        Some((name, operands)) => Ok(Request {
            job: job_named(name, operands),
            further: further_in(alloc, operands)?,
            cables: cables_in(alloc, operands)?,
            question: question_in(alloc, operands)?,
            explain: word_in(operands, "WHEN"),
            quiet: flag_in(operands, "QUIET"),
            json: flag_in(operands, "JSON"),
            settled: flag_in(operands, "SETTLED"),
        }),
        None => Ok(Request {
            job: Job::Audit(Source::StandardInput),
            further: Vec::new(alloc),
            cables: Vec::new(alloc),
            question: Vec::new(alloc),
            explain: None,
            quiet: false,
            json: false,
            settled: false,
        }),
    }
}

/// Appends the sources with these names. Error: `AllocError`.
fn put_sources<'a>(sources: &mut Vec<Source<'a>>, texts: &[&'a str]) -> Result<(), AllocError>
    ensures { OnOk result
        (sources.new.items ≡ sources.old.items ++ map source_for texts.now) }
{
    match texts {
        [] => Ok(()),
        [first, rest @ ..] => {
            sources.push(source_of(first))?;
            put_sources(sources, rest)
        }
    }
}

/// The texts after the first one.
fn later_of<'b, 'a>(texts: Option<&'b [&'a str]>) -> &'b [&'a str]
    ensures { map (λ text. text.now) result.now
        ≡ later (option_map (λ all. map (λ text. text.now) all.now) texts.entry) }
{
    match texts {
        Some([_, rest @ ..]) => rest,
        _ => &[],
    }
}

/// The sources in the operand FILE after the first one. Error: `AllocError`.
fn further_in<'a>(alloc: Global, operands: &ArgMatches<'a>) -> Result<Vec<Source<'a>>, AllocError>
    ensures { IfOk result (λ v.
        AreNamed (later (all_of (codes "FILE") (rows_of (found_of operands.now)))) v.items) }
{
    let mut sources = Vec::new(alloc);
    put_sources(&mut sources, later_of(operands.get_strs("FILE")))?;
    Ok(sources)
}

/// The job of a command: an audit where its name is none of the others.
fn job_named<'a>(name: &str, operands: &ArgMatches<'a>) -> Job<'a>
    ensures { IsMeantBy (asked name.now) (rows_of (found_of operands.now)) result }
{
    if name == "trace" {
        Job::Trace(
            source_in(operands, "IMAGE"),
            source_in(operands, "SCRIPT"),
            word_in(operands, "CAPTURE"),
        )
    } else if name == "play" {
        Job::Play(
            source_in(operands, "FILE"),
            word_in(operands, "OUT"),
            version_in(operands, "V2"),
            word_in(operands, "CAPTURE"),
        )
    } else if name == "make" {
        Job::Make(source_in(operands, "FILE"), word_in(operands, "OUT"))
    } else if name == "show" {
        Job::Show(source_in(operands, "IMAGE"))
    } else if name == "draw" {
        Job::Draw(source_in(operands, "IMAGE"), word_in(operands, "NET"))
    } else if name == "join" {
        Job::Join(source_in(operands, "FILE"), required_in(operands, "OUT"))
    } else if name == "route" {
        Job::Route(route_in(operands))
    } else if name == "survey" {
        Job::Survey(station_in(operands), flag_in(operands, "LOG"))
    } else if name == "ask" {
        ask_in(operands)
    } else {
        Job::Audit(source_in(operands, "FILE"))
    }
}

/// All of the texts, if there are any.
fn all_texts<'b, 'a>(texts: Option<&'b [&'a str]>) -> &'b [&'a str]
    ensures { map (λ text. text.now) result.now
        ≡ unwrap_or (option_map (λ all. map (λ text. text.now) all.now) texts.entry) [] }
{
    match texts {
        Some(texts) => texts,
        None => &[],
    }
}

/// The words of the options `--cable`. Error: `AllocError`.
fn cables_in<'a>(alloc: Global, operands: &ArgMatches<'a>) -> Result<Vec<&'a str>, AllocError>
    ensures { IfOk result (λ v. map (λ word. word.now) v.items
        ≡ unwrap_or (all_of (codes "K=NAME") (rows_of (found_of operands.now))) []) }
{
    Vec::from_slice(alloc, all_texts(operands.get_strs("K=NAME")))
}

/// What a router on real cables is asked for.
fn route_in<'a>(operands: &ArgMatches<'a>) -> Route<'a>
    ensures { IsMeantBy ToRoute (rows_of (found_of operands.now)) (Job.Route result) }
{
    let image = word_in(operands, "OUT");
    Route {
        source: source_in(operands, "FILE"),
        router: required_in(operands, "N"),
        image,
        every: word_in(operands, "TICKS"),
        log: flag_in(operands, "LOG"),
    }
}

/// The words of the operand QUESTION. Error: `AllocError`.
fn question_in<'a>(alloc: Global, operands: &ArgMatches<'a>) -> Result<Vec<&'a str>, AllocError>
    ensures { IfOk result (λ v. map (λ word. word.now) v.items
        ≡ unwrap_or (all_of (codes "QUESTION") (rows_of (found_of operands.now))) []) }
{
    Vec::from_slice(alloc, all_texts(operands.get_strs("QUESTION")))
}

/// The station of a command.
fn station_in<'a>(operands: &ArgMatches<'a>) -> Station<'a>
    ensures { IsStation (first_of (codes "NAME") (rows_of (found_of operands.now)))
        (first_of (codes "HEX") (rows_of (found_of operands.now))) result }
{
    Station {
        cable: required_in(operands, "NAME"),
        hardware: required_in(operands, "HEX"),
    }
}

/// A question to real stations.
fn ask_in<'a>(operands: &ArgMatches<'a>) -> Job<'a>
    ensures { IsMeantBy ToAsk (rows_of (found_of operands.now)) result }
{
    Job::Ask(
        station_in(operands),
        flag_in(operands, "LOCAL"),
        flag_in(operands, "MINE"),
        word_in(operands, "COUNT"),
    )
}

/// The source in the operand with this name.
fn source_in<'a>(operands: &ArgMatches<'a>, name: &str) -> Source<'a>
    ensures { Names (first_of name.now (rows_of (found_of operands.now))) result }
{
    source_of(operands.get_str(name).unwrap_or("-"))
}

/// The word in the option with this name, if the option is used.
fn word_in<'a>(operands: &ArgMatches<'a>, name: &str) -> Option<&'a str>
    ensures { option_map (λ word. word.now) result
        ≡ first_of name.now (rows_of (found_of operands.now)) }
{
    operands.get_str(name)
}

/// The word in the required option with this name.
fn required_in<'a>(operands: &ArgMatches<'a>, name: &str) -> &'a str
    ensures { IsWord (first_of name.now (rows_of (found_of operands.now))) result.now }
{
    word_in(operands, name).unwrap_or("")
}

/// Whether the flag with this name is given.
fn flag_in(operands: &ArgMatches<'_>, name: &str) -> bool
    ensures { result ≡ is_set (first_of name.now (rows_of (found_of operands.now))) }
{
    match operands.get_str(name) {
        Some(given) => is_true(given),
        None => false,
    }
}

/// Whether a flag with this value is given.
fn is_true(given: &str) -> bool
    ensures { result ≡ is_set (Some given.now) }
{
    given == "true"
}

/// The version that the flag with this name asks for, if it is given.
fn version_in(operands: &ArgMatches<'_>, name: &str) -> Option<Version>
    ensures { result ≡ version_by (first_of name.now (rows_of (found_of operands.now))) }
{
    if flag_in(operands, name) {
        Some(Version::V2)
    } else {
        None
    }
}

/// The source with this name.
fn source_of(text: &str) -> Source<'_>
    ensures input { text.entry.now ≡ codes "-" → result ≡ Source.StandardInput }
    ensures file { text.entry.now ≢ codes "-" → result ≡ Source.File text.entry }
    ensures named { result ≡ source_for text.entry }
{
    if text == "-" {
        Source::StandardInput
    } else {
        Source::File(text)
    }
}
