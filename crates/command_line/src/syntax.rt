//! The commands of `atalk`, their operands and options, and the help text.

ghost use Rattle.std.specs.Prelude.{◌≡◌, IfOk, false};
ghost use Rattle.clap.specs.Words.{app_of, rule_of};
ghost use Rattle.clap.specs.declared.Command.TheViews.{out-Command as fields_of};
ghost use Rattle.command_line.specs.Syntax.{ask_app, atalk_app, audit_app, cabled_app, cables_app, draw_app};
ghost use Rattle.command_line.specs.Syntax.{images_app, survey_app};
ghost use Rattle.command_line.specs.Syntax.{join_app, make_app, out_option, play_app, plays_app};
ghost use Rattle.command_line.specs.Syntax.{route_app, show_app, tables_app, tables_play_app};
ghost use Rattle.command_line.specs.Syntax.{to_option, trace_app, v2_flag};
ghost use Rattle.command_line.specs.Syntax as spec;

use crate::help::{
    ABOUT, AFTER_COMMAND, AFTER_HELP, ASK, AUDIT, CABLE, CAPTURE, COUNT, DRAW, EVERY, EXPLAIN,
    HARDWARE, IMAGE, IMAGES, INTERNET, JOIN, JSON, LOCAL, LOG, MAKE, MINE, NAME, NET, OUT, PARTS,
    PLAY, QUESTION, QUIET, ROUTE, ROUTED, ROUTER, SCRIPT, SETTLED, SHOW, SURVEY, TABLES, TRACE,
    VERSION_2,
};
use clap::{Arg, ArgAction, Command};
use std::alloc::{AllocError, Global};

/// A required operand.
fn operand<'a>(alloc: Global, name: &'a str, help: &'a str) -> Arg<'a>
    ensures rule { rule_of result ≡ spec.operand name.entry.now }
    ensures local { result.global ≡ false }
{
    Arg::new(alloc, name)
        .help(help)
        .required(true)
        .action(ArgAction::Set)
}

/// An operand that is given once or more.
fn operands<'a>(alloc: Global, name: &'a str, help: &'a str) -> Arg<'a>
    ensures rule { rule_of result ≡ spec.operands name.entry.now }
    ensures local { result.global ≡ false }
{
    operand(alloc, name, help).action(ArgAction::Append)
}

/// A command with `--explain WHEN`.
fn with_explain<'a>(alloc: Global, command: Command<'a>) -> Result<Command<'a>, AllocError>
    requires local { (fields_of command).has_globals ≡ false }
    ensures app { IfOk result (λ it. app_of it ≡ spec.with_explain (app_of command.entry)) }
    ensures local { IfOk result (λ it. (fields_of it).has_globals ≡ false) }
{
    command.arg(
        Arg::new(alloc, "WHEN")
            .long("explain")
            .help(EXPLAIN)
            .action(ArgAction::Set),
    )
}

/// A command with `--explain WHEN` and `--quiet`.
fn with_quiet<'a>(alloc: Global, command: Command<'a>) -> Result<Command<'a>, AllocError>
    requires local { (fields_of command).has_globals ≡ false }
    ensures app { IfOk result (λ it. app_of it ≡ spec.with_quiet (app_of command.entry)) }
    ensures local { IfOk result (λ it. (fields_of it).has_globals ≡ false) }
{
    with_explain(alloc, command)?.arg(
        Arg::new(alloc, "QUIET")
            .long("quiet")
            .short('q')
            .help(QUIET)
            .action(ArgAction::SetTrue),
    )
}

/// A command with `--explain WHEN`, `--quiet` and `--json`.
fn with_telling<'a>(alloc: Global, command: Command<'a>) -> Result<Command<'a>, AllocError>
    requires local { (fields_of command).has_globals ≡ false }
    ensures app { IfOk result (λ it. app_of it ≡ spec.with_telling (app_of command.entry)) }
    ensures local { IfOk result (λ it. (fields_of it).has_globals ≡ false) }
{
    with_quiet(alloc, command)?.arg(
        Arg::new(alloc, "JSON")
            .long("json")
            .help(JSON)
            .action(ArgAction::SetTrue),
    )
}

/// A command with `--explain WHEN`, `--quiet`, `--json` and `--settled`.
fn with_settled<'a>(alloc: Global, command: Command<'a>) -> Result<Command<'a>, AllocError>
    requires local { (fields_of command).has_globals ≡ false }
    ensures app { IfOk result (λ it. app_of it ≡ spec.with_settled (app_of command.entry)) }
    ensures local { IfOk result (λ it. (fields_of it).has_globals ≡ false) }
{
    with_telling(alloc, command)?.arg(
        Arg::new(alloc, "SETTLED")
            .long("settled")
            .help(SETTLED)
            .action(ArgAction::SetTrue),
    )
}

/// `atalk audit FILE..`.
fn audit_command<'a>(alloc: Global) -> Result<Command<'a>, AllocError>
    ensures app { IfOk result (λ command. app_of command ≡ audit_app) }
    ensures local { IfOk result (λ command. (fields_of command).has_globals ≡ false) }
{
    let command = Command::new(alloc, "audit")
        .about(AUDIT)
        .after_help(AFTER_COMMAND)
        .arg(operands(alloc, "FILE", IMAGES))?;
    with_settled(alloc, command)
}

/// `--capture OUT`.
fn capture_option<'a>(alloc: Global) -> Arg<'a>
    ensures rule { rule_of result ≡ spec.capture_option }
    ensures local { result.global ≡ false }
{
    Arg::new(alloc, "CAPTURE")
        .long("capture")
        .help(CAPTURE)
        .action(ArgAction::Set)
}

/// `atalk trace IMAGE SCRIPT`, with `--capture OUT`.
fn trace_command<'a>(alloc: Global) -> Result<Command<'a>, AllocError>
    ensures app { IfOk result (λ command. app_of command ≡ trace_app) }
    ensures local { IfOk result (λ command. (fields_of command).has_globals ≡ false) }
{
    let command = Command::new(alloc, "trace")
        .about(TRACE)
        .after_help(AFTER_COMMAND)
        .arg(operand(alloc, "IMAGE", IMAGE))?
        .arg(operand(alloc, "SCRIPT", SCRIPT))?
        .arg(capture_option(alloc))?;
    with_telling(alloc, command)
}

/// `--image OUT`.
fn image_option<'a>(alloc: Global) -> Arg<'a>
    ensures rule { rule_of result ≡ out_option }
    ensures local { result.global ≡ false }
{
    Arg::new(alloc, "OUT")
        .long("image")
        .help(OUT)
        .action(ArgAction::Set)
}

/// `--v2`.
fn version_option<'a>(alloc: Global) -> Arg<'a>
    ensures rule { rule_of result ≡ v2_flag }
    ensures local { result.global ≡ false }
{
    Arg::new(alloc, "V2")
        .long("v2")
        .help(VERSION_2)
        .action(ArgAction::SetTrue)
}

/// `atalk play FILE`, with `--image OUT` and `--v2`.
fn tables_play_command<'a>(alloc: Global) -> Result<Command<'a>, AllocError>
    ensures app { IfOk result (λ command. app_of command ≡ tables_play_app) }
    ensures local { IfOk result (λ command. (fields_of command).has_globals ≡ false) }
{
    Command::new(alloc, "play")
        .about(PLAY)
        .after_help(AFTER_COMMAND)
        .arg(operand(alloc, "FILE", INTERNET))?
        .arg(image_option(alloc))?
        .arg(version_option(alloc))
}

/// `atalk play FILE`, with `--image OUT`, `--v2` and `--capture OUT`.
fn play_command<'a>(alloc: Global) -> Result<Command<'a>, AllocError>
    ensures app { IfOk result (λ command. app_of command ≡ play_app) }
    ensures local { IfOk result (λ command. (fields_of command).has_globals ≡ false) }
{
    let command = tables_play_command(alloc)?.arg(capture_option(alloc))?;
    with_settled(alloc, command)
}

/// `atalk make FILE`, with `--image OUT`.
fn make_command<'a>(alloc: Global) -> Result<Command<'a>, AllocError>
    ensures app { IfOk result (λ command. app_of command ≡ make_app) }
    ensures local { IfOk result (λ command. (fields_of command).has_globals ≡ false) }
{
    let command = Command::new(alloc, "make")
        .about(MAKE)
        .after_help(AFTER_COMMAND)
        .arg(operand(alloc, "FILE", TABLES))?
        .arg(image_option(alloc))?;
    with_settled(alloc, command)
}

/// `atalk show IMAGE`.
fn show_command<'a>(alloc: Global) -> Result<Command<'a>, AllocError>
    ensures app { IfOk result (λ command. app_of command ≡ show_app) }
    ensures local { IfOk result (λ command. (fields_of command).has_globals ≡ false) }
{
    let command = Command::new(alloc, "show")
        .about(SHOW)
        .after_help(AFTER_COMMAND)
        .arg(operand(alloc, "IMAGE", IMAGE))?;
    with_explain(alloc, command)
}

/// `--to NET`.
fn network_option<'a>(alloc: Global) -> Arg<'a>
    ensures rule { rule_of result ≡ to_option }
    ensures local { result.global ≡ false }
{
    Arg::new(alloc, "NET")
        .long("to")
        .help(NET)
        .action(ArgAction::Set)
}

/// `atalk draw IMAGE`, with `--to NET`.
fn draw_command<'a>(alloc: Global) -> Result<Command<'a>, AllocError>
    ensures app { IfOk result (λ command. app_of command ≡ draw_app) }
    ensures local { IfOk result (λ command. (fields_of command).has_globals ≡ false) }
{
    let command = Command::new(alloc, "draw")
        .about(DRAW)
        .after_help(AFTER_COMMAND)
        .arg(operand(alloc, "IMAGE", IMAGE))?
        .arg(network_option(alloc))?;
    with_explain(alloc, command)
}

/// `--image OUT`, which must be given.
fn required_image<'a>(alloc: Global) -> Arg<'a>
    ensures rule { rule_of result ≡ spec.required_out }
    ensures local { result.global ≡ false }
{
    operand(alloc, "OUT", OUT).long("image")
}

/// The operand IMAGE, which is given once or more.
fn parts_operand<'a>(alloc: Global) -> Arg<'a>
    ensures rule { rule_of result ≡ spec.parts_operand }
    ensures local { result.global ≡ false }
{
    operands(alloc, "FILE", PARTS).value_name("IMAGE")
}

/// `atalk join IMAGE..`, with `--image OUT`.
fn join_command<'a>(alloc: Global) -> Result<Command<'a>, AllocError>
    ensures app { IfOk result (λ command. app_of command ≡ join_app) }
    ensures local { IfOk result (λ command. (fields_of command).has_globals ≡ false) }
{
    let command = Command::new(alloc, "join")
        .about(JOIN)
        .after_help(AFTER_COMMAND)
        .arg(parts_operand(alloc))?
        .arg(required_image(alloc))?;
    with_settled(alloc, command)
}

/// `--router N`.
fn router_option<'a>(alloc: Global) -> Arg<'a>
    ensures rule { rule_of result ≡ spec.router_option }
    ensures local { result.global ≡ false }
{
    operand(alloc, "N", ROUTER).long("router")
}

/// `--cable K=NAME`.
fn cable_option<'a>(alloc: Global) -> Arg<'a>
    ensures rule { rule_of result ≡ spec.cable_option }
    ensures local { result.global ≡ false }
{
    Arg::new(alloc, "K=NAME")
        .long("cable")
        .help(CABLE)
        .action(ArgAction::Append)
}

/// `--every TICKS`.
fn every_option<'a>(alloc: Global) -> Arg<'a>
    ensures rule { rule_of result ≡ spec.every_option }
    ensures local { result.global ≡ false }
{
    Arg::new(alloc, "TICKS")
        .long("every")
        .help(EVERY)
        .action(ArgAction::Set)
}

/// `--log`.
fn log_flag<'a>(alloc: Global) -> Arg<'a>
    ensures rule { rule_of result ≡ spec.log_flag }
    ensures local { result.global ≡ false }
{
    Arg::new(alloc, "LOG")
        .long("log")
        .help(LOG)
        .action(ArgAction::SetTrue)
}

/// `atalk route FILE`, with `--router N` and `--cable K=NAME`.
fn cabled_command<'a>(alloc: Global) -> Result<Command<'a>, AllocError>
    ensures app { IfOk result (λ command. app_of command ≡ cabled_app) }
    ensures local { IfOk result (λ command. (fields_of command).has_globals ≡ false) }
{
    Command::new(alloc, "route")
        .about(ROUTE)
        .after_help(AFTER_COMMAND)
        .arg(operand(alloc, "FILE", ROUTED))?
        .arg(router_option(alloc))?
        .arg(cable_option(alloc))
}

/// `atalk route FILE`, with its options.
fn route_command<'a>(alloc: Global) -> Result<Command<'a>, AllocError>
    ensures app { IfOk result (λ command. app_of command ≡ route_app) }
    ensures local { IfOk result (λ command. (fields_of command).has_globals ≡ false) }
{
    let command = cabled_command(alloc)?
        .arg(image_option(alloc))?
        .arg(every_option(alloc))?
        .arg(log_flag(alloc))?;
    with_explain(alloc, command)
}

/// `--cable NAME`.
fn name_option<'a>(alloc: Global) -> Arg<'a>
    ensures rule { rule_of result ≡ spec.name_option }
    ensures local { result.global ≡ false }
{
    operand(alloc, "NAME", NAME).long("cable")
}

/// `--hardware HEX`.
fn hardware_option<'a>(alloc: Global) -> Arg<'a>
    ensures rule { rule_of result ≡ spec.hardware_option }
    ensures local { result.global ≡ false }
{
    operand(alloc, "HEX", HARDWARE).long("hardware")
}

/// `atalk survey`, with its options.
fn survey_command<'a>(alloc: Global) -> Result<Command<'a>, AllocError>
    ensures app { IfOk result (λ command. app_of command ≡ survey_app) }
    ensures local { IfOk result (λ command. (fields_of command).has_globals ≡ false) }
{
    let command = Command::new(alloc, "survey")
        .about(SURVEY)
        .after_help(AFTER_COMMAND)
        .arg(name_option(alloc))?
        .arg(hardware_option(alloc))?
        .arg(log_flag(alloc))?;
    with_explain(alloc, command)
}

/// The flag with a name, which an option of the same letters sets.
fn flag<'a>(alloc: Global, name: &'a str, long: &'a str, help: &'a str) -> Arg<'a>
    ensures rule { rule_of result ≡ spec.flag name.entry.now long.entry.now }
    ensures local { result.global ≡ false }
{
    Arg::new(alloc, name)
        .long(long)
        .help(help)
        .action(ArgAction::SetTrue)
}

/// `--count COUNT`.
fn count_option<'a>(alloc: Global) -> Arg<'a>
    ensures rule { rule_of result ≡ spec.count_option }
    ensures local { result.global ≡ false }
{
    Arg::new(alloc, "COUNT")
        .long("count")
        .help(COUNT)
        .action(ArgAction::Set)
}

/// `atalk ask QUESTION..`, with the station that asks.
fn asking_command<'a>(alloc: Global) -> Result<Command<'a>, AllocError>
    ensures app { IfOk result (λ command. app_of command ≡ spec.asking_app) }
    ensures local { IfOk result (λ command. (fields_of command).has_globals ≡ false) }
{
    Command::new(alloc, "ask")
        .about(ASK)
        .after_help(AFTER_COMMAND)
        .arg(name_option(alloc))?
        .arg(hardware_option(alloc))?
        .arg(operands(alloc, "QUESTION", QUESTION))
}

/// `atalk ask QUESTION..`, with its options.
fn ask_command<'a>(alloc: Global) -> Result<Command<'a>, AllocError>
    ensures app { IfOk result (λ command. app_of command ≡ ask_app) }
    ensures local { IfOk result (λ command. (fields_of command).has_globals ≡ false) }
{
    let command = asking_command(alloc)?
        .arg(flag(alloc, "LOCAL", "local", LOCAL))?
        .arg(flag(alloc, "MINE", "mine", MINE))?
        .arg(count_option(alloc))?;
    with_telling(alloc, command)
}

/// `atalk`, with its commands for images.
fn image_commands<'a>(alloc: Global) -> Result<Command<'a>, AllocError>
    ensures { IfOk result (λ command. app_of command ≡ images_app) }
{
    Command::new(alloc, "atalk")
        .version("1.0")
        .about(ABOUT)
        .after_help(AFTER_HELP)
        .subcommand(audit_command(alloc)?)?
        .subcommand(trace_command(alloc)?)
}

/// `atalk`, with its commands for images and for internet files.
fn play_commands<'a>(alloc: Global) -> Result<Command<'a>, AllocError>
    ensures { IfOk result (λ command. app_of command ≡ plays_app) }
{
    image_commands(alloc)?.subcommand(play_command(alloc)?)
}

/// `atalk`, with its commands for images, for internet files and for tables files.
fn table_commands<'a>(alloc: Global) -> Result<Command<'a>, AllocError>
    ensures { IfOk result (λ command. app_of command ≡ tables_app) }
{
    play_commands(alloc)?
        .subcommand(make_command(alloc)?)?
        .subcommand(show_command(alloc)?)?
        .subcommand(draw_command(alloc)?)
}

/// `atalk`, with its commands but those that ask.
fn cable_commands<'a>(alloc: Global) -> Result<Command<'a>, AllocError>
    ensures { IfOk result (λ command. app_of command ≡ cables_app) }
{
    table_commands(alloc)?
        .subcommand(join_command(alloc)?)?
        .subcommand(route_command(alloc)?)
}

/// `atalk`, with its commands.
pub(crate) fn atalk_command<'a>(alloc: Global) -> Result<Command<'a>, AllocError>
    ensures { IfOk result (λ command. app_of command ≡ atalk_app) }
{
    cable_commands(alloc)?
        .subcommand(survey_command(alloc)?)?
        .subcommand(ask_command(alloc)?)
}
