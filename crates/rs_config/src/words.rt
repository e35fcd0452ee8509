//! The words of the command `serve`.

ghost use Rattle.std.specs.Prelude.{◌≡◌, true, false, Some, is_some, map, codes, string_bytes, IfOk, IfErr};
ghost use Rattle.clap.specs.Words.{rows_of, found_of, rule_of, app_of, matches_of, takes, fault_of, kind_of, first_value, FailsBy};
ghost use Rattle.clap.specs.declared.error.kind.ErrorKind.TheVariants.{OutOfMemory};
ghost use Rattle.rs_config.specs.ServeWordings.{serve_help_text, serve_app, config_rule, workers_rule, HasServeWords, HasServeTexts, HasWorkers, ReadsServe, serve_fault};

use clap::error::ErrorKind;
use clap::{Arg, ArgAction, ArgMatches, Command, Error};
use rs_path::{Bytes, NoMemory};
use std::alloc::Global;

/// The most workers of a server.
pub const MAX_WORKERS: u32 = 64;

/// What `serve --help` prints. It has no last line end.
#[tactic(auto, unfolding(crate::specs::ServeWordings::serve_help_text))]
pub fn serve_help_text() -> &'static [u8]
    ensures text { result.now ≡ serve_help_text }
{
    b"Serves the users of a configuration file over HTTP.\n\nUsage: rs serve [OPTIONS] --config <FILE>\n\nOptions:\n      --config <FILE>  The configuration, a TOML file\n      --workers <N>    How many connections are served at one time, 1 to 64 [default: 8]\n  -h, --help           Print help"
}

/// The words after `serve`.
#[derive(Debug, Drop)]
pub struct ServeWords {
    /// The name of the configuration file.
    pub config: Bytes,
    /// How many connections are served at one time: 1 to 64.
    pub workers: u32,
}

/// Why words after `serve` are no such words.
#[derive(Debug, Clone, Copy, PartialEq, Eq)]
pub enum ServeFault {
    /// They aren't what the command takes.
    Words,
    /// They ask for help, which is [`serve_help_text`].
    Help,
    /// Memory ran out.
    NoMemory,
}

impl From<NoMemory> for ServeFault {
    ghost use Rattle.rs_config.specs.declared.words.ServeFault.TheVariants.{NoMemory};

    ghost from_gives = { λ _ fault. fault ≡ NoMemory };

    fn from(_e: NoMemory) -> ServeFault {
        ServeFault::NoMemory
    }
}

/// The words after the word `serve`, read by `clap`: `--config FILE`, which has to be there, and `--workers N`, 1 to 64 and by
/// default 8.
///
/// `Help` comes only where `clap` reads a call for help before anything that it refuses, and `Words` only where the command
/// doesn't take the words.
pub fn read_serve(alloc: Global, words: &[String]) -> Result<ServeWords, ServeFault>
    ensures read { ReadsServe (map string_bytes words.now) result }
{
    match parse(alloc, words) {
        Ok(matches) => Ok(words_of(alloc, &matches)?),
        Err(error) => Err(fault_of(&error)),
    }
}

fn fault_of(error: &Error) -> ServeFault
    ensures fault { result ≡ serve_fault (kind_of error.now) }
{
    match error.kind() {
        ErrorKind::OutOfMemory => ServeFault::NoMemory,
        ErrorKind::DisplayHelp => ServeFault::Help,
        _ => ServeFault::Words,
    }
}

// What `clap` makes of the words.
fn parse<'a>(alloc: Global, words: &'a [String]) -> Result<ArgMatches<'a>, Error>
    ensures matches { IfOk result (λ matches. rows_of (found_of matches) ≡ matches_of serve_app (map string_bytes words.now)) }
    ensures texts { IfOk result (λ matches. HasServeTexts (found_of matches)) }
    ensures passes { IfErr result (λ error. takes serve_app (map string_bytes words.now) ≡ true → kind_of error ≡ OutOfMemory) }
    ensures kinds { FailsBy (fault_of serve_app (map string_bytes words.now)) result }
{
    let command = serve_command(alloc)?;
    command.try_get_matches_from(words)
}

fn serve_command<'a>(alloc: Global) -> Result<Command<'a>, Error>
    ensures app { IfOk result (λ command. app_of command ≡ serve_app) }
    ensures memory { IfErr result (λ error. kind_of error ≡ OutOfMemory) }
{
    let named = Command::new(alloc, "serve").no_binary_name(true);
    let with_config = named.arg(config_arg(alloc))?;
    let with_workers = with_config.arg(workers_arg(alloc))?;
    Ok(with_workers)
}

fn config_arg<'a>(alloc: Global) -> Arg<'a>
    ensures rule { rule_of result ≡ config_rule }
    ensures local { result.global ≡ false }
{
    Arg::new(alloc, "config")
        .long("config")
        .required(true)
        .action(ArgAction::Set)
}

fn workers_arg<'a>(alloc: Global) -> Arg<'a>
    ensures rule { rule_of result ≡ workers_rule }
    ensures local { result.global ≡ false }
{
    Arg::new(alloc, "workers")
        .long("workers")
        .action(ArgAction::Set)
        .default_value("8")
        .value_parser(clap::value_parser!(u32).range(1..65))
}

fn words_of(alloc: Global, matches: &ArgMatches<'_>) -> Result<ServeWords, NoMemory>
    requires texts { HasServeTexts (found_of matches.now) }
    ensures words { IfOk result (HasServeWords (rows_of (found_of matches.now))) }
{
    Ok(ServeWords {
        config: config_of(alloc, matches)?,
        workers: workers_of(matches),
    })
}

// The configuration's name, which the matches have.
fn config_of(alloc: Global, matches: &ArgMatches<'_>) -> Result<Bytes, NoMemory>
    requires config { is_some (first_value (found_of matches.now) (codes "config")) ≡ true }
    ensures config { IfOk result (λ config. first_value (found_of matches.now) (codes "config") ≡ Some config) }
{
    let text = matches.get_str("config").unwrap();
    Ok(Bytes::of(Vec::from_slice(alloc, text.as_bytes())?))
}

// The number of workers, which the matches have.
fn workers_of(matches: &ArgMatches<'_>) -> u32
    requires texts { HasServeTexts (found_of matches.now) }
    ensures workers { HasWorkers (found_of matches.now) result }
{
    matches.get_one::<u32>("workers").unwrap()
}
