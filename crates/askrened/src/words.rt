//! The words of the command line, read with `clap` by one form.
ghost use Rattle.std.specs.Prelude.{◌≡◌, ◌≢◌, ◌<◌, ◌^◌, ◌-◌, if◌then◌else◌, codes, Some, None, false, map, option_map, string_bytes, IfOk, IfSome, IsErrOf};
ghost use Rattle.clap.specs.Matches.{found_of};
ghost use Rattle.clap.specs.Walk.{rule_of, rows_of};
ghost use Rattle.clap.specs.Simple.{app_of, subcommand_rows_of, HasMatchesOf};
ghost use Rattle.clap.specs.Faults.{fault_of};
ghost use Rattle.clap.specs.Kinds.{FailsBy};
ghost use Rattle.clap.specs.declared.builder.command.Command.TheViews.{out-Command};
ghost use Rattle.gen_command.specs.Size.{IsSize};
ghost use Rattle.askrened.specs.Form.{Invocation, form, input_form, ask_form, check_form, gen_form, serve_form, service_form, file_option as file_rule, number_argument as number_rule, number_option as ranged_rule, required as required_rule, size_in, service_in, service_of, number_at, number_in, number_if_said, is_from_one, invocation_in, invocation_of, AreRefused};
ghost use Rattle.askrened.specs.Words.{invocation_by, service_by, spelling_of, IsPlain, IsGoodTask, IsService};

use clap::error::ErrorKind;
use clap::{Arg, ArgMatches, Command, Error, value_parser};
use gen_command::Size;
use server::{CONNECTIONS_MAX, WORKERS_MAX};
use std::alloc::{AllocError, Global};
use workload::{ASKS_MAX, CHANNELS_MAX, NODES_MAX, NODES_MIN};

/// What `serve` is asked for.
#[derive(Clone, Copy, Debug, PartialEq, Eq)]
pub struct Service<'a> {
    /// The path of the socket.
    pub socket: &'a str,
    /// How many connections are served, 1 to 65,000.
    pub connections: u32,
    /// How many workers serve them, 1 to 64, if that is said.
    pub workers: Option<u32>,
}

impl<'a> Service<'a> {
    // The service of a path and these numbers. None if and only if one of them is out of its range.
    #[tactic(auto, unfolding(crate::specs::Form::service_of))]
    fn new(socket: &'a str, connections: u64, workers: Option<u64>) -> Option<Service<'a>>
        ensures service { option_map service_by result ≡ service_of socket.entry.now connections workers }
        ensures ranges { IfSome result (λ service. IsService (service_by service)) }
    {
        let connections = narrow(connections, CONNECTIONS_MAX)?;
        let workers = match workers {
            None => None,
            Some(number) => Some(narrow(number, WORKERS_MAX as u64)?),
        };
        Some(Service {
            socket,
            connections,
            workers,
        })
    }
}

// The number, if it is from 1 to `high`.
fn narrow(number: u64, high: u64) -> Option<u32>
    requires { high < 2 ^ 32 }
    ensures { result ≡ if is_from_one high (Some number) then Some number else None }
{
    if 1 <= number && number <= high {
        Some(number as u32)
    } else {
        None
    }
}

/// What the program is asked to do.
#[derive(Clone, Copy, Debug, PartialEq, Eq)]
pub enum Task<'a> {
    /// To serve the lines of the input, with a map and a local file if they are named.
    Ask {
        map: Option<&'a str>,
        local: Option<&'a str>,
    },
    /// To check a certificate.
    Check,
    /// To serve a workload of this size.
    Gen {
        size: Size,
    },
    /// To serve the connections of a socket, with a map and a local file if they are named.
    Serve {
        service: Service<'a>,
        map: Option<&'a str>,
        local: Option<&'a str>,
    },
}

/// Why words are not read as a task.
#[derive(Clone, Copy, Debug, PartialEq, Eq)]
pub enum WordsFault {
    /// The form refuses the words.
    Refused,
    /// Out of memory.
    NoMemory,
}

/// The form of the command line.
pub fn command_line<'a>(alloc: Global) -> Result<Command<'a>, AllocError>
    ensures { IfOk result (λ command. app_of command ≡ form) }
{
    input_commands(alloc)?
        .subcommand(gen_command(alloc)?)?
        .subcommand(serve_command(alloc)?)
}

// The commands that read the input.
fn input_commands<'a>(alloc: Global) -> Result<Command<'a>, AllocError>
    ensures { IfOk result (λ command. app_of command ≡ input_form) }
{
    Command::new(alloc, "askrened")
        .bin_name("askrened")?
        .no_binary_name(true)
        .disable_help_flag(true)
        .disable_help_subcommand(true)
        .subcommand_required(true)
        .subcommand(ask_command(alloc)?)?
        .subcommand(check_command(alloc))
}

fn ask_command<'a>(alloc: Global) -> Result<Command<'a>, AllocError>
    ensures app { IfOk result (λ command. app_of command ≡ ask_form) }
    ensures local { IfOk result (λ command. (out-Command command).has_globals ≡ false) }
{
    Command::new(alloc, "ask")
        .arg(file_option(alloc, "map"))?
        .arg(file_option(alloc, "local"))
}

fn check_command<'a>(alloc: Global) -> Command<'a>
    ensures app { app_of result ≡ check_form }
    ensures local { (out-Command result).has_globals ≡ false }
{
    Command::new(alloc, "check")
}

fn gen_command<'a>(alloc: Global) -> Result<Command<'a>, AllocError>
    ensures app { IfOk result (λ command. app_of command ≡ gen_form) }
    ensures local { IfOk result (λ command. (out-Command command).has_globals ≡ false) }
{
    Command::new(alloc, "gen")
        .arg(seed_argument(alloc))?
        .arg(number_argument(alloc, "NODES", NODES_MIN, NODES_MAX))?
        .arg(number_argument(alloc, "CHANNELS", 0, CHANNELS_MAX))?
        .arg(number_argument(alloc, "ASKS", 0, ASKS_MAX))
}

fn serve_command<'a>(alloc: Global) -> Result<Command<'a>, AllocError>
    ensures app { IfOk result (λ command. app_of command ≡ serve_form) }
    ensures local { IfOk result (λ command. (out-Command command).has_globals ≡ false) }
{
    service_command(alloc)?
        .arg(file_option(alloc, "map"))?
        .arg(file_option(alloc, "local"))
}

// The command `serve` without the options of its files.
fn service_command<'a>(alloc: Global) -> Result<Command<'a>, AllocError>
    ensures app { IfOk result (λ command. app_of command ≡ service_form) }
    ensures local { IfOk result (λ command. (out-Command command).has_globals ≡ false) }
{
    let connections = number_option(alloc, "connections", CONNECTIONS_MAX as u32);
    Command::new(alloc, "serve")
        .arg(socket_option(alloc))?
        .arg(required(connections))?
        .arg(number_option(alloc, "workers", WORKERS_MAX as u32))
}

fn socket_option<'a>(alloc: Global) -> Arg<'a>
    ensures rule { rule_of result ≡ required_rule (file_rule (codes "socket")) }
    ensures local { result.global ≡ false }
{
    Arg::new(alloc, "socket")
        .long("socket")
        .value_name("PATH")
        .required(true)
}

fn required<'a>(option: Arg<'a>) -> Arg<'a>
    ensures rule { rule_of result ≡ required_rule (rule_of option.entry) }
    ensures local { result.global ≡ option.entry.global }
{
    option.required(true)
}

// An option with a number from 1 to `high`.
fn number_option<'a>(alloc: Global, name: &'a str, high: u32) -> Arg<'a>
    ensures rule { rule_of result ≡ ranged_rule name.entry.now high }
    ensures local { result.global ≡ false }
{
    Arg::new(alloc, name)
        .long(name)
        .value_name("NUMBER")
        .value_parser(value_parser!(u64).range(1..=i64::from(high)))
}

fn seed_argument<'a>(alloc: Global) -> Arg<'a>
    ensures rule { rule_of result ≡ number_rule (codes "NUMBER") 0 (2 ^ 64 - 1) }
    ensures local { result.global ≡ false }
{
    Arg::new(alloc, "NUMBER")
        .required(true)
        .value_parser(value_parser!(u64))
}

fn number_argument<'a>(alloc: Global, name: &'a str, low: u32, high: u32) -> Arg<'a>
    ensures rule { rule_of result ≡ number_rule name.entry.now low high }
    ensures local { result.global ≡ false }
{
    Arg::new(alloc, name)
        .required(true)
        .value_parser(value_parser!(u64).range(i64::from(low)..=i64::from(high)))
}

fn file_option<'a>(alloc: Global, name: &'a str) -> Arg<'a>
    ensures rule { rule_of result ≡ file_rule name.entry.now }
    ensures local { result.global ≡ false }
{
    Arg::new(alloc, name).long(name).value_name("FILE")
}

/// What `clap` finds in the words by the form, or why the form refuses them.
pub fn matches_in<'a>(alloc: Global, words: &'a [String]) -> Result<ArgMatches<'a>, Error>
    ensures kinds { FailsBy (fault_of form (map string_bytes words.entry.now)) result }
    ensures matches { IfOk result (HasMatchesOf form (map string_bytes words.entry.now)) }
{
    command_line(alloc)?.try_get_matches_from(words)
}

/// Reads the words after the program's name.
#[tactic(auto, using(crate::proofs::Asking::taken_asks, crate::proofs::Asking::form_is_simple))]
pub fn read_words<'a>(alloc: Global, words: &'a [String]) -> Result<Task<'a>, WordsFault>
    ensures asked { IfOk result (λ task. invocation_of (map string_bytes words.entry.now) ≡ Some (invocation_by task)) }
    ensures good { IfOk result IsGoodTask }
    ensures refused { IsErrOf result WordsFault.Refused → AreRefused (map string_bytes words.entry.now) }
{
    match matches_in(alloc, words) {
        // Words that the form takes without a task count as out of memory.
        Ok(matches) => task_of(&matches).ok_or(WordsFault::NoMemory),
        Err(fault) if fault.kind() == ErrorKind::OutOfMemory => Err(WordsFault::NoMemory),
        Err(_) => Err(WordsFault::Refused),
    }
}

// The task of matches that the form gives.
fn task_of<'a>(matches: &ArgMatches<'a>) -> Option<Task<'a>>
    ensures task { option_map invocation_by result ≡ invocation_in (subcommand_rows_of matches.now) }
    ensures good { IfSome result IsGoodTask }
{
    match matches.subcommand()? {
        ("ask", options) => Some(Task::Ask {
            map: options.get_str("map"),
            local: options.get_str("local"),
        }),
        ("check", _) => Some(Task::Check),
        ("gen", options) => Some(Task::Gen {
            size: size_of(options)?,
        }),
        ("serve", options) => Some(Task::Serve {
            service: service_of(options)?,
            map: options.get_str("map"),
            local: options.get_str("local"),
        }),
        _ => None,
    }
}

// The size that the arguments of `gen` give.
fn size_of(options: &ArgMatches) -> Option<Size>
    ensures size { result ≡ size_in (rows_of (found_of options.now)) }
    ensures ranges { IfSome result IsSize }
{
    let number = number_of(options, "NUMBER")?;
    let nodes = number_of(options, "NODES")?;
    let channels = number_of(options, "CHANNELS")?;
    let asks = number_of(options, "ASKS")?;
    Size::new(number, nodes, channels, asks)
}

// The service that the options of `serve` give.
#[tactic(auto, using(crate::proofs::Numbers::first_text))]
fn service_of<'a>(options: &ArgMatches<'a>) -> Option<Service<'a>>
    ensures service { option_map service_by result ≡ service_in (rows_of (found_of options.now)) }
    ensures ranges { IfSome result (λ service. IsService (service_by service)) }
{
    let socket = options.get_str("socket")?;
    let connections = number_of(options, "connections")?;
    let workers = number_if_said(options.get_str("workers"))?;
    Service::new(socket, connections, workers)
}

// The number of an option that may be absent.
fn number_if_said(text: Option<&str>) -> Option<Option<u64>>
    ensures { result ≡ number_if_said (option_map (λ t. t.now) text.entry) }
{
    match text {
        None => Some(None),
        Some(text) => Some(Some(read_number(text)?)),
    }
}

#[tactic(auto, using(crate::proofs::Numbers::parsed_number, crate::proofs::Numbers::first_text))]
fn number_of(options: &ArgMatches, name: &str) -> Option<u64>
    ensures { result ≡ number_at name.now (rows_of (found_of options.now)) }
{
    let text = options.get_str(name)?;
    read_number(text)
}

#[tactic(auto, using(crate::proofs::Numbers::parsed_number))]
fn read_number(text: &str) -> Option<u64>
    ensures { result ≡ number_in text.now }
{
    text.parse::<u64>().ok()
}

/// A law: words as the help spells them ask for what they spell.
#[tactic(auto, using(crate::proofs::Spelled::spelled_asked))]
pub fn spelled_words_are_taken()
    ensures { (asked : Invocation) → IsPlain asked → invocation_of (spelling_of asked) ≡ Some asked }
{}
