//! The texts that the command line may ask for in place of a command. clap lays them out; what a command line means the server's crate says.

use clap::{Arg, Command};
use std::alloc::{AllocError, Global};

/// The name of the program.
const PROGRAM: &str = "jsblock";

/// The program's version.
const VERSION: &str = "0.1.0";

/// A text that the command line asks for.
#[derive(Clone, Copy, Debug, PartialEq, Eq)]
pub(crate) enum Request {
    Help,
    /// The help of `pipe`.
    PipeHelp,
    /// The help of `serve`.
    ServeHelp,
    Version,
}

/// Whether the word asks for help, behind a command too. No option is spelled so, and no value begins with a dash.
fn asks_for_help(word: &str) -> bool {
    matches!(word, "--help" | "-h")
}

impl Request {
    /// What the command line asks for, if it asks for a text.
    pub(crate) fn of(words: &[String]) -> Option<Request> {
        let (word, behind) = words.split_first()?;
        let is_lone = behind.is_empty();
        let is_helped = behind.iter().any(|word| asks_for_help(word.as_str()));
        match word.as_str() {
            "--help" | "-h" | "help" if is_lone => Some(Request::Help),
            "--version" | "-V" if is_lone => Some(Request::Version),
            "pipe" if is_helped => Some(Request::PipeHelp),
            "serve" if is_helped => Some(Request::ServeHelp),
            _ => None,
        }
    }

    /// The text, which ends with a line's end.
    pub(crate) fn text(self, alloc: Global) -> Result<String, AllocError> {
        match self {
            Request::Help => help(alloc),
            Request::PipeHelp => pipe(alloc)?.render_help(),
            Request::ServeHelp => serve(alloc)?.render_help(),
            Request::Version => program(alloc)?.render_version(),
        }
    }
}

/// The help of the program, and then that of each command.
fn help(alloc: Global) -> Result<String, AllocError> {
    let mut text = program(alloc)?.render_help()?;
    for mut command in [pipe(alloc)?, serve(alloc)?] {
        text.push_str("\n")?;
        text.push_str(command.render_help()?.as_str())?;
    }
    Ok(text)
}

/// The program and its commands.
fn program(alloc: Global) -> Result<Command<'static>, AllocError> {
    Command::new(alloc, PROGRAM)
        .about("A messaging server for clients of NATS, with JetStream's streams.")
        .version(VERSION)
        .subcommand_required(true)
        .disable_help_subcommand(true)
        .subcommand(pipe(alloc)?)?
        .subcommand(serve(alloc)?)
}

/// The command `pipe`.
fn pipe(alloc: Global) -> Result<Command<'static>, AllocError> {
    let dir = setting(alloc, "dir", "DIR").help(
        "Keep the streams in this folder; without it they are kept in memory",
    );
    let stream = setting(alloc, "stream", "NAME").help(
        "Make this stream at the start, if it is not there",
    );
    let subject = setting(alloc, "subject", "PATTERN").help("The subjects that this stream takes");
    command(alloc, "pipe")
        .bin_name("jsblock pipe")?
        .about("Serves one client over standard input and output")
        .arg(dir)?
        .arg(stream)?
        .arg(subject)
}

/// The command `serve`.
fn serve(alloc: Global) -> Result<Command<'static>, AllocError> {
    let dir = setting(alloc, "dir", "DIR").required(true).help(
        "Keep the streams in this folder, which is made if it is not there",
    );
    let listen = setting(alloc, "listen", "ADDRESS")
        .default_value("127.0.0.1:4222")
        .help("The IP address and port to listen on");
    let workers = setting(alloc, "workers", "COUNT")
        .default_value("16")
        .help("Serve this many clients at a time, 1 to 32");
    let accepts = setting(alloc, "accepts", "COUNT")
        .default_value("0")
        .help("End after this many connections, or never at 0");
    command(alloc, "serve")
        .bin_name("jsblock serve")?
        .about("Serves clients over TCP")
        .after_help("Options come in any order, each at most once, also as --dir=DIR.")
        .arg(dir)?
        .arg(listen)?
        .arg(workers)?
        .arg(accepts)
}

/// A command of this name. The option `--help` is not listed with the others.
fn command(alloc: Global, name: &'static str) -> Command<'static> {
    Command::new(alloc, name).disable_help_flag(true)
}

/// An option of this name, whose value is shown as `value`.
fn setting(alloc: Global, name: &'static str, value: &'static str) -> Arg<'static> {
    Arg::new(alloc, name).long(name).value_name(value)
}
