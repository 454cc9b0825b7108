//! The command line.

ghost use Rattle.std.specs.Prelude.{◌≡◌, None, Some, IfOk, MatchResult, option_map, option_and_then};
ghost use Rattle.server.specs.Settings.{settings_of, verb_of};
ghost use Rattle.server.specs.Words.{texts, named_stream, stream_of, pipe_with, serve_with, command_with, command_in, command_of, HasFewWorkers, Reads};
ghost use Rattle.server.specs.declared.words.WordsFault.TheVariants.{Wrong};
ghost use Rattle.server.specs.WrongWords.{wrong_in, wrong_stream, wrong_named, wrong_with, wrong_behind, wrong_of, Tells};

use crate::listening::{Listening, read_listening};
use crate::mistakes::{Mistake, WrongWord};
use crate::settings::{DIR, STREAM, SUBJECT, Verb, value_of, wrong_setting};
use js_base::{Blob, Name, NameFault};
use std::alloc::Global;
use std::marker::Model;
use subject_match::is_stream_subject;

/// A stream that the command line names, and the one subject that it takes.
#[derive(Drop, Debug)]
pub struct NamedStream {
    pub name: Name,
    pub subject: Blob,
}

/// The path of a folder, which contracts see as its bytes.
#[derive(Drop, Debug)]
pub struct FolderPath {
    path: String,
}

impl Model for FolderPath {
    ghost use Rattle.std.specs.Prelude.{ℕ, List, string_bytes};

    ghost Value = { List ℕ };

    ghost view = { λ folder. string_bytes folder.path };
}

impl FolderPath {
    /// A copy of the path.
    pub(crate) fn copied(alloc: Global, path: &str) -> Result<FolderPath, WordsFault<'_>>
        ensures command { Reads result (Some path.now) }
        ensures wrong { Tells result None }
    {
        match String::from_str(alloc, path) {
            Ok(path) => Ok(FolderPath { path }),
            Err(_) => Err(WordsFault::NoMemory),
        }
    }

    /// The path as text.
    pub fn as_str(&self) -> &str
        ensures { result.now ≡ self.now }
    {
        self.path.as_str()
    }
}

/// What the program is asked to do.
#[derive(Drop, Debug)]
pub enum Command {
    /// Serves one link over standard input and output. The streams are kept in the folder, if one is named, and otherwise in memory. The stream
    /// that is named is made before, if it is not there.
    Pipe {
        dir: Option<FolderPath>,
        stream: Option<NamedStream>,
    },
    /// Serves the links that come to an address. The streams are kept in a folder.
    Serve(Listening),
}

/// Why the command line is not a command.
#[derive(Clone, Copy, Debug)]
pub enum WordsFault<'a> {
    /// This is wrong of it.
    Wrong(WrongWord<'a>),
    /// It is a command, and memory ran out.
    NoMemory,
}

impl<'a> From<WrongWord<'a>> for WordsFault<'a> {
    ghost from_gives = { λ wrong fault. fault ≡ Wrong wrong };

    fn from(wrong: WrongWord<'a>) -> WordsFault<'a> {
        WordsFault::Wrong(wrong)
    }
}

/// A word for a command, and the words of its settings.
#[derive(Clone, Copy)]
struct Asked<'a> {
    verb: Verb,
    settings: &'a [String],
}

/// What is asked for by this word with settings of that behind it, or else what is wrong of them.
#[tactic(auto, using(crate::proofs::Mistaken::settings_right))]
fn asked_by<'a>(word: &'a str, settings: &'a [String]) -> Result<Asked<'a>, WrongWord<'a>>
    ensures command { MatchResult result
        (λ asked. option_and_then (command_in (settings_of (texts settings.now))) (verb_of word.now) ≡ command_with asked.verb (settings_of (texts asked.settings.now)))
        (λ wrong. option_and_then (command_in (settings_of (texts settings.now))) (verb_of word.now) ≡ None) }
    ensures wrong { MatchResult result
        (λ asked. wrong_behind word.now (settings_of (texts settings.now)) (verb_of word.now) ≡ wrong_with asked.verb (settings_of (texts asked.settings.now)))
        (λ wrong. wrong_behind word.now (settings_of (texts settings.now)) (verb_of word.now) ≡ Some (wrong_in wrong)) }
{
    let Some(verb) = Verb::named(word) else {
        return Err(WrongWord {
            mistake: Mistake::UnknownCommand,
            word,
        });
    };
    match wrong_setting(verb, settings) {
        Some(wrong) => Err(wrong),
        None => Ok(Asked { verb, settings }),
    }
}

/// What the command line asks for, or else what is wrong of it.
fn asked_of(words: &[String]) -> Result<Asked<'_>, WrongWord<'_>>
    ensures command { MatchResult result
        (λ asked. command_of (texts words.now) ≡ command_with asked.verb (settings_of (texts asked.settings.now)))
        (λ wrong. command_of (texts words.now) ≡ None) }
    ensures wrong { MatchResult result
        (λ asked. wrong_of (texts words.now) ≡ wrong_with asked.verb (settings_of (texts asked.settings.now)))
        (λ wrong. wrong_of (texts words.now) ≡ Some (wrong_in wrong)) }
{
    match words.split_first() {
        Some((word, settings)) => asked_by(word.as_str(), settings),
        None => Err(WrongWord::lacking(Mistake::NoCommand)),
    }
}

/// A copy of the path, if one is given.
fn read_dir<'a>(alloc: Global, path: Option<&'a str>) -> Result<Option<FolderPath>, WordsFault<'a>>
    ensures command { Reads result (Some (option_map (λ text. text.now) path.entry)) }
    ensures wrong { Tells result None }
{
    match path {
        Some(path) => Ok(Some(FolderPath::copied(alloc, path)?)),
        None => Ok(None),
    }
}

/// The stream of this name and subject. Both are given, or neither.
fn read_stream<'a>(
    alloc: Global,
    name: Option<&'a str>,
    subject: Option<&'a str>,
) -> Result<Option<NamedStream>, WordsFault<'a>>
    ensures command { Reads result (stream_of (option_map (λ text. text.now) name.entry) (option_map (λ text. text.now) subject.entry)) }
    ensures wrong { Tells result (wrong_stream (option_map (λ text. text.now) name.entry) (option_map (λ text. text.now) subject.entry)) }
{
    match (name, subject) {
        (None, None) => Ok(None),
        (Some(name), Some(subject)) => Ok(Some(read_named(alloc, name, subject)?)),
        (Some(_), None) => Err(WrongWord::lacking(Mistake::NoSubject).into()),
        (None, Some(_)) => Err(WrongWord::lacking(Mistake::NoStream).into()),
    }
}

/// The stream of this name and subject.
fn read_named<'a>(
    alloc: Global,
    name: &'a str,
    subject: &'a str,
) -> Result<NamedStream, WordsFault<'a>>
    ensures command { Reads result (named_stream name.now subject.now) }
    ensures wrong { Tells result (wrong_named name.now subject.now) }
{
    if !is_stream_subject(subject.as_bytes()) {
        return Err(WordsFault::Wrong(WrongWord {
            mistake: Mistake::WrongSubject,
            word: subject,
        }));
    }
    let name = match Name::read(alloc, name.as_bytes()) {
        Ok(name) => name,
        Err(NameFault::NoMemory) => return Err(WordsFault::NoMemory),
        Err(_) => {
            return Err(WordsFault::Wrong(WrongWord {
                mistake: Mistake::WrongName,
                word: name,
            }));
        }
    };
    match Blob::of(alloc, subject.as_bytes()) {
        Ok(subject) => Ok(NamedStream { name, subject }),
        Err(_) => Err(WordsFault::NoMemory),
    }
}

/// `pipe` with these settings.
fn read_pipe(alloc: Global, settings: &[String]) -> Result<Command, WordsFault<'_>>
    ensures command { Reads result (pipe_with (settings_of (texts settings.now))) }
    ensures wrong { Tells result (wrong_with Verb.Pipe (settings_of (texts settings.now))) }
{
    let stream = read_stream(
        alloc,
        value_of(STREAM, settings),
        value_of(SUBJECT, settings),
    )?;
    let dir = read_dir(alloc, value_of(DIR, settings))?;
    Ok(Command::Pipe { dir, stream })
}

/// `serve` with these settings.
fn read_serve(alloc: Global, settings: &[String]) -> Result<Command, WordsFault<'_>>
    ensures command { Reads result (serve_with (settings_of (texts settings.now))) }
    ensures wrong { Tells result (wrong_with Verb.Serve (settings_of (texts settings.now))) }
{
    let listening = read_listening(alloc, settings)?;
    Ok(Command::Serve(listening))
}

/// The command that the command line is, or what is wrong of it. Memory is taken only for one that is a command.
#[tactic(auto, using(crate::proofs::Worded::few_read))]
pub fn read_words(alloc: Global, words: &[String]) -> Result<Command, WordsFault<'_>>
    ensures command { Reads result (command_of (texts words.now)) }
    ensures wrong { Tells result (wrong_of (texts words.now)) }
    ensures workers { IfOk result HasFewWorkers }
{
    let asked = asked_of(words)?;
    match asked.verb {
        Verb::Pipe => read_pipe(alloc, asked.settings),
        Verb::Serve => read_serve(alloc, asked.settings),
    }
}
