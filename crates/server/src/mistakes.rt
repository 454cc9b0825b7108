//! What is wrong of a command line that is no command.

ghost use Rattle.std.specs.Prelude.{◌≡◌, []};
ghost use Rattle.server.specs.WrongWords.{text_of};

use crate::settings::Verb;

/// How the program is called.
pub const USAGE: &str =
    "usage: jsblock serve --dir DIR [--listen ADDRESS] [--workers COUNT] [--accepts COUNT]\n       jsblock pipe [--dir DIR] [--stream NAME --subject PATTERN]\n       jsblock --help";

/// A mistake in a command line.
#[derive(Clone, Copy, Debug, PartialEq, Eq)]
pub enum Mistake {
    /// There is no word.
    NoCommand,
    /// The first word is no command.
    UnknownCommand,
    /// The command has no option of this name.
    UnknownOption(Verb),
    /// The value of an option is not there, is empty, or begins with `-`.
    NoValue,
    /// An option comes more than once.
    Twice,
    /// `serve` is told no folder.
    NoFolder,
    /// There is a subject and no name of a stream.
    NoStream,
    /// There is a name of a stream and no subject.
    NoSubject,
    /// No stream may have this name.
    WrongName,
    /// No stream of the command line may take this subject.
    WrongSubject,
    /// It is no IP address with its port.
    WrongAddress,
    /// It is no number, 0 or more than 32.
    WrongWorkers,
    /// It is no number.
    WrongAccepts,
}

impl Mistake {
    /// The text that says so. Behind it stands the word.
    pub(crate) fn text(self) -> &'static str
        ensures value { result.now ≡ text_of self }
    {
        match self {
            Mistake::NoCommand => "no command",
            Mistake::UnknownCommand => "unknown command: ",
            Mistake::UnknownOption(Verb::Pipe) => "pipe has no option ",
            Mistake::UnknownOption(Verb::Serve) => "serve has no option ",
            Mistake::NoValue => "no value, or one that begins with -, for ",
            Mistake::Twice => "more than one value for ",
            Mistake::NoFolder => "serve needs --dir",
            Mistake::NoStream => "--subject needs --stream",
            Mistake::NoSubject => "--stream needs --subject",
            Mistake::WrongName => "--stream takes the name of a stream, not ",
            Mistake::WrongSubject => {
                "--subject takes a subject, or a pattern, that meets none below $JS., not "
            }
            Mistake::WrongAddress => "--listen takes an IP address with its port, not ",
            Mistake::WrongWorkers => "--workers takes a number from 1 to 32, not ",
            Mistake::WrongAccepts => "--accepts takes a number of 1 to 19 digits, not ",
        }
    }
}

/// The first mistake of a command line.
#[derive(Clone, Copy, Debug)]
pub struct WrongWord<'a> {
    pub mistake: Mistake,
    /// The command, the option or the value that it was made in; empty where one lacks.
    pub word: &'a str,
}

impl<'a> WrongWord<'a> {
    /// Something lacks.
    pub(crate) fn lacking(mistake: Mistake) -> WrongWord<'a>
        ensures mistake { result.mistake ≡ mistake }
        ensures word { result.word.now ≡ [] }
    {
        WrongWord { mistake, word: "" }
    }
}
