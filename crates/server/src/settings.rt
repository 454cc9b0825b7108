//! The options of the command line, each with its value.

ghost use Rattle.std.specs.Prelude.{◌≡◌, ◌<◌, true, false, [], ◌∷◌, MatchOption, IfSome, length, option_map};
ghost use Rattle.js_base.specs.Bytes.{has};
ghost use Rattle.server.specs.Settings.{halves_of, settings_of, value_of, verb_of, is_option, is_value, dir_option, stream_option, subject_option, listen_option, workers_option, accepts_option};
ghost use Rattle.server.specs.Words.{texts};
ghost use Rattle.server.specs.WrongWords.{mistake_of, wrong_in, wrong_setting};

use crate::mistakes::{Mistake, WrongWord};

/// The word that a command line begins with, which says what the program is asked to do.
#[derive(Clone, Copy, Debug, PartialEq, Eq)]
pub enum Verb {
    Pipe,
    Serve,
}

impl Verb {
    /// The command that the word names, if it names one.
    pub(crate) fn named(word: &str) -> Option<Verb>
        ensures value { result ≡ verb_of word.now }
    {
        match word {
            "pipe" => Some(Verb::Pipe),
            "serve" => Some(Verb::Serve),
            _ => None,
        }
    }

    /// Whether the word is an option of the command.
    fn is_option(self, word: &str) -> bool
        ensures value { result ≡ is_option self word.now }
    {
        match self {
            Verb::Pipe => word == DIR || word == STREAM || word == SUBJECT,
            Verb::Serve => word == DIR || word == LISTEN || word == WORKERS || word == ACCEPTS,
        }
    }
}

/// The option that gives the folder.
pub(crate) const DIR: &str = "--dir";

/// The option that gives the name of a stream.
pub(crate) const STREAM: &str = "--stream";

/// The option that gives the subject of a stream.
pub(crate) const SUBJECT: &str = "--subject";

/// The option that gives the address and port.
pub(crate) const LISTEN: &str = "--listen";

/// The option that gives the number of workers.
pub(crate) const WORKERS: &str = "--workers";

/// The option that gives how many connections are accepted.
pub(crate) const ACCEPTS: &str = "--accepts";

/// An option and its value.
#[derive(Clone, Copy)]
struct Setting<'a> {
    option: &'a str,
    value: &'a str,
}

/// The option and the value that the word holds, if it holds both.
fn halves_of(word: &str) -> Option<Setting<'_>>
    ensures { MatchOption result (has word.now 61 ≡ false) (λ s. (has word.now 61 ≡ true) × ((s.option.now, s.value.now) ≡ halves_of word.now)) }
{
    match word.split_once('=') {
        Some((option, value)) => Some(Setting { option, value }),
        None => None,
    }
}

/// The first setting that the words spell, and the words behind it.
fn cut_setting(words: &[String]) -> Option<(Setting<'_>, &[String])>
    ensures cut { MatchOption result (words.now ≡ []) (λ p. settings_of (texts words.now) ≡ (p.0.option.now, p.0.value.now) ∷ settings_of (texts p.1.now)) }
    ensures shorter { IfSome result (λ p. length p.1.now < length words.now) }
{
    let (word, more) = words.split_first()?;
    let option = word.as_str();
    if let Some(setting) = halves_of(option) {
        return Some((setting, more));
    }
    match more.split_first() {
        Some((text, behind)) => {
            let value = text.as_str();
            Some((Setting { option, value }, behind))
        }
        None => Some((Setting { option, value: "" }, more)),
    }
}

/// The value that the words give the option, the first one if it comes more than once.
pub(crate) fn value_of<'a>(option: &str, words: &'a [String]) -> Option<&'a str>
    ensures value { option_map (λ value. value.now) result ≡ value_of option.now (settings_of (texts words.now)) }
{
    let mut rest = words;
    while let Some((setting, more)) = cut_setting(rest) {
        if setting.option == option {
            return Some(setting.value);
        }
        rest = more;
    }
    None
}

/// Whether the text may be the value of an option.
fn is_value(text: &str) -> bool
    ensures value { result ≡ is_value text.now }
{
    !text.is_empty() && !text.as_bytes().starts_with(b"-")
}

impl Setting<'_> {
    /// What is wrong of the setting of this command with these words behind it, if anything is.
    fn mistake(self, verb: Verb, more: &[String]) -> Option<Mistake>
        ensures value { result ≡ mistake_of verb (self.entry.option.now, self.entry.value.now) (settings_of (texts more.now)) }
    {
        if !verb.is_option(self.option) {
            Some(Mistake::UnknownOption(verb))
        } else if !is_value(self.value) {
            Some(Mistake::NoValue)
        } else if value_of(self.option, more).is_some() {
            Some(Mistake::Twice)
        } else {
            None
        }
    }
}

/// The first of the words' settings that is none of the command, has no value, or comes again.
pub(crate) fn wrong_setting(verb: Verb, words: &[String]) -> Option<WrongWord<'_>>
    ensures value { option_map wrong_in result ≡ wrong_setting verb (settings_of (texts words.now)) }
{
    let mut rest = words;
    while let Some((setting, more)) = cut_setting(rest) {
        if let Some(mistake) = setting.mistake(verb, more) {
            return Some(WrongWord {
                mistake,
                word: setting.option,
            });
        }
        rest = more;
    }
    None
}
