//! A row that is read line by line.

use crate::line::{LineFault, number, numbers, split_word};
use crate::row::{DoorScript, LinkScript, Row, Turn, Volumes, begin};
use crate::text::spelled_bytes;
use std::alloc::Global;
use std::mem;

/// A row of which some lines were read, with the link and the turn that its next lines go on with.
#[derive(Drop)]
pub(crate) struct RowReader {
    alloc: Global,
    row: Row,
    link: Option<LinkScript>,
    turn: Turn,
    is_closed: bool,
}

/// The words that stand in the text, with spaces between them.
fn read_words(alloc: Global, text: &[u8]) -> Result<Vec<String>, LineFault> {
    let mut words = Vec::new(alloc);
    if text.is_empty() {
        return Ok(words);
    }
    for part in text.split(|byte| *byte == b' ') {
        match String::from_utf8(spelled_bytes(alloc, part)?) {
            Ok(word) => words.push(word)?,
            Err(_) => return Err(LineFault::Bad),
        }
    }
    Ok(words)
}

/// The bytes of a text that tells a count and one byte.
fn read_repeated(alloc: Global, text: &[u8]) -> Result<Vec<u8>, LineFault> {
    let (count, byte) = split_word(text);
    let Ok(count) = usize::try_from(number(count)?) else {
        return Err(LineFault::Bad);
    };
    match spelled_bytes(alloc, byte)?.as_slice() {
        [byte] => Ok(vec![in alloc; *byte; count]?),
        _ => Err(LineFault::Bad),
    }
}

impl RowReader {
    /// A row with this title, and no other line yet.
    pub(crate) fn new(alloc: Global, title: &[u8]) -> Result<RowReader, LineFault> {
        Ok(RowReader {
            alloc,
            row: Row {
                title: Vec::from_slice(alloc, title)?,
                words: Vec::new(alloc),
                volumes: Volumes::usual(),
                door: DoorScript {
                    links: Vec::new(alloc),
                    quiet: 0,
                    failing: Vec::new(alloc),
                },
                sink_failing: Vec::new(alloc),
                is_whole: false,
            },
            link: None,
            turn: Turn::at(alloc, begin()),
            is_closed: false,
        })
    }

    /// Reads a line other than one that begins a row.
    pub(crate) fn read(&mut self, line: &[u8]) -> Result<(), LineFault> {
        let (word, rest) = split_word(line);
        match word {
            b"C:" => self.send_line(rest),
            b"C|" => self.send_text(rest),
            b"C*" => self.send_repeated(rest),
            b"cut" => self.end_piece(rest),
            b"quiet" => self.be_quiet(rest),
            b"at" => self.set_moment(rest),
            b"link" => self.begin_link(rest),
            b"fails" => self.fail_link(rest),
            _ => self.read_outside(word, rest),
        }
    }

    /// Reads a line that tells of the run and not of a link.
    fn read_outside(&mut self, word: &[u8], rest: &[u8]) -> Result<(), LineFault> {
        match word {
            b"words" => {
                self.row.words = read_words(self.alloc, rest)?;
                Ok(())
            }
            b"volumes" => self.set_volumes(rest),
            b"door" => self.read_door(rest),
            b"sink" => self.fail_sink(rest),
            b"whole" if rest.is_empty() => {
                self.row.is_whole = true;
                Ok(())
            }
            _ => Err(LineFault::Bad),
        }
    }

    fn set_volumes(&mut self, text: &[u8]) -> Result<(), LineFault> {
        match Volumes::of(number(text)?) {
            Some(volumes) => {
                self.row.volumes = volumes;
                Ok(())
            }
            None => Err(LineFault::Bad),
        }
    }

    fn read_door(&mut self, text: &[u8]) -> Result<(), LineFault> {
        let (word, rest) = split_word(text);
        match word {
            b"quiet" => {
                let count = number(rest)?;
                self.row.door.quiet = self.row.door.quiet.saturating_add(count);
                Ok(())
            }
            b"closed" if rest.is_empty() => {
                self.is_closed = true;
                Ok(())
            }
            b"fails" => {
                self.row.door.failing = numbers(self.alloc, rest)?;
                Ok(())
            }
            _ => Err(LineFault::Bad),
        }
    }

    fn fail_sink(&mut self, text: &[u8]) -> Result<(), LineFault> {
        let (word, rest) = split_word(text);
        match word {
            b"fails" => {
                self.row.sink_failing = numbers(self.alloc, rest)?;
                Ok(())
            }
            _ => Err(LineFault::Bad),
        }
    }

    /// The link that is read, which begins here if none is.
    fn take_link(&mut self) -> LinkScript {
        match self.link.take() {
            Some(link) => link,
            None => LinkScript::after(self.alloc, mem::replace(&mut self.row.door.quiet, 0)),
        }
    }

    /// Ends the turn that is read. The next one is at the same moment.
    fn end_turn(&mut self) -> Result<(), LineFault> {
        if self.turn.is_empty() {
            return Ok(());
        }
        let mut link = self.take_link();
        let next = Turn::at(self.alloc, self.turn.moment);
        let turn = mem::replace(&mut self.turn, next);
        link.turns.push(turn)?;
        self.link = Some(link);
        Ok(())
    }

    /// Ends the link that is read.
    fn end_link(&mut self) -> Result<(), LineFault> {
        self.end_turn()?;
        match self.link.take() {
            Some(link) => Ok(self.row.door.links.push(link)?),
            None => Ok(()),
        }
    }

    fn begin_link(&mut self, text: &[u8]) -> Result<(), LineFault> {
        if !text.is_empty() {
            return Err(LineFault::Bad);
        }
        self.end_link()?;
        self.link = Some(self.take_link());
        Ok(())
    }

    fn fail_link(&mut self, text: &[u8]) -> Result<(), LineFault> {
        let failing = numbers(self.alloc, text)?;
        let mut link = self.take_link();
        link.failing = failing;
        self.link = Some(link);
        Ok(())
    }

    /// Sends bytes with the piece that is read.
    fn send(&mut self, bytes: &[u8]) -> Result<(), LineFault> {
        if self.turn.quiet > 0 {
            self.end_turn()?;
        }
        Ok(self.turn.bytes.extend_from_slice(bytes)?)
    }

    fn send_text(&mut self, text: &[u8]) -> Result<(), LineFault> {
        let bytes = spelled_bytes(self.alloc, text)?;
        self.send(&bytes)
    }

    fn send_line(&mut self, text: &[u8]) -> Result<(), LineFault> {
        self.send_text(text)?;
        self.send(b"\r\n")
    }

    fn send_repeated(&mut self, text: &[u8]) -> Result<(), LineFault> {
        let bytes = read_repeated(self.alloc, text)?;
        self.send(&bytes)
    }

    fn end_piece(&mut self, text: &[u8]) -> Result<(), LineFault> {
        if !text.is_empty() {
            return Err(LineFault::Bad);
        }
        self.end_turn()
    }

    fn be_quiet(&mut self, text: &[u8]) -> Result<(), LineFault> {
        let count = number(text)?;
        self.turn.quiet = self.turn.quiet.saturating_add(count);
        Ok(())
    }

    fn set_moment(&mut self, text: &[u8]) -> Result<(), LineFault> {
        let moment = begin().plus(number(text)?);
        self.end_turn()?;
        self.turn.moment = moment;
        Ok(())
    }

    /// The row, all of whose lines were read. It has one link if no line says otherwise.
    pub(crate) fn finish(self) -> Result<Row, LineFault> {
        let mut reader = self;
        reader.end_link()?;
        if reader.row.door.links.is_empty() && !reader.is_closed {
            let link = reader.take_link();
            reader.row.door.links.push(link)?;
        }
        Ok(reader.row)
    }
}
