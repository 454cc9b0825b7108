//! The fields of records as they are read.

ghost use Rattle.std.specs.Prelude.{◌≡◌, ◌≤◌, ◌+◌, length, IfOk, IfErr, Ok, Some};
ghost use Rattle.js_base.specs.Names.{name_of};
ghost use Rattle.config_texts.specs.Reading.{allowed};
ghost use Rattle.std.specs.Int.{w8, w16, w32, w64};
ghost use Rattle.op_records.specs.Answers.{IsBehind, IsFaultOf, IsWithin, Reads};
ghost use Rattle.op_records.specs.Fields.{word, number_field, cursor_field, numbers_field, part, piece, name_field, text_field, subject_field, stream_field, consumer_field, is_small_header, sized_part, spot_field, range_field, checked_end};

use crate::fault::RecordFault;
use checksum::crc32c;
use config_texts::{read_consumer_text, read_stream_text};
use js_base::{Blob, List, Moment, Name, NameFault, NoMemory, Spot, get_u16, get_u32, get_u64};
use js_model::{ConsumerConfig, StreamConfig};
use nats_headers::is_block;
use std::alloc::Global;
use subject_match::check_subject;

/// The end of the numbers.
const NUMBERS_END: u64 = 1 << 62;

/// The bytes of a message's header block and payload together.
pub(crate) const MOST_BYTES: usize = 1_048_576;

/// Bytes, and the place at which the next field begins, counted from 0. Each call reads the field there, and the reader stands behind it then. A field that
/// does not end within the bytes is `Cut`, and one that holds what it may not hold is `BadField`; both tell the place at which the field begins.
#[derive(Drop)]
pub struct Reader<'a> {
    /// What takes the memory for what is read.
    pub alloc: Global,
    pub bytes: &'a [u8],
    /// At most the length of the bytes.
    pub at: usize,
}

impl<'a> Reader<'a> {
    /// A number below 2^62.
    #[tactic(auto, unfolding(crate::specs::Fields::number_field))]
    pub fn number(&mut self) -> Result<u64, RecordFault>
        requires within { IsWithin self.old }
        ensures behind { IsBehind self.old self.new }
        ensures reading { Reads result self.new (number_field self.old.bytes.now self.old.at) }
    {
        let begin = self.at;
        let number = self.long_word()?;
        if number < NUMBERS_END {
            Ok(number)
        } else {
            Err(RecordFault::BadField(begin))
        }
    }

    /// A moment.
    #[tactic(auto, unfolding(crate::specs::Fields::number_field))]
    pub fn moment(&mut self) -> Result<Moment, RecordFault>
        requires within { IsWithin self.old }
        ensures behind { IsBehind self.old self.new }
        ensures reading { Reads result self.new (number_field self.old.bytes.now self.old.at) }
    {
        let begin = self.at;
        let number = self.long_word()?;
        Moment::of(number).ok_or(RecordFault::BadField(begin))
    }

    /// Where a consumer begins: up to 2^62.
    #[tactic(auto, unfolding(crate::specs::Fields::cursor_field))]
    pub fn cursor(&mut self) -> Result<u64, RecordFault>
        requires within { IsWithin self.old }
        ensures behind { IsBehind self.old self.new }
        ensures reading { Reads result self.new (cursor_field self.old.bytes.now self.old.at) }
    {
        let begin = self.at;
        let number = self.long_word()?;
        if number <= NUMBERS_END {
            Ok(number)
        } else {
            Err(RecordFault::BadField(begin))
        }
    }

    /// Numbers behind their count.
    #[tactic(auto, unfolding(crate::specs::Fields::numbers_field, crate::specs::Fields::list_field))]
    pub fn numbers(&mut self) -> Result<List<u64>, RecordFault>
        requires within { IsWithin self.old }
        ensures behind { IsBehind self.old self.new }
        ensures reading { Reads result self.new (numbers_field self.old.bytes.now self.old.at) }
    {
        let count = self.word()?;
        let mut numbers = List::new(self.alloc);
        for _ in 0..count {
            let number = self.number()?;
            numbers.push(number)?;
        }
        Ok(numbers)
    }

    /// A number of eight bytes.
    fn long_word(&mut self) -> Result<u64, RecordFault>
        requires within { IsWithin self.old }
        ensures behind { IsBehind self.old self.new }
        ensures reading { Reads result self.new (word w64 self.old.bytes.now self.old.at) }
    {
        let number = get_u64(self.bytes, self.at).ok_or(RecordFault::Cut(self.at))?;
        self.at += 8;
        Ok(number)
    }

    /// A number of four bytes.
    pub fn word(&mut self) -> Result<u32, RecordFault>
        requires within { IsWithin self.old }
        ensures behind { IsBehind self.old self.new }
        ensures reading { Reads result self.new (word w32 self.old.bytes.now self.old.at) }
    {
        let number = get_u32(self.bytes, self.at).ok_or(RecordFault::Cut(self.at))?;
        self.at += 4;
        Ok(number)
    }

    /// A number of two bytes.
    pub fn short_word(&mut self) -> Result<u16, RecordFault>
        requires within { IsWithin self.old }
        ensures behind { IsBehind self.old self.new }
        ensures reading { Reads result self.new (word w16 self.old.bytes.now self.old.at) }
    {
        let number = get_u16(self.bytes, self.at).ok_or(RecordFault::Cut(self.at))?;
        self.at += 2;
        Ok(number)
    }

    /// A byte.
    pub fn byte(&mut self) -> Result<u8, RecordFault>
        requires within { IsWithin self.old }
        ensures behind { IsBehind self.old self.new }
        ensures reading { Reads result self.new (word w8 self.old.bytes.now self.old.at) }
        ensures one { IfOk result (λ byte. self.new.at ≡ self.old.at + 1) }
    {
        let byte = *self.bytes.get(self.at).ok_or(RecordFault::Cut(self.at))?;
        self.at += 1;
        Ok(byte)
    }

    /// The next bytes, so many, of the field that begins at a place.
    pub(crate) fn part(&mut self, begin: usize, size: usize) -> Result<&'a [u8], RecordFault>
        requires within { IsWithin self.old }
        ensures behind { IsBehind self.old self.new }
        ensures value { IfOk result (λ text. part begin size self.old.bytes.now self.old.at ≡ Ok (text.now, self.new.at)) }
        ensures fault { IfErr result (IsFaultOf (part begin size self.old.bytes.now self.old.at)) }
    {
        let rest = &self.bytes[self.at..];
        if size > rest.len() {
            return Err(RecordFault::Cut(begin));
        }
        self.at += size;
        Ok(&rest[..size])
    }

    /// A name.
    #[tactic(auto, unfolding(crate::specs::Fields::name_field))]
    pub fn name(&mut self) -> Result<Blob, RecordFault>
        requires within { IsWithin self.old }
        ensures behind { IsBehind self.old self.new }
        ensures reading { Reads result self.new (name_field self.old.bytes.now self.old.at) }
    {
        let begin = self.at;
        let size = self.byte()?;
        let text = self.part(begin, usize::from(size))?;
        read_name(self.alloc, text)?.ok_or(RecordFault::BadField(begin))
    }

    /// The bytes behind a length of two bytes.
    fn text_bytes(&mut self) -> Result<&'a [u8], RecordFault>
        requires within { IsWithin self.old }
        ensures behind { IsBehind self.old self.new }
        ensures value { IfOk result (λ text. piece w16 self.old.bytes.now self.old.at ≡ Ok (text.now, self.new.at)) }
        ensures fault { IfErr result (IsFaultOf (piece w16 self.old.bytes.now self.old.at)) }
    {
        let begin = self.at;
        let size = self.short_word()?;
        self.part(begin, usize::from(size))
    }

    /// The bytes behind a length of four bytes.
    fn long_bytes(&mut self) -> Result<&'a [u8], RecordFault>
        requires within { IsWithin self.old }
        ensures behind { IsBehind self.old self.new }
        ensures value { IfOk result (λ text. piece w32 self.old.bytes.now self.old.at ≡ Ok (text.now, self.new.at)) }
        ensures fault { IfErr result (IsFaultOf (piece w32 self.old.bytes.now self.old.at)) }
    {
        let begin = self.at;
        let size = self.word()?;
        self.part(begin, size as usize)
    }

    /// Any text.
    #[tactic(auto, unfolding(crate::specs::Fields::text_field))]
    pub fn text(&mut self) -> Result<Blob, RecordFault>
        requires within { IsWithin self.old }
        ensures behind { IsBehind self.old self.new }
        ensures reading { Reads result self.new (text_field self.old.bytes.now self.old.at) }
    {
        let text = self.text_bytes()?;
        Ok(Blob::of(self.alloc, text)?)
    }

    /// The bytes of a subject without wildcards.
    #[tactic(auto, unfolding(crate::specs::Fields::subject_field))]
    pub(crate) fn subject_bytes(&mut self) -> Result<&'a [u8], RecordFault>
        requires within { IsWithin self.old }
        ensures behind { IsBehind self.old self.new }
        ensures value { IfOk result (λ subject. subject_field self.old.bytes.now self.old.at ≡ Ok (subject.now, self.new.at)) }
        ensures fault { IfErr result (IsFaultOf (subject_field self.old.bytes.now self.old.at)) }
    {
        let begin = self.at;
        let subject = self.text_bytes()?;
        match check_subject(subject) {
            Ok(()) => Ok(subject),
            Err(_) => Err(RecordFault::BadField(begin)),
        }
    }

    /// A stream's configuration.
    #[tactic(auto, unfolding(crate::specs::Fields::stream_field))]
    pub fn stream_config(&mut self) -> Result<StreamConfig, RecordFault>
        requires within { IsWithin self.old }
        ensures behind { IsBehind self.old self.new }
        ensures reading { Reads result self.new (stream_field self.old.bytes.now self.old.at) }
    {
        let begin = self.at;
        let text = self.long_bytes()?;
        read_stream_text(self.alloc, text)?.ok_or(RecordFault::BadField(begin))
    }

    /// A consumer's configuration.
    #[tactic(auto, unfolding(crate::specs::Fields::consumer_field))]
    pub fn consumer_config(&mut self) -> Result<ConsumerConfig, RecordFault>
        requires within { IsWithin self.old }
        ensures behind { IsBehind self.old self.new }
        ensures reading { Reads result self.new (consumer_field self.old.bytes.now self.old.at) }
    {
        let begin = self.at;
        let text = self.long_bytes()?;
        read_consumer_text(self.alloc, text)?.ok_or(RecordFault::BadField(begin))
    }

    /// The end of bytes that stand behind their length and their checksum. The reader goes on in front of them. If they have another checksum, the place of
    /// their length is told.
    #[tactic(auto, unfolding(crate::specs::Fields::checked_end))]
    pub(crate) fn checked_end(&mut self) -> Result<usize, RecordFault>
        requires within { IsWithin self.old }
        ensures behind { IsBehind self.old self.new }
        ensures ahead { IfOk result (λ end. self.new.at ≤ end) }
        ensures within { IfOk result (λ end. end ≤ length self.old.bytes.now) }
        ensures reading { Reads result self.new (checked_end self.old.bytes.now self.old.at) }
    {
        let begin = self.at;
        let size = self.word()?;
        let sum = self.word()?;
        let first = self.at;
        let bytes = self.part(begin, size as usize)?;
        let end = self.at;
        self.at = first;
        if crc32c(bytes) == sum {
            Ok(end)
        } else {
            Err(RecordFault::BadField(begin))
        }
    }

    /// A message's header block, and where it begins. Its length is a field of its own.
    pub(crate) fn headers(&mut self) -> Result<(usize, &'a [u8]), RecordFault>
        requires within { IsWithin self.old }
        ensures behind { IsBehind self.old self.new }
        ensures value { IfOk result (λ headers. sized_part is_small_header self.old.bytes.now self.old.at ≡ Ok ((headers.0, headers.1.now), self.new.at)) }
        ensures fault { IfErr result (IsFaultOf (sized_part is_small_header self.old.bytes.now self.old.at)) }
    {
        let size = self.word()?;
        let begin = self.at;
        let headers = self.part(begin, size as usize)?;
        if headers.len() <= MOST_BYTES && (headers.is_empty() || is_block(headers)) {
            Ok((begin, headers))
        } else {
            Err(RecordFault::BadField(begin))
        }
    }

    /// Where a message lies.
    #[tactic(auto, unfolding(crate::specs::Fields::spot_field))]
    pub fn spot(&mut self) -> Result<Spot, RecordFault>
        requires within { IsWithin self.old }
        ensures behind { IsBehind self.old self.new }
        ensures reading { Reads result self.new (spot_field self.old.bytes.now self.old.at) }
    {
        let file = self.short_word()?;
        let at = self.word()?;
        let len = self.word()?;
        Ok(Spot {
            file: u32::from(file),
            at,
            len,
        })
    }

    /// A range of sequences. If its ends are out of order, the first is told.
    #[tactic(auto, unfolding(crate::specs::Fields::range_field))]
    pub(crate) fn range(&mut self) -> Result<(u64, u64), RecordFault>
        requires within { IsWithin self.old }
        ensures behind { IsBehind self.old self.new }
        ensures reading { Reads result self.new (range_field self.old.bytes.now self.old.at) }
    {
        let begin = self.at;
        let low = self.number()?;
        let high = self.number()?;
        if low <= high {
            Ok((low, high))
        } else {
            Err(RecordFault::BadField(begin))
        }
    }
}

/// The name that the text is.
fn read_name(alloc: Global, text: &[u8]) -> Result<Option<Blob>, NoMemory>
    ensures value { IfOk result (λ name. name ≡ allowed (name_of text.now)) }
{
    match Name::read(alloc, text) {
        Ok(name) => share(name.as_blob()),
        Err(NameFault::NoMemory) => Err(NoMemory),
        Err(_) => Ok(None),
    }
}

/// The same bytes.
fn share(blob: &Blob) -> Result<Option<Blob>, NoMemory>
    ensures value { IfOk result (λ copy. copy ≡ Some blob.now) }
{
    match blob.clone() {
        Ok(copy) => Ok(Some(copy)),
        Err(_) => Err(NoMemory),
    }
}
