//! Header blocks that were checked.

ghost use Rattle.std.specs.Prelude.{◌≡◌, ◌+◌, ◌<◌, ◌^◌, ◌&&◌, [], ◌∷◌, length, option_map, IsTrue, OnOk, if◌then◌else◌, None, Some};
ghost use Rattle.js_base.specs.Bytes.{is_empty, same};
ghost use Rattle.js_base.specs.Headers.{block_lines, is_block};
ghost use Rattle.nats_headers.specs.Reading.{fields_fault, block_fault, block_of, ReadsBlock, Answers, first_value, header};
ghost use Rattle.nats_headers.specs.declared.fault.HeaderFault.TheVariants.{BadLine};

use crate::fault::HeaderFault;
use crate::line::{cut_line, is_field_line, is_named, is_version_line, value_of};
use js_base::Blob;
use std::alloc::Global;
use std::marker::Model;

/// A header block, which contracts see as its bytes. A value is read in place.
#[derive(Drop, Debug, PartialEq, Eq)]
pub struct Headers {
    block: Blob,
}

impl Model for Headers {
    ghost use Rattle.std.specs.Prelude.{ℕ, List, ◌≡◌, true};
    ghost use Rattle.js_base.specs.Headers.{is_block};

    ghost Value = { List ℕ };

    ghost view = { λ headers. headers.block };

    ghost invariant = { λ headers. is_block headers.block ≡ true };

    ghost inverse = { λ block. record { block = block } };
}

impl Headers {
    /// The value of the first field with this name, which is compared byte by byte, without the spaces and tabs around it.
    #[tactic(auto, unfolding(crate::specs::Reading::header))]
    pub fn get(&self, name: &[u8]) -> Option<&[u8]>
        ensures value { option_map (λ value. value.now) result ≡ header name.now self.now }
    {
        match cut_line(self.block.as_slice()) {
            Some((_, fields)) => first_value(name, fields),
            None => None,
        }
    }

    /// The block's bytes.
    pub fn as_slice(&self) -> &[u8]
        ensures bytes { result.now ≡ self.now }
        ensures block { IsTrue (is_block self.now) }
    {
        self.block.as_slice()
    }
}

/// The value of the first of the lines with this name.
fn first_value<'a>(name: &[u8], lines: &'a [u8]) -> Option<&'a [u8]>
    ensures value { option_map (λ value. value.now) result ≡ first_value name.now (block_lines lines.now) }
{
    let mut lines = lines;
    while let Some((line, after)) = cut_line(lines) {
        if is_named(name, line) {
            return Some(value_of(line));
        }
        lines = after;
    }
    None
}

/// The header block that the bytes are, in a copy of them, or their first fault. A block is `NATS/1.0`, which a space and a text may follow,
/// then `name:value` for each field, then an empty line, each ended by CR LF. A name has one or more bytes and no colon.
pub fn read_headers(alloc: Global, block: &[u8]) -> Result<Headers, HeaderFault>
    ensures reading { ReadsBlock result (block_of block.now) }
    ensures grammar { Answers result block.now }
    ensures accepted { OnOk result (IsTrue (is_block block.now)) }
{
    if let Some(fault) = block_fault(block) {
        return Err(fault);
    }
    match Blob::of(alloc, block) {
        Ok(block) => Ok(Headers { block }),
        Err(_) => Err(HeaderFault::NoMemory),
    }
}

/// Whether the bytes are a header block, that is, `read_headers` finds no fault. It takes no memory.
pub fn is_block(block: &[u8]) -> bool
    ensures value { result ≡ is_block block.now }
{
    block_fault(block).is_none()
}

/// The first fault of the bytes, if they are no block.
#[tactic(auto, unfolding(crate::specs::Reading::block_fault))]
fn block_fault(block: &[u8]) -> Option<HeaderFault>
    ensures value { result ≡ block_fault block.now }
{
    match cut_line(block) {
        Some((line, rest)) if is_version_line(line) => fields_fault(line.len() + 1, rest),
        _ => Some(HeaderFault::BadStart),
    }
}

/// The first fault of the fields and their end, which begin at this place.
fn fields_fault(place: usize, lines: &[u8]) -> Option<HeaderFault>
    requires { place + length lines.now < 2 ^ 63 }
    ensures value { result ≡ fields_fault place (block_lines lines.now) }
{
    let mut at = place;
    let mut lines = lines;
    while let Some((line, after)) = cut_line(lines) {
        if !is_field_line(line) {
            return unless_end(line, after, at);
        }
        at += line.len() + 1;
        lines = after;
    }
    Some(HeaderFault::NotEnded)
}

/// The fault of a line that is no field: it should be empty, and nothing should follow it.
fn unless_end(line: &[u8], after: &[u8], at: usize) -> Option<HeaderFault>
    ensures value { result ≡ (if same line.now (13 ∷ []) && is_empty after.now then None else Some (BadLine at)) }
{
    if line == b"\r".as_slice() && after.is_empty() {
        None
    } else {
        Some(HeaderFault::BadLine(at))
    }
}
