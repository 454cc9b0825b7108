//! The script that a link in memory plays.

ghost use Rattle.std.specs.Prelude.{◌≡◌, ◌<◌, ◌≤◌, ◌++◌, length, min, take, option_map};
ghost use Rattle.link_edge.specs.Takes.{taken_bytes};

use crate::answers::Take;
use js_base::{Blob, List};
use std::marker::Model;

/// A member of a script.
#[derive(Drop, Debug)]
pub enum Said {
    /// These bytes come, in as many pieces as the room of the takes asks. No bytes are a `Quiet`.
    Piece(Blob),
    /// One take is answered `Quiet`.
    Quiet,
}

/// A script that is played: the members that are left, of the first piece only what was not taken yet.
#[derive(Drop, Debug)]
pub struct Script {
    said: List<Said>,
    next: usize,
    offset: usize,
}

impl Model for Script {
    ghost use Rattle.std.specs.Prelude.{List, length, drop, ◌≤◌};
    ghost use Rattle.link_edge.specs.declared.script.Said.{Said};
    ghost use Rattle.link_edge.specs.Script.{first_bytes, rest_from};

    ghost Value = { List Said };

    ghost view = { λ s. rest_from s.said s.next s.offset };

    ghost invariant = { λ s. s.offset ≤ length (first_bytes (drop s.next s.said)) };
}

/// Copies as much of the bytes as there is room for, and says how much that was.
fn copy_prefix(bytes: &[u8], into: &mut [u8]) -> usize
    ensures count { result ≡ min (length bytes.now) (length into.old) }
    ensures bytes { take result into.new ≡ take result bytes.now }
{
    let count = bytes.len().min(into.len());
    into[..count].copy_from_slice(&bytes[..count]);
    count
}

impl Script {
    ghost use Rattle.link_edge.specs.Script.{front_of, next_take, script_after, script_bytes};

    /// The whole script is left.
    pub fn new(said: List<Said>) -> Script
        ensures fresh { result ≡ said }
    {
        Script {
            said,
            next: 0,
            offset: 0,
        }
    }

    /// The bytes of the first member that is left, or `None` at the script's end.
    fn front(&self) -> Option<&[u8]>
        ensures front { option_map (λ bytes. bytes.now) result ≡ front_of self.now }
    {
        if self.next >= self.said.len() {
            return None;
        }
        match &self.said.as_slice()[self.next] {
            Said::Quiet => Some(&[]),
            Said::Piece(piece) => {
                let (_, rest) = piece.as_slice().split_at(self.offset);
                Some(rest)
            }
        }
    }

    /// What the next take answers. Its bytes are copied into the room, and the script stays as it is.
    pub fn say(&self, into: &mut [u8]) -> Take
        requires room { 0 < length into.old }
        ensures value { result ≡ next_take self.now (length into.new) }
        ensures bytes { script_bytes self.now
            ≡ taken_bytes result into.new ++ script_bytes (script_after self.now (length into.new)) }
    {
        match self.front() {
            None => Take::Ended,
            Some(bytes) if bytes.is_empty() => Take::Quiet,
            Some(bytes) => Take::Got(copy_prefix(bytes, into)),
        }
    }

    /// Advances by what a take with so much room was answered.
    pub fn advance(&mut self, room: usize)
        ensures rest { self.new ≡ script_after self.old room }
    {
        if self.next >= self.said.len() {
            return;
        }
        match &self.said.as_slice()[self.next] {
            Said::Quiet => self.next += 1,
            Said::Piece(piece) => {
                if piece.len() - self.offset <= room {
                    self.next += 1;
                    self.offset = 0;
                } else {
                    self.offset += room;
                }
            }
        }
    }
}
