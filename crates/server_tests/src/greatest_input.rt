//! The greatest input of a run.

use js_base::{List, Moment};
use link_edge::{MemClock, MemSink, OpenGate, PipeDoor, Unnoticed};
use memory_place::MemoryPlace;
use server::{Finish, run};
use std::io::{self, Read, Write};
use std::test::Fail;

/// A reader that says a text over and over, without end.
#[derive(Drop)]
struct Endless {
    text: Vec<u8>,
    at: usize,
}

impl Read for Endless {
    fn read(&mut self, into: &mut [u8]) -> io::Result<usize> {
        let at = if self.at < self.text.len() {
            self.at
        } else {
            0
        };
        let (_, rest) = self.text.as_slice().split_at(at);
        let count = rest.len().min(into.len());
        into[..count].copy_from_slice(&rest[..count]);
        self.at = at + count;
        Ok(count)
    }
}

#[test]
fn greatest_input_ends_the_run(rt: HostRuntime) -> Result<(), Fail> {
    let alloc = rt.alloc();
    let mut text = Vec::from_slice(alloc, b"PUB a 1048576\r\n")?;
    text.extend_from_slice(&vec![in alloc; b'x'; 1_048_576]?)?;
    text.extend_from_slice(b"\r\n")?;
    let words = vec![in alloc; String::from_str(alloc, "pipe")?]?;
    let vols: Vec<()> = Vec::new(alloc);
    let door = PipeDoor::new(Endless { text, at: 0 }, io::sink());
    let mut clock = MemClock::new(List::new(alloc), Moment::of(0).ok_or("no moment")?);
    let mut sink = MemSink::new(alloc);
    let finish: Finish<_, ()> = run::<MemoryPlace<()>, _, _, _, _, _, _>(
        &rt,
        alloc,
        &words,
        door,
        vols,
        &mut clock,
        &OpenGate,
        &mut Unnoticed,
        &mut sink,
    );
    assert_eq!(rt; finish.status, 6);
    Ok(())
}
