//! Memory that runs out at a door or a link.

use js_base::{List, Moment};
use link_edge::{Accept, Door, Give, Link, MemClock, MemSink, OpenGate, Take, Unnoticed};
use memory_place::MemoryPlace;
use server::{Finish, run};
use std::alloc::Global;
use std::sync::Wait;
use std::test::Fail;
use std::thread::Threads;
use tcp_edge::Rings;

/// The call that finds no memory.
#[derive(Clone, Copy, Debug, PartialEq, Eq)]
enum Call {
    Accept,
    Take,
    Give,
}

/// A door and a link that find no memory at one call.
#[derive(Clone, Copy, Debug)]
struct Starved {
    at: Call,
}

impl Link for Starved {
    ghost use Rattle.std.specs.Prelude.{None};

    ghost left = { λ _. None };

    ghost answered = { λ _. None };

    ghost given = { λ _. None };

    ghost failings = { λ _. None };

    ghost faults = { λ _. 0 };

    fn take(&mut self, _into: &mut [u8]) -> Take {
        if self.at == Call::Take {
            Take::NoMemory
        } else {
            Take::Ended
        }
    }

    fn give(&mut self, bytes: &[u8]) -> Give {
        if self.at == Call::Give {
            Give::NoMemory
        } else {
            Give::Gave(bytes.len())
        }
    }
}

impl Rings for Starved {}

impl Door for Starved {
    ghost use Rattle.std.specs.Prelude.{None};

    type Link = Starved;

    ghost answered = { λ _. None };

    ghost gave = { λ _. None };

    ghost back = { λ _. None };

    ghost starved = { λ _. None };

    ghost faults = { λ _. 0 };

    fn accept(&mut self) -> Accept<Starved> {
        if self.at == Call::Accept {
            Accept::NoMemory
        } else {
            Accept::Got(*self)
        }
    }

    fn done(&mut self, link: Starved) {
        let _link = link;
    }
}

/// The status of a run over such a door.
fn status(rt: &(impl Threads + Wait + Sync), alloc: Global, at: Call) -> Result<u8, Fail> {
    let words = vec![in alloc; String::from_str(alloc, "pipe")?]?;
    let vols: Vec<()> = Vec::new(alloc);
    let mut clock = MemClock::new(List::new(alloc), Moment::of(0).ok_or("no moment")?);
    let mut sink = MemSink::new(alloc);
    let finish: Finish<_, ()> = run::<MemoryPlace<()>, _, _, _, _, _, _>(
        rt,
        alloc,
        &words,
        Starved { at },
        vols,
        &mut clock,
        &OpenGate,
        &mut Unnoticed,
        &mut sink,
    );
    Ok(finish.status)
}

#[test]
fn want_of_memory_gives_its_status(rt: HostRuntime) -> Result<(), Fail> {
    for at in [Call::Accept, Call::Take, Call::Give] {
        assert_eq!(rt; status(&rt, rt.alloc(), at)?, 7, "at {at:?}");
    }
    Ok(())
}
