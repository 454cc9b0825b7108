//! A row: one run of the server, as it is scripted.

ghost use Rattle.std.specs.Prelude.{◌≤◌, IfSome};

use js_base::Moment;
use std::alloc::Global;

/// T, from which the moments of a row are counted: 1,700,000,000 seconds after the beginning of 1970.
pub(crate) fn begin() -> Moment {
    Moment::of(1_700_000_000_000_000_000).unwrap()
}

/// How many volumes a run has, 32 at most.
#[derive(Clone, Copy)]
pub(crate) struct Volumes {
    pub(crate) count: usize,
    ghost few: { count ≤ 32 },
}

impl Volumes {
    /// As many as a run has whose row does not say.
    pub(crate) fn usual() -> Volumes {
        Volumes { count: 3 }
    }

    /// So many volumes, if they are not too many.
    pub(crate) fn of(count: u64) -> Option<Volumes> {
        match usize::try_from(count) {
            Ok(count) if count <= 32 => Some(Volumes { count }),
            _ => None,
        }
    }
}

/// What a link does in a few takes at one moment: some bytes come, and then nothing so many times.
#[derive(Drop)]
pub(crate) struct Turn {
    pub(crate) moment: Moment,
    pub(crate) bytes: Vec<u8>,
    pub(crate) quiet: u64,
}

impl Turn {
    /// A turn at the moment in which nothing is done yet.
    pub(crate) fn at(alloc: Global, moment: Moment) -> Turn {
        Turn {
            moment,
            bytes: Vec::new(alloc),
            quiet: 0,
        }
    }

    /// Whether nothing is done in it.
    pub(crate) fn is_empty(&self) -> bool {
        self.bytes.is_empty() && self.quiet == 0
    }
}

/// A link, and how often nobody comes before it.
#[derive(Drop)]
pub(crate) struct LinkScript {
    pub(crate) quiet: u64,
    pub(crate) turns: Vec<Turn>,
    /// The numbers of its calls that fail.
    pub(crate) failing: Vec<u64>,
}

impl LinkScript {
    /// A link that does nothing yet, before which nobody comes so often.
    pub(crate) fn after(alloc: Global, quiet: u64) -> LinkScript {
        LinkScript {
            quiet,
            turns: Vec::new(alloc),
            failing: Vec::new(alloc),
        }
    }
}

/// The links that a door gives, and how often nobody comes after the last of them.
#[derive(Drop)]
pub(crate) struct DoorScript {
    pub(crate) links: Vec<LinkScript>,
    pub(crate) quiet: u64,
    /// The numbers of its accepts that fail.
    pub(crate) failing: Vec<u64>,
}

/// One run of the server.
#[derive(Drop)]
pub(crate) struct Row {
    pub(crate) title: Vec<u8>,
    pub(crate) words: Vec<String>,
    pub(crate) volumes: Volumes,
    pub(crate) door: DoorScript,
    /// The numbers of the writes to the sink that fail.
    pub(crate) sink_failing: Vec<u64>,
    /// Whether it is run without being cut into single bytes.
    pub(crate) is_whole: bool,
}
