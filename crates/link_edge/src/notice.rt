//! Who is told what a server found.

ghost use Rattle.std.specs.Prelude.{◌≡◌, Option};
ghost use Rattle.link_edge.specs.Notices.{NoticeTold, noticed};

/// What a server found as it opened its streams.
#[derive(Clone, Copy, Debug, PartialEq, Eq)]
pub struct Found {
    /// How many streams there are.
    pub streams: u64,
    /// How many messages they hold together.
    pub messages: u64,
}

/// Is told what a server found as it opened its streams, before the first connection is accepted.
pub trait Notice {
    /// What it was told so far, if it is known.
    ghost told: { Self → Option NoticeTold };

    /// The streams were opened, and this was found. It never fails, and takes no memory.
    fn opened(&mut self, found: Found)
        ensures told { told self.new ≡ noticed (told self.old) found };
}
