//! What holds of each run of a router that many seats share, by the definitions alone.

ghost use Rattle.seat_laws.specs.Laws.{LawRoutes, LawOpening, LawOpeners, LawOpened, LawStays, LawAnswered, LawJoined, LawCut};

/// The entries of a run of many seats are a run of the router.
pub fn law_routes()
    ensures law { LawRoutes }
{}

/// The openers are just those of the open sessions, each session once: so it is of the empty router, and of each state that a run
/// reaches from such a state. Which they are after a run, its entries alone decide.
pub fn law_openers()
    ensures opening { LawOpening }
    ensures law { LawOpeners }
    ensures opened { LawOpened }
{}

/// After a run from a state whose openers are just those of the open sessions, and none of whose entries is by one of some seats, one of them has
/// opened just the sessions that it had opened before, and these are still open.
pub fn law_stays()
    ensures law { LawStays }
{}

/// Where the openers are just those of the open sessions, no call that a seat may make is told `NoSession`.
pub fn law_answered()
    ensures law { LawAnswered }
{}

/// Two runs in a row are one, and wherever the entries of a run are cut in two there is a state between them.
pub fn law_joined()
    ensures law { LawJoined }
    ensures cut { LawCut }
{}
