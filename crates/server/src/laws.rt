//! Laws of the definitions: what a run comes to if nothing stands in the way, and what holds of each run in memory.

ghost use Rattle.server.specs.Keeping.{LawKept};
ghost use Rattle.server.specs.Kinds.{Leaves, Made, Opens, Refuses};
ghost use Rattle.server.specs.Laws.{LawComplete, LawWelcome};
ghost use Rattle.server.specs.Memory.{LawMayOpen, LawPlaceless, LawUnchanged, LawUntroubled, LawWelcoming};
ghost use Rattle.server.specs.Unfailed.{LawReadable, LawUnfailed};
ghost use Rattle.server.specs.WrongWords.{LawTold};

use place_engine::Place;

/// A run over whole operations ends with status 0, or with 7, out of memory. With 0 a session whose link the door gave out has carried out
/// each of them, in the order of their coming, and none at a store that failed, or that had no room where fewer than 65,533 messages counted.
/// This holds if only want of memory can keep a desk from being opened on the volumes, by those that came back; if the stream that is to be made, if there is
/// one, is refused by no place unless a volume fails or has no room; if the volumes are untroubled as the desk is closed: none failed or refused room, no place
/// came to more than a log can begin with, and none has used up its generations; if no count of faults of the door or the link rises, the input is shorter than a session may take, and the door and the link are not quiet as often in a row as
/// they may be; and if, in every run that agrees with all that was told, the client is not stale when nothing comes, and at no time waits more for it than may.
pub fn law_complete<P: Place>()
    ensures complete { LawComplete
        (Opens P.seen P.vol P.holds P.reads P.left P.clock P.faults P.room_causes P.base P.opens P.refuses P.keeps_vol)
        (Refuses P.seen P.vol P.holds P.reads P.left P.clock P.faults P.room_causes P.base P.opens P.refuses P.keeps_vol)
        (Made P.seen P.vol P.holds P.reads P.left P.clock P.faults P.room_causes P.base P.opens P.refuses P.keeps_vol)
        (Leaves P.seen P.vol P.holds P.reads P.left P.clock P.faults P.room_causes P.base P.opens P.refuses P.keeps_vol) }
{}

/// If the volumes that a run is handed can be read and hold no more than a log can begin with, no two of their streams conflict, and no count of faults or of
/// refusals of one rose until they came back, then only want of memory can keep a desk from being opened on them.
/// If no count rose, no place came to more than a log can begin with, and none has used up its generations, then they are untroubled as the desk is closed.
pub fn law_unfailed<P: Place>()
    ensures readable { LawReadable
        (Opens P.seen P.vol P.holds P.reads P.left P.clock P.faults P.room_causes P.base P.opens P.refuses P.keeps_vol)
        (Refuses P.seen P.vol P.holds P.reads P.left P.clock P.faults P.room_causes P.base P.opens P.refuses P.keeps_vol)
        (Made P.seen P.vol P.holds P.reads P.left P.clock P.faults P.room_causes P.base P.opens P.refuses P.keeps_vol)
        (Leaves P.seen P.vol P.holds P.reads P.left P.clock P.faults P.room_causes P.base P.opens P.refuses P.keeps_vol)
        P.holds P.reads P.faults P.room_causes }
    ensures unfailed { LawUnfailed
        (Opens P.seen P.vol P.holds P.reads P.left P.clock P.faults P.room_causes P.base P.opens P.refuses P.keeps_vol)
        (Refuses P.seen P.vol P.holds P.reads P.left P.clock P.faults P.room_causes P.base P.opens P.refuses P.keeps_vol)
        (Made P.seen P.vol P.holds P.reads P.left P.clock P.faults P.room_causes P.base P.opens P.refuses P.keeps_vol)
        (Leaves P.seen P.vol P.holds P.reads P.left P.clock P.faults P.room_causes P.base P.opens P.refuses P.keeps_vol)
        P.faults P.room_causes }
{}

/// A mistake is told exactly of a command line that is no command.
pub fn law_told()
    ensures told { LawTold }
{}

/// Each volume comes back in its place, as the calls of its place may have left it.
pub fn law_kept<P: Place>()
    ensures kept { LawKept P.seen P.vol P.holds P.reads P.left P.clock P.faults P.room_causes P.base P.opens P.refuses P.keeps_vol }
{}

/// Places that never had a stream refuse none, if there is one of them.
pub fn law_welcome()
    ensures welcome { LawWelcome }
{}

/// In memory only want of memory can keep a desk from being opened, a stream is refused only if there is no volume, which is error 20007, the volumes are
/// untroubled as the desk is closed, and they come back as they were.
pub fn law_memory<V>()
    ensures may_open { LawMayOpen V }
    ensures welcoming { LawWelcoming V }
    ensures untroubled { LawUntroubled V }
    ensures placeless { LawPlaceless V }
    ensures unchanged { LawUnchanged V }
{}
