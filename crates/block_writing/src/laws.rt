//! Laws of the definitions.

ghost use Rattle.block_writing.specs.Laws.{LawPlans};

use vol_disk::Vol;

/// A plan's runs begin where the blocks of the table end, and a message more ends within its file if that reaches so far. While they are written the blocks and the logs are kept, and once they are, each message is at the
/// spot that its record tells. It is said of a volume before and after, of any kind.
pub fn law_plans<V: Vol>(before: &V, after: &V)
    ensures { LawPlans (V.disk before.now) (V.disk after.now) }
{}
