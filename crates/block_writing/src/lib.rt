//! Writing the messages of a commit into the blocks of a volume, and dropping blocks that hold none any more.
#![tactic(auto)]

mod commit;
mod dropping;
mod fault;
mod laws;
mod planning;
mod run;
mod writing;

pub use commit::Plan;
pub use dropping::drop_unused;
pub use fault::PlanFault;
pub use laws::law_plans;
pub use planning::plan;
pub use run::Run;
pub use writing::write_runs;
