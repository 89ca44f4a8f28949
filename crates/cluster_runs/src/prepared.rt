//! What a plan runs with at a cluster of servers.
ghost use Rattle.std.specs.Prelude.{◌≡◌, length};

use crate::log_files::Log;
use cluster_admin::Survey;
use cluster_survey::FoundCluster;
use plan_runner::VerifiedPlan;
use server_runs::Counts;

/// What a plan runs with. The survey is that of the servers as they were found, and not the one that the plan was
/// verified over, so that arming the plan compares the two.
#[derive(Drop)]
pub(crate) struct Prepared<I: Drop, O: Drop> {
    pub(crate) servers: FoundCluster<I, O>,
    /// What the servers said, as the model has it.
    pub(crate) survey: Survey,
    pub(crate) plan: VerifiedPlan,
    /// How often a slot moves by the plan.
    pub(crate) moves: u64,
    /// The slots that are open before the plan.
    pub(crate) counts: Counts,
    /// What is shown on standard error before the plan runs.
    pub(crate) notes: Vec<u8>,
    pub(crate) log: Option<Log>,
    ghost surveyed: { length survey.rows ≡ length servers.book },
}

impl<I: Drop, O: Drop> Prepared<I, O> {
    /// What was made ready, with this log.
    pub(crate) fn with_log(self, log: Option<Log>) -> Self
        ensures { result ≡ record self { log = log } }
    {
        let Self {
            servers,
            survey,
            plan,
            moves,
            counts,
            notes,
            log: _,
        } = self;
        Self {
            servers,
            survey,
            plan,
            moves,
            counts,
            notes,
            log,
        }
    }
}
