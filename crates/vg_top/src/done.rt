//! What a call answers.

use vg_barrier::MainSeat;
use vg_differs::Finding;
use vg_dispatch::WorkerParcel;
use vg_engine::Rests;
use vg_pool::Settled;
use vg_remarks::Remarks;

/// What a run leaves beside its files.
#[derive(Drop)]
pub struct RunEnd {
    /// The queues between workers, closed: from each worker to each other, by the one and then by the other.
    pub rests: Rests,
    /// Main's seat at the barrier of the run.
    pub seat: MainSeat<WorkerParcel>,
    /// What the settlement of the run's pool came to.
    pub settled: Settled,
    /// What is remarked of the run. Where memory runs out for that alone, the run is as good and nothing is remarked.
    pub remarks: Option<Remarks>,
}

/// What a call answers.
#[derive(Drop)]
pub struct Done {
    /// The exit status.
    pub status: u8,
    /// The end of the run, where one was done.
    pub ran: Option<RunEnd>,
    /// Where what was checked differs from what is wanted, where a check answers no and its answer has such a place. Where memory runs out for that
    /// alone, the answer is as good and nothing is found.
    pub found: Option<Finding>,
}
