//! Laws of runs and checks: each is a function whose contract is the law.
ghost use Rattle.std.specs.Prelude.{ℕ, List};
ghost use Rattle.vg_check.specs.Verdicts.{IsAccepted};
ghost use Rattle.vg_top.specs.Accepted.{bytes_behind, plan_behind};
ghost use Rattle.vg_files.specs.Checks.{AreInputs, case_in};
ghost use Rattle.vg_top.specs.Expected.{IsStatusBy};
ghost use Rattle.vg_top.specs.Run.{Call, IsDone};

/// What a run that is done saved and printed is accepted: a check of its files, with as many slots in a queue, answers yes.
pub fn what_is_done_is_accepted()
    ensures inputs { (call : Call) (line : List ℕ) (done : IsDone call line) → AreInputs (bytes_behind done) done.capture (plan_behind done) }
    ensures accepted { (call : Call) (line : List ℕ) (done : IsDone call line) → IsAccepted (case_in done.run.queue (bytes_behind done) done.capture (plan_behind done)) }
    ensures status { (call : Call) (line : List ℕ) (done : IsDone call line) → IsStatusBy done.run.queue (bytes_behind done) 0 }
{}
