//! The edits of events are made.
ghost use Rattle.std.specs.Prelude.{OnOk};
ghost use Rattle.vg_threads.specs.Turns.{CanMakeNext, MakesNext};

use std::alloc::Global;
use vg_model::Memory;
use vg_plan::Master;
use vg_process::Processes;
use vg_script::ScriptCause;

/// Makes the edits of the next event, of which none is refused.
///
/// # Errors
///
/// [`Memory`] where memory runs out.
pub(crate) fn make_next(
    alloc: Global,
    processes: &mut Processes,
    master: &mut Master,
) -> Result<(), Memory>
    requires { CanMakeNext processes.old master.old }
    ensures { OnOk result (MakesNext processes.old master.old processes.new master.new) }
{
    let Some(time) = processes.next_time() else {
        unreachable!()
    };
    let Some(due) = processes.poll(time)? else {
        unreachable!()
    };
    match master.apply(alloc, &due.edits) {
        Ok(()) => Ok(()),
        Err(error) => match error.cause {
            ScriptCause::Memory => Err(Memory),
            _ => unreachable!(),
        },
    }
}
