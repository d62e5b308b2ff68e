//! What is due at the end of a call.
ghost use Rattle.std.specs.Prelude.{◌≡◌, None, IfOk};
ghost use Rattle.vg_files.specs.Refusals.{status_of, line_of};
ghost use Rattle.vg_top.specs.Dues.{IsDueFor};

use crate::done::RunEnd;
use std::alloc::Global;
use vg_differs::Finding;
use vg_files::{Refusal, Stop};
use vg_model::{Bytes, Memory};

/// What is due at the end: the exit status, the text to print, the end of a run that is done, and what is found of a check whose answer is no.
#[derive(Drop)]
pub struct Due {
    pub status: u8,
    pub text: Bytes,
    pub ran: Option<RunEnd>,
    pub found: Option<Finding>,
}

/// What is due where a run is refused.
pub fn refuse(alloc: Global, refusal: Refusal<'_>) -> Result<Due, Memory>
    ensures status { IfOk result (λ due. due.status ≡ status_of refusal.entry) }
    ensures text { IfOk result (λ due. due.text ≡ line_of refusal.entry) }
    ensures ran { IfOk result (λ due. due.ran ≡ None) }
    ensures found { IfOk result (λ due. due.found ≡ None) }
{
    let Ok(text) = refusal.line(alloc) else {
        return Err(Memory);
    };
    Ok(Due {
        status: refusal.status(),
        text: Bytes::from_vec(text.into_bytes()),
        ran: None,
        found: None,
    })
}

/// What is due where a run stops.
pub fn stopped(alloc: Global, stop: Stop<'_>) -> Result<Due, Memory>
    ensures { IfOk result (IsDueFor stop.entry) }
{
    match stop {
        Stop::Memory => Err(Memory),
        Stop::Refused(refusal) => refuse(alloc, refusal),
    }
}
