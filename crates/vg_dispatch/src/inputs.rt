//! What is run.

use crate::options::Options;
use vg_capture::Capture;
use vg_plan::Plan;

/// What is run: a capture through the generations of a plan.
#[derive(Clone, Copy)]
pub struct Input<'a> {
    pub plan: &'a Plan,
    pub capture: &'a Capture,
    pub options: &'a Options,
}
