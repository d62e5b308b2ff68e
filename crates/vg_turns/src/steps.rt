//! What the bytes of a turns file say.
ghost use Rattle.std.specs.Prelude.{◌≡◌};
ghost use Rattle.vg_turns.specs.Turns.{may_stand as may_stand_in, step_said};

/// A step of a run.
#[derive(Clone, Copy, Debug, PartialEq, Eq)]
pub enum Step {
    /// A step of main.
    Main,
    /// A turn of the worker of this number.
    Worker(u8),
}

/// The step that a byte says, if it says one.
pub(crate) fn step_of(byte: u8, workers: u8) -> Option<Step>
    ensures { result ≡ step_said workers byte }
{
    match byte {
        b'm' => Some(Step::Main),
        b'0'..=b'9' if byte - b'0' < workers => Some(Step::Worker(byte - b'0')),
        _ => None,
    }
}

/// Whether the byte may stand in a turns file of so many workers.
pub(crate) fn may_stand(byte: u8, workers: u8) -> bool
    ensures { result ≡ may_stand_in workers byte }
{
    step_of(byte, workers).is_some() || matches!(byte, b' ' | b'\t' | b'\r' | b'\n')
}
