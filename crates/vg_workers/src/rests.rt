//! The queues of a run, once they are closed.
ghost use Rattle.std.specs.Prelude.{◌≡◌};

use std::marker::Model;
use vg_hands::HandFrame;
use vg_ring::Rest;

/// A list of closed queues.
#[derive(Drop)]
pub struct Rests(Vec<Rest<HandFrame>>);

impl Model for Rests {
    ghost use Rattle.std.specs.Prelude.{List};
    ghost use Rattle.vg_ring.specs.declared.rest.Rest.{Rest};
    ghost use Rattle.vg_journeys.specs.Accounts.{HandoffFrame};

    ghost Value = { List (Rest HandoffFrame) };

    ghost view = { λ r. r.0.items };
}

impl Rests {
    /// The list of these queues.
    pub fn from_vec(rests: Vec<Rest<HandFrame>>) -> Rests
        ensures { result ≡ rests.items }
    {
        Rests(rests)
    }

    /// The queues as a slice.
    pub fn as_slice(&self) -> &[Rest<HandFrame>]
        ensures { result.now ≡ self.now }
    {
        self.0.as_slice()
    }

    /// The queues as a vector.
    pub fn into_vec(self) -> Vec<Rest<HandFrame>>
        ensures { result.items ≡ self }
    {
        self.0
    }
}
