//! Calls that are to fail.
ghost use Rattle.std.specs.Prelude.{◌≡◌, IsTrue, ◌↔◌};
ghost use Rattle.vg_outside.specs.Calls.{IsDue, CountsOne};

/// Which calls of an object are to fail: the calls are counted from 0, and those of the listed
/// numbers fail.
#[derive(Drop)]
pub struct Calls {
    /// The number of the next call. It stays at the greatest `u64`.
    pub next: u64,
    /// The numbers of the calls that are to fail, in any order.
    pub failing: Vec<u64>,
}

impl Calls {
    /// The calls of a new object.
    pub fn new(failing: Vec<u64>) -> Calls
        ensures next { result.next ≡ 0 }
        ensures failing { result.failing ≡ failing }
    {
        Calls { next: 0, failing }
    }

    /// Counts a call, and tells whether it is to fail.
    pub fn next_fails(&mut self) -> bool
        ensures due { IsTrue result ↔ IsDue self.old }
        ensures counted { CountsOne self.old self.new }
    {
        let call = self.next;
        self.next = call.saturating_add(1);
        self.failing.contains(&call)
    }
}
