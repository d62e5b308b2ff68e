//! Which packets are due in which generation.
ghost use Rattle.std.specs.Prelude.{◌≡◌, ◌<◌, [], ◌∷◌, ◌++◌, length, replicate, slice_index_or, slice_set, IfOk, OnOk};

use std::alloc::{AllocError, Global};
use std::marker::Model;
use std::mem::replace;

/// For each generation the numbers of packets whose next leg is of it. It is seen as these lists of numbers.
#[derive(Drop)]
pub(crate) struct Schedule {
    alloc: Global,
    numbers: Vec<Vec<u32>>,
}

impl Model for Schedule {
    ghost use Rattle.std.specs.Prelude.{List, ℕ, map};

    ghost Value = { List (List ℕ) };

    ghost view = { λ s. map (λ numbers. numbers.items) s.numbers.items };
}

impl Schedule {
    // For so many generations, with no packet in any.
    pub(crate) fn new(alloc: Global, generations: u32) -> Result<Schedule, AllocError>
        ensures { IfOk result (λ schedule. schedule ≡ replicate generations []) }
    {
        let mut numbers = Vec::with_capacity(alloc, generations as usize)?;
        for _ in 0..generations {
            numbers.push(Vec::new(alloc))?;
        }
        Ok(Schedule { alloc, numbers })
    }

    // Puts a packet behind the others of a generation.
    pub(crate) fn put(&mut self, generation: u32, number: u32) -> Result<(), AllocError>
        requires { generation < length self.old }
        ensures { OnOk result (self.new ≡ slice_set self.old generation (slice_index_or self.old generation [] ++ number ∷ [])) }
    {
        self.numbers[generation as usize].push(number)?;
        Ok(())
    }

    // Takes the packets of a generation out.
    pub(crate) fn take(&mut self, generation: u32) -> Vec<u32>
        requires { generation < length self.old }
        ensures numbers { result.items ≡ slice_index_or self.old generation [] }
        ensures left { self.new ≡ slice_set self.old generation [] }
    {
        let none = Vec::new(self.alloc);
        replace(&mut self.numbers[generation as usize], none)
    }
}
