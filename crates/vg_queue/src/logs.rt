//! The rule of the queue, and what the passes know.
ghost use Rattle.std.specs.Prelude.{◌≡◌};

use crossbeam_queue::protocol::{Join, Lesson, Outcome, Protocol, Split};
use crossbeam_queue::{Pass, RuledArrayQueue};
use std::alloc::Global;
use std::collections::LinkedList;

/// What the owner of a pass knows. It stands in proofs alone, and no value of it is made.
pub struct Log<T> {
    pub puts: bool,
    pub takes: bool,
    /// The items that this pass put, if it puts.
    pub put: LinkedList<T>,
    /// The items that this pass took, if it takes.
    pub taken: LinkedList<T>,
}

/// The rule of the queue.
pub struct InOrder;

impl<T> Protocol<T, Log<T>> for InOrder {
    ghost use Rattle.vg_queue.specs.Rule.{IsLine, opening};

    ghost holds = { IsLine };

    ghost first = { opening };
}

/// The queue under its rule.
pub type Line<T> = RuledArrayQueue<T, Log<T>, InOrder, Global>;

/// A right to call the queue.
pub type LinePass<T> = Pass<T, Log<T>>;

/// The first pass is cut into the producer's and the consumer's.
pub struct Part;

impl<T> Split<Log<T>> for Part {
    ghost use Rattle.vg_queue.specs.Rule.{producer_of, consumer_of};

    ghost left = { producer_of };

    ghost right = { consumer_of };
}

/// The consumer's pass takes the producer's in.
pub struct Come;

impl<T> Join<Log<T>> for Come {
    ghost use Rattle.vg_queue.specs.Rule.{joined, spent};

    ghost both = { joined };

    ghost spent = { spent };
}

/// An item is put.
pub struct Put;

impl<T> Outcome<T, Log<T>> for Put {
    ghost use Rattle.vg_queue.specs.Rule.{with_put};

    ghost then = { λ log item after. after ≡ with_put log item };
}

impl<T> Lesson<T, Log<T>> for Put {
    ghost use Rattle.vg_queue.specs.Rule.{HoldsLast};

    ghost fact = { λ log items. HoldsLast log.put items };
}

/// An item is taken.
pub struct Take;

impl<T> Outcome<T, Log<T>> for Take {
    ghost use Rattle.vg_queue.specs.Rule.{TookOldest};

    ghost then = { TookOldest };
}

impl<T> Lesson<T, Log<T>> for Take {
    ghost use Rattle.vg_queue.specs.Rule.{HoldsRest};

    ghost fact = { HoldsRest };
}
