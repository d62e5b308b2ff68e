//! What main and the threads of the workers post for each other beside the barrier.
//!
//! No decision of a run rests on it: it says only which thread gives a worker its turns, when main asks the workers to park, and when
//! a thread that waits looks again.
ghost use Rattle.std.specs.Prelude.{◌≡◌, IfOk, vec_len};

use crate::patience::{Bed, Patience};
use crossbeam_utils::CachePadded;
use std::alloc::Global;
use std::sync::Wait;
use std::sync::atomic::{AtomicBool, AtomicU64, Ordering};
use std::time::Duration;
use vg_model::Memory;

/// How many microseconds a worker sleeps at most before it looks again: nobody wakes it where buffers come back to an empty pool.
const WORKERS_NAP: u64 = 100;

/// How many microseconds main sleeps at most before it looks again.
const MAINS_NAP: u64 = 1_000;

/// What main and the thread of one worker post for each other.
#[derive(Drop)]
pub struct Post {
    refused: AtomicBool,
    mark: AtomicU64,
    bed: CachePadded<Bed>,
}

impl Post {
    // One by which nothing was told.
    fn new() -> Post {
        Post {
            refused: AtomicBool::new(false),
            mark: AtomicU64::new(0),
            bed: CachePadded::new(Bed::new()),
        }
    }

    /// Tells that no thread could be made for the worker.
    pub(crate) fn refuse(&self) {
        self.refused.store(true, Ordering::SeqCst);
    }

    /// Whether no thread could be made for the worker.
    pub(crate) fn is_refused(&self) -> bool {
        self.refused.load(Ordering::SeqCst)
    }

    /// Tells the number of the next packet that the worker draws.
    pub(crate) fn tell(&self, mark: u64) {
        self.mark.store(mark, Ordering::SeqCst);
    }

    // Whether the worker has told that it has drawn its packets below this limit.
    fn has_drawn(&self, limit: u64) -> bool {
        self.mark.load(Ordering::SeqCst) >= limit
    }
}

/// What main posts for all workers, and where it sleeps.
#[derive(Drop)]
struct MainsPost {
    limit: AtomicU64,
    bed: Bed,
}

/// The posts of main and of all workers.
#[derive(Drop)]
pub struct Posts {
    /// One for each worker, by number, on lines of the cache of its own.
    pub workers: Vec<CachePadded<Post>>,
    main: CachePadded<MainsPost>,
}

impl Posts {
    /// Whether each worker has posted that it has drawn its packets below this limit.
    pub(crate) fn have_drawn(&self, limit: u64) -> bool {
        self.workers.iter().all(|post| post.has_drawn(limit))
    }

    /// Tells the limit below which the workers draw packets.
    pub(crate) fn tell_limit(&self, limit: u64) {
        self.main.limit.store(limit, Ordering::SeqCst);
    }

    /// Wakes all workers.
    pub(crate) fn wake_workers(&self) {
        for post in &self.workers {
            post.bed.wake();
        }
    }

    /// Wakes the workers that are seen to sleep.
    pub(crate) fn wake_sleepers(&self) {
        for post in &self.workers {
            post.bed.wake_sleeper();
        }
    }

    /// Passes a while in main's thread.
    pub(crate) fn let_main_wait<R: Wait>(&self, rt: &R, patience: &mut Patience) {
        patience.pass(rt, &self.main.bed, Duration::from_micros(MAINS_NAP));
    }
}

/// The post of one worker, among those of all.
#[derive(Clone, Copy)]
pub(crate) struct Desk<'a> {
    pub own: &'a Post,
    pub all: &'a Posts,
}

impl<'a> Desk<'a> {
    /// The limit below which the worker draws packets.
    pub(crate) fn limit(self) -> u64 {
        self.all.main.limit.load(Ordering::SeqCst)
    }

    /// Wakes main, where it sleeps.
    pub(crate) fn wake_main(self) {
        self.all.main.bed.wake();
    }

    /// Passes a while in the worker's thread.
    pub(crate) fn let_worker_wait<R: Wait>(self, rt: &R, patience: &mut Patience) {
        patience.pass(rt, &self.own.bed, Duration::from_micros(WORKERS_NAP));
    }
}

/// Posts for so many workers.
///
/// # Errors
///
/// [`Memory`] where memory runs out.
pub fn posts_of(alloc: Global, workers: usize) -> Result<Posts, Memory>
    ensures { IfOk result (λ posts. vec_len posts.workers ≡ workers) }
{
    let mut posts = Vec::with_capacity(alloc, workers)?;
    for _i in 0..workers {
        posts.push_reserved(CachePadded::new(Post::new()));
    }
    Ok(Posts {
        workers: posts,
        main: CachePadded::new(MainsPost {
            limit: AtomicU64::new(0),
            bed: Bed::new(),
        }),
    })
}
