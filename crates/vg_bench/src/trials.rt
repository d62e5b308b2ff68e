//! What a trial is.
ghost use Rattle.std.specs.Prelude.{◌≤◌, IfSome};
ghost use Rattle.vg_dispatch.specs.Progress.{AreInRange};

use vg_engine::Options;

/// A number of runs with these options.
#[derive(Drop)]
pub struct Trial {
    pub options: Options,
    /// Whether each worker has a thread of its own; else they have turns on one.
    pub threads: bool,
    pub runs: u32,
    ghost ranged: { AreInRange options },
}

// The number of a word, where it is one from 1 to this limit.
fn number_to(word: &str, most: u32) -> Option<u32>
    ensures { IfSome result (λ number. (1 ≤ number) × (number ≤ most)) }
{
    let number: u32 = word.parse().ok()?;
    if number == 0 || number > most {
        return None;
    }
    Some(number)
}

/// The trial that the words behind the first two ask for: how many workers there are, `turns` or `threads`, how many packets a worker
/// draws at once, and how many runs are made.
pub fn read_trial(words: &[String]) -> Option<Trial> {
    if words.len() != 6 {
        return None;
    }
    let workers = number_to(words[2].as_str(), 8)?;
    let threads = match words[3].as_str() {
        "threads" => true,
        "turns" => false,
        _ => return None,
    };
    let burst = number_to(words[4].as_str(), 256)?;
    let runs = number_to(words[5].as_str(), 1_000_000)?;
    Some(Trial {
        options: Options {
            workers: workers as u8,
            buffers: 4096,
            queue: 64,
            burst,
            trace: 0,
        },
        threads,
        runs,
    })
}
