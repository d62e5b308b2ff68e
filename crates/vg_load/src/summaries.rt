//! What is printed of a load.
ghost use Rattle.std.specs.Prelude.{◌≡◌, ◌≤◌, IfOk, string_bytes};
ghost use Rattle.vg_load.specs.Summary.{buffers_line, capture_line, first_line, handoff_line, plain_line, summary_of};

use std::alloc::{AllocError, Global};

/// A load: how many packets are made of which number, and how many workers they are sent through.
#[derive(Clone, Copy, Debug)]
pub struct Load {
    /// The number that the packets are made of.
    pub seed: u64,
    /// How many packets there are, at most 65,536.
    pub packets: u32,
    /// The number of workers, 1 to 8.
    pub workers: u8,
}

impl Load {
    #[tactic(auto, unfolding(crate::specs::Summary::first_line))]
    fn first_line(&self, alloc: Global) -> Result<String, AllocError>
        ensures { IfOk result (λ line. string_bytes line ≡ first_line self.now.seed self.now.packets self.now.workers) }
    {
        let Load {
            seed,
            packets,
            workers,
        } = self;
        format!(in alloc; "load {seed} {packets} {workers}\n")
    }

    #[tactic(auto, unfolding(crate::specs::Summary::capture_line))]
    fn capture_line(&self, alloc: Global) -> Result<String, AllocError>
        requires { self.now.packets ≤ 65536 }
        ensures { IfOk result (λ line. string_bytes line ≡ capture_line self.now.packets) }
    {
        let len = 24 + 76 * self.packets;
        format!(in alloc; "capture {len}\n")
    }

    #[tactic(auto, unfolding(crate::specs::Summary::plain_line))]
    fn plain_line(&self, alloc: Global) -> Result<String, AllocError>
        ensures { IfOk result (λ line. string_bytes line ≡ plain_line self.now.packets) }
    {
        let dropped = self.packets / 16;
        let sent = self.packets - dropped;
        format!(in alloc; "plain tx {sent} drop {dropped}\n")
    }
}

#[tactic(auto, unfolding(crate::specs::Summary::handoff_line))]
fn handoff_line(alloc: Global, ended: u32) -> Result<String, AllocError>
    ensures { IfOk result (λ line. string_bytes line ≡ handoff_line ended) }
{
    format!(in alloc; "handoff ended {ended}\n")
}

#[tactic(auto, unfolding(crate::specs::Summary::buffers_line))]
fn buffers_line(alloc: Global, buffers: u32) -> Result<String, AllocError>
    ensures { IfOk result (λ line. string_bytes line ≡ buffers_line buffers) }
{
    format!(in alloc; "buffers {buffers}\n")
}

/// The text that a load prints: its words; the length of its savefile; how many packets are transmitted and dropped without handoffs,
/// which is one of sixteen; how many came to an end with handoffs; and how many buffers were back then.
pub fn summary(alloc: Global, load: &Load, ended: u32, buffers: u32) -> Result<String, AllocError>
    requires { load.now.packets ≤ 65536 }
    ensures { IfOk result (λ text. string_bytes text ≡ summary_of load.now.seed load.now.packets load.now.workers ended buffers) }
{
    let mut text = load.first_line(alloc)?;
    text.push_str(load.capture_line(alloc)?.as_str())?;
    text.push_str(load.plain_line(alloc)?.as_str())?;
    text.push_str(handoff_line(alloc, ended)?.as_str())?;
    text.push_str(buffers_line(alloc, buffers)?.as_str())?;
    text.push_str("end\n")?;
    Ok(text)
}
