//! Frames that are handed over.
ghost use Rattle.std.specs.Prelude.{◌≡◌, ◌≤◌, length, sum_by};
ghost use Rattle.vg_model.specs.Valid.{extent};
ghost use Rattle.vg_pool.specs.Contents.{Contents};
ghost use Rattle.vg_journeys.specs.Accounts.{HandoffFrame};
ghost use Rattle.vg_hands.specs.Handed.{MayBeHanded, IsHandFrame};

use crate::packets::{HandPackets, know_chains};
use std::marker::Model;

/// Packets that a handoff node of one worker hands to another. Each has one to three legs, of which the last is of one generation.
#[derive(Drop)]
pub struct HandFrame {
    node: u16,
    generation: u32,
    packets: HandPackets,
}

impl Model for HandFrame {
    ghost use Rattle.vg_journeys.specs.Accounts.{HandoffFrame};
    ghost use Rattle.vg_hands.specs.Handed.{IsHandFrame};

    ghost Value = { HandoffFrame };

    ghost view = { λ f. record { node = f.node; generation = f.generation; packets = f.packets } };

    ghost invariant = { λ f. IsHandFrame (record { node = f.node; generation = f.generation; packets = f.packets }) };
}

impl HandFrame {
    /// The packets that this node hands over, under this generation. It touches the block of each.
    pub fn new(node: u16, generation: u32, packets: HandPackets) -> HandFrame
        requires { MayBeHanded (record { node = node; generation = generation; packets = packets }) }
        ensures frame { result ≡ record { node = node; generation = generation; packets = packets } }
        ensures kept { IsHandFrame result }
    {
        know_chains(&packets);
        HandFrame {
            node,
            generation,
            packets: packets.oldest_first(),
        }
    }

    /// The node that hands its packets over.
    pub fn node(&self) -> u16
        ensures { result ≡ self.now.node }
    {
        self.node
    }

    /// The generation of the last leg of each packet.
    pub fn generation(&self) -> u32
        ensures generation { result ≡ self.now.generation }
        ensures kept { IsHandFrame self.now }
    {
        self.generation
    }

    /// How many packets it has: one at least.
    pub fn count_packets(&self) -> usize
        ensures count { result ≡ length self.now.packets }
        ensures some { 1 ≤ result }
    {
        self.packets.len()
    }

    /// How many bytes its packets and their rooms have together.
    pub fn count_bytes(&self) -> usize
        ensures { result ≡ sum_by (λ (c : Contents). extent c.packet) self.now.packets }
    {
        self.packets.count_bytes()
    }

    /// Its packets.
    pub fn into_packets(self) -> HandPackets
        ensures packets { result ≡ self.packets }
        ensures kept { IsHandFrame self }
    {
        self.packets
    }
}
