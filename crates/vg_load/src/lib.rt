//! A load: packets made of a number, the scripts that they are sent through, and the text that it prints.
//!
//! In which order to read: `frames`, `packets`, `summaries`, `laws`.
#![tactic(auto)]

mod frames;
pub mod laws;
mod packets;
mod summaries;

pub use packets::load_capture;
pub use summaries::{Load, summary};

/// The script of a load without handoffs: two neighbors, between which the upper half of the addresses changes four times.
pub const PLAIN: &str = "adjacency a interface pg0 dst 02:00:00:00:00:0a\n\
    adjacency b interface pg0 dst 02:00:00:00:00:0b\n\
    route 10.0.0.0/8 via a\n\
    process tick every 1000 count 4\n\
    route 10.128.0.0/9 via b\n\
    then\n\
    route 10.128.0.0/9 via a\n\
    end\n";

/// The script of a load with handoffs: the same, but each packet is first handed over by its flow.
pub const HANDOFF: &str = "node hand kind handoff-flow\n\
    arc hand resume ethernet-input\n\
    arc pg-input out hand\n\
    adjacency a interface pg0 dst 02:00:00:00:00:0a\n\
    adjacency b interface pg0 dst 02:00:00:00:00:0b\n\
    route 10.0.0.0/8 via a\n\
    process tick every 1000 count 4\n\
    route 10.128.0.0/9 via b\n\
    then\n\
    route 10.128.0.0/9 via a\n\
    end\n";
