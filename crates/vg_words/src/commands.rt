//! What the words of the command line ask for.

/// A run: a capture is sent through the graph of a script.
#[derive(Clone, Copy, Debug)]
pub struct Run<'a> {
    /// The number of workers, 1 to 8.
    pub workers: u8,
    /// The number of buffers, 256 * workers + 256 to 16,384.
    pub buffers: u32,
    /// The number of slots of a queue between two workers, 1 to 256.
    pub queue: u64,
    /// The most packets that a worker draws in one round, 1 to 256.
    pub burst: u32,
    /// The number of packets that are traced, 0 to 256.
    pub trace: u32,
    /// The name of the file that says the workers' turns, where there is one.
    pub turns: Option<&'a str>,
    /// Whether frames that find a queue full are held back, and none of their packets is dropped.
    pub hold: bool,
    /// The name of the savefile that packets are read from.
    pub capture: &'a str,
    /// The name of the graph script.
    pub script: &'a str,
    /// The name of the savefile that transmitted packets are written to.
    pub tx: &'a str,
}

/// A check: a report and a savefile are compared with what the runs put out that there may be.
#[derive(Clone, Copy, Debug)]
pub struct Check<'a> {
    /// The number of slots of a queue between two workers, 1 to 256.
    pub queue: u64,
    /// The name of the savefile that packets were read from.
    pub capture: &'a str,
    /// The name of the graph script.
    pub script: &'a str,
    /// The name of the savefile of the transmitted packets.
    pub tx: &'a str,
    /// The name of the report.
    pub report: &'a str,
}

/// What the words of the command line ask for.
#[derive(Clone, Copy, Debug)]
pub enum Command<'a> {
    /// `run`: a capture is sent through the graph of a script.
    Run(Run<'a>),
    /// `load`: random packets are sent through a graph without handoffs and one with.
    Load {
        /// From which the packets are made.
        seed: u64,
        /// The number of packets, 1 to 65,536.
        packets: u32,
        /// The number of workers, 1 to 8.
        workers: u8,
    },
    /// `check`: a report and a savefile are compared with what the runs put out that there may be.
    Check(Check<'a>),
}
