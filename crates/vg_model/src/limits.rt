//! How much a graph, a capture, a packet and a run may have. Where a definition of this crate has such a number too, one of the
//! [`laws`](crate::laws) says that both are the same.

/// The most nodes of a graph.
pub const MOST_NODES: usize = 64;

/// The most interfaces of a graph.
pub const MOST_INTERFACES: usize = 16;

/// The most adjacencies of a graph.
pub const MOST_ADJACENCIES: usize = 256;

/// The most IPv4 routes of a graph, and the most IPv6 routes.
pub const MOST_ROUTES: usize = 4096;

/// The most adjacencies of a route.
pub const MOST_MEMBERS: usize = 16;

/// The least VLAN id.
pub const LEAST_VLAN: u16 = 1;

/// The greatest VLAN id.
pub const MOST_VLAN: u16 = 4094;

/// The most events of a script, each with a generation of its own behind the first.
pub const MOST_EVENTS: u64 = 999;

/// The latest time of an `at` and the longest period of a process, in microseconds.
pub const LONGEST_TIME: u64 = 1_000_000_000_000;

/// The most packets of a capture.
pub const MOST_PACKETS: usize = 65_536;

/// The most bytes of a packet as it is received; a longer one is dropped as it is drawn. On its way a packet gets longer by no more than
/// the room that it is received with.
pub const LONGEST_PACKET: usize = 9216;

/// How many bytes may be put in front of a packet as it is received.
pub const FIRST_ROOM: usize = 64;

/// For how many bytes of a packet each buffer of its chain has room; the first has room for as many beside [`FIRST_ROOM`].
pub const BUFFER_SIZE: usize = 2048;

/// The most buffers of a chain, so of a packet.
pub const MOST_PIECES: u32 = 5;

/// The most legs of a packet; a further handoff drops it.
pub const MOST_LEGS: usize = 4;

/// The most workers of a run.
pub const MOST_WORKERS: u8 = 8;

/// The most buffers of a run.
pub const MOST_BUFFERS: u32 = 16_384;

/// The most packets of a frame.
pub const FRAME_SIZE: usize = 256;

/// The most frames that wait in the queue from one worker to another.
pub const MOST_SLOTS: u64 = 256;

/// The most packets under way on one worker: those of a frame that it draws, and of one from each worker.
pub const MOST_UNDER_WAY: usize = 2304;

/// The most packets that a run traces.
pub const MOST_TRACED: usize = 256;
