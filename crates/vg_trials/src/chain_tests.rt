//! A run of packets over one buffer to five, and where their buffers came from and went to, worked out by hand.
ghost use Rattle.std.specs.Prelude.{IfOk};
ghost use Rattle.vg_engine.specs.Outcomes.{AreWholeCounts};

use crate::run_tests::{Expected, FRAME, HAND, HANDED, KEPT, SENT, TWO, are_expected, have_visits};
use std::alloc::{AllocError, Global};
use std::process::Abort;
use std::sync::Wait;
use std::test::Fail;
use vg_capture::{Capture, Captured, Packets};
use vg_engine::{Input, Outcome, links_of, run_turns};
use vg_model::{Bytes, DropError, End};
use vg_nodes::Ip4Kinds;
use vg_outside::OpenGate;
use vg_plan::Plan;
use vg_script::parse_script;

/// [`FRAME`] with so many bytes: others than zero stand behind it.
fn captured(alloc: Global, len: u16) -> Result<Captured, AllocError> {
    let mut bytes = FRAME.to_vec(alloc)?;
    bytes.resize(usize::from(len), 7)?;
    Ok(Captured {
        seconds: 0,
        fraction: 0,
        original: u32::from(len),
        bytes: Bytes::from_vec(bytes),
    })
}

/// Runs packets of these lengths on two workers by turns. They are handed to worker 1.
fn run<R: Abort + Wait>(rt: &R, alloc: Global, lens: &[u16]) -> Result<Outcome, Fail>
    ensures { IfOk result (λ outcome. AreWholeCounts outcome.counts) }
{
    let mut packets = Vec::new(alloc);
    for len in lens {
        packets.push(captured(alloc, *len)?)?;
    }
    assert!(rt; packets.len() < 100);
    let capture = Capture {
        nanos: false,
        snaplen: 262_144,
        packets: Packets::of(alloc, packets.as_slice())?,
    };
    let plan = Plan::new(alloc, parse_script(alloc, HAND)?)?;
    let input = Input {
        plan: &plan,
        capture: &capture,
        options: &TWO,
    };
    let links = links_of(alloc, TWO.workers, TWO.queue)?;
    Ok(run_turns(rt, alloc, &input, &Ip4Kinds, links, &OpenGate, b"")?)
}

// Packets 0 and 2 are worker 0's, and take five buffers and one out of its cache. Packets 1 and 3 are worker 1's: packet 1 is too long, takes one
// buffer and ends there, and packet 3 takes two. All others end on worker 1 too, so all nine buffers go into its cache.
#[test]
fn the_buffers_of_a_chain_go_to_the_worker_where_its_packet_ends(
    rt: HostRuntime,
) -> Result<(), Fail> {
    let lens = [9216, 9217, 60, 2049];
    let outcome = run(&rt, rt.alloc(), &lens)?;
    let too_long = End::Dropped {
        node: 0,
        error: DropError::TooLong,
    };
    assert!(rt;
        are_expected(
            &outcome,
            &[
                Expected::ends(HANDED, SENT),
                Expected::ends(KEPT, too_long),
                Expected::ends(HANDED, SENT),
                Expected::ends(KEPT, SENT),
            ]
        )
    );
    assert!(rt; have_visits(&outcome.counts, &[4, 2, 3, 0, 0, 0, 0, 3, 1, 3]));
    assert_eq!(rt; outcome.buffers, 4096);
    assert_eq!(rt; outcome.settled.allocated(), 9);
    let caches = outcome.settled.caches();
    assert_eq!(rt; caches.len(), 2);
    assert_eq!(rt; (caches[0].allocated, caches[0].freed), (6, 0));
    assert_eq!(rt; (caches[1].allocated, caches[1].freed), (3, 9));

    // Each packet that was sent has all its bytes.
    assert_eq!(rt; outcome.sent.len(), 3);
    for (place, number, len) in [(0_usize, 0_u32, 9216_u16), (1, 2, 60), (2, 3, 2049)] {
        assert!(rt; place < outcome.sent.len());
        let (sent, bytes) = outcome.sent.get(place);
        assert_eq!(rt; sent, number);
        assert!(rt; bytes == captured(rt.alloc(), len)?.bytes.as_slice());
    }
    Ok(())
}
