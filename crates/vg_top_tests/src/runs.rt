//! A run of one worker over sinks that fail.

use crate::memory_runs::{FRAME, Frame, RUN, WIRE, savefile};
use std::num::NonZeroUsize;
use std::process::Abort;
use std::sync::Wait;
use std::thread::Threads;
use vg_outside::{MemorySink, OpenGate, SureFolder};
use vg_top::vgd_run;

/// The frame with the type of ARP.
const ARP: Frame<'static> = (
    "02fe00000000 020000000001 0806 4500001400000000 4011acd4 c0000201 0a010203",
    34,
);

/// The report of the frame twice, and then the same with the type of ARP.
const REPORT: &str = "vgd report 1\nworkers 1\nbuffers 4096\ngenerations 1\npackets 3\n\
    interface 0 pg0 tx 2\nnode 0 pg-input 3\nnode 1 handoff-dequeue 0\nnode 2 ethernet-input 3\n\
    node 3 ip4-input 0\nnode 4 ip4-lookup 0\nnode 5 ip4-rewrite 0\nnode 6 interface-output 0\n\
    node 7 interface-tx 2\nnode 8 error-drop 1\nerror ethernet-input unknown-type 1\n\
    packet 0 0:0 tx pg0\npacket 1 0:0 tx pg0\npacket 2 0:0 drop ethernet-input unknown-type\nend\n";

/// A run over a sink that takes so many bytes a call, and whose call of this number fails, has printed so many bytes.
fn assert_front<R: Abort + Wait + Threads + Sync + AllocGlobal>(
    rt: &R,
    most: usize,
    failing: u64,
    printed: usize,
) {
    let alloc = rt.alloc();
    let mut folder = SureFolder::new(alloc);
    folder
        .add(
            "c",
            savefile(alloc, &[FRAME, FRAME, ARP])
                .expect(rt, "memory")
                .as_slice(),
        )
        .expect(rt, "memory");
    folder.add("s", WIRE).expect(rt, "memory");
    let mut out = MemorySink::new(
        alloc,
        vec![in alloc; failing].expect(rt, "memory"),
        NonZeroUsize::new(most),
    );
    let done = vgd_run(rt, alloc, &RUN, &mut folder, &mut out, &OpenGate);
    assert_eq!(rt; done.status, 7);
    assert!(rt; done.ran.is_none());
    assert_eq!(rt; Some(out.written()), REPORT.as_bytes().get(..printed));
    assert_eq!(rt; folder.file("t").expect(rt, "no savefile").len(), 124);
}

#[test]
fn a_failed_print_leaves_a_front(rt: HostRuntime) {
    let last = REPORT.len() - 1;
    assert_front(&rt, 100, 0, 0);
    assert_front(&rt, 100, 1, 100);
    assert_front(&rt, 100, last as u64 / 100, last / 100 * 100);
    assert_front(&rt, 1, 0, 0);
    assert_front(&rt, 1, 1, 1);
    assert_front(&rt, 1, last as u64, last);
}
