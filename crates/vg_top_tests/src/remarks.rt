//! What is remarked of a run stands at its end.

use crate::memory_runs::{Frame, RUN, run_over, savefile};

/// A datagram to the limited broadcast.
const BROADCAST: Frame<'static> = (
    "02fe00000000 020000000001 0800 4500001400000000 4011b8d8 c0000201 ffffffff",
    34,
);

/// A router's script, with a filter and an event that do nothing.
const SCRIPT: &[u8] =
    b"adjacency east interface pg0 dst 02:00:00:00:00:09\nroute 0.0.0.0/0 via east\n\
    interface two mac 02:fe:00:00:00:02 mtu 1500 up filter\nat 10\nend\n";

#[test]
fn what_is_remarked_of_a_run_stands_at_its_end(rt: HostRuntime) {
    let capture = savefile(rt.alloc(), &[BROADCAST, BROADCAST]).expect(&rt, "memory");
    let ran = run_over(&rt, &RUN, capture.as_slice(), SCRIPT);
    assert_eq!(rt; ran.status, 0);
    let remarks = ran
        .ran
        .expect(&rt, "no end")
        .remarks
        .expect(&rt, "no remarks");
    assert_eq!(rt; remarks.congested, 0);
    assert_eq!(rt; remarks.late.count, 1);
    assert_eq!(rt; remarks.filters.count, 1);
    assert_eq!(rt; remarks.filters.first, Some(3));
    assert_eq!(rt; remarks.unforwarded.count, 2);
}
