//! VLAN tags and cross-connects, over folders and sinks in memory. What is saved and printed was worked out by hand.

use crate::memory_runs::{HEADER, WORKERS, bytes_of, saved_by};
use std::alloc::{AllocError, Global};

/// A handoff by the destination between the node that takes a tag off and the one that puts one on.
const BETWEEN: &str = "node cut kind dot1q-match-100\nnode hand kind handoff-dst\n\
    node tag kind dot1q-push-200\narc tag out interface-tx\narc hand resume tag\n\
    arc cut match hand\narc pg-input out cut\n";

/// Adds the record of a datagram with this tag to 10.1.2.0 or one of the next seven hosts.
fn add(alloc: Global, file: &mut Vec<u8>, tag: &str, host: u8) -> Result<(), AllocError> {
    let text = format!(in alloc;
        "02fe00000000 020000000001 {tag} 0800 4500001400000000 40110000 c0000201 0a01020{host}"
    )?;
    let bytes = bytes_of(alloc, text.as_str())?;
    file.extend_from_slice(&[0; 8])?;
    file.extend_from_slice(&38_u32.to_le_bytes())?;
    file.extend_from_slice(&38_u32.to_le_bytes())?;
    file.extend_from_slice(bytes.as_slice())
}

// Eight datagrams of VLAN 100 to hosts 10.1.2.0 to 10.1.2.7: any workers save them as VLAN 200, in order, and a check says yes.
#[test]
fn any_workers_save_the_same_tags(rt: HostRuntime) {
    let alloc = rt.alloc();
    let mut capture = HEADER.to_vec(alloc).expect(&rt, "memory");
    let mut saved = HEADER.to_vec(alloc).expect(&rt, "memory");
    for host in 0..8_u8 {
        add(alloc, &mut capture, "8100 2064", host).expect(&rt, "memory");
        add(alloc, &mut saved, "8100 00c8", host).expect(&rt, "memory");
    }
    for workers in WORKERS {
        for in_threads in [false, true] {
            let tx = saved_by(
                &rt,
                capture.as_slice(),
                BETWEEN.as_bytes(),
                b"0m00",
                workers,
                in_threads,
            );
            assert!(rt; tx == saved);
        }
    }
}
