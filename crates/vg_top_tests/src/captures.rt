//! Captures that are refused, and one of as many packets as may be, over folders and sinks in memory.

use crate::memory_runs::{HEADER, RUN, WIRE, run_over};
use std::alloc::{AllocError, Global};

/// A savefile's header, and zero bytes behind it up to a length: a record of no bytes for each 16.
fn zeros_up_to(alloc: Global, len: usize) -> Result<Vec<u8>, AllocError> {
    let mut file = HEADER.to_vec(alloc)?;
    file.resize(len, 0)?;
    Ok(file)
}

/// The report of that run.
fn report(alloc: Global) -> Result<String, AllocError> {
    let mut report = String::from_str(
        alloc,
        "vgd report 1\nworkers 1\nbuffers 4096\ngenerations 1\npackets 65536\n\
        interface 0 pg0 tx 0\nnode 0 pg-input 65536\nnode 1 handoff-dequeue 0\n\
        node 2 ethernet-input 65536\nnode 3 ip4-input 0\nnode 4 ip4-lookup 0\nnode 5 ip4-rewrite 0\n\
        node 6 interface-output 0\nnode 7 interface-tx 0\nnode 8 error-drop 65536\n\
        error ethernet-input short 65536\n",
    )?;
    for number in 0..65_536_u32 {
        let line = format!(in alloc; "packet {number} 0:0 drop ethernet-input short\n")?;
        report.push_str(line.as_str())?;
    }
    report.push_str("end\n")?;
    Ok(report)
}

#[test]
fn as_many_packets_as_may_be_are_run(rt: HostRuntime) {
    let alloc = rt.alloc();
    let report = report(alloc).expect(&rt, "memory");
    let capture = zeros_up_to(alloc, 1_048_600).expect(&rt, "memory");
    let ran = run_over(&rt, &RUN, capture.as_slice(), WIRE);
    assert_eq!(rt; ran.status, 0);
    assert_eq!(rt; ran.printed.as_slice(), report.as_str().as_bytes());
    assert_eq!(rt;
        ran.tx.expect(&rt, "no savefile").as_slice(),
        HEADER.as_slice()
    );
}
