//! A report and savefiles of one worker that are checked. Those of two workers and of two generations are rows of `vg_rows`.

use std::alloc::{AllocError, Global};
use std::test::Fail;
use vg_capture::read_capture;
use vg_check::laws::{ip4_never_congests, verdicts_exclude_one_another, yes_is_exact};
use vg_check::{Verdict, check};
use vg_model::Bytes;
use vg_nodes::Ip4Kinds;
use vg_plan::Plan;
use vg_script::parse_script;

/// A savefile of no packets: little-endian, microseconds, version 2.4, snaplen 262,144, Ethernet.
const HEADER: [u8; 24] = [
    0xd4, 0xc3, 0xb2, 0xa1, 2, 0, 4, 0, 0, 0, 0, 0, 0, 0, 0, 0, 0, 0, 4, 0, 1, 0, 0, 0,
];

/// A frame to 10.1.2.3.
const FRAME: [u8; 34] = [
    2, 0xfe, 0, 0, 0, 0, 2, 0, 0, 0, 0, 1, 8, 0, 0x45, 0, 0, 20, 0, 0, 0, 0, 0x40, 0x11, 0xac,
    0xd4, 192, 0, 2, 1, 10, 1, 2, 3,
];

/// The same of another type.
const OTHER: [u8; 34] = [
    2, 0xfe, 0, 0, 0, 0, 2, 0, 0, 0, 0, 1, 8, 6, 0x45, 0, 0, 20, 0, 0, 0, 0, 0x40, 0x11, 0xac,
    0xd4, 192, 0, 2, 1, 10, 1, 2, 3,
];

/// The script that sends each IPv4 frame straight to the interface.
const WIRE: &str = "arc ethernet-input ip4 interface-tx\n";

/// Of three packets, the third of another type.
const WIRED: &str = "vgd report 1
workers 1
buffers 4096
generations 1
packets 3
interface 0 pg0 tx 2
node 0 pg-input 3
node 1 handoff-dequeue 0
node 2 ethernet-input 3
node 3 ip4-input 0
node 4 ip4-lookup 0
node 5 ip4-rewrite 0
node 6 interface-output 0
node 7 interface-tx 2
node 8 error-drop 1
error ethernet-input unknown-type 1
packet 0 0:0 tx pg0
packet 1 0:0 tx pg0
packet 2 0:0 drop ethernet-input unknown-type
end
";

/// Adds a record of a frame at so many microseconds.
fn add(file: &mut Vec<u8>, micros: u16, frame: &[u8]) -> Result<(), AllocError> {
    let [low, high] = micros.to_le_bytes();
    file.extend_from_slice(&[0, 0, 0, 0, low, high, 0, 0])?;
    file.extend_from_slice(&[34, 0, 0, 0, 34, 0, 0, 0])?;
    file.extend_from_slice(frame)?;
    Ok(())
}

/// A savefile of frames with their times.
fn file_of(alloc: Global, frames: &[(u16, [u8; 34])]) -> Result<Vec<u8>, AllocError> {
    let mut file = HEADER.to_vec(alloc)?;
    for (micros, frame) in frames {
        add(&mut file, *micros, frame)?;
    }
    Ok(file)
}

/// What is answered of these.
fn verdict_of(
    alloc: Global,
    script: &str,
    packets: &[(u16, [u8; 34])],
    queue: u64,
    sent: &[(u16, [u8; 34])],
    report: &str,
) -> Result<Verdict, Fail> {
    let capture = file_of(alloc, packets)?;
    let capture = read_capture(alloc, Bytes::from_vec(capture))?;
    let script = parse_script(alloc, script.as_bytes())?;
    let plan = Plan::new(alloc, script)?;
    let tx = file_of(alloc, sent)?;
    ip4_never_congests();
    yes_is_exact();
    verdicts_exclude_one_another();
    let found = check(
        alloc,
        &plan,
        &capture,
        queue,
        &Ip4Kinds,
        tx.as_slice(),
        report.as_bytes(),
    )?;
    Ok(found)
}

#[test]
fn a_run_of_one_worker_is_accepted(rt: HostRuntime) -> Result<(), Fail> {
    let alloc = rt.alloc();
    let packets = [(0, FRAME), (0, FRAME), (0, OTHER)];
    let found = verdict_of(alloc, WIRE, &packets, 64, &[(0, FRAME), (0, FRAME)], WIRED)?;
    assert_eq!(rt; found, Verdict::Yes);
    let found = verdict_of(alloc, WIRE, &packets, 64, &[(0, FRAME), (0, OTHER)], WIRED)?;
    assert_eq!(rt; found, Verdict::Tx);
    let found = verdict_of(alloc, WIRE, &packets, 64, &[(0, FRAME)], WIRED)?;
    assert_eq!(rt; found, Verdict::Tx);
    Ok(())
}
