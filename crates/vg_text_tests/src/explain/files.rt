//! What a file is that is refused: a capture, a script, a report, turns.

use std::test::Fail;
use vg_explain::{capture_fault, report_fault, turns_fault};

#[test]
fn a_capture_is_said_to_be_what_was_found(rt: HostRuntime) -> Result<(), Fail> {
    let alloc = rt.alloc();
    let mut head = [0u8; 24];
    head[0] = 0xd4;
    head[20] = 113;
    let text = capture_fault(alloc, "link-type", "20", &head)?;
    assert!(rt;
        text.as_str()
            .starts_with("its link type is 113, and 1, Ethernet, is wanted")
    );
    head[0] = 0x0a;
    head[1] = 0x0d;
    head[2] = 0x0d;
    head[3] = 0x0a;
    let text = capture_fault(alloc, "not-pcap", "0", &head)?;
    assert!(rt; text.as_str().starts_with("it is a pcapng file"));
    assert!(rt;
        !report_fault("form").is_empty()
            && !turns_fault().is_empty()
            && !vg_explain::verdict("tx").is_empty()
    );
    Ok(())
}
