//! Turns files that are read, and some that are refused.
use std::alloc::Global;
use std::process::Abort;
use vg_turns::{Step, Turns};

#[test]
fn steps_come_in_the_order_of_the_file(rt: HostRuntime) {
    let mut turns = Turns::read(b"0m\t0\r\n1 m", 2).expect(&rt, "no fault");
    assert_eq!(rt; turns.next(), Some(Step::Worker(0)));
    assert_eq!(rt; turns.next(), Some(Step::Main));
    assert_eq!(rt; turns.next(), Some(Step::Worker(0)));
    assert_eq!(rt; turns.next(), Some(Step::Worker(1)));
    assert_eq!(rt; turns.next(), Some(Step::Main));
    assert_eq!(rt; turns.next(), None);
}

// The place of the first fault of a file.
fn place_of(file: &[u8], workers: u8) -> Option<u32> {
    Turns::read(file, workers).err()
}

#[test]
fn a_faulty_file_is_refused_at_its_first_fault(rt: HostRuntime) {
    assert_eq!(rt; place_of(b"01m2", 2), Some(3));
    assert_eq!(rt; place_of(b"1", 1), Some(0));
    assert_eq!(rt; place_of(b"m8", 8), Some(1));
    assert_eq!(rt; place_of(b"7m", 8), None);
    assert_eq!(rt; place_of(b"0M", 1), Some(1));
    assert_eq!(rt; place_of(b"0\x0b", 1), Some(1));
    assert_eq!(rt; place_of(b"", 1), None);
}

// A file of so many spaces.
fn spaces(rt: &impl Abort, alloc: Global, count: usize) -> Vec<u8> {
    Vec::from_elem(alloc, b' ', count).expect(rt, "memory")
}

#[test]
fn a_byte_too_many_is_a_fault(rt: HostRuntime) {
    let file = spaces(&rt, rt.alloc(), 1_048_577);
    assert_eq!(rt; place_of(file.as_slice(), 1), Some(1_048_576));
    let file = spaces(&rt, rt.alloc(), 1_048_576);
    assert_eq!(rt; place_of(file.as_slice(), 1), None);
}
