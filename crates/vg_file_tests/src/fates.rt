//! Logs of fates, and how they are put together.

use crate::checks::{has_length, same};
use std::alloc::Global;
use std::process::Abort;
use vg_fates::{FateList, FateLog, FateRef};
use vg_model::{DropError, End, Leg};

#[test]
fn fates_of_both_kinds_are_read_back(rt: HostRuntime) {
    let first = Leg {
        worker: 2,
        generation: 7,
    };
    let second = Leg {
        worker: 0,
        generation: 8,
    };
    let sent = End::Tx { interface: 1 };
    let refused = End::Dropped {
        node: 9,
        error: DropError::Congestion,
    };
    let mut log = FateLog::new(rt.alloc(), 2).expect(&rt, "memory");
    log.push(5, &[first], None, sent);
    log.push(3, &[first, second], Some(64), refused);
    has_length(&rt, log.len(), 2);
    let fates = log.into_list();
    has_length(&rt, fates.len(), 2);
    match fates.view(0) {
        FateRef::Plain { number, leg, end } => {
            same(&rt, (number, leg, end), (5, first, sent));
        }
        FateRef::Other(_) => panic!(rt; "the first is plain"),
    }
    match fates.view(1) {
        FateRef::Plain { .. } => panic!(rt; "the second isn't plain"),
        FateRef::Other(fate) => {
            same(&rt, fate.legs.as_slice(), [first, second].as_slice());
            same(
                &rt,
                (fate.number, fate.congested, fate.end),
                (3, Some(64), refused),
            );
        }
    }
    let whole = fates.get(0);
    same(&rt, whole.legs.as_slice(), [first].as_slice());
    same(
        &rt,
        (whole.number, whole.congested, whole.end),
        (5, None, sent),
    );
    same(&rt, fates.get(1).congested, Some(64));
}

// A worker's log of three packets: the second went on through another worker, and a queue refused the third.
fn three_fates(rt: &impl Abort, alloc: Global, worker: u8, numbers: [u32; 3]) -> FateList {
    let here = Leg {
        worker,
        generation: 1,
    };
    let there = Leg {
        worker: 9,
        generation: 2,
    };
    let sent = End::Tx { interface: 1 };
    let mut log = FateLog::new(alloc, 3).expect(rt, "memory");
    log.push(numbers[0], &[here], None, sent);
    log.push(numbers[1], &[here, there], None, sent);
    log.push(numbers[2], &[here], Some(64), sent);
    log.into_list()
}

#[test]
fn fates_of_three_logs_lie_in_the_order_of_their_numbers(rt: HostRuntime) {
    let alloc = rt.alloc();
    let first = three_fates(&rt, alloc, 0, [0, 4, 8]);
    let second = three_fates(&rt, alloc, 1, [1, 3, 7]);
    let third = three_fates(&rt, alloc, 2, [2, 5, 6]);
    let lists = vec![in alloc; first, second, third].expect(&rt, "memory");
    let fates = FateList::by_number(alloc, lists).expect(&rt, "memory");
    has_length(&rt, fates.len(), 9);
    for (k, worker) in [0, 1, 2, 1, 0, 2, 2, 1, 0].iter().enumerate() {
        let here = Leg {
            worker: *worker,
            generation: 1,
        };
        let there = Leg {
            worker: 9,
            generation: 2,
        };
        let fate = fates.get(k);
        same(&rt, fate.number as usize, k);
        if k >= 3 && k < 6 {
            same(&rt, fate.legs.as_slice(), [here, there].as_slice());
        } else {
            same(&rt, fate.legs.as_slice(), [here].as_slice());
        }
        same(&rt, fate.congested.is_some(), k >= 6);
    }
}

#[test]
fn fates_with_other_numbers_are_put_in_order_too(rt: HostRuntime) {
    let alloc = rt.alloc();
    let none = FateList::by_number(alloc, Vec::new(alloc)).expect(&rt, "memory");
    has_length(&rt, none.len(), 0);
    let list = three_fates(&rt, alloc, 0, [7, 2, 9]);
    let fates = FateList::by_number(alloc, vec![in alloc; list].expect(&rt, "memory")).expect(
        &rt, "memory",
    );
    has_length(&rt, fates.len(), 3);
    same(&rt, fates.get(0).number, 2);
    has_length(&rt, fates.get(0).legs.as_slice().len(), 2);
    same(&rt, fates.get(1).number, 7);
    same(&rt, fates.get(2).number, 9);
    let first = three_fates(&rt, alloc, 0, [40, 10, 30]);
    let second = three_fates(&rt, alloc, 1, [20, 5, 50]);
    let fates = FateList::by_number(
        alloc,
        vec![in alloc; first, second].expect(&rt, "memory"),
    ).expect(&rt, "memory");
    has_length(&rt, fates.len(), 6);
    for (k, number) in [5, 10, 20, 30, 40, 50].iter().enumerate() {
        same(&rt, fates.get(k).number, *number);
    }
}
