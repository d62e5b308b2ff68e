//! Tests of processes: the events of scripts, as they come due.

use crate::checks::{holds, same};
use std::alloc::Global;
use std::process::Abort;
use vg_model::{Edit, EditLine, Name, Prefix6, RouteWord};
use vg_process::{Due, Processes};
use vg_script::parse_script;

/// A route that goes away and comes back, and another change of it at the time of the first.
const FLAP: &[u8] =
    b"process p every 100 count 3\nunroute 10.0.0.0/8\nthen\nroute 10.0.0.0/8 drop\nroute 10.1.0.0/16 drop\nend\nat 100\nend\n";

/// The processes of a text, with all events left.
fn processes_of(rt: &impl Abort, alloc: Global, text: &[u8]) -> Processes {
    let script = parse_script(alloc, text).expect(rt, "a script");
    Processes::new(alloc, &script).expect(rt, "memory")
}

/// The time and the line of the next event that is due, and how many edits it has.
fn next_due(rt: &impl Abort, processes: &mut Processes, now: u64) -> Option<(u64, u32, usize)> {
    let due = processes.poll(now).expect(rt, "memory");
    due.map(|due: Due| (due.time, due.line, due.edits.as_slice().len()))
}

#[test]
fn an_empty_script_has_no_event(rt: HostRuntime) {
    let mut processes = processes_of(&rt, rt.alloc(), b"");
    same(&rt, processes.next_time(), None);
    same(&rt, next_due(&rt, &mut processes, u64::MAX), None);
}

#[test]
fn events_come_by_time_and_then_by_line(rt: HostRuntime) {
    let mut processes = processes_of(&rt, rt.alloc(), FLAP);
    same(&rt, processes.next_time(), Some(100));
    same(&rt, next_due(&rt, &mut processes, 99), None);
    same(&rt, next_due(&rt, &mut processes, 100), Some((100, 1, 1)));
    same(&rt, next_due(&rt, &mut processes, 100), Some((100, 7, 0)));
    same(&rt, next_due(&rt, &mut processes, 100), None);
    same(&rt, processes.next_time(), Some(200));

    // Where the time goes on further, what is due comes one by one.
    same(&rt, next_due(&rt, &mut processes, 1000), Some((200, 1, 2)));
    same(&rt, next_due(&rt, &mut processes, 1000), Some((300, 1, 1)));
    same(&rt, next_due(&rt, &mut processes, 1000), None);
    same(&rt, processes.next_time(), None);
}

/// Routes over several neighbors, set anew in each period.
const SEVERAL: &[u8] =
    b"process p every 10 count 2\nroute 10.0.0.0/8 via b,a,b\nroute6 2001:db8::/32 via a,c\nunroute6 2001:db8::/32\nend\n";

/// The neighbors that an edit leads a route over; none of another edit.
fn neighbors(edit: &Edit) -> &[Name] {
    match edit {
        Edit::Route { to, .. } | Edit::Route6 { to, .. } => match to {
            RouteWord::Via(names) => names.as_slice(),
            RouteWord::Local | RouteWord::Drop => &[],
        },
        _ => &[],
    }
}

/// The IPv6 prefix of an edit that has one.
fn prefix6(edit: &Edit) -> Option<Prefix6> {
    match edit {
        Edit::Route6 { prefix, .. } | Edit::Unroute6 { prefix } => Some(*prefix),
        _ => None,
    }
}

fn are_named(names: &[Name], texts: &[&str]) -> bool {
    names.len() == texts.len()
        && names
            .iter()
            .zip(texts)
            .all(|(name, text)| name.bytes() == text.as_bytes())
}

const SITE: Prefix6 = Prefix6 {
    addr: 0x2001_0db8_0000_0000_0000_0000_0000_0000,
    len: 32,
};

/// Whether these are the edits of a period.
fn are_several(edits: &[EditLine]) -> bool {
    let [first, second, third] = edits else {
        return false;
    };
    are_named(neighbors(&first.edit), &["b", "a", "b"])
        && are_named(neighbors(&second.edit), &["a", "c"])
        && prefix6(&second.edit) == Some(SITE)
        && prefix6(&third.edit) == Some(SITE)
        && third.line == 4
}

#[test]
fn each_run_has_the_whole_routes(rt: HostRuntime) {
    let mut processes = processes_of(&rt, rt.alloc(), SEVERAL);
    for time in [10, 20] {
        let due = processes.poll(time).expect(&rt, "memory");
        let due = due.expect(&rt, "an event");
        same(&rt, due.time, time);
        holds(&rt, are_several(due.edits.as_slice()));
    }
    same(&rt, next_due(&rt, &mut processes, u64::MAX), None);
}
