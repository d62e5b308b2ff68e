//! Runs of workers in threads, whose outcomes were worked out by hand.
ghost use Rattle.std.specs.Prelude.{◌≡◌, ◌≤◌, IfOk, length};
ghost use Rattle.vg_engine.specs.Outcomes.{AreWholeCounts};

use crate::run_tests::{
    Expected, FRAME, HAND, HANDED, KEPT, SENT, TWO, are_expected, captured, have_visits,
};
use std::alloc::Global;
use std::sync::Wait;
use std::test::Fail;
use std::thread::Threads;
use vg_capture::{Capture, Packets};
use vg_engine::{Input, Options, Outcome, links_of, run_threads};
use vg_nodes::Ip4Kinds;
use vg_outside::OpenGate;
use vg_plan::Plan;
use vg_script::parse_script;

/// Runs a packet of [`FRAME`], captured at each of these times, with these options and each worker in a thread of its own.
fn run<R: Wait + Threads + Sync>(
    rt: &R,
    alloc: Global,
    script: &[u8],
    times: &[u32],
    options: Options,
) -> Result<Outcome, Fail>
    requires workers { (1 ≤ options.workers) × (options.workers ≤ 8) }
    requires buffers { options.buffers ≡ 4096 }
    requires queue { (1 ≤ options.queue) × (options.queue ≤ 256) }
    requires burst { (1 ≤ options.burst) × (options.burst ≤ 256) }
    requires trace { options.trace ≤ 256 }
    requires times { length times.now ≤ 1000 }
    ensures { IfOk result (λ outcome. AreWholeCounts outcome.counts) }
{
    let mut packets = Vec::new(alloc);
    for time in times {
        packets.push(captured(alloc, &FRAME, *time)?)?;
    }
    let capture = Capture {
        nanos: false,
        snaplen: 262_144,
        packets: Packets::of(alloc, packets.as_slice())?,
    };
    let plan = Plan::new(alloc, parse_script(alloc, script)?)?;
    let input = Input {
        plan: &plan,
        capture: &capture,
        options: &options,
    };
    let links = links_of(alloc, options.workers, options.queue)?;
    Ok(run_threads(rt, alloc, &input, &Ip4Kinds, links, &OpenGate)?)
}

/// So many workers, with the first packet traced.
fn workers(count: u8) -> Options
    ensures { result ≡ record TWO { workers = count } }
{
    Options {
        workers: count,
        ..TWO
    }
}

#[test]
fn two_threads_hand_packets_over(rt: HostRuntime) -> Result<(), Fail> {
    let outcome = run(&rt, rt.alloc(), HAND, &[0, 0, 0, 0], TWO)?;
    let handed = || Expected::ends(HANDED, SENT);
    let kept = || Expected::ends(KEPT, SENT);
    assert!(rt; are_expected(&outcome, &[handed(), kept(), handed(), kept()]));
    assert!(rt; have_visits(&outcome.counts, &[4, 2, 4, 0, 0, 0, 0, 4, 0, 4]));
    assert_eq!(rt; outcome.sent.len(), 4);
    assert_eq!(rt; outcome.buffers, 4096);
    assert_eq!(rt; outcome.rests.as_slice().len(), 2);
    let traces = outcome.trace.as_slice();
    assert_eq!(rt; traces.len(), 1);
    assert!(rt; traces[0].as_slice() == [0_u16, 9, 1, 2, 7].as_slice());
    Ok(())
}

#[test]
fn one_thread_keeps_its_packets(rt: HostRuntime) -> Result<(), Fail> {
    let outcome = run(&rt, rt.alloc(), HAND, &[0, 0, 0], workers(1))?;
    let kept = || Expected::ends(&[(0, 0)], SENT);
    assert!(rt; are_expected(&outcome, &[kept(), kept(), kept()]));
    assert!(rt; have_visits(&outcome.counts, &[3, 0, 3, 0, 0, 0, 0, 3, 0, 3]));
    assert_eq!(rt; outcome.rests.as_slice().len(), 0);
    assert_eq!(rt; outcome.buffers, 4096);
    Ok(())
}
