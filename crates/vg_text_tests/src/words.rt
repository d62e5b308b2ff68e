use std::alloc::Global;
use std::process::Abort;
use vg_words::laws::{loads_are_in_range, runs_are_in_range};
use vg_words::{Command, Run, read_words};

/// The run that these words ask for.
fn run_of<'a>(rt: &impl Abort, alloc: Global, words: &'a [&'a str]) -> Run<'a> {
    match read_words(alloc, words)
        .expect(rt, "memory")
        .expect(rt, "a command")
    {
        Command::Run(run) => run,
        Command::Load { .. } => panic!(rt; "a load"),
        Command::Check(_) => panic!(rt; "a check"),
    }
}

#[test]
fn names_alone_are_a_plain_run(rt: HostRuntime) {
    runs_are_in_range();
    loads_are_in_range();
    let run = run_of(&rt, rt.alloc(), &["run", "c", "s", "t"]);
    assert_eq!(rt; run.workers, 1);
    assert_eq!(rt; run.buffers, 4_096);
    assert_eq!(rt; run.queue, 64);
    assert_eq!(rt; run.burst, 256);
    assert_eq!(rt; run.trace, 0);
    assert!(rt; run.turns.is_none());
    assert!(rt; run.capture == "c" && run.script == "s" && run.tx == "t");
}

#[test]
fn options_stand_anywhere_behind_run(rt: HostRuntime) {
    let words = ["run", "--workers=2", "--buffers", "768", "c", "s", "t"];
    let run = run_of(&rt, rt.alloc(), &words);
    assert_eq!(rt; run.workers, 2);
    assert_eq!(rt; run.buffers, 768);

    let words = [
        "run",
        "help",
        "--trace",
        "256",
        "s",
        "--burst=1",
        "--queue",
        "256",
        "t=",
        "--turns==v",
    ];
    let run = run_of(&rt, rt.alloc(), &words);
    assert_eq!(rt; run.workers, 1);
    assert_eq!(rt; run.queue, 256);
    assert_eq!(rt; run.burst, 1);
    assert_eq!(rt; run.trace, 256);
    assert!(rt; run.turns.expect(&rt, "turns") == "=v");
    assert!(rt; run.capture == "help" && run.script == "s" && run.tx == "t=");
}

#[test]
fn a_load_has_three_numbers(rt: HostRuntime) {
    let words = ["load", "18446744073709551615", "65536", "8"];
    match read_words(rt.alloc(), &words)
        .expect(&rt, "memory")
        .expect(&rt, "a command")
    {
        Command::Load {
            seed,
            packets,
            workers,
        } => {
            assert_eq!(rt; seed, 18_446_744_073_709_551_615);
            assert_eq!(rt; packets, 65_536);
            assert_eq!(rt; workers, 8);
        }
        Command::Run(_) => panic!(rt; "a run"),
        Command::Check(_) => panic!(rt; "a check"),
    }
}

#[test]
fn a_check_has_four_names_and_a_queue(rt: HostRuntime) {
    let same: [(&[&str], u64); 4] = [
        (&["check", "c", "s", "t", "r"], 64),
        (&["check", "--queue", "1", "c", "s", "t", "r"], 1),
        (&["check", "c", "s", "--queue", "256", "t", "r"], 256),
        (&["check", "c", "s", "t", "r", "--queue=7"], 7),
    ];
    for (words, queue) in same {
        match read_words(rt.alloc(), words)
            .expect(&rt, "memory")
            .expect(&rt, "a command")
        {
            Command::Check(check) => {
                assert_eq!(rt; check.queue, queue);
                assert!(rt; check.capture == "c" && check.script == "s" && check.tx == "t");
                assert!(rt; check.report == "r");
            }
            Command::Run(_) => panic!(rt; "a run"),
            Command::Load { .. } => panic!(rt; "a load"),
        }
    }
}

#[test]
fn frames_are_held_where_it_is_said_once(rt: HostRuntime) {
    let alloc = rt.alloc();
    assert!(rt; !run_of(&rt, alloc, &["run", "c", "s", "t"]).hold);
    assert!(rt; run_of(&rt, alloc, &["run", "--hold", "c", "s", "t"]).hold);
    let words = ["run", "--queue=1", "c", "s", "t", "--hold"];
    let run = run_of(&rt, alloc, &words);
    assert!(rt; run.hold && run.capture == "c" && run.tx == "t");
    assert_eq!(rt; run.queue, 1);
}

#[test]
fn all_other_words_are_no_command(rt: HostRuntime) {
    let faulty: [&[&str]; 40] = [
        &[],
        &["--help"],
        &["help"],
        &["run"],
        &["run", "c", "s"],
        &["run", "c", "s", "t", "u"],
        &["run", "c", "s", ""],
        &["run", "c", "s", "-"],
        &["run", "--", "c", "s", "t"],
        &["run", "-h", "c", "s", "t"],
        &["run", "--help", "c", "s", "t"],
        &["run", "--hold=1", "c", "s", "t"],
        &["run", "--hold", "--hold", "c", "s", "t"],
        &["run", "--queue", "--hold", "c", "s", "t"],
        &["load", "--hold", "0", "1", "1"],
        &["check"],
        &["check", "c", "s", "t"],
        &["check", "c", "s", "t", "r", "u"],
        &["check", "--hold", "c", "s", "t", "r"],
        &["check", "--queue=0", "c", "s", "t", "r"],
        &["check", "--queue=1", "--queue=1", "c", "s", "t", "r"],
        &["check", "c", "s", "t", "r", "--queue"],
        &["run", "--workers", "9", "c", "s", "t"],
        &["run", "--workers", "2", "--buffers", "767", "c", "s", "t"],
        &["run", "--buffers", "767", "--workers", "2", "c", "s", "t"],
        &["run", "--buffers", "16385", "c", "s", "t"],
        &["run", "--queue", "1", "--queue", "1", "c", "s", "t"],
        &["run", "--queue=1", "c", "s", "t", "--queue=1"],
        &["run", "--queue", "0", "c", "s", "t"],
        &["run", "--queue", "00", "c", "s", "t"],
        &["run", "--queue", "+1", "c", "s", "t"],
        &["run", "--queue", "01", "c", "s", "t"],
        &["run", "--queue=", "c", "s", "t"],
        &["run", "--queue=-1", "c", "s", "t"],
        &["run", "--queue", "-1", "c", "s", "t"],
        &["run", "c", "s", "t", "--queue"],
        &["run", "--burst", "257", "c", "s", "t"],
        &["load", "0", "0", "1"],
        &["load", "0", "1", "1", "1"],
        &["load", "18446744073709551616", "1", "1"],
    ];
    for words in faulty {
        assert!(rt;
            read_words(rt.alloc(), words)
                .expect(&rt, "memory")
                .is_none()
        );
    }
}
