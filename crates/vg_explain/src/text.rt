//! What is wrong with a report or a turns file.

/// The sentence for a report that is refused, by the cause that was printed.
pub fn report_fault(cause: &str) -> &'static str {
    match cause {
        "form" =>
            "no such line may stand here: a word is missing, too many or another, or the report ends too early",
        "number" =>
            "a number isn't in decimal digits without leading zeros, or is out of its range",
        "unknown" => "a name isn't declared above, or stands twice, or there is no such error",
        _ => "a running number or an error isn't the next",
    }
}

/// The sentence for a turns file that is refused.
pub fn turns_fault() -> &'static str {
    "a turns file has `m` for main, a digit below the number of workers for a worker, and white space, at most 1048576 bytes in all"
}

/// The sentence for a report or a savefile that a check says no to, by what was printed behind `no`.
pub fn verdict(said: &str) -> &'static str {
    if said.starts_with("report") {
        "the report is no text of a run's report: its first faulty line and the cause are printed"
    } else if said.starts_with("head") {
        "the first lines of the report don't fit the capture, the script or the options"
    } else if said.starts_with("choices") {
        "the packet of this number can't have gone this way over workers and generations"
    } else if said.starts_with("queue") {
        "the queue that refused the packet of this number can't have been full"
    } else if said.starts_with("tx") {
        "the savefile isn't that of the packets' ways"
    } else {
        "the report isn't that of the packets' ways"
    }
}
