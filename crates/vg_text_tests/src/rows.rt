//! Rows of tests: what is said of a line that is refused, and of a call that differs from its row.

use std::alloc::Global;
use std::process::Abort;
use std::test::Fail;
use vg_row::{Cause, Difference, Fault, Outcome, difference_of, read_rows};

/// A text of these lines is refused at this line for this cause.
fn assert_fault(rt: &impl Abort, alloc: Global, lines: &[&str], line: usize, cause: Cause) {
    match read_rows(alloc, lines) {
        Ok(_) => assert!(rt; false, "{cause}"),
        Err(fault) => assert_eq!(rt; fault, Fault { line, cause }),
    }
}

#[test]
fn a_faulty_line_is_named(rt: HostRuntime) -> Result<(), Fail> {
    let alloc = rt.alloc();
    assert_fault(&rt, alloc, &["# ", "call run"], 2, Cause::Line);
    assert_fault(&rt, alloc, &["part a", "hex 0g"], 2, Cause::Digits);
    assert_fault(&rt, alloc, &["part a hex 012"], 1, Cause::Digits);
    assert_fault(&rt, alloc, &["part a zeros x"], 1, Cause::Number);
    assert_fault(&rt, alloc, &["part a as b"], 1, Cause::Part);
    assert_fault(
        &rt,
        alloc,
        &["part a text x", "", "change y => z"],
        3,
        Cause::Change,
    );
    assert_fault(
        &rt,
        alloc,
        &["row r", "prints | yes", "row s"],
        2,
        Cause::Call,
    );
    assert_fault(&rt, alloc, &["row r", "call run"], 2, Cause::Printed);
    let checked = ["row r", "call run", "prints | yes", "checked"];
    assert_fault(&rt, alloc, &checked, 4, Cause::Checked);
    Ok(())
}

#[test]
fn a_difference_is_named(rt: HostRuntime) -> Result<(), Fail> {
    let alloc = rt.alloc();
    let lines = [
        "row r",
        "call run",
        "status 2",
        "prints | one",
        "| two",
        "saves hex 0102",
    ];
    let rows = read_rows(alloc, &lines)?;
    let row = rows.first().ok_or("no row")?;
    let mut outcome = Outcome {
        status: 2,
        printed: b"one\ntwo\n".to_vec(alloc)?,
        saved: Some(vec![in alloc; 1, 2]?),
    };
    assert_eq!(rt; difference_of(row, &outcome), None);
    outcome.saved = Some(vec![in alloc; 1, 3]?);
    assert_eq!(rt; difference_of(row, &outcome), Some(Difference::Saved(1)));
    outcome.saved = None;
    assert_eq!(rt; difference_of(row, &outcome), Some(Difference::NotSaved));
    outcome.printed = b"one\ntow\n".to_vec(alloc)?;
    assert_eq!(rt; difference_of(row, &outcome), Some(Difference::Printed(2)));
    outcome.status = 0;
    assert_eq!(rt; difference_of(row, &outcome), Some(Difference::Status(0)));
    Ok(())
}
