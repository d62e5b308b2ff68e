//! Reading the text of a report.
ghost use Rattle.std.specs.Prelude.{◌≡◌, ◌+◌, ◌-◌, ◌<◌, ◌≤◌, ◌^◌, length, OnOk, IfOk};
ghost use Rattle.vg_report.specs.declared.reports.Report.{Report as ReportValue};
ghost use Rattle.vg_report.specs.Answers.{IsNext, line_found, line_answer, Says, Goes, refusal_at, with_end, IsHead};
ghost use Rattle.vg_report.specs.Forms.{title_form, count_form};
ghost use Rattle.vg_report.specs.Reading.{may_follow as can_follow, said_form, line_form, a_line, head_of, begun as begun_by, report_behind, ended, Answers, AnswersRead};
ghost use Rattle.vg_report.specs.SoFar.{IsSoFar};

use crate::errors::{ReportCause, ReportError};
use crate::kinds::LineKind;
use crate::lines;
use crate::lists::{ErrorCounts, NameCounts, PacketLines, TraceLines};
use crate::parts::{Parts, cut_at_first};
use crate::reports::Report;
use std::alloc::{AllocError, Global};
use std::marker::Model;
use vg_model::limits::{
    MOST_BUFFERS, MOST_EVENTS, MOST_INTERFACES, MOST_NODES, MOST_PACKETS, MOST_TRACED, MOST_WORKERS,
};

/// A line, and whether it has its line feed.
#[derive(Drop)]
struct Line<'a> {
    bytes: &'a [u8],
    number: u32,
    fed: bool,
}

/// The text from a line on.
#[derive(Drop)]
struct Lines<'a> {
    rest: &'a [u8],
    number: u32,
}

impl<'a> Model for Lines<'a> {
    ghost use Rattle.vg_report.specs.Reading.{Rest, text_of};

    ghost Value = { Rest };

    ghost view = { λ l. record { number = l.number; text = text_of l.rest.now } };
}

/// What the first five lines say.
#[derive(Drop)]
struct Head {
    workers: u8,
    buffers: u32,
    generations: u32,
    packets: u32,
}

impl<'a> Line<'a> {
    /// What is answered where this is read of the line.
    fn checked<X: Drop>(&self, read: Result<X, ReportCause>) -> Result<X, ReportError>
        ensures { result ≡ line_answer self.now.fed self.now.number read }
    {
        let line = self.number;
        match read {
            Ok(value) if self.fed => Ok(value),
            Ok(_) => Err(ReportError {
                line,
                cause: ReportCause::Form,
            }),
            Err(cause) => Err(ReportError { line, cause }),
        }
    }

    /// The refusal of the line; want of memory is no line's.
    fn refused(&self, cause: ReportCause) -> ReportError
        ensures { result ≡ refusal_at self.now.number cause }
    {
        match cause {
            ReportCause::Memory => ReportError { line: 0, cause },
            _ => ReportError {
                line: self.number,
                cause,
            },
        }
    }
}

impl<'a> Lines<'a> {
    ghost use Rattle.vg_report.specs.Reading.{text_of};

    /// The lines of a text.
    fn of(text: &'a [u8]) -> Lines<'a>
        ensures { result ≡ record { number = 1; text = text_of text.now } }
    {
        Lines {
            rest: text,
            number: 1,
        }
    }

    /// The next line. Behind a line that has no line feed there is none.
    fn next(&mut self) -> Line<'a>
        requires { self.old.number < 2 ^ 32 - 1 }
        ensures number { result.number ≡ self.old.number }
        ensures next { IsNext self.old result.bytes.now result.fed self.new }
    {
        let number = self.number;
        match cut_at_first(self.rest, b'\n') {
            Some((bytes, rest)) => {
                *self = Lines {
                    rest,
                    number: number + 1,
                };
                Line {
                    bytes,
                    number,
                    fed: true,
                }
            }
            None => Line {
                bytes: self.rest,
                number,
                fed: false,
            },
        }
    }

    /// The first line.
    fn title(&mut self) -> Result<(), ReportError>
        requires { self.old.number < 2 ^ 32 - 1 }
        ensures value { a_line title_form self.old ≡ line_found result self.new }
        ensures next { OnOk result (self.new.number ≡ self.old.number + 1) }
    {
        let line = self.next();
        let read = lines::title(&mut Parts::of(line.bytes, b' '));
        line.checked(read)
    }

    /// A line of a fixed word and a number in its range.
    fn count(&mut self, word: &str, least: u64, most: u64) -> Result<u64, ReportError>
        requires { self.old.number < 2 ^ 32 - 1 }
        ensures value { a_line (count_form word.now least most) self.old ≡ line_found result self.new }
        ensures next { OnOk result (self.new.number ≡ self.old.number + 1) }
        ensures within { IfOk result (λ number. (least ≤ number) × (number ≤ most)) }
    {
        let line = self.next();
        let read = lines::count(&mut Parts::of(line.bytes, b' '), word, least, most);
        line.checked(read)
    }

    /// The first five lines.
    fn head(&mut self) -> Result<Head, ReportError>
        requires { self.old.number ≡ 1 }
        ensures value { head_of self.old ≡ line_found result self.new }
        ensures next { OnOk result (self.new.number ≡ 6) }
        ensures head { IfOk result (λ head. IsHead head) }
    {
        self.title()?;
        let workers = self.count("workers", 1, MOST_WORKERS as u64)? as u8;
        let buffers = self.count("buffers", 0, MOST_BUFFERS as u64)? as u32;
        let generations = self.count("generations", 1, MOST_EVENTS + 1)? as u32;
        let packets = self.count("packets", 0, MOST_PACKETS as u64)? as u32;
        Ok(Head {
            workers,
            buffers,
            generations,
            packets,
        })
    }

    /// One more line of a report of so many packets in all: whether the report goes on with it.
    fn further(
        &mut self,
        alloc: Global,
        report: &mut Report,
        packets: u32,
    ) -> Result<bool, ReportError>
        requires room { self.old.number < 2 ^ 32 - 1 }
        requires so_far { IsSoFar packets report.old }
        ensures { Goes packets report.old self.old result report.new self.new }
    {
        let line = self.next();
        match said(alloc, report, packets, &mut Parts::of(line.bytes, b' ')) {
            Ok(more) => line.checked(Ok(more)),
            Err(cause) => Err(line.refused(cause)),
        }
    }

    /// What is answered behind `end`: there the text ends.
    fn end(&self) -> Result<(), ReportError>
        ensures { (report : ReportValue) → ended report self.now.number self.now.text.lines self.now.text.tail ≡ with_end report result }
    {
        if self.rest.is_empty() {
            return Ok(());
        }
        Err(ReportError {
            line: self.number,
            cause: ReportCause::Form,
        })
    }
}

/// Whether a line of this kind may follow a report so far, of so many packets in all.
fn may_follow(report: &Report, packets: u32, kind: LineKind) -> bool
    ensures { result ≡ can_follow packets report.now kind }
{
    let interfaces = report.interfaces.as_slice().len();
    let nodes = report.nodes.as_slice().len();
    let errors = report.errors.as_slice().len();
    let so_far = report.packets.len();
    let traces = report.traces.as_slice().len();
    let packets = packets as usize;
    match kind {
        LineKind::Interface => interfaces < MOST_INTERFACES && nodes == 0,
        LineKind::Node => interfaces > 0 && nodes < MOST_NODES && errors == 0 && so_far == 0,
        LineKind::Error => nodes > 0 && so_far == 0,
        LineKind::Packet => nodes > 0 && so_far < packets,
        LineKind::Trace => so_far == packets && traces < packets && traces < MOST_TRACED,
        LineKind::End => nodes > 0 && so_far == packets,
    }
}

/// What the words behind the first say in a line of a kind: whether the report goes on, with one entry more.
fn said_by(
    alloc: Global,
    report: &mut Report,
    kind: LineKind,
    words: &mut Parts,
) -> Result<bool, ReportCause>
    requires { length report.old.nodes ≤ 64 }
    ensures { Says (line_form kind report.old words.old) report.old result report.new words.new }
{
    match kind {
        LineKind::Interface => {
            let entry = lines::interface(words, report.interfaces.as_slice())?;
            report.interfaces.push(entry)?;
            Ok(true)
        }
        LineKind::Node => {
            let entry = lines::node(words, report.nodes.as_slice())?;
            report.nodes.push(entry)?;
            Ok(true)
        }
        LineKind::Error => {
            let entry = lines::error(words, report)?;
            report.errors.push(entry)?;
            Ok(true)
        }
        LineKind::Packet => {
            let packet = lines::packet(words, report)?;
            report.packets.push(packet)?;
            Ok(true)
        }
        LineKind::Trace => {
            let trace = lines::trace(alloc, words, report)?;
            report.traces.push(trace)?;
            Ok(true)
        }
        LineKind::End => {
            words.end()?;
            Ok(false)
        }
    }
}

/// What a line behind the first five says: whether the report goes on, with one entry more.
fn said(
    alloc: Global,
    report: &mut Report,
    packets: u32,
    words: &mut Parts,
) -> Result<bool, ReportCause>
    requires { length report.old.nodes ≤ 64 }
    ensures { Says (said_form packets report.old words.old) report.old result report.new words.new }
{
    let kind = words.kind()?;
    if !may_follow(report, packets, kind) {
        return Err(ReportCause::Form);
    }
    said_by(alloc, report, kind, words)
}

/// A report with nothing behind its first five lines, and room for its packets.
fn begun(alloc: Global, head: &Head) -> Result<Report, AllocError>
    ensures { IfOk result (λ report. report ≡ begun_by head.now) }
{
    let packets = Vec::with_capacity(alloc, head.packets as usize)?;
    Ok(Report {
        workers: head.workers,
        buffers: head.buffers,
        generations: head.generations,
        interfaces: NameCounts::from_vec(Vec::new(alloc)),
        nodes: NameCounts::from_vec(Vec::new(alloc)),
        errors: ErrorCounts::from_vec(Vec::new(alloc)),
        packets: PacketLines::from_vec(packets),
        traces: TraceLines::from_vec(Vec::new(alloc)),
    })
}

/// The report of the lines behind the first five.
fn body(alloc: Global, lines: &mut Lines, head: &Head) -> Result<Report, ReportError>
    requires number { lines.old.number ≡ 6 }
    requires head { IsHead head.now }
    ensures { Answers (report_behind head.now lines.old) result }
{
    let mut report = begun(alloc, head)?;
    loop {
        if !lines.further(alloc, &mut report, head.packets)? {
            lines.end()?;
            return Ok(report);
        }
    }
}

/// Reads the text of a report.
///
/// It reads exactly the texts that `write_report` gives of lawful reports. An error names the first line that can't stand where
/// it stands, and the cause is the first fault of that line from left to right; a missing line feed is the last. `Memory` may
/// come in place of any answer, and names the line 0.
pub fn read_report(alloc: Global, text: &[u8]) -> Result<Report, ReportError>
    ensures { AnswersRead text.now result }
{
    let mut lines = Lines::of(text);
    let head = lines.head()?;
    body(alloc, &mut lines, &head)
}
