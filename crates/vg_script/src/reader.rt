//! What was read of a script, a line at a time.
ghost use Rattle.std.specs.Prelude.{◌≡◌, true, false, [], ◌∷◌, ◌++◌, MatchOption, MatchResult};
ghost use Rattle.std.specs.List.{list_all};
ghost use Rattle.vg_script.specs.Keywords.{keyword_row};
ghost use Rattle.vg_script.specs.Lines.{without_comment, is_allowed as allowed, is_plain as plain};
ghost use Rattle.vg_script.specs.Reader.{begun_of, closed_block, Reads};
ghost use Rattle.vg_script.specs.Reading.{nothing_read, may_stand, with_edit, with_block, with_group, without_block, with_statement, with_words, with_line, closed};

use crate::errors::{ScriptCause, ScriptError};
use crate::lists::{Blocks, Groups};
use crate::scripts::{Block, Script};
use crate::statements::{Keyword, Statement};
use crate::words::Words;
use std::alloc::Global;
use std::marker::Model;
use std::mem;
use vg_model::limits::MOST_EVENTS;
use vg_model::{EditLine, Edits, Name};

/// A block that is begun.
#[derive(Drop)]
pub enum OpenBlock {
    At {
        line: u32,
        time: u64,
        edits: Vec<EditLine>,
    },
    Process {
        line: u32,
        name: Name,
        every: u64,
        count: u32,
        /// The groups that are complete.
        groups: Vec<Edits>,
        /// The group that is begun.
        group: Vec<EditLine>,
    },
}

impl OpenBlock {
    /// The block, with the group that is begun as its last.
    fn into_block(self) -> Result<Block, ScriptCause>
        ensures { MatchResult result (λ block. block ≡ closed_block self) (λ cause. cause ≡ ScriptCause.Memory) }
    {
        match self {
            OpenBlock::At { line, time, edits } => Ok(Block::At {
                line,
                time,
                edits: Edits::from_vec(edits),
            }),
            OpenBlock::Process {
                line,
                name,
                every,
                count,
                mut groups,
                group,
            } => {
                push(&mut groups, Edits::from_vec(group))?;
                Ok(Block::Process {
                    line,
                    name,
                    every,
                    count,
                    groups: Groups::from_vec(groups),
                })
            }
        }
    }
}

/// What was read of a script so far. After a refusal nothing more is read.
#[derive(Drop)]
pub struct Reader {
    alloc: Global,
    start: Vec<EditLine>,
    blocks: Vec<Block>,
    open: Option<OpenBlock>,
    events: u32,
}

impl Model for Reader {
    ghost use Rattle.vg_script.specs.Reading.{Reading};

    ghost Value = { Reading };

    ghost use Rattle.vg_script.specs.Reader.{reading_of};

    ghost view = { reading_of };
}

impl Reader {
    /// What was read before the first line.
    pub fn new(alloc: Global) -> Reader
        ensures { result ≡ nothing_read }
    {
        Reader {
            alloc,
            start: Vec::new(alloc),
            blocks: Vec::new(alloc),
            open: None,
            events: 0,
        }
    }

    /// Whether a statement that begins with this keyword may stand here.
    fn may_stand(&self, keyword: Keyword) -> bool
        ensures { result ≡ may_stand (keyword_row keyword).place self.now.begun }
    {
        match keyword {
            Keyword::Interface
            | Keyword::Node
            | Keyword::Arc
            | Keyword::Adjacency
            | Keyword::Route
            | Keyword::Unroute
            | Keyword::Route6
            | Keyword::Unroute6 => true,
            Keyword::At | Keyword::Process => self.open.is_none(),
            Keyword::Then => matches!(self.open, Some(OpenBlock::Process { .. })),
            Keyword::End => self.open.is_some(),
        }
    }

    /// An edit, in the block that is begun or outside blocks.
    fn add_edit(&mut self, edit: EditLine) -> Result<(), ScriptCause>
        ensures { Reads (Ok (with_edit edit self.old self.old.begun)) self.new result }
    {
        match &mut self.open {
            None => push(&mut self.start, edit),
            Some(OpenBlock::At { edits, .. }) => push(edits, edit),
            Some(OpenBlock::Process { group, .. }) => push(group, edit),
        }
    }

    /// A block begins, where its events are not too many.
    fn begin_block(&mut self, block: OpenBlock, events: u32) -> Result<(), ScriptCause>
        ensures { Reads (with_block (begun_of (Some block)) events self.old) self.new result }
    {
        let events = u64::from(self.events) + u64::from(events);
        if events > MOST_EVENTS {
            return Err(ScriptCause::TooManyGenerations);
        }
        self.open = Some(block);
        self.events = events as u32;
        Ok(())
    }

    /// The next group of the process begins; in no process nothing does.
    fn begin_group(&mut self) -> Result<(), ScriptCause>
        ensures { Reads (Ok (with_group self.old self.old.begun)) self.new result }
    {
        let alloc = self.alloc;
        let Some(block) = &mut self.open else {
            return Ok(());
        };
        match block {
            OpenBlock::At { .. } => Ok(()),
            OpenBlock::Process { groups, group, .. } => {
                let complete = mem::replace(group, Vec::new(alloc));
                push(groups, Edits::from_vec(complete))
            }
        }
    }

    /// The block ends; outside blocks none does.
    fn end_block(&mut self) -> Result<(), ScriptCause>
        ensures { Reads (Ok (without_block self.old self.old.begun)) self.new result }
    {
        let Some(open) = self.open.take() else {
            return Ok(());
        };
        let block = open.into_block()?;
        push(&mut self.blocks, block)
    }

    /// A statement on a line, where it may stand.
    fn add_statement(&mut self, line: u32, statement: Statement) -> Result<(), ScriptCause>
        ensures { Reads (with_statement line self.old statement) self.new result }
    {
        match statement {
            Statement::Change(edit) => self.add_edit(EditLine { line, edit }),
            Statement::At { time } => {
                let edits = Vec::new(self.alloc);
                self.begin_block(OpenBlock::At { line, time, edits }, 1)
            }
            Statement::Process { name, every, count } => {
                let groups = Vec::new(self.alloc);
                let group = Vec::new(self.alloc);
                self.begin_block(
                    OpenBlock::Process {
                        line,
                        name,
                        every,
                        count,
                        groups,
                        group,
                    },
                    count,
                )
            }
            Statement::Then => self.begin_group(),
            Statement::End => self.end_block(),
        }
    }

    /// Reads the words of a line, the first of which says what statement it is.
    fn read_words(&mut self, line: u32, words: &mut Words) -> Result<(), ScriptCause>
        ensures { Reads (with_words line self.old words.old) self.new result }
    {
        let Some(first) = words.next() else {
            return Ok(());
        };
        let Some(keyword) = Keyword::of(first) else {
            return Err(ScriptCause::Word);
        };
        if !self.may_stand(keyword) {
            return Err(ScriptCause::Block);
        }
        let statement = Statement::read(self.alloc, keyword, words)?;
        self.add_statement(line, statement)
    }

    /// Reads a line, of which may be known that it is plain.
    pub fn read_line(
        &mut self,
        line: u32,
        bytes: &[u8],
        is_known_plain: bool,
    ) -> Result<(), ScriptCause>
        requires { is_known_plain ≡ true → list_all plain bytes.now ≡ true }
        ensures { Reads (with_line line self.old bytes.now) self.new result }
    {
        match before_comment(bytes, is_known_plain) {
            Some(text) => self.read_words(line, &mut Words::of(text)),
            None => Err(ScriptCause::Bytes),
        }
    }

    /// The script that was read, up to its last line.
    pub fn finish(self, last: u32) -> Result<Script, ScriptError>
        ensures { result ≡ closed last self self.begun }
    {
        match self.open {
            None => Ok(Script {
                start: Edits::from_vec(self.start),
                blocks: Blocks::from_vec(self.blocks),
            }),
            Some(_) => Err(ScriptError {
                line: last,
                cause: ScriptCause::Block,
            }),
        }
    }
}

/// Adds an item; the only error is want of memory.
fn push<T: Drop>(items: &mut Vec<T>, item: T) -> Result<(), ScriptCause>
    ensures { MatchResult result (λ done. items.new.items ≡ items.old.items ++ item ∷ []) (λ cause. cause ≡ ScriptCause.Memory) }
{
    items.push(item).map_err(|_| ScriptCause::Memory)
}

/// What stands before a line's comment; `None` where a byte there isn't allowed. Of the line may be known that it is plain.
fn before_comment(line: &[u8], is_known_plain: bool) -> Option<&[u8]>
    requires { is_known_plain ≡ true → list_all plain line.now ≡ true }
    ensures { MatchOption result (list_all allowed (without_comment line.now) ≡ false) (λ text. (text.now ≡ without_comment line.now) × (list_all allowed text.now ≡ true)) }
{
    if is_known_plain {
        return Some(line);
    }
    let Some(place) = line.iter().position(|byte| !is_plain(*byte)) else {
        return Some(line);
    };
    if line[place] == b'#' {
        Some(&line[..place])
    } else {
        None
    }
}

/// Whether the byte may stand outside comments and begins none.
pub fn is_plain(byte: u8) -> bool
    ensures { result ≡ plain byte }
{
    // The visible characters but for `#`, and the blanks. Most bytes are of the one range.
    matches!(byte, b'$'..=b'~') || matches!(byte, b'!' | b'"' | b' ' | b'\t' | b'\r')
}
