//! The statements of a script: the words of each.
ghost use Rattle.std.specs.Prelude.{◌≡◌, false, option_map, bytes_eq};
ghost use Rattle.vg_script.specs.Keywords.{keyword_row, may_have_names, found, Finds};
ghost use Rattle.vg_script.specs.Statements.{row_of, interface_form, node_form, arc_form, adjacency_form, route_form, unroute_form, route6_form, unroute6_form, at_form, process_form, alone as alone_form};

use crate::errors::ScriptCause;
use crate::words::Words;
use std::alloc::Global;
use vg_model::limits::{LONGEST_TIME, MOST_EVENTS};
use vg_model::{Edit, Name};

/// What a line says.
#[derive(Drop)]
pub enum Statement {
    /// An edit, in the block that is begun or outside blocks.
    Change(Edit),
    /// A block begins, whose edits are made at this time.
    At { time: u64 },
    /// A process begins, whose groups of edits are made in turn, one at the end of each period.
    Process { name: Name, every: u64, count: u32 },
    /// The next group of the process begins.
    Then,
    /// The block ends.
    End,
}

/// The first word of a statement.
#[derive(Clone, Copy)]
pub enum Keyword {
    Interface,
    Node,
    Arc,
    Adjacency,
    Route,
    Unroute,
    Route6,
    Unroute6,
    At,
    Process,
    Then,
    End,
}

impl Keyword {
    /// All keywords.
    const ALL: [Keyword; 12] = [
        Keyword::Interface,
        Keyword::Node,
        Keyword::Arc,
        Keyword::Adjacency,
        Keyword::Route,
        Keyword::Unroute,
        Keyword::Route6,
        Keyword::Unroute6,
        Keyword::At,
        Keyword::Process,
        Keyword::Then,
        Keyword::End,
    ];

    /// The keyword as it is written.
    fn word(self) -> &'static str
        ensures { result.now ≡ (keyword_row self).word }
    {
        match self {
            Keyword::Interface => "interface",
            Keyword::Node => "node",
            Keyword::Arc => "arc",
            Keyword::Adjacency => "adjacency",
            Keyword::Route => "route",
            Keyword::Unroute => "unroute",
            Keyword::Route6 => "route6",
            Keyword::Unroute6 => "unroute6",
            Keyword::At => "at",
            Keyword::Process => "process",
            Keyword::Then => "then",
            Keyword::End => "end",
        }
    }

    /// Whether this is how the keyword is written.
    fn is(self, word: &[u8]) -> bool
        ensures { result ≡ bytes_eq word.now (keyword_row self).word }
    {
        word == self.word().as_bytes()
    }

    /// The keyword that is written so.
    pub fn of(word: &[u8]) -> Option<Keyword>
        ensures { row_of word.now ≡ option_map keyword_row result }
    {
        // Most statements of a long script are routes.
        if Keyword::Route.is(word) {
            return Some(Keyword::Route);
        }
        Keyword::ALL
            .iter()
            .find(|keyword| keyword.is(word))
            .copied()
    }
}

/// The words behind `interface`.
fn interface(words: &mut Words) -> Result<Edit, ScriptCause>
    ensures { interface_form words.old ≡ found result words.new }
{
    let name = words.name()?;
    words.fixed("mac")?;
    let mac = words.mac()?;
    words.fixed("mtu")?;
    let mtu = words.number(68, 65_535)? as u16;
    let up = words.up_or_down()?;
    let filter = words.filter_or_nothing()?;
    words.end()?;
    Ok(Edit::Interface {
        name,
        mac,
        mtu,
        up,
        filter,
    })
}

/// The words behind `node`.
fn node(words: &mut Words) -> Result<Edit, ScriptCause>
    ensures { node_form words.old ≡ found result words.new }
{
    let name = words.name()?;
    words.fixed("kind")?;
    let kind = words.kind()?;
    words.end()?;
    Ok(Edit::Node { name, kind })
}

/// The words behind `arc`.
fn arc(words: &mut Words) -> Result<Edit, ScriptCause>
    ensures { arc_form words.old ≡ found result words.new }
{
    let from = words.name()?;
    let slot = words.name()?;
    let to = words.name()?;
    words.end()?;
    Ok(Edit::Arc { from, slot, to })
}

/// The words behind `adjacency`.
fn adjacency(words: &mut Words) -> Result<Edit, ScriptCause>
    ensures { adjacency_form words.old ≡ found result words.new }
{
    let name = words.name()?;
    words.fixed("interface")?;
    let interface = words.name()?;
    words.fixed("dst")?;
    let mac = words.mac()?;
    words.end()?;
    Ok(Edit::Adjacency {
        name,
        interface,
        mac,
    })
}

/// The words behind `route`.
fn route(alloc: Global, words: &mut Words) -> Result<Edit, ScriptCause>
    ensures { Finds (route_form words.old) result words.new }
{
    let prefix = words.prefix()?;
    let to = words.target(alloc)?;
    words.end()?;
    Ok(Edit::Route { prefix, to })
}

/// The words behind `unroute`.
fn unroute(words: &mut Words) -> Result<Edit, ScriptCause>
    ensures { unroute_form words.old ≡ found result words.new }
{
    let prefix = words.prefix()?;
    words.end()?;
    Ok(Edit::Unroute { prefix })
}

/// The words behind `route6`.
fn route6(alloc: Global, words: &mut Words) -> Result<Edit, ScriptCause>
    ensures { Finds (route6_form words.old) result words.new }
{
    let prefix = words.prefix6()?;
    let to = words.target(alloc)?;
    words.end()?;
    Ok(Edit::Route6 { prefix, to })
}

/// The words behind `unroute6`.
fn unroute6(words: &mut Words) -> Result<Edit, ScriptCause>
    ensures { unroute6_form words.old ≡ found result words.new }
{
    let prefix = words.prefix6()?;
    words.end()?;
    Ok(Edit::Unroute6 { prefix })
}

/// The words behind `at`.
fn at(words: &mut Words) -> Result<Statement, ScriptCause>
    ensures { at_form words.old ≡ found result words.new }
{
    let time = words.number(0, LONGEST_TIME)?;
    words.end()?;
    Ok(Statement::At { time })
}

/// The words behind `process`.
fn process(words: &mut Words) -> Result<Statement, ScriptCause>
    ensures { process_form words.old ≡ found result words.new }
{
    let name = words.name()?;
    words.fixed("every")?;
    let every = words.number(1, LONGEST_TIME)?;
    words.fixed("count")?;
    let count = words.number(1, MOST_EVENTS)? as u32;
    words.end()?;
    Ok(Statement::Process { name, every, count })
}

/// A statement that is its first word alone.
fn alone(statement: Statement, words: &mut Words) -> Result<Statement, ScriptCause>
    ensures { alone_form statement words.old ≡ found result words.new }
{
    words.end()?;
    Ok(statement)
}

impl Statement {
    /// The statement that a keyword and the words behind it say. Memory can run out only where names stand behind it.
    pub fn read(
        alloc: Global,
        keyword: Keyword,
        words: &mut Words,
    ) -> Result<Statement, ScriptCause>
        ensures value { Finds ((keyword_row keyword).form words.old) result words.new }
        ensures exact { may_have_names keyword ≡ false → (keyword_row keyword).form words.old ≡ found result words.new }
    {
        match keyword {
            Keyword::Interface => Ok(Statement::Change(interface(words)?)),
            Keyword::Node => Ok(Statement::Change(node(words)?)),
            Keyword::Arc => Ok(Statement::Change(arc(words)?)),
            Keyword::Adjacency => Ok(Statement::Change(adjacency(words)?)),
            Keyword::Route => Ok(Statement::Change(route(alloc, words)?)),
            Keyword::Unroute => Ok(Statement::Change(unroute(words)?)),
            Keyword::Route6 => Ok(Statement::Change(route6(alloc, words)?)),
            Keyword::Unroute6 => Ok(Statement::Change(unroute6(words)?)),
            Keyword::At => at(words),
            Keyword::Process => process(words),
            Keyword::Then => alone(Statement::Then, words),
            Keyword::End => alone(Statement::End, words),
        }
    }
}
