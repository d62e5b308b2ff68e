//! The lists of a report. Each is made of a vector, and all but the packets give it back; neither copies nor takes memory.
ghost use Rattle.std.specs.Prelude.{◌≡◌, ◌<◌, ◌++◌, [], ◌∷◌, OnOk, Some, is_some, length, option_map, slice_get, take};
ghost use Rattle.vg_fates.specs.Seen.{fate_seen};
ghost use Rattle.vg_report.specs.Named.{lines_of, line_by, AreNamed, IsNamed, end_by};
ghost use Rattle.vg_report.specs.Seen.{line_seen, end_seen};

use crate::reports::{EndRef, LegsRef, LineRef, PacketEnd, PacketLine};
use std::alloc::{AllocError, Global};
use std::marker::Model;
use vg_fates::{FateList, FateRef};
use vg_model::{DropError, End, Name};

/// Interfaces or nodes by number, each its name and a count.
#[derive(Drop)]
pub struct NameCounts(Vec<(Name, u64)>);

impl Model for NameCounts {
    ghost use Rattle.std.specs.Prelude.{List, ℕ};

    ghost Value = { List (List ℕ × ℕ) };

    ghost view = { λ c. c.0.items };
}

/// Nodes by name, each with an error and how often the node dropped a packet with it.
#[derive(Drop)]
pub struct ErrorCounts(Vec<(Name, DropError, u64)>);

impl Model for ErrorCounts {
    ghost use Rattle.std.specs.Prelude.{List, ℕ};
    ghost use Rattle.vg_model.specs.declared.kinds.DropError.{DropError};

    ghost Value = { List (List ℕ × DropError × ℕ) };

    ghost view = { λ c. c.0.items };
}

/// What became of the packets, by number.
///
/// The first may be kept as fates, whose ends are numbers in two lists of names; those that are added stand behind them.
#[derive(Drop)]
pub struct PacketLines {
    fates: FateList,
    interfaces: Vec<Name>,
    nodes: Vec<Name>,
    added: Vec<PacketLine>,
}

/// Fates, and the names of interfaces and of nodes by which their ends are read.
#[derive(Clone, Copy)]
pub(crate) struct NamedFates<'a> {
    pub fates: &'a FateList,
    pub interfaces: &'a [Name],
    pub nodes: &'a [Name],
}

impl Model for PacketLines {
    ghost use Rattle.std.specs.Prelude.{List, ◌++◌};
    ghost use Rattle.vg_report.specs.declared.reports.PacketLine.{PacketLine};
    ghost use Rattle.vg_report.specs.Named.{lines_of, AreNamed};

    ghost Value = { List PacketLine };

    ghost view = { λ p. lines_of p.interfaces.items p.nodes.items p.fates ++ p.added.items };

    ghost invariant = { λ p. AreNamed p.interfaces.items p.nodes.items p.fates };
}

/// The names of the nodes that a packet visited, in order.
#[derive(Drop)]
pub struct Names(Vec<Name>);

impl Model for Names {
    ghost use Rattle.std.specs.Prelude.{List, ℕ};

    ghost Value = { List (List ℕ) };

    ghost view = { λ n. n.0.items };
}

/// The traces of the first packets, by number.
#[derive(Drop)]
pub struct TraceLines(Vec<Names>);

impl Model for TraceLines {
    ghost use Rattle.std.specs.Prelude.{List, ℕ};

    ghost Value = { List (List (List ℕ)) };

    ghost view = { λ t. t.0.items };
}

impl NameCounts {
    /// The list of these counts.
    pub fn from_vec(counts: Vec<(Name, u64)>) -> NameCounts
        ensures { result ≡ counts.items }
    {
        NameCounts(counts)
    }

    /// The counts as a slice.
    pub fn as_slice(&self) -> &[(Name, u64)]
        ensures { result.now ≡ self.now }
    {
        self.0.as_slice()
    }

    /// The counts as a vector.
    pub fn into_vec(self) -> Vec<(Name, u64)>
        ensures { result.items ≡ self }
    {
        self.0
    }

    /// Adds an entry behind the others.
    pub(crate) fn push(&mut self, entry: (Name, u64)) -> Result<(), AllocError>
        ensures { OnOk result (self.new ≡ self.old ++ entry ∷ []) }
    {
        self.0.push(entry)?;
        Ok(())
    }
}

impl ErrorCounts {
    /// The list of these counts.
    pub fn from_vec(counts: Vec<(Name, DropError, u64)>) -> ErrorCounts
        ensures { result ≡ counts.items }
    {
        ErrorCounts(counts)
    }

    /// The counts as a slice.
    pub fn as_slice(&self) -> &[(Name, DropError, u64)]
        ensures { result.now ≡ self.now }
    {
        self.0.as_slice()
    }

    /// The counts as a vector.
    pub fn into_vec(self) -> Vec<(Name, DropError, u64)>
        ensures { result.items ≡ self }
    {
        self.0
    }

    /// Adds an entry behind the others.
    pub(crate) fn push(&mut self, entry: (Name, DropError, u64)) -> Result<(), AllocError>
        ensures { OnOk result (self.new ≡ self.old ++ entry ∷ []) }
    {
        self.0.push(entry)?;
        Ok(())
    }
}

impl PacketLines {
    /// The list of these packets.
    pub fn from_vec(packets: Vec<PacketLine>) -> PacketLines
        ensures { result ≡ packets.items }
    {
        let alloc = *packets.allocator();
        PacketLines {
            fates: FateList::new(alloc),
            interfaces: Vec::new(alloc),
            nodes: Vec::new(alloc),
            added: packets,
        }
    }

    /// What became of packets with these fates, by the names of the interfaces and of the nodes.
    pub fn of_fates(
        alloc: Global,
        fates: FateList,
        interfaces: Vec<Name>,
        nodes: Vec<Name>,
    ) -> PacketLines
        requires { AreNamed interfaces.items nodes.items fates }
        ensures { result ≡ lines_of interfaces.items nodes.items fates }
    {
        PacketLines {
            fates,
            interfaces,
            nodes,
            added: Vec::new(alloc),
        }
    }

    /// How many packets there are.
    pub fn len(&self) -> usize
        ensures { result ≡ length self.now }
    {
        self.fates.len() + self.added.len()
    }

    /// The fates as which the first packets are kept, with the names of their ends.
    pub(crate) fn named_fates(&self) -> NamedFates<'_>
        ensures first { take (length result.fates.now) self.now ≡ lines_of result.interfaces.now result.nodes.now result.fates.now }
        ensures named { AreNamed result.interfaces.now result.nodes.now result.fates.now }
    {
        NamedFates {
            fates: &self.fates,
            interfaces: self.interfaces.as_slice(),
            nodes: self.nodes.as_slice(),
        }
    }

    /// What became of a packet.
    #[inline]
    pub fn get(&self, number: usize) -> LineRef<'_>
        requires { number < length self.now }
        ensures { slice_get self.now number ≡ Some (line_seen result) }
    {
        let fates = self.fates.len();
        if number < fates {
            return line_of(
                self.interfaces.as_slice(),
                self.nodes.as_slice(),
                self.fates.view(number),
            );
        }
        let line = &self.added[number - fates];
        LineRef {
            legs: LegsRef::Kept(&line.legs),
            congested: line.congested,
            end: end_of(&line.end),
        }
    }

    /// Whether a full queue refused a packet.
    #[inline]
    pub fn is_congested(&self, number: usize) -> bool
        requires { number < length self.now }
        ensures { option_map (λ line. is_some line.congested) (slice_get self.now number) ≡ Some result }
    {
        let fates = self.fates.len();
        if number < fates {
            return is_refused(self.fates.view(number));
        }
        self.added[number - fates].congested.is_some()
    }

    /// Adds a packet behind the others.
    ///
    /// # Errors
    ///
    /// [`AllocError`] where memory runs out.
    pub fn push(&mut self, packet: PacketLine) -> Result<(), AllocError>
        ensures { OnOk result (self.new ≡ self.old ++ packet ∷ []) }
    {
        self.added.push(packet)?;
        Ok(())
    }
}

// Whether a full queue refused a packet with this fate.
#[inline]
fn is_refused(fate: FateRef<'_>) -> bool
    ensures { result ≡ is_some (fate_seen fate.entry).congested }
{
    match fate {
        FateRef::Plain { .. } => false,
        FateRef::Other(fate) => fate.congested.is_some(),
    }
}

/// What became of a packet with this fate, by the names of interfaces and nodes.
#[inline]
pub(crate) fn line_of<'a>(
    interfaces: &'a [Name],
    nodes: &'a [Name],
    fate: FateRef<'a>,
) -> LineRef<'a>
    requires { IsNamed interfaces.now nodes.now (fate_seen fate).end }
    ensures { line_seen result ≡ line_by interfaces.now nodes.now (fate_seen fate.entry) }
{
    match fate {
        FateRef::Plain { leg, end, .. } => LineRef {
            legs: LegsRef::One(leg),
            congested: None,
            end: named(interfaces, nodes, end),
        },
        FateRef::Other(fate) => LineRef {
            legs: LegsRef::Kept(&fate.legs),
            congested: fate.congested,
            end: named(interfaces, nodes, fate.end),
        },
    }
}

/// An end by the names of interfaces and nodes.
#[inline]
pub(crate) fn named<'a>(interfaces: &'a [Name], nodes: &'a [Name], end: End) -> EndRef<'a>
    requires { IsNamed interfaces.now nodes.now end }
    ensures { end_seen result ≡ end_by interfaces.now nodes.now end }
{
    match end {
        End::Tx { interface } => EndRef::Tx {
            interface: &interfaces[usize::from(interface)],
        },
        End::Dropped { node, error } => EndRef::Dropped {
            node: &nodes[usize::from(node)],
            error,
        },
    }
}

// The same end, by reference.
fn end_of(end: &PacketEnd) -> EndRef<'_>
    ensures { end_seen result ≡ end.now }
{
    match end {
        PacketEnd::Tx { interface } => EndRef::Tx { interface },
        PacketEnd::Dropped { node, error } => EndRef::Dropped {
            node,
            error: *error,
        },
    }
}

impl Names {
    /// The list of these names.
    pub fn from_vec(names: Vec<Name>) -> Names
        ensures { result ≡ names.items }
    {
        Names(names)
    }

    /// The names as a slice.
    pub fn as_slice(&self) -> &[Name]
        ensures { result.now ≡ self.now }
    {
        self.0.as_slice()
    }

    /// The names as a vector.
    pub fn into_vec(self) -> Vec<Name>
        ensures { result.items ≡ self }
    {
        self.0
    }

    /// Adds a name behind the others.
    pub(crate) fn push(&mut self, name: Name) -> Result<(), AllocError>
        ensures { OnOk result (self.new ≡ self.old ++ name ∷ []) }
    {
        self.0.push(name)?;
        Ok(())
    }
}

impl TraceLines {
    /// The list of these traces.
    pub fn from_vec(traces: Vec<Names>) -> TraceLines
        ensures { result ≡ traces.items }
    {
        TraceLines(traces)
    }

    /// The traces as a slice.
    pub fn as_slice(&self) -> &[Names]
        ensures { result.now ≡ self.now }
    {
        self.0.as_slice()
    }

    /// The traces as a vector.
    pub fn into_vec(self) -> Vec<Names>
        ensures { result.items ≡ self }
    {
        self.0
    }

    /// Adds a trace behind the others.
    pub(crate) fn push(&mut self, trace: Names) -> Result<(), AllocError>
        ensures { OnOk result (self.new ≡ self.old ++ trace ∷ []) }
    {
        self.0.push(trace)?;
        Ok(())
    }
}
