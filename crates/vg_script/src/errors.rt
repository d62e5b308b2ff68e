//! Why a script is refused.
ghost use Rattle.std.specs.Prelude.{◌≡◌};

/// Why a script is refused: by its text, or by an edit that can't be made.
#[derive(Clone, Copy, Debug, PartialEq, Eq)]
pub enum ScriptCause {
    /// The text has more than 262,144 bytes.
    TooLarge,
    /// A byte outside comments is neither a blank nor a visible character of ASCII.
    Bytes,
    /// A line begins with no statement, a fixed word is another, a word is missing, or there is one too many.
    Word,
    /// A name isn't 1 to 32 letters, digits, `-`, `_` and `.`, or a list of a route's names isn't 1 to 16 such names with `,` between
    /// them.
    Name,
    /// A number isn't in decimal digits without leading zeros, or is out of its range.
    Number,
    /// A link-layer address isn't six pairs of hexadecimal digits parted by `:`.
    Mac,
    /// A prefix isn't written as `10.1.0.0/16` is, a number in it is above 255, its length is above 32, or a bit behind its
    /// length is set; or an IPv6 prefix isn't written as `2001:db8::/32` is, a group has more than four digits, its length is above
    /// 128, or a bit behind its length is set.
    Prefix,
    /// A kind isn't one of which scripts make nodes.
    Kind,
    /// An `at` or `process` begins within a block, a `then` is in no process, an `end` closes no block, or the script ends
    /// within a block.
    Block,
    /// With the runs that this `at` or `process` asks for, there would be more than 999.
    TooManyGenerations,
    /// The name is a node's already.
    DoubleName,
    /// No node has this name.
    UnknownNode,
    /// The node's kind hasn't this slot.
    UnknownSlot,
    /// No arc may lead to this node.
    BadTarget,
    /// A packet could go round for ever.
    Cycle,
    /// There are as many nodes, interfaces, adjacencies or routes as may be.
    TooMany,
    /// No interface has this name.
    UnknownInterface,
    /// No adjacency has this name.
    UnknownAdjacency,
    /// No route has this prefix.
    NoRoute,
    /// Memory ran out.
    Memory,
}

/// The line and the cause of a refusal.
#[derive(Clone, Copy, Debug, PartialEq, Eq)]
pub struct ScriptError {
    /// Counted from 1; 0 where the cause is no line's: the text is too large, or memory ran out.
    pub line: u32,
    pub cause: ScriptCause,
}

impl ScriptCause {
    ghost use Rattle.vg_script.specs.Causes.{cause_word};

    /// The word for the cause, as it is printed.
    pub fn word(self) -> &'static str
        ensures { result.now ≡ cause_word self }
    {
        match self {
            ScriptCause::TooLarge => "too-large",
            ScriptCause::Bytes => "bytes",
            ScriptCause::Word => "word",
            ScriptCause::Name => "name",
            ScriptCause::Number => "number",
            ScriptCause::Mac => "mac",
            ScriptCause::Prefix => "prefix",
            ScriptCause::Kind => "kind",
            ScriptCause::Block => "block",
            ScriptCause::TooManyGenerations => "too-many-generations",
            ScriptCause::DoubleName => "double-name",
            ScriptCause::UnknownNode => "unknown-node",
            ScriptCause::UnknownSlot => "unknown-slot",
            ScriptCause::BadTarget => "bad-target",
            ScriptCause::Cycle => "cycle",
            ScriptCause::TooMany => "too-many",
            ScriptCause::UnknownInterface => "unknown-interface",
            ScriptCause::UnknownAdjacency => "unknown-adjacency",
            ScriptCause::NoRoute => "no-route",
            ScriptCause::Memory => "memory",
        }
    }
}
