//! The lines of a report behind its first five.
ghost use Rattle.std.specs.Prelude.{◌≡◌, bytes_eq};
ghost use Rattle.vg_report.specs.Kinds.{kind_word, kind_of};

/// The kinds of these lines, each named by its first word.
#[derive(Clone, Copy)]
pub enum LineKind {
    Interface,
    Node,
    Error,
    Packet,
    Trace,
    End,
}

impl LineKind {
    /// All kinds.
    const ALL: [LineKind; 6] = [
        LineKind::Interface,
        LineKind::Node,
        LineKind::Error,
        LineKind::Packet,
        LineKind::Trace,
        LineKind::End,
    ];

    /// The first word of such a line.
    fn word(self) -> &'static str
        ensures { result.now ≡ kind_word self }
    {
        match self {
            LineKind::Interface => "interface",
            LineKind::Node => "node",
            LineKind::Error => "error",
            LineKind::Packet => "packet",
            LineKind::Trace => "trace",
            LineKind::End => "end",
        }
    }

    /// Whether such a line begins with this word.
    fn is(self, word: &[u8]) -> bool
        ensures { result ≡ bytes_eq word.now (kind_word self) }
    {
        word == self.word().as_bytes()
    }

    /// The kind of the lines that begin with this word.
    pub fn of(word: &[u8]) -> Option<LineKind>
        ensures { result ≡ kind_of word.now }
    {
        // Most lines are of packets.
        if LineKind::Packet.is(word) {
            return Some(LineKind::Packet);
        }
        LineKind::ALL.iter().find(|kind| kind.is(word)).copied()
    }
}
