//! Printing to the sink.
ghost use Rattle.std.specs.Prelude.{◌≡◌, OnOk, OnErr};
ghost use Rattle.vg_outside.specs.Files.{Rose};
ghost use Rattle.vg_drawing.specs.Run.{Appends, AppendsFront};

use vg_outside::{Failed, Sink};

/// Prints a whole text: each call of the sink is given all that is left, until nothing is left or a call fails.
pub fn print<O: Sink>(out: &mut O, text: &[u8]) -> Result<(), Failed>
    ensures ok { OnOk result (Appends (O.written out.old) (O.written out.new) text.now) }
    ensures quiet { OnOk result (O.faults out.new ≡ O.faults out.old) }
    ensures front { OnErr result (AppendsFront (O.written out.old) (O.written out.new) text.now) }
    ensures failed { OnErr result (Rose (O.faults out.old) (O.faults out.new)) }
{
    let mut rest = text;
    while !rest.is_empty() {
        let taken = out.put(rest)?;
        (_, rest) = rest.split_at(taken);
    }
    Ok(())
}
