//! Writing a whole text.

ghost use Rattle.std.specs.Prelude.{◌≡◌, ◌≤◌, OnOk, OnErr};
ghost use Rattle.std.specs.Io.KnownBytes.{Appends};
ghost use Rattle.bf_io.specs.Causes.{Rose};
ghost use Rattle.bf_io.specs.Whole.{TookPrefix};

use crate::error::IoError;
use crate::sink::Sink;

/// Writes all of the text behind what the sink took before. It takes no memory of its own.
///
/// `Failed` comes where a write failed. Then the sink took a prefix of the text, and not all.
pub fn write_whole<S: Sink>(sink: &mut S, text: &[u8]) -> Result<(), IoError>
    ensures ok { OnOk result (Appends (S.taken sink.old) (S.taken sink.new) text.now) }
    ensures err { OnErr result (TookPrefix (S.taken sink.old) (S.taken sink.new) text.now) }
    ensures failed { OnErr result (Rose (S.faults sink.old) (S.faults sink.new)) }
    ensures calm { OnOk result (S.faults sink.new ≡ S.faults sink.old) }
    ensures later { S.faults sink.old ≤ S.faults sink.new }
{
    let mut at = 0;
    while at < text.len() {
        at += sink.write(&text[at..])?;
    }
    Ok(())
}
