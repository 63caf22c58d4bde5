//! Where bytes go.

ghost use Rattle.std.specs.Prelude.{◌≡◌, ◌≤◌, ◌<◌, length, is_err, IfOk, OnOk, OnErr};
ghost use Rattle.std.specs.Io.KnownBytes.{Appends};
ghost use Rattle.cc_names.specs.Counts.{raised_count, Rose};
ghost use Rattle.cc_outside.specs.Feeds.{WriteTakes, AppendsPrefix};
ghost use Rattle.cc_outside.specs.GhostStates.{SinkState, RestsOnceEnded, ended_at};

use std::fmt;

/// A sink failed to take bytes.
#[derive(Clone, Copy, Debug, PartialEq, Eq)]
pub struct WriteFault;

impl fmt::Display for WriteFault {
    fn fmt<W: fmt::Write>(&self, f: &mut fmt::Formatter<W>) -> fmt::Result {
        write!(f, "write fault")
    }
}

impl std::error::Error for WriteFault {}

/// Where bytes go.
pub trait Sink {
    // The bytes that it holds, where contracts know them; how many calls were made and failed so far, and at which it ended.
    ghost ghost_state: { Self → SinkState };

    /// Takes bytes from the start of a piece, which has some, and answers how many: at least one. A sink has ended at the
    /// first call that fails.
    fn write(&mut self, piece: &[u8]) -> Result<usize, WriteFault>
        requires { 0 < length piece.now }
        ensures within { IfOk result (λ count. count ≤ length piece.now) }
        ensures some { IfOk result (λ count. 0 < count) }
        ensures bytes { WriteTakes (ghost_state self.old).held
            (ghost_state self.new).held result piece.now }
        ensures kept { (ghost_state self.old).faults ≤ (ghost_state self.new).faults }
        ensures faultless { IfOk result
            (λ count. (ghost_state self.new).faults ≡ (ghost_state self.old).faults) }
        ensures fault { OnErr result
            (Rose (ghost_state self.old).faults (ghost_state self.new).faults) }
        ensures called { (ghost_state self.new).calls
            ≡ raised_count (ghost_state self.old).calls 1 }
        ensures ended { (ghost_state self.new).ended
            ≡ ended_at (ghost_state self.old).ended (ghost_state self.new).calls (is_err result) };
}

/// Writes a whole text. No call is made after one at which the sink ends. Takes time linear in the text where the sink takes each
/// piece at once.
pub fn write_whole<K: Sink>(sink: &mut K, text: &[u8]) -> Result<(), WriteFault>
    ensures written { OnOk result
        (Appends (K.ghost_state sink.old).held (K.ghost_state sink.new).held text.now) }
    ensures kept { (K.ghost_state sink.old).faults ≤ (K.ghost_state sink.new).faults }
    ensures faultless { OnOk result
        ((K.ghost_state sink.new).faults ≡ (K.ghost_state sink.old).faults) }
    ensures fault { OnErr result
        (Rose (K.ghost_state sink.old).faults (K.ghost_state sink.new).faults) }
    ensures prefix { OnErr result
        (AppendsPrefix (K.ghost_state sink.old).held (K.ghost_state sink.new).held text.now) }
    ensures goes_on { OnOk result
        ((K.ghost_state sink.new).ended ≡ (K.ghost_state sink.old).ended) }
    ensures rests { RestsOnceEnded (K.ghost_state sink.old).ended
        (K.ghost_state sink.new).ended (K.ghost_state sink.new).calls }
{
    let mut done = 0;
    while done < text.len() {
        done += sink.write(&text[done..])?;
    }
    Ok(())
}
