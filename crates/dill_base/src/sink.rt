ghost use Rattle.std.specs.Prelude.{List, ℕ, Option, OnOk, OnErr};
ghost use Rattle.std.specs.Io.KnownBytes.{Appends};
ghost use Rattle.dill_base.specs.Causes.{HasCause};
ghost use Rattle.dill_base.specs.Sinks.{AppendsPart};

use crate::Failed;

/// Where bytes go.
pub trait Sink {
    /// The bytes that went out, where it tells.
    ghost told: { Self → Option (List ℕ) };

    /// How often it failed. The count stands still at its type's end.
    ghost faults: { Self → ℕ };

    /// All the bytes go out. Where it fails, a front of them went out that lacks some, if there are any.
    fn write(&mut self, bytes: &[u8]) -> Result<(), Failed>
        ensures whole { OnOk result (Appends (told self.old) (told self.new) bytes.now) }
        ensures part { OnErr result (AppendsPart (told self.old) (told self.new) bytes.now) }
        ensures cause { HasCause (faults self.old) (faults self.new) result };
}
