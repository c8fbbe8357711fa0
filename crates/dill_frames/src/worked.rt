ghost use Rattle.dill_frames.specs.Rows.{Rows};

/// The definitions, computed on worked messages.
pub fn rows()
    ensures { Rows }
{}
