ghost use Rattle.relay_command.specs.Arguments.{ArgumentRows};

/// Examples of arguments, computed from their definition: the options in any order and form, and arguments that are no command.
pub fn rows()
    ensures { ArgumentRows }
{}
