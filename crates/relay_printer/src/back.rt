ghost use Rattle.relay_printer.specs.Back.{PrintsBack};

use dill_script::script_laws;

/// What reading and printing come to: where `print_script` gives at most 1,048,576 bytes for a script that was read, they
/// are read as that script again, whichever calls are built.
pub fn printed_is_read()
    ensures { PrintsBack }
{
    script_laws();
}
