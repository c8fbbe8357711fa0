use dill_base::Sequence;
use dill_script::Register;

/// The registers before the `=` of a line, in their order.
pub(crate) type Targets = Sequence<Register>;
