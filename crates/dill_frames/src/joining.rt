ghost use Rattle.std.specs.Prelude.{◌++◌, Ok};
ghost use Rattle.dill_base.specs.Writing.{Writes};

use dill_base::{Octets, WriteFault};
use std::alloc::Global;

/// One behind the other.
pub(crate) fn joined(alloc: Global, first: &[u8], second: &[u8]) -> Result<Octets, WriteFault>
    ensures due { Writes result (Ok (first.now ++ second.now)) }
{
    let Ok(mut bytes) = Octets::from_slice(alloc, first) else {
        return Err(WriteFault::NoMemory);
    };
    match bytes.push_all(second) {
        Ok(()) => Ok(bytes),
        Err(_) => Err(WriteFault::NoMemory),
    }
}
