ghost use Rattle.std.specs.Prelude.{◌≡◌, IfOk, OnOk, Ok};

use dill_base::{NoMemory, Octets};
use std::alloc::Global;
use std::test::Fail;

/// What was made, where memory was there for it.
pub fn memory<T>(made: Result<T, NoMemory>) -> Result<T, Fail>
    ensures { IfOk result (λ value. made ≡ Ok value) }
{
    match made {
        Ok(made) => Ok(made),
        Err(_) => Err(Fail::from("memory")),
    }
}

pub fn octets(alloc: Global, bytes: &[u8]) -> Result<Octets, Fail>
    ensures { IfOk result (λ made. made ≡ bytes.now) }
{
    memory(Octets::from_slice(alloc, bytes))
}
