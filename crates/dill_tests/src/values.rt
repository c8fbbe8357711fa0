use dill_base::{NoMemory, Octets};
use std::alloc::Global;
use std::test::Fail;

/// What was made, where memory was there for it.
pub fn memory<T>(made: Result<T, NoMemory>) -> Result<T, Fail> {
    match made {
        Ok(made) => Ok(made),
        Err(_) => Err(Fail::from("memory")),
    }
}

pub fn octets(alloc: Global, bytes: &[u8]) -> Result<Octets, Fail> {
    memory(Octets::from_slice(alloc, bytes))
}
