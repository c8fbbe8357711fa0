/// A handle number that is live, what it names, and the coroutine that owns it.
#[derive(Drop)]
pub struct Entry<T> {
    pub number: u64,
    pub thing: T,
    pub owner: u64,
}
