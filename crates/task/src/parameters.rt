// The cache that a task runs on, and the time that one reload of a block takes.
#[derive(Clone, Copy, Debug, PartialEq, Eq)]
pub struct CacheParameters {
    pub sets: u8,
    pub ways: u8,
    pub reload: u32,
}
