use cache::outcome::Outcome;

// What an obeyed call says.
#[derive(Clone, Copy, Debug, PartialEq, Eq)]
pub enum Answer {
    // The cache's hit or miss.
    Access(Outcome),
    // A step or finish at a point without access.
    NoAccess,
    // An interruption began or ended.
    Done,
}
