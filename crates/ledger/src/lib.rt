// What a bench is asked, and what it counts.
#![tactic(auto)]

// Whether the task walks, is interrupted, or its run has ended.
#[derive(Clone, Copy, Debug, PartialEq, Eq)]
pub enum State {
    Walking,
    Interrupted,
    Ended,
}

#[derive(Clone, Copy, Debug, PartialEq, Eq)]
pub enum Call {
    // Performs the point's access, and moves to a successor.
    Step(usize),
    // Performs the access of an exit, and ends the run.
    Finish,
    // Begins an interruption.
    Interrupt,
    // One access of an evicting block.
    Touch(u32),
    // Ends the interruption.
    Resume,
}

// Plain loads are those of the same steps, uninterrupted, on an LRU cache that is empty at first.
#[derive(Clone, Copy, Debug, Default, PartialEq, Eq)]
pub struct Counts {
    pub steps: u32,
    pub interruptions: u32,
    pub loads: u32,
    pub plain: u32,
    pub charge: u32,
}
