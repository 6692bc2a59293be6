ghost use Rattle.std.specs.Prelude.{◌≡◌};

// A table, or a list of notes, is shorter than the points.
#[derive(Clone, Copy, Debug, PartialEq, Eq)]
pub struct ShortTable;

impl ShortTable {
    pub fn number(self) -> u8
        ensures { result ≡ 10 }
    {
        10
    }
}
