mod methods;

ghost use Rattle.std.specs.Prelude.{◌≡◌, length};

use numbers::PointNumbers;
use tables::Rounds;

// In fixed memory, since analysing a task never lacks any: the records of its points (past the last point stand zeros), the largest resilient number, and the rounds of the tables.
#[derive(Clone, Copy)]
pub struct TaskSheet {
    pub records: [PointNumbers; 128],
    pub largest: u16,
    pub rounds: Rounds,
    ghost room: { length records ≡ 128 },
}
