// The four numbers of a point.
#![tactic(auto)]

mod counts;
mod sums;
mod view;

ghost use Rattle.std.specs.Prelude.{◌≡◌};
ghost use Rattle.task.specs.Tasks.{contents};
ghost use Rattle.numbers.specs.Numbers.{numbers};

use crate::counts::{evicting_in_sets, reached_in_sets, useful_in_sets};
use crate::sums::{if_evicting, sum_over};
pub use crate::view::View;
use task::parameters::CacheParameters;
use task::task::Task;

// How many loads one interruption at a point can make the task repeat: by the useful blocks alone, by the evicting blocks
// alone, by both, and by both with resilience.
#[derive(Clone, Copy, Default, PartialEq, Eq)]
pub struct PointNumbers {
    pub useful: u16,
    pub evicting: u16,
    pub combined: u16,
    pub resilient: u16,
}

// The four numbers of a point. A cache set holds at most `ways` blocks, so no set counts for more.
pub fn point_numbers(task: &Task, view: &View) -> PointNumbers
    ensures { result ≡ numbers (contents task.now) view.now }
{
    let CacheParameters { sets, ways, .. } = task.parameters();
    let evicting = evicting_in_sets(task);
    let useful = useful_in_sets(task, view);
    let reached = reached_in_sets(task, view, &evicting);
    PointNumbers {
        useful: sum_over(sets, |s| useful[s].min(ways)),
        evicting: sum_over(sets, |s| if_evicting(evicting[s], ways)),
        combined: sum_over(sets, |s| if_evicting(evicting[s], useful[s].min(ways))),
        resilient: sum_over(sets, |s| if_evicting(evicting[s], reached[s].min(ways))),
    }
}
