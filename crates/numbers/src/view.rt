ghost use Rattle.std.specs.Prelude.{◌≡◌, ◌&&◌, None, slice_index_or};
ghost use Rattle.std.specs.List.{slice_get};
ghost use Rattle.rowkinds.specs.Ages.{age_list};
ghost use Rattle.widest.specs.NextUses.{count_list};
ghost use Rattle.numbers.specs.Tests.{below, reached, useful};

use rowkinds::ages::Ages;
use widest::next_uses::NextUses;

// What the tables say of a point: the ages before its access, and the reuse distances and widest next uses from its access
// on.
#[derive(Clone, Copy)]
pub struct View {
    pub ages: Ages,
    pub reuses: Ages,
    pub uses: NextUses,
}

impl View {
    // The block at index i may be in the cache, and may be used again while it still is there.
    pub(crate) fn is_useful(&self, ways: u8, i: usize) -> bool
        ensures { result ≡ useful ways self.now.ages self.now.reuses i }
    {
        is_below(ways, &self.ages, i) && is_below(ways, &self.reuses, i)
    }

    // Useful, and an interruption with so many evicting blocks in its cache set can reach it.
    pub(crate) fn is_at_risk(&self, ways: u8, evicting: u8, i: usize) -> bool
        ensures { result ≡ (useful ways self.now.ages self.now.reuses i && reached ways evicting (slice_index_or (count_list self.now.uses) i None)) }
    {
        self.is_useful(ways, i) && self.is_reached(ways, evicting, i)
    }

    // With so many evicting blocks in its cache set, the next use of the block at index i can miss.
    fn is_reached(&self, ways: u8, evicting: u8, i: usize) -> bool
        ensures { result ≡ reached ways evicting (slice_index_or (count_list self.now.uses) i None) }
    {
        let conflicts = self.uses.conflicts(i);
        conflicts.is_some_and(|n| u16::from(n) + u16::from(evicting) >= u16::from(ways))
    }
}

fn is_below(ways: u8, ages: &Ages, i: usize) -> bool
    ensures { result ≡ below ways (slice_get (age_list ages.now) i) }
{
    ages.age(i).is_some_and(|age| age < ways)
}
