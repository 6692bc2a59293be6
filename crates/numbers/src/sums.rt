// Numbers added up over cache sets.
ghost use Rattle.std.specs.Prelude.{◌≡◌, ℕ, ◌<◌, ◌≤◌};
ghost use Rattle.numbers.specs.Counts.{sum_below};
ghost use Rattle.numbers.specs.Numbers.{if_evicting};

// The numbers of the first cache sets, added up.
pub(crate) fn sum_over<F: Fn(usize) -> u8>(sets: u8, number: F) -> u16
    requires few { sets ≤ 64 }
    requires callable { (s : ℕ) → s < 64 → F.pre number s }
    ensures { (f : ℕ → ℕ) → ((s n : ℕ) → s < 64 → F.post number s n → n ≡ f s) → result ≡ sum_below f sets }
{
    let mut sum = 0;
    for s in 0..sets as usize {
        sum += u16::from(number(s));
    }
    sum
}

// A number for a cache set, where an interruption accesses it at all.
pub(crate) fn if_evicting(evicting: u8, n: u8) -> u8
    ensures { result ≡ if_evicting evicting n }
{
    if evicting > 0 { n } else { 0 }
}
