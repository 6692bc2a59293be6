ghost use Rattle.std.specs.Prelude.{◌≡◌, ℕ, Bool, Some, None, Ok, Err};
ghost use Rattle.cache.specs.Sizes.{refusal};

use crate::fault::CacheFault;

// Whether a cache can have this size, where `can_have` says which ways its kind can have.
pub fn check_size<F: FnOnce(u8) -> bool>(sets: u8, ways: u8, can_have: F) -> Result<(), CacheFault>
    requires { F.pre can_have ways }
    ensures { (legal : ℕ → Bool) → ((fits : Bool) → F.post can_have ways fits → fits ≡ legal ways) → elim result [ Ok _ ↦ refusal legal sets ways ≡ None | Err e ↦ refusal legal sets ways ≡ Some e ] }
{
    if !(1..=64).contains(&sets) {
        return Err(CacheFault::Sets);
    }
    if !can_have(ways) {
        return Err(CacheFault::Ways);
    }
    Ok(())
}
