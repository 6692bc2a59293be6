use crate::plru::Plru;
use cache::fault::CacheFault;
use cache::run::run_accesses;
use std::test::Fail;

// The ways fill from the first on; then the bits lead to the ways of 1 and 3.
#[test]
fn fills_then_follows_the_bits(rt: HostRuntime) -> Result<(), Fail> {
    let mut cache = Plru::new(1, 4)?;
    assert_eq!(rt; run_accesses(&mut cache, &[1, 2, 3, 4, 5, 6]), 6);
    assert_eq!(rt; cache.blocks(0), [5, 2, 6, 4].as_slice());
    Ok(())
}

#[test]
fn refuses_sets_before_ways(rt: HostRuntime) -> Result<(), Fail> {
    for (sets, ways, number) in [(1, 6, 13), (65, 4, 12), (65, 6, 12), (0, 4, 12)] {
        let refused = Plru::new(sets, ways).err().map(CacheFault::number);
        assert_eq!(rt; refused, Some(number));
    }
    Ok(())
}
