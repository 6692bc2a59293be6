use crate::fault::CacheFault;
use crate::fifo::Fifo;
use crate::lru::Lru;
use crate::run::run_accesses;
use std::test::Fail;

// Under FIFO the second run, with an access of 9 more, misses twice as often.
#[test]
fn misses_of_one_set(rt: HostRuntime) -> Result<(), Fail> {
    let runs: [(&[u32], usize, usize); 2] = [
        (&[1, 2, 1, 5, 2, 3, 5], 6, 4),
        (&[1, 2, 9, 1, 5, 2, 3, 5], 8, 8),
    ];
    for (blocks, lru_misses, fifo_misses) in runs {
        let mut lru = Lru::new(1, 2)?;
        assert_eq!(rt; run_accesses(&mut lru, blocks), lru_misses);
        let mut fifo = Fifo::new(1, 2)?;
        assert_eq!(rt; run_accesses(&mut fifo, blocks), fifo_misses);
    }
    Ok(())
}

// The sets are looked at first.
#[test]
fn refused_sizes(rt: HostRuntime) -> Result<(), Fail> {
    for (sets, ways, number) in [(65, 9, 12), (0, 1, 12), (64, 9, 13), (1, 0, 13)] {
        let refused = Lru::new(sets, ways).err().map(CacheFault::number);
        assert_eq!(rt; refused, Some(number));
    }
    Ok(())
}
