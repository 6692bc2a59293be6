ghost use Rattle.recency.specs.Blocks.{has};
ghost use Rattle.recency.specs.Rows.{list_of};
ghost use Rattle.cache.specs.LruState.{LruVouches, lru_row};
ghost use Rattle.recency.proofs.Prefixes.{empty_prefixes, prefixes_are_row, prefixes_have};
ghost use Rattle.std.proofs.Common.{rules};

use bench::Bench;
use bench::answer::Answer;
use bench::fault::BenchFault;
use cache::Cache;
use cache::fifo::Fifo;
use cache::lru::Lru;
use cache::outcome::Outcome;
use conflicts::ConflictKind;
use fixpoint::RowKind;
use ledger::{Call, Counts};
use plru::plru::Plru;
use rowkinds::ages::AgeKind;
use std::alloc::Global;
use std::process::Abort;
use std::test::Fail;
use tables::{TableMemory, Tables};
use task::draft::TaskDraft;
use task::parameters::CacheParameters;
use task::point::Point;
use task::task::Task;
use widest::next_uses::NextUseKind;

// A cache that forgets all that the rules do not force: it holds the LRU lists of `life` ways, and nothing else.
#[derive(Drop)]
struct Forgetful {
    lists: Lru,
}

impl Cache for Forgetful {
    ghost sets = { λ c. c.lists.sets };

    ghost life = { λ c. c.lists.ways };

    ghost holds = { λ c b. has b (list_of c.lists.sets b (lru_row c.lists)) };

    ghost vouches = { λ c. LruVouches c.lists };

    ghost has_sets = { Prim.search rules };

    ghost has_life = { Prim.search rules };

    ghost vouches_for_empty_lists = { λ c. empty_prefixes c.lists.sets c.lists.ways (lru_row c.lists) c.lists.row };

    ghost vouches_for_rows = { λ c row v. prefixes_are_row c.lists.sets c.lists.ways row (lru_row c.lists) v c.lists.row };

    ghost holds_what_it_vouches_for = { λ c row b v. prefixes_have c.lists.sets c.lists.ways row (lru_row c.lists) v c.lists.row c.lists.some_sets b };

    fn sets(&self) -> u8 {
        self.lists.sets()
    }

    fn life(&self) -> u8 {
        self.lists.life()
    }

    fn access(&mut self, block: u32) -> Outcome {
        self.lists.access(block)
    }
}

fn task_of(
    heap: Global,
    cache: CacheParameters,
    points: &[(Option<u32>, &[u8])],
    evicting: u32,
) -> Result<Task, Fail> {
    let mut draft = TaskDraft::new(heap, cache)?;
    for (access, successors) in points {
        let point = Point::new(*access, successors).ok_or_else(|| Fail::new("no point"))?;
        draft.add_point(point)?;
    }
    draft.add_evicting(evicting)?;
    draft.finish().map_err(|_| Fail::new("no task"))
}

// Points 0 to 3 access 8 to 11 in a loop, which fills the set; point 4 is the exit.
fn loop_of_four(heap: Global) -> Result<Task, Fail> {
    task_of(
        heap,
        CacheParameters {
            sets: 1,
            ways: 4,
            reload: 0,
        },
        &[
            (Some(8), &[1]),
            (Some(9), &[2]),
            (Some(10), &[3]),
            (Some(11), &[0, 4]),
            (None, &[]),
        ],
        14,
    )
}

// Points 0 and 1 access 4 and 5, which lie in two sets, in a loop; point 2 is the exit.
fn loop_of_two(heap: Global) -> Result<Task, Fail> {
    task_of(
        heap,
        CacheParameters {
            sets: 2,
            ways: 1,
            reload: 10,
        },
        &[(Some(4), &[1]), (Some(5), &[0, 2]), (None, &[])],
        6,
    )
}

// What a call says, a refusal by its number.
type Said = Result<Answer, u8>;

const HIT: Said = Ok(Answer::Access(Outcome::Hit));

const MISS: Said = Ok(Answer::Access(Outcome::Miss));

const NO_ACCESS: Said = Ok(Answer::NoAccess);

const DONE: Said = Ok(Answer::Done);

fn said(answer: Result<Answer, BenchFault>) -> Said {
    answer.map_err(BenchFault::number)
}

// Makes the calls on a bench with tables of so many rows, and holds each answer to what is expected.
fn check_calls<C: Cache + Drop>(
    rt: &impl Abort,
    task: &Task,
    rows: usize,
    cache: C,
    calls: &[(Call, Said)],
) -> Counts {
    // by hand and not in a `TableMemory`, since one table is to be too short
    let mut ages = [AgeKind::of(task).start(); 5];
    let mut reuses = ages;
    let mut conflicts = [ConflictKind::of(task).start(); 5];
    let mut widest = [NextUseKind::of(task).start(); 5];
    let rows = rows.min(5);
    let mut tables = Tables::over(&mut ages, &mut reuses, &mut conflicts[0..rows], &mut widest);
    let mut bench = Bench::new(task, &mut tables, cache);
    for (call, expected) in calls {
        assert_eq!(rt; said(bench.call(*call)), *expected);
    }
    bench.read()
}

fn check_counts(rt: &impl Abort, counts: Counts, expected: [u32; 5]) {
    let Counts {
        steps,
        interruptions,
        loads,
        plain,
        charge,
    } = counts;
    assert_eq!(rt; [steps, interruptions, loads, plain, charge], expected);
}

// Once round the loop of four, an interruption at its begin, and once more round.
fn interrupted_loop(first: Said, second: Said) -> [(Call, Said); 12] {
    [
        (Call::Step(1), first),
        (Call::Step(2), first),
        (Call::Step(3), first),
        (Call::Step(0), first),
        (Call::Interrupt, DONE),
        (Call::Touch(14), MISS),
        (Call::Resume, DONE),
        (Call::Step(1), second),
        (Call::Step(2), second),
        (Call::Step(3), second),
        (Call::Step(0), second),
        (Call::Step(4), Err(18)),
    ]
}

// The same calls on LRU, on a tree of 8 ways, whose life is 4, and on the forgetful cache.
#[test]
fn loop_on_three_caches(rt: HostRuntime) -> Result<(), Fail> {
    let task = loop_of_four(rt.alloc())?;
    let lru = check_calls(
        &rt,
        &task,
        5,
        Lru::new(1, 4)?,
        &interrupted_loop(MISS, MISS),
    );
    check_counts(&rt, lru, [8, 1, 8, 4, 4]);
    let tree = check_calls(
        &rt,
        &task,
        5,
        Plru::new(1, 8)?,
        &interrupted_loop(MISS, HIT),
    );
    check_counts(&rt, tree, [8, 1, 4, 4, 4]);
    let forgetful = Forgetful {
        lists: Lru::new(1, 4)?,
    };
    let counts = check_calls(&rt, &task, 5, forgetful, &interrupted_loop(MISS, MISS));
    check_counts(&rt, counts, [8, 1, 8, 4, 4]);
    Ok(())
}

// A task of one way, on FIFO, which still has block 4 after the interruption, and on the forgetful cache, which has not.
#[test]
fn one_way_on_fifo(rt: HostRuntime) -> Result<(), Fail> {
    let task = loop_of_two(rt.alloc())?;
    for (forgets, again, loads) in [(false, HIT, 2), (true, MISS, 3)] {
        let calls = [
            (Call::Step(1), MISS),
            (Call::Step(0), MISS),
            (Call::Interrupt, DONE),
            (Call::Touch(6), MISS),
            (Call::Resume, DONE),
            (Call::Step(1), again),
            (Call::Step(2), HIT),
            (Call::Finish, NO_ACCESS),
            (Call::Interrupt, Err(23)),
        ];
        let counts = if forgets {
            let lists = Lru::new(2, 1)?;
            check_calls(&rt, &task, 3, Forgetful { lists }, &calls)
        } else {
            check_calls(&rt, &task, 3, Fifo::new(2, 2)?, &calls)
        };
        check_counts(&rt, counts, [5, 1, loads, 2, 1]);
    }
    Ok(())
}

// What every call is told.
fn all_refused(number: u8) -> [(Call, Said); 5] {
    [
        (Call::Step(1), Err(number)),
        (Call::Finish, Err(number)),
        (Call::Interrupt, Err(number)),
        (Call::Touch(14), Err(number)),
        (Call::Resume, Err(number)),
    ]
}

// A short table, other sets and another life, alone and together: the lowest number is told.
#[test]
fn barred_benches(rt: HostRuntime) -> Result<(), Fail> {
    let task = loop_of_four(rt.alloc())?;
    let cases = [
        (4, 1, 4, 10),
        (5, 2, 4, 14),
        (5, 1, 3, 15),
        (4, 2, 4, 10),
        (4, 1, 3, 10),
        (4, 2, 3, 10),
        (5, 2, 3, 14),
    ];
    for (rows, sets, ways, number) in cases {
        let counts = check_calls(
            &rt,
            &task,
            rows,
            Lru::new(sets, ways)?,
            &all_refused(number),
        );
        check_counts(&rt, counts, [0, 0, 0, 0, 0]);
    }
    Ok(())
}

// Each cause of a bench that is not barred, and those that come before it.
#[test]
fn causes(rt: HostRuntime) -> Result<(), Fail> {
    let task = loop_of_four(rt.alloc())?;
    let calls = [
        (Call::Touch(14), Err(17)),
        (Call::Resume, Err(17)),
        (Call::Step(3), Err(18)),
        (Call::Step(200), Err(18)),
        (Call::Finish, Err(19)),
        (Call::Interrupt, DONE),
        (Call::Step(3), Err(16)),
        (Call::Finish, Err(16)),
        (Call::Interrupt, Err(16)),
        (Call::Touch(8), Err(20)),
        (Call::Resume, DONE),
        (Call::Step(1), MISS),
        (Call::Step(2), MISS),
        (Call::Step(3), MISS),
        (Call::Step(4), MISS),
        (Call::Step(0), Err(18)),
        (Call::Finish, NO_ACCESS),
        (Call::Step(0), Err(23)),
        (Call::Finish, Err(23)),
        (Call::Interrupt, Err(23)),
        (Call::Touch(14), Err(23)),
        (Call::Resume, Err(23)),
    ];
    let counts = check_calls(&rt, &task, 5, Lru::new(1, 4)?, &calls);
    check_counts(&rt, counts, [5, 1, 4, 4, 4]);
    Ok(())
}

// After 60,000 steps and 1,000 interruptions: 16 comes before 21, and 21 and 22 before the rest.
#[test]
fn limits(rt: HostRuntime) -> Result<(), Fail> {
    let task = loop_of_four(rt.alloc())?;
    let mut memory = TableMemory::<5>::of(&task);
    let mut tables = memory.lend();
    let mut bench = Bench::new(&task, &mut tables, Lru::new(1, 4)?);
    for i in 0..60_000 {
        if i < 999 {
            assert_eq!(rt; said(bench.interrupt()), DONE);
            assert_eq!(rt; said(bench.resume()), DONE);
        }
        let _ = bench.step((i + 1) % 4);
    }
    assert_eq!(rt; said(bench.step(1)), Err(21));
    assert_eq!(rt; said(bench.finish()), Err(21));
    assert_eq!(rt; said(bench.interrupt()), DONE);
    assert_eq!(rt; said(bench.step(1)), Err(16));
    assert_eq!(rt; said(bench.touch(14)), MISS);
    assert_eq!(rt; said(bench.resume()), DONE);
    assert_eq!(rt; said(bench.interrupt()), Err(22));
    check_counts(&rt, bench.read(), [60_000, 1_000, 4, 4, 4_000]);
    Ok(())
}
