// Reads a run from standard input, a task, a cache and calls, and prints what each call said.
#![tactic(auto)]

use anyhow::{Context, anyhow};
use cache::Cache;
use cache::fault::CacheFault;
use cache::fifo::Fifo;
use cache::lru::Lru;
use ledger::{Call, Counts};
use plru::plru::Plru;
use replaying::{Played, replay};
use report::refusal_line;
use runtext::answers::{answer_line, counts_line};
use runtext::calls::{NotUnderstood, RunLine, number_from};
use runtext::hex::bytes_from_hex;
use std::alloc::{AllocError, AllocFailed, Global};
use std::io::{BufRead, BufReader};
use std::str::FromStr;
use std::{env, io};
use tables::TableMemory;
use task::task::Task;
use taskfile::fault::TaskFault;
use taskfile::read_task;

const HELP: &str = "usage: replay < RUN.txt

Reads a run from standard input and prints what a bench says to each call.
Blank lines and lines that begin with # are passed over. The first other line is
  task HEX                the bytes of a task file in hexadecimal
the second
  cache POLICY SETS WAYS  POLICY is lru, fifo or tree
and each further line is one call
  step N | finish | interrupt | touch B | resume | read
Prints a line a call, as 'step 1: miss' or 'step 4: refused 18'; for read, and at the end,
  steps S interruptions I loads L plain P charge C
A refused task or cache, or a line that is not understood, ends the run with status 1.
";

#[derive(Clone, Copy)]
enum Policy {
    Lru,
    Fifo,
    Tree,
}

impl FromStr for Policy {
    type Err = NotUnderstood;

    fn from_str(word: &str) -> Result<Policy, NotUnderstood> {
        match word {
            "lru" => Ok(Policy::Lru),
            "fifo" => Ok(Policy::Fifo),
            "tree" => Ok(Policy::Tree),
            _ => Err(NotUnderstood),
        }
    }
}

// The line `cache POLICY SETS WAYS`.
#[derive(Clone, Copy)]
struct CacheLine {
    policy: Policy,
    sets: u8,
    ways: u8,
}

impl FromStr for CacheLine {
    type Err = NotUnderstood;

    fn from_str(line: &str) -> Result<CacheLine, NotUnderstood> {
        let rest = line.strip_prefix("cache ").ok_or(NotUnderstood)?;
        let (policy, size) = rest.split_once(' ').ok_or(NotUnderstood)?;
        let (sets, ways) = size.split_once(' ').ok_or(NotUnderstood)?;
        Ok(CacheLine {
            policy: policy.parse()?,
            sets: size_from(sets)?,
            ways: size_from(ways)?,
        })
    }
}

// What no cache can have stands for all that is larger.
fn size_from(digits: &str) -> Result<u8, NotUnderstood> {
    let n: u32 = number_from(digits).ok_or(NotUnderstood)?;
    Ok(n.min(255) as u8)
}

// Why a run is not read to its end.
#[derive(Drop)]
enum Stop {
    NotUnderstood,
    Refused(TaskFault),
    Failed(anyhow::Error),
}

impl From<NotUnderstood> for Stop {
    fn from(_line: NotUnderstood) -> Stop {
        Stop::NotUnderstood
    }
}

impl From<TaskFault> for Stop {
    fn from(fault: TaskFault) -> Stop {
        Stop::Refused(fault)
    }
}

impl From<AllocError> for Stop {
    fn from(error: AllocError) -> Stop {
        Stop::Failed(error.into())
    }
}

impl<T: Drop> From<AllocFailed<T>> for Stop {
    fn from(failed: AllocFailed<T>) -> Stop {
        Stop::from(AllocError::from(failed))
    }
}

impl From<io::Error> for Stop {
    // What is not text is not understood.
    fn from(error: io::Error) -> Stop {
        if matches!(error.kind(), io::ErrorKind::InvalidData) {
            return Stop::NotUnderstood;
        }
        Stop::Failed(error.into())
    }
}

// A run as far as it was read.
#[derive(Drop)]
struct Script {
    task: Option<Task>,
    cache: Option<CacheLine>,
    // the calls, and where the counts are wanted
    asked: Vec<RunLine>,
    // of the line that comes next
    number: usize,
}

impl Script {
    // Takes one more line.
    fn take(&mut self, heap: Global, line: &str) -> Result<(), Stop> {
        let parsed = line.parse();
        if let Ok(RunLine::Nothing) = parsed {
            return Ok(());
        }
        if self.task.is_none() {
            self.task = Some(task_from(heap, line)?);
        } else if self.cache.is_none() {
            self.cache = Some(line.parse()?);
        } else {
            self.asked.push(parsed?)?;
        }
        Ok(())
    }
}

// The task of a line `task HEX`.
fn task_from(heap: Global, line: &str) -> Result<Task, Stop> {
    let hex = line.strip_prefix("task ").ok_or(NotUnderstood)?;
    let bytes = bytes_from_hex(heap, hex.as_bytes())?.ok_or(NotUnderstood)?;
    Ok(read_task(heap, &bytes)?)
}

// Reads the run up to its end, or to the line that ends it.
fn read_script(rt: &HostRuntime, script: &mut Script) -> Result<(), Stop> {
    let heap = rt.alloc();
    // the lines are counted by the script, since the number past the last one is told too
    for line in BufReader::new(heap, rt.stdin())?.lines(heap) {
        script.take(heap, line?.as_str())?;
        script.number = script.number.saturating_add(1);
    }
    Ok(())
}

// Prints what the calls said, and the counts where they are wanted, in one piece; the counts at the end are given back.
fn print_asked(rt: &HostRuntime, asked: &[RunLine], played: &[Played]) -> anyhow::Result<Counts> {
    let heap = rt.alloc();
    let mut counts = Counts::default();
    let mut answers = played.iter();
    let mut text = String::new(heap);
    for line in asked {
        match *line {
            // never comes, since `take` passes it over; without it the list would want an enum of its own
            RunLine::Nothing => {}
            RunLine::Read => text.push_str(counts_line(heap, counts)?.as_str())?,
            RunLine::Call(call) => {
                // both lists are walked together, since answers belong to calls only
                let said = answers.next().context("a call without an answer")?;
                text.push_str(answer_line(heap, call, said.answer)?.as_str())?;
                counts = said.counts;
            }
        }
    }
    rt.print(text)?;
    Ok(counts)
}

fn call_in(line: &RunLine) -> Option<Call> {
    match *line {
        RunLine::Call(call) => Some(call),
        _ => None,
    }
}

// Replays the calls on a bench over a cache, or says why there is no such cache.
fn play<C: Cache + Drop>(
    rt: &HostRuntime,
    task: &Task,
    cache: Result<C, CacheFault>,
    asked: &[RunLine],
) -> anyhow::Result<Counts> {
    let cache = match cache {
        Ok(cache) => cache,
        Err(fault) => {
            let number = fault.number();
            print!(rt; "refused {number}\n")?;
            return Err(anyhow!("refused"));
        }
    };
    let mut memory = TableMemory::<128>::of(task);
    let mut tables = memory.lend();
    let heap = rt.alloc();
    let calls: Vec<Call> = asked.iter().filter_map(call_in).collect(heap)?;
    let run = replay(heap, task, &mut tables, cache, &calls)?;
    print_asked(rt, asked, &run.played)
}

// Replays the calls on the cache of a line.
fn play_on(
    rt: &HostRuntime,
    task: &Task,
    line: CacheLine,
    asked: &[RunLine],
) -> anyhow::Result<Counts> {
    let CacheLine { policy, sets, ways } = line;
    match policy {
        Policy::Lru => play(rt, task, Lru::new(sets, ways), asked),
        Policy::Fifo => play(rt, task, Fifo::new(sets, ways), asked),
        Policy::Tree => play(rt, task, Plru::new(sets, ways), asked),
    }
}

fn main(rt: HostRuntime) -> anyhow::Result<()> {
    // in each program: no library below both knows arguments
    if let Some(arg) = env::args(&rt)?.nth(1) {
        rt.print(HELP)?;
        return if arg.as_str() == "--help" {
            Ok(())
        } else {
            Err(anyhow!("unknown argument"))
        };
    }
    let heap = rt.alloc();
    let mut script = Script {
        task: None,
        cache: None,
        asked: Vec::new(heap),
        number: 1,
    };
    match read_script(&rt, &mut script) {
        Ok(()) => run(&rt, &script, Ok(())),
        Err(Stop::NotUnderstood) => run(&rt, &script, Err(NotUnderstood)),
        Err(Stop::Refused(fault)) => {
            rt.print(refusal_line(heap, fault)?)?;
            Err(anyhow!("refused"))
        }
        Err(Stop::Failed(error)) => Err(error),
    }
}

// Replays what was read, and says what ends it; `end` is how the reading ended.
fn run(rt: &HostRuntime, script: &Script, end: Result<(), NotUnderstood>) -> anyhow::Result<()> {
    if let (Some(task), Some(line)) = (&script.task, script.cache) {
        let counts = play_on(rt, task, line, &script.asked)?;
        if end.is_ok() {
            rt.print(counts_line(rt.alloc(), counts)?)?;
            return Ok(());
        }
    }
    let number = script.number;
    print!(rt; "line {number} not understood\n")?;
    Err(anyhow!("not understood"))
}
