// Reads a task file from standard input, and says what it holds or why it is refused.
#![tactic(auto)]

use anyhow::anyhow;
use report::{refusal_line, summary_line};
use std::env;
use std::io::Read;
use taskfile::read_task;

// Longer than any task file that is accepted.
const MAX_INPUT: u64 = 4096;

const HELP: &str = "usage: crpd < FILE.task

Reads a task file of at most 4096 bytes from standard input.
Prints one line on the task that it holds:
  sets S ways W reload R points P blocks B evicting E
or why the file is refused, and then ends with status 1:
  refused LAYER NUMBER at PLACE
";

fn main(rt: HostRuntime) -> anyhow::Result<()> {
    // in each program: no library below both knows arguments
    if let Some(arg) = env::args(&rt)?.nth(1) {
        rt.print(HELP)?;
        return if arg.as_str() == "--help" {
            Ok(())
        } else {
            Err(anyhow!("unknown argument"))
        };
    }
    let heap = rt.alloc();
    let mut file = Vec::new(heap);
    rt.stdin().take(MAX_INPUT).read_to_end(&mut file)?;
    match read_task(heap, &file) {
        Ok(task) => {
            rt.print(summary_line(heap, &task)?)?;
            Ok(())
        }
        Err(fault) => {
            rt.print(refusal_line(heap, fault)?)?;
            Err(anyhow!("refused"))
        }
    }
}
