// Reads test cases for task files, a name and the bytes in hexadecimal on a line, and answers each on a line: the bytes
// that an accepted file is written back as, or the refusal. The expected answers are in `stdout`.
#![tactic(auto)]

use anyhow::{Context, anyhow};
use report::refusal_line;
use std::alloc::{AllocError, Global};
use std::io::{BufRead, BufReader};
use taskfile::{read_task, write_task};

// Longer than any task file that is accepted.
const MAX_FILE: usize = 2048;

// The bytes of pairs of hexadecimal digits in lower case; `-` stands for none. What is refused is the first pair that is
// wrong, so the pairs are looked at first, and the decoder can only lack memory.
fn bytes_from(heap: Global, digits: &str) -> anyhow::Result<Vec<u8>> {
    if digits == "-" {
        return Ok(Vec::new(heap));
    }
    for pair in digits.as_bytes().chunks(2) {
        let [high, low] = pair else {
            return Err(anyhow!("odd number of digits"));
        };
        if !is_digit(*high) || !is_digit(*low) {
            return Err(anyhow!("no hexadecimal digit"));
        }
    }
    Ok(hex::decode(heap, digits).map_err(|_| AllocError)?)
}

fn is_digit(byte: u8) -> bool {
    matches!(byte, b'0'..=b'9' | b'a'..=b'f')
}

fn answer(heap: Global, file: &[u8]) -> anyhow::Result<String> {
    let task = match read_task(heap, file) {
        Ok(task) => task,
        Err(fault) => return Ok(refusal_line(heap, fault)?),
    };
    // the writer wants a buffer, and bytes of no file show what it leaves
    let mut out = [0xaa; MAX_FILE];
    let n = write_task(&task, &mut out)
        .ok()
        .context("no room for the file")?;
    let digits = hex::encode(heap, &out[..n])?;
    Ok(format!(in heap; "accepted {digits}\n")?)
}

fn main(rt: HostRuntime) -> anyhow::Result<()> {
    let heap = rt.alloc();
    for line in BufReader::new(heap, rt.stdin())?.lines(heap) {
        let line = line?;
        let (name, digits) = line
            .as_str()
            .split_once(' ')
            .context("no blank after the name")?;
        let file = bytes_from(heap, digits)?;
        let answer = answer(heap, &file)?;
        print!(rt; "{name} {answer}")?;
    }
    Ok(())
}
