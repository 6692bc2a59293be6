// The lines that a replay reads its calls from.
ghost use Rattle.std.specs.Prelude.{◌≡◌, ◌≢◌, Result, None, slice_index};
ghost use Rattle.std.specs.Result.{result_ok};
ghost use Rattle.runtext.specs.Calls.{all_blank, call_of, line_of};

use ledger::Call;
use std::str::FromStr;

// What a line says, where it is understood.
#[derive(Clone, Copy, Debug, PartialEq, Eq)]
pub enum RunLine {
    // Blank, or a comment.
    Nothing,
    // The counts are wanted.
    Read,
    Call(Call),
}

// A line that says nothing of a run.
#[derive(Clone, Copy, Debug, PartialEq, Eq)]
pub struct NotUnderstood;

// Reads a line, without its line feed.
impl FromStr for RunLine {
    type Err = NotUnderstood;

    ghost from_str_gives = { λ line r. result_ok r ≡ line_of line };

    fn from_str(line: &str) -> Result<RunLine, NotUnderstood> {
        if line.starts_with('#') || is_blank(line.as_bytes()) {
            return Ok(RunLine::Nothing);
        }
        if line == "read" {
            return Ok(RunLine::Read);
        }
        let call = call_from(line).ok_or(NotUnderstood)?;
        Ok(RunLine::Call(call))
    }
}

fn is_blank(line: &[u8]) -> bool
    ensures { result ≡ all_blank line.now }
{
    line.iter().all(|c| *c == b' ')
}

// No `FromStr`, which would stand in the ledger's crate and tell it the text of one program.
fn call_from(line: &str) -> Option<Call>
    ensures { result ≡ call_of line.now }
{
    if let Some(digits) = line.strip_prefix("step ") {
        let point: usize = number_from(digits)?;
        return Some(Call::Step(point));
    }
    if let Some(digits) = line.strip_prefix("touch ") {
        let block: u32 = number_from(digits)?;
        return Some(Call::Touch(block));
    }
    match line {
        "finish" => Some(Call::Finish),
        "interrupt" => Some(Call::Interrupt),
        "resume" => Some(Call::Resume),
        _ => None,
    }
}

// A number of the type that is wanted, without the sign that `parse` takes.
pub fn number_from<T: FromStr>(digits: &str) -> Option<T>
where
    T::Err: Drop,
    ensures signed { slice_index digits.now 0 ≡ 43 → result ≡ None }
    ensures plain { slice_index digits.now 0 ≢ 43 → (r : Result T T.Err) × T.from_str_gives digits.now r × (result ≡ result_ok r) }
{
    if digits.starts_with('+') {
        return None;
    }
    digits.parse().ok()
}
