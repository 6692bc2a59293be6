// The lines that a replay prints.
ghost use Rattle.std.specs.Prelude.{◌≡◌, IfOk, string_bytes};
ghost use Rattle.runtext.specs.Answers.{answer_text, answer_words, call_words, counts_text};

use bench::answer::Answer;
use bench::fault::BenchFault;
use cache::outcome::Outcome;
use ledger::{Call, Counts};
use std::alloc::{AllocError, Global};

// The line for a call: its words, and its answer or the number of the refusal.
pub fn answer_line(
    heap: Global,
    call: Call,
    answer: Result<Answer, BenchFault>,
) -> Result<String, AllocError>
    ensures { IfOk result (λ s. string_bytes s ≡ answer_text call answer) }
{
    let words = call_words(heap, call)?;
    let said = answer_words(heap, answer)?;
    format!(in heap; "{words}: {said}\n")
}

// The line for the counts so far.
pub fn counts_line(heap: Global, counts: Counts) -> Result<String, AllocError>
    ensures { IfOk result (λ s. string_bytes s ≡ counts_text counts) }
{
    let Counts {
        steps,
        interruptions,
        loads,
        plain,
        charge,
    } = counts;
    format!(in heap;
        "steps {steps} interruptions {interruptions} loads {loads} plain {plain} charge {charge}\n"
    )
}

// A call as the input has it. Calls, answers and counts are types of other crates, where alone they could be `Display`.
fn call_words(heap: Global, call: Call) -> Result<String, AllocError>
    ensures { IfOk result (λ s. string_bytes s ≡ call_words call) }
{
    match call {
        Call::Step(point) => format!(in heap; "step {point}"),
        Call::Finish => String::from_str(heap, "finish"),
        Call::Interrupt => String::from_str(heap, "interrupt"),
        Call::Touch(block) => format!(in heap; "touch {block}"),
        Call::Resume => String::from_str(heap, "resume"),
    }
}

fn answer_words(heap: Global, answer: Result<Answer, BenchFault>) -> Result<String, AllocError>
    ensures { IfOk result (λ s. string_bytes s ≡ answer_words answer) }
{
    match answer {
        Ok(Answer::Access(Outcome::Hit)) => String::from_str(heap, "hit"),
        Ok(Answer::Access(Outcome::Miss)) => String::from_str(heap, "miss"),
        Ok(Answer::NoAccess) => String::from_str(heap, "none"),
        Ok(Answer::Done) => String::from_str(heap, "ok"),
        Err(fault) => {
            let number = fault.number();
            format!(in heap; "refused {number}")
        }
    }
}
