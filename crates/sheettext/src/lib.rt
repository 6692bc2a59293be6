// The text for an analysed task.
#![tactic(auto)]

ghost use Rattle.std.specs.Prelude.{◌≡◌, IfOk, string_bytes};
ghost use Rattle.sheettext.specs.Sheets.{analysis_text, point_text};

use numbers::PointNumbers;
use std::alloc::{AllocError, Global};

// The text for an analysed task: a header, a line for each point, and the largest resilient number with its cost.
pub fn analysis_text(
    heap: Global,
    sheet: &[PointNumbers],
    largest: u16,
    reload: u32,
) -> Result<String, AllocError>
    ensures { IfOk result (λ s. string_bytes s ≡ analysis_text sheet.now largest reload) }
{
    let mut text = String::from_str(heap, "point useful evicting combined resilient\n")?;
    for (k, numbers) in sheet.iter().enumerate() {
        text.push_str(point_line(heap, k, *numbers)?.as_str())?;
    }
    let cost = u64::from(largest) * u64::from(reload);
    text.push_str(format!(in heap; "largest {largest} cost {cost}\n")?.as_str())?;
    Ok(text)
}

// The line for a point: its index and its four numbers. One `format!`, since `Display` would fix one text for the record.
fn point_line(heap: Global, index: usize, numbers: PointNumbers) -> Result<String, AllocError>
    ensures { IfOk result (λ s. string_bytes s ≡ point_text index numbers) }
{
    let PointNumbers {
        useful,
        evicting,
        combined,
        resilient,
    } = numbers;
    format!(in heap; "{index} {useful} {evicting} {combined} {resilient}\n")
}
