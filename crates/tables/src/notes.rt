ghost use Rattle.std.specs.Prelude.{◌≡◌, ℕ, ◌<◌, ◌≤◌, length, take, None, slice_index_or};
ghost use Rattle.std.specs.List.{slice_get};
ghost use Rattle.std.specs.Option.{option_and_then};
ghost use Rattle.task.specs.Tasks.{contents};
ghost use Rattle.tables.specs.Tables.{access_notes, use_note, use_notes};

use conflicts::Conflicts;
use fixpoint::table::Table;
use std::array;
use task::task::Task;
use widest::next_uses::NextUse;

// Notes lie in fixed memory, since settling never lacks any. Clauses see an array as a list, so that each says its length.

// The index of the block that each point accesses. Past the last point stands none.
pub(crate) fn access_notes(task: &Task) -> [Option<usize>; 128]
    ensures room { length result ≡ 128 }
    ensures notes { take (length (contents task.now).points) result ≡ access_notes (contents task.now) }
{
    array::from_fn(|p| task.block_index(p))
}

// The note of each point for widest next uses, from the rows of conflict sets. Where there is no row stands none.
pub(crate) fn use_notes(
    rows: &Table<'_, Conflicts>,
    notes: &[Option<usize>; 128],
) -> [Option<NextUse>; 128]
    ensures room { length result ≡ 128 }
    ensures notes { (n : ℕ) → n ≤ 128 → n ≤ length rows.now.rows.now → take n result ≡ use_notes (take n rows.now.rows.now) (take n notes.now) }
{
    array::from_fn(|p| use_note_at(rows, notes, p))
}

// The note of a point that has a row. Its block comes first, so that no row is copied where there is none, as past the last
// point.
fn use_note_at(
    rows: &Table<'_, Conflicts>,
    notes: &[Option<usize>; 128],
    p: usize,
) -> Option<NextUse>
    requires { p < 128 }
    ensures { result ≡ option_and_then (λ row. use_note row (slice_index_or notes.now p None)) (slice_get rows.now.rows.now p) }
{
    let block = notes[p]?;
    use_note(&rows.row(p)?, Some(block))
}

// The block of an access, with how many blocks conflict with it before the access.
pub(crate) fn use_note(row: &Conflicts, note: Option<usize>) -> Option<NextUse>
    ensures { result ≡ use_note row.now note }
{
    let block = note?;
    let conflicts = row.set(block).map(|set| set.count() as u8);
    Some(NextUse { block, conflicts })
}
