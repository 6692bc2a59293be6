ghost use Rattle.std.specs.Prelude.{◌≡◌, ◌≤◌, Bool, true, List, [], ◌∷◌, ◌++◌, length, if◌then◌else◌, vec_len, vec_capacity, nat_le, IfOk, OnOk, OnErr};
ghost use Rattle.task.specs.Adding.{changed_if, evicting_verdict, fits, point_verdict, too_many};
ghost use Rattle.task.specs.Answers.{Starts, verdict_said};
ghost use Rattle.task.specs.Blocks.{noted};
ghost use Rattle.task.specs.Contents.{add_evicting, add_point, task_with};
ghost use Rattle.task.specs.Drafts.{draft_contents};
ghost use Rattle.task.specs.Legal.{legal_evicting, legal_parameters};
ghost use Rattle.task.specs.Lists.{rising};
ghost use Rattle.task.specs.Meaning.{all_contents, point_contents};

use crate::draft::TaskDraft;
use crate::faults::{AddFault, StartFault};
use crate::parameters::CacheParameters;
use crate::point::Point;
use std::alloc::{AllocError, Global};

const MAX_POINTS: usize = 128;

const MAX_BLOCKS: usize = 64;

const MAX_EVICTING: usize = 64;

impl TaskDraft {
    // A draft without points and evicting blocks.
    pub fn new(heap: Global, cache: CacheParameters) -> Result<TaskDraft, StartFault>
        ensures { Starts cache result }
    {
        if !is_legal(cache) {
            return Err(StartFault::Value);
        }
        Ok(TaskDraft::reserve(heap, cache)?)
    }

    // A draft on a cache that is known to be legal.
    pub(crate) fn reserve(heap: Global, cache: CacheParameters) -> Result<TaskDraft, AllocError>
        requires { legal_parameters cache.sets cache.ways cache.reload ≡ true }
        ensures { IfOk result (λ d. draft_contents d ≡ task_with cache.sets cache.ways cache.reload [] []) }
    {
        Ok(TaskDraft {
            cache,
            points: Vec::with_capacity(heap, MAX_POINTS)?,
            blocks: Vec::with_capacity(heap, MAX_BLOCKS)?,
            evicting: Vec::with_capacity(heap, MAX_EVICTING)?,
        })
    }

    // One point more, or a refusal that leaves the draft as it was.
    pub fn add_point(&mut self, point: Point) -> Result<(), AddFault>
        ensures verdict { verdict_said result ≡ point_verdict (draft_contents self.old) (point_contents point) }
        ensures after { draft_contents self.new ≡ changed_if (verdict_said result) (add_point (draft_contents self.old) (point_contents point)) (draft_contents self.old) }
    {
        if self.points.len() == MAX_POINTS {
            return Err(AddFault::Number);
        }
        note_access(&mut self.blocks, point.access())?;
        self.points.push_reserved(point);
        Ok(())
    }

    // One evicting block more, or a refusal that leaves the draft as it was.
    pub fn add_evicting(&mut self, block: u32) -> Result<(), AddFault>
        ensures verdict { verdict_said result ≡ evicting_verdict (draft_contents self.old) block }
        ensures after { draft_contents self.new ≡ changed_if (verdict_said result) (add_evicting (draft_contents self.old) block) (draft_contents self.old) }
    {
        if !may_follow(&self.evicting, block) {
            return Err(AddFault::Value);
        }
        if self.evicting.len() == MAX_EVICTING {
            return Err(AddFault::Number);
        }
        self.evicting.push_reserved(block);
        Ok(())
    }

    pub(crate) fn parameters(&self) -> CacheParameters
        ensures { result ≡ self.now.cache }
    {
        self.cache
    }

    pub(crate) fn blocks(&self) -> &[u32]
        ensures { result.now ≡ self.now.blocks.items }
    {
        self.blocks.as_slice()
    }

    pub fn points(&self) -> &[Point]
        ensures { all_contents result.now ≡ (draft_contents self.now).points }
    {
        self.points.as_slice()
    }

    pub fn evicting(&self) -> &[u32]
        ensures { result.now ≡ (draft_contents self.now).evicting }
    {
        self.evicting.as_slice()
    }
}

fn is_legal(cache: CacheParameters) -> bool
    ensures { result ≡ legal_parameters cache.sets cache.ways cache.reload }
{
    matches!(cache.sets, 1..=64) && matches!(cache.ways, 1..=8) && cache.reload <= 1_000_000
}

// Adds the block of an access where it is new.
fn note_access(blocks: &mut Vec<u32>, access: Option<u32>) -> Result<(), AddFault>
    requires few { vec_len blocks.old ≤ 64 }
    requires room { 64 ≤ vec_capacity blocks.old }
    ensures verdict { verdict_said result ≡ (if nat_le (length (noted blocks.old.items access)) 64 then fits else too_many) }
    ensures ok { OnOk result (blocks.new.items ≡ noted blocks.old.items access) }
    ensures err { OnErr result (blocks.new.items ≡ blocks.old.items) }
    ensures capacity { vec_capacity blocks.new ≡ vec_capacity blocks.old }
{
    let Some(block) = access else {
        return Ok(());
    };
    if blocks.contains(&block) {
        return Ok(());
    }
    if blocks.len() == MAX_BLOCKS {
        return Err(AddFault::Number);
    }
    blocks.push_reserved(block);
    Ok(())
}

// Legal evicting blocks stay legal with the block at their end.
fn may_follow(evicting: &[u32], block: u32) -> bool
    ensures { legal_evicting evicting.now ≡ true → result ≡ legal_evicting (evicting.now ++ (block ∷ [])) }
{
    block <= Point::MAX_BLOCK && is_above_last(evicting, block)
}

// A rising list goes on to rise with the block at its end.
fn is_above_last(rises: &[u32], block: u32) -> bool
    ensures { rising rises.now ≡ true → result ≡ rising (rises.now ++ (block ∷ [])) }
{
    rises.last().is_none_or(|last| *last < block)
}
