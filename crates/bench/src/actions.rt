ghost use Rattle.std.specs.Prelude.{◌≡◌, ◌<◌, [], None, Ok, slice_index_or};
ghost use Rattle.task.specs.Blocks.{access_at};
ghost use Rattle.task.specs.Contents.{point_with};
ghost use Rattle.task.specs.Meaning.{point_contents};
ghost use Rattle.ledger.specs.Ledger.{stepped};
ghost use Rattle.ledger.specs.declared.Call.TheVariants.{Finish, Interrupt, Step, Touch};
ghost use Rattle.ledger.specs.declared.State.TheVariants.{Interrupted, Walking};
ghost use Rattle.bench.specs.Benches.{Accesses, IsOpenIn, Performs, answer_of, ledger_in, loads_of, said_hit, setting_of};
ghost use Rattle.bench.specs.declared.answer.Answer.TheVariants.{NoAccess};

use crate::Bench;
use crate::answer::Answer;
use crate::fault::BenchFault;
use cache::Cache;
use cache::outcome::Outcome;
use ledger::State;
use task::point::Point;

const MAX_STEPS: u32 = 60_000;

const MAX_INTERRUPTIONS: u32 = 1_000;

impl<'t, C: Cache> Bench<'t, C> {
    // A step of a task that walks.
    pub(crate) fn walk(&mut self, to: usize) -> Result<Answer, BenchFault>
        requires { IsOpenIn self.old Walking }
        ensures { Performs self.old (Step to) result self.new }
    {
        if self.counts.steps >= MAX_STEPS {
            return Err(BenchFault::StepsUsedUp);
        }
        if !self.here().leads_to(to) {
            return Err(BenchFault::NoSuccessor);
        }
        let answer = self.perform();
        self.point = to;
        Ok(answer)
    }

    // The last step of a task that walks.
    pub(crate) fn leave(&mut self) -> Result<Answer, BenchFault>
        requires { IsOpenIn self.old Walking }
        ensures { Performs self.old Finish result self.new }
    {
        if self.counts.steps >= MAX_STEPS {
            return Err(BenchFault::StepsUsedUp);
        }
        if !self.here().successors().is_empty() {
            return Err(BenchFault::NoExit);
        }
        let answer = self.perform();
        self.state = State::Ended;
        Ok(answer)
    }

    // The point where the task is.
    fn here(&self) -> Point
        ensures { point_contents result ≡ slice_index_or (setting_of self.now).task.points self.now.point (point_with None []) }
    {
        self.setup.task.points()[self.point]
    }

    // Performs the point's access on the cache and on the plain lists, and counts a step, with what was loaded.
    fn perform(&mut self) -> Answer
        requires { self.old.counts.steps < 60000 }
        ensures says { result ≡ answer_of (C.holds self.old.cache) NoAccess (access_at (setting_of self.old).task.points self.old.point) }
        ensures counts { ledger_in self.new ≡ stepped (setting_of self.old) (ledger_in self.old) (said_hit (Ok result)) self.old.state self.old.point }
        ensures accesses { Accesses C.Cache (access_at (setting_of self.old).task.points self.old.point) self.old.cache self.new.cache }
        ensures setting { setting_of self.new ≡ setting_of self.old }
    {
        self.counts.steps += 1;
        let Some(block) = self.here().access() else {
            return Answer::NoAccess;
        };
        let outcome = self.cache.access(block);
        self.counts.loads += loads(outcome);
        self.counts.plain += loads(self.plain.load(block));
        Answer::Access(outcome)
    }

    // Breaks a walking task off, and charges its point's resilient number.
    pub(crate) fn break_off(&mut self) -> Result<Answer, BenchFault>
        requires { IsOpenIn self.old Walking }
        ensures { Performs self.old Interrupt result self.new }
    {
        if self.counts.interruptions >= MAX_INTERRUPTIONS {
            return Err(BenchFault::InterruptionsUsedUp);
        }
        self.counts.interruptions += 1;
        self.counts.charge += self.resilient[self.point] as u32;
        self.state = State::Interrupted;
        Ok(Answer::Done)
    }

    // One access of an interruption, which the plain lists do not see.
    pub(crate) fn disturb(&mut self, block: u32) -> Result<Answer, BenchFault>
        requires { IsOpenIn self.old Interrupted }
        ensures { Performs self.old (Touch block) result self.new }
    {
        // a block that is not found is the cause, in the form that the bench's rules ask for
        let Some(_) = self.setup.task.evicting_index(block) else {
            return Err(BenchFault::NotEvicting);
        };
        Ok(Answer::Access(self.cache.access(block)))
    }
}

// A miss loads its block.
fn loads(outcome: Outcome) -> u32
    ensures { result ≡ loads_of outcome }
{
    u32::from(outcome == Outcome::Miss)
}
