ghost use Rattle.ledger.specs.declared.Call.TheVariants.{Finish, Interrupt, Resume, Step, Touch};
ghost use Rattle.bench.specs.Benches.{Obeys, Performs};

use crate::Bench;
use crate::answer::Answer;
use crate::fault::BenchFault;
use cache::Cache;
use ledger::{Call, State};

impl<'t, C: Cache> Bench<'t, C> {
    // Obeys the call, or refuses it and stays as it was.
    pub fn call(&mut self, call: Call) -> Result<Answer, BenchFault>
        ensures { Obeys self.old call result self.new }
    {
        self.obey(call)
    }

    // The five calls by name, each one line: a generic form would be no shorter.

    // Performs the point's access, and moves to a successor.
    pub fn step(&mut self, to: usize) -> Result<Answer, BenchFault>
        ensures { Obeys self.old (Step to) result self.new }
    {
        self.call(Call::Step(to))
    }

    // Performs the access of an exit, and ends the run.
    pub fn finish(&mut self) -> Result<Answer, BenchFault>
        ensures { Obeys self.old Finish result self.new }
    {
        self.call(Call::Finish)
    }

    // Begins an interruption.
    pub fn interrupt(&mut self) -> Result<Answer, BenchFault>
        ensures { Obeys self.old Interrupt result self.new }
    {
        self.call(Call::Interrupt)
    }

    // One access of an evicting block, while interrupted.
    pub fn touch(&mut self, block: u32) -> Result<Answer, BenchFault>
        ensures { Obeys self.old (Touch block) result self.new }
    {
        self.call(Call::Touch(block))
    }

    // Ends the interruption.
    pub fn resume(&mut self) -> Result<Answer, BenchFault>
        ensures { Obeys self.old Resume result self.new }
    {
        self.call(Call::Resume)
    }

    // The bar first, then what the state and the call say: one match shows every refusal.
    fn obey(&mut self, call: Call) -> Result<Answer, BenchFault>
        ensures { Performs self.old call result self.new }
    {
        self.setup.bar()?;
        match (self.state, call) {
            (State::Ended, _) => Err(BenchFault::Ended),
            (State::Walking, Call::Step(to)) => self.walk(to),
            (State::Walking, Call::Finish) => self.leave(),
            (State::Walking, Call::Interrupt) => self.break_off(),
            (State::Walking, _) => Err(BenchFault::NotInterrupted),
            (State::Interrupted, Call::Touch(block)) => self.disturb(block),
            (State::Interrupted, Call::Resume) => {
                self.state = State::Walking;
                Ok(Answer::Done)
            }
            (State::Interrupted, _) => Err(BenchFault::Interrupted),
        }
    }
}
