ghost use Rattle.std.specs.Prelude.{◌≡◌, Some};
ghost use Rattle.task.specs.declared.faults.AddFault.TheVariants as adds;
ghost use Rattle.task.specs.declared.faults.StartFault.TheVariants as starts;
ghost use Rattle.taskfile.specs.Numbers.{task_number, too_short_number};
ghost use Rattle.taskfile.specs.declared.fault.TaskCause.TheVariants.{Number, Value};
ghost use Rattle.taskfile.specs.Texts.{fault_text};
ghost use Rattle.taskfile.specs.declared.fault.TaskFault.TheVariants.{Fields, Task, Memory};

use fields::FieldFault;
use std::fmt;
use task::faults::{AddFault, StartFault};

// Why the task layer refuses a file.
#[derive(Clone, Copy, Debug, PartialEq, Eq)]
pub enum TaskCause {
    // a field out of order
    Order = 3,
    // a value out of range or not rising, or a length unfit for the mark
    Value = 5,
    // a 129th point, 65th evicting block or 65th distinct block
    Number = 6,
    // a successor that the file lacks
    Successor = 7,
    // bytes after the end field
    Trailing = 8,
}

impl TaskCause {
    // `as` wants the enum's own type, so that each enum of causes says this for itself.
    pub fn number(self) -> u8
        ensures { result ≡ task_number self }
    {
        self as u8
    }
}

// Why a file is not read. A fault of the fields layer travels whole.
#[derive(Clone, Copy, Debug, PartialEq, Eq)]
pub enum TaskFault {
    Fields(FieldFault),
    Task(TaskCause, usize),
    Memory,
}

// The buffer is too short for the file, and as it was.
#[derive(Clone, Copy, Debug, PartialEq, Eq)]
pub struct TooShort;

impl TooShort {
    pub fn number(self) -> u8
        ensures { result ≡ too_short_number }
    {
        9
    }
}

impl From<FieldFault> for TaskFault {
    ghost from_gives = { λ f r. r ≡ Fields f };

    fn from(fault: FieldFault) -> TaskFault {
        TaskFault::Fields(fault)
    }
}

// A header, which stands at the begin of a file, begins no draft.
impl From<StartFault> for TaskFault {
    ghost from_gives = { λ f r. r ≡ elim f [ starts.Value ↦ Task Value 0 | starts.Memory ↦ Memory ] };

    fn from(fault: StartFault) -> TaskFault {
        match fault {
            StartFault::Value => TaskFault::Task(TaskCause::Value, 0),
            StartFault::Memory => TaskFault::Memory,
        }
    }
}

impl fmt::Display for TaskFault {
    ghost output = { λ f. Some (fault_text f) };

    fn fmt<W: fmt::Write>(&self, f: &mut fmt::Formatter<W>) -> fmt::Result {
        match self {
            TaskFault::Fields(fault) => {
                let number = fault.cause.number();
                let place = fault.place;
                write!(f, "refused fields {number} at {place}")
            }
            TaskFault::Task(cause, place) => {
                let number = cause.number();
                write!(f, "refused task {number} at {place}")
            }
            TaskFault::Memory => f.write_str("out of memory"),
        }
    }
}

impl From<AddFault> for TaskCause {
    ghost from_gives = { λ f r. r ≡ elim f [ adds.Value ↦ Value | adds.Number ↦ Number ] };

    fn from(fault: AddFault) -> TaskCause {
        match fault {
            AddFault::Value => TaskCause::Value,
            AddFault::Number => TaskCause::Number,
        }
    }
}
