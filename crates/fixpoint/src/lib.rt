// Settles tables of rows over the points of a task.
#![tactic(auto)]

pub mod direction;
pub mod fault;
mod solve;
pub mod table;
#[cfg(test)]
mod tests;

ghost use Rattle.std.specs.Prelude.{◌≡◌, Decides};
ghost use Rattle.fixpoint.specs.Kinds.{Laws, Meaning};

// A kind of row, by what it means and the laws that it shows. Its methods take any row and note.
pub trait RowKind {
    type Row: Copy;

    type Note;

    ghost meaning: { Self → Meaning Self.Row Self.Note };

    fn start(&self) -> Self::Row
        ensures { result ≡ (meaning self.now).start };

    fn merge(&self, a: &Self::Row, b: &Self::Row) -> Self::Row
        ensures { result ≡ (meaning self.now).merge a.now b.now };

    fn advance(&self, row: &Self::Row, note: &Self::Note) -> Self::Row
        ensures { result ≡ (meaning self.now).advance row.now note.now };

    fn height(&self) -> u32
        ensures { result ≡ (meaning self.now).height };

    // A call and no `==`, so that rows of any type will do.
    fn same(&self, a: &Self::Row, b: &Self::Row) -> bool
        ensures { Decides result (a.now ≡ b.now) };

    ghost lawful: { (k : Self) → Laws (meaning k) };
}
