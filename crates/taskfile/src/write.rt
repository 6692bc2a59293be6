ghost use Rattle.std.specs.Prelude.{◌≡◌, ℕ, List, ◌+◌, ◌*◌, ◌≤◌, ◌∷◌, ◌++◌, length, take, IfOk};
ghost use Rattle.std.specs.List.{flat_map};
ghost use Rattle.fields.specs.Layout.{field_bytes, header as header_field};
ghost use Rattle.task.specs.Meaning.{all_contents, point_contents};
ghost use Rattle.task.specs.Tasks.{contents};
ghost use Rattle.taskformat.specs.Inverse.{RereadingKeepsTheTask};
ghost use Rattle.taskformat.specs.Reading.{accepted, meaning};
ghost use Rattle.taskformat.specs.Writing.{access_bytes, evicting_field, fields_after_header, four_bytes, last_fields, point_field, task_bytes};
ghost use Rattle.taskfile.specs.Answers.{Filled, Written};

use crate::fault::TooShort;
use crate::sizes::{HEAD_SIZE, point_place};
use fields::Tag;
use task::parameters::CacheParameters;
use task::point::Point;
use task::task::Task;

// Writes the file of a task to the front of a buffer, and answers its length.
pub fn write_task(task: &Task, out: &mut [u8]) -> Result<usize, TooShort>
    ensures answer { Written (task_bytes (contents task.now)) out.old out.new result }
    ensures law { RereadingKeepsTheTask }
    ensures rereading_keeps_the_task { IfOk result (λ n. meaning (take n out.new) ≡ accepted (contents task.now)) }
{
    if out.len() < file_size(task) {
        return Err(TooShort);
    }
    let at = put_header(task.parameters(), out);
    Ok(at + put_fields(task, &mut out[at..]))
}

fn file_size(task: &Task) -> usize
    ensures { result ≡ length (task_bytes (contents task.now)) }
{
    let points = task.points();
    point_place(points, points.len()) + (HEAD_SIZE + 4) * task.evicting().len() + HEAD_SIZE
}

// The fields after the header. Each function of the writer says what it fills of other bytes, so that no type says it once.
fn put_fields(task: &Task, out: &mut [u8]) -> usize
    requires { length (flat_map field_bytes (fields_after_header (contents task.now))) ≤ length out.old }
    ensures { Filled (flat_map field_bytes (fields_after_header (contents task.now))) out.old out.new result }
{
    let at = put_all(task.points(), out);
    at + put_last(task.evicting(), &mut out[at..])
}

// The evicting blocks and the end.
fn put_last(blocks: &[u32], out: &mut [u8]) -> usize
    requires { length (flat_map field_bytes (last_fields blocks.now)) ≤ length out.old }
    ensures { Filled (flat_map field_bytes (last_fields blocks.now)) out.old out.new result }
{
    let at = put_all(blocks, out);
    at + put(&[Tag::End as u8, 0, 0], &mut out[at..])
}

fn put_header(cache: CacheParameters, out: &mut [u8]) -> usize
    requires { 9 ≤ length out.old }
    ensures { Filled (field_bytes (header_field (cache.sets ∷ (cache.ways ∷ four_bytes cache.reload)))) out.old out.new result }
{
    let [a, b, c, d] = cache.reload.to_be_bytes();
    put(
        &[Tag::Header as u8, 0, 6, cache.sets, cache.ways, a, b, c, d],
        out,
    )
}

// What stands in a file as a field.
trait AsField {
    ghost bytes: { Self → List ℕ };

    fn put_field(&self, out: &mut [u8]) -> usize
        requires { length (bytes self.now) ≤ length out.old }
        ensures { Filled (bytes self.now) out.old out.new result };
}

// One field after another. The buffer's rest is kept by an index, since the fields differ in length.
fn put_all<T: AsField>(items: &[T], out: &mut [u8]) -> usize
    requires { length (flat_map T.bytes items.now) ≤ length out.old }
    ensures { Filled (flat_map T.bytes items.now) out.old out.new result }
{
    let mut at = 0;
    for item in items {
        at += item.put_field(&mut out[at..]);
    }
    at
}

impl AsField for Point {
    ghost bytes = { λ p. field_bytes (point_field (point_contents p)) };

    fn put_field(&self, out: &mut [u8]) -> usize {
        let successors = self.successors();
        let at = put_access(self.access(), successors.len() as u8, out);
        at + put(successors, &mut out[at..])
    }
}

// A number is an evicting block.
impl AsField for u32 {
    ghost bytes = { λ b. field_bytes (evicting_field b) };

    fn put_field(&self, out: &mut [u8]) -> usize {
        let [a, b, c, d] = self.to_be_bytes();
        put(&[Tag::Evicting as u8, 0, 4, a, b, c, d], out)
    }
}

// A point's field up to its successors.
fn put_access(access: Option<u32>, successors: u8, out: &mut [u8]) -> usize
    requires few { successors ≤ 4 }
    requires room { 3 + length (access_bytes access) ≤ length out.old }
    ensures { Filled (2 ∷ (0 ∷ ((length (access_bytes access) + successors) ∷ access_bytes access))) out.old out.new result }
{
    match access {
        None => put(&[Tag::Point as u8, 0, 1 + successors, 0], out),
        Some(block) => {
            let [a, b, c, d] = block.to_be_bytes();
            put(&[Tag::Point as u8, 0, 5 + successors, 1, a, b, c, d], out)
        }
    }
}

fn put(bytes: &[u8], out: &mut [u8]) -> usize
    requires { length bytes.now ≤ length out.old }
    ensures { Filled bytes.now out.old out.new result }
{
    out[..bytes.len()].copy_from_slice(bytes);
    bytes.len()
}
