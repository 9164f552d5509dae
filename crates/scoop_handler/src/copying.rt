//! A state that replaces another one in the same room.

ghost use Rattle.std.specs.Prelude.{◌≡◌, ◌≤◌, length, vec_capacity, OnOk, OnErr};

use crate::mark::Mark;
use scoop_message::OutOfMemory;
use scoop_queue::QueueOfQueues;
use std::alloc::Allocator;

// Makes the marks the same as these. There is room for them.
fn fill_marks<A: Allocator>(marks: &mut Vec<Mark, A>, from: &[Mark])
    requires { length from.now ≤ vec_capacity marks.old }
    ensures { marks.new.items ≡ from.now }
{
    if marks.len() == from.len() {
        marks.copy_from_slice(from);
        return;
    }
    marks.clear();
    let Ok(()) = marks.extend_from_slice(from) else {
        unreachable!()
    };
}

/// Makes marks and private queues the same as these. An `Err` changes nothing.
pub(crate) fn copy_parts<A: Allocator + Copy>(
    marks: &mut Vec<Mark, A>,
    queues: &mut QueueOfQueues<A>,
    from_marks: &[Mark],
    from_queues: &QueueOfQueues<A>,
) -> Result<(), OutOfMemory>
    ensures marks { OnOk result (marks.new.items ≡ from_marks.now) }
    ensures queues { OnOk result (queues.new ≡ from_queues.now) }
    ensures same_marks { OnErr result (marks.new.items ≡ marks.old.items) }
    ensures same_queues { OnErr result (queues.new ≡ queues.old) }
{
    marks.reserve(from_marks.len().saturating_sub(marks.len()))?;
    queues.copy_from(from_queues)?;
    fill_marks(marks, from_marks);
    Ok(())
}
