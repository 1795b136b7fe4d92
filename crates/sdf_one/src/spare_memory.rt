//! The spare memory that runs on one thread hand on.

ghost use Rattle.std.specs.Prelude.{IfOk};
ghost use Rattle.sdf_queues.specs.Lists.{AreEmpty};

use sdf_queues::Queue;
use sdf_queues::outputs::renew_outputs;
use std::alloc::{AllocError, Global};
use std::mem;

/// The memory that a run on one thread leaves to the next one: its queues, and its output lists once they are given
/// back. If memory is refused, a run may leave less. A run without samples leaves no queues.
#[derive(Drop)]
pub struct SpareMemory<T> {
    pub(crate) queues: Vec<Queue<T>>,
    pub(crate) outputs: Vec<Vec<T>>,
}

impl<T: Copy> SpareMemory<T> {
    /// Makes empty spare memory. Allocates nothing.
    pub fn none(alloc: Global) -> SpareMemory<T> {
        SpareMemory {
            queues: Vec::new(alloc),
            outputs: Vec::new(alloc),
        }
    }

    /// Keeps the memory of the output lists of a run. The next run drops their samples.
    pub fn give_back(&mut self, outputs: Vec<Vec<T>>) {
        self.outputs = outputs;
    }

    /// Makes `many` empty output lists with room for `room` samples each. Lists that were given back are used if their
    /// capacity is `room`, and freed otherwise.
    pub(crate) fn take_outputs(
        &mut self,
        alloc: Global,
        many: usize,
        room: usize,
    ) -> Result<Vec<Vec<T>>, AllocError>
        ensures { IfOk result (λ v. AreEmpty v.items many room) }
    {
        let mut lists = mem::replace(&mut self.outputs, Vec::new(alloc));
        renew_outputs(alloc, many, room, &mut lists)
    }
}
