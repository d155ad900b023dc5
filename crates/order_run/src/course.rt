//! A run that has been begun.
ghost use Rattle.std.specs.Prelude.{◌≡◌, IfOk, List};
ghost use Rattle.order_run.specs.Course.{IsCourse, mark_of, marks_of};
ghost use Rattle.choice_search.specs.declared.graph.Pair.{Pair};

use perp_base::NoMemory;
use run_judge::RunEvent;
use std::alloc::Global;
use x86_subset::Test;

/// So many actions of a thread are done, and the stores among so many of them are in memory.
#[derive(Clone, Copy)]
pub struct Progress {
    pub done: u32,
    pub drained: u32,
}

/// How far each thread has come, the words of memory, and the events so far.
#[derive(Drop)]
pub struct Course {
    pub threads: Vec<Progress>,
    pub memory: [u64; 16],
    pub events: Vec<RunEvent>,
}

/// How far a thread has come.
pub fn progress_of(course: &Course, t: u32) -> Progress
    ensures { mark_of result ≡ marks_of course.now.threads.items t }
{
    course.threads.get(t as usize).copied().unwrap_or(Progress {
        done: 0,
        drained: 0,
    })
}

/// A course of which nothing is done.
pub fn begin(alloc: Global, test: &Test) -> Result<Course, NoMemory>
    ensures { IfOk result (λ c. (edges : List Pair) → IsCourse test.now edges c) }
{
    let count = test.threads();
    Ok(Course {
        threads: vec![in alloc; Progress {
            done: 0,
            drained: 0
        }; count]?,
        memory: [0; 16],
        events: Vec::new(alloc),
    })
}
