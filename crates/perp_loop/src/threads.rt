//! All walkers, each in a thread.
ghost use Rattle.std.specs.Prelude.{◌≡◌, ℕ, ◌<◌, ◌≤◌, [], length, List};
ghost use Rattle.seq_conv.specs.Numbers.{AreOf};
ghost use Rattle.tso_words.specs.History.{thread_count, ArePartsOfOne};
ghost use Rattle.tso_words.specs.Views.{no_steps};
ghost use Rattle.tso_machine.specs.Event.{Event};
ghost use Rattle.tso_runs.specs.Fits.{EndsWith, Fits};
ghost use Rattle.perp_loop.specs.Crews.{HaveValuesOf, AreWholeFor, HasLane, AreFresh, AreLent, AreEnded, AreFinishedAs, AreLists, Lends, HasHome, SameWalkers};

use crate::crew::{Crew, logs_of};
use crate::gate::Gate;
use crate::meeting::Meeting;
use crate::member::Member;
use load_log::Logs;
use std::thread;
use std::thread::Threads;
use tso_words::{Done, Field, Home, Words};

/// Lends each member the lane of its number.
fn lend_all(home: &mut Home, words: &Words, members: &mut [Member<'_>])
    requires identity { home.old.identity ≡ words.now }
    requires home { home.old.parts ≡ no_steps }
    requires few { length members.old ≤ thread_count }
    requires fresh { AreFresh members.old }
    ensures identity { home.new.identity ≡ words.now }
    ensures home { Lends (length members.old) home.new.parts }
    ensures lent { AreLent words.now members.new }
    ensures walkers { SameWalkers members.old members.new }
{
    for i in 0..members.len() {
        let lane = home.lend(words, i as u32);
        let member = &mut members[i];
        member.put(lane);
    }
}

/// Takes each lane back.
fn take_back_all(home: &mut Home, words: &Words, members: &mut [Member<'_>])
    requires identity { home.old.identity ≡ words.now }
    requires home { Lends (length members.old) home.old.parts }
    requires ended { AreEnded words.now members.old }
    ensures identity { home.new.identity ≡ words.now }
    ensures home { HasHome members.new home.new.parts }
    ensures walkers { SameWalkers members.old members.new }
{
    for i in 0..members.len() {
        let member = &mut members[i];
        let lane = member.take();
        home.take_back(words, lane);
    }
}

/// Runs each member's walker through the lane of its number. The threads meet before that.
fn run_members<R: Threads + Sync, G: Gate>(
    rt: &R,
    field: Field,
    members: &mut [Member<'_>],
    gate: &G,
) -> Done
    requires some { 0 < length members.old }
    requires few { length members.old ≤ thread_count }
    requires fresh { AreFresh members.old }
    ensures identity { result.identity ≡ field }
    ensures whole { ArePartsOfOne result.words result.lists }
    ensures lists { AreLists members.new result.lists }
    ensures finished { AreFinishedAs members.old members.new }
{
    let (words, mut home) = field.parts();
    lend_all(&mut home, &words, members);
    let shared = &words;
    let threads = members.len();
    let meeting = Meeting::new(threads);
    let door = &meeting;
    thread::for_each_mut(
        rt,
        members,
        threads,
        &|_, member: &mut Member<'_>|
            requires { HasLane shared.now member.old }
        {
            door.come();
            member.work(shared, gate)
        },
    );
    take_back_all(&mut home, &words, members);
    words.close(home)
}

/// Runs each walker in a thread of its own, where one can be made, over one new field; the field is answered closed. It
/// cannot be refused and takes no memory.
///
/// Some run of the machine fits what the threads did on the words, and each such run has the logs that are answered.
/// The crew's sequences are those of the test.
pub fn run_threads<R: Threads + Sync, G: Gate>(
    rt: &R,
    field: Field,
    crew: Crew<'_>,
    gate: &G,
) -> (Done, Logs)
    ensures identity { result.0.identity ≡ field }
    ensures some_run { (run : List Event) × Fits crew.entry.test crew.entry.options result.0.lists run
        × EndsWith crew.entry.test result.0.words run }
    ensures logs { (run : List Event) → Fits crew.entry.test crew.entry.options result.0.lists run
        → HaveValuesOf crew.entry.test run result.1.logs }
    ensures sequences { AreOf crew.entry.test crew.entry.sequences }
    ensures whole { AreWholeFor crew.entry.test crew.entry.options.iterations result.1.logs }
{
    let (mut members, logs) = crew.parts();
    let done = run_members(rt, field, members.as_mut_slice(), gate);
    (done, logs_of(members, logs))
}
