//! Lanes of one thread over one field.
ghost use Rattle.std.specs.Prelude.{◌≡◌, ◌<◌, ◌++◌};
ghost use Rattle.tso_words.specs.History.{thread_count};
ghost use Rattle.tso_words.specs.Seats.{IsSameLane};
ghost use Rattle.tso_words.specs.Views.{one_part};

use std::test::Fail;
use tso_words::{Field, Home, Lane, Port, Post, Step, Traced, TracedStep, Words};

#[test]
fn two_lanes(rt: HostRuntime) -> Result<(), Fail> {
    let (words, mut home) = Field::new(rt.alloc())?.parts();
    let first = home.lend(&words, 0);
    let second = home.lend(&words, 1);
    let mut one = Post::new(&words, first);
    let mut two = Post::new(&words, second);
    one.drain(0, 5);
    assert_eq!(rt; two.load(0), 5);
    assert_eq!(rt; one.swap(0, 7), 5);
    home.take_back(&words, one.lane());
    home.take_back(&words, two.lane());
    let done = words.close(home);
    assert_eq!(rt; done.word(0), 7);
    Ok(())
}

/// What a lane stores to the word of its number, and adds to the last word, after which it is the same lane.
fn stepped(words: &Words, lane: Lane, thread: u32) -> Lane
    requires identity { lane.identity ≡ words.now }
    requires thread { thread < thread_count }
    ensures { IsSameLane lane result }
{
    let mut post = Post::new(words, lane);
    post.drain(thread, u64::from(thread) + 1);
    let before = post.load(15);
    post.swap(15, before.wrapping_add(1));
    post.lane()
}

/// Takes back the lane of this number.
fn take_back(home: &mut Home, words: &Words, lane: Lane, thread: u32)
    requires home { home.old.identity ≡ words.now }
    requires lane { (lane.identity ≡ words.now) × (lane.thread ≡ thread) }
    ensures identity { home.new.identity ≡ words.now }
    ensures home { home.new.parts ≡ home.old.parts ++ one_part thread lane.steps }
{
    home.take_back(words, lane);
}

/// All eight numbers are away together, and each steps before the first is back.
#[test]
fn eight_lanes(rt: HostRuntime) -> Result<(), Fail> {
    let (words, mut home) = Field::new(rt.alloc())?.parts();
    let zero = home.lend(&words, 0);
    let one = home.lend(&words, 1);
    let two = home.lend(&words, 2);
    let three = home.lend(&words, 3);
    let four = home.lend(&words, 4);
    let five = home.lend(&words, 5);
    let six = home.lend(&words, 6);
    let seven = home.lend(&words, 7);
    let lanes = (
        stepped(&words, zero, 0),
        stepped(&words, one, 1),
        stepped(&words, two, 2),
        stepped(&words, three, 3),
        stepped(&words, four, 4),
        stepped(&words, five, 5),
        stepped(&words, six, 6),
        stepped(&words, seven, 7),
    );
    take_back(&mut home, &words, lanes.0, 0);
    take_back(&mut home, &words, lanes.1, 1);
    take_back(&mut home, &words, lanes.2, 2);
    take_back(&mut home, &words, lanes.3, 3);
    take_back(&mut home, &words, lanes.4, 4);
    take_back(&mut home, &words, lanes.5, 5);
    take_back(&mut home, &words, lanes.6, 6);
    take_back(&mut home, &words, lanes.7, 7);
    let done = words.close(home);
    for loc in 0..16 {
        let want = [1, 2, 3, 4, 5, 6, 7, 8, 0, 0, 0, 0, 0, 0, 0, 8][loc as usize];
        assert_eq!(rt; done.word(loc), want, "word {loc}");
    }
    Ok(())
}

#[test]
fn an_untouched_field_closes_with_words_of_0(rt: HostRuntime) -> Result<(), Fail> {
    let (words, home) = Field::new(rt.alloc())?.parts();
    let done = words.close(home);
    assert_eq!(rt; done.word(0), 0);
    assert_eq!(rt; done.word(15), 0);
    Ok(())
}

#[test]
fn a_stored_history_has_the_steps_of_two_threads(rt: HostRuntime) -> Result<(), Fail> {
    let mut one = Traced::reserve(rt.alloc(), 3)?.port(0);
    one.drain(0, 5);
    let mut two = one.traced().port(1);
    assert_eq!(rt; two.load(0), 5);
    assert_eq!(rt; two.swap(0, 7), 5);
    let traced = two.traced();
    let history = [
        TracedStep {
            thread: 0,
            step: Step::Store { loc: 0, value: 5 },
        },
        TracedStep {
            thread: 1,
            step: Step::Load { loc: 0, value: 5 },
        },
        TracedStep {
            thread: 1,
            step: Step::Swap {
                loc: 0,
                new: 7,
                old: 5,
            },
        },
    ];
    assert_eq!(rt; traced.steps(), history.as_slice());
    assert_eq!(rt; traced.word(0), 7);
    Ok(())
}
