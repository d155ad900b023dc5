//! The rule of the words, and what each of the six kinds of step tells: making, load, store, swap, split and join.
use crate::number::Number;
use crate::step::Part;
use atomic_table::{Join, Play, Split, TableRule};
use std::collections::LinkedList;
use std::marker::PhantomData;

/// What a seat knows: numbers of threads, each with its list of steps.
pub type Parts = LinkedList<Part>;

/// The rule, and the making: all steps stand in one history, whose memory is the words, and at first there is none.
pub struct OneHistory;

impl TableRule<(), Parts, ()> for OneHistory {
    ghost use Rattle.tso_words.specs.Views.{HoldsOneHistory, no_steps};

    ghost holds = { λ _ s. HoldsOneHistory s.words s.views };

    ghost first = { λ _. no_steps };
}

/// A load: the list of one number grows by it.
pub struct Loads<T: Number> {
    number: PhantomData<T>,
}

impl<T: Number> Play<(), Parts> for Loads<T> {
    ghost use Rattle.std.specs.Prelude.{◌≡◌};
    ghost use Rattle.tso_words.specs.declared.step.Step.TheVariants.{Load};
    ghost use Rattle.tso_words.specs.Views.{grown};

    ghost then = { λ s me found now. now ≡ (grown T.number (Load s.word found) me.0, me.1) };
}

/// A store: the list of one number grows by it.
pub struct Stores<T: Number> {
    number: PhantomData<T>,
}

impl<T: Number> Play<(), Parts> for Stores<T> {
    ghost use Rattle.std.specs.Prelude.{◌≡◌};
    ghost use Rattle.tso_words.specs.declared.step.Step.TheVariants.{Store};
    ghost use Rattle.tso_words.specs.Views.{grown};

    ghost then = { λ s me _ now. now ≡ (grown T.number (Store s.word s.first) me.0, me.1) };
}

/// A swap: the list of one number grows by it, with the value that it found.
pub struct Swaps<T: Number> {
    number: PhantomData<T>,
}

impl<T: Number> Play<(), Parts> for Swaps<T> {
    ghost use Rattle.std.specs.Prelude.{◌≡◌};
    ghost use Rattle.tso_words.specs.declared.step.Step.TheVariants.{Swap};
    ghost use Rattle.tso_words.specs.Views.{grown};

    ghost then = { λ s me found now. now ≡ (grown T.number (Swap s.word s.first found) me.0, me.1) };
}

/// A split: one number goes to a new seat with its list.
pub struct Lends<T: Number> {
    number: PhantomData<T>,
}

impl<T: Number> Split<Parts> for Lends<T> {
    ghost use Rattle.tso_words.specs.Views.{only, others};

    ghost left = { others T.number };

    ghost right = { only T.number };
}

/// A join: one seat takes in the numbers of another with their lists, and the other is left with none.
pub struct TakesBack;

impl Join<Parts> for TakesBack {
    ghost use Rattle.std.specs.Prelude.{◌++◌, []};

    ghost both = { λ home lane. home ++ lane };

    ghost spent = { [] };
}
