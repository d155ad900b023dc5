//! The words, the numbers that no thread has, and what is left after the last step.
ghost use Rattle.std.specs.Prelude.{◌≡◌, ℕ, ◌<◌, [], ◌∷◌, ◌++◌, IfOk, slice_index};
ghost use Rattle.std.specs.Slots.{slots_items, slots_len, IsFull};
ghost use Rattle.tso_words.specs.History.{word_count, ArePartsOfOne, eight};
ghost use Rattle.tso_words.specs.Views.{no_steps, Stands, IsAtHome, others, one_part, AllHome, list_of};

use crate::lane::Lane;
use crate::number::Number;
use crate::rule::{Lends, OneHistory, Parts, TakesBack};
use crate::step::WORD_COUNT;
use atomic_table::{Closed, Seat, Table};
use perp_base::NoMemory;
use std::alloc::Global;
use std::marker::{Brand, Model};
use std::snapshot::Snapshot;

/// The sixteen shared words. Contracts see the field's identity, which is its table's.
#[derive(Drop)]
pub struct Words {
    pub(crate) table: Table<(), Parts, (), OneHistory, Global>,
}

impl Model for Words {
    ghost use Rattle.std.specs.Prelude.{◌≡◌};
    ghost use Rattle.atomic_table.specs.Seated.{TableId, table_id_coded};
    ghost use Rattle.tso_words.specs.History.{word_count};

    ghost Value = { TableId };

    ghost coded = { table_id_coded };

    ghost view = { λ w. w.table.shared.table_id };

    ghost invariant = { λ w. (w.table.shared.table_id.words ≡ word_count) × (w.table.shared.table_id.slots ≡ 0) };
}

/// The numbers of threads that are not lent, each with its list of steps. Contracts see the field's identity too.
#[derive(Drop)]
pub struct Home {
    pub(crate) seat: Seat<(), Parts>,
}

impl Model for Home {
    ghost use Rattle.std.specs.Prelude.{◌≡◌, []};
    ghost use Rattle.tso_words.specs.Seats.{AtHome};

    ghost Value = { AtHome };

    ghost view = { λ h. record { identity = h.seat.table_id; parts = h.seat.me.0 } };

    ghost invariant = { λ h. h.seat.me.1 ≡ [] };
}

/// A new field: words of 0, and the numbers 0 to 7 at home with empty lists. Contracts see its identity, which is its
/// table's.
#[derive(Drop)]
pub struct Field {
    words: Words,
    home: Home,
}

impl Model for Field {
    ghost use Rattle.std.specs.Prelude.{◌≡◌};
    ghost use Rattle.atomic_table.specs.Seated.{TableId, table_id_coded};
    ghost use Rattle.tso_words.specs.Views.{no_steps};

    ghost Value = { TableId };

    ghost coded = { table_id_coded };

    ghost view = { λ f. f.words };

    ghost invariant = { λ f. (f.home.identity ≡ f.words) × (f.home.parts ≡ no_steps) };
}

impl Field {
    /// A new field: sixteen words of 0, all eight numbers at home, and no step taken. That its lists are empty holds of
    /// every `Field`, as `fresh` of `parts` says; and so its words are 0 where it is closed before a step, by `lists`
    /// and `whole` of `Words::close`. `Err` where memory is refused (no clause says when); of the other calls of this
    /// crate only `Traced::reserve` can fail.
    pub fn new(alloc: Global) -> Result<Field, NoMemory>
        ensures made { IfOk result (λ field. (field.words ≡ word_count) × (field.slots ≡ 0)) }
    {
        let (table, seat) = Table::of_words(alloc, &[0; WORD_COUNT], &())?;
        Ok(Field {
            words: Words { table },
            home: Home { seat },
        })
    }

    /// The shared words, and the home of the numbers. A field is used, and closed, by these parts.
    pub fn parts(self) -> (Words, Home)
        ensures identity { result.1.identity ≡ result.0 }
        ensures fresh { result.1.parts ≡ no_steps }
        ensures field { result.0 ≡ self }
    {
        (self.words, self.home)
    }
}

impl Home {
    /// The lending for a number that the call picks.
    fn lend_as<T: Number>(&mut self, words: &Words, thread: u32) -> Lane
        requires number { thread ≡ T.number }
        requires identity { self.old.identity ≡ words.now }
        requires here { IsAtHome thread self.old.parts }
        ensures identity { (self.new.identity ≡ self.old.identity) × (result.identity ≡ self.old.identity) }
        ensures home { self.new.parts ≡ others thread self.old.parts }
        ensures lane { (result.thread ≡ thread) × Stands thread self.old.parts result.steps }
    {
        let seat = words.table.shared.split_seat::<Lends<T>>(&mut self.seat);
        Lane { thread, seat }
    }

    /// Lends a number that is at home. The lane has the number with its list, and the home has them no more.
    pub fn lend(&mut self, words: &Words, thread: u32) -> Lane
        requires identity { self.old.identity ≡ words.now }
        requires here { IsAtHome thread self.old.parts }
        ensures identity { (self.new.identity ≡ self.old.identity) × (result.identity ≡ self.old.identity) }
        ensures home { self.new.parts ≡ others thread self.old.parts }
        ensures lane { (result.thread ≡ thread) × Stands thread self.old.parts result.steps }
    {
        self.lend_as::<Brand>(words, thread)
    }

    /// Takes a lane back: the home has its number again, with its list.
    #[tactic(auto, using(crate::proofs::Allowed::join_allowed))]
    pub fn take_back(&mut self, words: &Words, lane: Lane)
        requires home { self.old.identity ≡ words.now }
        requires lane { lane.identity ≡ words.now }
        ensures identity { self.new.identity ≡ self.old.identity }
        ensures home { self.new.parts ≡ self.old.parts ++ one_part lane.thread lane.steps }
    {
        let shared = &words.table.shared;
        shared.join_seat::<TakesBack>(&mut self.seat, lane.into_seat());
    }
}

/// What is left after the last step: the words, and the lists of the eight threads. The lists are the parts of one flat
/// history whose memory is the words. The lists are known to contracts alone.
#[derive(Drop)]
pub struct Done {
    words: [u64; WORD_COUNT],
    known: Snapshot<Seat<(), Parts>>,
}

impl Model for Done {
    ghost use Rattle.tso_words.specs.History.{ArePartsOfOne, eight};
    ghost use Rattle.tso_words.specs.Views.{list_of};
    ghost use Rattle.tso_words.specs.Seats.{Ended};

    ghost Value = { Ended };

    ghost view = { λ d. record {
      identity = d.known.value.table_id;
      words = d.words;
      lists = eight (λ t. list_of t d.known.value.me.0);
    } };

    ghost invariant = { λ d. ArePartsOfOne d.words (eight (λ t. list_of t d.known.value.me.0)) };
}

/// The words of a table that is closed.
fn read_words(closed: &Closed<(), Global>) -> [u64; WORD_COUNT]
    requires len { slots_len closed.now.words ≡ word_count }
    requires full { IsFull closed.now.words }
    ensures { result ≡ slots_items closed.now.words }
{
    let mut words = [0; WORD_COUNT];
    for i in 0..WORD_COUNT {
        words[i] = closed.word(i);
    }
    words
}

impl Words {
    /// Ends the field. All eight numbers are at home.
    pub fn close(self, home: Home) -> Done
        requires identity { home.identity ≡ self }
        requires home { AllHome home.parts }
        ensures identity { result.identity ≡ self }
        ensures lists { result.lists ≡ eight (λ t. list_of t home.parts) }
        ensures whole { ArePartsOfOne result.words result.lists }
    {
        let known = Snapshot::of(&home.seat);
        let closed = self.table.close_with(home.seat);
        let words = read_words(&closed);
        closed.free();
        Done { words, known }
    }
}

impl Done {
    /// The last value of word `loc`.
    pub fn word(&self, loc: u32) -> u64
        requires { loc < word_count }
        ensures word { result ≡ slice_index self.now.words loc }
        ensures whole { ArePartsOfOne self.now.words self.now.lists }
    {
        self.words[loc as usize]
    }
}
