//! One atomic step, through a seat in whose view the number stands.
ghost use Rattle.std.specs.Prelude.{◌≡◌, ◌<◌};
ghost use Rattle.tso_words.specs.History.{word_count};
ghost use Rattle.tso_words.specs.Views.{IsAtHome, Grows};

use crate::field::Words;
use crate::number::Number;
use crate::rule::{Loads, Parts, Stores, Swaps};
use crate::step::Step;
use atomic_table::Seat;
use std::marker::Brand;

impl Words {
    fn load_as<T: Number>(&self, thread: u32, seat: &mut Seat<(), Parts>, loc: u32) -> u64
        requires number { thread ≡ T.number }
        requires loc { loc < word_count }
        requires identity { seat.old.table_id ≡ self.now }
        requires here { IsAtHome thread seat.old.me.0 }
        ensures identity { seat.new.table_id ≡ seat.old.table_id }
        ensures step { Grows thread (Step.Load loc result) seat.old.me seat.new.me }
    {
        self.table.shared.load::<Loads<T>>(seat, loc as usize)
    }

    pub(crate) fn load(&self, thread: u32, seat: &mut Seat<(), Parts>, loc: u32) -> u64
        requires loc { loc < word_count }
        requires identity { seat.old.table_id ≡ self.now }
        requires here { IsAtHome thread seat.old.me.0 }
        ensures identity { seat.new.table_id ≡ seat.old.table_id }
        ensures step { Grows thread (Step.Load loc result) seat.old.me seat.new.me }
    {
        self.load_as::<Brand>(thread, seat, loc)
    }

    fn store_as<T: Number>(&self, thread: u32, seat: &mut Seat<(), Parts>, loc: u32, value: u64)
        requires number { thread ≡ T.number }
        requires loc { loc < word_count }
        requires identity { seat.old.table_id ≡ self.now }
        requires here { IsAtHome thread seat.old.me.0 }
        ensures identity { seat.new.table_id ≡ seat.old.table_id }
        ensures step { Grows thread (Step.Store loc value) seat.old.me seat.new.me }
    {
        self.table
            .shared
            .store::<Stores<T>>(seat, loc as usize, value);
    }

    pub(crate) fn store(&self, thread: u32, seat: &mut Seat<(), Parts>, loc: u32, value: u64)
        requires loc { loc < word_count }
        requires identity { seat.old.table_id ≡ self.now }
        requires here { IsAtHome thread seat.old.me.0 }
        ensures identity { seat.new.table_id ≡ seat.old.table_id }
        ensures step { Grows thread (Step.Store loc value) seat.old.me seat.new.me }
    {
        self.store_as::<Brand>(thread, seat, loc, value);
    }

    fn swap_as<T: Number>(&self, thread: u32, seat: &mut Seat<(), Parts>, loc: u32, new: u64) -> u64
        requires number { thread ≡ T.number }
        requires loc { loc < word_count }
        requires identity { seat.old.table_id ≡ self.now }
        requires here { IsAtHome thread seat.old.me.0 }
        ensures identity { seat.new.table_id ≡ seat.old.table_id }
        ensures step { Grows thread (Step.Swap loc new result) seat.old.me seat.new.me }
    {
        self.table.shared.swap::<Swaps<T>>(seat, loc as usize, new)
    }

    pub(crate) fn swap(&self, thread: u32, seat: &mut Seat<(), Parts>, loc: u32, new: u64) -> u64
        requires loc { loc < word_count }
        requires identity { seat.old.table_id ≡ self.now }
        requires here { IsAtHome thread seat.old.me.0 }
        ensures identity { seat.new.table_id ≡ seat.old.table_id }
        ensures step { Grows thread (Step.Swap loc new result) seat.old.me seat.new.me }
    {
        self.swap_as::<Brand>(thread, seat, loc, new)
    }
}
