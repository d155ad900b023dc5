//! A buffer of two writes, and the words of one seed.
use rand_core::{Rng, SeedableRng};
use rand_xoshiro::Xoshiro256PlusPlus;
use std::test::Fail;
use store_buffer::{Buffer, Drains, Entry};

const X: u32 = 0;

const Y: u32 = 1;

/// A write of the first iteration.
fn write(loc: u32, value: u64, place: u32) -> Entry {
    Entry {
        loc,
        value,
        iteration: 0,
        place,
    }
}

#[test]
fn a_buffer_of_two_keeps_order_and_refuses_a_third(rt: HostRuntime) -> Result<(), Fail> {
    let a = write(X, 1, 0);
    let b = write(X, 2, 1);
    let c = write(Y, 1, 2);
    let mut buffer = Buffer::new(2);
    assert_eq!(rt; buffer.push(a), Ok(()));
    assert_eq!(rt; buffer.push(b), Ok(()));
    assert!(rt; buffer.is_full());
    assert_eq!(rt; buffer.push(c), Err(c));
    assert_eq!(rt; buffer.len(), 2);
    assert_eq!(rt; buffer.newest_for(X), Some(2));
    assert_eq!(rt; buffer.newest_for(Y), None);
    assert_eq!(rt; buffer.oldest(), Some(a));
    assert_eq!(rt; buffer.drain_one(), Some(a));
    assert_eq!(rt; buffer.drain_one(), Some(b));
    assert_eq!(rt; buffer.drain_one(), None);
    assert!(rt; buffer.is_empty());
    assert_eq!(rt; buffer.capacity(), 2);
    Ok(())
}

#[test]
fn drains_follow_the_words_of_seed_and_thread(rt: HostRuntime) -> Result<(), Fail> {
    let mut words = Xoshiro256PlusPlus::seed_from_u64(9);
    let mut drains = Drains::new(7, 2, 64);
    let mut never = Drains::new(7, 2, 0);
    let mut always = Drains::new(7, 2, 256);
    let first = words.next_u64() % 256 < 64;
    assert_eq!(rt; drains.next(), first);
    let second = words.next_u64() % 256 < 64;
    assert_eq!(rt; drains.next(), second);
    assert!(rt; !never.next());
    assert!(rt; always.next());
    Ok(())
}
