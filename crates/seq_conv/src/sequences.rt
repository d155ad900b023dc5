//! The sequences of a test.
ghost use Rattle.std.specs.Prelude.{◌≡◌, ℕ, List, ◌+◌, ◌*◌, ◌^◌, ◌<◌, ◌≤◌, ◌++◌, length, map, unwrap_or, All, IfOk, IfSome, OnOk, Some};
ghost use Rattle.std.specs.List.{position, range_with_len};
ghost use Rattle.x86_subset.specs.Instr.{is_store_to, location_of};
ghost use Rattle.x86_subset.specs.Test.{LitmusTest, body_of};
ghost use Rattle.x86_subset.specs.Shape.{IsTest};
ghost use Rattle.seq_conv.specs.Sequence.{action_at, same_site, stores_in_body, stores_of};
ghost use Rattle.seq_conv.specs.Numbers.{IsSmall, action_number, numbers_in_body, numbers_in_bodies, owner_among};
ghost use Rattle.perp_base.specs.declared.limits.TheConstants.{MOST_ITERATIONS};

use crate::number::Number;
use crate::site::{Origin, Site};
use perp_base::NoMemory;
use std::alloc::Global;
use std::marker::Model;
use x86_subset::{Instr, Test};

/// The sequences of a test. Contracts see a `Table`: the numbers of each action, and the stores of each location.
#[derive(Drop)]
pub struct Sequences {
    rows: Vec<Vec<Number>>,
    stores: Vec<Vec<Site>>,
}

impl Model for Sequences {
    ghost use Rattle.std.specs.Prelude.{map, All};
    ghost use Rattle.seq_conv.specs.Numbers.{IsSmall, Table};

    ghost Value = { Table };

    ghost view = { λ s. record {
      rows = map (λ row. row.items) s.rows.items;
      stores = map (λ row. row.items) s.stores.items;
    } };

    ghost invariant = { λ s. All (λ row. All IsSmall row.items) s.rows.items };
}

/// The action is a store or an exchange of the location.
fn is_store_to(loc: u32, action: Instr) -> bool
    ensures { result ≡ is_store_to loc action }
{
    match action {
        Instr::Store { loc: other, .. } => other == loc,
        Instr::Exchange { loc: other, .. } => other == loc,
        _ => false,
    }
}

/// Adds a thread's stores to a location, in order.
fn add_stores(stores: &mut Vec<Site>, body: &[Instr], thread: u32, loc: u32) -> Result<(), NoMemory>
    requires { length body.now < 2 ^ 32 }
    ensures { OnOk result (stores.new.items ≡ stores.old.items ++ stores_in_body loc thread 0 body.now) }
{
    for (place, action) in body.iter().enumerate() {
        if is_store_to(loc, *action) {
            stores.push(Site {
                thread,
                place: place as u32,
            })?;
        }
    }
    Ok(())
}

/// The stores of a location, by thread and then by place.
fn stores_of(alloc: Global, test: &Test, threads: usize, loc: u32) -> Result<Vec<Site>, NoMemory>
    requires test { IsTest test.now }
    requires threads { threads ≡ length test.now.bodies }
    ensures { IfOk result (λ v. v.items ≡ stores_of test.now loc) }
{
    let mut stores = Vec::new(alloc);
    for thread in 0..threads {
        add_stores(&mut stores, test.body(thread), thread as u32, loc)?;
    }
    Ok(stores)
}

/// The stores of each location.
fn all_stores(alloc: Global, test: &Test) -> Result<Vec<Vec<Site>>, NoMemory>
    ensures { IfOk result (λ v. map (λ row. row.items) v.items
        ≡ map (stores_of test.now) (range_with_len 0 (length test.now.locations))) }
{
    let threads = test.threads();
    let mut all = Vec::new(alloc);
    for loc in 0..test.locations().len() {
        all.push(stores_of(alloc, test, threads, loc as u32)?)?;
    }
    Ok(all)
}

/// Where a site stands among others.
fn place_among(sites: &[Site], site: Site) -> Option<usize>
    ensures { result ≡ position (same_site site) sites.now }
{
    sites
        .iter()
        .position(|s| site.thread == s.thread && site.place == s.place)
}

/// The numbers of a store that stands at a site, by the stores of its location.
fn number_among(stores: &[Site], site: Site) -> Number
    ensures k { result.k ≡ length stores.now }
    ensures a { result.a ≡ unwrap_or (position (same_site site) stores.now) 0 + 1 }
{
    let before = place_among(stores, site).unwrap_or(0);
    Number {
        k: stores.len() as u64,
        a: before as u64 + 1,
    }
}

/// The numbers of an action at a site. `stores` are those of each location.
fn action_number(test: &Test, action: Instr, site: Site, stores: &[Vec<Site>]) -> Number
    requires test { IsTest test.now }
    requires located { IfSome (location_of action) (λ x. x < length test.now.locations) }
    requires site { action_at test.now site ≡ Some action }
    requires stores { map (λ row. row.items) stores.now
        ≡ map (stores_of test.now) (range_with_len 0 (length test.now.locations)) }
    ensures is { result ≡ action_number test.now site action }
    ensures small { IsSmall result }
{
    match action {
        Instr::Store { loc, .. } => number_among(&stores[loc as usize], site),
        Instr::Exchange { loc, .. } => number_among(&stores[loc as usize], site),
        _ => Number { k: 0, a: 0 },
    }
}

/// The numbers of a thread's actions.
fn row_of(
    alloc: Global,
    test: &Test,
    thread: usize,
    stores: &[Vec<Site>],
) -> Result<Vec<Number>, NoMemory>
    requires test { IsTest test.now }
    requires thread { thread < length test.now.bodies }
    requires stores { map (λ row. row.items) stores.now
        ≡ map (stores_of test.now) (range_with_len 0 (length test.now.locations)) }
    ensures is { IfOk result (λ v. v.items ≡ numbers_in_body test.now thread 0 (body_of test.now thread)) }
    ensures small { IfOk result (λ v. All IsSmall v.items) }
{
    let body = test.body(thread);
    let mut row = Vec::new(alloc);
    for place in 0..body.len() {
        let site = Site {
            thread: thread as u32,
            place: place as u32,
        };
        row.push(action_number(test, body[place], site, stores))?;
    }
    Ok(row)
}

/// The numbers of all actions, by thread and place.
fn all_rows(alloc: Global, test: &Test, stores: &[Vec<Site>]) -> Result<Vec<Vec<Number>>, NoMemory>
    requires stores { map (λ row. row.items) stores.now
        ≡ map (stores_of test.now) (range_with_len 0 (length test.now.locations)) }
    ensures is { IfOk result (λ v. map (λ row. row.items) v.items ≡ numbers_in_bodies test.now 0 test.now.bodies) }
    ensures small { IfOk result (λ v. All (λ row. All IsSmall row.items) v.items) }
{
    let mut rows = Vec::new(alloc);
    for thread in 0..test.threads() {
        rows.push(row_of(alloc, test, thread, stores)?)?;
    }
    Ok(rows)
}

/// Whose value a number is among the stores of a location.
fn owner_among(stores: &[Site], value: u64) -> Option<Origin>
    ensures { result ≡ owner_among stores.now value }
{
    if value == 0 || stores.is_empty() {
        return None;
    }
    let k = stores.len() as u64;
    let site = stores[((value - 1) % k) as usize];
    Some(Origin {
        thread: site.thread,
        place: site.place,
        iteration: (value - 1) / k,
    })
}

impl Sequences {
    ghost use Rattle.std.specs.Prelude.{◌≡◌, ◌<◌, length, IfOk};
    ghost use Rattle.x86_subset.specs.Test.{LitmusTest};
    ghost use Rattle.seq_conv.specs.Numbers.{AreOf, IsOwner, rank_at, row_of, stores_at, value_at};
    ghost use Rattle.perp_base.specs.declared.limits.TheConstants.{MOST_ITERATIONS};

    /// The sequences of a test: each location's stores and exchanges are ranked from 1, by thread and then by place.
    pub fn of(alloc: Global, test: &Test) -> Result<Sequences, NoMemory>
        ensures { IfOk result (λ s. AreOf test.now s) }
    {
        let stores = all_stores(alloc, test)?;
        let rows = all_rows(alloc, test, &stores)?;
        Ok(Sequences { rows, stores })
    }

    /// The stores and exchanges that write to a location, by thread and then by place: at most 128.
    pub fn sites(&self, loc: u32) -> &[Site]
        requires { loc < length self.now.stores }
        ensures { result.now ≡ stores_at self.now loc }
    {
        &self.stores[loc as usize]
    }

    /// `k` of a location: how many stores and exchanges of the test write to it, 0 to 128.
    pub fn stores(&self, loc: u32) -> u64
        requires { loc < length self.now.stores }
        ensures { result ≡ length (stores_at self.now loc) }
    {
        self.stores[loc as usize].len() as u64
    }

    /// `a` of the store or exchange at a place: its position among the stores of its location, from 1.
    pub fn rank(&self, thread: usize, place: usize) -> u64
        requires thread { thread < length self.now.rows }
        requires place { place < length (row_of self.now thread) }
        ensures { result ≡ rank_at self.now thread place }
    {
        let row = &self.rows[thread];
        row[place].a
    }

    /// The value `k*n + a` that the store or exchange at a place writes in iteration `n`.
    pub fn value(&self, thread: usize, place: usize, n: u32) -> u64
        requires thread { thread < length self.now.rows }
        requires place { place < length (row_of self.now thread) }
        requires n { n < MOST_ITERATIONS }
        ensures { result ≡ value_at self.now thread place n }
    {
        let row = &self.rows[thread];
        let number = row[place];
        number.k * u64::from(n) + number.a
    }

    /// Whose value a number is at a location: the store or exchange that writes it, and the iteration in which it does.
    /// Nobody writes 0, and nobody writes to a location without stores.
    pub fn owner(&self, loc: u32, value: u64) -> Option<Origin>
        requires { loc < length self.now.stores }
        ensures is { result ≡ owner_among (stores_at self.now loc) value }
        ensures owner { (test : LitmusTest) → AreOf test self.now → IsOwner test loc value result }
    {
        owner_among(&self.stores[loc as usize], value)
    }
}
