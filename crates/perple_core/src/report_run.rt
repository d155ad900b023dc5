//! The report of a run from its logs, and so of each run that has them.
ghost use Rattle.std.specs.Prelude.{◌≡◌, ◌⊎◌, ◌↔◌, List, IfOk, IsSome, is_some, option_map, string_bytes};
ghost use Rattle.std.specs.Str.{IsAscii};
ghost use Rattle.tso_machine.specs.Event.{Event};
ghost use Rattle.perp_loop.specs.Crews.{AreWholeFor};
ghost use Rattle.report_text.specs.Report.{rows_of, report_of};
ghost use Rattle.perple_core.specs.Texts.{asked, asks_exhaustive, asks_heuristic, frame_count_of, hit_count_of, listed_hits_of, report_rows};

use crate::counters::Counters;
use command_words::Count;
use frame_count::{count, frames};
use heuristic::hits;
use load_log::Logs;
use perp_base::{Frame, Name, NoMemory};
use perp_loop::Options;
use profile_check::Checked;
use program_edge::is_negated;
use report_text::{Report, report};
use std::alloc::Global;
use std::thread::Threads;

/// What is to be reported of a run.
#[derive(Clone, Copy)]
pub struct Wanted {
    pub options: Options,
    pub count: Count,
    pub cut: u32,
    pub show_hits: bool,
}

fn asks_for_exhaustive(count: Count) -> bool
    ensures { result ≡ asks_exhaustive count }
{
    count != Count::Heuristic
}

fn asks_for_hits(count: Count) -> bool
    ensures { result ≡ asks_heuristic count }
{
    count != Count::Exhaustive
}

impl Wanted {
    ghost use Rattle.program_edge.specs.Field.{HasLogs};
    ghost use Rattle.perple_core.specs.Counting.{AreCountersOf, IsWanted};

    /// The number of frames, where the exhaustive count is asked for.
    fn frames(&self, checked: &Checked) -> Option<u64>
        requires wanted { IsWanted checked.now.test self.now }
        ensures variant { is_some result ≡ asks_exhaustive self.now.count }
        ensures frames { result ≡ asked (asks_exhaustive self.now.count)
            (frame_count_of checked.now.test self.now.options) }
    {
        if asks_for_exhaustive(self.count) {
            frames(self.options.iterations, checked.test().threads())
        } else {
            None
        }
    }

    /// The exhaustive count, where it is asked for.
    fn count<R: Threads + Sync>(
        &self,
        rt: &R,
        checked: &Checked,
        counters: &Counters,
        logs: &Logs,
    ) -> Option<u64>
        requires wanted { IsWanted checked.now.test self.now }
        requires counters { AreCountersOf checked.now counters.now }
        requires whole { AreWholeFor checked.now.test self.now.options.iterations logs.now.logs }
        ensures variant { is_some result ≡ asks_exhaustive self.now.count }
        ensures count { (run : List Event) → HasLogs checked.now.test self.now.options.iterations run logs.now.logs
            → result ≡ asked (asks_exhaustive self.now.count) (hit_count_of checked.now.test self.now.options run) }
    {
        if asks_for_exhaustive(self.count) {
            Some(count(
                rt,
                &counters.conds,
                logs,
                self.options.iterations,
                checked.test().threads(),
                self.cut,
            ))
        } else {
            None
        }
    }

    /// The listed hits, where they are asked for.
    fn hits<R: Threads + Sync>(
        &self,
        rt: &R,
        alloc: Global,
        checked: &Checked,
        counters: &Counters,
        logs: &Logs,
    ) -> Result<Option<Vec<Frame>>, NoMemory>
        requires wanted { IsWanted checked.now.test self.now }
        requires counters { AreCountersOf checked.now counters.now }
        requires whole { AreWholeFor checked.now.test self.now.options.iterations logs.now.logs }
        ensures variant { IfOk result (λ hits. is_some hits ≡ asks_heuristic self.now.count) }
        ensures hits { IfOk result (λ hits. (run : List Event) → HasLogs checked.now.test self.now.options.iterations run logs.now.logs
            → option_map (λ v. v.items) hits ≡ asked (asks_heuristic self.now.count) (listed_hits_of checked.now.test self.now.options run)) }
    {
        if asks_for_hits(self.count) {
            let found = hits(
                rt,
                alloc,
                &counters.plan,
                &counters.conds,
                logs,
                self.options.iterations,
            )?;
            Ok(Some(found))
        } else {
            Ok(None)
        }
    }

    /// What the report says.
    #[tactic(auto, unfolding(crate::specs::Texts::report_rows))]
    fn rows<R: Threads + Sync>(
        &self,
        rt: &R,
        alloc: Global,
        checked: &Checked,
        counters: &Counters,
        logs: &Logs,
    ) -> Result<Report, NoMemory>
        requires wanted { IsWanted checked.now.test self.now }
        requires counters { AreCountersOf checked.now counters.now }
        requires whole { AreWholeFor checked.now.test self.now.options.iterations logs.now.logs }
        ensures rows { IfOk result (λ rows. (run : List Event) → HasLogs checked.now.test self.now.options.iterations run logs.now.logs
            → rows_of rows ≡ report_rows checked.now.test self.now.options self.now.count self.now.show_hits run) }
        ensures name { IfOk result (λ rows. rows.name ≡ checked.now.test.name) }
        ensures frames { IfOk result (λ rows. IsSome rows.frames ↔ IsSome rows.exhaustive) }
        ensures counted { IfOk result (λ rows. IsSome rows.exhaustive ⊎ IsSome rows.hits) }
    {
        let test = checked.test();
        let name = Name::of(alloc, test.name().bytes())?;
        let hits = self.hits(rt, alloc, checked, counters, logs)?;
        Ok(Report {
            name,
            threads: test.threads() as u32,
            iterations: self.options.iterations,
            negated: is_negated(test.quantifier()),
            atoms: test.atoms().len() as u32,
            frames: self.frames(checked),
            exhaustive: self.count(rt, checked, counters, logs),
            hits,
            show_hits: self.show_hits,
        })
    }

    /// The report of each run that has these logs.
    pub fn report<R: Threads + Sync>(
        &self,
        rt: &R,
        alloc: Global,
        checked: &Checked,
        counters: &Counters,
        logs: &Logs,
    ) -> Result<String, NoMemory>
        requires wanted { IsWanted checked.now.test self.now }
        requires counters { AreCountersOf checked.now counters.now }
        requires whole { AreWholeFor checked.now.test self.now.options.iterations logs.now.logs }
        requires ascii { IsAscii checked.now.test.name }
        ensures { IfOk result (λ text. (run : List Event) → HasLogs checked.now.test self.now.options.iterations run logs.now.logs
            → string_bytes text ≡ report_of (report_rows checked.now.test self.now.options self.now.count self.now.show_hits run)) }
    {
        let rows = self.rows(rt, alloc, checked, counters, logs)?;
        report(alloc, &rows)
    }
}
