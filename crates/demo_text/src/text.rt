//! The writing of a demo text.
ghost use Rattle.std.specs.Prelude.{◌≡◌, ◌≤◌, ◌++◌, [], codes, decimal, if◌then◌else◌, length, IfOk, OnOk, string_bytes};
ghost use Rattle.demo_text.specs.Demo.{action_text, before_cell, cell_of, cells_from, demo_iterations_of, demo_text_of, draw_by, draws_of, ending_of, line_text, separator_of};
ghost use Rattle.perp_base.specs.declared.limits.TheConstants.{MOST_ITERATIONS};

use crate::draw::Draw;
use crate::line::Line;
use perp_base::NoMemory;
use rand_core::{Rng, SeedableRng};
use rand_xoshiro::Xoshiro256PlusPlus;
use std::alloc::Global;
use std::fmt::Write;

/// What a word draws for its thread.
fn draw_of(word: u64) -> Draw
    ensures { result ≡ draw_by word }
{
    Draw {
        fenced: word % 2 == 1,
        loads_first: word / 2 % 2 == 1,
        wants_one: word / 4 % 2 == 1,
    }
}

/// The draws of two to four threads.
fn draws(alloc: Global, k: u64) -> Result<Vec<Draw>, NoMemory>
    ensures { IfOk result (λ ds. ds.items ≡ draws_of k) }
{
    let mut generator = Xoshiro256PlusPlus::seed_from_u64(k);
    let threads = 2 + generator.next_u64() % 3;
    let mut draws = Vec::new(alloc);
    for _thread in 0..threads {
        draws.push(draw_of(generator.next_u64()))?;
    }
    Ok(draws)
}

/// Adds the load or the store of thread `t`, whose next thread is `u`.
fn push_action(out: &mut String, loads: bool, t: usize, u: usize) -> Result<(), NoMemory>
    ensures { OnOk result (string_bytes out.new ≡ string_bytes out.old ++ action_text loads t u) }
{
    if loads {
        write!(out, "MOV EAX,[v{u}]")?;
    } else {
        write!(out, "MOV [v{t}],$1")?;
    }
    Ok(())
}

/// Adds the word for a fence, where there is one.
fn push_fence(out: &mut String, fenced: bool) -> Result<(), NoMemory>
    ensures { OnOk result (string_bytes out.new ≡ string_bytes out.old ++ (if fenced then codes "MFENCE" else [])) }
{
    if fenced {
        out.push_str("MFENCE")?;
    }
    Ok(())
}

/// Adds the atom of thread `t`.
fn push_atom(out: &mut String, t: usize, wants_one: bool) -> Result<(), NoMemory>
    ensures { OnOk result (string_bytes out.new ≡ string_bytes out.old ++ decimal t ++ codes ":EAX="
        ++ (if wants_one then codes "1" else codes "0")) }
{
    if wants_one {
        write!(out, "{t}:EAX=1")?;
    } else {
        write!(out, "{t}:EAX=0")?;
    }
    Ok(())
}

/// Adds the cell of thread `t`, whose next thread is `u`.
fn push_cell(out: &mut String, line: Line, t: usize, u: usize, draw: Draw) -> Result<(), NoMemory>
    ensures { OnOk result (string_bytes out.new ≡ string_bytes out.old ++ cell_of line t u draw) }
{
    match line {
        Line::Columns => write!(out, "P{t}")?,
        Line::First => push_action(out, draw.loads_first, t, u)?,
        Line::Middle => push_fence(out, draw.fenced)?,
        Line::Last => push_action(out, !draw.loads_first, t, u)?,
        Line::Condition => push_atom(out, t, draw.wants_one)?,
    }
    Ok(())
}

/// What stands between two cells.
fn separator(line: Line) -> &'static str
    ensures { result.now ≡ separator_of line }
{
    match line {
        Line::Condition => " /\\ ",
        _ => " | ",
    }
}

/// What stands after the last cell.
fn ending(line: Line) -> &'static str
    ensures { result.now ≡ ending_of line }
{
    match line {
        Line::Condition => ")\n",
        _ => " ;\n",
    }
}

/// Adds what stands before the cell of thread `t`.
fn push_before(out: &mut String, line: Line, t: usize) -> Result<(), NoMemory>
    ensures { OnOk result (string_bytes out.new ≡ string_bytes out.old ++ before_cell line t) }
{
    if t > 0 {
        out.push_str(separator(line))?;
    }
    Ok(())
}

/// Adds the cells of a line, a separator between any two.
fn push_cells(out: &mut String, line: Line, draws: &[Draw]) -> Result<(), NoMemory>
    ensures { OnOk result (string_bytes out.new ≡ string_bytes out.old
        ++ cells_from line (length draws.now) 0 draws.now) }
{
    for (t, draw) in draws.iter().enumerate() {
        push_before(out, line, t)?;
        push_cell(out, line, t, (t + 1) % draws.len(), *draw)?;
    }
    Ok(())
}

/// Adds a whole line.
fn push_line(out: &mut String, line: Line, draws: &[Draw]) -> Result<(), NoMemory>
    ensures { OnOk result (string_bytes out.new ≡ string_bytes out.old ++ line_text line draws.now) }
{
    if line == Line::Condition {
        out.push_str("exists (")?;
    }
    push_cells(out, line, draws)?;
    out.push_str(ending(line))?;
    Ok(())
}

/// The demo's text of number `k`: a litmus test of two to four threads in a ring, drawn by the words of Xoshiro256++
/// seeded by `k`.
pub fn demo_text(alloc: Global, k: u64) -> Result<Vec<u8>, NoMemory>
    ensures text { IfOk result (λ text. text.items ≡ demo_text_of k) }
{
    let draws = draws(alloc, k)?;
    let mut text = String::new(alloc);
    write!(text, "X86 DEMO{k}\n{{ }}\n")?;
    push_line(&mut text, Line::Columns, &draws)?;
    push_line(&mut text, Line::First, &draws)?;
    push_line(&mut text, Line::Middle, &draws)?;
    push_line(&mut text, Line::Last, &draws)?;
    push_line(&mut text, Line::Condition, &draws)?;
    Ok(text.into_bytes())
}

/// How often each thread of a demo performs its body, by the number of threads, which is 2, 3 or 4: 4,000, 250 or 60
/// times.
pub fn demo_iterations(threads: usize) -> u32
    ensures is { result ≡ demo_iterations_of threads }
    ensures least { 1 ≤ result }
    ensures most { result ≤ MOST_ITERATIONS }
{
    match threads {
        2 => 4000,
        3 => 250,
        _ => 60,
    }
}
