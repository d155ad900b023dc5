//! The text of all states.
ghost use Rattle.std.specs.Prelude.{◌≡◌, ◌++◌, All, IfOk, OnOk, codes, length, map, string_bytes};
ghost use Rattle.std.specs.Str.{IsAscii};
ghost use Rattle.row_decision.specs.Fronts.{register_seen};
ghost use Rattle.report_text.specs.Words.{number_line};
ghost use Rattle.outcome_states.specs.Text.{cell_text, head_line, observation_line, observation_word, observed_text, outcomes_text, quantifier_word, register_name, state_line, titled};

use crate::counting::count_met;
use perp_base::{Name, NoMemory};
use report_text::push_bytes;
use row_decision::Register;
use std::alloc::Global;
use std::fmt::Write;
use x86_subset::{Quantifier, Reg, Test};

#[tactic(auto, unfolding(crate::specs::Text::titled))]
fn push_titled(out: &mut String, title: &str, name: &Name) -> Result<(), NoMemory>
    requires { IsAscii name.now }
    ensures { OnOk result (string_bytes out.new ≡ string_bytes out.old ++ titled title.now name.now) }
{
    out.push_str(title)?;
    push_bytes(out, name.bytes())?;
    out.push_str(" ")?;
    Ok(())
}

fn quantifier_word(quantifier: Quantifier) -> &'static str
    ensures { result.now ≡ quantifier_word quantifier }
{
    match quantifier {
        Quantifier::Exists => "Allowed",
        Quantifier::NotExists => "Forbidden",
    }
}

#[tactic(auto, unfolding(crate::specs::Text::head_line))]
fn push_head(out: &mut String, name: &Name, quantifier: Quantifier) -> Result<(), NoMemory>
    requires { IsAscii name.now }
    ensures { OnOk result (string_bytes out.new ≡ string_bytes out.old ++ head_line name.now quantifier) }
{
    push_titled(out, "Test ", name)?;
    let word = quantifier_word(quantifier);
    write!(out, "{word}\n")?;
    Ok(())
}

#[tactic(auto, unfolding(report_text::specs::Words::number_line))]
fn push_states(out: &mut String, states: usize) -> Result<(), NoMemory>
    ensures { OnOk result (string_bytes out.new ≡ string_bytes out.old ++ number_line (codes "States") states) }
{
    write!(out, "States {states}\n")?;
    Ok(())
}

fn register_name(reg: Reg) -> &'static str
    ensures { result.now ≡ register_name reg }
{
    match reg {
        Reg::Eax => "EAX",
        Reg::Ebx => "EBX",
        Reg::Ecx => "ECX",
        Reg::Edx => "EDX",
        Reg::Esi => "ESI",
        Reg::Edi => "EDI",
    }
}

#[tactic(auto, unfolding(crate::specs::Text::cell_text))]
fn push_cell(out: &mut String, register: Register, value: u32) -> Result<(), NoMemory>
    ensures { OnOk result (string_bytes out.new ≡ string_bytes out.old ++ cell_text (register_seen register) value) }
{
    let thread = register.thread;
    let name = register_name(register.reg);
    write!(out, "{thread}:{name}={value};")?;
    Ok(())
}

fn push_state(out: &mut String, registers: &[Register], row: &[u32]) -> Result<(), NoMemory>
    requires { length row.now ≡ length registers.now }
    ensures { OnOk result (string_bytes out.new
        ≡ string_bytes out.old ++ state_line (map register_seen registers.now) row.now) }
{
    for (k, register) in registers.iter().enumerate() {
        if k > 0 {
            out.push_str(" ")?;
        }
        push_cell(out, *register, row[k])?;
    }
    out.push_str("\n")?;
    Ok(())
}

#[tactic(auto, unfolding(crate::specs::Text::observation_word))]
fn observation_word(met: usize, unmet: usize) -> &'static str
    ensures { result.now ≡ observation_word met unmet }
{
    if met == 0 {
        "Never"
    } else if unmet == 0 {
        "Always"
    } else {
        "Sometimes"
    }
}

#[tactic(auto, unfolding(crate::specs::Text::observed_text))]
fn push_observed(out: &mut String, met: usize, unmet: usize) -> Result<(), NoMemory>
    ensures { OnOk result (string_bytes out.new ≡ string_bytes out.old ++ observed_text met unmet) }
{
    let word = observation_word(met, unmet);
    write!(out, "{word} {met} {unmet}\n")?;
    Ok(())
}

#[tactic(auto, unfolding(crate::specs::Text::observation_line))]
fn push_observation(out: &mut String, name: &Name, met: usize, unmet: usize) -> Result<(), NoMemory>
    requires { IsAscii name.now }
    ensures { OnOk result (string_bytes out.new ≡ string_bytes out.old ++ observation_line name.now met unmet) }
{
    push_titled(out, "Observation ", name)?;
    push_observed(out, met, unmet)?;
    Ok(())
}

/// The text of these states.
pub(crate) fn text_of(
    alloc: Global,
    test: &Test,
    registers: &[Register],
    rows: &[Vec<u32>],
) -> Result<String, NoMemory>
    requires ascii { IsAscii test.now.name }
    requires lengths { All (λ row. length row.items ≡ length registers.now) rows.now }
    ensures { IfOk result (λ text. string_bytes text
        ≡ outcomes_text test.now (map register_seen registers.now) (map (λ row. row.items) rows.now)) }
{
    let met = count_met(test, registers, rows);
    let mut out = String::new(alloc);
    push_head(&mut out, test.name(), test.quantifier())?;
    push_states(&mut out, rows.len())?;
    for row in rows {
        push_state(&mut out, registers, row)?;
    }
    push_observation(&mut out, test.name(), met, rows.len() - met)?;
    Ok(out)
}
