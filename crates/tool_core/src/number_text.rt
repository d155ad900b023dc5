//! The line of a word and a number.
ghost use Rattle.std.specs.Prelude.{◌≡◌, IfOk, string_bytes};
ghost use Rattle.report_text.specs.Words.{number_line};

use perp_base::NoMemory;
use std::alloc::Global;

/// The word and the number.
#[tactic(auto, unfolding(report_text::specs::Words::number_line))]
pub fn number_text(alloc: Global, word: &str, number: u64) -> Result<String, NoMemory>
    ensures { IfOk result (λ text. string_bytes text ≡ number_line word.now number) }
{
    let text = format!(in alloc; "{word} {number}\n")?;
    Ok(text)
}
