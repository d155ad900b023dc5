//! Parts of lines, put at the end of a text.
ghost use Rattle.std.specs.Prelude.{◌≡◌, ◌++◌, OnOk, string_bytes};
ghost use Rattle.std.specs.Str.{IsAscii};
ghost use Rattle.report_text.specs.Words.{number_line, test_line};

use perp_base::{Name, NoMemory};
use std::fmt::Write;

/// Adds the bytes of an ASCII text.
pub fn push_bytes(out: &mut String, bytes: &[u8]) -> Result<(), NoMemory>
    requires { IsAscii bytes.now }
    ensures { OnOk result (string_bytes out.new ≡ string_bytes out.old ++ bytes.now) }
{
    for byte in bytes {
        out.push(char::from(*byte))?;
    }
    Ok(())
}

/// Adds a line with a word and a number.
#[tactic(auto, unfolding(crate::specs::Words::number_line))]
pub fn push_number(out: &mut String, word: &str, n: u64) -> Result<(), NoMemory>
    ensures { OnOk result (string_bytes out.new ≡ string_bytes out.old ++ number_line word.now n) }
{
    write!(out, "{word} {n}\n")?;
    Ok(())
}

/// Adds the line with the test's name.
#[tactic(auto, unfolding(crate::specs::Words::test_line))]
pub fn push_test(out: &mut String, name: &Name) -> Result<(), NoMemory>
    requires { IsAscii name.now }
    ensures { OnOk result (string_bytes out.new ≡ string_bytes out.old ++ test_line name.now) }
{
    out.push_str("Test ")?;
    push_bytes(out, name.bytes())?;
    out.push_str("\n")?;
    Ok(())
}
