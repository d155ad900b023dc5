//! The command `faithful`: whether each frame that is counted is an outcome of the test, or the first atom by which it
//! need not be.
ghost use Rattle.std.specs.Prelude.{◌≡◌, ◌+◌, ◌⊎◌, IfOk, IfErr, None, Some, option_map, string_bytes};
ghost use Rattle.profile_check.specs.Profile.{profile_of};
ghost use Rattle.program_edge.specs.Form.{due_for_atoms};
ghost use Rattle.tool_core.specs.Faithful.{IsFaithText, faithful_line, loose_line};
ghost use Rattle.tool_core.specs.Status.{HasToolKind};

use crate::status::ToolStatus;
use frames_within::{LooseAtom, first_loose};
use perp_base::NoMemory;
use profile_check::Checked;
use program_edge::check_test;
use report_text::Status;
use std::alloc::Global;
use x86_subset::Test;

/// The line of a loose atom.
#[tactic(auto, unfolding(crate::specs::Faithful::loose_line))]
fn loose_text(alloc: Global, loose: LooseAtom) -> Result<String, NoMemory>
    ensures { IfOk result (λ text. string_bytes text ≡ loose_line loose.conjunction (loose.atom + 1)) }
{
    let conjunction = loose.conjunction;
    let number = u64::from(loose.atom) + 1;
    let text = format!(in alloc; "Loose {conjunction} {number}\n")?;
    Ok(text)
}

/// What is said of a test whose atoms have kinds.
fn told(alloc: Global, checked: &Checked) -> Result<String, NoMemory>
    ensures { IfOk result (λ text. IsFaithText checked.now.test (string_bytes text)) }
{
    let _test = checked.test();
    match first_loose(checked) {
        Some(loose) => loose_text(alloc, loose),
        None => Ok(String::from_str(alloc, "Faithful\n")?),
    }
}

/// What is said of a test; or the refusal that is due for its atoms.
pub fn faithful_on(alloc: Global, test: Test) -> Result<String, ToolStatus>
    ensures none_due { IfOk result (λ _. option_map ToolStatus.Core (due_for_atoms (profile_of test)) ≡ None) }
    ensures text { IfOk result (λ text. IsFaithText test (string_bytes text)) }
    ensures err { IfErr result (λ status. (status ≡ ToolStatus.Core Status.Memory)
        ⊎ (option_map ToolStatus.Core (due_for_atoms (profile_of test)) ≡ Some status)) }
    ensures kind { IfErr result HasToolKind }
{
    let checked = check_test(alloc, test)?;
    let text = told(alloc, &checked)?;
    Ok(text)
}
