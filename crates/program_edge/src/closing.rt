//! A field on which nothing is run.
ghost use Rattle.std.specs.Prelude.{◌≡◌};
ghost use Rattle.tso_words.specs.History.{ArePartsOfOne};
ghost use Rattle.program_edge.specs.Field.{IsStill};

use tso_words::{Done, Field};

/// Closes a field before any step: its words are 0, and no thread took a step.
pub fn close_unused(field: Field) -> Done
    ensures identity { result.identity ≡ field }
    ensures still { IsStill result }
    ensures whole { ArePartsOfOne result.words result.lists }
{
    let (words, home) = field.parts();
    words.close(home)
}
