//! What two calls with the same words and the same text write.
ghost use Rattle.perple_core.specs.Laws.{SameWordsAndTextGiveTheSame, StillAnswersAreOne};

/// Two right answers of `replay`, `convert` or `demo` on one text are the same.
pub fn still_answers_are_one()
    ensures { StillAnswersAreOne }
{}

/// So what the clause `whole` of [`crate::perple`] says of two calls with the same words and the same text, which told
/// their bytes and both ended whole: they appended the same.
pub fn same_words_and_text_give_the_same()
    ensures { SameWordsAndTextGiveTheSame }
{}
