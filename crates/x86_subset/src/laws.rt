//! Laws of litmus tests and of their texts: each function's clause is one, and its body is empty.
ghost use Rattle.x86_subset.specs.Laws.{ConjunctionsHaveTheAtoms, OneParse, OneCut};

/// The conjunctions of a condition have its atoms in order, each once.
pub fn conjunctions_have_the_atoms()
    ensures { ConjunctionsHaveTheAtoms }
{}

/// Each cell says one thing, or nothing for one cause.
pub fn one_parse()
    ensures { OneParse }
{}

/// Each text is cut into tokens in one way.
pub fn one_cut()
    ensures { OneCut }
{}
