//! What a tree says.
ghost use Rattle.choice_search.specs.Laws.{TreesRefute};

/// Where a tree refutes, the edges have a cycle with any sides.
pub fn trees_refute()
    ensures { TreesRefute }
{}
