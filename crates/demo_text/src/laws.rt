//! What holds of each demo text.
ghost use Rattle.demo_text.specs.Laws.{DemoTextsAreTests};

/// Each demo text reads as a test whose atoms each have a kind, whose frames can be counted, and whose name is ASCII.
pub fn demo_texts_are_tests()
    ensures { DemoTextsAreTests }
{}
