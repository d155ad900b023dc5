//! What is written is read back, and what a section's parts are.
ghost use Rattle.run_text.specs.Laws.{EventsAreReadBack, RunsAreReadBack, SectionsPartInputs};

/// The line of an event tells that event.
pub fn events_are_read_back()
    ensures { EventsAreReadBack }
{}

/// An input that has a section is put together of its parts.
pub fn sections_part_inputs()
    ensures { SectionsPartInputs }
{}

/// A run that is written after a litmus text is read back.
pub fn runs_are_read_back()
    ensures { RunsAreReadBack }
{}
