//! What holds of each legal run whose threads perform their bodies, and of the numbers of frames.
ghost use Rattle.tso_machine.specs.Frame.{FramesHaveNumbers, NumbersHaveFrames};
ghost use Rattle.tso_machine.specs.Laws.{LogsAreWhole, ValuesNameTheirSource, ValuesRise};

/// What a read takes is 0 exactly where its source is the initial value, and else the value of its source.
pub fn values_name_their_source()
    ensures { ValuesNameTheirSource }
{}

/// Where a single thread has all stores of a location, memory takes the values from 1 on, in steps of one.
pub fn values_rise()
    ensures { ValuesRise }
{}

/// Each thread logs one value for each iteration and each reading action of its body.
pub fn logs_are_whole()
    ensures { LogsAreWhole }
{}

/// The number of a frame of `t` iterations below `n` is below `n^t`, and the frame with this number is that frame.
pub fn frames_have_numbers()
    ensures { FramesHaveNumbers }
{}

/// The frame with a number below `n^t` has `t` iterations below `n`, and this number.
pub fn numbers_have_frames()
    ensures { NumbersHaveFrames }
{}
