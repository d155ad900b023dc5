//! The numbers of frames.
ghost use Rattle.std.specs.Prelude.{◌≡◌, ◌^◌, ◌<◌, ◌≤◌, ◌↔◌, IsNone, IfSome, OnSome};
ghost use Rattle.tso_machine.specs.Frame.{frame_number, frame_of};
ghost use Rattle.perp_base.specs.declared.limits.TheConstants.{MOST_ITERATIONS, MOST_THREADS};

use perp_base::{Frame, MOST_FRAMES};

/// How many frames of `t` threads there are, or none if they are too many to count.
pub fn frames(n: u32, t: usize) -> Option<u64>
    requires some { 1 ≤ n }
    requires iterations { n ≤ MOST_ITERATIONS }
    requires threads { t ≤ MOST_THREADS }
    ensures none { IsNone result ↔ (MOST_FRAMES < n ^ t) }
    ensures value { IfSome result (λ number. number ≡ n ^ t) }
    ensures few { OnSome result (n ^ t ≤ MOST_FRAMES) }
{
    let mut number = 1u64;
    for _ in 0..t {
        number *= n as u64;
        if number > MOST_FRAMES {
            return None;
        }
    }
    Some(number)
}

/// `n ^ t`, where the frames can be counted.
pub(crate) fn power(n: u32, t: usize) -> u64
    requires some { 1 ≤ n }
    requires few { n ^ t ≤ MOST_FRAMES }
    ensures { result ≡ n ^ t }
{
    let mut number = 1u64;
    for _ in 0..t {
        number *= n as u64;
    }
    number
}

/// The frame with this number: the last thread's iteration changes fastest.
pub fn frame_of(number: u64, n: u32, t: usize) -> Frame
    requires some { 1 ≤ n }
    requires threads { t ≤ MOST_THREADS }
    requires few { n ^ t ≤ MOST_FRAMES }
    ensures frame { result ≡ frame_of n t number }
    ensures number { number < n ^ t → frame_number n result ≡ number }
{
    let mut frame = Frame::new();
    let mut step = power(n, t);
    for _ in 0..t {
        step /= n as u64;
        frame.add((number / step % n as u64) as u32);
    }
    frame
}
