//! Kept order: what x86-TSO keeps of program order.
ghost use Rattle.std.specs.Prelude.{◌≡◌};
ghost use Rattle.seq_conv.specs.Sequence.{action_at};
ghost use Rattle.verdict.specs.Edges.{is_barred, is_barrier, is_kept, is_node, site};

use verdict::Node;
use x86_subset::{Instr, Test};

/// The action at a node, if there is one.
pub fn action(test: &Test, node: Node) -> Option<Instr>
    ensures { result ≡ action_at test.now (site node) }
{
    let t = node.thread as usize;
    if t < test.threads() {
        test.body(t).get(node.place as usize).copied()
    } else {
        None
    }
}

/// Whether a store, a load or an exchange stands there.
pub fn is_node(test: &Test, node: Node) -> bool
    ensures { result ≡ is_node test.now (site node) }
{
    match action(test, node) {
        Some(Instr::Fence) | None => false,
        Some(_) => true,
    }
}

/// Whether the action finds its thread's buffer empty.
fn is_barrier(instr: Instr) -> bool
    ensures { result ≡ is_barrier instr }
{
    matches!(instr, Instr::Fence | Instr::Exchange { .. })
}

/// Whether a fence or an exchange stands between two places.
fn has_barrier(body: &[Instr], from: u32, to: u32) -> bool
    ensures { result ≡ is_barred body.now from to }
{
    body.iter()
        .take(to as usize)
        .skip(from as usize + 1)
        .any(|instr| is_barrier(*instr))
}

/// Whether the order of two actions is kept: they stand in one thread, the first at the lower place, and the second is
/// no load that may overtake a store.
pub fn keeps_order(test: &Test, a: Node, b: Node) -> bool
    ensures { result ≡ is_kept test.now (site a) (site b) }
{
    if a.thread != b.thread || a.place >= b.place {
        return false;
    }
    match (action(test, a), action(test, b)) {
        (Some(Instr::Store { .. }), Some(Instr::Load { .. })) => {
            has_barrier(test.body(a.thread as usize), a.place, b.place)
        }
        (Some(_), Some(_)) => true,
        _ => false,
    }
}
