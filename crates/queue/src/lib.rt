//! The expiry queue: a tournament tree of least due times over the slots, in lent memory. Node 1 is the root, node k has
//! the children 2k and 2k + 1, and slot i's due time is node capacity + i. A node is eight bytes.
#![tactic(auto)]

ghost use Rattle.std.specs.Prelude.{◌≡◌, ◌+◌, ◌*◌, ◌≤◌, ◌<◌, min, length};
ghost use Rattle.memory.specs.Decides.{Decides};
ghost use Rattle.queue.specs.Tree.{node, with_node, Sound, DueSet, LeastDue, Refreshed};

/// The due time of a slot that is in no queue.
pub const NEVER: u64 = 0xffff_ffff_ffff_ffff;

/// Node `k`.
#[tactic(auto, unfolding(crate::specs::Tree::node))]
pub fn load_node(tree: &[u8], k: usize) -> u64
    requires { 8 * k + 8 ≤ length tree.now }
    ensures { result ≡ node tree.now k }
{
    memory::load_u64(tree, 8 * k)
}

/// Node `k` becomes `due`.
#[tactic(auto, unfolding(crate::specs::Tree::with_node))]
pub fn store_node(tree: &mut [u8], k: usize, due: u64)
    requires { 8 * k + 8 ≤ length tree.old }
    ensures { tree.new ≡ with_node tree.old k due }
{
    memory::store_u64(tree, 8 * k, due);
}

/// The lesser of the children of node `k`.
fn lesser_child(tree: &[u8], k: usize) -> u64
    requires { 16 * k + 16 ≤ length tree.now }
    ensures { result ≡ min (node tree.now (2 * k)) (node tree.now (2 * k + 1)) }
{
    let left = load_node(tree, 2 * k);
    let right = load_node(tree, 2 * k + 1);
    left.min(right)
}

/// Node `k` becomes the lesser of its children.
#[tactic(auto, using(crate::proofs::Laws::refreshed))]
pub fn refresh(tree: &mut [u8], k: usize)
    requires k_in_bounds { 16 * k + 16 ≤ length tree.old }
    requires k_nonzero { 0 < k }
    ensures { Refreshed k tree.old tree.new }
{
    let least = lesser_child(tree, k);
    store_node(tree, k, least);
}

/// The due time of `slot` becomes `due`: the leaf, and then each node above it.
#[tactic(auto, using(crate::specs::Turns::climbs, crate::proofs::Laws::climb_begins))]
pub fn set_due(tree: &mut [u8], capacity: usize, slot: usize, due: u64)
    requires slot_lt_capacity { slot < capacity }
    requires sound { Sound tree.old capacity }
    ensures { DueSet capacity slot due tree.old tree.new }
{
    store_node(tree, capacity + slot, due);
    let mut k = (capacity + slot) / 2;
    while 0 < k {
        refresh(tree, k);
        k /= 2;
    }
}

/// A slot with the least due time, if that is at most `limit`.
#[tactic(auto, using(crate::specs::Turns::descends, crate::proofs::Laws::walk_right))]
pub fn first_due(tree: &[u8], capacity: usize, limit: u64) -> Option<usize>
    requires capacity_nonzero { 0 < capacity }
    requires sound { Sound tree.now capacity }
    ensures { LeastDue tree.now capacity limit result }
{
    let least = load_node(tree, 1);
    if limit < least {
        return None;
    }
    let mut k = 1;
    while k < capacity {
        let left = load_node(tree, 2 * k);
        k = if left == least { 2 * k } else { 2 * k + 1 };
    }
    Some(k - capacity)
}

/// Whether each node above the leaves is the lesser of its children: one pass.
pub fn is_sound(tree: &[u8], capacity: usize) -> bool
    requires { length tree.now ≡ 16 * capacity }
    ensures { Decides result (Sound tree.now capacity) }
{
    for k in 1..capacity {
        if load_node(tree, k) != lesser_child(tree, k) {
            return false;
        }
    }
    true
}
