// A tournament over n states. Words 0..n have their costs and one, n..2n their steps, 3n..4n its nodes. Node i of 1..n names the state that comes
// first below it; its children are nodes 2i and 2i + 1, and nodes n..2n are the states themselves.
// The words are lent and stay one run, as the call's promise on them has it: no heap. No struct holds the words and n: each contract on such a
// `&mut` would need a clause on its ghost name besides, which is no plainer than `Roomy n words`.
ghost use Rattle.std.specs.Prelude.{◌+◌, ◌*◌, ◌≤◌, ◌<◌, ◌≡◌, length, set};
ghost use Rattle.state_queue.specs.Inner.Queue.{queue_cost, key, winner, better, queued, Roomy, Sets, Siblings, Waits, Nearly, Climbs, Climbed, Played};

use crate::NOT_REACHED;

// Above all steps, which have 32 bits.
const ABOVE_STEPS: u64 = 4294967296;

// The cost by which a state is queued: one that was taken comes last, one that was not reached before it. Constant time, as are all up to the node.
#[tactic(auto, unfolding(crate::specs::Inner::Queue::queue_cost))]
fn queue_cost(word: u32) -> u32
    ensures { result ≡ queue_cost word }
{
    if word == 0 { 4294967295 } else { word - 1 }
}

// Whether a state of this word is in the queue.
#[tactic(auto, unfolding(crate::specs::Inner::Queue::queued))]
pub fn is_queued(word: u32) -> bool
    ensures { result ≡ queued word }
{
    queue_cost(word) < NOT_REACHED - 1
}

// What states are compared by: the cost, then the steps, as one number that is compared at once.
#[tactic(auto, unfolding(crate::specs::Inner::Queue::key))]
fn key_of(words: &[u32], n: usize, s: usize) -> u64
    requires { Roomy n words.now × (s < n) }
    ensures { result ≡ key words.now n s }
{
    let cost = queue_cost(words[s]);
    u64::from(cost) * ABOVE_STEPS + u64::from(words[n + s])
}

// The state that comes first below a node.
#[tactic(auto, unfolding(crate::specs::Inner::Queue::winner))]
pub fn winner(words: &[u32], n: usize, node: usize) -> usize
    requires { Roomy n words.now × (node < 2 * n) }
    ensures { result ≡ winner words.now n node }
{
    if n <= node {
        node - n
    } else {
        words[3 * n + node] as usize
    }
}

// Of two states the one that comes first, a if none does.
#[tactic(auto, unfolding(crate::specs::Inner::Queue::better))]
fn better(words: &[u32], n: usize, a: usize, b: usize) -> usize
    requires { Roomy n words.now × (a < n) × (b < n) }
    ensures { (result ≡ better words.now n a b) × (result < n) }
{
    if key_of(words, n, b) < key_of(words, n, a) {
        b
    } else {
        a
    }
}

// A node, from its children.
fn set_node(words: &mut [u32], n: usize, node: usize)
    requires { Roomy n words.old × Sets words.old n node }
    ensures { words.new ≡ set words.old (3 * n + node) (better words.old n (winner words.old n (2 * node)) (winner words.old n (2 * node + 1))) }
{
    let a = winner(words, n, 2 * node);
    let b = winner(words, n, 2 * node + 1);
    let first = better(words, n, a, b);
    words[3 * n + node] = first as u32;
}

// All nodes, whatever stood there. Linear in the states.
pub fn set_nodes(words: &mut [u32], n: usize)
    requires { Roomy n words.old }
    ensures { Played n words.old words.new }
{
    for node in (1..n).rev() {
        set_node(words, n, node);
    }
}

// The other child of the node above. Constant time.
fn sibling(node: usize) -> usize
    requires { (1 < node) × (node < 2048) }
    ensures { Siblings node result }
{
    if node % 2 == 0 { node + 1 } else { node - 1 }
}

// The nodes above a state whose cost or steps have changed. As many steps as there are variables.
// The state that comes first so far is kept with its key, so a level reads one state: a search of 1,023 steps takes a quarter less time.
pub fn lower(words: &mut [u32], n: usize, state: usize)
    requires { Roomy n words.old × Waits words.old n state }
    ensures { Played n words.old words.new }
{
    let mut first = state;
    let mut first_key = key_of(words, n, state);
    let mut node = n + state;
    while 1 < node {
        let beside = sibling(node);
        let other = winner(words, n, beside);
        let other_key = key_of(words, n, other);
        if other_key < first_key {
            first = other;
            first_key = other_key;
        }
        node /= 2;
        words[3 * n + node] = first as u32;
    }
}

// A state of key `own` that comes no later than before is named by a node over it, if it comes before the state that is named there. False if
// another state stays. Constant time.
fn climb(words: &mut [u32], n: usize, state: usize, own: u64, node: usize) -> bool
    requires { Roomy n words.old × Climbs words.old n state node × (own ≡ key words.old n state) }
    ensures { Climbed n state node words.old words.new result }
{
    let first = winner(words, n, node);
    if first == state {
        return true;
    }
    let comes_first = own < key_of(words, n, first);
    if comes_first {
        words[3 * n + node] = state as u32;
    }
    comes_first
}

// The nodes above a state that comes no later than before. At most as many steps as there are variables.
pub fn raise(words: &mut [u32], n: usize, state: usize)
    requires { Roomy n words.old × Nearly words.old n state }
    ensures { Played n words.old words.new }
{
    let own = key_of(words, n, state);
    let mut node = (n + state) / 2;
    while 0 < node {
        if !climb(words, n, state, own, node) {
            return;
        }
        node /= 2;
    }
}
