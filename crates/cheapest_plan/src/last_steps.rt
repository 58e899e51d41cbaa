// Lists of operators by their last steps: a step is 256 times the code and one of the state that it leaves, and its operator. Words 2n..3n have
// for each state the last step of its list.
ghost use Rattle.std.specs.Prelude.{◌-◌, ◌/◌, ◌%◌, ◌≤◌, ◌≡◌};
ghost use Rattle.state_queue.specs.Inner.Queue.{Roomy};
ghost use Rattle.cheapest_plan.specs.Inner.Tables.{Comparable, Compares};

// The code of the state that a step leaves. Constant time.
pub fn parent_of(step: u32) -> usize
    requires { 256 ≤ step }
    ensures { result ≡ step / 256 - 1 }
{
    (step / 256) as usize - 1
}

// Its operator. Constant time.
pub fn operator_of(step: u32) -> u16
    ensures { result ≡ step % 256 }
{
    (step % 256) as u16
}

// Whether the list that ends with the first step comes before the one that ends with the second, by their numbers from the front; both have the same
// length, and what decides is where they part. As many steps as lie behind that place.
pub fn precedes(words: &[u32], n: usize, first: u32, second: u32) -> bool
    requires { Roomy n words.now × Comparable n words.now first second }
    ensures { Compares n words.now first second result }
{
    let mut x = first;
    let mut y = second;
    while x / 256 != y / 256 {
        let a = parent_of(x);
        let b = parent_of(y);
        x = words[2 * n + a];
        y = words[2 * n + b];
    }
    x < y
}
