// Occupancy after an iteration: nodes over capacity, and the histories that move on.
ghost use Rattle.std.specs.Prelude.{Bool, ◌≡◌, ℕ, ◌≤◌, ◌<◌, ◌^◌, ltb, length, get_or};
ghost use Rattle.price.specs.Bounds.{nodes_most, step_most};
ghost use Rattle.price.specs.Lists.{up_to, count_below};
ghost use Rattle.price.specs.Prices.{next_history};

use price::Tuning;

// How many nodes have more users than their capacity.
pub fn over_count(capacity: &[u8], users: &[u16]) -> u32
    requires { (length capacity.now ≤ length users.now) × (length capacity.now ≤ nodes_most) }
    ensures { let over : (ℕ → Bool) = λ v. ltb (get_or capacity.now v 0) (get_or users.now v 0) in
        result ≡ count_below over (length capacity.now) }
{
    let mut over = 0;
    for v in 0..capacity.len() {
        if (capacity[v] as u16) < users[v] {
            over += 1;
        }
    }
    over
}

// Every node's historical congestion after the iteration.
pub fn grow_histories(g: Tuning, capacity: &[u8], users: &[u16], history: &mut [u32])
    requires capacity_len { (length capacity.now ≡ length users.now) × (length capacity.now ≡ length history.old) }
    requires by_index { ((v : ℕ) → v < length history.old → get_or history.old v 0 < 2 ^ 31) × (g.step ≤ step_most) }
    ensures { let old = history.old in
        let grown : (ℕ → ℕ) = λ v. next_history g (get_or old v 0) (get_or users.now v 0) (get_or capacity.now v 0) in
        history.new ≡ up_to grown (length old) }
{
    for v in 0..history.len() {
        history[v] = price::next_history(g, history[v], users[v] as u32, capacity[v] as u32) as u32;
    }
}
