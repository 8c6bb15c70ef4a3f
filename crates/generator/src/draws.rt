// The generator's state: how it steps, and what is drawn from it.
ghost use Rattle.std.specs.Prelude.{◌≡◌, ◌*◌, ◌/◌, ◌%◌, ◌^◌, ◌≤◌};
ghost use Rattle.generator.specs.Draws.{stepped, state_after};

// a × b, keeping 32 bits.
fn wrapping_mul(a: u32, b: u32) -> u32
    ensures { result ≡ (a * b) % 2 ^ 32 }
{
    (a as u64 * b as u64 % 4294967296) as u32
}

// The next state.
pub fn step(state: u32) -> u32
    ensures { result ≡ stepped state }
{
    std::num::wrapping_add_u32(wrapping_mul(1664525, state), 1013904223)
}

// The state after this many steps.
pub fn steps(first: u32, count: u32) -> u32
    ensures { result ≡ state_after first count }
{
    let mut state = first;
    for k in 0..count {
        state = step(state);
    }
    state
}

// A draw of m, from the state that was stepped for it.
pub fn drawn(state: u32, m: u32) -> u32
    requires { 1 ≤ m }
    ensures { result ≡ state / 65536 % m }
{
    state / 65536 % m
}
