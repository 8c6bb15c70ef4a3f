// How a turn weighs delay: the histories that it takes, and the delay that it reads.
ghost use Rattle.std.specs.Prelude.{true, ◌≡◌, ◌<◌, length, get_or};
ghost use Rattle.price.specs.Timed.{history_bound};

use price::Weighting;

// The largest history that a search takes.
pub fn history_bound(weighting: Weighting) -> u32
    ensures { result ≡ history_bound weighting }
{
    if weighting.timed {
        price::TIMED_HISTORY_MOST
    } else {
        price::HISTORY_MOST
    }
}

// The delay of node v; it is read only where it is weighed.
pub fn delay_at(weighting: Weighting, delay: &[u16], v: usize) -> u32
    requires { weighting.timed ≡ true → v < length delay.now }
    ensures { weighting.timed ≡ true → result ≡ get_or delay.now v 0 }
{
    if weighting.timed { delay[v] as u32 } else { 0 }
}
