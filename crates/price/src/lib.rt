// Prices: base cost, price of a node, present congestion factor, historical congestion.
// Document 01, "Prices". Every public function takes every input that its types allow.
#![tactic(auto)]

ghost use Rattle.std.specs.Prelude.{◌≡◌, ◌≤◌, min};
ghost use Rattle.price.specs.Bounds.{kind_most, factor_most, others_most, delay_most, criticality_most, price_most};
ghost use Rattle.price.specs.Prices.{base_cost, next_factor, next_history};
ghost use Rattle.price.specs.Replies.{InBounds, price_reply_of, price_reply};
ghost use Rattle.price.specs.Running.{congested_cost, historic_cost};
ghost use Rattle.price.specs.Timed.{timed_price, timed_reply, weighed_reply};
ghost use Rattle.price.specs.Tuning.{plain, tuning_sound};

// The bounds of specs/Bounds.antt. The last kind is a wire of 50 tiles.
pub const KIND_MOST: u32 = 53;

pub const FACTOR_MOST: u32 = 65535;

// Every net but the one that is routed.
pub const OTHERS_MOST: u32 = 511;

pub const CAPACITY_MOST: u32 = 255;

// What 99 iterations can add to 1.
pub const HISTORY_MOST: u32 = 101179;

// Of a timed job.
pub const DELAY_MOST: u32 = 1000;

pub const CRITICALITY_MOST: u32 = 9;

// What 39 iterations can add to 1.
pub const TIMED_HISTORY_MOST: u32 = 39859;

// The tuning's bounds.
const FIRST_MOST: u32 = 1000;

const DOWN_MOST: u32 = 4;

const UP_MOST: u32 = 8;

const STEP_MOST: u32 = 2;

// Refusal 13: the number at this place, from 0, is the first one beyond its bounds.
#[derive(Clone, Copy, Debug, PartialEq, Eq)]
pub struct BadNumber {
    pub place: u32,
}

// The five numbers that price a node, in the order of their places: what it is, what the iteration asks, how many other nets have it, how
// many nets it can carry, and its historical congestion.
#[derive(Clone, Copy, Debug, PartialEq, Eq)]
pub struct Numbers {
    pub kind: u32,
    pub factor: u32,
    pub others: u32,
    pub capacity: u32,
    pub history: u32,
}

// How the tariff is tuned: the factor in iteration 2, then factor × up / down, and by how much history grows for each net too many.
#[derive(Clone, Copy, Debug, PartialEq, Eq)]
pub struct Tuning {
    pub first: u32,
    pub up: u32,
    pub down: u32,
    pub step: u32,
}

// How a turn weighs delay: not at all, or for a sink of this criticality.
#[derive(Clone, Copy, Debug, PartialEq, Eq)]
pub struct Weighting {
    pub timed: bool,
    pub criticality: u32,
}

// The tuning of a job without a P line.
pub fn plain_tuning() -> Tuning
    ensures { result ≡ plain }
{
    Tuning {
        first: 50,
        up: 3,
        down: 2,
        step: 1,
    }
}

// Each number of a tuning keeps its bounds.
#[tactic(auto, unfolding(crate::specs::Tuning::tuning_sound))]
pub fn tuning_sound(g: Tuning) -> bool
    ensures { result ≡ tuning_sound g }
{
    g.first <= FIRST_MOST
        && 1 <= g.down
        && g.down <= DOWN_MOST
        && g.down <= g.up
        && g.up <= UP_MOST
        && 1 <= g.step
        && g.step <= STEP_MOST
}

// The first running product, b_v in document 003: the base cost of a node of this kind. A wire's cost stands before the match, whose arms
// are then numbers alone, so that it is compiled without a branch.
fn base_cost(kind: u32) -> u16
    requires { kind ≤ kind_most }
    ensures { result ≡ base_cost kind }
{
    let tiles = if kind < 3 { 0 } else { kind - 3 };
    let wire = 20 * (tiles as u16);
    match kind {
        0 | 1 | 2 => 20,
        3 => 19,
        4..=KIND_MOST => wire,
        _ => 0,
    }
}

// The base cost of a node of this kind; a kind beyond its bounds counts as the last.
pub fn base(kind: u32) -> u32
    ensures { result ≡ base_cost (min kind kind_most) }
{
    base_cost(kind.min(KIND_MOST)) as u32
}

// max(0, others + 1 - capacity)
fn overuse(others: u32, capacity: u32) -> u64
    requires { others ≤ others_most }
    ensures { result ≡ Rattle.price.specs.Prices.overuse others capacity }
{
    if capacity <= others {
        (others + 1 - capacity) as u64
    } else {
        0
    }
}

// The second running product, b_v · p_v in document 003: the base cost times the present congestion, in hundredths.
fn congested_cost(n: Numbers) -> u64
    requires { (n.kind ≤ kind_most) × (n.factor ≤ factor_most) × (n.others ≤ others_most) × (1 ≤ n.capacity) }
    ensures { result ≡ congested_cost n.kind n.factor n.others n.capacity }
{
    let base = base_cost(n.kind) as u64;
    let over = overuse(n.others, n.capacity);
    let present = 100 + n.factor as u64 * over;
    base * present
}

// The third running product, b_v · p_v · h_v in document 003: that times the historical congestion.
fn historic_cost(n: Numbers) -> u64
    requires { InBounds n.kind n.factor n.others n.capacity n.history }
    ensures { result ≡ historic_cost n.kind n.factor n.others n.capacity n.history }
{
    congested_cost(n) * n.history as u64
}

// The price of a node at these numbers. 13 names the first of the five that is beyond its bounds.
#[tactic(auto, unfolding(crate::specs::Replies::price_reply))]
pub fn price(n: Numbers) -> Result<u64, BadNumber>
    ensures { price_reply_of result ≡ price_reply n.kind n.factor n.others n.capacity n.history }
{
    if KIND_MOST < n.kind {
        return Err(BadNumber { place: 0 });
    }
    if FACTOR_MOST < n.factor {
        return Err(BadNumber { place: 1 });
    }
    if OTHERS_MOST < n.others {
        return Err(BadNumber { place: 2 });
    }
    if n.capacity < 1 || CAPACITY_MOST < n.capacity {
        return Err(BadNumber { place: 3 });
    }
    if n.history < 1 || HISTORY_MOST < n.history {
        return Err(BadNumber { place: 4 });
    }
    Ok(historic_cost(n))
}

// The congestion price and the delay of a node, weighed for a sink of this criticality.
fn weigh(criticality: u32, delay: u32, congestion: u64) -> u64
    requires { (criticality ≤ criticality_most) × (delay ≤ delay_most) × (congestion ≤ price_most) }
    ensures { result ≡ timed_price criticality delay congestion }
{
    criticality as u64 * delay as u64 * 100 + (10 - criticality) as u64 * congestion
}

// The price of a node of this delay for a sink of this criticality. 13 names the first of the seven that is beyond its bounds.
pub fn timed_price(n: Numbers, delay: u32, criticality: u32) -> Result<u64, BadNumber>
    ensures { price_reply_of result ≡ timed_reply n.kind n.factor n.others n.capacity n.history delay criticality }
{
    let congestion = price(n)?;
    if DELAY_MOST < delay {
        return Err(BadNumber { place: 5 });
    }
    if CRITICALITY_MOST < criticality {
        return Err(BadNumber { place: 6 });
    }
    Ok(weigh(criticality, delay, congestion))
}

// The price of a node of this delay, timed or not. It is asked for each node that a path or a search meets: a call each was measured
// slower where a lent log is followed.
#[inline(always)]
pub fn weighed_price(w: Weighting, n: Numbers, delay: u32) -> Result<u64, BadNumber>
    ensures { price_reply_of result ≡ weighed_reply w n.kind n.factor n.others n.capacity n.history delay }
{
    if w.timed {
        timed_price(n, delay, w.criticality)
    } else {
        price(n)
    }
}

// The present congestion factor of the iteration after `iteration`, whose own factor is `factor`.
pub fn next_factor(g: Tuning, iteration: u32, factor: u32) -> u32
    ensures { result ≡ next_factor g iteration factor }
{
    if iteration == 0 {
        return 0;
    }
    if iteration == 1 {
        return g.first;
    }
    if g.down == 0 {
        return 0;
    }
    let grown = factor as u64 * g.up as u64 / g.down as u64;
    grown.min(FACTOR_MOST as u64) as u32
}

// The historical congestion of a node after an iteration that leaves it with this many users.
pub fn next_history(g: Tuning, history: u32, users: u32, capacity: u32) -> u64
    ensures { result ≡ next_history g history users capacity }
{
    if capacity < users {
        history as u64 + g.step as u64 * (users - capacity) as u64
    } else {
        history as u64
    }
}
