// The tariff, lent by &mut to the steps that bring it up to date, and the same steps by value for the routing loops.
ghost use Rattle.std.specs.Prelude.{◌≡◌, ◌+◌, ◌<◌, ◌^◌};
ghost use Rattle.negotiation.specs.TariffSteps.{logged_tariff, ended_tariff, started_tariff, going_on};

use price::Tuning;

// What 01 calls the tariff: iteration, factor, turns made and words written. Request 2.13 adds which search makes the turns, and how many
// nodes it has expanded.
#[derive(Clone, Copy, Debug, PartialEq, Eq)]
pub struct Tariff {
    pub iteration: u32,
    pub factor: u32,
    pub turns: u64,
    pub words: usize,
    pub aimed: bool,
    pub expanded: u64,
}

// A turn of so many words that expanded so many nodes is logged.
fn log_turn(t: &mut Tariff, count: usize, expanded: u64)
    requires { (t.old.turns + 1 < 2 ^ 64) × (t.old.words + count < 2 ^ 64) × (t.old.expanded + expanded < 2 ^ 64) }
    ensures { t.new ≡ logged_tariff t.old count expanded }
{
    t.turns += 1;
    t.words += count;
    t.expanded += expanded;
}

// The iteration is over: the present congestion factor moves on.
fn end_iteration(t: &mut Tariff, g: Tuning)
    ensures { t.new ≡ ended_tariff g t.old }
{
    t.factor = price::next_factor(g, t.iteration, t.factor);
}

// The next iteration starts.
fn start_iteration(t: &mut Tariff)
    requires { t.old.iteration + 1 < 2 ^ 32 }
    ensures { t.new ≡ started_tariff t.old }
{
    t.iteration += 1;
}

// A run goes on from here by this search: no nodes are counted yet.
fn go_on_by(t: &mut Tariff, aimed: bool)
    ensures { t.new ≡ going_on t.old aimed }
{
    t.aimed = aimed;
    t.expanded = 0;
}

// The tariff after a turn of so many words that expanded so many nodes is logged.
pub fn turn_logged(t: Tariff, count: usize, expanded: u64) -> Tariff
    requires { (t.turns + 1 < 2 ^ 64) × (t.words + count < 2 ^ 64) × (t.expanded + expanded < 2 ^ 64) }
    ensures { result ≡ logged_tariff t count expanded }
{
    let mut next = t;
    log_turn(&mut next, count, expanded);
    next
}

// The tariff after the iteration's end.
pub fn iteration_ended(t: Tariff, g: Tuning) -> Tariff
    ensures { result ≡ ended_tariff g t }
{
    let mut next = t;
    end_iteration(&mut next, g);
    next
}

// The tariff at the next iteration's start.
pub fn iteration_started(t: Tariff) -> Tariff
    requires { t.iteration + 1 < 2 ^ 32 }
    ensures { result ≡ started_tariff t }
{
    let mut next = t;
    start_iteration(&mut next);
    next
}

// The tariff of a run that goes on from here by this search.
pub fn going_on(t: Tariff, aimed: bool) -> Tariff
    ensures { result ≡ going_on t aimed }
{
    let mut next = t;
    go_on_by(&mut next, aimed);
    next
}
