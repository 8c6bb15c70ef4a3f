// The router and resume, a line for each case of the file stdin, which docs/CASES.md describes: the answer, then the whole work slice and
// the whole log afterwards. The expected lines stand in the file stdout.
#![tactic(auto)]

ghost use Rattle.std.specs.Prelude.{◌≤◌};

use cases::{Program, lines, read, show};
use job::{JobTables, Tables, Terms};
use negotiation::RouteAnswer;
use price::Tuning;

// The refusal, if there is one, the iteration, the turns, the words of log, and of a search that aims how many nodes it expanded.
fn answer(r: RouteAnswer, aimed: bool) {
    if let Some(refused) = negotiation::refusal(r.outcome, r.iteration, r.turns) {
        show::refused(refused.number as u64, refused.first, refused.second);
    }
    let own = [r.iteration as u64, r.turns, r.used, r.expanded];
    let shown = if aimed { 4 } else { 3 };
    show::answered(&own[..shown]);
}

// What line 2 says.
#[derive(Clone, Copy)]
struct Asked {
    terms: Terms,
    // Whether the search aims.
    aimed: bool,
    // The two last numbers.
    first: u32,
    second: u32,
    // Whether the terms have their last number. The case then has tables 9 and 10.
    whole: bool,
}

// The numbers of line 2: the limit, the tuning, the rule and its k, whether the job is timed, which search it is, and two more. Which
// search it is may be left out, and with it the last of the terms.
fn said(n: &[u32]) -> Asked {
    let [
        limit,
        first,
        up,
        down,
        step,
        rule,
        until,
        eighth,
        ninth,
        tenth,
        last,
    ] = read::padded::<11>(n);
    let (timed, aimed, lengths) = match n.len() {
        11 => (1 <= eighth, 1 <= ninth, [tenth, last]),
        10 => (1 <= eighth, false, [ninth, tenth]),
        count => {
            read::exactly(count, 9);
            (false, false, [eighth, ninth])
        }
    };
    let tuning = Tuning {
        first,
        up,
        down,
        step,
    };
    let terms = Terms {
        limit,
        tuning,
        rule,
        until,
        timed,
    };
    Asked {
        terms,
        aimed,
        first: lengths[0],
        second: lengths[1],
        whole: n.len() > 9,
    }
}

// The router, with a work slice and a log as long as the case says: the answer, the work slice and the log.
fn route_case(job: &JobTables, n: Asked) {
    let mut work = [7u64; 128];
    let mut log = [7u32; 256];
    let work = read::first(n.first, &mut work);
    let log = read::first(n.second, &mut log);
    answer(negotiation::route(job, n.aimed, work, log), n.aimed);
    show::entries(work);
    show::entries(log);
}

// The line after the tables.
fn after_tables(whole: bool) -> usize
    ensures { result ≤ 11 }
{
    if whole { 11 } else { 9 }
}

// Resume, with a work slice as long as the case says and the log as the case has it.
fn resume_case(text: &[u8], job: &JobTables, n: Asked) {
    let mut work = [7u64; 128];
    let mut log = [0u32; 256];
    let work = read::first(n.second, &mut work);
    let log = read::entries(text, after_tables(n.whole), &mut log);
    answer(
        negotiation::resume(job, n.aimed, n.first as u64, work, log),
        n.aimed,
    );
    show::entries(work);
    show::entries(log);
}

// Whether the case's call is resume, and not route.
fn resumes(text: &[u8]) -> bool {
    lines::call(text, 1) == b'e'
}

// The tables of the nets, with tables 9 and 10 where the case has them, and the call, by its name.
fn nets(text: &[u8], block: Tables, n: Asked) {
    let mut source = [0u16; 64];
    let mut first_sink = [0u32; 64];
    let mut sink = [0u16; 64];
    let mut delay = [0u16; 64];
    let mut criticality = [0u8; 64];
    let job = JobTables {
        block,
        source: read::entries(text, 6, &mut source),
        first_sink: read::entries(text, 7, &mut first_sink),
        sink: read::entries(text, 8, &mut sink),
        delay: read::entries_if(n.whole, text, 9, &mut delay),
        criticality: read::entries_if(n.whole, text, 10, &mut criticality),
        terms: n.terms,
    };
    if resumes(text) {
        resume_case(text, &job, n);
    } else {
        route_case(&job, n);
    }
}

// The tables of the block, and the rest of the case.
fn block(text: &[u8], n: Asked) {
    let mut kind = [0u8; 64];
    let mut capacity = [0u8; 64];
    let mut first_edge = [0u32; 64];
    let mut edge_target = [0u16; 64];
    let tables = Tables {
        kind: read::entries(text, 2, &mut kind),
        capacity: read::entries(text, 3, &mut capacity),
        first_edge: read::entries(text, 4, &mut first_edge),
        edge_target: read::entries(text, 5, &mut edge_target),
    };
    nets(text, tables, n);
}

struct NegotiationTest;

impl Program for NegotiationTest {
    fn one(text: &[u8]) {
        let mut numbers = [0u32; 11];
        show::name(text);
        let n = said(read::entries(text, 1, &mut numbers));
        // that of a resume has a line for the log
        read::end(text, after_tables(n.whole) + resumes(text) as usize);
        block(text, n);
        show::line_end();
    }
}

fn main() {
    cases::run::<NegotiationTest>()
}
