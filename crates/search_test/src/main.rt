// The search, timed or not, and the cheapest path, a line each, or that path by the search that aims, for every case of the file stdin,
// which docs/CASES.md describes: the answer and the whole work slice afterwards. The expected lines stand in the file stdout.
#![tactic(auto)]

use cases::{Program, lines, read, show};
use price::Weighting;
use search::{Back, Prices, Refusal, Tables};

// A case's text, and what its calls share.
#[derive(Clone, Copy)]
struct Case<'a> {
    text: &'a [u8],
    tables: Tables<'a>,
    prices: Prices<'a>,
    in_tree: &'a [u8],
}

fn refused(refusal: Refusal) {
    match refusal {
        Refusal::BadTable(table) => show::refused(5, table as u64, None),
        Refusal::ShortWork(needed) => show::refused(6, needed, None),
        Refusal::BadNumber(place) => show::refused(13, place as u64, None),
        Refusal::TooLarge(nodes) => show::refused(15, nodes as u64, Some(0)),
    }
}

// A line of the case that stands after tables 1 to 4, which is one later where table 9 is there too.
fn line(weighting: Weighting, number: u32) -> usize {
    number as usize + weighting.timed as usize
}

// The search, on the work slice as the case has it, and its line.
fn search_case(case: &Case) {
    let prices = case.prices;
    let mut work = [0u64; 8192];
    let work = read::entries(case.text, line(prices.weighting, 10), &mut work);
    show::name(case.text);
    show::call(b"search");
    let answer = if prices.weighting.timed {
        search::timed_search(
            &case.tables,
            prices.delay,
            prices.factor,
            prices.weighting.criticality,
            work,
            prices.history,
            prices.others,
            case.in_tree,
        )
    } else {
        search::search(
            &case.tables,
            prices.factor,
            work,
            prices.history,
            prices.others,
            case.in_tree,
        )
    };
    match answer {
        Ok(()) => show::answered(&[]),
        Err(refusal) => refused(refusal),
    }
    show::entries(work);
    show::line_end();
}

// The cheapest path to the case's sinks, on the work slice as the case has it, and its line. Where no sink is joined, `=` has no number
// after it.
fn path_case(case: &Case) {
    let weighting = case.prices.weighting;
    let mut sinks = [0u16; 4097];
    let mut work = [0u64; 8192];
    let sinks = read::entries(case.text, line(weighting, 9), &mut sinks);
    let work = read::entries(case.text, line(weighting, 10), &mut work);
    show::name(case.text);
    show::call(b"path");
    match search::cheapest_path(&case.tables, &case.prices, work, case.in_tree, sinks) {
        Ok(Some(joins)) => show::answered(&[joins.place as u64, joins.cost, joins.length as u64]),
        Ok(None) => show::answered(&[]),
        Err(refusal) => refused(refusal),
    }
    show::entries(work);
    show::line_end();
}

// The same path by the search that aims, with how many nodes it expanded, none where it is refused. The tables by target stand at the end
// of the case.
fn aimed_case(case: &Case) {
    let weighting = case.prices.weighting;
    let mut sinks = [0u16; 4097];
    let mut work = [0u64; 8192];
    let mut first_back = [0u32; 4098];
    let mut back_source = [0u16; 32769];
    let sinks = read::entries(case.text, line(weighting, 9), &mut sinks);
    let work = read::entries(case.text, line(weighting, 10), &mut work);
    let back = Back {
        first_back: read::entries(case.text, line(weighting, 11), &mut first_back),
        back_source: read::entries(case.text, line(weighting, 12), &mut back_source),
    };
    show::name(case.text);
    show::call(b"aimed");
    match search::aimed_path(&case.tables, &back, &case.prices, work, case.in_tree, sinks) {
        Ok(turn) => match turn.joins {
            Some(joins) => show::answered(&[
                joins.place as u64,
                joins.cost,
                joins.length as u64,
                turn.expanded as u64,
            ]),
            None => show::answered(&[turn.expanded as u64]),
        },
        Err(refusal) => {
            refused(refusal);
            show::answered(&[0]);
        }
    }
    show::entries(work);
    show::line_end();
}

// Whether the case's call is `aimed` or `timed_aimed`.
fn aims(text: &[u8]) -> bool {
    let first = lines::call(text, 0);
    first == b'a' || first == b't' && lines::call(text, 6) == b'a'
}

// The lists of the nodes, table 9 of a timed case before them, and then the calls: the search that aims, or the search and the cheapest
// path.
fn lists<'x>(text: &'x [u8], tables: Tables<'x>, weighting: Weighting, factor: u32) {
    let mut delay = [0u16; 1025];
    let mut history = [0u32; 1025];
    let mut others = [0u16; 1025];
    let mut in_tree = [0u8; 1025];
    let prices = Prices {
        weighting,
        delay: read::entries_if(weighting.timed, text, 6, &mut delay),
        factor,
        history: read::entries(text, line(weighting, 6), &mut history),
        others: read::entries(text, line(weighting, 7), &mut others),
    };
    let case = Case {
        text,
        tables,
        prices,
        in_tree: read::entries(text, line(weighting, 8), &mut in_tree),
    };
    if aims(text) {
        aimed_case(&case);
    } else {
        search_case(&case);
        path_case(&case);
    }
}

// The tables, and then the rest of the case.
fn tables(text: &[u8], weighting: Weighting, factor: u32) {
    let mut kind = [0u8; 4097];
    let mut capacity = [0u8; 4097];
    let mut first_edge = [0u32; 4098];
    let mut edge_target = [0u16; 32769];
    let tables = Tables {
        kind: read::entries(text, 2, &mut kind),
        capacity: read::entries(text, 3, &mut capacity),
        first_edge: read::entries(text, 4, &mut first_edge),
        edge_target: read::entries(text, 5, &mut edge_target),
    };
    lists(text, tables, weighting, factor);
}

struct SearchTest;

impl Program for SearchTest {
    // The case, timed or not, by its call's first letter.
    fn one(text: &[u8]) {
        let mut n = [0u32; 2];
        let timed = lines::call(text, 0) == b't';
        let n = read::entries(text, 1, &mut n);
        read::exactly(n.len(), 1 + timed as usize);
        let [factor, second] = read::padded::<2>(n);
        let criticality = if timed { second } else { 0 };
        let weighting = Weighting { timed, criticality };
        read::end(text, line(weighting, if aims(text) { 13 } else { 11 }));
        tables(text, weighting, factor);
    }
}

fn main() {
    cases::run::<SearchTest>()
}
