// The whole way from a job text to its routes text, and what the program prints, a line for each case of the file stdin, which
// docs/CASES.md describes: the answer, then every table and buffer afterwards. The expected lines stand in the file stdout.
#![tactic(auto)]

use cases::{Program, lines, read, show};
use text::Style;

// The calls: `run`, and `respond` in a style.
#[derive(Clone, Copy)]
enum Call {
    Run,
    Respond(Style),
}

// The call on a job text, with tables for six nodes, seven edges, two nets and two sinks, and a work slice, a log and a routes buffer of
// these lengths, all of 7s.
fn call_case(call: Call, job: &[u8], lengths: [u32; 3]) {
    let mut kind = [7u8; 6];
    let mut capacity = [7u8; 6];
    let mut first_edge = [7u32; 7];
    let mut edge_target = [7u16; 7];
    let mut source = [7u16; 2];
    let mut first_sink = [7u32; 3];
    let mut sink = [7u16; 2];
    let mut delay = [7u16; 6];
    let mut criticality = [7u8; 2];
    let mut work = [7u64; 64];
    let mut log = [7u32; 64];
    let mut routes = [7u8; 128];
    let work = read::first(lengths[0], &mut work);
    let log = read::first(lengths[1], &mut log);
    let routes = read::first(lengths[2], &mut routes);
    let answer = match call {
        Call::Run => flow::run(
            Style::Lines,
            job,
            &mut kind,
            &mut capacity,
            &mut first_edge,
            &mut edge_target,
            &mut source,
            &mut first_sink,
            &mut sink,
            &mut delay,
            &mut criticality,
            work,
            log,
            routes,
        ),
        Call::Respond(style) => Ok(flow::respond(
            style,
            job,
            &mut kind,
            &mut capacity,
            &mut first_edge,
            &mut edge_target,
            &mut source,
            &mut first_sink,
            &mut sink,
            &mut delay,
            &mut criticality,
            work,
            log,
            routes,
        )),
    };
    match answer {
        Ok(bytes) => show::answered(&[bytes as u64]),
        Err(refused) => show::refused(refused.number as u64, refused.first, refused.second),
    }
    show::entries(&kind);
    show::entries(&capacity);
    show::entries(&first_edge);
    show::entries(&edge_target);
    show::entries(&source);
    show::entries(&first_sink);
    show::entries(&sink);
    show::entries(&delay);
    show::entries(&criticality);
    show::entries(work);
    read::exactly(work.len(), lengths[0] as usize);
    show::entries(log);
    read::exactly(log.len(), lengths[1] as usize);
    show::text(routes);
    read::exactly(routes.len(), lengths[2] as usize);
}

// The call that the case names, by its second letter.
fn named(letter: u8) -> Option<Call> {
    match letter {
        b'u' => Some(Call::Run),
        b'e' => Some(Call::Respond(Style::Lines)),
        b'i' => Some(Call::Respond(Style::Picture)),
        _ => None,
    }
}

struct FlowTest;

impl Program for FlowTest {
    fn one(text: &[u8]) {
        let mut n = [0u32; 3];
        let mut job = [0u8; 65600];
        show::name(text);
        let n = read::entries(text, 1, &mut n);
        let job = read::text(text, 2, &mut job);
        read::exactly(n.len(), 3);
        read::end(text, 3);
        match named(lines::call(text, 1)) {
            Some(call) => call_case(call, job, read::padded(n)),
            None => show::malformed(),
        }
        show::line_end();
    }
}

fn main() {
    cases::run::<FlowTest>()
}
