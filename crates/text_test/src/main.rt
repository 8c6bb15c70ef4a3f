// The reader and the writer, a line for each case of the file stdin, which docs/CASES.md describes: the answer, then every table, or the
// whole routes buffer, afterwards. The expected lines stand in the file stdout.
#![tactic(auto)]

use cases::{Program, lines, read, show};
use job::Refused;
use text::{JobCounts, ReadRefusal, WriteRefusal};

fn refused(r: Refused) {
    show::refused(r.number as u64, r.first, r.second);
}

fn read_answer(answer: Result<JobCounts, ReadRefusal>) {
    match answer {
        Ok(counts) => {
            let terms = counts.terms;
            let tuning = terms.tuning;
            show::answered(&[
                counts.nodes as u64,
                counts.edges as u64,
                counts.nets as u64,
                counts.sinks as u64,
                terms.limit as u64,
                tuning.first as u64,
                tuning.up as u64,
                tuning.down as u64,
                tuning.step as u64,
                terms.rule as u64,
                terms.until as u64,
                terms.timed as u64,
            ]);
        }
        Err(refusal) => refused(refusal.into()),
    }
}

fn write_answer(answer: Result<usize, WriteRefusal>) {
    match answer {
        Ok(bytes) => show::answered(&[bytes as u64]),
        Err(refusal) => refused(refusal.into()),
    }
}

// The entries of a table that the case wants to have this length.
fn lent<N: Copy + Into<u64>>(table: &[N], length: u32) {
    show::entries(table);
    read::exactly(table.len(), length as usize);
}

// A job text into tables of 7s of these lengths, and every table afterwards.
fn read_tables(job: &[u8], lengths: [u32; 9]) {
    let mut kind = [7u8; 16];
    let mut capacity = [7u8; 16];
    let mut first_edge = [7u32; 16];
    let mut edge_target = [7u16; 16];
    let mut source = [7u16; 16];
    let mut first_sink = [7u32; 16];
    let mut sink = [7u16; 16];
    let mut delay = [7u16; 16];
    let mut criticality = [7u8; 16];
    let kind = read::first(lengths[0], &mut kind);
    let capacity = read::first(lengths[1], &mut capacity);
    let first_edge = read::first(lengths[2], &mut first_edge);
    let edge_target = read::first(lengths[3], &mut edge_target);
    let source = read::first(lengths[4], &mut source);
    let first_sink = read::first(lengths[5], &mut first_sink);
    let sink = read::first(lengths[6], &mut sink);
    let delay = read::first(lengths[7], &mut delay);
    let criticality = read::first(lengths[8], &mut criticality);
    read_answer(text::read_job(
        job,
        kind,
        capacity,
        first_edge,
        edge_target,
        source,
        first_sink,
        sink,
        delay,
        criticality,
    ));
    lent(kind, lengths[0]);
    lent(capacity, lengths[1]);
    lent(first_edge, lengths[2]);
    lent(edge_target, lengths[3]);
    lent(source, lengths[4]);
    lent(first_sink, lengths[5]);
    lent(sink, lengths[6]);
    lent(delay, lengths[7]);
    lent(criticality, lengths[8]);
}

// The reader on the job text of line 2, with lengths for tables 1 to 7, or for 9 and 10 too, which are empty without.
fn read_case(case: &[u8], n: &[u32]) {
    let mut job = [0u8; 1024];
    if n.len() != 7 {
        read::exactly(n.len(), 9);
    }
    read_tables(read::text(case, 2, &mut job), read::padded(n));
    read::end(case, 3);
}

// The writer of the text that the letter names, on table 5 and the log of lines 2 and 3, with a routes buffer of 7s.
fn write_case(letter: u8, case: &[u8], n: &[u32]) {
    let mut source = [0u16; 520];
    let mut log = [0u32; 4200];
    let mut routes = [7u8; 64];
    let [length] = read::padded::<1>(n);
    read::exactly(n.len(), 1);
    let source = read::entries(case, 2, &mut source);
    let log = read::entries(case, 3, &mut log);
    let routes = read::first(length, &mut routes);
    write_answer(match letter {
        b'w' => text::write_routes(source, log, routes),
        _ => text::write_dot(source, log, routes),
    });
    show::text(routes);
    read::end(case, 4);
}

struct TextTest;

impl Program for TextTest {
    fn one(text: &[u8]) {
        let mut n = [0u32; 9];
        show::name(text);
        let n = read::entries(text, 1, &mut n);
        match lines::call(text, 0) {
            b'r' => read_case(text, n),
            letter @ (b'w' | b'd') => write_case(letter, text, n),
            _ => show::malformed(),
        }
        show::line_end();
    }
}

fn main() {
    cases::run::<TextTest>()
}
