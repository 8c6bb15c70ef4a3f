// Prices, timed or not, factors, histories and tunings, a line for each case of the file stdin, which docs/CASES.md describes. The
// expected lines stand in the file stdout.
#![tactic(auto)]

use cases::{Program, lines, read, show};
use price::{BadNumber, Numbers, Tuning};

fn price_answer(answer: Result<u64, BadNumber>) {
    match answer {
        Ok(price) => show::answered(&[price]),
        Err(bad) => show::refused(13, bad.place as u64, None),
    }
}

// A price, or that of a timed job, by the call's third letter and the numbers of its line.
fn priced(letter: u8, n: &[u32]) {
    let [kind, factor, others, capacity, history, delay, criticality] = read::padded::<7>(n);
    let numbers = Numbers {
        kind,
        factor,
        others,
        capacity,
        history,
    };
    price_answer(if letter == b'm' {
        read::exactly(n.len(), 7);
        price::timed_price(numbers, delay, criticality)
    } else {
        read::exactly(n.len(), 5);
        price::price(numbers)
    });
}

// Whether a tuning is sound, the factor after an iteration and its factor, or the history after a history, users and capacity.
fn tuned(letter: u8, n: &[u32]) {
    let [first, up, down, step, fifth, sixth, seventh] = read::padded::<7>(n);
    let tuning = Tuning {
        first,
        up,
        down,
        step,
    };
    let answer = match letter {
        b'n' => {
            read::exactly(n.len(), 4);
            price::tuning_sound(tuning) as u64
        }
        b'c' => {
            read::exactly(n.len(), 6);
            price::next_factor(tuning, fifth, sixth) as u64
        }
        _ => {
            read::exactly(n.len(), 7);
            price::next_history(tuning, fifth, sixth, seventh)
        }
    };
    show::answered(&[answer]);
}

// The call that the case names, by its third letter.
fn call(letter: u8, n: &[u32]) {
    match letter {
        b'i' | b'm' => priced(letter, n),
        b'n' | b'c' | b's' => tuned(letter, n),
        _ => show::malformed(),
    }
}

struct PriceTest;

impl Program for PriceTest {
    fn one(text: &[u8]) {
        let mut n = [0u32; 7];
        show::name(text);
        call(lines::call(text, 2), read::entries(text, 1, &mut n));
        read::end(text, 2);
        show::line_end();
    }
}

fn main() {
    cases::run::<PriceTest>()
}
