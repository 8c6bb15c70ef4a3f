// A job as it is given: the tests of its tables, its terms, the kinds of its pins, and the first net of a source.
#![tactic(auto)]

// The most nets, and entries of table 6: one more.
pub const NETS_MOST: usize = 512;

pub const FIRST_SINKS_MOST: usize = 513;

// What a job asks beside its tables: the limit of iterations, the tuning of the tariff, and the rule by which an iteration takes nets: 1,
// all; 2, all up to iteration `until`, only crowded ones after it; and whether delay is weighed. A refusal counts it as table 8.
#[derive(Clone, Copy, Debug, PartialEq, Eq)]
pub struct Terms {
    pub limit: u32,
    pub tuning: Tuning,
    pub rule: u32,
    pub until: u32,
    pub timed: bool,
}

// A job as it is lent: tables 1 to 4, each net's source, where each net's sinks begin in table 7, the sinks, of a timed job each node's
// delay and each sink's criticality, and the terms.
#[derive(Clone, Copy)]
pub struct JobTables<'a> {
    pub block: Tables<'a>,
    pub source: &'a [u16],
    pub first_sink: &'a [u32],
    pub sink: &'a [u16],
    pub delay: &'a [u16],
    pub criticality: &'a [u8],
    pub terms: Terms,
}

mod first_net;
mod job_terms;
mod pins;
mod refused;
mod tables;

pub use first_net::first_of;
pub use job_terms::{exceeds, plain_terms, rule_sound, terms_sound};
pub use pins::{sink_kind, source_kind};
pub use price::{Tuning, tuning_sound};
pub use refused::Refused;
pub use search::{BadTable, Tables};
pub use tables::{faulty_block, faulty_job, sources_sound};
