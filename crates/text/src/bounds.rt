// The bounds of a job's and a log's numbers, which the definitions name nodes_most, edges_most and so on.
pub const NODES_MOST: u32 = 4096;

pub const EDGES_MOST: u32 = 32768;

pub const NETS_MOST: u32 = 512;

pub const KIND_MOST: u32 = 53;

pub const CAPACITY_MOST: u32 = 255;

pub const LIMIT_MOST: u32 = 100;

pub const DELAY_MOST: u32 = 1000;

pub const CRITICALITY_MOST: u32 = 9;
