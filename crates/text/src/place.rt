// Where a reader stands in the text, and what stops it.

// The place of a line and its number.
#[derive(Clone, Copy)]
pub struct Place {
    pub at: usize,
    pub line: usize,
}

// The three judgements of a line, in their order.
#[derive(Clone, Copy, Debug, PartialEq, Eq)]
pub enum LineFault {
    // 1: of wrong shape or missing.
    Malformed,
    // 2: a value beyond its bounds.
    BeyondBounds,
    // 3: of wrong order or number.
    WrongOrder,
}

// The first faulty line of a text.
#[derive(Clone, Copy, Debug, PartialEq, Eq)]
pub struct LineRefusal {
    pub fault: LineFault,
    pub line: usize,
}
