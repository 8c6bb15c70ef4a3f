// The lines of a job text before its nodes.
ghost use Rattle.std.specs.Prelude.{◌≡◌, [], ◌∷◌};
ghost use Rattle.text.specs.JobText.{head_within, head_line, head_part};
ghost use Rattle.text.specs.Steps.{head_at, HeadPlace};
ghost use Rattle.text.specs.ReadSteps.{head_read_at, HeadReadPlace};

use crate::fields::LineFields;
use crate::place::{LineFault, LineRefusal, Place};
use crate::{bounds, fields, optional};
use job::Terms;

// The numbers of the F line and the place after it.
#[derive(Clone, Copy)]
pub struct Head {
    pub nodes: u32,
    pub edges: u32,
    pub nets: u32,
    pub limit: u32,
    pub next: usize,
}

// The counts and the terms of the lines before the nodes.
#[derive(Clone, Copy)]
pub struct Counts {
    pub nodes: usize,
    pub edges: usize,
    pub nets: usize,
    pub terms: Terms,
}

// These, with the place where the nodes begin.
#[derive(Clone, Copy)]
pub struct HeadRead {
    pub counts: Counts,
    pub place: Place,
}

// The counts and the limit are within their bounds.
#[tactic(auto, unfolding(crate::specs::JobText::head_within))]
fn head_within(nodes: u32, edges: u32, nets: u32, limit: u32) -> bool
    ensures { result ≡ head_within (nodes ∷ edges ∷ nets ∷ limit ∷ []) }
{
    (1..=bounds::NODES_MOST).contains(&nodes)
        && edges <= bounds::EDGES_MOST
        && (1..=bounds::NETS_MOST).contains(&nets)
        && (1..=bounds::LIMIT_MOST).contains(&limit)
}

// The F line, which stands at the beginning of the text.
fn head_line(text: &[u8]) -> Result<Head, LineFault>
    ensures value { head_at text.now result ≡ head_line text.now }
    ensures head_place { HeadPlace text.now result }
{
    let Some(
        LineFields {
            first: nodes,
            second: edges,
            third: nets,
            fourth: limit,
            next,
        },
    ) = fields::line_fields(text, 0, b'F', 4)
    else {
        return Err(LineFault::Malformed);
    };
    if !head_within(nodes, edges, nets, limit) {
        return Err(LineFault::BeyondBounds);
    }
    Ok(Head {
        nodes,
        edges,
        nets,
        limit,
        next,
    })
}

// The F line, and those that may follow it.
pub fn read_head(text: &[u8]) -> Result<HeadRead, LineRefusal>
    ensures value { head_read_at text.now result ≡ head_part text.now }
    ensures head_read_place { HeadReadPlace text.now result }
{
    let head = match head_line(text) {
        Ok(head) => head,
        Err(fault) => return Err(LineRefusal { fault, line: 1 }),
    };
    let after = Place {
        at: head.next,
        line: 2,
    };
    let read = optional::read_terms(text, after, head.limit)?;
    let counts = Counts {
        nodes: head.nodes as usize,
        edges: head.edges as usize,
        nets: head.nets as usize,
        terms: read.terms,
    };
    Ok(HeadRead {
        counts,
        place: read.place,
    })
}
