// The kinds that a net's pins, its source and its sinks, may have.
ghost use Rattle.std.specs.Prelude.{◌≡◌, get_or};
ghost use Rattle.job.specs.Tables.{source_kind, sink_kind, source_pins, sink_pins};

// A source is of kind 0 or 2.
#[tactic(auto, unfolding(crate::specs::Tables::one_of))]
pub fn source_kind(kind: u8) -> bool
    ensures { result ≡ source_kind kind }
{
    kind == 0 || kind == 2
}

// A sink is of kind 1 or 3.
#[tactic(auto, unfolding(crate::specs::Tables::one_of))]
pub fn sink_kind(kind: u8) -> bool
    ensures { result ≡ sink_kind kind }
{
    kind == 1 || kind == 3
}

// The kind of a node, 0 if it is none.
fn kind_at(kind: &[u8], v: u16) -> u8
    ensures { result ≡ get_or kind.now v 0 }
{
    kind.get(v as usize).copied().unwrap_or(0)
}

// Each source is of a source's kinds. That it is a node is its table's own rule, which is tested before; so with the sinks.
pub fn source_pins(kind: &[u8], source: &[u16]) -> bool
    ensures { result ≡ source_pins kind.now source.now }
{
    source.iter().all(|v| source_kind(kind_at(kind, *v)))
}

// Each sink is of a sink's kinds.
pub fn sink_pins(kind: &[u8], sink: &[u16]) -> bool
    ensures { result ≡ sink_pins kind.now sink.now }
{
    sink.iter().all(|v| sink_kind(kind_at(kind, *v)))
}
