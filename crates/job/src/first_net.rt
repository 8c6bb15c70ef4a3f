// The first net of a source, into which the others are joined.
ghost use Rattle.std.specs.Prelude.{◌≡◌, get_or};
ghost use Rattle.job.specs.Join.{first_of};

// The source of a net, 0 if there is no such net.
fn source_of(source: &[u16], net: usize) -> u16
    ensures { result ≡ get_or source.now net 0 }
{
    source.get(net).copied().unwrap_or(0)
}

// The first net of a net's source.
pub fn first_of(source: &[u16], net: usize) -> usize
    ensures { result ≡ first_of source.now net }
{
    let node = source_of(source, net);
    for (i, from) in source.iter().enumerate() {
        if *from == node {
            return i;
        }
    }
    source.len()
}
