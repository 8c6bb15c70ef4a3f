// Sums over a block's nodes, by kind.
ghost use Rattle.std.specs.Prelude.{true, ◌++◌, ◌≡◌, ◌≤◌, length, drop};
ghost use Rattle.search.specs.Tables.{kinds_sound};
ghost use Rattle.uses.specs.Uses.{kind_count};
ghost use Rattle.uses.specs.Steps.{tallied, count_most, AtMost};

// Adds each node's weight to the sum of its kind.
pub fn tally(kind: &[u8], weight: &[u16], sums: &mut [u64])
    requires kind_value { (kinds_sound kind.now ≡ true) × (length kind.now ≤ length weight.now) }
    requires sums_len { (length sums.old ≡ kind_count) × AtMost count_most sums.old }
    ensures { sums.new ≡ tallied kind.now weight.now sums.old }
{
    for (v, k) in kind.iter().enumerate() {
        sums[*k as usize] += weight[v] as u64;
    }
}

// The bytes as numbers of 16 bits, from the beginning on.
pub fn widen(bytes: &[u8], wide: &mut [u16])
    requires { length bytes.now ≤ length wide.old }
    ensures { wide.new ≡ bytes.now ++ drop (length bytes.now) wide.old }
{
    for (v, b) in bytes.iter().enumerate() {
        wide[v] = *b as u16;
    }
}
