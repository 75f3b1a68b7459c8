// Sums modulo 2 of runs of bits. A column is turned in two runs, so that no bit asks for a remainder.
ghost use Rattle.std.specs.Prelude.{◌≡◌, ◌+◌, ◌<◌, ◌≤◌, length, take, drop};
ghost use Rattle.bits.specs.Sums.{differing, Bits, Added, AddedTurned};

// Of the n bytes from `from` on, those that a word has.
pub fn clipped(word: &[u8], from: usize, n: usize) -> &[u8]
    ensures { result.now ≡ take n (drop from word.now) }
{
    let rest = &word[from.min(word.len())..];
    &rest[..n.min(rest.len())]
}

// The sum modulo 2 of two bits.
pub fn differ(a: u8, b: u8) -> u8
    ensures { result ≡ differing a b }
{
    if a == b { 0 } else { 1 }
}

// Adds bits to as many sums, from the front on.
pub fn add(sums: &mut [u8], bits: &[u8])
    requires { length bits.now ≤ length sums.old }
    ensures { Added bits.now sums.old sums.new }
{
    for i in 0..bits.len() {
        sums[i] = differ(sums[i], bits[i]);
    }
}

// Adds the one bit of a column, where it is there. By `add` a count of unmet checks of 60 bits, at a lift of 1, takes a fifth longer.
fn add_bit(sums: &mut [u8], column: &[u8])
    requires { (length sums.old ≡ 1) × (length column.now ≤ 1) }
    ensures { Added column.now sums.old sums.new }
{
    if column.len() == 1 {
        sums[0] = differ(sums[0], column[0]);
    }
}

// Adds a column's bits, turned by s, to as many sums as it has offsets: offset t gets bit (t + s) mod z. What the column lacks
// of z bits is 0. That the sums are bits is asked, since a `Bits` cannot be written.
pub fn add_turned(sums: &mut [u8], column: &[u8], s: usize)
    requires fits { (s < length sums.old) × (length column.now ≤ length sums.old) }
    requires bits { Bits sums.old }
    ensures { AddedTurned s column.now sums.old sums.new }
{
    if sums.len() == 1 {
        add_bit(sums, column);
        return;
    }
    let (low, high) = sums.split_at_mut(sums.len() - s);
    let (front, back) = column.split_at(s.min(column.len()));
    add(low, back);
    add(high, front);
}
