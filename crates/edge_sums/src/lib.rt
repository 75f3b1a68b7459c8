// Sums modulo 2 of bits over base edges: the syndrome of a word, and the information sums of an encoding. A column of the
// lifted word is turned in two runs, so that no bit asks for a remainder. What `row_sums` requires, its callers in stairs and
// coder meet.
#![tactic(auto)]

ghost use Rattle.std.specs.Prelude.{◌≡◌, ◌+◌, ◌*◌, ◌%◌, ◌<◌, ◌≤◌, length};
ghost use Rattle.matrix.specs.Edges.{edges};
ghost use Rattle.bits.specs.Sums.{Bits as AreBits};
ghost use Rattle.ldpc.specs.Code.{checks_of};
ghost use Rattle.edge_sums.specs.Sums.{PartOf, RowAdded, sums_of};

use base_edges::Edge;
use bits::Bits;
use ldpc::CodeGraph;

// The bits that a transmitted word has of a column of the lifted one; those that it lacks are 0.
fn column_part<'a>(g: &CodeGraph, column: usize, word: Bits<'a>) -> Bits<'a>
    requires { column < g.now.graph.shape.n_b }
    ensures { PartOf g.now.code.code word.entry.bytes.now column result.bytes.now }
{
    let c = g.code.code;
    let k_b = g.graph.shape.k_b;
    if column < k_b {
        let sent = &word.bytes[..c.k.min(word.bytes.len())];
        return Bits {
            bytes: bits::clipped(sent, column * c.z, c.z),
        };
    }
    Bits {
        bytes: bits::clipped(word.bytes, c.k + (column - k_b) * c.z, c.z),
    }
}

// Adds the bits of a base edge's column, turned by its shift, to the checks of its row. It takes the lift, whose bounds are asked, and no
// `CodeGraph`: with that an encoding of 200 bits takes a tenth longer.
fn add_edge(e: Edge, z: usize, part: Bits<'_>, sums: &mut [u8])
    requires lift { (1 ≤ z) × (z ≤ 324) × (e.shift < 512) × (length part.bytes.now ≤ z) }
    requires row { (e.row * z + z ≤ length sums.old) × AreBits sums.old }
    ensures { RowAdded (e.row * z) z (e.shift % z) part.entry.bytes.now sums.old sums.new }
{
    let turn = base_edges::rotated(0, e.shift, z);
    let at = e.row * z;
    bits::add_turned(&mut sums[at..at + z], part.bytes, turn);
}

// Adds the three edges of an information column to the sums over the columns before it.
fn add_column(g: &CodeGraph, column: usize, word: Bits<'_>, sums: &mut [u8])
    requires { (column < g.now.graph.shape.k_b) × (sums.old ≡ sums_of g.now.code.code word.bytes.now (3 * column)) }
    ensures { sums.new ≡ sums_of g.now.code.code word.entry.bytes.now (3 * (column + 1)) }
{
    let z = g.code.code.z;
    let part = column_part(g, column, word);
    for b in 3 * column..3 * column + 3 {
        let e = g.info_edge(b);
        add_edge(e, z, part, sums);
    }
}

// The same at a lift of 1, where a column is one bit: no slice of the sums, and no turn.
fn add_bit(g: &CodeGraph, column: usize, word: Bits<'_>, sums: &mut [u8])
    requires lift { g.now.code.code.z ≡ 1 }
    requires column { (column < g.now.graph.shape.k_b) × (column < g.now.code.code.k) × (column < length word.bytes.now) }
    requires before { sums.old ≡ sums_of g.now.code.code word.bytes.now (3 * column) }
    ensures { sums.new ≡ sums_of g.now.code.code word.entry.bytes.now (3 * (column + 1)) }
{
    let bit = word.bytes[column];
    let first = 3 * column;
    for b in first..first + 3 {
        let e = g.info_edge(b);
        let sum = &mut sums[e.row];
        *sum = bits::differ(*sum, bit);
    }
}

// Adds the edges of all information columns at a lift of 1. A bit that the word lacks is 0, and adds nothing.
fn add_bits(g: &CodeGraph, word: Bits<'_>, sums: &mut [u8])
    requires { (g.now.code.code.z ≡ 1) × (sums.old ≡ sums_of g.now.code.code word.bytes.now 0) }
    ensures { sums.new ≡ sums_of g.now.code.code word.entry.bytes.now (3 * g.now.graph.shape.k_b) }
{
    for column in 0..g.code.code.k.min(word.bytes.len()) {
        add_bit(g, column, word, sums);
    }
}

// Adds the edges of all information columns. A lift of 1 has a way of its own: by the other an encoding of 60 bits takes more than half
// as long again.
fn add_columns(g: &CodeGraph, word: Bits<'_>, sums: &mut [u8])
    requires { sums.old ≡ sums_of g.now.code.code word.bytes.now 0 }
    ensures { sums.new ≡ sums_of g.now.code.code word.entry.bytes.now (3 * g.now.graph.shape.k_b) }
{
    if g.code.code.z == 1 {
        add_bits(g, word, sums);
        return;
    }
    for column in 0..g.graph.shape.k_b {
        add_column(g, column, word, sums);
    }
}

// Adds a base edge, of any column, to the sums over the edges before it.
fn add_next(g: &CodeGraph, b: usize, word: Bits<'_>, sums: &mut [u8])
    requires { (b < edges g.now.graph) × (sums.old ≡ sums_of g.now.code.code word.bytes.now b) }
    ensures { sums.new ≡ sums_of g.now.code.code word.entry.bytes.now (b + 1) }
{
    let e = g.edge(b);
    let part = column_part(g, e.column, word);
    add_edge(e, g.code.code.z, part, sums);
}

// Writes the sums over the first n base edges, for every check: those of the information columns, and any after them.
pub fn row_sums(g: &CodeGraph, word: Bits<'_>, n: usize, sums: &mut [u8])
    requires { (3 * g.now.graph.shape.k_b ≤ n) × (n ≤ edges g.now.graph) × (length sums.old ≡ checks_of g.now.code.code) }
    ensures { sums.new ≡ sums_of g.now.code.code word.entry.bytes.now n }
{
    sums.fill(0);
    add_columns(g, word, sums);
    for b in 3 * g.graph.shape.k_b..n {
        add_next(g, b, word, sums);
    }
}
