// The decodes of the table: those of (5,10) by start, grant and read, that of (5,9) by the one call. Both codes need 68
// numbers of work memory.
ghost use Rattle.std.specs.Prelude.{◌≡◌, cond, codes};

use decoder::{Decode, DecodeResult};
use ldpc::Code;
use readings::{Bits, Result};

// What is not so is printed after "not".
fn not_unless(so: bool) -> &'static str
    ensures { result.now ≡ cond so (codes "") (codes "not ") }
{
    if so { "" } else { "not " }
}

fn print_result(rt: &impl Print, row: &str, c: Code, r: DecodeResult, word: &[u8]) -> Result<()> {
    let unsatisfied = coder::unsatisfied(c, word)?;
    print!(rt; "{row}: {}, iterations {}", Bits(word), r.iterations)?;
    print!(rt; ", {}converged", not_unless(r.converged))?;
    print!(rt; ", {}clean", not_unless(r.clean))?;
    println!(rt; ", unsatisfied {unsatisfied}")?;
    Ok(())
}

// A read after as many grants of one iteration.
fn print_granted(rt: &impl Print, row: &str, grants: usize) -> Result<()> {
    let rx = [-1.0, 1.0, 1.0, 1.0, 1.0, 1.0, 1.0, 1.0, 1.0, 1.0];
    let mut work = [0.0; 68];
    let mut word = [0; 10];
    let code = Code::new(5, 10)?;
    let mut decode = Decode::start(code, &rx, &mut work)?;
    for _ in 0..grants {
        decode = decode.grant(1, &mut work)?;
    }
    let result = decode.read(&work, &mut word)?;
    print_result(rt, row, code, result, &word)
}

// The limit is the Rust's own, of which one iteration is done.
fn print_one_call(rt: &impl Print, row: &str) -> Result<()> {
    let x = 100000000.0;
    let rx = [x, x, -x, -x, x, x, -x, x, x];
    let mut work = [0.0; 68];
    let mut word = [0; 9];
    let result = decoder::decode(5, 9, &rx, 50, &mut work, &mut word)?;
    print_result(rt, row, Code::new(5, 9)?, result, &word)
}

pub fn print_decodes(rt: &impl Print) -> Result<()> {
    print_granted(rt, "*(5,10) readings 1, negative at 0", 1)?;
    print_granted(rt, "(5,10) readings 1, negative at 0, with 0 grants", 0)?;
    print_one_call(rt, "*(5,9) readings 100000000, negative at 2 3 6")
}
