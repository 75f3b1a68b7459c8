// The transmitted members of a check, and how many checks a word does not meet.
ghost use Rattle.std.specs.Prelude.{◌≡◌, ◌≤◌, ◌++◌, length, drop};
ghost use Rattle.refusals.specs.Outcome.{outcome, after};
ghost use Rattle.ldpc.specs.Code.{checks_of};
ghost use Rattle.coder.specs.Calls.{code_members, members_told, listed, list_written, unsatisfied_of, unsatisfied_told};

use bits::Bits;
use ldpc::{Code, CodeGraph, ValidCode};
use refusals::Refusal;

// How many checks a word does not meet, its syndrome being written to the front of `room`.
fn count_unmet(g: &CodeGraph, word: Bits<'_>, room: &mut [u8]) -> usize
    requires { checks_of g.now.code.code ≤ length room.old }
    ensures { result ≡ unsatisfied_of g.now.code.code word.entry.bytes.now }
{
    let n = g.code.checks();
    let syndrome = &mut room[..n];
    edge_sums::row_sums(g, word, g.code.edges(), syndrome);
    bits::count_ones(syndrome)
}

// The same, in memory of its own, for at most N checks. Not inlined: its memory is on the stack only while it counts, and a short
// lift has only its own.
#[inline(never)]
fn unmet_in<const N: usize>(g: &CodeGraph, word: Bits<'_>) -> usize
    requires { (N ≤ 12636) × (checks_of g.now.code.code ≤ N) }
    ensures { result ≡ unsatisfied_of g.now.code.code word.entry.bytes.now }
{
    let mut room = [0; N];
    count_unmet(g, word, &mut room)
}

// The same, in as much memory as the lift asks for, since all of it is cleared: 39 rows of 32 checks, or of 324.
pub fn unmet_checks(code: ValidCode, word: Bits<'_>) -> usize
    ensures { result ≡ unsatisfied_of code.code word.entry.bytes.now }
{
    let g = CodeGraph::new(code);
    let z = g.code.code.z;
    if z <= 32 {
        unmet_in::<1248>(&g, word)
    } else {
        unmet_in::<12636>(&g, word)
    }
}

// The members of a check that there is, where out has room for them, and how many they are.
#[tactic(auto, using(crate::proofs::Listed::count_is, crate::proofs::Listed::members_are))]
fn list_members(g: &CodeGraph, check: usize, out: &mut [u32]) -> Result<usize, Refusal>
    ensures result_value { outcome result ≡ members_told g.now.code.code check (length out.old) }
    ensures out_after { out.new ≡ after (members_told g.now.code.code check (length out.old)) (λ n. code_members g.now.code.code check ++ drop n out.old) out.old }
{
    let edges = g.code.edges();
    let n = check_lists::count_members(g, check, edges);
    if out.len() < n {
        return Err(Refusal::Output {
            given: out.len(),
            wanted: n,
        });
    }
    check_lists::write_members(g, check, edges, out);
    Ok(n)
}

// Writes the transmitted members of a check, in edge order, to the front of out, and answers how many there are.
#[tactic(auto, unfolding(crate::specs::Calls::listed, crate::specs::Calls::list_written, ldpc::specs::Choice::if_made))]
pub fn check_members(c: Code, check: usize, out: &mut [u32]) -> Result<usize, Refusal>
    ensures result_value { outcome result ≡ listed c check (length out.old) }
    ensures out_after { out.new ≡ list_written c check out.old }
{
    let code = c.valid()?;
    let checks = code.checks();
    if check >= checks {
        return Err(Refusal::NoCheck { check, checks });
    }
    list_members(&CodeGraph::new(code), check, out)
}

// How many checks a word of any length does not meet.
#[tactic(auto, unfolding(crate::specs::Calls::unsatisfied_told, crate::specs::Calls::if_bits, ldpc::specs::Choice::if_made))]
pub fn unsatisfied(c: Code, word: &[u8]) -> Result<usize, Refusal>
    ensures { outcome result ≡ unsatisfied_told c word.now }
{
    let code = c.valid()?;
    let word = Bits::new(word)?;
    Ok(unmet_checks(code, word))
}
