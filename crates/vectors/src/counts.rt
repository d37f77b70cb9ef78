// Counts of the cases that were compared, one for each code of a call; under 0, which is no code, those that were wrong.
ghost use Rattle.std.specs.Prelude.{◌≡◌, ◌%◌, ◌^◌, drop, IfOk};
ghost use Rattle.vectors.specs.Counts.{one_more, tallied, total};

use std::io;
use std::io::Write;

// Counts one case. A code that has no place is counted nowhere.
pub fn tally(counts: &mut [u64], code: u64, right: bool)
    ensures { counts.new ≡ tallied code right counts.old }
{
    add_one(counts, code);
    if !right {
        add_one(counts, 0);
    }
}

// Writes a line for each call that has cases, and a last one for all of them; how many were compared.
pub fn say_counts(counts: &[u64], out: &mut impl Write) -> io::Result<u64>
    ensures { IfOk result (λ compared. compared ≡ total (drop 1 counts.now) % 2 ^ 64) }
{
    let mut compared: u64 = 0;
    for code in 1..counts.len() {
        say_count(code, counts[code], out)?;
        compared = compared.wrapping_add(counts[code]);
    }
    let wrong = counts.first().copied().unwrap_or(0);
    writeln!(out, "{compared} compared, {wrong} wrong")?;
    Ok(compared)
}

fn add_one(counts: &mut [u64], code: u64)
    ensures { counts.new ≡ one_more code counts.old }
{
    if code < counts.len() as u64 {
        let i = code as usize;
        counts[i] = counts[i].wrapping_add(1);
    }
}

fn say_count(code: usize, cases: u64, out: &mut impl Write) -> io::Result<()> {
    if cases != 0 {
        writeln!(out, "call {code}: {cases}")?;
    }
    Ok(())
}
