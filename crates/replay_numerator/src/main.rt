// Replays the test vectors of the numerator and of its update, which it reads on standard input: how many cases of each call were compared,
// and how many were wrong.
#![tactic(auto)]

mod calls;

use calls::NumeratorCalls;
use std::io;
use vectors::replay::replay_input;

// Each program has a `main` of its own, which says its sizes.
fn main(rt: HostRuntime) -> io::Result<()> {
    let mut room = [0u8; 393216];
    let mut counts = [0u64; 23];
    replay_input::<NumeratorCalls, _, _>(
        &mut rt.stdin(),
        &mut rt.stdout(),
        &mut room,
        &mut counts,
    )?;
    Ok(())
}
