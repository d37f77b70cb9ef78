// Replays the test vectors of the Hilbert function and of lists of coefficients, which it reads on standard input: how many cases of each
// call were compared, and how many were wrong.
#![tactic(auto)]

mod calls;

use calls::HilbertCalls;
use std::io;
use vectors::replay::replay_input;

// Each program has a `main` of its own, which says its sizes.
fn main(rt: HostRuntime) -> io::Result<()> {
    let mut room = [0u8; 32768];
    let mut counts = [0u64; 28];
    replay_input::<HilbertCalls, _, _>(&mut rt.stdin(), &mut rt.stdout(), &mut room, &mut counts)?;
    Ok(())
}
