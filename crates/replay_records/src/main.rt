// Replays the test vectors of ideal records, which it reads on standard input: how many cases of each call were compared, how many were
// wrong, and how many are of the bridge alone.
#![tactic(auto)]

mod calls;

use calls::RecordCalls;
use std::io;
use vectors::replay::replay_input;

// Each program has a `main` of its own, which says its sizes.
fn main(rt: HostRuntime) -> io::Result<()> {
    let mut room = [0u8; 262144];
    let mut counts = [0u64; 35];
    let bridge_alone = replay_input::<RecordCalls, _, _>(
        &mut rt.stdin(),
        &mut rt.stdout(),
        &mut room,
        &mut counts,
    )?;
    println!(rt; "{bridge_alone} of the bridge alone, not compared")
}
