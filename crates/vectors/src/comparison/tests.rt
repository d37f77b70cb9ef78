// Cases compared by what is known only as the test runs: by a value, and by a closure that is handed on inside one.
ghost use Rattle.std.specs.Prelude.{◌≡◌, ◌<◌, ◌≤◌, Bool, List, ℕ, None, Option, Some, cond, length, nat_eq, IfOk};
ghost use Rattle.std.specs.List.{FoldsTo};
ghost use Rattle.std.specs.Io.KnownBytes.{Consumes, IsAtEnd};
ghost use Rattle.vectors.specs.Text.{integer_at};
ghost use Rattle.vectors.specs.Replay.{AreLines, ReadFrom, Replays};
ghost use Rattle.vectors.specs.declared.reader.Reader.{Reader};

use super::*;
use std::marker::Model;
use std::test::Fail;

const TEXT: &[u8] = b"# no case\n1 7\n2 8\n4 7\n1 7\n";

// The word that a case has to give. The call 4 is none of the test's.
#[derive(Drop)]
struct Wanted {
    word: u64,
}

impl Comparison for Wanted {
    ghost says = { λ by code case says. says ≡ cond (nat_eq code 4) None (Some (nat_eq (integer_at case.text.now case.at).magnitude by.word)) };

    fn compare(&self, code: u64, mut case: Reader<'_>) -> Option<bool> {
        if code == 4 {
            return None;
        }
        Some(case.word() == self.word)
    }
}

#[test]
fn counts_by_what_a_value_holds(rt: HostRuntime) {
    for (word, wrong) in [(7, 1), (8, 2), (9, 3)] {
        let mut counts = [0u64; 3];
        let apart = replay(TEXT, &mut counts, &Wanted { word });
        assert_eq!(rt; apart, 1, "by {word}");
        assert_eq!(rt; counts, [wrong, 2, 1], "by {word}");
    }
}

#[test]
fn counts_what_the_room_takes_of_an_input(rt: HostRuntime) -> Result<(), Fail> {
    let told = b"call 1: 1\ncall 2: 1\n2 compared, 1 wrong\n";
    let mut input = TEXT;
    let mut written = [0u8; 40];
    let mut out = written.as_mut_slice();
    let mut room = [0u8; 18];
    let mut counts = [0u64; 3];
    let by = Wanted { word: 7 };
    let apart = replay_input(&mut input, &mut out, &mut room, &mut counts, &by)?;
    assert_eq!(rt; apart, 0);
    assert_eq!(rt; counts, [1, 1, 1]);
    assert_eq!(rt; input, b"4 7\n1 7\n".as_slice());
    // No output is left.
    assert!(rt; replay_input(&mut input, &mut out, &mut room, &mut counts, &by).is_err());
    assert_eq!(rt; written.as_slice(), told.as_slice());
    Ok(())
}

// What may be called at some values alone.
trait Callable: Drop {
    ghost can: { Self → Type 0 };

    ghost says: { Self → ℕ → Reader → Option Bool → Type 0 };

    fn call(&self, code: u64, case: Reader<'_>) -> Option<bool>
        requires { can self.now }
        ensures { says self.now code case.entry result };
}

impl<F: Fn(u64, Reader<'_>) -> Option<bool>> Callable for F {
    ghost can = { λ f. F.IsAlwaysCallable f };

    ghost says = { λ f code case says. F.post f code case says };

    fn call(&self, code: u64, case: Reader<'_>) -> Option<bool> {
        self(code, case)
    }
}

// A value that may be called, as the type says.
#[derive(Drop)]
struct Called<T: Callable> {
    by: T,
}

impl<T: Callable> Model for Called<T> {
    ghost Value = { T };

    ghost view = { λ c. c.by };

    ghost invariant = { λ c. T.can c.by };
}

impl<T: Callable> Comparison for Called<T> {
    ghost says = { λ by code case says. T.says by code case says };

    fn compare(&self, code: u64, case: Reader<'_>) -> Option<bool> {
        let by = &self.by;
        by.call(code, case)
    }
}

// Not written in `replay_by`: the checker does not cover a literal of `Called` at a closure.
fn replay_called<T: Callable>(text: &[u8], counts: &mut [u64], by: T) -> u64
    requires { T.can by }
    ensures { (lines : _) × AreLines text.now 0 lines × FoldsTo (Replays text.now (ReadFrom text.now (λ code case says. T.says by code case says))) (counts.old, 0) lines (counts.new, result) }
{
    replay(text, counts, &Called { by })
}

// By any closure that may always be called; the clause speaks of what it answers.
fn replay_by<F: Fn(u64, Reader<'_>) -> Option<bool>>(
    text: &[u8],
    counts: &mut [u64],
    compare: F,
) -> u64
    requires { F.IsAlwaysCallable compare }
    ensures { (lines : _) × AreLines text.now 0 lines × FoldsTo (Replays text.now (ReadFrom text.now (λ code case says. F.post compare code case says))) (counts.old, 0) lines (counts.new, result) }
{
    replay_called(text, counts, compare)
}

fn replay_input_called<R: Read, W: Write, T: Callable>(
    input: &mut R,
    out: &mut W,
    room: &mut [u8],
    counts: &mut [u64],
    by: T,
) -> io::Result<u64>
    requires { T.can by }
    ensures { IfOk result (λ apart. (text : List ℕ) × (length text ≤ length room.new) × Consumes (R.remaining input.old) (R.remaining input.new) text × (length text < length room.new → IsAtEnd (R.remaining input.new)) × ((lines : _) × AreLines text 0 lines × FoldsTo (Replays text (ReadFrom text (λ code case says. T.says by code case says))) (counts.old, 0) lines (counts.new, apart))) }
{
    replay_input(input, out, room, counts, &Called { by })
}

fn replay_input_by<R: Read, W: Write, F: Fn(u64, Reader<'_>) -> Option<bool>>(
    input: &mut R,
    out: &mut W,
    room: &mut [u8],
    counts: &mut [u64],
    compare: F,
) -> io::Result<u64>
    requires { F.IsAlwaysCallable compare }
    ensures { IfOk result (λ apart. (text : List ℕ) × (length text ≤ length room.new) × Consumes (R.remaining input.old) (R.remaining input.new) text × (length text < length room.new → IsAtEnd (R.remaining input.new)) × ((lines : _) × AreLines text 0 lines × FoldsTo (Replays text (ReadFrom text (λ code case says. F.post compare code case says))) (counts.old, 0) lines (counts.new, apart))) }
{
    replay_input_called(input, out, room, counts, compare)
}

#[test]
fn counts_by_a_closure(rt: HostRuntime) -> Result<(), Fail> {
    for (limit, wrong) in [(1, 2), (2, 1), (4, 0)] {
        let mut counts = [0u64; 3];
        let apart = replay_by(TEXT, &mut counts, |code, _case| Some(code <= limit));
        assert_eq!(rt; apart, 0, "to {limit}");
        assert_eq!(rt; counts, [wrong, 2, 1], "to {limit}");
        let (mut input, mut out, mut room) = (TEXT, io::sink(), [0u8; 64]);
        let mut again = [0u64; 3];
        replay_input_by(
            &mut input,
            &mut out,
            &mut room,
            &mut again,
            |code, _case| Some(code <= limit),
        )?;
        assert_eq!(rt; again, counts, "to {limit}");
    }
    Ok(())
}
