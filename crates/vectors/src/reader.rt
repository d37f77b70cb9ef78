// A case, read integer by integer from its line on.
ghost use Rattle.std.specs.Prelude.{◌≡◌, ◌<◌, ◌≤◌, ◌++◌, min, map, length, drop, MatchOption};
ghost use Rattle.vectors.specs.Text.{integer_at, line_ended};
ghost use Rattle.vectors.specs.Rooms.{wanted, list_of, list_at, place_in, wiped as wiped_by, compared};
ghost use Rattle.vectors.specs.Told.{told_at, told_words, answered, written};

use crate::rooms::{Contents, Element, at_most, compare, list_at, put, wiped};
use crate::told::{Told, is_answer, is_told, output_at};
use crate::{integer_at, is_line_end};

// A place in a text. What is read moves it on. The free calls of `rooms` and `told` take the two apart: they are called by that name.
#[derive(Clone, Copy)]
pub struct Reader<'a> {
    pub text: &'a [u8],
    pub at: usize,
}

impl<'a> Reader<'a> {
    ghost use Rattle.vectors.specs.Reader.{MovedTo};

    // The magnitude of the integer here.
    pub fn word(&mut self) -> u64
        ensures value { result ≡ (integer_at self.old.text.now self.old.at).magnitude }
        ensures moved { MovedTo self.old (integer_at self.old.text.now self.old.at).next self.new }
    {
        let x = integer_at(self.text, self.at);
        self.at = x.next;
        x.magnitude
    }

    // The same as a count.
    pub fn size(&mut self) -> usize
        ensures value { result ≡ (integer_at self.old.text.now self.old.at).magnitude }
        ensures moved { MovedTo self.old (integer_at self.old.text.now self.old.at).next self.new }
    {
        self.word() as usize
    }

    // Wipes as much of the room as the case lends, whose size stands here. None, and nothing wiped, where that is more than the room has.
    pub fn lend<T: Element>(&mut self, room: &mut [T]) -> Option<usize>
        ensures value { MatchOption result (length room.old < (integer_at self.old.text.now self.old.at).magnitude) (λ n. (n ≡ (integer_at self.old.text.now self.old.at).magnitude) × (n ≤ length room.old)) }
        ensures size { length room.new ≡ length room.old }
        ensures room_after { MatchOption result (room.new ≡ room.old) (λ n. room.new ≡ list_of n (λ j. T.of_bits (wanted self.old.text.now (wiped_by 0) j)) ++ drop n room.old) }
        ensures moved { MovedTo self.old (integer_at self.old.text.now self.old.at).next self.new }
    {
        let n = self.size();
        if room.len() < n {
            return None;
        }
        put(self.text, wiped(0), &mut room[..n]);
        Some(n)
    }

    // Fills the room with the list here; how many of its elements are the list's.
    pub fn fill<T: Element>(&mut self, room: &mut [T]) -> usize
        ensures value { result ≡ min (list_at self.old.text.now self.old.at).count (length room.old) }
        ensures within { result ≤ length room.new }
        ensures room_after { room.new ≡ list_of (length room.old) (λ j. T.of_bits (wanted self.old.text.now (list_at self.old.text.now self.old.at) j)) }
        ensures moved { MovedTo self.old (place_in self.old.text.now (list_at self.old.text.now self.old.at) (length room.old)) self.new }
    {
        let list = list_at(self.text, self.at);
        self.at = put(self.text, list, room);
        at_most(list.count, room.len())
    }

    // Whether the room is what the contents say, whose integers stand here.
    pub fn holds<T: Element>(&mut self, contents: Contents, room: &[T]) -> bool
        ensures value { result ≡ (compared self.old.text.now contents (map T.bits room.now)).right }
        ensures moved { MovedTo self.old (compared self.old.text.now contents (map T.bits room.now)).next self.new }
    {
        let answer = compare(self.text, contents, room);
        self.at = answer.next;
        answer.right
    }

    // Whether the integers here are those told.
    pub fn is_told(&mut self, told: Told) -> bool
        ensures value { result ≡ (compared self.old.text.now (told_at self.old.at told) (told_words told)).right }
        ensures moved { MovedTo self.old (compared self.old.text.now (told_at self.old.at told) (told_words told)).next self.new }
    {
        let answer = is_told(self.text, self.at, told);
        self.at = answer.next;
        answer.right
    }

    // Whether the integers from here to the end of the line are those told.
    pub fn is_answer(self, told: Told) -> bool
        ensures { result ≡ answered self.entry.text.now self.entry.at told }
    {
        is_answer(self.text, self.at, told)
    }

    // Whether the line ends before this place.
    pub fn is_line_end(self) -> bool
        ensures { result ≡ line_ended self.entry.text.now self.entry.at }
    {
        is_line_end(self.text, self.at)
    }

    // Whether the integers here are those told, then the output is what follows, and then the line ends.
    pub fn is_written<T: Element>(mut self, told: Told, out: &[T]) -> bool
        ensures { result ≡ written self.entry.text.now self.entry.at told (map T.bits out.now) }
    {
        let number = self.is_told(told);
        let contents = output_at(self.text, self.at, told.number);
        let output = self.holds(contents, out);
        number && output && self.is_line_end()
    }
}
