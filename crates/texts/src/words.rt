// How the bytes of a job file are cut: a text into lines, and a line into words.
ghost use Rattle.std.specs.Prelude.{◌≡◌, length};
ghost use Rattle.std.specs.Option.{option_map};
ghost use Rattle.texts.specs.Cuts.{first_line, later_lines, uncommented, first_word, later_words};
ghost use Rattle.std.specs.Iterator.{at_most};

use crate::classes::{front, is_blank};

// The lines of a text that are still to come. The library's `split` would give an empty line after a last line feed.
#[derive(Clone, Copy)]
pub struct Lines<'a> {
    rest: &'a [u8],
}

impl<'a> Lines<'a> {
    // The lines of a text.
    pub fn of(text: &'a [u8]) -> Lines<'a>
        ensures { result.rest.now ≡ text.now }
    {
        Lines { rest: text }
    }
}

impl<'a> Iterator for Lines<'a> {
    type Item = &'a [u8];

    ghost next_gives = { λ s r t. (option_map (λ x. x.now) r ≡ first_line s.rest.now) × (t.rest.now ≡ later_lines s.rest.now) };

    ghost remaining = { λ s. at_most (length s.rest.now) };

    fn next(&mut self) -> Option<&'a [u8]> {
        let rest = self.rest;
        if rest.is_empty() {
            return None;
        }
        let end = front(rest, |b| b != b'\n');
        self.rest = rest.get(end + 1..).unwrap_or(&[]);
        Some(&rest[0..end])
    }
}

// The words of a line that are still to come. A `split` and a `filter` would bring the types of two closures along.
// Not one type with `Lines`: a line ends at one byte and may be empty, words are cut at runs of blanks and are not.
#[derive(Clone, Copy)]
pub struct Words<'a> {
    rest: &'a [u8],
}

impl<'a> Words<'a> {
    // The words of a line, without its comment.
    pub fn of(line: &'a [u8]) -> Words<'a>
        ensures { result.rest.now ≡ uncommented line.now }
    {
        let end = front(line, |b| b != b'#');
        Words {
            rest: &line[0..end],
        }
    }
}

impl<'a> Iterator for Words<'a> {
    type Item = &'a [u8];

    ghost next_gives = { λ s r t. (option_map (λ x. x.now) r ≡ first_word s.rest.now) × (t.rest.now ≡ later_words s.rest.now) };

    ghost remaining = { λ s. at_most (length s.rest.now) };

    fn next(&mut self) -> Option<&'a [u8]> {
        let (_, rest) = self.rest.split_at(front(self.rest, is_blank));
        let (word, after) = rest.split_at(front(rest, |b| !is_blank(b)));
        self.rest = after;
        if word.is_empty() { None } else { Some(word) }
    }
}
