//! The reader of lines from bytes in pieces.

ghost use Rattle.std.specs.Prelude.{◌≡◌, ◌<◌, ◌≤◌, IsTrue, IfSome, List, ℕ, [], ◌++◌, length, position};
ghost use Rattle.srcp_text.specs.Marks.{is_lf, marks, without_cr};
ghost use Rattle.srcp_text.specs.Reading.{StandsAt, after_lf, extended, nothing_read};
ghost use Rattle.srcp_text.specs.Feeding.{feed_of, fed_at, is_line, new_marks, next_stop, stop_of, consumed};

use arrayvec::ArrayVec;
use memchr::memchr;
use std::marker::Model;

// The most bytes of a line, the CR counted.
const LONGEST_READ: usize = 1000;

/// Says what a feed found.
#[derive(Clone, Copy, Debug, PartialEq, Eq)]
pub enum Fed {
    /// A line of at most 1,000 bytes, the CR counted. `LineReader::line` lends the line.
    Line {
        /// The offset in the piece after the LF. The next feed goes on there.
        stop: usize,
    },
    /// A line of more than 1,000 bytes. No byte of the line is kept.
    TooLong {
        /// The offset in the piece after the LF. The next feed goes on there.
        stop: usize,
    },
    /// No LF. The rest of the piece belongs to a line, and a later piece ends the line.
    More,
}

#[derive(Clone, Copy, Debug, PartialEq, Eq)]
enum State {
    // `bytes` has the begun line.
    Begun,
    // The begun line has more than 1,000 bytes, which are not kept.
    TooLong,
    // `bytes` has the line that the last feed found, and no line has begun.
    Found,
}

/// Finds the lines of bytes, in whatever pieces the bytes come. The form of a line is from SRCP 0.8: a line ends in LF,
/// and a single CR just before the LF is dropped. At most 1,000 bytes may stand before the LF, the CR counted. The
/// bytes of a begun line stand in the value itself: no memory is allocated.
///
/// ```
/// let mut reader = LineReader::new();
/// let mut start = 0;
/// while let Fed::Line { stop } = reader.feed(b"GET 0 SESSION 1\nGE", start) {
///     answer(reader.line());
///     start = stop;
/// }
/// ```
#[derive(Debug, Drop)]
pub struct LineReader {
    bytes: ArrayVec<u8, LONGEST_READ>,
    state: State,
}

impl Model for LineReader {
    ghost use Rattle.srcp_text.specs.Reading.{Reading};
    ghost use Rattle.srcp_text.specs.Reader.{reading_of};

    ghost Value = { Reading };

    ghost view = { λ reader. reading_of reader.state reader.bytes.items };
}

impl LineReader {
    /// Makes a reader that was fed nothing.
    pub fn new() -> LineReader
        ensures { result ≡ nothing_read }
    {
        LineReader {
            bytes: ArrayVec::new(),
            state: State::Begun,
        }
    }

    /// Takes the bytes of `piece` from the offset `start` up to the first LF, or all of the rest if there is no LF.
    /// Returns what the feed found. The feed after a line, kept or too long, begins a new line.
    pub fn feed(&mut self, piece: &[u8], start: usize) -> Fed
        requires { start ≤ length piece.now }
        // The feed stops after the first LF, if there is one.
        ensures stop { stop_of result ≡ next_stop piece.now start }
        // The next feed may go on there, nearer to the end of the piece.
        ensures within { IfSome (stop_of result)
            (λ stop. (start < stop) × (stop ≤ length piece.now)) }
        ensures no_line { ¬ IsTrue (is_line result) → self.new.line ≡ [] }
        // The feed adds this mark, or none, to the marks of the bytes fed earlier.
        ensures marks { (fed : List ℕ) → StandsAt fed self.old
            → marks (fed ++ consumed piece.now start result)
            ≡ marks fed ++ new_marks result self.new.line }
        // The reader then stands at the bytes fed in all.
        ensures stands { (fed : List ℕ) → StandsAt fed self.old
            → StandsAt (fed ++ consumed piece.now start result) self.new }
        // The same as one equation.
        ensures value { (result, self.new) ≡ feed_of self.old piece.now start }
    {
        let left = &piece[start..];
        let Some(len) = first_lf(left) else {
            self.append(left);
            return Fed::More;
        };
        self.append(&left[..len]);
        self.end(start + len + 1)
    }

    /// Lends the line of the last feed, without the LF and a CR just before the LF. Lends no bytes unless the last feed
    /// returned `Fed::Line`.
    pub fn line(&self) -> &[u8]
        ensures { result.now ≡ self.now.line }
    {
        match self.state {
            State::Found => without_cr(&self.bytes),
            _ => &[],
        }
    }

    // Takes more bytes of the begun line.
    fn append(&mut self, more: &[u8])
        ensures { self.new ≡ record { begun = extended self.old.begun more.now; line = [] } }
    {
        match self.state {
            State::TooLong => return,
            State::Found => self.bytes.clear(),
            State::Begun => {}
        }
        self.state = match self.bytes.try_extend_from_slice(more) {
            Ok(()) => State::Begun,
            Err(_) => State::TooLong,
        };
    }

    // Ends the begun line. `stop` is the offset after its LF.
    fn end(&mut self, stop: usize) -> Fed
        requires { self.old.line ≡ [] }
        ensures found { result ≡ fed_at self.old.begun stop }
        ensures after { self.new ≡ after_lf self.old.begun }
    {
        match self.state {
            State::TooLong => {
                self.bytes.clear();
                self.state = State::Begun;
                Fed::TooLong { stop }
            }
            _ => {
                self.state = State::Found;
                Fed::Line { stop }
            }
        }
    }
}

// Returns the offset of the first LF of some bytes.
fn first_lf(bytes: &[u8]) -> Option<usize>
    ensures { result ≡ position is_lf bytes.now }
{
    memchr(b'\n', bytes)
}

// Returns the text without a CR at its end.
fn without_cr(text: &[u8]) -> &[u8]
    ensures { result.now ≡ without_cr text.now }
{
    match text.split_last() {
        Some((last, front)) => { if *last == b'\r' { front } else { text } }
        None => text,
    }
}
