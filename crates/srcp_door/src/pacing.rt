//! The lines that are let through in a turn.

ghost use Rattle.std.specs.Prelude.{◌≡◌, ◌<◌, ◌≤◌, ◌+◌, ◌==◌, ◌&&◌, false, true, not, cond, length, nat_lt, take};
ghost use Rattle.srcp_door.specs.Pacing.{Allows, IsFirstWeight, IsLongest, IsShare, fits, is_short_pace};
ghost use Rattle.srcp_door.specs.Pacing.{line_after, line_weight, lines, pace_of, rest_at, share_after, spent};
ghost use Rattle.srcp_door.specs.Pacing.{weight_of};

use memchr::memchr;
use srcp_grammar::{MOST_CHANGES, weight};
use srcp_info::MOST_WAITING;

/// The changes of a turn that are reserved for moments and the ends of sessions.
pub const RESERVE: usize = 160;

/// The byte that ends a line.
const LINE_END: u8 = b'\n';

/// Says whether the bytes of a peer that were handed out end at the boundary of a line.
#[derive(Clone, Copy)]
pub enum LineBoundary {
    /// The last byte ended a line, or there was no byte.
    At,
    /// The last byte is inside a line: the line began, and did not end.
    Inside,
}

impl LineBoundary {
    /// Returns the weight of the line that ends behind these bytes. A line that began in an earlier piece gets the
    /// greatest weight of any line, since only a part of the line's bytes is here.
    fn weight(self, text: &[u8]) -> usize
        ensures weight { result ≡ line_weight self text.now }
        ensures most { result ≤ MOST_CHANGES }
    {
        match self {
            LineBoundary::At => weight(text),
            LineBoundary::Inside => MOST_CHANGES,
        }
    }

    /// Returns the state after these further bytes.
    fn after(self, bytes: &[u8]) -> LineBoundary
        ensures { result ≡ line_after self bytes.now }
    {
        match bytes.last() {
            Some(&LINE_END) => LineBoundary::At,
            Some(_) => LineBoundary::Inside,
            None => self,
        }
    }
}

/// Holds a peer's share of the lines. The share counts while every line may go. While not every line may go, the peers
/// take turns instead: a peer whose turn it is may have all of the peer's piece, and no share is used.
///
/// ```
/// let mut share = Share {
///     line: LineBoundary::At,
///     rest: MOST_IN_PIECE,
/// };
/// let allowed = pace.allow(&mut share, piece);
/// ```
#[derive(Clone, Copy)]
pub struct Share {
    /// Whether the bytes that were handed out end at the boundary of a line.
    pub line: LineBoundary,
    /// How many bytes of the share are left; 0 for a peer that had its share. Lines that weigh nothing take none, and
    /// no line does while not every line may go.
    pub rest: usize,
}

/// Says what weight of lines may still be let through in a turn.
///
/// ```
/// let mut pace = Pace::of_turn(slack, tick);
/// let allowed = pace.allow(&mut share, piece);
/// hand_out(&piece[..allowed.count]);
/// ```
#[derive(Clone, Copy)]
pub enum Pace {
    /// Lines of this weight in all.
    Paced { left: usize },
    /// A single line of any weight: the clock lets this line through.
    OneLine,
}

/// Says what may be handed out of a piece.
#[derive(Clone, Copy)]
pub struct Allowed {
    /// The number of bytes that may go, from the first on.
    pub count: usize,
    /// The weight of the lines that end in these bytes.
    pub weight: usize,
}

impl Pace {
    /// Returns what may be let through in a turn. `slack` is the number of changes before a panel overruns, if a panel
    /// is there. Without a panel it counts as `MOST_WAITING`, since a panel may begin in the turn. With `tick` a line
    /// may go even if the panels take nothing. No peer starves then behind a panel that does not read.
    pub fn of_turn(slack: Option<usize>, tick: bool) -> Pace
        ensures { result ≡ pace_of slack tick }
    {
        // Counting each connection without a session as a panel to come would need a walk in each turn. Without a
        // panel, 32 sessions take 0.50 to 0.55 us a command either way.
        let left = slack.unwrap_or(MOST_WAITING).saturating_sub(RESERVE);
        // A panel that does not read is closed after some 160 such lines, once all buffers on the way to the panel are
        // full.
        if tick && left < MOST_CHANGES {
            Pace::OneLine
        } else {
            Pace::Paced { left }
        }
    }

    /// Returns whether not every line may go: a line can weigh more than what may be let through, or the clock lets a
    /// single line through.
    pub fn is_short(self) -> bool
        ensures { result ≡ is_short_pace self }
    {
        match self {
            Pace::Paced { left } => left < MOST_CHANGES,
            Pace::OneLine => true,
        }
    }

    /// Returns how many bytes of a piece may go, if their lines weigh something: the rest of the share, or all of the
    /// piece while not every line may go.
    fn rest(self, share: &Share, piece: &[u8]) -> usize
        ensures { result ≡ rest_at self share.now piece.now }
    {
        // If peers took turns while every line may go, a turn would serve one or two of them. So all are visited then,
        // each for a share.
        if self.is_short() {
            piece.len()
        } else {
            share.rest
        }
    }

    /// Returns what may be let through after lines of this weight.
    fn after(self, weight: usize) -> Pace
        ensures { result ≡ spent self weight }
    {
        match self {
            Pace::Paced { left } => Pace::Paced {
                left: left.saturating_sub(weight),
            },
            Pace::OneLine if weight > 0 => Pace::Paced { left: 0 },
            Pace::OneLine => Pace::OneLine,
        }
    }

    /// Returns how many bytes of a peer's piece may be handed out. A piece in which no line ends goes out whole. Of any
    /// other piece whole lines go, as many as the pace and the peer's share let through. A peer that had its share gets
    /// no line that weighs something while every line may go.
    pub fn allow(&mut self, share: &mut Share, piece: &[u8]) -> Allowed
        ensures allowed { Allows self.old share.old piece.now result.count }
        ensures within { result.count ≤ length piece.now }
        ensures share { share.new ≡ share_after self.old share.old (take result.count piece.now) }
        ensures pace { self.new ≡ spent self.old (weight_of share.old.line (take result.count piece.now)) }
        ensures fits { fits self.old (weight_of share.old.line (take result.count piece.now)) ≡ true }
        ensures weight { result.weight ≡ weight_of share.old.line (take result.count piece.now) }
    {
        let takes_turns = self.is_short();
        let rest = self.rest(share, piece);
        let own = &piece[..rest.min(piece.len())];
        let most = match *self {
            Pace::Paced { left } => left,
            Pace::OneLine => first_weight(own, share.line),
        };
        let allowed = grant(piece, share.line, rest, most);
        *self = self.after(allowed.weight);
        share.line = share.line.after(&piece[..allowed.count]);
        // A slow panel takes lines in lumps. If short turns used shares, the last peers would have none for a lump: in
        // a model of 16 sessions the first had 1.9 times the answers of the last, and 1.2 times without.
        if !takes_turns && allowed.weight > 0 {
            share.rest = share.rest.saturating_sub(allowed.count);
        }
        allowed
    }
}

/// Holds the length of a prefix of a piece, and how many lines end in it.
#[derive(Clone, Copy)]
struct Prefix {
    // The number of bytes.
    count: usize,
    // The number of lines that end in the prefix.
    lines: usize,
}

/// Holds a prefix of a piece, and what its lines weigh.
#[derive(Clone, Copy)]
struct WeighedPrefix {
    prefix: Prefix,
    // The weight of the lines that end in the prefix.
    weight: usize,
    // The weight of the next line that ends in the piece, or 0.
    next: usize,
}

/// Returns the prefix of a piece that goes, if lines may weigh `most`. The peer's share is the first `rest` bytes.
fn grant(piece: &[u8], line: LineBoundary, rest: usize, most: usize) -> Allowed
    ensures share { IsShare line most rest piece.now result.count }
    ensures weight { result.weight ≡ weight_of line (take result.count piece.now) }
    ensures few { result.weight ≤ most }
{
    let own = longest_prefix(&piece[..rest.min(piece.len())], line, most);
    let all = if rest < piece.len() {
        longest_prefix(piece, line, own.weight)
    } else {
        own
    };
    Allowed {
        count: all.prefix.count,
        weight: all.weight,
    }
}

/// Returns the longest prefix of a piece whose lines weigh at most `most`. If no line ends in the piece, the prefix is
/// the whole piece. Else the prefix is whole lines.
fn longest_prefix(piece: &[u8], line: LineBoundary, most: usize) -> WeighedPrefix
    ensures longest { IsLongest line most piece.now result.prefix.count }
    ensures weight { result.weight ≡ weight_of line (take result.prefix.count piece.now) }
    ensures next { most ≡ 0 → IsFirstWeight line piece.now result.next }
    ensures small { result.next ≤ MOST_CHANGES }
{
    let mut line = line;
    let mut prefix = Prefix { count: 0, lines: 0 };
    let mut weight = 0;
    'lines: while let Some(length) = memchr(LINE_END, &piece[prefix.count..]) {
        let end = prefix.count + length;
        let next = line.weight(&piece[prefix.count..end]);
        if next > most - weight {
            return WeighedPrefix {
                prefix,
                weight,
                next,
            };
        }
        line = LineBoundary::At;
        prefix = Prefix {
            count: end + 1,
            lines: prefix.lines + 1,
        };
        weight += next;
    }
    if prefix.lines == 0 {
        prefix.count = piece.len();
    }
    WeighedPrefix {
        prefix,
        weight,
        next: 0,
    }
}

/// Returns the weight of the first line of a piece that weighs something, or 0 if none does.
fn first_weight(piece: &[u8], line: LineBoundary) -> usize
    ensures first { IsFirstWeight line piece.now result }
    ensures most { result ≤ MOST_CHANGES }
{
    longest_prefix(piece, line, 0).next
}
