//! The search for the first empty line, which ends a head and a trailer.

ghost use Rattle.std.specs.Prelude.{◌≡◌, ◌<◌, ◌≤◌, length, take, Some, IfNone, IfSome};
ghost use Rattle.rs_request.specs.Lines.{next_spot, spot_after, first_empty_line, first_line};

use memchr::memchr;

/// Where in a line a search for the first empty line is.
#[derive(Clone, Copy, Debug, PartialEq, Eq)]
pub enum Spot {
    /// After line ends alone, which are no line of a head.
    Before,
    /// In a line.
    Within,
    /// At a line's start.
    Fresh,
    /// After a CR at a line's start.
    Turned,
}

impl Spot {
    /// The spot after a byte, or nothing where the byte ends an empty line.
    fn after(self, byte: u8) -> Option<Spot>
        ensures { result ≡ next_spot self byte }
    {
        match self {
            Spot::Before if byte == b'\r' || byte == b'\n' => Some(Spot::Before),
            Spot::Fresh | Spot::Turned if byte == b'\n' => None,
            Spot::Fresh if byte == b'\r' => Some(Spot::Turned),
            Spot::Within if byte == b'\n' => Some(Spot::Fresh),
            _ => Some(Spot::Within),
        }
    }

    /// Goes on over one byte or, in a line, over all of it: how many bytes these are, and the spot after them, or nothing where
    /// they end an empty line.
    fn past(self, rest: &[u8]) -> (usize, Option<Spot>)
        requires { 0 < length rest.now }
        ensures within { (0 < result.0) × (result.0 ≤ length rest.now) }
        ensures goes { IfSome result.1 (λ next. spot_after self (take result.0 rest.now) ≡ Some next) }
        ensures ends { IfNone result.1 (first_empty_line self rest.now ≡ Some result.0) }
    {
        match self {
            Spot::Within => match line_length(rest) {
                Some(count) => (count, Some(Spot::Fresh)),
                None => (rest.len(), Some(Spot::Within)),
            },
            _ => (1, self.after(rest[0])),
        }
    }
}

/// The number of bytes up to and with the first LF, where there is one.
pub(crate) fn line_length(bytes: &[u8]) -> Option<usize>
    ensures line { result ≡ first_line bytes.now }
    ensures within { IfSome result (λ count. (0 < count) × (count ≤ length bytes.now)) }
{
    match memchr(b'\n', bytes) {
        Some(index) => Some(index + 1),
        None => None,
    }
}

/// How far a search for the first empty line has come.
#[derive(Clone, Copy, Debug, PartialEq, Eq)]
pub struct Search {
    /// The number of bytes that were looked at.
    pub sought: usize,
    /// Where in a line they lead.
    pub spot: Spot,
}

/// The front of the bytes, of at most so many.
pub fn window(bytes: &[u8], limit: usize) -> &[u8]
    ensures front { result.now ≡ take limit bytes.now }
    ensures within { length result.now ≤ length bytes.now }
{
    if bytes.len() < limit {
        bytes
    } else {
        &bytes[..limit]
    }
}

impl Search {
    ghost use Rattle.rs_request.specs.Sought.{IsSought};

    /// A search that looked at nothing and begins at this spot.
    pub fn from(spot: Spot) -> Search
        ensures { result ≡ record { sought = 0; spot = spot } }
    {
        Search { sought: 0, spot }
    }

    /// Goes on with the search in bytes that begin with those of the call before: the number of bytes up to and with the first
    /// empty line, where there is one.
    pub fn seek(&mut self, bytes: &[u8]) -> Option<usize>
        ensures within { IfSome result (λ count. (0 < count) × (count ≤ length bytes.now)) }
        ensures found { (start : Spot) → IsSought start self.old bytes.now
            → result ≡ first_empty_line start bytes.now }
        ensures kept { (start : Spot) → IsSought start self.old bytes.now
            → IsSought start self.new bytes.now }
    {
        let mut spot = self.spot;
        let mut at = self.sought;
        while at < bytes.len() {
            let (count, next) = spot.past(&bytes[at..]);
            match next {
                Some(next) => {
                    at += count;
                    spot = next;
                }
                None => return Some(at + count),
            }
        }
        self.sought = bytes.len();
        self.spot = spot;
        None
    }
}
