// Lines of input: a line is the bytes up to a line feed (10), which is no part of it. The last line may lack one.
ghost use Rattle.std.specs.Prelude.{◌≡◌, ◌⊎◌, ◌↔◌, ℕ, ◌+◌, ◌-◌, ◌<◌, ◌≤◌, ◌^◌, List, [], ◌++◌, length, take, drop, true, false, Some, Ok, Err, IfOk, OnOk, OnErr, IsTrue, vec_len};
ghost use Rattle.std.specs.List.{position_or_len, before_first, after_first};
ghost use Rattle.jf_path.specs.Faults.{HasCause};
ghost use Rattle.jf_io.specs.LineReader.{is_line_feed, IsSearched, IsShortened, IsFetched};

use crate::line_feed::first_line_feed;
use crate::piece::{FetchFault, MAX_PIECE, USUAL_PIECE, append_piece};
use crate::source::Source;
use std::alloc::Global;
use std::marker::Model;

/// Holds bytes that were taken from a source, and gives them out a line at a time.
///
/// Input is taken in pieces: one call asks the source for at most `piece` bytes, and for more than `USUAL_PIECE` only if it has given
/// many before, and never again once it gave no more than that. It is asked only if no whole line is held, so fewer than
/// `piece` bytes are held after the first line.
///
/// A line of at most `limit` bytes is held whole. Of a longer line more than `limit` bytes from its front are held, and
/// the rest may be dropped as it comes. So at most `limit` + 1 bytes and one piece are held, whatever a line's length.
#[derive(Drop)]
pub struct LineReader {
    // the bytes taken and kept; those before `start` were given out
    bytes: Vec<u8>,
    start: usize,
    // no line feed stands from `start` up to this offset
    searched: usize,
    // the most bytes of a line that is held whole
    limit: usize,
    // the most bytes that one call asks a source for
    piece: usize,
    // the most that one asks for from now on, since a source may have given fewer
    most: usize,
}

impl Model for LineReader {
    ghost use Rattle.std.specs.Prelude.{drop};
    ghost use Rattle.jf_io.specs.LineReader.{ReaderState, IsSearched, HoldsFew, AsksFew};

    ghost Value = { ReaderState };

    ghost view = { λ r. record { limit = r.limit; piece = r.piece; bytes = drop r.start r.bytes.items } };

    ghost invariant = { λ r. IsSearched r.bytes.items r.start r.searched × HoldsFew r.bytes.items r.start r.limit r.piece × AsksFew r.piece r.most };
}

impl LineReader {
    /// A reader that holds nothing. A line of at most `limit` bytes will be held whole, and the source will be asked for at
    /// most `piece` bytes at a time, 1 to `MAX_PIECE`.
    pub fn new(alloc: Global, limit: usize, piece: usize) -> LineReader
        // The piece has 1 to `MAX_PIECE` bytes.
        requires piece { (1 ≤ piece) × (piece ≤ MAX_PIECE) }
        // The result has this limit and this piece, and holds no bytes.
        ensures { result ≡ record { limit = limit; piece = piece; bytes = [] } }
    {
        LineReader {
            bytes: Vec::new(alloc),
            start: 0,
            searched: 0,
            limit,
            piece,
            most: piece,
        }
    }

    /// Whether a whole line is held, with its line feed. Then `fetch` does not ask the source. Each byte is searched once.
    pub fn finds_line(&mut self) -> bool
        // The bytes held, the limit and the piece are unchanged.
        ensures unchanged { self.new ≡ self.old }
        // At most `limit` + 1 bytes and one piece are held.
        ensures small { length self.new.bytes ≤ self.new.limit + 1 + self.new.piece }
        // After the first line, fewer bytes than a piece are held.
        ensures ahead { length (after_first is_line_feed self.new.bytes) < self.new.piece }
        // The result is `true` exactly if a line feed is held.
        ensures found { IsTrue result ↔ (position_or_len is_line_feed self.new.bytes < length self.new.bytes) }
    {
        self.searched = line_end(&self.bytes, self.start, self.searched);
        self.searched < self.bytes.len()
    }

    /// Takes bytes from the source until a line with its line feed is held or the input ends. `false` means that the
    /// input has ended and nothing is held. Bytes of a line past its first `limit` + 1 may be dropped.
    ///
    /// After a `FetchFault` the bytes taken so far are held, and the next call goes on from there. After `ReadFault` no line
    /// feed is held.
    pub fn fetch<S: Source>(&mut self, source: &mut S) -> Result<bool, FetchFault>
        // Whatever the outcome, no byte is invented, and only bytes of a line past its first `limit` + 1 are lost.
        ensures kept { (text : List ℕ) → IsShortened self.old.limit text self.old.bytes → IsFetched self.old.limit text self.new.bytes (S.rest source.old) (S.rest source.new) }
        // The limit is unchanged.
        ensures limit { self.new.limit ≡ self.old.limit }
        // The piece is unchanged.
        ensures piece { self.new.piece ≡ self.old.piece }
        // At most `limit` + 1 bytes and one piece are held.
        ensures small { length self.new.bytes ≤ self.new.limit + 1 + self.new.piece }
        // After the first line, fewer bytes than a piece are held.
        ensures ahead { length (after_first is_line_feed self.new.bytes) < self.new.piece }
        // If a line feed was held before, the result is `Ok(true)`, and reader and source are unchanged.
        ensures ready { position_or_len is_line_feed self.old.bytes < length self.old.bytes → (result ≡ Ok true) × (self.new ≡ self.old) × (source.new ≡ source.old) }
        // After `Ok(true)` a line feed is held, or some byte is and a source whose rest is known has none to come.
        ensures found { result ≡ Ok true → (position_or_len is_line_feed self.new.bytes < length self.new.bytes) ⊎ ((0 < length self.new.bytes) × ((left : List ℕ) → S.rest source.new ≡ Some left → left ≡ [])) }
        // After `Ok(false)` nothing is held, and a source whose rest is known has no byte to come.
        ensures ended { result ≡ Ok false → (self.new.bytes ≡ []) × ((left : List ℕ) → S.rest source.new ≡ Some left → left ≡ []) }
        // After `ReadFault` no line feed is held.
        ensures unfinished { result ≡ Err FetchFault.ReadFault → position_or_len is_line_feed self.new.bytes ≡ length self.new.bytes }
        // After `ReadFault` the source's count of faults rose, or stood at `u64::MAX` before.
        ensures cause { result ≡ Err FetchFault.ReadFault → HasCause (S.faults source.old) (S.faults source.new) }
        // The source's count of faults doesn't fall.
        ensures counts { S.faults source.old ≤ S.faults source.new }
    {
        loop {
            if self.finds_line() {
                return Ok(true);
            }
            self.shorten();
            if self.take_piece(source)? == 0 {
                return Ok(self.len() > 0);
            }
        }
    }

    /// The first line held, without its line feed; all that is held if there is no line feed. Of a line longer than the
    /// limit, its first `limit` + 1 bytes.
    pub fn line(&self) -> &[u8]
        // The slice holds the first `limit` + 1 bytes, or fewer, held before the first line feed.
        ensures { result.now ≡ take (self.now.limit + 1) (before_first is_line_feed self.now.bytes) }
    {
        let end = line_end(&self.bytes, self.start, self.searched);
        let line = &self.bytes[self.start..end];
        if line.len() > self.limit {
            &line[..self.limit + 1]
        } else {
            line
        }
    }

    /// What is held after the first line and its line feed: further lines, and perhaps the front of one.
    pub fn after_line(&self) -> &[u8]
        // The slice holds the bytes held after the first line feed.
        ensures { result.now ≡ after_first is_line_feed self.now.bytes }
    {
        let end = line_end(&self.bytes, self.start, self.searched);
        &self.bytes[self.bytes.len().min(end + 1)..]
    }

    /// Whether no line feed is held. At the end of the input this says that the line held is the last one.
    pub fn is_last(&self) -> bool
        // The result is true exactly if no line feed is held.
        ensures { IsTrue result ↔ (position_or_len is_line_feed self.now.bytes ≡ length self.now.bytes) }
    {
        line_end(&self.bytes, self.start, self.searched) == self.bytes.len()
    }

    /// Drops the first line held, with its line feed.
    pub fn advance(&mut self)
        // The bytes after the first line feed are held, and limit and piece are unchanged.
        ensures { self.new ≡ record self.old { bytes = after_first is_line_feed self.old.bytes } }
    {
        let end = line_end(&self.bytes, self.start, self.searched);
        self.start = self.bytes.len().min(end + 1);
        self.searched = self.start;
    }

    // The number of bytes held.
    fn len(&self) -> usize
        ensures { result ≡ length self.now.bytes }
    {
        self.bytes.len() - self.start
    }

    // Drops the bytes of an unfinished line past its first `limit` + 1, which are enough to tell that it is too long.
    fn shorten(&mut self)
        requires { position_or_len is_line_feed self.old.bytes ≡ length self.old.bytes }
        ensures { self.new ≡ record self.old { bytes = take (self.old.limit + 1) self.old.bytes } }
    {
        if self.len() > self.limit {
            self.bytes.truncate(self.start + self.limit + 1);
            self.searched = self.bytes.len();
        }
    }

    // Takes a piece of input, and returns its number of bytes. 0 is the end of the input.
    fn take_piece<S: Source>(&mut self, source: &mut S) -> Result<usize, FetchFault>
        requires short { length self.old.bytes ≤ self.old.limit + 1 }
        requires unfinished { position_or_len is_line_feed self.old.bytes ≡ length self.old.bytes }
        ensures kept { (rest : List ℕ) → S.rest source.old ≡ Some rest → (left : List ℕ) × (S.rest source.new ≡ Some left) × (self.new.bytes ++ left ≡ self.old.bytes ++ rest) }
        ensures front { take (length self.old.bytes) self.new.bytes ≡ self.old.bytes }
        ensures limit { self.new.limit ≡ self.old.limit }
        ensures piece { self.new.piece ≡ self.old.piece }
        ensures small { length self.new.bytes ≤ self.new.limit + 1 + self.new.piece }
        ensures ahead { length (after_first is_line_feed self.new.bytes) < self.new.piece }
        ensures err { OnErr result (self.new ≡ self.old) }
        ensures end { IfOk result (λ n. n ≡ 0 → (self.new ≡ self.old) × ((left : List ℕ) → S.rest source.new ≡ Some left → left ≡ [])) }
        ensures given { IfOk result (λ n. S.given source.new ≡ S.given source.old + n) }
        ensures bounded { OnOk result (S.given source.new < 2 ^ 64) }
        ensures cause { result ≡ Err FetchFault.ReadFault → HasCause (S.faults source.old) (S.faults source.new) }
        ensures counts { S.faults source.old ≤ S.faults source.new }
    {
        let asked = bytes_to_ask(self.start, self.most);
        drop_front(&mut self.bytes, self.start);
        self.searched -= self.start;
        self.start = 0;
        let given = append_piece(&mut self.bytes, source, asked)?;
        self.most = most_to_ask(self.most, asked, given);
        Ok(given)
    }
}

// How many bytes to ask a source for: as many as may be if the lines given out since the last time had many, for then it gives
// much at once; else at most `USUAL_PIECE`, since what is asked for is zeroed first.
fn bytes_to_ask(given_out: usize, most: usize) -> usize
    requires { 1 ≤ most }
    ensures least { 1 ≤ result }
    ensures most { result ≤ most }
{
    if given_out < USUAL_PIECE / 2 {
        most.min(USUAL_PIECE)
    } else {
        most
    }
}

// The most bytes to ask a source for from now on: `USUAL_PIECE` if it was asked for more, and gave no more than that.
fn most_to_ask(most: usize, asked: usize, given: usize) -> usize
    requires { 1 ≤ most }
    ensures least { 1 ≤ result }
    ensures most { result ≤ most }
{
    if asked > USUAL_PIECE && given <= USUAL_PIECE {
        most.min(USUAL_PIECE)
    } else {
        most
    }
}

// The offset of the first line feed from `start` on, or the length if there is no line feed.
fn line_end(bytes: &[u8], start: usize, searched: usize) -> usize
    requires { IsSearched bytes.now start searched }
    ensures within { result ≤ length bytes.now }
    ensures value { result ≡ start + position_or_len is_line_feed (drop start bytes.now) }
{
    searched + first_line_feed(&bytes[searched..])
}

// Drops the first `count` bytes.
fn drop_front(bytes: &mut Vec<u8>, count: usize)
    requires { count ≤ vec_len bytes.old }
    ensures { bytes.new.items ≡ drop count bytes.old.items }
{
    if count == 0 {
        return;
    }
    let kept = bytes.len() - count;
    bytes.copy_within(count.., 0);
    bytes.truncate(kept);
}
