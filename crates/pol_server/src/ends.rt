//! The four ends of a link, called as one.
ghost use Rattle.std.specs.Prelude.{◌≡◌, ◌≢◌, ◌<◌, ◌≤◌, ◌^◌, ℕ, IfOk, length, slice_index};
ghost use Rattle.std.specs.Io.{ReadsAtMost, WritesAtMost};
ghost use Rattle.pol_server.specs.Ends.{Draws, Ends, GivesPiece, Reads, Takes, ends_of};
ghost use Rattle.pol_server.specs.Calls.{DrawsWords, GivesAll};

use pol_commands::Words4;
use pol_wire::{Clock, Draw, Failed, Link, Sink, Source};

/// What a served link needs of its ends, each call with what it leaves of all four.
pub trait Linked {
    // What the ends tell.
    ghost ends: { Self → Ends };

    /// Takes the next bytes of the source into the front of `buffer`.
    fn take(&mut self, buffer: &mut [u8]) -> Result<usize, Failed>
        ensures bound { ReadsAtMost result buffer.new }
        ensures taken { Takes (ends self.old) (ends self.new) result buffer.new };

    /// Gives the front of a piece to the sink.
    fn give(&mut self, piece: &[u8]) -> Result<usize, Failed>
        ensures bound { WritesAtMost result piece.now }
        ensures progress { IfOk result (λ count. 0 < length piece.now → 0 < count) }
        ensures given { GivesPiece (ends self.old) (ends self.new) result piece.now };

    /// Reads the clock.
    fn now(&mut self) -> u64
        ensures bound { result ≤ 2 ^ 62 }
        ensures moment { Reads (ends self.old) (ends self.new) result };

    /// Draws the next word.
    fn word(&mut self) -> Result<u64, Failed>
        ensures { Draws (ends self.old) (ends self.new) result };
}

impl<S: Source, K: Sink, C: Clock, W: Draw> Linked for Link<S, K, C, W> {
    ghost ends = { ends_of S.left S.faults K.given K.faults C.moments W.words W.faults };

    fn take(&mut self, buffer: &mut [u8]) -> Result<usize, Failed> {
        self.source.take(buffer)
    }

    fn give(&mut self, piece: &[u8]) -> Result<usize, Failed> {
        self.sink.give(piece)
    }

    fn now(&mut self) -> u64 {
        self.clock.now()
    }

    fn word(&mut self) -> Result<u64, Failed> {
        self.words.word()
    }
}

/// Gives all of a text to the sink.
pub(crate) fn give_all<L: Linked>(link: &mut L, text: &[u8]) -> Result<(), Failed>
    ensures { GivesAll (L.ends link.old) (L.ends link.new) text.now result }
{
    let mut given = 0;
    while given < text.len() {
        given += link.give(&text[given..])?;
    }
    Ok(())
}

/// Draws so many words, of which a command takes the first four.
pub(crate) fn draw_words<L: Linked>(link: &mut L, count: u8) -> Result<Words4, Failed>
    ensures { DrawsWords (L.ends link.old) (L.ends link.new) count result }
{
    let mut words = [0; 4];
    for place in 0..usize::from(count) {
        let word = link.word()?;
        words = with_word(words, place, word);
    }
    let [a, b, c, d] = words;
    Ok(Words4 { a, b, c, d })
}

/// The words with this one at its place, if it has one among them.
fn with_word(mut words: [u64; 4], place: usize, word: u64) -> [u64; 4]
    ensures there { place < 4 → slice_index result place ≡ word }
    ensures others { (k : ℕ) → k ≢ place → slice_index result k ≡ slice_index words k }
{
    if place < words.len() {
        words[place] = word;
    }
    words
}
