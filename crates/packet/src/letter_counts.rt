//! How many packets of each letter there were.
ghost use Rattle.std.specs.Prelude.{◌≡◌, replicate, slice_index};
ghost use Rattle.packet.specs.LetterCounts.{ordinal, raised};

use wire::Letter;

/// A count for each letter. A count that has come to the largest `u64` stays there.
// It has no `impl Model`: what holds a struct with one can no longer be passed by value twice, though it be `Copy`.
#[derive(Clone, Copy)]
pub struct LetterCounts {
    counts: [u64; 12],
}

impl LetterCounts {
    /// Every count 0.
    pub fn new() -> LetterCounts
        ensures { result.counts ≡ replicate 12 0 }
    {
        LetterCounts { counts: [0; 12] }
    }

    /// One packet more with this letter.
    pub fn note(&mut self, letter: Letter)
        ensures { self.new.counts ≡ raised self.old.counts letter }
    {
        let index = index_of(letter);
        self.counts[index] = self.counts[index].saturating_add(1);
    }

    /// How many packets with this letter there were.
    pub fn count(&self, letter: Letter) -> u64
        ensures { result ≡ slice_index self.now.counts (ordinal letter) }
    {
        self.counts[index_of(letter)]
    }
}

// Where a letter's count stands. The number that the enum gives a letter is its byte on the wire, and no index; a search
// in `LETTERS` would answer an `Option`.
fn index_of(letter: Letter) -> usize
    ensures { result ≡ ordinal letter }
{
    match letter {
        Letter::LoginRequest => 0,
        Letter::LoginResponse => 1,
        Letter::Sequenced => 2,
        Letter::Unsequenced => 3,
        Letter::SynchronizationComplete => 4,
        Letter::RetransmissionRequest => 5,
        Letter::LogoutRequest => 6,
        Letter::GoodBye => 7,
        Letter::EndOfSession => 8,
        Letter::HubHeartbeat => 9,
        Letter::SeatHeartbeat => 10,
        Letter::Test => 11,
    }
}
