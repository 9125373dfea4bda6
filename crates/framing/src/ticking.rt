//! Counts of ticks: since an end wrote a packet, and since it took a byte.
ghost use Rattle.std.specs.Prelude.{◌≡◌};
ghost use Rattle.rules.specs.Calls.{one_more};

/// After more ticks than so many in which nothing was written a heartbeat is due.
pub const BEAT_AFTER: u16 = 10;

/// A silence that is longer than so many ticks ends the connection.
pub const SILENCE_LIMIT: u16 = 30;

// Counts of ticks stop here.
const COUNT_LIMIT: u16 = 1000;

/// One more tick.
pub fn one_more(count: u16) -> u16
    ensures { result ≡ one_more count }
{
    count.saturating_add(1).min(COUNT_LIMIT)
}
