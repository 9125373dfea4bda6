//! How a pair is made of its parts.
ghost use Rattle.std.specs.Prelude.{◌≡◌, ◌&&◌};
ghost use Rattle.std.specs.Str.{bytes_eq};
ghost use Rattle.line.specs.Lines.{LineView};
ghost use Rattle.message_log.specs.Meaning.{nth};
ghost use Rattle.message_log.specs.Calls.{has};
ghost use Rattle.rules.specs.SetUp.{first_of, follows, started};
ghost use Rattle.pair.specs.Makings.{parts_of, SetsUp};

use crate::buffers::Buffers;
use crate::pairs::Pair;
use account::{Account, Accounts};
use hub::Hub;
use message_log::Log;
use seat::Seat;
use wire::{MESSAGE_LIMIT, Refusal, Unmade};

// The session that a hub's log without one begins.
const FIRST_SESSION: u8 = 1;

/// The three texts of an account, before they are judged and padded.
#[derive(Clone, Copy)]
pub struct AccountTexts<'a> {
    /// The user name.
    pub user: &'a [u8],
    /// The computer ID.
    pub computer: &'a [u8],
    /// The application protocol.
    pub protocol: &'a [u8],
}

impl Pair {
    /// A pair with no connection, of an account table and of the account texts by which the seat logs in. A hub's log
    /// without a session begins session 1. Refuses by `ShortBuffer`, by `SizeOutOfRange` where the seat's log does not
    /// follow the hub's, and by `BadAccountField`, in this order; a refusal changes nothing, and hands the table back.
    ///
    /// The logs and the buffers are lent again to each call.
    pub fn set_up<G: Log, S: Log>(
        accounts: Accounts,
        texts: AccountTexts<'_>,
        hub_log: &mut G,
        seat_log: &S,
        buffers: &Buffers,
    ) -> Result<Pair, Unmade<Accounts>>
        ensures { (up down : LineView) →
            let held = S.Log.view seat_log.now in
            let log = G.Log.view hub_log.old in
            let given = parts_of log held up down accounts texts.entry buffers.now in
            SetsUp given accounts result (G.Log.view hub_log.new) }
    {
        if buffers.is_short() {
            return Err(Unmade {
                refusal: Refusal::ShortBuffer,
                given: accounts,
            });
        }
        if !follows(seat_log, hub_log) {
            return Err(Unmade {
                refusal: Refusal::SizeOutOfRange,
                given: accounts,
            });
        }
        match Account::new(texts.user, texts.computer, texts.protocol) {
            Ok(account) => {
                start(hub_log);
                Ok(Pair {
                    hub: Hub::new(),
                    seat: Seat::new(),
                    accounts,
                    account,
                })
            }
            Err(refusal) => Err(Unmade {
                refusal,
                given: accounts,
            }),
        }
    }
}

// A hub's log without a session begins the first.
fn start<G: Log>(log: &mut G)
    ensures { G.Log.view log.new ≡ started (G.Log.view log.old) }
{
    if log.session() == 0 {
        let _ = log.begin(FIRST_SESSION);
    }
}

// Whether the seat's log is empty without a session, or a prefix of the hub's, as that is once it is started.
fn follows<S: Log, G: Log>(seat_log: &S, hub_log: &G) -> bool
    ensures { result ≡ follows (S.Log.view seat_log.now) (started (G.Log.view hub_log.now)) }
{
    if seat_log.session() == 0 {
        return seat_log.count() == 0;
    }
    let session = match hub_log.session() {
        0 => FIRST_SESSION,
        session => session,
    };
    seat_log.session() == session && is_prefix(seat_log, hub_log)
}

// Whether the messages of a log are a prefix of those of another.
fn is_prefix<S: Log, G: Log>(prefix: &S, log: &G) -> bool
    ensures { result ≡ first_of (S.Log.view prefix.now).messages (G.Log.view log.now).messages }
{
    for index in 0..prefix.count() {
        if !share(prefix, log, index + 1) {
            return false;
        }
    }
    true
}

// Whether both logs hold a message n, and it is the same.
fn share<S: Log, G: Log>(one: &S, other: &G, n: usize) -> bool
    ensures { let a = S.Log.view one.now in
        let b = G.Log.view other.now in
        result ≡ has a n && (has b n && bytes_eq (nth a n) (nth b n)) }
{
    let mut message = [0; MESSAGE_LIMIT];
    let mut twin = [0; MESSAGE_LIMIT];
    match (one.read(n, &mut message), other.read(n, &mut twin)) {
        (Ok(length), Ok(size)) => message[0..length] == twin[0..size],
        _ => false,
    }
}
