//! Tests of accounts and logins on examples: fields at their edges, a full table, numbers at the edge, marks.
use account::{Account, Accounts, SPOKEN_VERSION};
use packet::Login;
use std::process::Abort;
use std::test::Fail;
use wire::Refusal;

fn login(user: &[u8; 5], session: u8, number: u64) -> Login<'_> {
    Login {
        version: &SPOKEN_VERSION,
        user,
        computer: b"desk1   ",
        protocol: b"fill1.0 ",
        session,
        number,
    }
}

// The number of the refusal of an account with this user, if it is refused.
fn refusal_of(user: &[u8]) -> Option<u8> {
    let made = Account::new(user, b"desk1", b"fill1.0");
    made.err().map(Refusal::number)
}

// Whether a call was refused, and with this refusal.
fn refused<T: Drop>(
    rt: &impl Abort,
    answer: Result<T, Refusal>,
    refusal: Refusal,
) -> Result<(), Fail> {
    assert_eq!(rt; answer.err(), Some(refusal));
    Ok(())
}

#[test]
fn fields(rt: HostRuntime) -> Result<(), Fail> {
    let account = Account::new(b"mm1", b"desk0001", b"!~")?;
    assert_eq!(rt; account.user, *b"mm1  ");
    assert_eq!(rt; account.computer, *b"desk0001");
    assert_eq!(rt; account.protocol, *b"!~      ");
    assert_eq!(rt; refusal_of(b"abcde"), None);
    assert_eq!(rt; refusal_of(b"abcdef"), Some(16));
    assert_eq!(rt; refusal_of(b""), Some(16));
    assert_eq!(rt; refusal_of(b"a b"), Some(16));
    assert_eq!(rt; refusal_of(b"a\x7F"), Some(16));
    Ok(())
}

#[test]
fn full_table(rt: HostRuntime) -> Result<(), Fail> {
    let mut accounts = Accounts::new();
    for name in [b"a", b"b", b"c", b"[", b"{", b"f", b"g"] {
        let _ = accounts.add(name, b"desk1", b"fill1.0")?;
    }
    refused(
        &rt,
        accounts.add(b"A", b"DESK1", b"other"),
        Refusal::AccountTaken,
    )?;
    refused(&rt, accounts.add(b"", b"", b""), Refusal::BadAccountField)?;
    assert_eq!(rt; accounts.add(b"a", b"desk2", b"fill1.0")?, 7);
    refused(
        &rt,
        accounts.add(b"i", b"desk1", b"fill1.0"),
        Refusal::AccountTaken,
    )?;
    assert_eq!(rt; accounts.count(), 8);
    assert_eq!(rt; accounts.lookup(b"A    ", b"Desk2   "), Some(7));
    assert_eq!(rt; accounts.lookup(b"A", b"desk2"), None);
    Ok(())
}

#[test]
fn numbers(rt: HostRuntime) -> Result<(), Fail> {
    let mut accounts = Accounts::new();
    let _ = accounts.add(b"mm01", b"desk1", b"fill1.0")?;
    assert_eq!(rt;
        u8::from(accounts.decide(login(b"MM01 ", 0, 4), 7, 3)),
        b' '
    );
    assert_eq!(rt;
        u8::from(accounts.decide(login(b"MM01 ", 0, 5), 7, 3)),
        b'N'
    );
    let last = login(b"mm01 ", 7, u64::MAX);
    assert_eq!(rt; u8::from(accounts.decide(last, 7, u64::MAX - 2)), b'N');
    assert_eq!(rt; u8::from(accounts.decide(last, 7, u64::MAX - 1)), b' ');
    assert_eq!(rt; u8::from(accounts.decide(last, 7, u64::MAX)), b' ');
    Ok(())
}

#[test]
fn marks(rt: HostRuntime) -> Result<(), Fail> {
    let mut accounts = Accounts::new();
    let _ = accounts.add(b"mm01", b"desk1", b"fill1.0")?;
    let _ = accounts.add(b"mm02", b"desk1", b"fill1.0")?;
    assert!(rt; accounts.admit(login(b"mm02 ", 0, 0), 7, 3).is_ok());
    assert_eq!(rt;
        u8::from(accounts.decide(login(b"mm02 ", 6, 9), 7, 3)),
        b'L'
    );
    assert_eq!(rt;
        u8::from(accounts.decide(login(b"mm01 ", 6, 9), 7, 3)),
        b'S'
    );
    assert!(rt; accounts.admit(login(b"mm02 ", 0, 0), 7, 3).is_err());
    accounts.unmark(0);
    assert!(rt; accounts.admit(login(b"mm02 ", 0, 0), 7, 3).is_err());
    accounts.unmark(1);
    assert!(rt; accounts.admit(login(b"mm02 ", 0, 0), 7, 3).is_ok());
    Ok(())
}
