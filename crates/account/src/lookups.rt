//! Looking a user and a computer ID up in rows.
ghost use Rattle.std.specs.Prelude.{◌≡◌};
ghost use Rattle.account.specs.Rows.{alike, matches, found};

use crate::rows::Row;

impl Row {
    /// Whether the row is the one of this user and this computer ID.
    fn matches(&self, user: &[u8], computer: &[u8]) -> bool
        ensures { result ≡ matches self.now user.now computer.now }
    {
        alike(&self.account.user, user) && alike(&self.account.computer, computer)
    }
}

/// The first of these rows that matches.
pub(crate) fn find(rows: &[Row], user: &[u8], computer: &[u8]) -> Option<usize>
    ensures { result ≡ found rows.now user.now computer.now }
{
    rows.iter().position(|row| row.matches(user, computer))
}

/// Whether two texts are the same where capital letters count as small ones.
fn alike(a: &[u8], b: &[u8]) -> bool
    ensures { result ≡ alike a.now b.now }
{
    a.eq_ignore_ascii_case(b)
}
