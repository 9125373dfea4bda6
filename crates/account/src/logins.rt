//! The login decision.
ghost use Rattle.std.specs.Prelude.{◌≡◌, ◌≢◌, Some, IfOk, IfErr};
ghost use Rattle.wire.specs.declared.statuses.Status.TheVariants.{Accepted};
ghost use Rattle.account.specs.Rows.{found};
ghost use Rattle.account.specs.Logins.{status_for, status_of};
ghost use Rattle.account.specs.Requests.{asked};
ghost use Rattle.account.specs.Table.{Whole};
ghost use Rattle.account.specs.Laws.{Admits};

use crate::table::Accounts;
use packet::Login;
use wire::Status;

/// The version of the session protocol that is spoken here, padded with spaces.
pub const SPOKEN_VERSION: [u8; 5] = *b"1.1  ";

impl Accounts {
    // Session and highest number are two answers of a log: a struct of both would be made anew at each call.
    /// What a login is answered by a hub whose log has that session and highest number: the status of the first
    /// check that it fails.
    pub fn decide(&self, login: Login<'_>, session: u8, highest: u64) -> Status
        ensures status { result ≡ status_for self.now.rows session highest (asked login.entry) }
        ensures whole { Whole self.now }
    {
        match self.check(login, session, highest) {
            Ok(_) => Status::Accepted,
            Err(status) => status,
        }
    }

    /// Decides a login and, where it is accepted, marks its row and answers the row's index. Otherwise answers
    /// the status, which is never `Accepted`, and changes nothing.
    pub fn admit(&mut self, login: Login<'_>, session: u8, highest: u64) -> Result<usize, Status>
        ensures admits { let before = self.old.rows in
            let after = self.new.rows in
            Admits before after session highest (asked login.entry) result }
        ensures whole { Whole self.new }
    {
        let row = self.check(login, session, highest)?;
        self.mark(row);
        Ok(row)
    }

    // The row of a login, or the status of the first check that it fails.
    fn check(&self, login: Login<'_>, session: u8, highest: u64) -> Result<usize, Status>
        ensures status { let asks = asked login.entry in
            status_of result ≡ status_for self.now.rows session highest asks }
        ensures row { let asks = asked login.entry in
            IfOk result (λ row. found self.now.rows asks.user asks.computer ≡ Some row) }
        ensures refused { IfErr result (λ status. status ≢ Accepted) }
        ensures whole { Whole self.now }
    {
        let rows = self.rows();
        match self.lookup(login.user, login.computer) {
            _ if login.version != SPOKEN_VERSION.as_slice() => Err(Status::WrongVersion),
            None => Err(Status::UnknownUser),
            Some(row) if rows[row].account.protocol.as_slice() != login.protocol => Err(
                Status::WrongProtocol,
            ),
            Some(row) if rows[row].marked => Err(Status::AlreadyLoggedIn),
            Some(_) if login.session != 0 && login.session != session => Err(
                Status::SessionUnavailable,
            ),
            Some(_) if login.number > highest.saturating_add(1) => Err(Status::InvalidNumber),
            Some(row) => Ok(row),
        }
    }
}
