//! What logins are decided by: what the instructions do to it, and what they are answered.
ghost use Rattle.account.specs.Table.{Whole};

use crate::instructions::Instruction;
use account::{Account, Accounts};
use packet::Login;
use wire::{Refusal, Status};

/// What logins are decided by: an account table, and the session and highest number of the hub's log.
#[derive(Drop)]
pub struct LoginState {
    accounts: Accounts,
    session: u8,
    highest: u64,
    ghost whole: { Whole accounts },
}

/// What an instruction is answered.
#[derive(Clone, Copy)]
pub enum Reply {
    /// The account stands in this row, or was refused.
    Added(Result<usize, Refusal>),
    /// The hub's session and highest number are noted.
    Noted,
    /// The login was decided so.
    Decided(Status),
    /// The mark of this row was taken away, or no row is of this user and computer ID.
    LoggedOut(Option<usize>),
}

impl LoginState {
    ghost use Rattle.std.specs.Prelude.{◌≡◌};
    ghost use Rattle.logins.specs.Instructions.{order_of, asking, logout};
    ghost use Rattle.logins.specs.LoginStates.{view_of, initial, Performs};

    /// No account, and a log in session 1 that holds no message.
    pub fn new() -> LoginState
        ensures { view_of result ≡ initial }
    {
        LoginState {
            accounts: Accounts::new(),
            session: 1,
            highest: 0,
        }
    }

    /// The account table.
    pub fn accounts(&self) -> &Accounts
        ensures { result.now ≡ self.now.accounts }
    {
        &self.accounts
    }

    /// Does what an instruction asks for.
    pub fn perform(&mut self, instruction: Instruction<'_>) -> Reply
        ensures { let before = view_of self.old in
            let after = view_of self.new in
            Performs before (order_of instruction.entry) result after }
    {
        match instruction {
            Instruction::Account {
                user,
                computer,
                protocol,
            } => Reply::Added(self.accounts.add(user, computer, protocol)),
            Instruction::Hub { session, highest } => {
                self.session = session;
                self.highest = highest;
                Reply::Noted
            }
            Instruction::Login {
                version,
                account,
                session,
                number,
            } => self.log_in(version, account, session, number),
            Instruction::Logout { user, computer } => self.log_out(user, computer),
        }
    }

    fn log_in(&mut self, version: [u8; 5], account: Account, session: u8, number: u64) -> Reply
        ensures { let before = view_of self.old in
            let after = view_of self.new in
            Performs before (asking version account session number) result after }
    {
        // Field by field, as the contract says it; a function for this would have to say it once more.
        let login = Login {
            version: &version,
            user: &account.user,
            computer: &account.computer,
            protocol: &account.protocol,
            session,
            number,
        };
        let status = self.accounts.admit(login, self.session, self.highest).err();
        Reply::Decided(status.unwrap_or(Status::Accepted))
    }

    fn log_out(&mut self, user: [u8; 5], computer: [u8; 8]) -> Reply
        ensures { let before = view_of self.old in
            let after = view_of self.new in
            Performs before (logout user computer) result after }
    {
        let row = self.accounts.lookup(&user, &computer);
        if let Some(row) = row {
            self.accounts.unmark(row);
        }
        Reply::LoggedOut(row)
    }
}
