//! The account table.
ghost use Rattle.std.specs.Prelude.{◌≡◌, ℕ, ◌+◌, ◌-◌, ◌<◌, ◌≤◌, true, false, [], ◌∷◌, ◌++◌, length, drop, replicate, None, Option, ◌≢◌};
ghost use Rattle.account.specs.Rows.{found, row_at, marking};
ghost use Rattle.account.specs.Table.{Table, Whole, blank, in_use, Single, joining, index_of, joined};
ghost use Rattle.account.specs.Laws.{Finds};

use crate::fields::Account;
use crate::lookups::find;
use crate::rows::Row;
use std::marker::Model;
use wire::Refusal;

/// How many rows a table has.
pub const CAPACITY: usize = 8;

/// A table of accounts. No two rows match each other, and a row that is not in use is blank.
// An array and a count beside it: a table is an array of eight rows, a rule of the project.
#[derive(Drop)]
pub struct Accounts {
    rows: [Row; CAPACITY],
    count: usize,
}

/// A table means the rows in use, and those that are free.
// A model shows callers no invariant, so each call states it by a clause of its own, `whole`.
impl Model for Accounts {
    ghost Value = { Table };

    ghost view = { λ t. record { rows = in_use t.rows t.count; free = drop t.count t.rows } };

    ghost invariant = { λ t. (length t.rows ≡ 8) × (t.count ≤ 8) × Single t.rows t.count
        × (drop t.count t.rows ≡ replicate (8 - t.count) blank) };
}

/// A row that is not in use.
fn blank() -> Row
    ensures { result ≡ blank }
{
    let account = Account {
        user: [b' '; 5],
        computer: [b' '; 8],
        protocol: [b' '; 8],
    };
    Row {
        account,
        marked: false,
    }
}

impl Accounts {
    /// A table with no row in use.
    pub fn new() -> Accounts
        ensures rows { result.rows ≡ [] }
        ensures whole { Whole result }
    {
        Accounts {
            rows: [blank(); CAPACITY],
            count: 0,
        }
    }

    /// How many rows are in use.
    pub fn count(&self) -> usize
        ensures count { result ≡ length self.now.rows }
        ensures whole { Whole self.now }
    {
        self.rows().len()
    }

    /// The rows in use.
    pub fn rows(&self) -> &[Row]
        ensures rows { result.now ≡ self.now.rows }
        ensures whole { Whole self.now }
    {
        &self.rows[0..self.count]
    }

    // Two texts and no struct of them: a login request has two, and every definition of a lookup takes two.
    /// The row in use of a user and a computer ID, where capital letters count as small ones.
    pub fn lookup(&self, user: &[u8], computer: &[u8]) -> Option<usize>
        ensures answer { result ≡ found self.now.rows user.now computer.now }
        ensures finds { Finds self.now.rows user.now computer.now result }
        ensures only { (o : Option ℕ) → Finds self.now.rows user.now computer.now o → result ≡ o }
        ensures whole { Whole self.now }
    {
        find(self.rows(), user, computer)
    }

    // Three texts: they are an account only once they are judged.
    /// Adds an account and answers the index of its row. Refuses by `BadAccountField`, and then by
    /// `AccountTaken` where every row is in use or one matches.
    pub fn add(&mut self, user: &[u8], computer: &[u8], protocol: &[u8]) -> Result<usize, Refusal>
        ensures answer { let row = joining self.old.rows user.now computer.now protocol.now in
            result ≡ index_of self.old.rows row }
        ensures after { let row = joining self.old.rows user.now computer.now protocol.now in
            self.new.rows ≡ joined self.old.rows row }
        ensures whole { Whole self.new }
    {
        let index = self.rows().len();
        let account = Account::new(user, computer, protocol)?;
        if index == CAPACITY {
            return Err(Refusal::AccountTaken);
        }
        if self.lookup(&account.user, &account.computer).is_some() {
            return Err(Refusal::AccountTaken);
        }
        self.push(Row {
            account,
            marked: false,
        });
        Ok(index)
    }

    /// Puts a row behind those in use.
    fn push(&mut self, row: Row)
        requires room { length self.old.rows < 8 }
        requires absent { found self.old.rows row.account.user row.account.computer ≡ None }
        ensures rows { self.new.rows ≡ self.old.rows ++ (row ∷ []) }
        ensures whole { Whole self.new }
    {
        self.rows[self.count] = row;
        self.count += 1;
    }

    /// Marks a row. Where it is not in use, nothing changes.
    pub fn mark(&mut self, row: usize)
        ensures after { self.new.rows ≡ marking self.old.rows row true }
        ensures others { (k : ℕ) → (k ≢ row) → row_at self.new.rows k ≡ row_at self.old.rows k }
        ensures free { self.new.free ≡ self.old.free }
        ensures whole { Whole self.new }
    {
        self.set_mark(row, true);
    }

    /// Takes the mark from a row. Where it is not in use, nothing changes.
    pub fn unmark(&mut self, row: usize)
        ensures after { self.new.rows ≡ marking self.old.rows row false }
        ensures others { (k : ℕ) → (k ≢ row) → row_at self.new.rows k ≡ row_at self.old.rows k }
        ensures free { self.new.free ≡ self.old.free }
        ensures whole { Whole self.new }
    {
        self.set_mark(row, false);
    }

    /// Sets or takes away the mark of a row that is in use.
    fn set_mark(&mut self, row: usize, mark: bool)
        ensures after { self.new.rows ≡ marking self.old.rows row mark }
        ensures others { (k : ℕ) → (k ≢ row) → row_at self.new.rows k ≡ row_at self.old.rows k }
        ensures free { self.new.free ≡ self.old.free }
        ensures whole { Whole self.new }
    {
        if row < self.count {
            self.rows[row].marked = mark;
        }
    }
}
