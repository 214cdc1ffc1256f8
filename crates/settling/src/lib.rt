// Settling: which dockets wait, and how they move the book.
#![tactic(auto)]

ghost use Rattle.std.specs.Prelude.{◌≡◌, ◌<◌, ◌≤◌, true, not, replicate, is_some, nat_le};
ghost use Rattle.std.specs.Bool.{then_some};
ghost use Rattle.std.specs.Option.{unwrap_or, option_map};
ghost use Rattle.settling.specs.Window.{fresh, cell, waiting, placed, advanced, account_of, stored, advanced_in};
ghost use Rattle.settling.specs.Books.{Level, Moved, covered_in, uncovered_in, ready_in, lowest_in, all_settled_in, NoneSettles};

pub mod account;
pub mod accounts;

pub use account::Account;
pub use accounts::Accounts;
use book::Book;
use docket::Docket;

impl Account {
    pub fn new() -> Account
        ensures { result ≡ fresh }
    {
        Account {
            next: 1,
            cells: [None; 4],
        }
    }

    // What lies in the cell of a number.
    pub fn cell(&self, number: u64) -> Option<Docket>
        ensures { result ≡ cell self.now number }
    {
        self.cells[(number % 4) as usize]
    }

    // The docket that waits under a number.
    pub fn waiting(&self, number: u64) -> Option<Docket>
        ensures { result ≡ waiting self.now number }
    {
        match self.cell(number) {
            Some(docket) if docket.number == number => Some(docket),
            _ => None,
        }
    }

    // The account with a docket in its cell.
    fn with(mut self, docket: Docket) -> Account
        ensures { result ≡ placed self docket }
    {
        self.cells[(docket.number % 4) as usize] = Some(docket);
        self
    }

    // The account once the docket at its next number has settled.
    fn advanced(mut self) -> Account
        requires { self.next ≤ 1099511627776 }
        ensures { result ≡ advanced self }
    {
        self.cells[(self.next % 4) as usize] = None;
        self.next += 1;
        self
    }
}

impl Accounts {
    pub fn new() -> Accounts
        ensures { result.rows ≡ replicate 64 fresh }
    {
        Accounts {
            rows: [Account::new(); 64],
        }
    }

    // An account; one above 63 is as every account starts.
    pub fn get(&self, account: u8) -> Account
        ensures { result ≡ account_of self.now.rows account }
    {
        let account = self.rows.get(account as usize);
        account.copied().unwrap_or(Account::new())
    }

    // Puts a docket into its cell; false, and nothing changed, where its number is none that a docket may have.
    pub fn put(&mut self, docket: Docket) -> bool
        ensures answer { result ≡ nat_le docket.number 1099511627776 }
        ensures rows { self.new.rows ≡ stored self.old.rows docket }
    {
        if docket.number > 1 << 40 {
            return false;
        }
        // by its index: `get_mut` was tried, and the clause did not close, since of what it lends a proof knows nothing
        let account = self.get(docket.account).with(docket);
        let at = docket.account as usize;
        if at < 64 {
            self.rows[at] = account;
        }
        true
    }

    // The docket at the account's next number has settled.
    fn advance(&mut self, account: u8)
        requires within { account < 64 }
        requires due { is_some (waiting (account_of self.old.rows account) (account_of self.old.rows account).next) ≡ true }
        ensures { self.new.rows ≡ advanced_in self.old.rows account }
    {
        let advanced = self.get(account).advanced();
        self.rows[account as usize] = advanced;
    }
}

// Makes a docket's lines in the book, one after another, until one is not valid: its index. There is none where the
// docket is covered. What the book keeps stays. A loop, since of what a `position` leaves whose closure changes the
// book, a proof knows only that its calls ran, and an invariant on what it changes would be no plainer.
#[tactic(auto, unfolding(crate::specs::Settle::uncovered))]
pub fn apply_lines<B: Book>(book: &mut B, docket: &Docket) -> Option<usize>
    ensures answer { result ≡ uncovered_in B.Book book.old docket.now }
    ensures covers { covered_in B.Book book.old docket.now ≡ then_some (not (is_some result)) (B.current book.new) }
    ensures kept { B.kept book.new ≡ B.kept book.old }
    ensures opening { B.opening book.new ≡ B.opening book.old }
{
    let lines = docket.used_lines();
    for (i, line) in lines.iter().enumerate() {
        if !book.apply(docket.account, line) {
            return Some(i);
        }
    }
    None
}

// A covered docket's lines are made and kept; else the book goes back to where it was.
fn attempt<B: Book>(book: &mut B, docket: &Docket) -> bool
    requires { Level B.Book book.old }
    ensures answer { result ≡ is_some (covered_in B.Book book.old docket.now) }
    ensures book { Moved B.Book book.old book.new (unwrap_or (covered_in B.Book book.old docket.now) (B.current book.old)) }
{
    match apply_lines(book, docket) {
        None => {
            book.keep();
            true
        }
        Some(_) => {
            book.back();
            false
        }
    }
}

// Tries the docket that waits at an account's next number.
fn attempt_due<B: Book>(book: &mut B, account: &Account) -> bool
    requires { Level B.Book book.old }
    ensures answer { result ≡ is_some (ready_in B.Book book.old account.now) }
    ensures book { Moved B.Book book.old book.new (unwrap_or (ready_in B.Book book.old account.now) (B.current book.old)) }
{
    match account.waiting(account.next) {
        Some(docket) => attempt(book, &docket),
        None => false,
    }
}

// Settles the docket at the next number of the lowest account where one waits and is covered, in the book alone. A loop
// for the same reason.
fn attempt_lowest<B: Book>(book: &mut B, rows: &[Account; 64]) -> Option<u8>
    requires { Level B.Book book.old }
    ensures answer { result ≡ option_map (λ x. x.0) (lowest_in B.Book book.old rows.now) }
    ensures book { Moved B.Book book.old book.new (unwrap_or (option_map (λ x. x.1) (lowest_in B.Book book.old rows.now)) (B.current book.old)) }
{
    for (i, account) in rows.iter().enumerate() {
        if attempt_due(book, account) {
            return Some(i as u8);
        }
    }
    None
}

// Settles what can settle: while some account's docket at its next number waits and is covered, that of the lowest
// such account. The answer is how many did; none that waits can settle then.
pub fn settle<B: Book>(book: &mut B, accounts: &mut Accounts) -> u32
    ensures answer { result ≡ (all_settled_in B.Book book.old accounts.old.rows).0 }
    ensures book { Moved B.Book book.old book.new (all_settled_in B.Book book.old accounts.old.rows).1.state }
    ensures accounts { accounts.new.rows ≡ (all_settled_in B.Book book.old accounts.old.rows).1.accounts }
    ensures done { NoneSettles B.Book book.new accounts.new.rows }
{
    book.keep();
    let mut count = 0;
    // each turn changes what the next one looks at, so there is nothing to go over
    'settling: while let Some(account) = attempt_lowest(book, &accounts.rows) {
        accounts.advance(account);
        count += 1;
    }
    count
}
