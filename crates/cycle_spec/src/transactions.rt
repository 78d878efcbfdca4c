//! The step of a channel's transactions in a cycle, for the core and for the engine.
ghost use Rattle.std.specs.Prelude.{◌≡◌, ◌<◌, ◌+◌, ◌^◌, Option, Some, None};
ghost use Rattle.cycle_spec.specs.Turns as spec;
ghost use Rattle.cycle_spec.specs.Counts.{CanCountOn};

use crate::turn::{Transaction, Transactions, Turn};

/// No transaction began yet.
pub const NO_TRANSACTIONS: Transactions = Transactions {
    waiting: None,
    begun: 0,
};

/// The turn of a cycle that is for an owner.
pub fn turn_of(transactions: Transactions, owner: u64) -> Turn
    ensures turn { result ≡ spec.turn_of transactions owner }
    ensures age { CanCountOn transactions → result.age < 2 ^ 63 }
{
    match transactions.waiting {
        Some(waiting) if waiting.owner == owner => waiting.turn,
        _ => Turn {
            number: transactions.begun,
            age: 0,
        },
    }
}

/// The transactions after a cycle: whom the channel was for, if its valid is 1, and its ready.
pub fn transactions_after(
    transactions: Transactions,
    owner: Option<u64>,
    ready: bool,
) -> Transactions
    requires { CanCountOn transactions }
    ensures { result ≡ spec.transactions_after transactions owner ready }
{
    match owner {
        None => Transactions {
            waiting: None,
            ..transactions
        },
        Some(owner) => transactions_with(transactions, owner, ready),
    }
}

/// The same after a cycle in which the channel's valid is 1.
fn transactions_with(transactions: Transactions, owner: u64, ready: bool) -> Transactions
    requires { CanCountOn transactions }
    ensures { result ≡ spec.transactions_with transactions owner ready }
{
    let turn = turn_of(transactions, owner);
    Transactions {
        waiting: if ready {
            None
        } else {
            Some(Transaction {
                owner,
                turn: aged(turn),
            })
        },
        begun: begun_with(transactions, owner),
    }
}

fn aged(turn: Turn) -> Turn
    requires { turn.age < 2 ^ 63 }
    ensures { result ≡ spec.aged turn }
{
    Turn {
        age: turn.age + 1,
        ..turn
    }
}

fn begun_with(transactions: Transactions, owner: u64) -> u64
    requires { transactions.begun < 2 ^ 63 }
    ensures { result ≡ spec.begun_in transactions.waiting transactions.begun owner }
{
    match transactions.waiting {
        Some(waiting) if waiting.owner == owner => transactions.begun,
        _ => transactions.begun + 1,
    }
}
