// Money of the year in cents: a word for each year up to the last. Later cents would not fit in 64 bits in the end.

ghost use Rattle.std.specs.Prelude.{leb};
ghost use Rattle.spreading.specs.Raised.{in_money};
ghost use Rattle.spreading.specs.Asks.{MoneyFits};
ghost use Rattle.spreading.specs.LedgerLaws.{cents-small, cents-uncounted, cents-earlier, cents-new};

use crate::{Ledger, Money};
use nominal::Cents;
use sheet::Flow;

impl Ledger for Money {
    type Amount = Cents;

    ghost ready = { λ m _. MoneyFits m };

    ghost counts = { λ m y. leb y m.last };

    ghost figure = { in_money };

    ghost number = { λ v. v.0 };

    fn counts(self, year: u64) -> bool {
        year <= self.last
    }

    fn paid_once(self, amount: u64, grow: u64, year: u64) -> Cents {
        nominal::paid_once(amount, grow, self.general, year)
    }

    fn in_service(self, flow: Flow, amount: Cents) -> Cents {
        amount.in_service(self.general, flow.grow, flow.age)
    }

    fn number(amount: Cents) -> u64 {
        amount.0
    }

    ghost small = { λ m q h _. cents-small m q h };

    ghost uncounted = { cents-uncounted };

    ghost earlier = { cents-earlier };

    ghost new = { cents-new };
}
