// Present values in units: the ledger is the divisor of the discount factor, and every year has a word.

ghost use Rattle.std.specs.Prelude.{true};
ghost use Rattle.std.proofs.Common.{true≢false};
ghost use Rattle.steps.specs.Payment.{rounded};
ghost use Rattle.steps.specs.Fit.{Divides};
ghost use Rattle.spreading.specs.LedgerLaws.{units-small, units-new};

use crate::Ledger;
use division::Divisor;
use sheet::Flow;
use steps::Units;

impl Ledger for Divisor {
    type Amount = Units;

    ghost ready = { Divides };

    ghost counts = { λ _ _. true };

    ghost figure = { λ d. rounded d.by };

    ghost number = { λ v. v.0 };

    fn counts(self, year: u64) -> bool {
        true
    }

    fn paid_once(self, amount: u64, grow: u64, year: u64) -> Units {
        steps::paid_once(amount, grow, self, year)
    }

    fn in_service(self, flow: Flow, amount: Units) -> Units {
        amount.in_service(flow.grow, flow.age, self)
    }

    fn number(amount: Units) -> u64 {
        amount.0
    }

    ghost small = { units-small };

    ghost uncounted = { λ _ _ e. absurd (true≢false e) };

    ghost earlier = { λ _ _ _ _ e. e };

    ghost new = { units-new };
}
