// How a list counts: what a payment adds to the word of its year, and which years have a word.

ghost use Rattle.std.specs.Prelude.{◌≡◌, ℕ, ◌+◌, ◌≤◌, Bool, true, false};
ghost use Rattle.sheet.specs.declared.Flow.{Flow};
ghost use Rattle.steps.specs.Payment.{Payment, year, once};
ghost use Rattle.steps.specs.Fit.{largest_payment};
ghost use Rattle.costing.specs.Arc.{in_year};
ghost use Rattle.spreading.specs.Asks.{Payable, Running};

use sheet::Flow;

pub trait Ledger: Copy {
    // Amounts of one ledger are never added to those of another.
    type Amount: Copy;

    // It can take the payments of a sheet with that discount factor.
    ghost ready: { Self → ℕ → Type 0 };

    // Whether a year has a word.
    ghost counts: { Self → ℕ → Bool };

    // What a payment adds to the word of its year.
    ghost figure: { Self → Payment → ℕ };

    // An amount as the words hold it.
    ghost number: { Self.Amount → ℕ };

    fn counts(self, year: u64) -> bool
        ensures { result ≡ counts self year };

    // An amount paid once, in a year that is counted.
    fn paid_once(self, amount: u64, grow: u64, year: u64) -> Self::Amount
        requires { Payable (ready self) (once amount grow year) × (counts self year ≡ true) }
        ensures { number result ≡ figure self (once amount grow year) };

    // What a flow pays one year later, in service.
    fn in_service(self, flow: Flow, amount: Self::Amount) -> Self::Amount
        requires { Running (ready self) (counts self) (figure self) flow (number amount) }
        ensures { (s y : ℕ) → s ≤ y → counts self (y + 1) ≡ true → number amount ≡ figure self (in_year flow s y 0) → number result ≡ figure self (in_year flow s (y + 1) 0) };

    fn number(amount: Self::Amount) -> u64
        ensures { result ≡ number amount };

    // A payment leaves room in a word for many more.
    ghost small: { (l : Self) (q : Payment) → Payable (ready l) q → q.served ≤ 600 → figure l q ≤ largest_payment };

    // Nothing falls in a year that is not counted, and with a year all earlier ones are counted.
    ghost uncounted: { (l : Self) (q : Payment) → counts l (year q) ≡ false → figure l q ≡ 0 };

    ghost earlier: { (l : Self) (y z : ℕ) → y ≤ z → counts l z ≡ true → counts l y ≡ true };

    // A flow in its first year pays what an amount paid once does.
    ghost new: { (l : Self) (w : Flow) (y : ℕ) → figure l (once w.amount w.grow y) ≡ figure l (in_year w y y 0) };
}
