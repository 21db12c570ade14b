// W-202, the cost report: what a list of charges comes to for each caller, of any state and any list.
#![tactic(auto)]

ghost use Rattle.std.specs.Prelude.{◌≡◌, ◌+◌, ◌+ℤ◌, cond};
ghost use Rattle.std.specs.Int.{w64};
ghost use Rattle.std.proofs.Common.{SFits};
ghost use Rattle.tables.specs.Machine.{eight, tables};
ghost use Rattle.rules.specs.Answers.{succeeds};
ghost use Rattle.rules.specs.Refusals.{report_lines};
ghost use Rattle.quiet.specs.Verdicts.{first_hit};
ghost use Rattle.reports.specs.Report.{reported, report};
ghost use Rattle.reports.specs.Charging.{payer_in, opened_of, charged_one, finished_of, count, Within};

use quiet::refusals::state_refusal;
use quiet::verdict::refuse_if;
use tables::{ALL_CELLS, CELL_ROW, CELLS, Outcome, Refusal, State, WORKERS};

// How many callers there are, and how many charges a list may have.
pub const CALLERS: usize = payers::NOBODY as usize;

pub const MOST_CHARGES: usize = 65535;

// What a worker's work in a cell cost; a correction is negative.
#[derive(Clone, Copy)]
pub struct Charge {
    pub worker: u8,
    pub cell: u8,
    pub amount: i32,
}

// Done or refused; each caller's total, the unplaced total; how many charges were placed, and how many were not, which are missed.
#[derive(Drop)]
pub struct CostReport {
    pub outcome: Outcome,
    pub totals: [i64; CALLERS],
    pub unplaced: i64,
    pub placed: u32,
    pub missed: u32,
}

// A report that is being made, beside who pays for each cell. The report's fields stand here once more, since the definitions take the books apart
// (`gained`, `finished_of`).
#[derive(Clone, Copy)]
pub struct Books {
    pub outcome: Outcome,
    pub payers: [Option<u8>; ALL_CELLS],
    pub totals: [i64; CALLERS],
    pub unplaced: i64,
    pub placed: u32,
    pub missed: u32,
}

// What the books have come to.
impl From<Books> for CostReport {
    ghost from_gives = { λ b r. r ≡ finished_of b };

    fn from(b: Books) -> CostReport {
        let Books {
            outcome,
            totals,
            unplaced,
            placed,
            missed,
            ..
        } = b;
        CostReport {
            outcome,
            totals,
            unplaced,
            placed,
            missed,
        }
    }
}

// 2 and 17, of a report on n charges.
#[tactic(auto, unfolding(quiet::specs::Verdicts::first_hit))]
fn report_refusals(sound: bool, n: usize) -> Result<(), Refusal>
    ensures { result ≡ first_hit (report_lines sound n) }
{
    state_refusal(sound)?;
    refuse_if(MOST_CHARGES < n, Refusal::TooManyCharges)
}

// The outcome of a report on n charges.
#[tactic(auto, unfolding(quiet::specs::Verdicts::first_hit, rules::specs::Answers::checked))]
fn reported(s: &State, n: usize) -> Outcome
    ensures { result ≡ reported eight (tables s.now) n }
{
    match report_refusals(sound::is_sound(s), n) {
        Ok(()) => Outcome::Done(0),
        Err(why) => Outcome::Refused(why),
    }
}

// How many of n charges are taken: all, or none where the report is refused, by the outcome, which the books hold.
fn taken(outcome: Outcome, n: usize) -> usize
    ensures { result ≡ cond (succeeds outcome) n 0 }
{
    match outcome {
        Outcome::Refused(_) => 0,
        _ => n,
    }
}

// A total that gains an amount, widened.
fn plus(total: i64, amount: i32) -> i64
    requires { SFits w64 (total +ℤ amount) }
    ensures { result ≡ total +ℤ amount }
{
    total + i64::from(amount)
}

// Who pays for a charge's cell, by the table.
#[tactic(auto, unfolding(crate::specs::Charging::payer_in))]
fn payer_in(payers: &[Option<u8>; ALL_CELLS], c: Charge) -> Option<u8>
    ensures { result ≡ payer_in eight payers.now c }
{
    if c.worker < WORKERS && c.cell < CELLS {
        payers[c.worker as usize * CELL_ROW + c.cell as usize]
    } else {
        None
    }
}

impl Books {
    // For n charges, before the first.
    fn open(s: &State, n: usize) -> Books
        ensures { result ≡ opened_of eight (tables s.now) n }
    {
        Books {
            outcome: reported(s, n),
            payers: payers::payers_of(s),
            totals: [0; CALLERS],
            unplaced: 0,
            placed: 0,
            missed: 0,
        }
    }

    // One charge more: its payer's total gains the amount, or the unplaced one. By value, the form that document 01 names for this step.
    fn charged(mut self, c: Charge) -> Books
        requires { Within self 65534 }
        ensures value { result ≡ charged_one eight self c }
        ensures within { Within result (count self + 1) }
    {
        if let Some(who) = payer_in(&self.payers, c) {
            let total = &mut self.totals[who as usize];
            *total = plus(*total, c.amount);
            self.placed += 1;
        } else {
            self.unplaced = plus(self.unplaced, c.amount);
            self.missed += 1;
        }
        self
    }
}

// What the charges come to for each caller, or why they are refused: 2, then 17.
pub fn report(s: State, charges: &[Charge]) -> CostReport
    ensures { result ≡ report eight (tables s) charges.now }
{
    let mut books = Books::open(&s, charges.len());
    let n = taken(books.outcome, charges.len());
    for c in &charges[..n] {
        books = books.charged(*c);
    }
    CostReport::from(books)
}
