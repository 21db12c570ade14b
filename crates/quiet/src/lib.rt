// The quiet calls, which send no message and deliver none: start, new, set, bind and bound, each equal to its rule for all states and all numbers;
// and what every call goes by, the verdict and the first lines of its refusals. A call is tried first (`try_set` and so on), which gives what it does
// or the first refusal that applies; its reply is the state with that done in it.
// The public calls are alike but for what tries them: one function over a closure would be no shorter, and would stand between a call and its rule.
#![tactic(auto)]

ghost use Rattle.std.specs.Prelude.{◌≡◌};
ghost use Rattle.tables.specs.Machine.{eight, tables};
ghost use Rattle.rules.specs.Answers.{made, reply};
ghost use Rattle.rules.specs.Calls.{start, new, set, bind, bound};
ghost use Rattle.quiet.specs.Verdicts.{settled};

pub mod refusals;
pub mod verdict;

use refusals::{bind_refusals, cell_refusals, state_refusal, worker_refusals};
use tables::{Effect, LAST_CALLER, Outcome, Refusal, Reply, State, WORKERS};
use verdict::{refuse_if, settled};

// P workers, all free.
#[tactic(auto, unfolding(rules::specs::Calls::start))]
pub fn start(p: u8) -> Reply
    ensures { result ≡ reply (start eight p) }
{
    if p == 0 || WORKERS < p {
        let refused = changes::unchanged(Outcome::Refused(Refusal::WorkerCount));
        return changes::replied(changes::all_free(0), refused);
    }
    changes::replied(changes::all_free(p), changes::unchanged(Outcome::Done(0)))
}

// The lowest free cell becomes a VAR of this caller.
pub fn new(s: State, w: u8, caller: u32) -> Reply
    ensures { result ≡ reply (made eight (tables s) (new eight (tables s) w caller)) }
{
    let tried = try_new(&s, w, caller);
    changes::replied(s, settled(tried))
}

#[tactic(auto, unfolding(crate::specs::Verdicts::settled, crate::specs::Verdicts::first_hit, rules::specs::Calls::new, rules::specs::Answers::checked))]
fn try_new(s: &State, w: u8, caller: u32) -> Result<Effect, Refusal>
    ensures { settled result ≡ new eight (tables s.now) w caller }
{
    worker_refusals(sound::is_sound(s), s.p, w)?;
    refuse_if(LAST_CALLER < caller, Refusal::NoCaller)?;
    let full = searches::free_cells(&s.cells, w) <= searches::booked(&s.slots, w);
    refuse_if(full, Refusal::NoRoom)?;
    let c = searches::lowest_free_cell(&s.cells, w);
    Ok(changes::with_cell(Outcome::Done(c as u32), w, c, changes::variable(caller)))
}

// VAR becomes VAL(n), and keeps its caller.
pub fn set(s: State, w: u8, c: u8, n: u32) -> Reply
    ensures { result ≡ reply (made eight (tables s) (set eight (tables s) w c n)) }
{
    let tried = try_set(&s, w, c, n);
    changes::replied(s, settled(tried))
}

#[tactic(auto, unfolding(crate::specs::Verdicts::settled, crate::specs::Verdicts::first_hit, rules::specs::Calls::set, rules::specs::Answers::checked))]
fn try_set(s: &State, w: u8, c: u8, n: u32) -> Result<Effect, Refusal>
    ensures { settled result ≡ set eight (tables s.now) w c n }
{
    let k = lookups::cell_at(&s.cells, w, c);
    cell_refusals(sound::is_sound(s), s.p, w, k)?;
    refuse_if(!parts::is_var(k), Refusal::WrongKind)?;
    Ok(changes::with_cell(Outcome::Done(0), w, c, changes::valued(n, k)))
}

// The VAR c becomes a REF to the end of x, an EX, and loses its caller; where the EX is known, a VAL with the known value that keeps it.
pub fn bind(s: State, w: u8, c: u8, x: u8) -> Reply
    ensures { result ≡ reply (made eight (tables s) (bind eight (tables s) w c x)) }
{
    let tried = try_bind(&s, w, c, x);
    changes::replied(s, settled(tried))
}

#[tactic(auto, using(crate::specs::Verdicts::refused, crate::specs::Verdicts::passed), unfolding(rules::specs::Calls::bind))]
fn try_bind(s: &State, w: u8, c: u8, x: u8) -> Result<Effect, Refusal>
    ensures { settled result ≡ bind eight (tables s.now) w c x }
{
    let k = lookups::cell_at(&s.cells, w, c);
    let other = lookups::see(&s.cells, w, x);
    let exported = searches::is_exported(&s.entries, w, c);
    let safe = lookups::is_safe(&s.entries, w, other.ending);
    bind_refusals(sound::is_sound(s), s.p, w, k, other, exported, safe)?;
    let bound = changes::bound_to(other.end, k, other.ending);
    Ok(changes::with_cell(Outcome::Done(0), w, c, bound))
}

// B: no more deliveries than this can succeed.
pub fn bound(s: State) -> Reply
    ensures { result ≡ reply (made eight (tables s) (bound eight (tables s))) }
{
    let tried = try_bound(&s);
    changes::replied(s, settled(tried))
}

#[tactic(auto, unfolding(crate::specs::Verdicts::settled, crate::specs::Verdicts::first_hit, rules::specs::Calls::bound, rules::specs::Answers::checked))]
fn try_bound(s: &State) -> Result<Effect, Refusal>
    ensures { settled result ≡ bound eight (tables s.now) }
{
    state_refusal(sound::is_sound(s))?;
    let b = changes::all_costs(&s.entries, &s.slots);
    Ok(changes::unchanged(Outcome::Done(b)))
}
