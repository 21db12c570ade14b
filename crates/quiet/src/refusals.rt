// The first lines of the table of refusal numbers, as a call tests them in their order on what it has looked up. What they are
// given comes apart, as the lines of the rules have it (`worker_lines is_sound p w`).
ghost use Rattle.std.specs.Prelude.{◌≡◌, [], ◌∷◌};
ghost use Rattle.rules.specs.Refusals.{not_sound, worker_lines, cell_lines, bind_lines};
ghost use Rattle.quiet.specs.Verdicts.{first_hit};

use super::verdict::refuse_if;
use lookups::Seen;
use tables::{Kind, Refusal};

// 2, of any call but start, in a state that is sound or not.
#[tactic(auto, unfolding(crate::specs::Verdicts::first_hit))]
pub fn state_refusal(sound: bool) -> Result<(), Refusal>
    ensures { result ≡ first_hit (not_sound sound ∷ []) }
{
    refuse_if(!sound, Refusal::NotSound)
}

// 2 and 3, of a call on worker w of p.
#[tactic(auto, unfolding(crate::specs::Verdicts::first_hit))]
pub fn worker_refusals(sound: bool, p: u8, w: u8) -> Result<(), Refusal>
    ensures { result ≡ first_hit (worker_lines sound p w) }
{
    state_refusal(sound)?;
    refuse_if(p <= w, Refusal::NoWorker)
}

// 2, 3 and 5, of a call on a cell of worker w that holds k.
#[tactic(auto, unfolding(crate::specs::Verdicts::first_hit))]
pub fn cell_refusals(sound: bool, p: u8, w: u8, k: Kind) -> Result<(), Refusal>
    ensures { result ≡ first_hit (cell_lines sound p w k) }
{
    worker_refusals(sound, p, w)?;
    refuse_if(parts::is_free(k), Refusal::NoCell)
}

// What bind tests of k, what c holds, and of x and its end; of c whether it has a live entry, and of an EX that is not known whether it is safe.
#[tactic(auto, unfolding(crate::specs::Verdicts::first_hit))]
pub fn bind_refusals(
    sound: bool,
    p: u8,
    w: u8,
    k: Kind,
    x: Seen,
    exported: bool,
    safe: bool,
) -> Result<(), Refusal>
    ensures { result ≡ first_hit (bind_lines sound p w k x.kind x.ending exported safe) }
{
    let ex = x.ending;
    cell_refusals(sound, p, w, k)?;
    refuse_if(parts::is_free(x.kind), Refusal::NoCell)?;
    refuse_if(!parts::is_var(k), Refusal::WrongKind)?;
    refuse_if(!parts::is_ex(ex), Refusal::WrongKind)?;
    refuse_if(!parts::is_known(ex) && exported && !safe, Refusal::Unsafe)
}
