// One line of a call's refusals, and what a call gives that was refused or not.
ghost use Rattle.std.specs.Prelude.{◌≡◌};
ghost use Rattle.quiet.specs.Verdicts.{refuse_if, settled};

use tables::{Effect, Outcome, Refusal};

// Refused where the test applies.
pub fn refuse_if(hit: bool, why: Refusal) -> Result<(), Refusal>
    ensures { result ≡ refuse_if hit why }
{
    if hit { Err(why) } else { Ok(()) }
}

// What is done, or the refusal and nothing changed.
#[tactic(auto, unfolding(crate::specs::Verdicts::settled))]
pub fn settled(tried: Result<Effect, Refusal>) -> Effect
    ensures { result ≡ settled tried }
{
    tried.unwrap_or_else(|why| changes::unchanged(Outcome::Refused(why)))
}
