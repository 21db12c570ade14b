// Any of the twelve calls: the step that takes a call apart.
#![tactic(auto)]

ghost use Rattle.std.specs.Prelude.{◌≡◌};
ghost use Rattle.tables.specs.Machine.{eight, tables};
ghost use Rattle.rules.specs.Answers.{reply};
ghost use Rattle.rules.specs.Step.{step};

use deliveries::deliver;
use quiet::{bind, bound, new, set, start};
use sending::{ask, drop, export, indirect, read, transfer};
use tables::{Call, Reply, State};

// Any of the twelve.
#[tactic(auto, unfolding(rules::specs::Step::step))]
pub fn step(s: State, q: Call) -> Reply
    ensures { result ≡ reply (step eight (tables s) q) }
{
    match q {
        Call::Start { p } => start(p),
        Call::New { w, caller } => new(s, w, caller),
        Call::Set { w, c, n } => set(s, w, c, n),
        Call::Bind { w, c, x } => bind(s, w, c, x),
        Call::Export { w, c, to } => export(s, w, c, to),
        Call::Indirect { w, c, to } => indirect(s, w, c, to),
        Call::Transfer { w, c, to } => transfer(s, w, c, to),
        Call::Drop { w, c } => drop(s, w, c),
        Call::ReadCell { w, c } => read(s, w, c),
        Call::AskWeight { w, c } => ask(s, w, c),
        Call::Deliver { slot } => deliver(s, slot),
        Call::Bound => bound(s),
    }
}
