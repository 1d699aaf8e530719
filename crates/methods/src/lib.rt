//! The sampling methods: what each plain design means, as definitions in specs/, and the laws that hold of them.
#![tactic(auto)]

ghost use Rattle.methods.specs.Laws.{SystematicTakes, PivotalPlaysOut, PoissonTakes, SystematicSound, PivotalSound, PoissonSound};

/// The laws of the plain methods stand.
pub fn methods_stand()
    ensures systematic_takes { SystematicTakes }
    ensures pivotal_plays_out { PivotalPlaysOut }
    ensures poisson_takes { PoissonTakes }
    ensures systematic_sound { SystematicSound }
    ensures pivotal_sound { PivotalSound }
    ensures poisson_sound { PoissonSound }
{}
