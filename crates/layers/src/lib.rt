//! The layers over any designs, stratification and two-stage drawing: definitions in specs/, and their laws.
#![tactic(auto)]

ghost use Rattle.layers.specs.Laws.{StratifiedSound, TwoStageSound};

/// The plans of the layers are sound wherever those of the designs below are.
pub fn layers_stand()
    ensures stratified_sound { StratifiedSound }
    ensures two_stage_sound { TwoStageSound }
{}
