//! Trees of outcomes: what a design means, with exact whole-number weights.
//! The definitions are in specs/; the function below has the gate ask for their laws.
#![tactic(auto)]

ghost use Rattle.outcomes.specs.Laws.{Positive, Martingale, Certain, Sequence, Averages, AveragesListed, Counting, Listed, Reached, EquallyLikely, RoadByRoad};

/// The laws of trees of outcomes stand.
pub fn laws_stand()
    ensures positive { Positive }
    ensures martingale { Martingale }
    ensures certain { Certain }
    ensures sequence { Sequence }
    ensures averages { Averages }
    ensures averages_listed { AveragesListed }
    ensures counting { Counting }
    ensures listed { Listed }
    ensures reached { Reached }
    ensures equally_likely { EquallyLikely }
    ensures road_by_road { RoadByRoad }
{}
