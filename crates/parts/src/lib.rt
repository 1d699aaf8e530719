//! Parts of a list, and a design's trees over them one after another: definitions in specs/, and their laws.
#![tactic(auto)]

ghost use Rattle.parts.specs.Laws.{PartsAreRuns, SeriesRoads, SeriesFair, StagesFair};

/// The laws of parts and of series of trees stand.
pub fn parts_stand()
    ensures parts_are_runs { PartsAreRuns }
    ensures series_roads { SeriesRoads }
    ensures series_fair { SeriesFair }
    ensures stages_fair { StagesFair }
{}
