//! The plain survey: the calls of a survey as data, and in specs/ what each answers and leaves by the rules alone, with the laws of it.
#![tactic(auto)]

ghost use Rattle.plain_survey.specs.Laws.{EachEntryAdded, InEveryExactly};

pub mod call;
pub mod either;

/// Laws above two definitions of the plain survey: what taken asks of a tree, and what is added up in a report.
pub fn plain_survey_stands()
    ensures in_every_exactly { InEveryExactly }
    ensures each_entry_added { EachEntryAdded }
{}
