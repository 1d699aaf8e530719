//! A survey over any design and any source: it is at any time what the plain survey is.
#![tactic(auto)]

ghost use Rattle.survey.specs.Means.{AllMeanSome};

use design::design::Design;
use throws::source::Source;

mod adding;
mod conduct;
pub mod ledger;
mod questions;
mod run;
pub mod survey;

/// Every survey means some state of the plain survey, so that what a call promises of each of these states is promised of one at least.
pub fn surveys_stand<D: Design, S: Source>()
    ensures { AllMeanSome D.Design S.Source }
{}
