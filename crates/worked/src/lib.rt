//! Worked examples of the rules, as facts about the definitions in specs/; no running code.
#![tactic(auto)]

ghost use Rattle.worked.specs.Examples.{WorkedExamples};

/// Each worked example comes out as the table has it.
pub fn worked_examples_hold()
    ensures { WorkedExamples }
{}
