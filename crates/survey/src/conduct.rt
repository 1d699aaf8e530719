ghost use Rattle.std.specs.Prelude.{◌≡◌, length, IfOk, OnErr};
ghost use Rattle.survey.specs.Conducting.{EachObeys, ListObeys, Obeys, answered, placed, unanswered};
ghost use Rattle.survey.specs.Means.{plans};

use crate::ledger::Ledger;
use crate::survey::Survey;
use design::design::Design;
use plain_survey::call::{Answer, Call};
use std::alloc::{AllocError, Global};
use throws::source::Source;

impl<D: Design, S: Source> Survey<D, S> {
    /// Makes one call, with the caller's totals, and answers as that call does, refusals too.
    pub fn ask<Q, L: Ledger<Q>>(&mut self, call: &Call<'_, Q>, ledger: &mut L) -> Answer
        ensures { Obeys D.Design S.Source L.Ledger call.now result self.old ledger.old self.new ledger.new }
    {
        match call {
            Call::Start(list, n) => Answer::Started(self.start(list, *n)),
            Call::Draw => Answer::Drawn(self.draw()),
            Call::Taken(k) => Answer::Taken(self.taken(*k)),
            Call::Share(k) => Answer::Shared(self.share(*k)),
            Call::Report(request) => Answer::Reported(ledger.report_by(self, request)),
            Call::Stop => {
                self.stop();
                Answer::Stopped
            }
        }
    }

    /// Makes the calls of a list that have a place, one after another, with the caller's totals, and puts what each answers in its place.
    /// Places beyond the last call stay as they are. It needs no memory.
    pub fn conduct_into<Q, L: Ledger<Q>>(
        &mut self,
        calls: &[Call<'_, Q>],
        answers: &mut [Answer],
        ledger: &mut L,
    )
        ensures each { EachObeys D.Design S.Source L.Ledger (placed calls.now answers.old) (answered calls.now answers.new) self.old ledger.old self.new ledger.new }
        ensures all { ListObeys D.Design S.Source L.Ledger (placed calls.now answers.old) (answered calls.now answers.new) self.old ledger.old self.new ledger.new }
        ensures others { unanswered calls.now answers.new ≡ unanswered calls.now answers.old }
        ensures settings { plans D.Design self.new ≡ plans D.Design self.old }
        ensures len { length answers.new ≡ length answers.old }
    {
        let placed = &calls[..calls.len().min(answers.len())];
        for (i, call) in placed.iter().enumerate() {
            answers[i] = self.ask(call, ledger);
        }
    }

    /// The same, in a list of answers, the memory for which is had before the first call is made.
    pub fn conduct<Q, L: Ledger<Q>>(
        &mut self,
        heap: Global,
        calls: &[Call<'_, Q>],
        ledger: &mut L,
    ) -> Result<Vec<Answer>, AllocError>
        ensures each { IfOk result (λ answers. EachObeys D.Design S.Source L.Ledger calls.now answers.items self.old ledger.old self.new ledger.new) }
        ensures all { IfOk result (λ answers. ListObeys D.Design S.Source L.Ledger calls.now answers.items self.old ledger.old self.new ledger.new) }
        ensures settings { plans D.Design self.new ≡ plans D.Design self.old }
        ensures no_memory { OnErr result ((self.new ≡ self.old) × (ledger.new ≡ ledger.old)) }
    {
        let mut answers = Vec::new(heap);
        answers.resize(calls.len(), Answer::Stopped)?;
        self.conduct_into(calls, &mut answers, ledger);
        Ok(answers)
    }
}
