ghost use Rattle.std.specs.Prelude.{◌≡◌, IfOk};
ghost use Rattle.design.specs.Faults.{told};
ghost use Rattle.plain_survey.specs.Calls.{start_answer, start_after, draw_answer, draw_after};
ghost use Rattle.plain_survey.specs.Laws.{FairStart};
ghost use Rattle.survey.specs.Means.{ComesTo, FewWays, Follows, Tells, plans, words};

use crate::survey::Survey;
use design::design::Design;
use design::fault::{Fault, Reason};
use design::row::Row;
use throws::source::Source;
use throws::throw::throw;

impl<D: Design, S: Source> Survey<D, S> {
    /// Begins the design on a list, and works out its scale and weights. Refused with the design's fault, then 22 (scale above 1,000,000)
    /// or 23 (first row with a weight above 10^9), and then no run stands.
    pub fn start(&mut self, list: &[Row], n: u32) -> Result<(), Fault>
        ensures answer { told result ≡ start_answer (plans D.Design self.old list.now n) list.now }
        ensures after { ComesTo D.Design S.Source self.old self.new (start_after (plans D.Design self.old list.now n) list.now n (words S.Source self.old)) }
        ensures fair { IfOk result (λ _. FairStart (plans D.Design self.old list.now n) list.now) }
        ensures settings { plans D.Design self.new ≡ plans D.Design self.old }
    {
        self.running = false;
        self.design.begin(list, n)?;
        self.weights.set_for(&self.design, list.len() as u32)?;
        self.running = true;
        Ok(())
    }

    /// Makes one throw with the present ways, and goes on to that subtree. Refused with 17 where there is no way; or dry with 21, and then
    /// no word is left, and the tree stays.
    pub fn draw(&mut self) -> Result<(), Fault>
        ensures answer { Tells D.Design S.Source self.old result draw_answer }
        ensures after { Follows D.Design S.Source self.old self.new draw_after }
        ensures few_ways { FewWays D.Design S.Source self.old }
        ensures settings { plans D.Design self.new ≡ plans D.Design self.old }
    {
        let ways = self.ways();
        if ways == 0 {
            return Err(Fault::of(Reason::NoWays));
        }
        let d = throw(&mut self.source, ways)?;
        self.design.step(d)
    }
}
