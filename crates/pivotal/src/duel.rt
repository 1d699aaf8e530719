ghost use Rattle.std.specs.Prelude.{◌≡◌, ◌<◌, ◌≤◌};
ghost use Rattle.methods.specs.PivotalRuns.{duel_ways, pending_after, called_after, short, keeper as keeper_of};

/// A duel that is due: the pending unit holds a, and the called unit holds b.
#[derive(Clone, Copy)]
pub struct Duel {
    pub pending: usize,
    pub a: u32,
    pub b: u32,
    pub total: u32,
    ghost a_short: { a < total },
    ghost b_short: { b < total },
    ghost small: { total ≤ 10240000 },
}

/// What the two units of a duel hold after its throw.
#[derive(Clone, Copy)]
pub struct Left {
    pub pending: u32,
    pub called: u32,
}

impl Duel {
    /// The ways of its throw.
    pub fn ways(&self) -> u32
        ensures { result ≡ duel_ways self.now.total self.now.a self.now.b }
    {
        let sum = self.a + self.b;
        if sum < self.total {
            sum
        } else {
            2 * self.total - sum
        }
    }

    /// What the pending unit and the called one hold after the throw d.
    pub fn left(&self, d: u32) -> Left
        ensures pending { result.pending ≡ pending_after self.now.total self.now.a self.now.b d }
        ensures called { result.called ≡ called_after self.now.total self.now.a self.now.b d }
    {
        let sum = self.a + self.b;
        let (pending, called) = if sum < self.total {
            if d < self.a { (sum, 0) } else { (0, sum) }
        } else if d < self.total - self.b {
            (self.total, sum - self.total)
        } else {
            (sum - self.total, self.total)
        };
        Left { pending, called }
    }

    /// Which of its two units is pending after a duel that leaves them so much.
    pub fn keeper(&self, called: usize, left: Left) -> Option<usize>
        ensures { result ≡ keeper_of self.now.total self.now.pending called left.pending left.called }
    {
        if holds_part(left.pending, self.total) {
            Some(self.pending)
        } else if holds_part(left.called, self.total) {
            Some(called)
        } else {
            None
        }
    }
}

// Whether a unit holds something, and not all.
fn holds_part(x: u32, total: u32) -> bool
    ensures { result ≡ short total x }
{
    0 < x && x < total
}
