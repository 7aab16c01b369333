ghost use Rattle.std.specs.Prelude.{◌≡◌, ◌<◌, ◌↔◌, IsTrue};
ghost use Rattle.pip_outside.specs.Plans.{first_plan, FailsNext, after_call};

use std::marker::Model;

// Which calls fail, and how many bytes each of the others moves at most.
#[derive(Drop)]
pub(crate) struct Plan {
    piece: usize,
    fails: Vec<u64>,
    calls: u64,
}

impl Model for Plan {
    ghost use Rattle.std.specs.Prelude.{◌<◌};
    ghost use Rattle.pip_outside.specs.Plans.{CallPlan};

    ghost Value = { CallPlan };

    ghost view = { λ p. record { piece = p.piece; fails = p.fails.items; call = p.calls } };

    ghost invariant = { λ p. 0 < p.piece };
}

impl Plan {
    pub(crate) fn new(piece: usize, fails: Vec<u64>) -> Plan
        requires { 0 < piece }
        ensures { result ≡ first_plan piece fails.items }
    {
        Plan {
            piece,
            fails,
            calls: 0,
        }
    }

    pub(crate) fn piece(&self) -> usize
        ensures value { result ≡ self.now.piece }
        ensures positive { 0 < result }
    {
        self.piece
    }

    // Counts a call, and says whether it is one that fails.
    pub(crate) fn fails_next(&mut self) -> bool
        ensures fails { IsTrue result ↔ FailsNext self.old }
        ensures counted { self.new ≡ after_call self.old }
    {
        let call = self.calls;
        self.calls = call.saturating_add(1);
        self.fails.contains(&call)
    }
}
