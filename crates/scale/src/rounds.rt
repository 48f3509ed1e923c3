//! What is left of an order's rounds. Each pass of a loop, and each call of a function by itself, is to spend one.
ghost use Rattle.std.specs.Prelude.{◌≡◌, ◌+◌, ◌<◌, ◌≤◌};

/// It can't be copied, and no method raises it. Whoever spends a round proves that one is left.
// It has no model, which would hide from callers that there are few.
#[derive(Debug, Drop)]
pub struct Rounds {
    left: u32,
    ghost few: { left ≤ 4096 },
}

impl Rounds {
    ghost use Rattle.scale.specs.Rounds.{left_of};

    /// All rounds of an order.
    pub fn new() -> Rounds
        ensures { left_of result ≡ 4096 }
    {
        Rounds { left: 4096 }
    }

    /// Spends one.
    pub fn spend(&mut self)
        requires { 0 < left_of self.old }
        ensures { left_of self.new + 1 ≡ left_of self.old }
    {
        self.left -= 1;
    }
}
