ghost use Rattle.std.specs.Prelude.{◌≡◌};
ghost use Rattle.vk_keeper.specs.Turns.{AfterGet, AfterPut};

use std::marker::Model;

/// Counts the calls of a keeper from 1 on, and has the number of the last `get`. Both numbers stay
/// at the greatest u64 once they are there.
#[derive(Debug, Drop)]
pub struct TurnCount {
    calls: u64,
    last_get: u64,
}

impl Model for TurnCount {
    ghost use Rattle.vk_keeper.specs.Turns.{Turns};

    ghost Value = { Turns };

    ghost view = { λ t. record { calls = t.calls; last_get = t.last_get } };
}

impl TurnCount {
    /// No calls yet.
    pub fn new() -> TurnCount
        ensures { result ≡ record { calls = 0; last_get = 0 } }
    {
        TurnCount {
            calls: 0,
            last_get: 0,
        }
    }

    /// Counts one `get`.
    pub fn count_get(&mut self)
        ensures { AfterGet self.old self.new }
    {
        self.calls = self.calls.saturating_add(1);
        self.last_get = self.calls;
    }

    /// Counts one `put`.
    pub fn count_put(&mut self)
        ensures { AfterPut self.old self.new }
    {
        self.calls = self.calls.saturating_add(1);
    }
}
