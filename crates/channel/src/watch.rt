ghost use Rattle.std.specs.Prelude.{◌≡◌};
ghost use Rattle.channel.specs.Watches.{sampled, moves};

use crate::state::{Event, State, Watch};

impl Watch {
    // What a sample is to the watch.
    pub fn event(&self, sample: i32) -> Event
        ensures { result ≡ sampled self.now.limits.range sample }
    {
        let size = sample.unsigned_abs();
        if size > self.limits.range {
            Event::Beyond
        } else if size == 0 {
            Event::Zero
        } else {
            Event::Loud
        }
    }

    // Moves the state by one accepted call.
    pub fn tell(&mut self, event: Event)
        ensures limits { self.new.limits ≡ self.old.limits }
        ensures state { self.new.state ≡ moves self.old.limits.count self.old.state event }
    {
        let count = self.limits.count;
        match (event, self.state) {
            (Event::Hush, State::Lapsed) => {}
            (Event::Hush, _) => self.state = State::Settled,
            (Event::Swap, _) => self.state = State::Lapsed,
            (_, State::Lapsed | State::Spoilt) => {}
            (Event::Beyond, _) => self.state = State::Spoilt,
            (Event::Loud, _) if count == 0 => self.state = State::Settled,
            (Event::Loud, _) => self.state = State::Sounding,
            (Event::Zero, State::Sounding) if count > 1 => self.state = State::Falling(1),
            (Event::Zero, State::Falling(n)) if n < count.saturating_sub(1) => self.state =
                State::Falling(n + 1),
            (Event::Zero, _) => self.state = State::Settled,
        }
    }
}
