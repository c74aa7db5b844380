ghost use Rattle.std.specs.Prelude.{◌≡◌, ℕ};
ghost use Rattle.channel.specs.Channels.{watched, feed};
ghost use Rattle.channel.specs.Running.{limits_in, state_in, state_told};

use crate::state::{Event, Watch};

// Tells the watch, where there is one, of an accepted call.
pub(crate) fn tell(watch: &mut Option<Watch>, event: Event)
    ensures limits { limits_in watch.new ≡ limits_in watch.old }
    ensures state { state_in watch.new ≡ state_told event watch.old }
{
    if let Some(watch) = watch {
        watch.tell(event);
    }
}

// Tells the watch, where there is one, of an accepted sample.
pub(crate) fn tell_sample(watch: &mut Option<Watch>, sample: i32)
    ensures limits { limits_in watch.new ≡ limits_in watch.old }
    ensures state { (row working : ℕ) → state_in watch.new ≡ watched (limits_in watch.old) (feed row working sample) (state_in watch.old) }
{
    if let Some(watch) = watch {
        let event = watch.event(sample);
        watch.tell(event);
    }
}
