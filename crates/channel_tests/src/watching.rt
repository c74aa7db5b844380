use channel::state::{Event, Limits, State, Watch};

// The state after an event, of a watch with so many zeros to settle.
fn moved(count: u64, before: State, event: Event) -> State {
    let mut watch = Watch {
        limits: Limits { range: 0, count },
        state: before,
    };
    watch.tell(event);
    watch.state
}

// What becomes of each state: settled, sounding, falling 1, spoilt, lapsed.
fn moves(count: u64, event: Event) -> [State; 5] {
    [
        moved(count, State::Settled, event),
        moved(count, State::Sounding, event),
        moved(count, State::Falling(1), event),
        moved(count, State::Spoilt, event),
        moved(count, State::Lapsed, event),
    ]
}

const SETTLED: State = State::Settled;

const SOUNDING: State = State::Sounding;

const SPOILT: State = State::Spoilt;

const LAPSED: State = State::Lapsed;

#[test]
fn hush_swap_and_samples_beyond(rt: HostRuntime) {
    assert_eq!(rt;
        moves(3, Event::Hush),
        [SETTLED, SETTLED, SETTLED, SETTLED, LAPSED]
    );
    assert_eq!(rt; moves(3, Event::Swap), [LAPSED; 5]);
    assert_eq!(rt;
        moves(3, Event::Beyond),
        [SPOILT, SPOILT, SPOILT, SPOILT, LAPSED]
    );
}

#[test]
fn loud_samples(rt: HostRuntime) {
    assert_eq!(rt;
        moves(1, Event::Loud),
        [SOUNDING, SOUNDING, SOUNDING, SPOILT, LAPSED]
    );
    assert_eq!(rt;
        moves(0, Event::Loud),
        [SETTLED, SETTLED, SETTLED, SPOILT, LAPSED]
    );
}

#[test]
fn zeros(rt: HostRuntime) {
    assert_eq!(rt;
        moves(3, Event::Zero),
        [
            SETTLED,
            State::Falling(1),
            State::Falling(2),
            SPOILT,
            LAPSED,
        ]
    );
    assert_eq!(rt;
        moves(2, Event::Zero),
        [SETTLED, State::Falling(1), SETTLED, SPOILT, LAPSED]
    );
    assert_eq!(rt;
        moves(1, Event::Zero),
        [SETTLED, SETTLED, SETTLED, SPOILT, LAPSED]
    );
}

#[test]
fn what_a_sample_is(rt: HostRuntime) {
    let watch = Watch {
        limits: Limits {
            range: 64,
            count: 6,
        },
        state: State::Settled,
    };
    assert_eq!(rt; watch.event(64), Event::Loud);
    assert_eq!(rt; watch.event(-64), Event::Loud);
    assert_eq!(rt; watch.event(65), Event::Beyond);
    assert_eq!(rt; watch.event(-65), Event::Beyond);
    assert_eq!(rt; watch.event(0), Event::Zero);
}
