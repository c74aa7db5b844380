// What the watch says of a channel, while its calls keep to the range of its sheet.
#[derive(Clone, Copy, PartialEq, Eq, Debug)]
pub enum State {
    // At rest: what is left of earlier samples is within the band.
    Settled,
    // A sample other than 0 came last.
    Sounding,
    // So many zeros have come since.
    Falling(u64),
    // A sample beyond the range came: the sheet says nothing until the next hush.
    Spoilt,
    // The coefficients were swapped: the sheet says nothing any more.
    Lapsed,
}

// What an accepted call is to the watch.
#[derive(Clone, Copy, PartialEq, Eq, Debug)]
pub enum Event {
    Hush,
    Swap,
    // A sample beyond the range.
    Beyond,
    // Another sample that is not 0.
    Loud,
    // The sample 0.
    Zero,
}

// The range and the count of a sheet, as they are handed in at open: unchecked.
#[derive(Clone, Copy, PartialEq, Eq, Debug)]
pub struct Limits {
    pub range: u32,
    pub count: u64,
}

// A watch: its limits and its state.
#[derive(Clone, Copy)]
pub struct Watch {
    pub limits: Limits,
    pub state: State,
}
