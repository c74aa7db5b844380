use crate::state::Watch;
use kinds::values::Values;
use wiring::program::Program;

// A channel: the values that it works on, a checked wiring with the coefficients in force, and the watch, where there is one.
// Its registers lie in a row that is lent to it at each call.
#[derive(Drop)]
pub struct Channel<K, R, O> {
    pub(crate) values: Values<K, R, O>,
    pub(crate) program: Program,
    pub(crate) watch: Option<Watch>,
}
