ghost use Rattle.std.specs.Prelude.{◌≡◌, ◌+◌, ◌-◌, ◌≤◌, max, length};

// The coefficients of a filter: b0 and on, and a1 and on, as many as a filter may have.
#[derive(Clone, Copy)]
pub(crate) struct Coefficients<'a> {
    pub(crate) b: &'a [i32],
    pub(crate) a: &'a [i32],
    ghost some: { 1 ≤ length b.now },
    ghost few_b: { length b.now ≤ 9 },
    ghost few_a: { length a.now ≤ 8 },
}

impl<'a> Coefficients<'a> {
    // How many there are.
    pub(crate) fn count(self) -> usize
        ensures { result ≡ length self.entry.b.now + length self.entry.a.now }
    {
        self.b.len() + self.a.len()
    }

    // The coefficients b behind b0.
    pub(crate) fn later(self) -> &'a [i32]
        ensures { length result.now ≡ length self.entry.b.now - 1 }
    {
        &self.b[1..]
    }

    // The longer of the lists that belong to the past: those b behind b0, and a.
    pub(crate) fn longer(self) -> &'a [i32]
        ensures { length result.now ≡ max (length self.entry.b.now - 1) (length self.entry.a.now) }
    {
        let later = self.later();
        if later.len() < self.a.len() {
            self.a
        } else {
            later
        }
    }
}
