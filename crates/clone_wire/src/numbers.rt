ghost use Rattle.std.specs.Prelude.{◌≡◌, ◌<◌, ◌≤◌, ◌+◌, ◌*◌};
ghost use Rattle.clone_wire.specs.Choices.{has_between, between, only, in_steps, listed};

/// The numbers that may stand in a field: the least, and each so many steps more, up to the most.
#[derive(Clone, Copy)]
pub(crate) struct Numbers {
    least: u64,
    most: u64,
    step: u64,
}

impl Numbers {
    pub(crate) fn between(least: u64, most: u64) -> Numbers
        ensures { result ≡ between least most }
    {
        Numbers::in_steps(least, most, 1)
    }

    pub(crate) fn only(number: u64) -> Numbers
        ensures { result ≡ only number }
    {
        Numbers::between(number, number)
    }

    pub(crate) fn in_steps(least: u64, most: u64, step: u64) -> Numbers
        ensures { result ≡ in_steps least most step }
    {
        Numbers { least, most, step }
    }

    /// The lengths of so many bytes of fields and a list of items, from the least to the most of
    /// them.
    pub(crate) fn listed(fields: usize, least: usize, most: usize, each: usize) -> Numbers
        requires least { fields + least * each ≤ u32.MAX }
        requires most { fields + most * each ≤ u32.MAX }
        ensures { result ≡ listed fields least most each }
    {
        let shortest = (fields + least * each) as u64;
        let longest = (fields + most * each) as u64;
        Numbers::in_steps(shortest, longest, each as u64)
    }

    /// Whether one of them lies from `low` to `high`.
    pub(crate) fn has_between(self, low: u64, high: u64) -> bool
        requires { 0 < self.step }
        ensures { result ≡ has_between self low high }
    {
        let top = self.most.min(high);
        self.least <= top && low <= top - (top - self.least) % self.step
    }
}
