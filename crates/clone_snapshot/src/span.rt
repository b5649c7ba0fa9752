ghost use Rattle.std.specs.Prelude.{◌+◌, ◌*◌, ◌-◌, ◌<◌, ◌≤◌, ◌^◌, min};
ghost use Rattle.std.specs.Option.{SomeIff};

/// Consecutive numbers: so many, from one on.
#[derive(Clone, Copy)]
pub(crate) struct Span {
    pub(crate) first: u64,
    pub(crate) count: u64,
}

impl Span {
    /// The piece with this number, where the span is cut into pieces of this size. The last one has
    /// what is left, and behind it there is none.
    pub(crate) fn piece(self, size: u32, number: u32) -> Option<Span>
        requires { self.first + self.count < 2 ^ 64 }
        ensures { SomeIff result (size * number < self.count) (record {
          first = self.first + size * number;
          count = min size (self.count - size * number);
        }) }
    {
        let passed = size as u64 * number as u64;
        if self.count <= passed {
            return None;
        }
        Some(Span {
            first: self.first + passed,
            count: (size as u64).min(self.count - passed),
        })
    }
}
