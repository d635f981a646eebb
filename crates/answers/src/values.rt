// The values that stand beside a number: of an answer, a warning or a piece of evidence, in four places.
ghost use Rattle.std.specs.Prelude.{◌≡◌, ◌≤◌, length};
ghost use Rattle.answers.specs.Values.{placed};

// How many values there are, and the values; 0 in an unused place.
#[derive(Clone, Copy)]
pub struct Values {
    pub count: u8,
    pub first: u64,
    pub second: u64,
    pub third: u64,
    pub fourth: u64,
}

impl Values {
    pub(crate) fn of(values: &[u64]) -> Self
        requires { length values.now ≤ 4 }
        ensures { result ≡ placed values.now }
    {
        let place = |i: usize| values.get(i).copied().unwrap_or(0);
        Values {
            count: values.len() as u8,
            first: place(0),
            second: place(1),
            third: place(2),
            fourth: place(3),
        }
    }
}
