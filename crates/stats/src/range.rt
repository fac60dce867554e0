//! The smallest and largest value seen. A range with no observations behind it is absent: seeding one from zero would report a
//! minimum that nothing ever measured.

ghost use Rattle.std.specs.Prelude.{◌≡◌};
ghost use Rattle.stats.specs.Range.{at, extended_in, widened_in};

/// The smallest and largest value seen.
#[derive(Clone, Copy, Debug, PartialEq, Eq)]
pub struct Range<T> {
    pub min: T,
    pub max: T,
}

impl<T: Ord + Copy> Range<T> {
    /// A range of one value.
    pub fn at(value: T) -> Range<T>
        ensures { result ≡ at value }
    {
        Range {
            min: value,
            max: value,
        }
    }

    /// The range with the value in it.
    pub fn extend(self, value: T) -> Range<T>
        ensures { result ≡ extended_in T.cmp self value }
    {
        Range {
            min: self.min.min(value),
            max: self.max.max(value),
        }
    }

    /// Widen `range`, starting it if this is the first value.
    pub fn observe(range: Option<Range<T>>, value: T) -> Option<Range<T>>
        ensures { result ≡ widened_in T.cmp range value }
    {
        match range {
            None => Some(Range::at(value)),
            Some(old) => Some(old.extend(value)),
        }
    }
}
