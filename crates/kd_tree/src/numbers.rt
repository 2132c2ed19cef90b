//! Ranges of numbers.
ghost use Rattle.std.specs.Prelude.{◌≡◌};
ghost use Rattle.kd_tree.specs.Numbers.{one_number, widened};

/// The least and the greatest number of some nodes.
#[derive(Clone, Copy, Debug, PartialEq, Eq)]
pub struct Numbers {
    pub least: u32,
    pub greatest: u32,
}

impl Numbers {
    #[inline]
    pub(crate) fn of(number: u32) -> Numbers
        ensures { result ≡ one_number number }
    {
        Numbers {
            least: number,
            greatest: number,
        }
    }

    #[inline]
    pub(crate) fn widened(self, others: Option<Numbers>) -> Numbers
        ensures { result ≡ widened self others }
    {
        match others {
            None => self,
            Some(others) => Numbers {
                least: self.least.min(others.least),
                greatest: self.greatest.max(others.greatest),
            },
        }
    }
}
