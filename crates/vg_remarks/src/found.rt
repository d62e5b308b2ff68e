//! How many of something there are, and the first of them.
ghost use Rattle.std.specs.Prelude.{◌≡◌, ◌+◌, ◌<◌, ◌≤◌, ◌^◌, ◌++◌, List, [], option_to_list};
ghost use Rattle.vg_remarks.specs.Found.{IsFound};

/// How many of something there are, and the first of them.
#[derive(Clone, Copy, Debug, PartialEq, Eq)]
pub struct Found<T> {
    /// How many there are.
    pub count: usize,
    /// The first of them, where there is one.
    pub first: Option<T>,
}

impl<T: Copy> Found<T> {
    /// Nothing found yet.
    pub fn none() -> Found<T>
        ensures found { IsFound [] result }
        ensures none { result.count ≡ 0 }
    {
        Found {
            count: 0,
            first: None,
        }
    }

    /// These, and one more behind them, where there is one.
    #[inline]
    pub fn with(self, one: Option<T>) -> Found<T>
        requires { self.count < 2 ^ 63 }
        ensures found { (all : List T) → IsFound all self → IsFound (all ++ option_to_list one) result }
        ensures count { result.count ≤ self.count + 1 }
    {
        match one {
            None => self,
            Some(one) => Found {
                count: self.count + 1,
                first: self.first.or(Some(one)),
            },
        }
    }
}
