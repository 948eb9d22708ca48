//! The rows of a table of cases.

ghost use Rattle.std.specs.Prelude.{◌≡◌};

/// A row of a table: it matches the keys whose bits under the mask equal the value, and gives its answer for them.
#[derive(Clone, Copy, Debug, PartialEq, Eq)]
pub struct Case {
    pub mask: u32,
    pub value: u32,
    pub answer: u32,
}

impl Case {
    ghost use Rattle.case_table.specs.Rows.{matches};

    /// Whether a key matches the row.
    pub(crate) fn matches(&self, key: u32) -> bool
        ensures { result ≡ matches key self.now }
    {
        key & self.mask == self.value
    }
}

/// The rows of a table, one for each line `mask value => answer;`.
#[macro_export]
macro_rules! cases {
    ($($mask:literal $value:literal => $answer:expr;)*) => {
        [$($crate::Case { mask: $mask, value: $value, answer: $answer }),*]
    };
}
