//! The columns of a holdings file.

/// A column of a holdings file.
#[derive(Clone, Copy, Debug, PartialEq, Eq)]
pub enum Column {
    /// The package.
    Package,
    /// The title of the package, as `title_id` in its list. An empty cell is the whole package.
    TitleId,
    /// The first day that the library has. An empty cell is an open side.
    First,
    /// The last day.
    Last,
    /// `yes` or `no`: whether the library has it.
    Held,
}

impl Column {
    /// Returns the name of the column in the header.
    pub fn label(self) -> &'static str {
        match self {
            Column::Package => "package",
            Column::TitleId => "title_id",
            Column::First => "first",
            Column::Last => "last",
            Column::Held => "held",
        }
    }
}
