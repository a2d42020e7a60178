use pol_commands::Commit;
use pol_content::TableRow;

/// A commit, and the table that it changes.
#[derive(Clone, Copy)]
pub(crate) struct Target<'a> {
    pub row: &'a TableRow,
    pub commit: &'a Commit,
}

/// A table before its commit and after it.
#[derive(Drop)]
pub(crate) struct Committed<'a> {
    pub before: &'a TableRow,
    pub after: TableRow,
}
