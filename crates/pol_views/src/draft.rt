use crate::ViewMetadata;

/// A view's metadata amid a list of updates, and the ids of the schema and the version that the list has added last.
#[derive(Drop)]
pub struct ViewDraft {
    pub meta: ViewMetadata,
    pub last_schema: Option<u32>,
    pub last_version: Option<u32>,
}
