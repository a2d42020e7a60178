use crate::update::Update;
use pol_names::Identifier;
use pol_requirements::Requirement;
use pol_types::Listed;

/// A change of one table: what has to hold of it, and how it is changed then (Iceberg REST OpenAPI,
/// CommitTableRequest).
#[derive(Drop)]
pub struct TableCommit {
    pub requirements: Listed<Requirement>,
    pub updates: Listed<Update>,
}

/// A change of one of several tables, which its identifier names (Iceberg REST OpenAPI, CommitTransactionRequest).
#[derive(Drop)]
pub struct TableChange {
    pub identifier: Identifier,
    pub requirements: Listed<Requirement>,
    pub updates: Listed<Update>,
}
