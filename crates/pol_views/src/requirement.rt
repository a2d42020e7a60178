ghost use Rattle.std.specs.Prelude.{◌≡◌, not};
ghost use Rattle.std.specs.List.{position};
ghost use Rattle.pol_views.specs.Requirements.{is_met};

use crate::ViewMetadata;
use uuid::Uuid;

/// What a view has to be for a commit to change it (Iceberg REST OpenAPI, ViewRequirement).
#[derive(Drop)]
pub enum ViewRequirement {
    AssertViewUuid { uuid: Uuid },
}

/// The place of the first requirement that doesn't hold of a view's metadata.
pub fn first_unmet_view(meta: &ViewMetadata, requirements: &[ViewRequirement]) -> Option<usize>
    ensures { result ≡ position (λ requirement. not (is_met meta.now requirement)) requirements.now }
{
    requirements
        .iter()
        .position(|requirement| !is_met(meta, requirement))
}

fn is_met(meta: &ViewMetadata, requirement: &ViewRequirement) -> bool
    ensures { result ≡ is_met meta.now requirement.now }
{
    match requirement {
        ViewRequirement::AssertViewUuid { uuid } => meta.view_uuid == *uuid,
    }
}
