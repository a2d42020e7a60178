use pol_objects::ObjectAction;

/// An action on objects in their history, with the number of the pass that it came by, and the place in the catalogue's
/// history of the access that allowed it.
#[derive(Drop)]
pub struct ObjectEntry {
    pub number: u64,
    pub access: u64,
    pub action: ObjectAction,
}
