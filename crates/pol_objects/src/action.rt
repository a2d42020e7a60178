use pol_locations::Location;
use pol_shared_bytes::SharedBytes;

/// What is asked of the objects. Only a put and a delete write.
#[derive(Drop)]
pub enum ObjectAction {
    /// The bytes of the object at the path.
    Get { path: Location },
    /// How many they are.
    Head { path: Location },
    /// A new object.
    Put { path: Location, bytes: SharedBytes },
    /// To take the object at the path away.
    Delete { path: Location },
    /// The paths of all objects that the path covers.
    List { path: Location },
}
