//! Why there is no volume more.

use cluster_admin::AdminFault;
use thiserror::Error;
use volume_world::WorldFault;

/// Why there is no volume more.
#[derive(Clone, Copy, Debug, PartialEq, Eq, Error)]
pub enum NoVolume {
    /// The tables have no number or too few disks left for it.
    #[error("the tables have no room for another volume")]
    Refused { cause: AdminFault },
    /// It isn't made over the farm's shelves. Its number is spent.
    #[error("the volume isn't made")]
    NotMade { cause: WorldFault },
}
