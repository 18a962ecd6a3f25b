//! Why a row isn't added to a table.

use thiserror::Error;

/// Why a row isn't added.
#[derive(Clone, Copy, Debug, PartialEq, Eq, Error)]
pub enum RowRefusal {
    /// A row for the bundle is there.
    #[error("a row for the bundle is there")]
    Same,
}
