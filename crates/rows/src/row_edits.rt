//! Edits of several rows.

ghost use Rattle.std.specs.Prelude.{◌≡◌, IfOk};
ghost use Rattle.rows.specs.RowEdits.{all_edits};

use cell_key::{Edit, Row};
use std::alloc::{AllocError, Global};

/// Edits of one row, in order.
#[derive(Drop)]
pub struct RowEdits {
    pub row: Row,
    pub edits: Vec<Edit>,
}

/// The edits of several rows, one row after the other.
pub(crate) fn all_edits(alloc: Global, changes: Vec<RowEdits>) -> Result<Vec<Edit>, AllocError>
    ensures { IfOk result (λ edits. edits.items ≡ all_edits changes.items) }
{
    let mut edits = Vec::new(alloc);
    for change in changes {
        let RowEdits {
            row: _,
            edits: mut more,
        } = change;
        edits.append(&mut more)?;
    }
    Ok(edits)
}
