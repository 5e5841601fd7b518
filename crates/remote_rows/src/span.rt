//! Spans: the whole cells of a page of keys.

ghost use Rattle.std.specs.Prelude.{◌≡◌, ◌↔◌, ◌⊎◌, ◌≤◌, None, false, length, option_map, IsTrue, IfOk, IfSome, OnOk, IsOkUnless};
ghost use Rattle.std.specs.Bool.{OnFalse};
ghost use Rattle.std.specs.List.{AllByRecursion};
ghost use Rattle.cell_key.specs.Cells.{Cells, after_edit, edited_key};
ghost use Rattle.cell_key.specs.Places.{AreNextCells, place_named, place_of};
ghost use Rattle.rows.specs.Batches.{AreNextVersions, IsFull};
ghost use Rattle.remote_rows.specs.Pages.{IsBefore, IsSpanOf, IsUpTo, MakesBefore, end_of};
ghost use Rattle.remote_rows.specs.Wires.{IsEdit};

use crate::faults::in_memory;
use crate::wire::Page;
use cell_key::{CellKey, Edit, Family, Refusal, Row, Stamp};
use rows::{BatchLimits, CellVersions, PlainRows, Rows, VersionBatch};
use std::alloc::{AllocError, Global};

/// The cells before `end`, or all up to the last one without an end.
#[derive(Drop)]
pub(crate) struct Span {
    pub(crate) rows: PlainRows,
    pub(crate) end: Option<(Row, Family)>,
}

/// The key of an edit.
pub(crate) fn key_of(edit: &Edit) -> &CellKey
    ensures { result.now ≡ edited_key edit.now }
{
    match edit {
        Edit::Put(key, _) => key,
        Edit::Erase(key) => key,
    }
}

/// Where the whole cells of a page end.
fn end_of(page: &Page) -> Result<Option<(Row, Family)>, AllocError>
    ensures { IfOk result (λ end. end ≡ end_of page.now.is_last page.now.edits.items) }
{
    if page.is_last {
        return Ok(None);
    }
    match page.edits.last() {
        Some(edit) => {
            let key = key_of(edit);
            Ok(Some((key.row.clone()?, key.family.clone()?)))
        }
        None => Ok(None),
    }
}

/// Whether a key's place comes before an end.
fn is_before(key: &CellKey, end: &Option<(Row, Family)>) -> bool
    ensures { IsTrue result ↔ IsBefore end.now (place_of key.now) }
{
    match end {
        Some((row, family)) => key.row.cmp(row).then(key.family.cmp(family)).is_lt(),
        None => true,
    }
}

/// Makes an edit in memory.
fn make(alloc: Global, rows: &mut PlainRows, edit: Edit) -> Result<(), Refusal>
    requires { IsEdit edit }
    ensures ok { OnOk result (rows.new ≡ after_edit rows.old edit) }
    ensures refusal { IsOkUnless result Refusal.NoMemory }
{
    let row = key_of(&edit).row.clone()?;
    let edits = vec![in alloc; edit]?;
    match rows.apply(&row, edits) {
        Ok(()) => Ok(()),
        Err(_) => Err(Refusal::NoMemory),
    }
}

/// Makes an edit in memory, if its key's place comes before an end.
fn make_before(
    alloc: Global,
    rows: &mut PlainRows,
    edit: Edit,
    end: &Option<(Row, Family)>,
) -> Result<(), Refusal>
    requires { IsEdit edit }
    ensures ok { OnOk result (MakesBefore end.now edit rows.old rows.new) }
    ensures refusal { IsOkUnless result Refusal.NoMemory }
{
    if is_before(key_of(&edit), end) {
        make(alloc, rows, edit)
    } else {
        Ok(())
    }
}

/// The cells that edits make from nothing, up to an end.
fn cells_before(
    alloc: Global,
    edits: Vec<Edit>,
    end: &Option<(Row, Family)>,
) -> Result<PlainRows, Refusal>
    requires { AllByRecursion IsEdit edits.items }
    ensures ok { IfOk result (IsUpTo end.now edits.items) }
    ensures refusal { IsOkUnless result Refusal.NoMemory }
{
    let mut rows = PlainRows::new(alloc);
    for edit in edits {
        make_before(alloc, &mut rows, edit, end)?;
    }
    Ok(rows)
}

/// Whether a span with this end has enough cells: it has all of them, or as many as are wanted.
fn is_enough(end: &Option<(Row, Family)>, is_full: bool) -> bool
    ensures { IsTrue result → (end.now ≡ None) ⊎ IsTrue is_full }
{
    end.is_none() || is_full
}

/// These cells as a batch that isn't the last one, if they reach the limits.
fn full_batch(cells: Vec<CellVersions>, limits: BatchLimits) -> Option<VersionBatch>
    ensures cells { IfSome result (λ batch. batch.cells.items ≡ cells.items) }
    ensures last { IfSome result (λ batch. batch.is_last ≡ false) }
    ensures full { IfSome result (λ batch. IsFull limits batch.cells.items) }
{
    let left = limits.after(&cells);
    if left.cells == 0 || left.bytes == 0 {
        Some(VersionBatch {
            cells,
            is_last: false,
        })
    } else {
        None
    }
}

impl Span {
    /// The whole cells of a page. The only refusal is `NoMemory`.
    pub(crate) fn new(alloc: Global, page: Page) -> Result<Span, Refusal>
        requires { AllByRecursion IsEdit page.edits.items }
        ensures end { IfOk result (λ span. span.end ≡ end_of page.is_last page.edits.items) }
        ensures rows { IfOk result (λ span. IsUpTo span.end page.edits.items span.rows) }
        ensures refusal { IsOkUnless result Refusal.NoMemory }
    {
        let end = end_of(&page)?;
        let Page { edits, is_last: _ } = page;
        let rows = cells_before(alloc, edits, &end)?;
        Ok(Span { rows, end })
    }

    /// The next cells after a place, `most` of them or all if there are fewer; `None` if the span may have too few. The
    /// only refusal is `NoMemory`.
    pub(crate) fn next_cells(
        self,
        after: Option<(&Row, &Family)>,
        most: usize,
    ) -> Result<Option<Vec<(Row, Family)>>, Refusal>
        ensures found { (cells : Cells) → IsSpanOf cells (option_map place_named after.entry) self
            → IfOk result (λ found. IfSome found (λ found. AreNextCells cells
            (option_map place_named after.entry) most found.items)) }
        ensures few { IfOk result (λ found. IfSome found (λ found. length found.items ≤ most)) }
        ensures refusal { IsOkUnless result Refusal.NoMemory }
    {
        let Span { mut rows, end } = self;
        let found = in_memory(rows.next_cells(after, most))?;
        if is_enough(&end, found.len() == most) {
            Ok(Some(found))
        } else {
            Ok(None)
        }
    }

    /// The next cells after a place with their newest versions at or below `hi`, up to the limits or all if there are
    /// fewer; `None` if the span may have too few. The only refusal is `NoMemory`.
    pub(crate) fn next_versions(
        self,
        after: Option<(&Row, &Family)>,
        limits: BatchLimits,
        hi: Stamp,
    ) -> Result<Option<VersionBatch>, Refusal>
        ensures found { (cells : Cells) → IsSpanOf cells (option_map place_named after.entry) self
            → IfOk result (λ found. IfSome found (AreNextVersions cells
            (option_map place_named after.entry) hi)) }
        ensures full { IfOk result (λ found. IfSome found (λ batch.
            OnFalse batch.is_last (IsFull limits batch.cells.items))) }
        ensures few { IfOk result (λ found. IfSome found (λ batch.
            length batch.cells.items ≤ limits.cells)) }
        ensures refusal { IsOkUnless result Refusal.NoMemory }
    {
        let Span { mut rows, end } = self;
        let batch = in_memory(rows.next_versions(after, limits, hi))?;
        match end {
            Some(_) => Ok(full_batch(batch.cells, limits)),
            None => Ok(Some(batch)),
        }
    }
}
