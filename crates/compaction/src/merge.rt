//! Several sources merged into one.

ghost use Rattle.std.specs.Prelude.{ℕ, ◌≡◌, ◌≤◌, ◌<◌, ◌+◌, ◌-◌, T, None, Some, [], ◌∷◌, length, map, is_some, option_map, sum_by, take, drop, slice_index_or, Contains, IsSome, IfOk, OnOk, IsErrOf, Option, true, false, if◌then◌else◌, IsOkUnless};
ghost use Rattle.std.specs.List.{AllByRecursion, AllZip};
ghost use Rattle.std.specs.List.Sorted.{IsPermutation};
ghost use Rattle.std.specs.Ordering.{is_le};
ghost use Rattle.file_store.specs.Store.{Contents};
ghost use Rattle.cell_key.specs.Entries.{lent_entry, merged};
ghost use Rattle.sorted_file.specs.Source.{ComesToEnd, ReadsFiles};
ghost use Rattle.compaction.specs.Order.{AreSorted, InOrder, IsDistinct, IsOrdered, IsReady, place_cmp};
ghost use Rattle.compaction.specs.Merging.{Advances, AreAtStart, BreaksAmong, BreaksAt, GoesPast, HasMoved, IsMoved, MovesPast, lent_at, first_lent, StepsTo, MergeHolds, cost, one};
ghost use Rattle.compaction.specs.Ties.{ties};

use cell_key::{EntryRef, Refusal, compare_texts};
use file_store::Files;
use sorted_file::Source;
use std::cmp::Ordering;

/// Sources, newest first, merged into one (Bigtable, tablet serving: the merged view): each key has the entry of the
/// first source with an entry of it. Entries are lent as the sources lend them. Beyond the sources it keeps a list of
/// their places, which no advance grows.
#[derive(Drop)]
pub struct Merge<S> {
    sources: Vec<S>,
    /// The places of the sources that are at entries, in the order of these entries, and for equal keys the newer
    /// source first. Empty before the first advance.
    order: Vec<usize>,
}

/// The current entry of the source at a place.
fn entry_of<F: Files, S: Source<F>>(sources: &[S], place: usize) -> Option<EntryRef<'_>>
    ensures { option_map lent_entry result ≡ lent_at S.lent sources.now place }
{
    sources.get(place)?.current()
}

/// Compares two places by their sources' current entries, and for equal keys puts the newer source first. A source
/// without a current entry comes last.
fn compare_places<F: Files, S: Source<F>>(sources: &[S], a: usize, b: usize) -> Ordering
    ensures { result ≡ place_cmp (map S.lent sources.now) a b }
{
    match (entry_of::<F, S>(sources, a), entry_of::<F, S>(sources, b)) {
        (Some(x), Some(y)) => compare_texts(x.key, y.key).then(a.cmp(&b)),
        (Some(_), None) => Ordering::Less,
        (None, Some(_)) => Ordering::Greater,
        (None, None) => a.cmp(&b),
    }
}

/// Whether the source at a place is at an entry with the same key as this one.
fn is_tied<F: Files, S: Source<F>>(entry: EntryRef<'_>, sources: &[S], place: usize) -> bool
    ensures { result ≡ ties (Some (lent_entry entry.entry)) (lent_at S.lent sources.now place) }
{
    match entry_of::<F, S>(sources, place) {
        Some(other) => compare_texts(entry.key, other.key).is_eq(),
        None => false,
    }
}

/// How many of the later places, which are in order, come before this one.
fn count_before<F: Files, S: Source<F>>(sources: &[S], place: usize, later: &[usize]) -> usize
    ensures bound { result ≤ length later.now }
    ensures before { InOrder (map S.lent sources.now) later.now → AllByRecursion
        (λ other. T (is_le (place_cmp (map S.lent sources.now) other place)))
        (take result later.now) }
    ensures behind { InOrder (map S.lent sources.now) later.now → AllByRecursion
        (λ other. T (is_le (place_cmp (map S.lent sources.now) place other)))
        (drop result later.now) }
{
    if later.is_empty() || compare_places::<F, S>(sources, place, later[0]).is_le() {
        return 0;
    }
    later.partition_point(|other| compare_places::<F, S>(sources, *other, place).is_lt())
}

/// Moves the first place to where it belongs among the others, which are in order.
fn put_first<F: Files, S: Source<F>>(sources: &[S], order: &mut [usize])
    ensures same { IsPermutation order.old order.new }
    ensures rises { InOrder (map S.lent sources.now) (drop 1 order.old)
        → InOrder (map S.lent sources.now) order.new }
{
    if order.is_empty() {
        return;
    }
    let passed = count_before::<F, S>(sources, order[0], &order[1..]);
    order[..passed + 1].rotate_left(1);
}

/// Moves the first `moved` places to where they belong among the others, which are in order.
fn put_in_order<F: Files, S: Source<F>>(sources: &[S], order: &mut [usize], moved: usize)
    requires { moved ≤ length order.old }
    ensures same { IsPermutation order.old order.new }
    ensures rises { InOrder (map S.lent sources.now) (drop moved order.old)
        → InOrder (map S.lent sources.now) order.new }
{
    for i in (0..moved).rev() {
        put_first::<F, S>(sources, &mut order[i..]);
    }
}

/// How many places at the front are at entries with the same key as the first one.
fn count_tied<F: Files, S: Source<F>>(sources: &[S], order: &[usize]) -> usize
    requires { IsSome (first_lent S.lent sources.now order.now) }
    ensures bound { result ≤ length order.now }
    ensures some { 1 ≤ result }
    ensures tied { AllByRecursion (λ place. ties (first_lent S.lent sources.now order.now)
        (lent_at S.lent sources.now place) ≡ true) (take result order.now) }
    ensures last { (d : ℕ) → result < length order.now
        → ties (first_lent S.lent sources.now order.now)
        (lent_at S.lent sources.now (slice_index_or order.now result d)) ≡ false }
{
    let Some(first) = entry_of::<F, S>(sources, order[0]) else {
        return 1;
    };
    for i in 1..order.len() {
        if !is_tied::<F, S>(first, sources, order[i]) {
            return i;
        }
    }
    order.len()
}

/// Advances the source at each of these places, once for each place.
fn advance_each<F: Files, S: Source<F>>(
    sources: &mut [S],
    places: &[usize],
    files: &mut F,
) -> Result<(), Refusal>
    ensures reads { ReadsFiles F.contents F.faults files.old files.new result }
    ensures cost { OnOk result (sum_by (λ s. cost (S.left s) (S.lent s)) sources.new
        ≤ sum_by (λ s. cost (S.left s) (S.lent s)) sources.old) }
    ensures lower { OnOk result (IsSome (first_lent S.lent sources.old places.now)
        → sum_by (λ s. cost (S.left s) (S.lent s)) sources.new + 1
        ≤ sum_by (λ s. cost (S.left s) (S.lent s)) sources.old) }
    ensures moves { OnOk result (IsDistinct places.now → HasMoved
        (Advances (S.steps (F.contents files.old)) S.lent (S.remaining (F.contents files.old))
        (S.holds (F.contents files.old))) places.now sources.old sources.new) }
    ensures damaged { IsErrOf result Refusal.Damaged → IsDistinct places.now
        → ¬ AllByRecursion (S.holds (F.contents files.old)) sources.old }
    ensures broken { IsErrOf result Refusal.Damaged → IsDistinct places.now
        → BreaksAt (S.breaks (F.contents files.old)) places.now sources.old }
{
    for place in places.iter() {
        if *place < sources.len() {
            let _ = sources[*place].advance(files)?;
        }
    }
    Ok(())
}

/// How many of these places are left without those at the end whose sources have no current entry.
fn count_at_entries<F: Files, S: Source<F>>(sources: &[S], order: &[usize]) -> usize
    ensures bound { result ≤ length order.now }
    ensures ended { AllByRecursion (λ place. lent_at S.lent sources.now place ≡ None)
        (drop result order.now) }
    ensures last { (d : ℕ) → 0 < result
        → IsSome (lent_at S.lent sources.now (slice_index_or order.now (result - 1) d)) }
{
    for i in (0..order.len()).rev() {
        if entry_of::<F, S>(sources, order[i]).is_some() {
            return i + 1;
        }
    }
    0
}

/// Removes the places at the end whose sources have no current entry.
fn leave_out_ended<F: Files, S: Source<F>>(sources: &[S], order: &mut Vec<usize>)
    ensures { AreSorted (map S.lent sources.now) order.old.items
        → IsOrdered (map S.lent sources.now) order.new.items }
{
    let count = count_at_entries::<F, S>(sources, order);
    order.truncate(count);
}

/// Advances the source at a place, and answers whether it has a current entry then.
fn advance_at<F: Files, S: Source<F>>(
    sources: &mut [S],
    place: usize,
    files: &mut F,
) -> Result<bool, Refusal>
    ensures reads { ReadsFiles F.contents F.faults files.old files.new result }
    ensures more { IfOk result (λ more. more ≡ is_some (lent_at S.lent sources.new place)) }
    ensures lower { IfOk result (λ more.
        sum_by (λ s. cost (S.left s) (S.lent s)) sources.new + (if more then 1 else 0)
        ≤ sum_by (λ s. cost (S.left s) (S.lent s)) sources.old) }
    ensures moves { OnOk result (HasMoved
        (Advances (S.steps (F.contents files.old)) S.lent (S.remaining (F.contents files.old))
        (S.holds (F.contents files.old))) (place ∷ []) sources.old sources.new) }
    ensures damaged { IsErrOf result Refusal.Damaged
        → ¬ AllByRecursion (S.holds (F.contents files.old)) sources.old }
    ensures broken { IsErrOf result Refusal.Damaged
        → BreaksAt (S.breaks (F.contents files.old)) (place ∷ []) sources.old }
{
    if place < sources.len() {
        return sources[place].advance(files);
    }
    Ok(false)
}

/// Advances the only source that is at an entry, and removes its place if the source has ended. Answers whether it is
/// at an entry then.
fn step_only<F: Files, S: Source<F>>(
    sources: &mut [S],
    order: &mut Vec<usize>,
    files: &mut F,
) -> Result<bool, Refusal>
    requires { length order.old.items ≡ 1 }
    ensures reads { ReadsFiles F.contents F.faults files.old files.new result }
    ensures more { IfOk result (λ more.
        more ≡ is_some (first_lent S.lent sources.new order.new.items)) }
    ensures lower { IfOk result (λ more.
        sum_by (λ s. cost (S.left s) (S.lent s)) sources.new + (if more then 1 else 0)
        ≤ sum_by (λ s. cost (S.left s) (S.lent s)) sources.old) }
    ensures past { OnOk result (IsOrdered (map S.lent sources.old) order.old.items
        → AllZip (GoesPast (Advances (S.steps (F.contents files.old)) S.lent
        (S.remaining (F.contents files.old)) (S.holds (F.contents files.old))) S.lent
        (first_lent S.lent sources.old order.old.items)) sources.old sources.new) }
    ensures ordered { OnOk result (IsOrdered (map S.lent sources.old) order.old.items
        → IsOrdered (map S.lent sources.new) order.new.items) }
    ensures damaged { IsErrOf result Refusal.Damaged
        → ¬ AllByRecursion (S.holds (F.contents files.old)) sources.old }
    ensures broken { IsErrOf result Refusal.Damaged
        → IsOrdered (map S.lent sources.old) order.old.items
        → BreaksAmong (S.breaks (F.contents files.old))
        (IsMoved S.lent (first_lent S.lent sources.old order.old.items)) sources.old }
{
    let more = advance_at(sources, order[0], files)?;
    if !more {
        order.clear();
    }
    Ok(more)
}

/// Advances each source whose current entry has the key of the first one, and puts the places in order again.
fn step_tied<F: Files, S: Source<F>>(
    sources: &mut [S],
    order: &mut [usize],
    files: &mut F,
) -> Result<(), Refusal>
    requires { IsSome (first_lent S.lent sources.old order.old) }
    ensures reads { ReadsFiles F.contents F.faults files.old files.new result }
    ensures cost { OnOk result (sum_by (λ s. cost (S.left s) (S.lent s)) sources.new + 1
        ≤ sum_by (λ s. cost (S.left s) (S.lent s)) sources.old) }
    ensures past { OnOk result (IsOrdered (map S.lent sources.old) order.old
        → AllZip (GoesPast (Advances (S.steps (F.contents files.old)) S.lent
        (S.remaining (F.contents files.old)) (S.holds (F.contents files.old))) S.lent
        (first_lent S.lent sources.old order.old)) sources.old sources.new) }
    ensures sorted { OnOk result (IsOrdered (map S.lent sources.old) order.old
        → AreSorted (map S.lent sources.new) order.new) }
    ensures damaged { IsErrOf result Refusal.Damaged
        → IsOrdered (map S.lent sources.old) order.old
        → ¬ AllByRecursion (S.holds (F.contents files.old)) sources.old }
    ensures broken { IsErrOf result Refusal.Damaged
        → IsOrdered (map S.lent sources.old) order.old
        → BreaksAmong (S.breaks (F.contents files.old))
        (IsMoved S.lent (first_lent S.lent sources.old order.old)) sources.old }
{
    let tied = count_tied::<F, S>(sources, order);
    advance_each(sources, &order[..tied], files)?;
    put_in_order::<F, S>(sources, order, tied);
    Ok(())
}

/// Advances each source. None of them is at an entry.
fn step_all<F: Files, S: Source<F>>(sources: &mut [S], files: &mut F) -> Result<(), Refusal>
    ensures reads { ReadsFiles F.contents F.faults files.old files.new result }
    ensures cost { OnOk result (sum_by (λ s. cost (S.left s) (S.lent s)) sources.new
        + sum_by (λ s. one (S.lent s)) sources.new
        ≤ sum_by (λ s. cost (S.left s) (S.lent s)) sources.old) }
    ensures moves { OnOk result
        (AllZip (S.steps (F.contents files.old)) sources.old sources.new) }
    ensures steps { OnOk result (AreAtStart S.lent (S.holds (F.contents files.old)) sources.old
        → AllZip (StepsTo S.lent (S.remaining (F.contents files.old))
        (S.holds (F.contents files.old)) None) sources.old sources.new) }
    ensures damaged { IsErrOf result Refusal.Damaged
        → ¬ AllByRecursion (S.holds (F.contents files.old)) sources.old }
    ensures broken { IsErrOf result Refusal.Damaged
        → BreaksAmong (S.breaks (F.contents files.old)) (IsMoved S.lent None) sources.old }
{
    for source in sources.iter_mut() {
        let _ = source.advance(files)?;
    }
    Ok(())
}

/// Makes this the list of the places below `count`. Answers `NoMemory` if there is no memory.
fn list_places(order: &mut Vec<usize>, count: usize) -> Result<(), Refusal>
    ensures length { OnOk result (length order.new.items ≡ count) }
    ensures whole { OnOk result
        ((place : ℕ) → place < count → Contains order.new.items place) }
    ensures distinct { OnOk result (IsDistinct order.new.items) }
    ensures refusal { IsOkUnless result Refusal.NoMemory }
{
    order.clear();
    for place in 0..count {
        order.push(place)?;
    }
    Ok(())
}

/// Advances each source, none of which is at an entry, and lists their places in order.
fn step_first<F: Files, S: Source<F>>(
    sources: &mut [S],
    order: &mut Vec<usize>,
    files: &mut F,
) -> Result<(), Refusal>
    ensures reads { ReadsFiles F.contents F.faults files.old files.new result }
    ensures cost { OnOk result (sum_by (λ s. cost (S.left s) (S.lent s)) sources.new
        + sum_by (λ s. one (S.lent s)) sources.new
        ≤ sum_by (λ s. cost (S.left s) (S.lent s)) sources.old) }
    ensures moves { OnOk result
        (AllZip (S.steps (F.contents files.old)) sources.old sources.new) }
    ensures steps { OnOk result (AreAtStart S.lent (S.holds (F.contents files.old)) sources.old
        → AllZip (StepsTo S.lent (S.remaining (F.contents files.old))
        (S.holds (F.contents files.old)) None) sources.old sources.new) }
    ensures sorted { OnOk result (AreSorted (map S.lent sources.new) order.new.items) }
    ensures damaged { IsErrOf result Refusal.Damaged
        → ¬ AllByRecursion (S.holds (F.contents files.old)) sources.old }
    ensures broken { IsErrOf result Refusal.Damaged
        → BreaksAmong (S.breaks (F.contents files.old)) (IsMoved S.lent None) sources.old }
{
    step_all(sources, files)?;
    list_places(order, sources.len())?;
    put_in_order::<F, S>(sources, order, sources.len());
    Ok(())
}

/// Whether the source at the first place is at an entry.
fn is_at_entry<F: Files, S: Source<F>>(sources: &[S], order: &[usize]) -> bool
    ensures { result ≡ is_some (first_lent S.lent sources.now order.now) }
{
    match order.first() {
        Some(place) => entry_of::<F, S>(sources, *place).is_some(),
        None => false,
    }
}

/// Advances each source past the current entry of the one at the first place, or to its first entry if there is no
/// current entry.
fn step_several<F: Files, S: Source<F>>(
    sources: &mut [S],
    order: &mut Vec<usize>,
    files: &mut F,
) -> Result<(), Refusal>
    ensures reads { ReadsFiles F.contents F.faults files.old files.new result }
    ensures paid { OnOk result (sum_by (λ s. cost (S.left s) (S.lent s)) sources.new
        ≤ sum_by (λ s. cost (S.left s) (S.lent s)) sources.old) }
    ensures lower { OnOk result ((k : ℕ) → IsSome (lent_at S.lent sources.new k)
        → sum_by (λ s. cost (S.left s) (S.lent s)) sources.new + 1
        ≤ sum_by (λ s. cost (S.left s) (S.lent s)) sources.old) }
    ensures past { OnOk result (IsReady (map S.lent sources.old) order.old.items
        → AllZip (MovesPast (S.steps (F.contents files.old)) S.lent
        (first_lent S.lent sources.old order.old.items)) sources.old sources.new) }
    ensures sorted { OnOk result (IsReady (map S.lent sources.old) order.old.items
        → AreSorted (map S.lent sources.new) order.new.items) }
    ensures steps { OnOk result (MergeHolds S.lent (S.remaining (F.contents files.old))
        (S.holds (F.contents files.old)) sources.old order.old.items
        → AllZip (StepsTo S.lent (S.remaining (F.contents files.old))
        (S.holds (F.contents files.old)) (first_lent S.lent sources.old order.old.items))
        sources.old sources.new) }
    ensures damaged { IsErrOf result Refusal.Damaged
        → IsReady (map S.lent sources.old) order.old.items
        → ¬ AllByRecursion (S.holds (F.contents files.old)) sources.old }
    ensures broken { IsErrOf result Refusal.Damaged
        → IsReady (map S.lent sources.old) order.old.items
        → BreaksAmong (S.breaks (F.contents files.old))
        (IsMoved S.lent (first_lent S.lent sources.old order.old.items)) sources.old }
{
    if is_at_entry::<F, S>(sources, order) {
        step_tied(sources, order, files)
    } else {
        step_first(sources, order, files)
    }
}

/// Advances each source past the current entry of the one at the first place, or to its first entry if there is no
/// current entry. Answers whether a source is at an entry then.
fn step<F: Files, S: Source<F>>(
    sources: &mut [S],
    order: &mut Vec<usize>,
    files: &mut F,
) -> Result<bool, Refusal>
    ensures reads { ReadsFiles F.contents F.faults files.old files.new result }
    ensures more { IfOk result (λ more.
        more ≡ is_some (first_lent S.lent sources.new order.new.items)) }
    ensures lower { IfOk result (λ more.
        sum_by (λ s. cost (S.left s) (S.lent s)) sources.new + (if more then 1 else 0)
        ≤ sum_by (λ s. cost (S.left s) (S.lent s)) sources.old) }
    ensures past { OnOk result (IsReady (map S.lent sources.old) order.old.items
        → AllZip (MovesPast (S.steps (F.contents files.old)) S.lent
        (first_lent S.lent sources.old order.old.items)) sources.old sources.new) }
    ensures ordered { OnOk result (IsReady (map S.lent sources.old) order.old.items
        → IsOrdered (map S.lent sources.new) order.new.items) }
    ensures steps { OnOk result (MergeHolds S.lent (S.remaining (F.contents files.old))
        (S.holds (F.contents files.old)) sources.old order.old.items
        → AllZip (StepsTo S.lent (S.remaining (F.contents files.old))
        (S.holds (F.contents files.old)) (first_lent S.lent sources.old order.old.items))
        sources.old sources.new) }
    ensures damaged { IsErrOf result Refusal.Damaged
        → IsReady (map S.lent sources.old) order.old.items
        → ¬ AllByRecursion (S.holds (F.contents files.old)) sources.old }
    ensures broken { IsErrOf result Refusal.Damaged
        → IsReady (map S.lent sources.old) order.old.items
        → BreaksAmong (S.breaks (F.contents files.old))
        (IsMoved S.lent (first_lent S.lent sources.old order.old.items)) sources.old }
{
    if order.len() == 1 {
        return step_only(sources, order, files);
    }
    step_several(sources, order, files)?;
    leave_out_ended::<F, S>(sources, order);
    Ok(is_at_entry::<F, S>(sources, order))
}

impl<S> Merge<S> {
    /// The merge of sources, newest first, none of which has been advanced.
    ///
    /// # Errors
    ///
    /// `NoMemory` if there is no memory for the places of the sources.
    pub fn new<F: Files>(sources: Vec<S>) -> Result<Merge<S>, Refusal>
    where
        S: Source<F> + Drop,
        ensures lent { IfOk result (λ merge. ⟦<Merge<S> as Source<F>>⟧.lent merge ≡ None) }
        ensures remaining { IfOk result (λ merge. (disk : Option Contents)
            → AreAtStart S.lent (S.holds disk) sources.items
            → ⟦<Merge<S> as Source<F>>⟧.remaining disk merge
            ≡ merged (map (S.remaining disk) sources.items)) }
        ensures holds { IfOk result (λ merge. (disk : Option Contents)
            → AreAtStart S.lent (S.holds disk) sources.items
            → ⟦<Merge<S> as Source<F>>⟧.holds disk merge) }
        ensures comes { IfOk result (λ merge. (disk : Option Contents)
            → ComesToEnd (⟦<Merge<S> as Source<F>>⟧.steps disk) ⟦<Merge<S> as Source<F>>⟧.lent merge
            → AllByRecursion (ComesToEnd (S.steps disk) S.lent) sources.items) }
        ensures sources { IfOk result (λ merge. merge.sources ≡ sources) }
        ensures order { IfOk result (λ merge. merge.order.items ≡ []) }
        ensures refusal { IsOkUnless result Refusal.NoMemory }
    {
        let order = Vec::with_capacity(*sources.allocator(), sources.len())?;
        Ok(Merge { sources, order })
    }
}

impl<F: Files, S: Source<F>> Source<F> for Merge<S> {
    ghost use Rattle.std.specs.Prelude.{map, sum_by};
    ghost use Rattle.compaction.specs.Order.{IsReady};
    ghost use Rattle.compaction.specs.Merging.{first_lent, merge_remaining, BreaksAmong, IsMoved, MergeHolds, MergeSteps, cost};
    ghost use Rattle.compaction.specs.MergeLaw.{merge_list};

    ghost holds = { λ disk s.
        MergeHolds S.lent (S.remaining disk) (S.holds disk) s.sources.items s.order.items };

    ghost remaining = { λ disk s.
        merge_remaining S.lent (S.remaining disk) s.sources.items s.order.items };

    ghost lent = { λ s. first_lent S.lent s.sources.items s.order.items };

    ghost steps = { λ disk s t. IsReady (map S.lent s.sources.items) s.order.items → MergeSteps
        (S.steps disk) S.lent s.sources.items s.order.items t.sources.items t.order.items };

    ghost breaks = { λ disk s. IsReady (map S.lent s.sources.items) s.order.items
        → BreaksAmong (S.breaks disk)
        (IsMoved S.lent (first_lent S.lent s.sources.items s.order.items)) s.sources.items };

    ghost left = { λ s. sum_by (λ x. cost (S.left x) (S.lent x)) s.sources.items };

    fn advance(&mut self, files: &mut F) -> Result<bool, Refusal> {
        step(&mut self.sources, &mut self.order, files)
    }

    fn current(&self) -> Option<EntryRef<'_>> {
        entry_of::<F, S>(&self.sources, *self.order.first()?)
    }

    ghost list = { λ disk s h. merge_list
        S.lent (S.remaining disk) (S.holds disk) (S.list disk) s.sources.items s.order.items h };
}
