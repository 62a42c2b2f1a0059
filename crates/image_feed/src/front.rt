//! The parts of a list that were read.

ghost use Rattle.std.specs.Prelude.{◌≡◌, ◌∷◌, ◌++◌, [], Some, drop, slice_get, take};
ghost use Rattle.std.specs.Prelude.{IfOk, IsOkUnless, OnOk, unwrap_or};
ghost use Rattle.std.specs.Option.{option_copied};
ghost use Rattle.image_feed.specs.declared.stop.Stop.TheVariants.{Memory};
ghost use Rattle.image_feed.specs.Fronts.{front_of, place_in};
ghost use Rattle.image_feed.specs.declared.front.Front.TheVariants.{Same};

use crate::several::listed;
use crate::stop::Stop;
use std::alloc::Global;
use table_image::Listed;

/// A value of which there can be another one.
pub(crate) trait Again: Drop {
    /// The same value once more.
    fn once_more(&self, alloc: Global) -> Result<Self, Stop>
        ensures value { IfOk result (λ x. x ≡ self.now) }
        ensures refused { IsOkUnless result Memory };
}

/// The parts that were read. As long as they are those of another list, they are only counted.
#[derive(Drop)]
pub(crate) enum Front<T> {
    /// So many of the other list.
    Same(usize),
    /// The list's own.
    Own(Vec<T>),
}

/// The parts of the other list, if there is one.
pub(crate) fn parts_of<T>(like: Option<&Listed<T>>) -> &[T]
    ensures { result.now ≡ unwrap_or (option_copied like.entry) [] }
{
    match like {
        Some(list) => list.as_slice(),
        None => &[],
    }
}

/// The first parts, once more, with room for others.
#[inline(never)]
fn copied<T: Again>(alloc: Global, parts: &[T], room: usize) -> Result<Vec<T>, Stop>
    ensures copied { IfOk result (λ items. items.items ≡ parts.now) }
    ensures refused { IsOkUnless result Memory }
{
    let mut items = Vec::with_capacity(alloc, parts.len().saturating_add(room))?;
    for part in parts {
        items.push(part.once_more(alloc)?)?;
    }
    Ok(items)
}

/// The part at a place, if there is one.
#[inline(always)]
pub(crate) fn part_at<T>(parts: &[T], place: usize) -> Option<&T>
    ensures { option_copied result ≡ slice_get parts.now place }
{
    parts.get(place)
}

/// The parts after the first ones.
pub(crate) fn after_first<T>(parts: &[T], count: usize) -> &[T]
    ensures { result.now ≡ drop count parts.now }
{
    if count < parts.len() {
        &parts[count..]
    } else {
        &[]
    }
}

/// The first parts.
pub(crate) fn first<T>(parts: &[T], count: usize) -> &[T]
    ensures { result.now ≡ take count parts.now }
{
    if count < parts.len() {
        &parts[..count]
    } else {
        parts
    }
}

impl<T: Again> Front<T> {
    /// The place of the next part.
    #[inline(always)]
    pub(crate) fn place(&self) -> usize
        ensures { result ≡ place_in self.now }
    {
        match self {
            Front::Same(count) => *count,
            Front::Own(items) => items.len(),
        }
    }

    /// One more part, with room for so many after it.
    pub(crate) fn push(&mut self, alloc: Global, like: &[T], part: T, room: u16) -> Result<(), Stop>
        ensures pushed { OnOk result
            (front_of like.now self.new ≡ front_of like.now self.old ++ part ∷ []) }
        ensures refused { IsOkUnless result Memory }
    {
        match self {
            Front::Same(count) => {
                let mut items = copied(alloc, first(like, *count), room as usize + 1)?;
                items.push(part)?;
                *self = Front::Own(items);
            }
            Front::Own(items) => items.push(part)?,
        }
        Ok(())
    }

    /// One more part, the other list's at this place.
    #[inline(always)]
    pub(crate) fn push_same(&mut self, alloc: Global, like: &[T], part: &T) -> Result<(), Stop>
        requires { slice_get like.now (place_in self.old) ≡ Some part.now }
        ensures pushed { OnOk result
            (front_of like.now self.new ≡ front_of like.now self.old ++ part.now ∷ []) }
        ensures refused { IsOkUnless result Memory }
    {
        match self {
            Front::Same(count) => *count += 1,
            Front::Own(items) => items.push(part.once_more(alloc)?)?,
        }
        Ok(())
    }

    /// The list, which begins anew. If it is the other one, it is stored once.
    pub(crate) fn take(
        &mut self,
        alloc: Global,
        like: Option<&Listed<T>>,
    ) -> Result<Listed<T>, Stop>
        ensures taken { IfOk result
            (λ list. list ≡ front_of (unwrap_or (option_copied like.entry) []) self.old) }
        ensures anew { self.new ≡ Same 0 }
        ensures refused { IsOkUnless result Memory }
    {
        match std::mem::replace(self, Front::Same(0)) {
            Front::Same(count) => taken_same(alloc, like, count),
            Front::Own(items) => Ok(listed(items).into_shared(alloc)),
        }
    }
}

/// The first parts of the other list, as a list.
fn taken_same<T: Again>(
    alloc: Global,
    like: Option<&Listed<T>>,
    count: usize,
) -> Result<Listed<T>, Stop>
    ensures taken { IfOk result
        (λ list. list ≡ take count (unwrap_or (option_copied like.entry) [])) }
    ensures refused { IsOkUnless result Memory }
{
    if let Some(list) = like {
        if list.len() == count {
            if let Some(shared) = list.share() {
                return Ok(shared);
            }
        }
    }
    let parts = parts_of(like);
    Ok(listed(copied(alloc, first(parts, count), 0)?).into_shared(alloc))
}
