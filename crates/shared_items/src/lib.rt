//! A list in many versions, which share what an edit does not touch: it is kept as chunks of 1 to
//! 64 items. No caller sees that there are chunks.
#![tactic(auto)]

ghost use Rattle.std.specs.Prelude.{◌≡◌, ◌+◌, ◌<◌, ◌≤◌, ◌==◌, [], ◌∷◌, ◌++◌, length, take, drop};
ghost use Rattle.std.specs.Prelude.{slice_set, slice_get, IfOk, OnOk};
ghost use Rattle.std.specs.Iterator.{YieldsFirstRef, item_count};
ghost use Rattle.std.specs.List.{insert, remove};
ghost use Rattle.std.specs.Option.{option_copied};
ghost use Rattle.std.specs.Vec.{vec_len};
ghost use Rattle.shared_items.specs.Chunks.{AreCounted, HasItem, items_of, chunk_at};

use lists::{Copied, NoMemory};
use std::alloc::Global;
use std::iter::FusedIterator;
use std::marker::Model;
use std::mem;
use std::sync::Arc;

/// How many items a chunk has at most.
const MOST: usize = 64;

/// Where a chunk is cut that would have one more.
const HALF: usize = 32;

/// From 1 to 64 items, which versions of a list share.
#[derive(Debug, Drop)]
struct Chunk<T> {
    kept: Arc<Vec<T>>,
}

impl<T> Model for Chunk<T> {
    ghost use Rattle.std.specs.Prelude.{List, length, ◌<◌, ◌≤◌};
    ghost use Rattle.std.specs.Arc.{arc_value};

    ghost Value = { List T };

    ghost view = { λ inside. (arc_value inside.kept).items };

    ghost invariant = { λ inside. (0 < length (arc_value inside.kept).items)
        × (length (arc_value inside.kept).items ≤ 64) };
}

impl<T> Chunk<T> {
    /// The items.
    fn as_slice(&self) -> &[T]
        ensures items { result.now ≡ self.now }
        ensures some { 0 < length self.now }
        ensures few { length self.now ≤ 64 }
    {
        self.kept.as_slice()
    }

    /// The same items, in memory that both have.
    fn share(&self) -> Result<Chunk<T>, NoMemory>
        ensures { IfOk result (λ made. made ≡ self.now) }
    {
        Ok(Chunk {
            kept: Arc::try_clone(&self.kept)?,
        })
    }
}

impl<T: Drop> Chunk<T> {
    /// The chunk of these items.
    fn new(alloc: Global, items: Vec<T>) -> Result<Chunk<T>, NoMemory>
        requires some { 0 < vec_len items }
        requires few { vec_len items ≤ 64 }
        ensures { IfOk result (λ made. made ≡ items.items) }
    {
        Ok(Chunk {
            kept: Arc::new(alloc, items)?,
        })
    }
}

/// A chunk, and how many items there are up to its end.
#[derive(Debug, Drop)]
struct Counted<T> {
    chunk: Chunk<T>,
    end: usize,
}

/// A list of which a new version with one item replaced, inserted or removed takes memory for one
/// chunk and for the list of chunks, and shares all others. Contracts see it as the list of its
/// items.
#[derive(Debug, Drop)]
pub struct SharedItems<T> {
    chunks: Vec<Counted<T>>,
}

impl<T> Model for SharedItems<T> {
    ghost use Rattle.std.specs.Prelude.{List};
    ghost use Rattle.shared_items.specs.Chunks.{AreCounted, items_of};

    ghost Value = { List T };

    ghost view = { λ inside. items_of inside.chunks.items };

    ghost invariant = { λ inside. AreCounted inside.chunks.items };
}

impl<T> SharedItems<T> {
    /// The empty list. It takes no memory.
    pub fn new(alloc: Global) -> SharedItems<T>
        ensures { result ≡ [] }
    {
        SharedItems {
            chunks: Vec::new(alloc),
        }
    }

    /// The empty list, with room for so many chunks.
    fn with_room(alloc: Global, count: usize) -> Result<SharedItems<T>, NoMemory>
        ensures { IfOk result (λ made. made ≡ []) }
    {
        Ok(SharedItems {
            chunks: Vec::with_capacity(alloc, count)?,
        })
    }

    /// How many items there are.
    pub fn len(&self) -> usize
        ensures { result ≡ length self.now }
    {
        count_of(self.chunks.as_slice())
    }

    /// Whether there is no item.
    pub fn is_empty(&self) -> bool
        ensures { result ≡ (length self.now == 0) }
    {
        self.len() == 0
    }

    /// The item with a place, from 0 on; none past the end. Its chunk is found by halves, by the
    /// counts that chunks are kept with.
    pub fn get(&self, place: usize) -> Option<&T>
        ensures { option_copied result ≡ slice_get self.now place }
    {
        if self.len() <= place {
            return None;
        }
        let chunks = self.chunks.as_slice();
        let (index, at) = find(chunks, place);
        chunks[index].chunk.as_slice().get(at)
    }

    /// The items, one after another.
    pub fn iter(&self) -> ItemsWalk<'_, T>
        ensures { result ≡ self.now }
    {
        ItemsWalk {
            items: &[],
            later: self.chunks.as_slice(),
        }
    }
}

impl<T: Drop> SharedItems<T> {
    /// The list of a vector's items.
    pub fn from_vec(alloc: Global, items: Vec<T>) -> Result<SharedItems<T>, NoMemory>
        ensures { IfOk result (λ made. made ≡ items.items) }
    {
        let mut made = SharedItems::new(alloc);
        let mut chunk = Vec::new(alloc);
        for item in items {
            if chunk.len() == MOST {
                let full = mem::replace(&mut chunk, Vec::with_capacity(alloc, MOST)?);
                made.push_chunk(Chunk::new(alloc, full)?)?;
            }
            chunk.push(item)?;
        }
        made.push_items(alloc, chunk)?;
        Ok(made)
    }

    /// Puts a chunk behind the others.
    fn push_chunk(&mut self, chunk: Chunk<T>) -> Result<(), NoMemory>
        ensures { OnOk result (self.new ≡ self.old ++ chunk) }
    {
        let end = self
            .len()
            .checked_add(chunk.as_slice().len())
            .ok_or(NoMemory)?;
        self.chunks.push(Counted { chunk, end })?;
        Ok(())
    }

    /// Puts chunks behind the others, in memory that both lists then have.
    fn push_shared(&mut self, chunks: &[Counted<T>]) -> Result<(), NoMemory>
        ensures { OnOk result (self.new ≡ self.old ++ items_of chunks.now) }
    {
        for counted in chunks {
            self.push_chunk(counted.chunk.share()?)?;
        }
        Ok(())
    }

    /// Puts at most 65 items behind the others, as no chunk, as one, or as two of 32 and 33.
    fn push_items(&mut self, alloc: Global, mut items: Vec<T>) -> Result<(), NoMemory>
        requires { vec_len items ≤ 65 }
        ensures { OnOk result (self.new ≡ self.old ++ items.items) }
    {
        if items.is_empty() {
            return Ok(());
        }
        if items.len() <= MOST {
            return self.push_chunk(Chunk::new(alloc, items)?);
        }
        let later = items.split_off(HALF)?;
        self.push_chunk(Chunk::new(alloc, items)?)?;
        self.push_chunk(Chunk::new(alloc, later)?)
    }
}

impl<T: Drop> Copied for SharedItems<T> {
    fn copy(&self, alloc: Global) -> Result<SharedItems<T>, NoMemory> {
        let mut made = SharedItems::with_room(alloc, self.chunks.len())?;
        made.push_shared(self.chunks.as_slice())?;
        Ok(made)
    }
}

impl<T: Copied + Drop> SharedItems<T> {
    /// The list with another item in place of the one with this place.
    pub fn replaced(&self, alloc: Global, place: usize, item: T) -> Result<SharedItems<T>, NoMemory>
        requires { place < length self.now }
        ensures { IfOk result (λ made. made ≡ slice_set self.now place item) }
    {
        let chunks = self.chunks.as_slice();
        let (index, at) = find(chunks, place);
        let mut changed = copies_at(alloc, chunks, index)?;
        changed[at] = item;
        with_chunk(alloc, chunks, index, changed)
    }

    /// The list with an item put before the one with this place, or behind the last.
    pub fn inserted(&self, alloc: Global, place: usize, item: T) -> Result<SharedItems<T>, NoMemory>
        requires { place ≤ length self.now }
        ensures { IfOk result (λ made. made ≡ insert self.now place item) }
    {
        let chunks = self.chunks.as_slice();
        let (index, at) = find_gap(chunks, place);
        let mut changed = copies_at(alloc, chunks, index)?;
        changed.insert(at, item)?;
        with_chunk(alloc, chunks, index, changed)
    }

    /// The list without the item with this place.
    pub fn removed(&self, alloc: Global, place: usize) -> Result<SharedItems<T>, NoMemory>
        requires { place < length self.now }
        ensures { IfOk result (λ made. made ≡ remove self.now place) }
    {
        let chunks = self.chunks.as_slice();
        let (index, at) = find(chunks, place);
        let mut changed = copies_at(alloc, chunks, index)?;
        changed.remove(at);
        with_chunk(alloc, chunks, index, changed)
    }
}

/// How many items chunks have.
fn count_of<T>(chunks: &[Counted<T>]) -> usize
    requires { AreCounted chunks.now }
    ensures { result ≡ length (items_of chunks.now) }
{
    match chunks.last() {
        None => 0,
        Some(counted) => counted.end,
    }
}

/// The place of the chunk that has the item with a place. It is found by halves.
fn chunk_with<T>(chunks: &[Counted<T>], place: usize) -> usize
    requires counted { AreCounted chunks.now }
    requires inside { place < length (items_of chunks.now) }
    ensures { HasItem chunks.now place result }
{
    chunks.partition_point(|counted| counted.end <= place)
}

/// The place of the chunk that has the item with a place, and the item's place there.
fn find<T>(chunks: &[Counted<T>], place: usize) -> (usize, usize)
    requires counted { AreCounted chunks.now }
    requires inside { place < length (items_of chunks.now) }
    ensures chunk { result.0 < length chunks.now }
    ensures before { place ≡ length (items_of (take result.0 chunks.now)) + result.1 }
    ensures within { result.1 < length (chunk_at chunks.now result.0) }
{
    let index = chunk_with(chunks, place);
    let found = &chunks[index];
    (index, place - (found.end - found.chunk.as_slice().len()))
}

/// The place of a chunk into which an item may be put so that as many items stand before it, and
/// its place there: behind the item before it, or at the front.
fn find_gap<T>(chunks: &[Counted<T>], place: usize) -> (usize, usize)
    requires counted { AreCounted chunks.now }
    requires inside { place ≤ length (items_of chunks.now) }
    ensures chunk { result.0 ≤ length chunks.now }
    ensures before { place ≡ length (items_of (take result.0 chunks.now)) + result.1 }
    ensures within { result.1 ≤ length (chunk_at chunks.now result.0) }
{
    if place == 0 {
        return (0, 0);
    }
    let (index, at) = find(chunks, place - 1);
    (index, at + 1)
}

/// Copies of the items of the chunk with a place, with room for one more; none past the end.
fn copies_at<T: Copied + Drop>(
    alloc: Global,
    chunks: &[Counted<T>],
    index: usize,
) -> Result<Vec<T>, NoMemory>
    ensures { IfOk result
        (λ copies. (copies.items ≡ chunk_at chunks.now index) × (vec_len copies ≤ 64)) }
{
    match chunks.get(index) {
        None => Ok(Vec::new(alloc)),
        Some(counted) => copies_of(alloc, &counted.chunk),
    }
}

/// Copies of a chunk's items, with room for one more.
fn copies_of<T: Copied + Drop>(alloc: Global, chunk: &Chunk<T>) -> Result<Vec<T>, NoMemory>
    ensures { IfOk result (λ copies. (copies.items ≡ chunk.now) × (vec_len copies ≤ 64)) }
{
    let items = chunk.as_slice();
    let mut copies = Vec::with_capacity(alloc, items.len() + 1)?;
    for item in items {
        copies.push(item.copy(alloc)?)?;
    }
    Ok(copies)
}

/// The list of chunks with other items in place of one chunk's, or behind the last. All other
/// chunks are shared.
fn with_chunk<T: Drop>(
    alloc: Global,
    chunks: &[Counted<T>],
    index: usize,
    changed: Vec<T>,
) -> Result<SharedItems<T>, NoMemory>
    requires chunk { index ≤ length chunks.now }
    requires few { vec_len changed ≤ 65 }
    ensures { IfOk result
        (λ made. made ≡ items_of (take index chunks.now) ++ changed.items
        ++ items_of (drop (index + 1) chunks.now)) }
{
    let (front, rest) = chunks.split_at(index);
    let mut made = SharedItems::with_room(alloc, chunks.len().saturating_add(1))?;
    made.push_shared(front)?;
    made.push_items(alloc, changed)?;
    made.push_shared(all_but_first(rest))?;
    Ok(made)
}

/// The chunks behind the first.
fn all_but_first<T>(chunks: &[Counted<T>]) -> &[Counted<T>]
    ensures { result.now ≡ drop 1 chunks.now }
{
    match chunks.split_first() {
        None => chunks,
        Some((_, later)) => later,
    }
}

/// The items of a list that are left, one after another. Contracts see it as the list of these.
#[derive(Debug, Drop)]
pub struct ItemsWalk<'a, T> {
    items: &'a [T],
    later: &'a [Counted<T>],
}

impl<'a, T> Model for ItemsWalk<'a, T> {
    ghost use Rattle.std.specs.Prelude.{List, ◌++◌};
    ghost use Rattle.shared_items.specs.Chunks.{items_of};

    ghost Value = { List T };

    ghost view = { λ inside. inside.items.now ++ items_of inside.later.now };
}

impl<'a, T> Iterator for ItemsWalk<'a, T> {
    type Item = &'a T;

    ghost next_gives = { YieldsFirstRef (λ it. it) };

    ghost remaining = { item_count (λ it. it) };

    fn next(&mut self) -> Option<&'a T> {
        if let Some((first, others)) = self.items.split_first() {
            self.items = others;
            return Some(first);
        }
        let (counted, later) = self.later.split_first()?;
        let (first, others) = counted.chunk.as_slice().split_first()?;
        self.items = others;
        self.later = later;
        Some(first)
    }
}

impl<'a, T> FusedIterator for ItemsWalk<'a, T> {}

impl<'a, T> IntoIterator for &'a SharedItems<T> {
    type Item = &'a T;

    type IntoIter = ItemsWalk<'a, T>;

    ghost into_iter_gives = { λ list it. it ≡ list.now };

    fn into_iter(self) -> ItemsWalk<'a, T> {
        self.iter()
    }
}
