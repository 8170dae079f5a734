//! Paragraphs, and lists of them whose versions share what an edit does not touch.

ghost use Rattle.std.specs.Prelude.{◌≡◌, ◌<◌, ◌≤◌, ◌==◌, length, position, slice_get, slice_set};
ghost use Rattle.std.specs.Prelude.{IfOk, Some, true};
ghost use Rattle.std.specs.List.{insert, remove};
ghost use Rattle.std.specs.Option.{option_copied};
ghost use Rattle.paragraph_text.specs.Paragraphs.{HaveOwnIds, numbered_from};

use shared_items::{ItemsWalk, SharedItems};
use std::alloc::Global;
use std::marker::Model;
use std::sync::Arc;
use text_lines::Text;
use text_lines::lists::{Copied, NoMemory};

/// A paragraph: its id, which no other has or had, the version of the text that last touched it,
/// and its text, which versions of a list share.
#[derive(Debug, Drop)]
pub struct Para {
    pub id: u64,
    pub rev: u64,
    pub text: Arc<Text>,
}

impl Model for Para {
    ghost use Rattle.std.specs.Arc.{arc_value};
    ghost use Rattle.paragraph_text.specs.Paragraphs.{Paragraph};

    ghost Value = { Paragraph };

    ghost view = { λ inside.
        record { id = inside.id; rev = inside.rev; text = arc_value inside.text } };
}

impl Copied for Para {
    fn copy(&self, _alloc: Global) -> Result<Para, NoMemory> {
        Ok(Para {
            id: self.id,
            rev: self.rev,
            text: Arc::try_clone(&self.text)?,
        })
    }
}

/// How far from the place that is guessed a paragraph is looked for first, to both sides.
const NEARBY: usize = 32;

/// Paragraphs in their order. Contracts see it as the list of these. A copy shares all of it.
#[derive(Debug, Drop)]
pub struct Paragraphs {
    kept: Arc<SharedItems<Para>>,
}

impl Model for Paragraphs {
    ghost use Rattle.std.specs.Prelude.{List};
    ghost use Rattle.std.specs.Arc.{arc_value};
    ghost use Rattle.paragraph_text.specs.Paragraphs.{Paragraph};

    ghost Value = { List Paragraph };

    ghost view = { λ inside. arc_value inside.kept };
}

impl Paragraphs {
    /// The paragraphs of these texts, in their order: ids from 0 on, and revs of 0.
    pub fn from_texts(alloc: Global, texts: Vec<Text>) -> Result<Paragraphs, NoMemory>
        ensures { IfOk result (λ made. made ≡ numbered_from 0 texts.items) }
    {
        let mut paras = Vec::with_capacity(alloc, texts.len())?;
        for text in texts {
            let id = paras.len() as u64;
            paras.push(Para {
                id,
                rev: 0,
                text: Arc::new(alloc, text)?,
            })?;
        }
        Paragraphs::of(alloc, SharedItems::from_vec(alloc, paras)?)
    }

    /// The list of these.
    fn of(alloc: Global, kept: SharedItems<Para>) -> Result<Paragraphs, NoMemory>
        ensures { IfOk result (λ made. made ≡ kept) }
    {
        Ok(Paragraphs {
            kept: Arc::new(alloc, kept)?,
        })
    }

    /// How many paragraphs there are.
    pub fn len(&self) -> usize
        ensures { result ≡ length self.now }
    {
        self.kept.len()
    }

    /// Whether there is no paragraph.
    pub fn is_empty(&self) -> bool
        ensures { result ≡ (length self.now == 0) }
    {
        self.kept.is_empty()
    }

    /// The paragraph with a place, from 0 on; none past the end.
    pub fn get(&self, place: usize) -> Option<&Para>
        ensures { option_copied result ≡ slice_get self.now place }
    {
        self.kept.get(place)
    }

    /// The paragraphs, one after another.
    pub fn iter(&self) -> ItemsWalk<'_, Para>
        ensures { result ≡ self.now }
    {
        self.kept.iter()
    }

    /// The place of the first paragraph with an id. It goes over the ids, chunk by chunk, and looks
    /// at no text.
    pub fn place_of(&self, id: u64) -> Option<usize>
        ensures { result ≡ position (λ paragraph. paragraph.id == id) self.now }
    {
        // There are no more places than a usize counts.
        let _count = self.kept.len();
        self.kept.iter().position(|para| para.id == id)
    }

    /// The place of the paragraph with an id, where no id stands twice. It looks at the place
    /// `near` first, then at those up to 32 places from it, and goes over all ids only where the
    /// paragraph does not stand there.
    pub fn place_near(&self, id: u64, near: usize) -> Option<usize>
        requires { HaveOwnIds self.now }
        ensures { result ≡ position (λ paragraph. paragraph.id == id) self.now }
    {
        if self.has_at(near, id) {
            return Some(near);
        }
        for place in near.saturating_sub(NEARBY)..near.saturating_add(NEARBY) {
            if self.has_at(place, id) {
                return Some(place);
            }
        }
        self.place_of(id)
    }

    /// Whether the paragraph with this place has an id, where no id stands twice.
    fn has_at(&self, place: usize, id: u64) -> bool
        requires { HaveOwnIds self.now }
        ensures { result ≡ true
            → position (λ paragraph. paragraph.id == id) self.now ≡ Some place }
    {
        match self.get(place) {
            Some(para) if para.id == id => true,
            _ => false,
        }
    }

    /// The list with another paragraph in place of the one with this place.
    pub(crate) fn replaced(
        &self,
        alloc: Global,
        place: usize,
        para: Para,
    ) -> Result<Paragraphs, NoMemory>
        requires { place < length self.now }
        ensures { IfOk result (λ made. made ≡ slice_set self.now place para) }
    {
        Paragraphs::of(alloc, self.kept.replaced(alloc, place, para)?)
    }

    /// The list with a paragraph put before the one with this place, or behind the last.
    pub(crate) fn inserted(
        &self,
        alloc: Global,
        place: usize,
        para: Para,
    ) -> Result<Paragraphs, NoMemory>
        requires { place ≤ length self.now }
        ensures { IfOk result (λ made. made ≡ insert self.now place para) }
    {
        Paragraphs::of(alloc, self.kept.inserted(alloc, place, para)?)
    }

    /// The list without the paragraph with this place.
    pub(crate) fn removed(&self, alloc: Global, place: usize) -> Result<Paragraphs, NoMemory>
        requires { place < length self.now }
        ensures { IfOk result (λ made. made ≡ remove self.now place) }
    {
        Paragraphs::of(alloc, self.kept.removed(alloc, place)?)
    }
}

impl Copied for Paragraphs {
    fn copy(&self, _alloc: Global) -> Result<Paragraphs, NoMemory> {
        Ok(Paragraphs {
            kept: Arc::try_clone(&self.kept)?,
        })
    }
}
