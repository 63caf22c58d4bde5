//! Places in the text of a session.

ghost use Rattle.std.specs.Prelude.{◌≡◌, ◌<◌, ◌^◌, None, IfOk, length};
ghost use Rattle.session_text.specs.Kinds.{kinds_of};
ghost use Rattle.session_text.specs.Sessions.{first_error, nothing};

use crate::kinds::Rest;
use cc_names::memory::NoMemory;
use cc_names::texts::Text;
use std::alloc::Global;
use std::hash::RandomState;
use std::marker::Model;
use std::sync::Arc;

/// The text of a session. Names are found by hashing them so.
#[derive(Drop)]
struct Shared {
    text: Text,
    hashing: RandomState,
}

/// A place in the text of a session, from which on its lines stand right, below what stands above them. Copies of it share the
/// text.
#[derive(Drop)]
pub(crate) struct Place {
    shared: Arc<Shared>,
    from: u32,
}

impl Model for Place {
    ghost use Rattle.std.specs.Prelude.{◌<◌, ◌≤◌, ◌^◌, drop, length};
    ghost use Rattle.session_text.specs.Kinds.{kinds_of};
    ghost use Rattle.session_text.specs.Reading.{IsRight, Place};

    ghost Value = { Place };

    ghost view = { λ s. record { text = s.shared.value.text; from = s.from } };

    ghost invariant = { λ s.
        (length s.shared.value.text < 2 ^ 32)
        × (s.from ≤ length s.shared.value.text)
        × IsRight (kinds_of (drop s.from s.shared.value.text)) };
}

impl Place {
    ghost use Rattle.std.specs.Prelude.{◌≡◌, ◌-◌, ◌<◌, ◌≤◌, ◌^◌, IfOk, drop, length};
    ghost use Rattle.session_text.specs.Kinds.{kinds_of};
    ghost use Rattle.session_text.specs.Reading.{IsRight, lines_at};

    /// The beginning of a text that stands right.
    pub(crate) fn first(alloc: Global, hashing: RandomState, text: Text) -> Result<Place, NoMemory>
        requires short { length text < 2 ^ 32 }
        requires right { first_error 0 nothing (kinds_of text) ≡ None }
        ensures { IfOk result (λ place. place ≡ record { text = text; from = 0 }) }
    {
        let shared = Arc::new(alloc, Shared { text, hashing })?;
        Ok(Place { shared, from: 0 })
    }

    /// The same place again. Takes no memory; it fails only where there are too many.
    pub(crate) fn again(&self) -> Result<Place, NoMemory>
        ensures { IfOk result (λ place. place ≡ self.now) }
    {
        let shared = Arc::try_clone(&self.shared)?;
        Ok(Place {
            shared,
            from: self.from,
        })
    }

    /// How names are hashed.
    pub(crate) fn hashing(&self) -> RandomState {
        self.shared.hashing
    }

    /// The lines from this place on.
    pub(crate) fn rest(&self) -> Rest<'_>
        ensures rest { result ≡ record { number = 0; bytes = drop self.now.from self.now.text } }
        ensures within { self.now.from ≤ length self.now.text }
        ensures right { IsRight (lines_at self.now) }
        ensures short { length self.now.text < 2 ^ 32 }
    {
        Rest::of(&self.shared.text.as_bytes()[self.from as usize..])
    }

    /// Goes to where so many bytes are left.
    pub(crate) fn go_to(&mut self, left: usize)
        requires within { left ≤ length self.old.text }
        requires right { IsRight (kinds_of (drop (length self.old.text - left) self.old.text)) }
        ensures { self.new
            ≡ record { text = self.old.text; from = length self.old.text - left } }
    {
        self.from = (self.shared.text.as_bytes().len() - left) as u32;
    }
}
