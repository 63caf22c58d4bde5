//! What is known of each macro while a text is expanded.

ghost use Rattle.std.specs.Prelude.{◌≡◌, ◌<◌, OnOk, length, replicate, slice_set};
ghost use Rattle.make_text.specs.States.{state_at};
ghost use Rattle.make_text.specs.declared.states.State.TheVariants as variants;

use cc_names::memory::NoMemory;
use std::alloc::Global;
use std::collections::BTreeMap;
use std::marker::Model;

/// What is known of a macro while a text is expanded.
#[derive(Clone, Copy, Drop)]
pub(crate) enum State {
    /// Its expansion was not begun.
    Untouched,
    /// It is being expanded.
    Begun,
    /// Its expansion begins at this place of what was written, and has so many bytes.
    Expanded(usize, usize),
}

/// The state of each macro. Contracts see them as the list of all; in memory there are only those of macros whose expansion
/// was begun, so that an expansion costs what it uses, and not the number of macros.
#[derive(Drop)]
pub(crate) struct States {
    count: usize,
    touched: BTreeMap<usize, State>,
}

impl Model for States {
    ghost use Rattle.std.specs.Prelude.{List};
    ghost use Rattle.make_text.specs.declared.states.State.{State};

    ghost Value = { List State };

    ghost use Rattle.std.specs.Ordering.{nat_cmp};
    ghost use Rattle.std.specs.BTreeMap.{get};
    ghost use Rattle.make_text.specs.States.{states_from};

    ghost view = { λ states. states_from (get nat_cmp states.touched) 0 states.count };
}

impl States {
    /// Those of so many macros, none of which was touched. Takes no memory.
    pub(crate) fn none_touched(alloc: Global, count: usize) -> States
        ensures { result ≡ replicate count variants.Untouched }
    {
        States {
            count,
            touched: BTreeMap::new(alloc),
        }
    }

    /// The state of the macro at an index. Takes time logarithmic in the macros that were touched.
    pub(crate) fn get(&self, index: usize) -> State
        requires { index < length self.now }
        ensures { result ≡ state_at self.now index }
    {
        match self.touched.get(&index) {
            Some(state) => *state,
            None => State::Untouched,
        }
    }

    /// Gives the macro at an index this state. Takes time logarithmic in the macros that were touched.
    pub(crate) fn set(&mut self, index: usize, state: State) -> Result<(), NoMemory>
        requires { index < length self.old }
        ensures { OnOk result (self.new ≡ slice_set self.old index state) }
    {
        self.touched.insert(index, state)?;
        Ok(())
    }
}
