//! What a config spec selects, and what stands at a path.

ghost use Rattle.std.specs.Prelude.{◌≡◌};

use crate::lists::List;
use crate::names::Name;
use crate::paths::Path;
use crate::texts::Text;
use std::marker::Model;

/// One segment of a pattern.
#[derive(Drop)]
pub enum Segment {
    /// `...`: zero or more names.
    AnyNames,
    /// One name that these bytes match, in which `*` stands for any bytes and `?` for one.
    OneName(Text),
}

/// Which paths a rule of a config spec affects.
#[derive(Drop)]
pub struct Pattern {
    /// Whether a leading `/` ties it to the root. One without it may begin at any name of a path.
    pub anchored: bool,
    pub segments: List<Segment>,
}

/// Which version a rule takes of an element.
#[derive(Drop)]
pub enum Selector {
    /// `CHECKEDOUT`: the view's own checkout.
    CheckedOut,
    /// The version that holds the label.
    Label(Name),
    /// `/main/../LATEST`: the last version on the branch behind `main` by these names.
    Latest(List<Name>),
    /// `.../B/LATEST`: the last version on the element's branch of this type.
    Wherever(Name),
    /// `/main/../N`: version N of that branch.
    Numbered(List<Name>, u64),
    /// `-config P@@ROW`: the version that the object's record names.
    Config(Path, u64),
    /// `-none`: no version, and the scan ends.
    Nothing,
}

/// One rule of a config spec.
#[derive(Drop)]
pub struct Rule {
    /// The line on which it stands, counted from 1.
    pub line: u32,
    pub pattern: Pattern,
    pub selector: Selector,
    /// The moment before which a version must have been made to be the last on its branch.
    pub before: Option<u64>,
    /// `-nocheckout`: what the rule selects cannot be checked out.
    pub nocheckout: bool,
    /// `-mkbranch`: a checkout begins a branch of this type.
    pub mkbranch: Option<Name>,
}

/// The rules of a config spec, in order. Contracts see them as a list.
#[derive(Drop)]
pub struct Rules {
    rules: Vec<Rule>,
}

impl Model for Rules {
    ghost use Rattle.std.specs.Prelude.{List};
    ghost use Rattle.cc_names.specs.declared.selection.Rule.{Rule};

    ghost Value = { List Rule };

    ghost view = { λ spec. spec.rules.items };
}

impl Rules {
    /// The rules that these are, in order. Takes no memory.
    pub fn of(rules: Vec<Rule>) -> Rules
        ensures { result ≡ rules.items }
    {
        Rules { rules }
    }

    /// The rules, in order.
    pub fn as_slice(&self) -> &[Rule]
        ensures { result.now ≡ self.now }
    {
        self.rules.as_slice()
    }
}

/// What a rule picked: the row that makes the text, the line of the rule, and whether it is the view's checkout.
#[derive(Clone, Copy, Debug, PartialEq, Eq)]
pub struct Picked {
    pub row: u64,
    pub line: u32,
    pub out: bool,
}

/// What stands at a path in a view.
#[derive(Clone, Copy, Debug, PartialEq, Eq)]
pub enum Seen {
    /// A private file, with the row that put it.
    Private(u64),
    /// An element, with what its rule picked.
    Element(u64, Picked),
    /// An element whose name is in the catalog and of which no version is selected.
    Unselected(u64),
    /// Nothing stands there.
    Nothing,
}
