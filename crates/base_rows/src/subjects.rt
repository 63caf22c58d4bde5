//! What rows affect, and the keys by which the rows are found.

ghost use Rattle.std.specs.Prelude.{◌≡◌, ◌+◌, ◌<◌, ◌≤◌, ◌^◌, ◌∷◌, [], IfSome, map, option_map};
ghost use Rattle.std.specs.List.{slice_get};
ghost use Rattle.base_rows.specs.Subjects as model;

use crate::bases::FirstRows;
use crate::edits::is_out;
use crate::number_keys::{key_by_one, key_by_paths, key_by_three, key_in, key_with, key_within};
use crate::objects::targets_of;
use crate::trees::branch_of_version;
use cc_names::keys::{key_at, key_of};
use cc_names::names::Name;
use cc_names::paths::Path;
use cc_names::rows::{Deed, Out, Placed};
use std::hash::RandomState;

/// Something on which rows bear: they say what has become of it.
#[derive(Clone, Copy)]
pub enum Subject<'a> {
    /// A view's life.
    Life(&'a Name),
    /// A view's config spec.
    Spec(&'a Name),
    /// All that a view takes out.
    AllCheckedOut(&'a Name),
    /// A view's private file at a path.
    File(&'a Name, &'a [u8]),
    /// The object that a view holds at a path.
    Object(&'a Name, &'a Path),
    /// A view's checkout of an element.
    Out(&'a Name, u64),
    /// The texts that a view saves in its checkout of an element.
    Saved(&'a Name, u64),
    /// A name that a view changes in its checkout of a directory.
    NameIn(&'a Name, u64, &'a [u8]),
    /// The reserved checkouts on a branch.
    Reserved(u64),
    /// The type of a name.
    Named(&'a Name),
    /// An object.
    Living(u64),
    /// The winks of an object.
    Winked(u64),
    /// The objects with these targets, in this order.
    Pool(&'a [Path]),
    /// A merge into a version of an element from another one: the element, that one, and the version.
    Merge(u64, u64, u64),
    /// The merges into a version.
    Merged(u64),
    /// What is done to an element and to its labels.
    History(u64),
    /// The branches that leave a version.
    Leaving(u64),
    /// The branches of an element that have a name.
    BranchNamed(u64, &'a Name),
    /// What a view puts or comes to hold, at whatever paths.
    Owned(&'a Name),
    /// The names that are given in a directory.
    Given(u64),
    /// The names that are changed in the checkout that a row began.
    Changing(u64),
    /// The versions of a branch that are made from a checkout in which a name was changed.
    Altered(u64, &'a [u8]),
}

fn one<'a>(first: Subject<'a>, index: usize) -> Option<Subject<'a>>
    ensures subject { option_map model.plain result
        ≡ slice_get (model.plain first.entry ∷ []) index }
    ensures within { IfSome result (λ _. index < 2 ^ 32) }
{
    if index == 0 { Some(first) } else { None }
}

fn two<'a>(first: Subject<'a>, second: Subject<'a>, index: usize) -> Option<Subject<'a>>
    ensures subject { option_map model.plain result
        ≡ slice_get (model.plain first.entry ∷ model.plain second.entry ∷ []) index }
    ensures within { IfSome result (λ _. index < 2 ^ 32) }
{
    match index {
        0 => Some(first),
        1 => Some(second),
        _ => None,
    }
}

fn three<'a>(
    first: Subject<'a>,
    second: Subject<'a>,
    third: Subject<'a>,
    index: usize,
) -> Option<Subject<'a>>
    ensures subject { option_map model.plain result
        ≡ slice_get
        (model.plain first.entry ∷ model.plain second.entry ∷ model.plain third.entry ∷ [])
        index }
    ensures within { IfSome result (λ _. index < 2 ^ 32) }
{
    match index {
        0 => Some(first),
        1 => Some(second),
        2 => Some(third),
        _ => None,
    }
}

/// The branch that a checkout reserves.
fn reserved_at<'a>(branch: Option<u64>, index: usize) -> Option<Subject<'a>>
    ensures subject { option_map model.plain result
        ≡ slice_get (model.reserved_subjects branch) index }
    ensures within { IfSome result (λ _. index < 2 ^ 32) }
{
    match branch {
        None => None,
        Some(branch) => one(Subject::Reserved(branch), index),
    }
}

/// What a checkout of an element by a view affects, where there is one.
fn taken_at<'a>(
    is_out: bool,
    view: &'a Name,
    element: u64,
    branch: Option<u64>,
    index: usize,
) -> Option<Subject<'a>>
    ensures subject { option_map model.plain result
        ≡ slice_get (model.taken_subjects is_out view.now element branch) index }
    ensures within { IfSome result (λ _. index ≤ 2 ^ 33) }
{
    if !is_out {
        return None;
    }
    match index {
        0 => Some(Subject::Out(view, element)),
        1 => Some(Subject::AllCheckedOut(view)),
        _ => reserved_at(branch, index - 2),
    }
}

/// What the making of an element in a directory affects, and what the checkout does that comes with it, where one does.
fn element_at<'a>(
    is_out: bool,
    view: &'a Name,
    number: u64,
    directory: u64,
    name: &'a Name,
    branch: Option<u64>,
    index: usize,
) -> Option<Subject<'a>>
    ensures subject { option_map model.plain result
        ≡ slice_get
        (model.NameIn view.now directory name.now ∷ model.History number ∷ model.Given directory
        ∷ model.taken_subjects is_out view.now number branch)
        index }
    ensures within { IfSome result (λ _. index ≤ 2 ^ 34) }
{
    match index {
        0 => Some(Subject::NameIn(view, directory, name.as_bytes())),
        1 => Some(Subject::History(number)),
        2 => Some(Subject::Given(directory)),
        _ => taken_at(is_out, view, number, branch, index - 3),
    }
}

/// What the making of a branch of an element by a view affects, where it leaves a version and has a name, and what the checkout
/// does that comes with it, where one does.
fn branch_at<'a>(
    is_out: bool,
    view: &'a Name,
    element: u64,
    origin: u64,
    name: &'a Name,
    branch: Option<u64>,
    index: usize,
) -> Option<Subject<'a>>
    ensures subject { option_map model.plain result
        ≡ slice_get
        (model.History element ∷ model.Leaving origin ∷ model.BranchNamed element name.now
        ∷ model.taken_subjects is_out view.now element branch)
        index }
    ensures within { IfSome result (λ _. index ≤ 2 ^ 34) }
{
    match index {
        0 => Some(Subject::History(element)),
        1 => Some(Subject::Leaving(origin)),
        2 => Some(Subject::BranchNamed(element, name)),
        _ => taken_at(is_out, view, element, branch, index - 3),
    }
}

/// One of the elements on whose versions a label is put.
fn placed_at<'a>(placed: &[Placed], index: usize) -> Option<Subject<'a>>
    ensures subject { option_map model.plain result
        ≡ slice_get (map model.history_at placed.now) index }
    ensures within { IfSome result (λ _. index < 2 ^ 63) }
{
    let one = placed.get(index)?;
    Some(Subject::History(one.element))
}

/// The object that a view holds at one of these targets.
fn object_at<'a>(view: &'a Name, targets: &'a [Path], index: usize) -> Option<Subject<'a>>
    ensures subject { option_map model.plain result
        ≡ slice_get (map (model.Object view.now) targets.now) index }
    ensures within { IfSome result (λ _. index < 2 ^ 63) }
{
    let target = targets.get(index)?;
    Some(Subject::Object(view, target))
}

/// The object that a row makes, the objects with its targets, and what the view holds there from then on, all and each.
fn made_at<'a>(
    number: u64,
    view: &'a Name,
    targets: &'a [Path],
    index: usize,
) -> Option<Subject<'a>>
    ensures subject { option_map model.plain result
        ≡ slice_get
        (model.Living number ∷ model.Pool targets.now ∷ model.Owned view.now
        ∷ map (model.Object view.now) targets.now)
        index }
    ensures within { IfSome result (λ _. index ≤ 2 ^ 63 + 2) }
{
    match index {
        0 => Some(Subject::Living(number)),
        1 => Some(Subject::Pool(targets)),
        2 => Some(Subject::Owned(view)),
        _ => object_at(view, targets, index - 3),
    }
}

/// The winks of an object, and what the view holds at its targets from one of them on, all and each.
fn winked_at<'a>(
    object: u64,
    view: &'a Name,
    targets: &'a [Path],
    index: usize,
) -> Option<Subject<'a>>
    ensures subject { option_map model.plain result
        ≡ slice_get
        (model.Winked object ∷ model.Owned view.now ∷ map (model.Object view.now) targets.now)
        index }
    ensures within { IfSome result (λ _. index ≤ 2 ^ 63 + 1) }
{
    match index {
        0 => Some(Subject::Winked(object)),
        1 => Some(Subject::Owned(view)),
        _ => object_at(view, targets, index - 2),
    }
}

/// One of these objects.
fn living_at<'a>(objects: &[u64], index: usize) -> Option<Subject<'a>>
    ensures subject { option_map model.plain result
        ≡ slice_get (map model.Living objects.now) index }
    ensures within { IfSome result (λ _. index < 2 ^ 63) }
{
    let object = objects.get(index)?;
    Some(Subject::Living(*object))
}

/// The targets of the object that the next row names, where it is of this deed. Takes constant time.
pub(crate) fn named_targets<'a>(rows: &FirstRows<'a>, deed: &Deed) -> &'a [Path]
    ensures { result.now ≡ model.named_targets rows.now deed.now }
{
    match deed {
        Deed::Wink { object, .. } => targets_of(rows, *object),
        _ => &[],
    }
}

/// The branch that the next row's checkout reserves, where it is of this deed: that of its origin, a new one for a new element or
/// branch. Takes time logarithmic in the changes of the trees.
pub fn reserved_branch(rows: &FirstRows<'_>, deed: &Deed) -> Option<u64>
    ensures { result ≡ model.reserved_branch rows.now deed.now }
{
    match deed {
        Deed::Mkelem { out: true, .. } => Some(rows.size()),
        Deed::Checkout {
            origin,
            reserved: true,
            ..
        } => branch_of_version(rows, *origin),
        Deed::Branch {
            out: Out::Reserved,
            ..
        } => Some(rows.size()),
        _ => None,
    }
}

/// One of the things that a deed takes out, changes or gives back that makes the row of a number, where its checkout reserves
/// this branch.
fn checkout_subject_at<'a>(
    number: u64,
    branch: Option<u64>,
    deed: &'a Deed,
    index: usize,
) -> Option<Subject<'a>>
    ensures subject { option_map model.plain result
        ≡ slice_get (model.checkout_subjects number branch deed.now) index }
    ensures within { IfSome result (λ _. index ≤ 2 ^ 34) }
{
    match deed {
        Deed::Mkelem {
            view,
            directory,
            name,
            out,
            ..
        } => element_at(*out, view, number, *directory, name, branch, index),
        Deed::Checkout { view, element, .. } => taken_at(true, view, *element, branch, index),
        Deed::Branch {
            view,
            element,
            origin,
            name,
            out,
        } => branch_at(is_out(*out), view, *element, *origin, name, branch, index),
        Deed::Save { view, element, .. } => one(Subject::Saved(view, *element), index),
        Deed::Checkin { view, element } => two(
            Subject::Out(view, *element),
            Subject::History(*element),
            index,
        ),
        Deed::Uncheckout { view, element } => one(Subject::Out(view, *element), index),
        Deed::Rmname {
            view,
            directory,
            name,
        } => one(Subject::NameIn(view, *directory, name.as_bytes()), index),
        Deed::Mv {
            view,
            directory,
            from_name,
            to_name,
        } => three(
            Subject::NameIn(view, *directory, from_name.as_bytes()),
            Subject::NameIn(view, *directory, to_name.as_bytes()),
            Subject::Given(*directory),
            index,
        ),
        _ => None,
    }
}

/// One of the objects of which a deed tells, or of the places where a view holds one, else what the deed takes out, where the
/// object that it names has these targets and its checkout reserves this branch.
fn object_subject_at<'a>(
    number: u64,
    targets: &'a [Path],
    branch: Option<u64>,
    deed: &'a Deed,
    index: usize,
) -> Option<Subject<'a>>
    ensures subject { option_map model.plain result
        ≡ slice_get (model.object_subjects number targets.now branch deed.now) index }
    ensures within { IfSome result (λ _. index ≤ 2 ^ 63 + 2) }
{
    match deed {
        Deed::Publish {
            view,
            targets: own,
            ..
        } => made_at(number, view, own.as_slice(), index),
        Deed::Wink { view, object } => winked_at(*object, view, targets, index),
        Deed::Drop { view, path } => one(Subject::Object(view, path), index),
        Deed::Scrub { objects } => living_at(objects.as_slice(), index),
        _ => checkout_subject_at(number, branch, deed, index),
    }
}

/// One of the subjects on which a deed bears that makes the row of a number, in their order, where the object that it names
/// has these targets and its checkout reserves this branch. Takes constant time.
pub(crate) fn subject_at<'a>(
    number: u64,
    targets: &'a [Path],
    branch: Option<u64>,
    deed: &'a Deed,
    index: usize,
) -> Option<Subject<'a>>
    ensures subject { option_map model.plain result
        ≡ slice_get (model.subjects number targets.now branch deed.now) index }
    ensures within { IfSome result (λ _. index ≤ 2 ^ 63 + 2) }
{
    match deed {
        Deed::Mkview { view } => one(Subject::Life(view), index),
        Deed::Rmview { view } => one(Subject::Life(view), index),
        Deed::Setcs { view, .. } => one(Subject::Spec(view), index),
        Deed::Put { view, path, .. } => two(
            Subject::File(view, path.as_bytes()),
            Subject::Owned(view),
            index,
        ),
        Deed::Rm { view, path } => one(Subject::File(view, path.as_bytes()), index),
        Deed::Mktype { name, .. } => one(Subject::Named(name), index),
        Deed::Arrow {
            element,
            tail,
            head,
        } => two(
            Subject::Merge(*element, *tail, *head),
            Subject::Merged(*head),
            index,
        ),
        Deed::Label { element, .. } => one(Subject::History(*element), index),
        Deed::Unlabel { element, .. } => one(Subject::History(*element), index),
        Deed::Labels { placed, .. } => placed_at(placed.as_slice(), index),
        _ => object_subject_at(number, targets, branch, deed, index),
    }
}

impl Subject<'_> {
    ghost use Rattle.std.specs.Prelude.{◌≡◌};
    ghost use Rattle.base_rows.specs.Subjects as model;

    /// Its key, by this hashing. Takes time linear in its names.
    pub fn key(self, hashing: RandomState) -> u64
        ensures { result ≡ model.key hashing (model.plain self.entry) }
    {
        match self {
            Subject::Life(view) => key_of(hashing, 0, view),
            Subject::Spec(view) => key_of(hashing, 1, view),
            Subject::AllCheckedOut(view) => key_of(hashing, 2, view),
            Subject::File(view, path) => key_within(hashing, 3, view, path),
            Subject::Object(view, path) => key_at(hashing, 4, view, path),
            Subject::Out(view, element) => key_with(hashing, 5, element, view.as_bytes()),
            Subject::Saved(view, element) => key_with(hashing, 6, element, view.as_bytes()),
            Subject::Named(name) => key_of(hashing, 7, name),
            Subject::Living(object) => key_by_one(hashing, 8, object),
            Subject::Winked(object) => key_by_one(hashing, 13, object),
            Subject::Merge(element, tail, head) => key_by_three(hashing, 9, element, tail, head),
            Subject::Merged(head) => key_by_one(hashing, 15, head),
            Subject::History(element) => key_by_one(hashing, 14, element),
            Subject::Leaving(version) => key_by_one(hashing, 16, version),
            Subject::Owned(view) => key_of(hashing, 17, view),
            Subject::BranchNamed(element, name) => {
                key_with(hashing, 19, element, name.as_bytes())
            }
            Subject::Given(directory) => key_by_one(hashing, 18, directory),
            Subject::Changing(began) => key_by_one(hashing, 20, began),
            Subject::Altered(branch, name) => key_with(hashing, 21, branch, name),
            Subject::NameIn(view, directory, name) => key_in(hashing, 10, directory, view, name),
            Subject::Reserved(branch) => key_by_one(hashing, 11, branch),
            Subject::Pool(targets) => key_by_paths(hashing, 12, targets),
        }
    }
}
