//! The words that are printed for refusals and causes.

ghost use Rattle.std.specs.Prelude.{◌≡◌};
ghost use Rattle.reply_text.specs.Refusals.{refusal_name, spec_cause, make_cause};

use cc_names::refusals::{MakeCause, Refusal, SpecCause};

/// The code and the name of a refusal.
pub(crate) fn refusal_name(refusal: &Refusal) -> &'static [u8]
    ensures { result.now ≡ refusal_name refusal.now }
{
    match refusal {
        Refusal::NoView => b"C1 NoView",
        Refusal::ViewExists => b"C2 ViewExists",
        Refusal::NoPath(_) => b"C3 NoPath",
        Refusal::NotDirectory(_) => b"C4 NotDirectory",
        Refusal::NameTaken(_) => b"C5 NameTaken",
        Refusal::NotElement(_) => b"C6 NotElement",
        Refusal::NotCheckedOut(_) => b"C7 NotCheckedOut",
        Refusal::AlreadyOut(_) => b"C8 AlreadyOut",
        Refusal::Reserved(_) => b"C9 Reserved",
        Refusal::NotLatest(_) => b"C10 NotLatest",
        Refusal::Identical(_) => b"C11 Identical",
        Refusal::ParentNotOut(_) => b"C12 ParentNotOut",
        Refusal::NoType(_) => b"C13 NoType",
        Refusal::TypeExists(_) => b"C14 TypeExists",
        Refusal::BranchExists(_) => b"C15 BranchExists",
        Refusal::LabelElsewhere(_) => b"C16 LabelElsewhere",
        Refusal::NoCheckoutRule(_) => b"C17 NoCheckoutRule",
        Refusal::Building(_) => b"C18 Building",
        Refusal::IsDerived(_) => b"C19 IsDerived",
        Refusal::NoObject(_) => b"C20 NoObject",
        Refusal::HasCheckouts(_) => b"C21 HasCheckouts",
        Refusal::BadSpec(_, _) => b"C22 BadSpec",
        Refusal::Full(_) => b"C23 Full",
        Refusal::NoLabel(_) => b"C24 NoLabel",
        Refusal::IsDirectory(_) => b"C25 IsDirectory",
        Refusal::NotVersion(_) => b"C26 NotVersion",
        Refusal::NoVersion(_) => b"C27 NoVersion",
        Refusal::ArrowExists(_) => b"C28 ArrowExists",
        Refusal::SameVersion(_) => b"C29 SameVersion",
        Refusal::NoMakefile(_) => b"B1 NoMakefile",
        Refusal::MakeError(_, _, _) => b"M1 MakeError",
        Refusal::NoGoal(_) => b"G1 NoGoal",
        Refusal::Cycle(_) => b"G2 Cycle",
        Refusal::TargetIsSource(_) => b"G3 TargetIsSource",
    }
}

/// The name of the cause of a bad config spec.
pub(crate) fn spec_cause(cause: SpecCause) -> &'static [u8]
    ensures { result.now ≡ spec_cause cause }
{
    match cause {
        SpecCause::BadRule => b"BadRule",
        SpecCause::BadPattern => b"BadPattern",
        SpecCause::BadSelector => b"BadSelector",
        SpecCause::BadDate => b"BadDate",
        SpecCause::BadType => b"BadType",
        SpecCause::NoBlock => b"NoBlock",
    }
}

/// The name of the cause of a bad makefile.
pub(crate) fn make_cause(cause: MakeCause) -> &'static [u8]
    ensures { result.now ≡ make_cause cause }
{
    match cause {
        MakeCause::BadLine => b"BadLine",
        MakeCause::BadMacro => b"BadMacro",
        MakeCause::BadPath => b"BadPath",
        MakeCause::LineTooLong => b"LineTooLong",
        MakeCause::MacroLoop => b"MacroLoop",
        MakeCause::TwoScripts => b"TwoScripts",
        MakeCause::IncludeAbsent => b"IncludeAbsent",
        MakeCause::IncludeDepth => b"IncludeDepth",
        MakeCause::TooMany => b"TooMany",
        MakeCause::PhonyScript => b"PhonyScript",
    }
}
