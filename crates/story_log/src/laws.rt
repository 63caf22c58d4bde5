//! The laws of stops and of journals.

ghost use Rattle.story_log.specs.Stored.Damaged.{FoundIsDamagedOnce, FramesAreOfOneList, RepresentedIsUndamaged};
ghost use Rattle.story_log.specs.Stored.Laws.{KeptBaseIsRepresented, OpenedBaseIsRepresented, OpenedBaseIsSound, RepresentedIsABase, RepresentedIsAlike};
ghost use Rattle.story_log.specs.Stored.WithoutExtents.{RepresentedHasNoExtent, SpelledIsRepresented, WithoutExtentsDamageIsOfFrames, WithoutExtentsNothingChanges};
ghost use Rattle.story_log.specs.Stopping.StopLaws.{FoundBaseIsSound, StopLeavesABase, StopOpensAgain};
ghost use Rattle.story_log.specs.Story.Formed.{FaultLeavesAFormedRow, StoryKeepsItsBaseFormed};

use legal_history::laws::stops;

/// Promises `StopLeavesABase`: whatever a stop may find of a legal story represents a base, each of whose rows fits those
/// before it: that of the commits so far, or that and a row which a command would have committed there. It is sound where the
/// base was sound as it was opened.
pub fn a_stop_leaves_a_base()
    ensures { StopLeavesABase }
{
    stops::a_stop_leaves_a_base();
    stops::a_stop_leaves_a_base_sound();
}

/// Promises `StoryKeepsItsBaseFormed` and `FaultLeavesAFormedRow`: if a history names only formed rows, its base has
/// only formed rows, and the row that a fault may have left after it is formed.
pub fn a_story_keeps_its_base_formed()
    ensures base { StoryKeepsItsBaseFormed }
    ensures left { FaultLeavesAFormedRow }
{}

/// Promises `StopOpensAgain`: whatever a stop may find of a legal history that names only formed rows opens again,
/// without damage and to one base: that of the commits so far, or that and one row more, which a command would have
/// committed there. It is sound where the base was sound as it was opened.
pub fn a_stop_opens_again()
    ensures { StopOpensAgain }
{
    stops::a_stop_leaves_a_base();
    stops::a_stop_leaves_a_base_sound();
}

/// Promises `FoundBaseIsSound`: what a stop leaves is opened to a sound base, where the base was sound that had been opened.
pub fn a_found_base_is_sound()
    ensures { FoundBaseIsSound }
{}

/// Promises `SpelledIsRepresented`, `WithoutExtentsNothingChanges`, `RepresentedHasNoExtent` and
/// `WithoutExtentsDamageIsOfFrames`: a disk represents each base of formed rows that its frames spell, and where no frame names
/// an extent, no others. No frame names one where the disk represents a base. Without extents a frame is damaged exactly where
/// it is the first whose row does not fit those before it.
pub fn without_extents_nothing_changes()
    ensures spelled { SpelledIsRepresented }
    ensures represents { WithoutExtentsNothingChanges }
    ensures none { RepresentedHasNoExtent }
    ensures damage { WithoutExtentsDamageIsOfFrames }
{}

/// Promises `OpenedBaseIsRepresented`, `RepresentedIsABase`, `RepresentedIsAlike` and `OpenedBaseIsSound`: where objects
/// with extents were scrubbed, the files of a disk represent many bases. The one that is opened is one of them, and sound
/// where any of them is.
pub fn an_opened_base_is_represented()
    ensures opened { OpenedBaseIsRepresented }
    ensures base { RepresentedIsABase }
    ensures alike { RepresentedIsAlike }
    ensures sound { OpenedBaseIsSound }
{}

/// Promises `KeptBaseIsRepresented`: whatever a stop leaves of a file of objects that keeps a base represents that base.
pub fn a_kept_base_is_represented()
    ensures { KeptBaseIsRepresented }
{}

/// Promises `RepresentedIsUndamaged`, `FramesAreOfOneList` and `FoundIsDamagedOnce`: what represents a base is not
/// damaged, frames spell one list of formed rows at most, and one frame at most is damaged.
pub fn what_represents_a_base_is_undamaged()
    ensures undamaged { RepresentedIsUndamaged }
    ensures one { FramesAreOfOneList }
    ensures once { FoundIsDamagedOnce }
{}
