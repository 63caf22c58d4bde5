//! The law of builds, the contract of a function with an empty body.

ghost use Rattle.build_core.specs.Laws.{UnitMayPublish};

/// Promises `UnitMayPublish`: each unit of a consistent build of formed units may publish.
pub fn a_unit_may_publish()
    ensures { UnitMayPublish }
{}
