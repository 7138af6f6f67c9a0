//! Laws of what an agent keeps.

ghost use Rattle.agent_store.specs.Kept.{WhatIsKeptIsResumed};

/// The lines of what an agent keeps, whose devices are all different, give its sessions and its
/// log.
pub fn what_is_kept_is_resumed()
    ensures { WhatIsKeptIsResumed }
{}
