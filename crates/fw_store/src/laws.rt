//! Laws of kept images.

ghost use Rattle.fw_store.specs.Active.{NothingElseIsRead, WhatIsWrittenIsRead};
ghost use Rattle.fw_store.specs.AgentText.{AgentTextIsRead, NoOtherAgentTextIsRead};
ghost use Rattle.fw_store.specs.DiskCases.{RenamingsAreJudged};
ghost use Rattle.fw_store.specs.Folders.{WhatIsKeptIsFound};

/// An encoded list of images reads back as exactly that list, if its numbers have their widths.
pub fn active_reads_back()
    ensures { WhatIsWrittenIsRead }
{}

/// A text reads as images only if it is their encoded form, so every other text is refused.
pub fn nothing_else_reads()
    ensures { NothingElseIsRead }
{}

/// Over the images of any configuration, keeping some images in a folder replaces those of their
/// components, and no others.
pub fn what_is_kept_is_found()
    ensures { WhatIsKeptIsFound }
{}

/// Losses of power by hand, each allowed or refused by the definitions of a renaming's order on the
/// disk.
pub fn renamings_are_judged()
    ensures { RenamingsAreJudged }
{}

/// The text of what an agent keeps reads back as exactly its lines, if their numbers have their
/// widths.
pub fn agent_text_reads_back()
    ensures { AgentTextIsRead }
{}

/// A text reads as lines of an agent only if it is their text, so every other text is refused.
pub fn no_other_agent_text_reads()
    ensures { NoOtherAgentTextIsRead }
{}
