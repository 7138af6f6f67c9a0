//! Laws of written schedules.

ghost use Rattle.fw_script.specs.ScheduleTexts.{OnlyRoundTripsAreRead, PortionsAreTheWhole, SchedulesReadBack};

/// The text written for steps that a schedule can encode reads back as exactly these steps, and
/// every schedule reads as such steps. The text doesn't depend on the portions in which the steps
/// are written.
pub fn schedules_read_back()
    ensures read { SchedulesReadBack }
    ensures only { OnlyRoundTripsAreRead }
    ensures portions { PortionsAreTheWhole }
{}
