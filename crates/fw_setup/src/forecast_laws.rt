//! The law of forecasts.

ghost use Rattle.fw_setup.specs.ForecastLaws.{ForecastsSessions};

/// A session with a device's answers fails with exactly the forecast cause. If none is forecast, it
/// doesn't fail before it offers a component.
pub fn forecasts_sessions()
    ensures { ForecastsSessions }
{}
