//! The files that a job reads.

ghost use Rattle.std.specs.Prelude.{◌≡◌, ◌∷◌, map, string_bytes};
ghost use Rattle.fwupd_base.specs.ImageFiles.{config_source};
ghost use Rattle.fwupd_watch.specs.Inputs.{inputs_of, inputs_seen};

use fwupd_base::{ConfigSource, ImageFile};

/// The files that a job reads, which no output may overwrite.
#[derive(Clone, Copy)]
pub struct Inputs<'a> {
    /// The path of the schedule, if there is one.
    pub schedule: Option<&'a str>,
    /// The path of the configuration.
    pub config: &'a str,
    /// The files of images.
    pub images: &'a [ImageFile<'a>],
    /// The paths of packages.
    pub packages: &'a [String],
}

impl<'a> Inputs<'a> {
    /// Returns those of a configuration with these packages.
    pub fn new(config: &'a ConfigSource<'a>, packages: &'a [String]) -> Inputs<'a>
        ensures { inputs_seen result ≡ inputs_of (config_source config.now) (map (λ p. string_bytes p) packages.now) }
    {
        Inputs {
            schedule: None,
            config: config.path,
            images: config.images.as_slice(),
            packages,
        }
    }

    /// Returns those of a configuration with these packages, and of a schedule.
    pub fn with_schedule(
        schedule: &'a str,
        config: &'a ConfigSource<'a>,
        packages: &'a [String],
    ) -> Inputs<'a>
        ensures { inputs_seen result
            ≡ schedule.now ∷ inputs_of (config_source config.now) (map (λ p. string_bytes p) packages.now) }
    {
        let images = config.images.as_slice();
        Inputs {
            schedule: Some(schedule),
            config: config.path,
            images,
            packages,
        }
    }
}
