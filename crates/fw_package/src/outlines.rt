//! The outline of a package: all but its images, read from its header alone.

ghost use Rattle.std.specs.Prelude.{◌≡◌, ◌<◌, get_or, length, ℕ};
ghost use Rattle.fw_package.specs.Outlines.{outline_of};

use crate::contents::Contents;
use crate::fault::PackageFault;
use crate::places::ComponentPlaces;
use crate::records::Records;
use crate::texts::Text;
use std::marker::Model;

/// The most bytes at the beginning of a file that a package's header takes: a header's size is two
/// bytes.
pub const BEGINNING_SIZE: usize = 65_535;

/// A firmware update package without its images: a view of its header, from which all values are
/// borrowed.
#[derive(Drop)]
pub struct Outline<'a> {
    header_size: usize,
    release: &'a [u8],
    version: Text<'a>,
    records: Records<'a>,
    places: ComponentPlaces<'a>,
}

impl<'a> Model for Outline<'a> {
    ghost use Rattle.fw_package.specs.Outlines.{OutlineOf};
    ghost use Rattle.fw_package.specs.Package.{text_of};

    ghost Value = { OutlineOf };

    ghost view = { λ o. record {
      header_size = o.header_size;
      release = o.release.now;
      version = text_of o.version;
      records = o.records;
      places = o.places;
    } };
}

impl<'a> Outline<'a> {
    ghost use Rattle.std.specs.Prelude.{List, ℕ};
    ghost use Rattle.std.specs.Result.{result_map_both};
    ghost use Rattle.fw_package.specs.Outlines.{IsBeginning, outline_of_package};
    ghost use Rattle.fw_package.specs.Package.{text_of};
    ghost use Rattle.fw_package.specs.Reading.{package_of};

    /// Reads the outline of a package from its first 65,535 bytes, or all if it has fewer, and from
    /// its length. The bytes after the header are ignored.
    ///
    /// # Errors
    /// A file that is no package is refused with the first fault that holds.
    pub fn read(beginning: &'a [u8], file_length: usize) -> Result<Outline<'a>, PackageFault>
        ensures value { result ≡ outline_of beginning.now file_length }
        ensures whole { (file : List ℕ)
            → IsBeginning file beginning.now file_length
            → result ≡ result_map_both outline_of_package (λ e. e) (package_of file) }
    {
        are_bytes(beginning);
        Outline::read_parts(beginning, file_length)
    }

    /// Reads the header's contents and the components, in the order of their faults.
    #[tactic(auto, unfolding(crate::specs::Outlines::outline_of))]
    fn read_parts(beginning: &'a [u8], file_length: usize) -> Result<Outline<'a>, PackageFault>
        ensures { result ≡ outline_of beginning.now file_length }
    {
        let contents = Contents::read(beginning)?;
        let places = ComponentPlaces::read(
            file_length,
            contents.components,
            contents.component_count,
        )?;
        Ok(Outline {
            header_size: contents.header_size,
            release: contents.release,
            version: contents.version,
            records: contents.records,
            places,
        })
    }

    /// Returns the bytes of the header.
    pub fn header_size(&self) -> usize
        ensures { result ≡ self.now.header_size }
    {
        self.header_size
    }

    /// Returns the release time, a timestamp104 of DSP0240 in its encoded form, 13 bytes.
    pub fn release(&self) -> &'a [u8]
        ensures { result.now ≡ self.now.release }
    {
        self.release
    }

    /// Returns the version text of the whole package.
    pub fn version(&self) -> Text<'a>
        ensures { text_of result ≡ self.now.version }
    {
        self.version
    }

    /// Returns the number of records.
    pub fn record_count(&self) -> usize
        ensures { result ≡ length self.now.records }
    {
        self.records.len()
    }

    /// Returns the number of components.
    pub fn place_count(&self) -> usize
        ensures { result ≡ length self.now.places }
    {
        self.places.len()
    }

    /// Returns the records, in order.
    pub fn records(&self) -> Records<'a>
        ensures { result ≡ self.now.records }
    {
        self.records.iter()
    }

    /// Returns the components, each with its image's place, in order.
    pub fn places(&self) -> ComponentPlaces<'a>
        ensures { result ≡ self.now.places }
    {
        self.places.iter()
    }
}

/// Bytes are numbers below 256.
fn are_bytes(bytes: &[u8])
    ensures { (i : ℕ) → get_or bytes.now i 0 < 256 }
{}
