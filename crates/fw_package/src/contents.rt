//! The content of a header, without the components' images.

ghost use Rattle.std.specs.Prelude.{◌≡◌, ◌+◌, ◌≤◌, All, IfOk, IsSome, length};
ghost use Rattle.std.specs.Result.{result_map_both};
ghost use Rattle.fw_package.specs.Layout.{after_components, text_size_of};
ghost use Rattle.fw_package.specs.Lent.{contents_seen};
ghost use Rattle.fw_package.specs.Outlines.{contents_of};
ghost use Rattle.fw_package.specs.Package.{text_of};
ghost use Rattle.fw_package.specs.Reading.{IsUsing, version_of};

use crate::fault::PackageFault;
use crate::layout::{BITMAP_BITS, FIXED_SIZE, RELEASE, VERSION_LENGTH, VERSION_TYPE, walk};
use crate::numbers::u16_at;
use crate::reading::{bitmap_size, check, header};
use crate::records::Records;
use crate::texts::Text;

/// A header's size, its release time and version text, its records, and its components' bytes.
#[derive(Drop)]
pub(crate) struct Contents<'a> {
    /// The header's size in bytes.
    pub header_size: usize,
    /// The release time, 13 bytes.
    pub release: &'a [u8],
    /// The version text.
    pub version: Text<'a>,
    /// The records.
    pub records: Records<'a>,
    /// The number of components.
    pub component_count: usize,
    /// The header from its first component on.
    pub components: &'a [u8],
}

impl<'a> Contents<'a> {
    /// Reads header, layout, records and checksum, in the order of their faults. The bytes after
    /// the header are ignored.
    ///
    /// # Errors
    /// The first fault that holds, except those of the images.
    #[tactic(auto, unfolding(crate::specs::Outlines::contents_of))]
    pub(crate) fn read(bytes: &'a [u8]) -> Result<Contents<'a>, PackageFault>
        ensures value { result_map_both contents_seen (λ e. e) result ≡ contents_of bytes.now }
        ensures there { IfOk result (λ c. IsSome (after_components c.component_count c.components.now)) }
        ensures using { IfOk result (λ c. All (IsUsing c.component_count) c.records) }
        ensures few { IfOk result (λ c. c.component_count ≤ 2978) }
    {
        let header = header(bytes)?;
        let Some(layout) = walk(header) else {
            return Err(PackageFault::HeaderSize);
        };
        let bitmap_size = bitmap_size(
            usize::from(u16_at(header, BITMAP_BITS)),
            layout.component_count,
        )?;
        let records = Records::read(
            layout.records,
            layout.record_count,
            bitmap_size,
            layout.component_count,
        )?;
        check(header)?;
        Ok(Contents {
            header_size: header.len(),
            release: &header[RELEASE..BITMAP_BITS],
            version: version_text(header),
            records,
            component_count: usize::from(layout.component_count),
            components: layout.components,
        })
    }
}

/// Returns the version text of a header.
fn version_text(header: &[u8]) -> Text<'_>
    requires { FIXED_SIZE + text_size_of VERSION_LENGTH header.now ≤ length header.now }
    ensures { text_of result ≡ version_of header.now }
{
    let size = usize::from(header[VERSION_LENGTH]);
    Text {
        kind: header[VERSION_TYPE],
        bytes: &header[FIXED_SIZE..FIXED_SIZE + size],
    }
}
