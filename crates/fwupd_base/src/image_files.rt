//! Files of images in the place of those of a configuration.

ghost use Rattle.std.specs.Prelude.{◌≡◌, ◌≤◌, ◌<◌, ◌++◌, ◌∷◌, [], true, false, length, map};

use fwup_wire::Key;

/// The most files of images: those of 16 devices with 3 components each.
pub const MAX_IMAGE_FILES: usize = 48;

/// A file whose bytes take the place of a component's configured image.
#[derive(Clone, Copy)]
pub struct ImageFile<'a> {
    /// The device's endpoint identifier, 8 to 254.
    pub eid: u8,
    /// The component's key.
    pub key: Key,
    /// The path of the file.
    pub path: &'a str,
}

/// Files of images, at most 48.
#[derive(Clone, Copy)]
pub struct ImageFiles<'a> {
    count: usize,
    files: [ImageFile<'a>; MAX_IMAGE_FILES],
    pub ghost fits: { (count ≤ 48) × (length files ≡ 48) },
}

/// A configuration: its file, and the files of images.
#[derive(Clone, Copy)]
pub struct ConfigSource<'a> {
    /// The path of the configuration.
    pub path: &'a str,
    /// The files whose bytes take the place of its images.
    pub images: ImageFiles<'a>,
}

impl<'a> ImageFiles<'a> {
    ghost use Rattle.fwupd_base.specs.ImageFiles.{files_in, image_file};

    /// Creates the value without files.
    pub fn new() -> ImageFiles<'a>
        ensures { files_in result ≡ [] }
    {
        let none = ImageFile {
            eid: 0,
            key: Key {
                classification: 0,
                identifier: 0,
            },
            path: "",
        };
        ImageFiles {
            count: 0,
            files: [none; MAX_IMAGE_FILES],
        }
    }

    /// Adds a file, and returns whether there was room for it.
    pub fn push(&mut self, file: ImageFile<'a>) -> bool
        ensures added { result ≡ true
            → files_in self.new ≡ files_in self.old ++ image_file file.entry ∷ [] }
        ensures room { length (files_in self.old) < 48 → result ≡ true }
        ensures full { result ≡ false → files_in self.new ≡ files_in self.old }
    {
        if self.count == MAX_IMAGE_FILES {
            return false;
        }
        self.files[self.count] = file;
        self.count += 1;
        true
    }

    /// Returns the files, in the order in which they were added.
    pub fn as_slice(&self) -> &[ImageFile<'a>]
        ensures { map image_file result.now ≡ files_in self.now }
    {
        &self.files[..self.count]
    }
}
