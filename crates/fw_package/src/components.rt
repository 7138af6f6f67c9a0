//! Components with their images.

ghost use Rattle.std.specs.Iterator.{YieldsFirstBy, item_count};
ghost use Rattle.std.specs.Prelude.{◌≡◌, ◌+◌, ◌≤◌, length, drop, IsSome};
ghost use Rattle.std.specs.Result.{result_map_both};
ghost use Rattle.fw_package.specs.Components.{component_of, components_of, component_at_place};
ghost use Rattle.fw_package.specs.Layout.{after_component, after_components};
ghost use Rattle.fw_package.specs.Lent.{component_seen, place_seen};

use crate::fault::PackageFault;
use crate::layout::skip_components;
use crate::places::{Place, others};
use crate::texts::Text;
use std::marker::Model;

/// A component and its image, borrowed from its package's file.
#[derive(Clone, Copy, PartialEq, Eq)]
pub struct Component<'a> {
    /// The classification, the first part of the key.
    pub classification: u16,
    /// The identifier, the second part of the key.
    pub identifier: u16,
    /// The comparison stamp.
    pub stamp: u32,
    /// The options: bit 0 forces the update, bit 1 uses the stamp.
    pub options: u16,
    /// The requested activation methods.
    pub method: u16,
    /// The image's offset in bytes from the file's start.
    pub offset: usize,
    /// The version text.
    pub text: Text<'a>,
    /// The image.
    pub image: &'a [u8],
}

impl<'a> Component<'a> {
    /// Reads the component at the beginning of these bytes of a header.
    ///
    /// # Errors
    /// `ImageRange` if its image goes past the file's end.
    #[tactic(auto, using(crate::proofs::Outlined::component_unplaced))]
    fn read(file: &'a [u8], bytes: &'a [u8]) -> Result<Component<'a>, PackageFault>
        requires { IsSome (after_component bytes.now) }
        ensures { result_map_both component_seen (λ e. e) result ≡ component_of file.now bytes.now }
    {
        match Place::read(file.len(), bytes) {
            Ok(place) => Ok(Component::at(file, place)),
            Err(fault) => Err(fault),
        }
    }

    /// Returns the component whose image is at this place of the file.
    fn at(file: &'a [u8], place: Place<'a>) -> Component<'a>
        requires { place.offset + place.size ≤ length file.now }
        ensures { component_seen result ≡ component_at_place file.now (place_seen place.entry) }
    {
        Component {
            classification: place.classification,
            identifier: place.identifier,
            stamp: place.stamp,
            options: place.options,
            method: place.method,
            offset: place.offset,
            text: place.text,
            image: &file[place.offset..place.offset + place.size],
        }
    }
}

/// The components of a package, in order. It is also an iterator over them.
#[derive(Drop)]
pub struct Components<'a> {
    file: &'a [u8],
    count: usize,
    rest: &'a [u8],
}

impl<'a> Model for Components<'a> {
    ghost use Rattle.std.specs.Prelude.{List};
    ghost use Rattle.fw_package.specs.Components.{components_of};
    ghost use Rattle.fw_package.specs.Package.{ComponentOf};
    ghost use Rattle.fw_package.specs.Views.{AreComponents, list_or_empty};

    ghost Value = { List ComponentOf };

    ghost view = { λ c. list_or_empty (components_of c.file.now c.count c.rest.now) };

    ghost invariant = { λ c. AreComponents c.file.now c.count c.rest.now };
}

impl<'a> Components<'a> {
    /// Reads `count` components, the first at the beginning of these bytes of the file's header.
    ///
    /// # Errors
    /// `ImageRange` if an image goes past the file's end.
    #[tactic(auto, using(crate::proofs::Rows::composing))]
    pub(crate) fn read(
        file: &'a [u8],
        bytes: &'a [u8],
        count: usize,
    ) -> Result<Components<'a>, PackageFault>
        requires { IsSome (after_components count bytes.now) }
        ensures { result ≡ components_of file.now count bytes.now }
    {
        let mut rest = bytes;
        for _component in 0..count {
            let _ = Component::read(file, rest)?;
            rest = others(rest);
        }
        Ok(Components {
            file,
            count,
            rest: bytes,
        })
    }

    /// Returns the number of components left.
    #[tactic(auto, using(crate::proofs::Rows::components_count))]
    pub fn len(&self) -> usize
        ensures { result ≡ length self.now }
    {
        self.count
    }

    /// Returns an iterator over the components.
    pub fn iter(&self) -> Components<'a>
        ensures { result ≡ self.now }
    {
        Components {
            file: self.file,
            count: self.count,
            rest: self.rest,
        }
    }

    /// Returns the components from this number on. The components before it are skipped by their
    /// lengths.
    #[tactic(auto, using(crate::proofs::Rows::components_starting))]
    pub(crate) fn from(&self, number: usize) -> Components<'a>
        requires { number ≤ length self.now }
        ensures { result ≡ drop number self.now }
    {
        let Some(rest) = skip_components(self.rest, number) else {
            unreachable!()
        };
        Components {
            file: self.file,
            count: self.count - number,
            rest,
        }
    }
}

impl<'a> Iterator for Components<'a> {
    type Item = Component<'a>;

    ghost next_gives = { YieldsFirstBy component_seen (λ left. left) };

    ghost remaining = { item_count (λ left. left) };

    #[tactic(auto, using(crate::proofs::Rows::components_next))]
    fn next(&mut self) -> Option<Component<'a>> {
        if self.count == 0 {
            return None;
        }
        let Ok(component) = Component::read(self.file, self.rest) else {
            unreachable!()
        };
        *self = Components {
            file: self.file,
            count: self.count - 1,
            rest: others(self.rest),
        };
        Some(component)
    }
}
