//! The areas in which a bank in memory keeps a component's images.

ghost use Rattle.std.specs.Prelude.{◌≡◌, ◌+◌, ◌<◌, ◌≤◌, [], IfOk, None, OnErr, OnOk, length, option_map};
ghost use Rattle.fd_core.specs.Areas.{place_after_switch, place_after_put, applied_spare, place_after_begin, place_after_drop, image_at, is_taken, area_with_bytes, no_area, numbers_by, row_by, shape_of, spare_of, written_area};
ghost use Rattle.fd_core.specs.Images.{same_key};

use crate::labels::Label;
use fwup_wire::Key;
use std::alloc::{AllocError, Global};
use std::marker::Model;

/// The number of areas of a component: one is active, one may be applied, and one is written.
const AREAS: usize = 3;

/// Memory for an image, and the image's label.
#[derive(Drop)]
struct Area {
    label: Label,
    /// The size in bytes of the image that the area was begun for. The area has memory for as many.
    size: u32,
    bytes: Vec<u8>,
}

impl Model for Area {
    ghost use Rattle.std.specs.Prelude.{◌≤◌, vec_capacity};
    ghost use Rattle.fd_core.specs.Areas.{AreaOf};

    ghost Value = { AreaOf };

    ghost view = { λ a. record { label = a.label; size = a.size; bytes = a.bytes.items } };

    ghost invariant = { λ a. a.size ≤ vec_capacity a.bytes };
}

impl Area {
    /// Returns an area without an image and without memory.
    fn empty(alloc: Global) -> Area
        ensures { result ≡ no_area }
    {
        Area {
            label: Label::empty(),
            size: 0,
            bytes: Vec::new(alloc),
        }
    }

    /// Makes room for an image of `size` bytes, which is then written from its first byte.
    ///
    /// # Errors
    /// Fails if memory can't be allocated. Then the area is unchanged.
    fn begin(&mut self, size: u32, label: &Label) -> Result<(), AllocError>
        ensures ok { OnOk result (self.new ≡ record { label = label.now; size = size; bytes = [] }) }
        ensures kept { OnErr result (self.new ≡ self.old) }
    {
        let missing = (size as usize).saturating_sub(self.bytes.len());
        let Ok(()) = self.bytes.reserve_exact(missing) else {
            return Err(AllocError);
        };
        self.bytes.clear();
        self.size = size;
        self.label = label.copied();
        Ok(())
    }

    /// Appends to the image, in the memory that the area has.
    fn append(&mut self, piece: &[u8])
        requires { length self.old.bytes + length piece.now ≤ self.old.size }
        ensures { self.new ≡ area_with_bytes piece.now self.old }
    {
        let _ = self.bytes.extend_from_slice(piece);
    }

    /// Returns the image.
    fn image(&self) -> (&Label, &[u8])
        ensures label { result.0.now ≡ self.now.label }
        ensures bytes { result.1.now ≡ self.now.bytes }
    {
        (&self.label, self.bytes.as_slice())
    }
}

/// A component's areas.
#[derive(Drop)]
pub(super) struct Place {
    key: Key,
    areas: [Area; AREAS],
    /// The number of the active area.
    active: usize,
    /// The number of the applied area, which becomes active next.
    applied: Option<usize>,
}

impl Model for Place {
    ghost use Rattle.std.specs.Prelude.{◌<◌, IfSome};
    ghost use Rattle.fd_core.specs.Areas.{ComponentAreasOf};

    ghost Value = { ComponentAreasOf };

    ghost view = { λ p. record { key = p.key; areas = p.areas; active = p.active; applied = p.applied } };

    ghost invariant = { λ p. (p.active < 3) × IfSome p.applied (λ n. n < 3) };
}

impl Place {
    /// Returns a component with its active image in area 0.
    ///
    /// # Errors
    /// Fails if memory can't be allocated.
    pub(super) fn new(
        alloc: Global,
        key: Key,
        label: &Label,
        image: &[u8],
    ) -> Result<Place, AllocError>
        ensures shape { IfOk result (λ p. shape_of p ≡ record { key = key; areas = 3 }) }
        ensures numbers { IfOk result (λ p. numbers_by p ≡ record { key = key; active = 0; applied = None }) }
        ensures row { IfOk result (λ p. row_by p ≡ record {
          key = key;
          active = record { label = label.now; bytes = image.now };
          applied = None;
        }) }
    {
        let mut bytes = Vec::new(alloc);
        let Ok(()) = bytes.extend_from_slice(image) else {
            return Err(AllocError);
        };
        let factory = Area {
            label: label.copied(),
            size: 0,
            bytes,
        };
        Ok(Place {
            key,
            areas: [factory, Area::empty(alloc), Area::empty(alloc)],
            active: 0,
            applied: None,
        })
    }

    /// Returns whether this is the place of the component.
    pub(super) fn is_of(&self, key: Key) -> bool
        ensures { result ≡ same_key self.now.key key }
    {
        self.key == key
    }

    /// Returns the number of the active area, and that of the applied area.
    pub(super) fn numbers(&self) -> (usize, Option<usize>)
        ensures { result ≡ (self.now.active, self.now.applied) }
    {
        (self.active, self.applied)
    }

    /// Returns the active image.
    pub(super) fn active(&self) -> (&Label, &[u8])
        ensures { record { label = result.0.now; bytes = result.1.now } ≡ image_at self.now.areas self.now.active }
    {
        let area = &self.areas[self.active];
        area.image()
    }

    /// Returns the applied image.
    pub(super) fn applied(&self) -> Option<(&Label, &[u8])>
        ensures { option_map (λ r. record { label = r.0.now; bytes = r.1.now }) result
            ≡ option_map (image_at self.now.areas) self.now.applied }
    {
        let area = &self.areas[self.applied?];
        Some(area.image())
    }

    /// Returns whether an area is active or applied.
    fn is_taken(&self, number: usize) -> bool
        ensures { result ≡ is_taken self.now.active self.now.applied number }
    {
        self.active == number || self.applied == Some(number)
    }

    /// Returns the number of the spare area: the least-numbered that is neither active nor applied.
    /// Images are written to it.
    fn spare(&self) -> usize
        ensures number { result ≡ spare_of self.now }
        ensures within { result < 3 }
    {
        if !self.is_taken(0) {
            0
        } else if !self.is_taken(1) {
            1
        } else {
            2
        }
    }

    /// Makes room for an image of `size` bytes in the spare area.
    ///
    /// # Errors
    /// Fails if memory can't be allocated. Then nothing changes.
    pub(super) fn begin(&mut self, size: u32, label: &Label) -> Result<(), AllocError>
        ensures ok { OnOk result (self.new ≡ place_after_begin size label.now self.old) }
        ensures kept { OnErr result (self.new ≡ self.old) }
    {
        let spare = self.spare();
        let area = &mut self.areas[spare];
        area.begin(size, label)
    }

    /// Appends to the image in the spare area.
    pub(super) fn append(&mut self, piece: &[u8])
        requires { length (written_area self.old).bytes + length piece.now ≤ (written_area self.old).size }
        ensures { self.new ≡ place_after_put piece.now self.old }
    {
        let spare = self.spare();
        let area = &mut self.areas[spare];
        area.append(piece);
    }

    /// Makes the image in the spare area applied.
    pub(super) fn apply(&mut self)
        ensures { self.new ≡ applied_spare self.old }
    {
        self.applied = Some(self.spare());
    }

    /// Makes the applied image active.
    pub(super) fn activate(&mut self)
        ensures { self.new ≡ place_after_switch self.old }
    {
        if let Some(number) = self.applied.take() {
            self.active = number;
        }
    }

    /// Drops the applied image.
    pub(super) fn forget(&mut self)
        ensures { self.new ≡ place_after_drop self.old }
    {
        self.applied = None;
    }
}
