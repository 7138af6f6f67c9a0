//! A bank that keeps its images in memory.

ghost use Rattle.std.specs.Prelude.{◌≡◌, ◌+◌, ◌<◌, ◌≤◌, ◌++◌, ◌∷◌, [], IfErr, IfSome, IsOk, IsSome, IsSomeAnd, None, OnErr, OnOk, Some, false, get_or, length, map, option_map, true};
ghost use Rattle.fd_core.specs.Areas.{AreShaped, BankOf, place_after_switch, place_after_put, applied_spare, place_after_begin, places_with, place_after_drop, no_place, numbers_dropped, numbers_for, numbers_sealed, numbers_switched, place_for, shape_of, written_area};
ghost use Rattle.fd_core.specs.Banks.{CountsFailure, has_key};
ghost use Rattle.fd_core.specs.Codes.{longest_image};
ghost use Rattle.fd_core.specs.Images.{rows_after_drop, key_of, row_of, same_key, sealed_by, staged_with, rows_after_switch};

use crate::bank::{Bank, BankFault};
use crate::labels::Label;
use fwup_wire::Key;
use std::alloc::{AllocError, Global};
use std::marker::Model;

mod places;

use places::Place;

/// A bank in memory. Each component has three areas: one is active, one may be applied, and one is
/// written. No image is copied when it is applied or activated, and writing can't change an active
/// or applied image.
///
/// `begin` allocates the memory of the whole image if the area hasn't got it yet; no other call of
/// `Bank` allocates.
#[derive(Drop)]
pub struct MemBank {
    alloc: Global,
    places: Vec<Place>,
    /// The component that is being written.
    staged: Option<Key>,
    faults: u64,
}

impl Model for MemBank {
    ghost use Rattle.std.specs.Prelude.{map};
    ghost use Rattle.fd_core.specs.Areas.{BankOf, IsBank, bank_by, shape_of};

    ghost Value = { BankOf };

    ghost view = { λ b. bank_by b.places.items b.staged b.faults };

    ghost invariant = { λ b. IsBank (map shape_of b.places.items) b.staged };
}

impl MemBank {
    /// Returns a bank without components.
    pub fn new(alloc: Global) -> MemBank
        ensures rows { result.rows ≡ [] }
        ensures stage { result.stage ≡ None }
        ensures faults { result.faults ≡ 0 }
        ensures areas { result.areas ≡ [] }
    {
        MemBank {
            alloc,
            places: Vec::new(alloc),
            staged: None,
            faults: 0,
        }
    }

    /// Adds a component that isn't in the bank, with its active image in area 0.
    ///
    /// # Errors
    /// `Memory` if the memory of a component and its image can't be allocated. Then nothing
    /// changes.
    #[tactic(auto, using(crate::proofs::MemBanks::bank_more, crate::proofs::MemBanks::stage_more))]
    pub fn add(&mut self, key: Key, label: &Label, image: &[u8]) -> Result<(), BankFault>
        requires { has_key (map key_of self.old.rows) key ≡ false }
        ensures rows { OnOk result (self.new.rows ≡ self.old.rows
            ++ record {
              key = key;
              active = record { label = label.now; bytes = image.now };
              applied = None;
            } ∷ []) }
        ensures areas { OnOk result (self.new.areas ≡ self.old.areas ++ record { key = key; active = 0; applied = None } ∷ []) }
        ensures stage { self.new.stage ≡ self.old.stage }
        ensures faults { self.new.faults ≡ self.old.faults }
        ensures kept { OnErr result (self.new ≡ self.old) }
        ensures err { IfErr result (λ e. e ≡ BankFault.Memory) }
    {
        let Ok(place) = Place::new(self.alloc, key, label, image) else {
            return Err(BankFault::Memory);
        };
        let Ok(()) = self.places.push(place) else {
            return Err(BankFault::Memory);
        };
        Ok(())
    }

    /// Returns whether the bank has a component.
    #[tactic(auto, using(crate::proofs::Places::found))]
    pub fn has(&self, key: Key) -> bool
        ensures { result ≡ has_key (map key_of self.now.rows) key }
    {
        place_of(&self.places, key).is_some()
    }

    /// Returns the numbers of a component's active area and of its applied area, if any, 0 to 2.
    /// The image that the component was added with is in area 0.
    #[tactic(auto, using(crate::proofs::Places::found))]
    pub fn areas(&self, key: Key) -> Option<(usize, Option<usize>)>
        ensures { result ≡ numbers_for self.now.areas key }
    {
        let place = place_of(&self.places, key)?;
        Some(place.numbers())
    }
}

impl Bank for MemBank {
    ghost rows = { λ b. b.rows };

    ghost stage = { λ b. b.stage };

    ghost faults = { λ b. b.faults };

    #[tactic(auto, using(crate::proofs::Places::found))]
    fn active(&self, key: Key) -> Option<(&Label, &[u8])> {
        let place = place_of(&self.places, key)?;
        Some(place.active())
    }

    #[tactic(auto, using(crate::proofs::Places::found))]
    fn applied(&self, key: Key) -> Option<(&Label, &[u8])> {
        let place = place_of(&self.places, key)?;
        place.applied()
    }

    fn begin(&mut self, key: Key, size: u32, label: &Label) -> Result<(), BankFault>
        requires known { IsSome (row_of self.old.rows key) }
        requires size { size ≤ longest_image }
        ensures ok { OnOk result (self.new ≡ record self.old {
          stage = Some (record { key = key; size = size; label = label.now; bytes = [] });
        }) }
        ensures kept { OnErr result (self.new ≡ record self.old { faults = self.new.faults }) }
        ensures failed { OnErr result (CountsFailure self.old.faults self.new.faults) }
        ensures cause { IfErr result (λ e. e ≡ BankFault.Memory) }
    {
        let Ok(()) = begin_at(self.places.as_mut_slice(), key, size, label) else {
            self.faults = self.faults.saturating_add(1);
            return Err(BankFault::Memory);
        };
        self.staged = Some(key);
        Ok(())
    }

    fn put(&mut self, piece: &[u8]) -> Result<(), BankFault>
        requires { IsSomeAnd self.old.stage (λ s. length s.bytes + length piece.now ≤ s.size) }
        ensures ok { IsOk result }
        ensures bank { self.new ≡ record self.old { stage = staged_with self.old.stage piece.now } }
    {
        let Some(key) = self.staged else {
            return Ok(());
        };
        append_at(self.places.as_mut_slice(), key, piece);
        Ok(())
    }

    fn seal(&mut self) -> Result<(), BankFault>
        requires { IsSomeAnd self.old.stage (λ s. length s.bytes ≡ s.size) }
        ensures ok { IsOk result }
        ensures bank { self.new ≡ record self.old {
          rows = sealed_by self.old.rows self.old.stage;
          stage = None;
          areas = numbers_sealed self.old.areas self.old.stage;
        } }
    {
        let Some(key) = self.staged else {
            return Ok(());
        };
        apply_at(self.places.as_mut_slice(), key);
        self.staged = None;
        Ok(())
    }

    fn switch(&mut self) -> Result<(), BankFault>
        ensures ok { IsOk result }
        ensures bank { self.new ≡ record self.old {
          rows = rows_after_switch self.old.rows;
          stage = None;
          areas = numbers_switched self.old.areas;
        } }
    {
        activate_all(self.places.as_mut_slice());
        self.staged = None;
        Ok(())
    }

    fn drop_pending(&mut self)
        ensures bank { self.new ≡ record self.old {
          rows = rows_after_drop self.old.rows;
          stage = None;
          areas = numbers_dropped self.old.areas;
        } }
    {
        forget_all(self.places.as_mut_slice());
        self.staged = None;
    }

    fn failures(&self) -> u64 {
        self.faults
    }
}

/// Returns the place of a component, if the bank has it.
fn place_of(places: &[Place], key: Key) -> Option<&Place>
    ensures place { option_map (λ p. p.now) result ≡ place_for places.now key }
{
    for place in places {
        if place.is_of(key) {
            return Some(place);
        }
    }
    None
}

/// Returns the number of a component's place, if the bank has it.
fn position(places: &[Place], key: Key) -> Option<usize>
    ensures within { IfSome result (λ i. i < length places.now) }
    ensures found { IfSome result (λ i. same_key (get_or places.now i no_place).key key ≡ true) }
    ensures none { result ≡ None → place_for places.now key ≡ None }
{
    for (i, place) in places.iter().enumerate() {
        if place.is_of(key) {
            return Some(i);
        }
    }
    None
}

/// Begins an image of a component that the bank has.
fn begin_at(places: &mut [Place], key: Key, size: u32, label: &Label) -> Result<(), AllocError>
    requires shaped { AreShaped (map shape_of places.old) }
    requires known { IsSome (place_for places.old key) }
    ensures ok { OnOk result (places.new ≡ places_with (place_after_begin size label.now) key places.old) }
    ensures kept { OnErr result (places.new ≡ places.old) }
{
    let Some(i) = position(places, key) else {
        return Ok(());
    };
    let place = &mut places[i];
    let Ok(()) = place.begin(size, label) else {
        return Err(AllocError);
    };
    Ok(())
}

/// Appends to the image that is written for a component.
#[tactic(auto, using(crate::proofs::Places::found_here))]
fn append_at(places: &mut [Place], key: Key, piece: &[u8])
    requires shaped { AreShaped (map shape_of places.old) }
    requires room { IsSomeAnd (place_for places.old key) (λ p. length (written_area p).bytes +
        length piece.now ≤ (written_area p).size) }
    ensures { places.new ≡ places_with (place_after_put piece.now) key places.old }
{
    let Some(i) = position(places, key) else {
        return;
    };
    let place = &mut places[i];
    place.append(piece);
}

/// Makes the image that was written for a component applied.
fn apply_at(places: &mut [Place], key: Key)
    requires shaped { AreShaped (map shape_of places.old) }
    requires known { IsSome (place_for places.old key) }
    ensures { places.new ≡ places_with applied_spare key places.old }
{
    let Some(i) = position(places, key) else {
        return;
    };
    let place = &mut places[i];
    place.apply();
}

/// Makes the applied image of each component active.
fn activate_all(places: &mut [Place])
    ensures { places.new ≡ map place_after_switch places.old }
{
    for place in places.iter_mut() {
        place.activate();
    }
}

/// Drops the applied image of each component.
fn forget_all(places: &mut [Place])
    ensures { places.new ≡ map place_after_drop places.old }
{
    for place in places.iter_mut() {
        place.forget();
    }
}
