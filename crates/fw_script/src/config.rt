//! The values of a configuration.

ghost use Rattle.std.specs.Prelude.{◌≡◌, map};
ghost use Rattle.std.specs.Result.{result_map_both};
ghost use Rattle.fd_core.specs.Images.{label_of as label_made};
ghost use Rattle.fw_script.specs.Faults.{AnswersUnlessMemory, both as both_of};
ghost use Rattle.fw_script.specs.Values.{bytes_of, text_of};
ghost use Rattle.fw_script.specs.Configs.{device_with_component, device_with_descriptor_words, device_with_component_words, has_key as has_component, key_of, new_device, numbers_of, device_with_descriptor, unit_of, with_component};
ghost use Rattle.fw_script.specs.Seen.{component_of, device_of};

use crate::faults::{ScriptCause, both};
use crate::values::{kind, number_in, number_u8, number_u16, number_u32, text, with_bytes};
use fd_core::{BankComponent, Label, MAX_COMPONENTS, MAX_IMAGE};
use fwup_wire::code::text_type;
use fwup_wire::{DescriptorList, DeviceDescriptor, Key, TypedText, Version};
use mctp_ctl::Endpoint;
use mctp_wire::Unit;
use std::alloc::Global;

/// A configuration.
#[derive(PartialEq, Eq, Drop)]
pub struct Config {
    /// The agent's endpoint.
    pub agent: Endpoint,
    /// The transmission unit of its network: 64 or 128 bytes of a packet's body. All nodes share it
    /// (DSP0236, section 8.3).
    pub unit: Unit,
    /// Its devices, 1 to 16.
    pub devices: Vec<DeviceConfig>,
    /// The paths of the packages that updates may use; the first has number 1.
    pub packages: Vec<String>,
}

/// The configuration of a device.
#[derive(PartialEq, Eq, Drop)]
pub struct DeviceConfig {
    /// Its endpoint.
    pub endpoint: Endpoint,
    /// Its descriptors.
    pub descriptors: DescriptorList,
    /// Its components, 1 to 3, each with its own key.
    pub components: Vec<ComponentConfig>,
}

/// The configuration of a component.
#[derive(PartialEq, Eq, Drop)]
pub struct ComponentConfig {
    /// The component.
    pub component: BankComponent,
    /// The label of the active image.
    pub label: Label,
    /// The active image, at most 1,048,576 bytes.
    pub image: Vec<u8>,
}

/// The numbers of a component's line: the component, and the stamp of its image.
#[derive(Clone, Copy)]
pub(crate) struct Numbers {
    pub component: BankComponent,
    pub stamp: u32,
}

/// A transmission unit.
pub(crate) fn read_unit(word: &[u8]) -> Result<Unit, ScriptCause>
    ensures { result ≡ unit_of word.now }
{
    match number_in(word, 64, 128) {
        Ok(64) => Ok(Unit::U64),
        Ok(128) => Ok(Unit::U128),
        Ok(_) => Err(ScriptCause::Range),
        Err(cause) => Err(cause),
    }
}

/// A component's key.
#[tactic(auto, unfolding(crate::specs::Configs::key_of))]
pub(crate) fn read_key(class: &[u8], ident: &[u8]) -> Result<Key, ScriptCause>
    ensures { result ≡ key_of class.now ident.now }
{
    match both(number_u16(class), number_u16(ident)) {
        Ok((classification, identifier)) => Ok(Key {
            classification,
            identifier,
        }),
        Err(cause) => Err(cause),
    }
}

/// The numbers of a component's line.
#[tactic(auto, unfolding(crate::specs::Configs::numbers_of))]
pub(crate) fn read_numbers(
    class: &[u8],
    ident: &[u8],
    index: &[u8],
    stamp: &[u8],
) -> Result<Numbers, ScriptCause>
    ensures { result ≡ numbers_of class.now ident.now index.now stamp.now }
{
    match both(
        read_key(class, ident),
        both(number_u8(index), number_u32(stamp)),
    ) {
        Ok((key, (index, stamp))) => Ok(Numbers {
            component: BankComponent { key, index },
            stamp,
        }),
        Err(cause) => Err(cause),
    }
}

/// The label of an image with this stamp and text.
fn label_of(stamp: u32, text: &[u8]) -> Label
    ensures { result ≡ label_made (record { stamp = stamp; text = record { text_type = 1; bytes = text.now } }) }
{
    Label::new(&Version {
        stamp,
        text: TypedText {
            text_type: text_type::ASCII,
            bytes: text,
        },
    })
}

/// Whether a component has this key.
pub fn has_key(components: &[ComponentConfig], key: Key) -> bool
    ensures { result ≡ has_component (map component_of components.now) key }
{
    for other in components {
        if other.component.key == key {
            return true;
        }
    }
    false
}

impl DeviceConfig {
    /// Creates a device without descriptors or components.
    pub(crate) fn new(alloc: Global, endpoint: Endpoint) -> DeviceConfig
        ensures { device_of result ≡ new_device endpoint }
    {
        DeviceConfig {
            endpoint,
            descriptors: DescriptorList::new(),
            components: Vec::new(alloc),
        }
    }

    /// Adds a descriptor.
    fn tell(&mut self, kind: u16, bytes: &[u8]) -> Result<(), ScriptCause>
        ensures { result_map_both (λ _. device_of self.new) (λ e. e) result
            ≡ device_with_descriptor (device_of self.old) (record {
              kind = kind;
              bytes = bytes.now;
            }) }
    {
        if bytes.len() + 4 > self.descriptors.room() {
            return Err(ScriptCause::Limit);
        }
        self.descriptors.push(&DeviceDescriptor { kind, bytes });
        Ok(())
    }

    /// Adds a component.
    fn add(&mut self, component: ComponentConfig) -> Result<(), ScriptCause>
        ensures { AnswersUnlessMemory (λ _. device_of self.new) result
            (device_with_component (device_of self.old) (component_of component)) }
    {
        if has_key(self.components.as_slice(), component.component.key) {
            return Err(ScriptCause::Duplicate);
        }
        if self.components.len() >= MAX_COMPONENTS || component.image.len() > MAX_IMAGE as usize {
            return Err(ScriptCause::Limit);
        }
        let Ok(()) = self.components.push(component) else {
            return Err(ScriptCause::Memory);
        };
        Ok(())
    }

    /// Adds the descriptor of a line.
    #[tactic(auto, unfolding(crate::specs::Configs::device_with_descriptor_words))]
    pub(crate) fn describe(
        &mut self,
        alloc: Global,
        word: &[u8],
        digits: &[u8],
    ) -> Result<(), ScriptCause>
        ensures { AnswersUnlessMemory (λ _. device_of self.new) result
            (device_with_descriptor_words word.now digits.now (device_of self.old)) }
    {
        match with_bytes(alloc, kind(word), digits) {
            Ok((kind, bytes)) => self.tell(kind, &bytes),
            Err(cause) => Err(cause),
        }
    }

    /// Adds the component of a line.
    #[tactic(auto, unfolding(crate::specs::Configs::device_with_component_words))]
    pub(crate) fn extend(
        &mut self,
        alloc: Global,
        numbers: Result<Numbers, ScriptCause>,
        label: &[u8],
        image: &[u8],
    ) -> Result<(), ScriptCause>
        ensures { AnswersUnlessMemory (λ _. device_of self.new) result
            (device_with_component_words numbers label.now image.now (device_of self.old)) }
    {
        match with_bytes(alloc, numbers, image) {
            Ok((numbers, image)) => self.add(ComponentConfig {
                component: numbers.component,
                label: label_of(numbers.stamp, text(label)),
                image,
            }),
            Err(cause) => Err(cause),
        }
    }
}
