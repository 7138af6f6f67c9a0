//! Builds lists of components' parameters.

ghost use Rattle.std.specs.Prelude.{[], ◌+◌, ◌++◌, ◌≡◌, ◌<◌, ◌≤◌, ◌∷◌, length};
ghost use Rattle.fwup_wire.specs.Parameters.{HasParametersWidths, all_parameters_bytes, parameters_bytes, parameters_size, text_head_bytes};
ghost use Rattle.fwup_wire.specs.Lent.{parameters_of, typed_text_of};

use crate::parameters::Parameters;
use crate::values::{ComponentParameters, TypedText};
use crate::writer::{put_component, put_u32};
use arrayvec::ArrayVec;
use pldm_base::{MAX_REPLY, Reply};
use std::marker::Model;

/// The most bytes of components in an answer to GetFirmwareParameters: the longest answer without
/// its code, the capabilities, the number of components and the heads of both set texts.
pub const MAX_PARAMETER_BYTES: usize = 241;

/// A release date that isn't set.
const UNSET_DATE: [u8; 8] = [0; 8];

/// The activation methods of each component, two bytes: it activates itself. Then its capabilities
/// during an update, four bytes: none.
const METHODS: [u8; 6] = [2, 0, 0, 0, 0, 0];

/// The parameters of a device's components, as they are sent.
#[derive(Drop)]
pub struct ParameterList {
    count: u16,
    bytes: ArrayVec<u8, MAX_PARAMETER_BYTES>,
}

impl Model for ParameterList {
    ghost use Rattle.std.specs.Prelude.{List, [], length, unwrap_or, ◌*◌, ◌≤◌};
    ghost use Rattle.fwup_wire.specs.Parameters.{HoldsParameters, parameters_in};
    ghost use Rattle.fwup_wire.specs.Values.{ParametersOf};

    ghost Value = { List ParametersOf };

    ghost view = { λ d. unwrap_or (parameters_in d.count d.bytes.items) [] };

    ghost invariant = { λ d. HoldsParameters d.count d.bytes.items
        (unwrap_or (parameters_in d.count d.bytes.items) [])
        × (39 * d.count ≤ length d.bytes.items) };
}

impl ParameterList {
    /// Returns an empty list.
    pub fn new() -> Self
        ensures { result ≡ [] }
    {
        ParameterList {
            count: 0,
            bytes: ArrayVec::new(),
        }
    }

    /// Returns the number of bytes that are left for components.
    pub fn room(&self) -> usize
        ensures { result + length (all_parameters_bytes self.now) ≡ 241 }
    {
        self.bytes.remaining_capacity()
    }

    /// Appends a component.
    pub fn push(&mut self, parameters: &ComponentParameters<'_>)
        requires { length (all_parameters_bytes self.old) + parameters_size (parameters_of parameters.now) ≤ 241 }
        ensures { self.new ≡ self.old ++ parameters_of parameters.now ∷ [] }
    {
        put_parameters(&mut self.bytes, parameters);
        self.count += 1;
    }

    /// Borrows the components.
    pub fn lent(&self) -> Parameters<'_>
        ensures { result ≡ self.now }
    {
        Parameters::known(self.count, self.bytes.as_slice())
    }
}

/// Appends a component's parameters as they are sent.
fn put_parameters(out: &mut ArrayVec<u8, MAX_PARAMETER_BYTES>, parameters: &ComponentParameters<'_>)
    requires { length out.old.items + parameters_size (parameters_of parameters.now) ≤ 241 }
    ensures bytes { out.new.items ≡ out.old.items ++ parameters_bytes (parameters_of parameters.now) }
    ensures widths { HasParametersWidths (parameters_of parameters.now) }
{
    let bytes = written(parameters);
    let _ = out.try_extend_from_slice(&bytes);
}

/// Returns a component's parameters as they are sent: all other fields, then the bytes of both
/// texts.
fn written(parameters: &ComponentParameters<'_>) -> Reply
    requires { parameters_size (parameters_of parameters.now) ≤ 241 }
    ensures bytes { result.items ≡ parameters_bytes (parameters_of parameters.now) }
    ensures widths { HasParametersWidths (parameters_of parameters.now) }
{
    let active = &parameters.active;
    let pending = &parameters.pending;
    let mut out = Reply::new();
    put_component(&mut out, &parameters.key, parameters.index, active.stamp);
    put_text_head(&mut out, &active.text);
    put_u32(&mut out, pending.stamp);
    put_text_head(&mut out, &pending.text);
    let _ = out.try_extend_from_slice(&METHODS);
    let _ = out.try_extend_from_slice(active.text.bytes);
    let _ = out.try_extend_from_slice(pending.text.bytes);
    out
}

/// Appends the type and the length of a text whose bytes come later, and a release date that isn't
/// set.
fn put_text_head(out: &mut Reply, text: &TypedText<'_>)
    requires room { length out.old.items + 10 ≤ MAX_REPLY }
    requires short { length text.now.bytes.now < 256 }
    ensures { out.new.items ≡ out.old.items ++ text_head_bytes (typed_text_of text.now) }
{
    out.push(text.text_type);
    out.push(text.bytes.len() as u8);
    let _ = out.try_extend_from_slice(&UNSET_DATE);
}
