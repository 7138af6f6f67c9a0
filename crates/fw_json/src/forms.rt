//! Output in either format.

ghost use Rattle.std.specs.Prelude.{◌≡◌, ◌≢◌, Err, IfErr, IfOk, IsOk, List, Ok, map, ℕ};
ghost use Rattle.std.specs.Result.{result_map_both};
ghost use Rattle.fw_package.specs.Outlines.{IsBeginning};
ghost use Rattle.fw_package.specs.Reading.{package_of};
ghost use Rattle.fw_script.specs.Seen.{device_of};
ghost use Rattle.fw_json.specs.Forms.{inspection_in, plan_in, report_in};

use crate::inspection::{inspect_json, inspect_json_beginning};
use crate::plan::plan_json;
use crate::report::report_json;
use fd_core::Bank;
use fw_package::Package;
use fw_script::{DeviceConfig, report};
use fw_setup::forecast;
use fw_world::World;
use fwupd_base::{Form, InspectFault, inspect, inspect_beginning};
use std::alloc::{AllocError, Global};

/// Returns the inspection of a firmware package in a format.
///
/// # Errors
/// `Package`, with the first fault, if the bytes aren't a package; `Memory` only if memory is
/// refused.
pub fn inspect_in(alloc: Global, bytes: &[u8], form: Form) -> Result<Vec<u8>, InspectFault>
    ensures text { IfOk result (λ text. result_map_both (inspection_in form) (λ e. e) (package_of bytes.now) ≡ Ok text.items) }
    ensures fault { IfErr result (λ e. e ≢ InspectFault.Memory
        → result_map_both (λ p. p) InspectFault.Package (package_of bytes.now) ≡ Err e) }
    ensures memory { IfErr result (λ e. e ≡ InspectFault.Memory → IsOk (package_of bytes.now)) }
{
    match form {
        Form::Text => inspect(alloc, bytes),
        Form::Json => inspect_json(alloc, bytes),
    }
}

/// Returns the inspection, in a format, of the firmware package in a file of `file_length` bytes.
/// `beginning` is the first 65,535 of them, or all if there are fewer.
///
/// # Errors
/// `Package`, with the first fault, if the file isn't a package; `Memory` only if memory is
/// refused.
pub fn inspect_beginning_in(
    alloc: Global,
    beginning: &[u8],
    file_length: usize,
    form: Form,
) -> Result<Vec<u8>, InspectFault>
    ensures text { (file : List ℕ)
        → IsBeginning file beginning.now file_length
        → IfOk result (λ text. result_map_both (inspection_in form) (λ e. e) (package_of file)
        ≡ Ok text.items) }
    ensures fault { (file : List ℕ)
        → IsBeginning file beginning.now file_length
        → IfErr result (λ e. e ≢ InspectFault.Memory
        → result_map_both (λ p. p) InspectFault.Package (package_of file) ≡ Err e) }
    ensures memory { (file : List ℕ)
        → IsBeginning file beginning.now file_length
        → IfErr result (λ e. e ≡ InspectFault.Memory → IsOk (package_of file)) }
{
    match form {
        Form::Text => inspect_beginning(alloc, beginning, file_length),
        Form::Json => inspect_json_beginning(alloc, beginning, file_length),
    }
}

/// Returns the report of a world in a format.
///
/// # Errors
/// `AllocError` if memory is refused.
pub fn report_in<'a, B: Bank + Drop>(
    alloc: Global,
    world: &World<'a, B>,
    form: Form,
) -> Result<Vec<u8>, AllocError>
    ensures { IfOk result (λ text. text.items ≡ report_in form world.now) }
{
    match form {
        Form::Text => report(alloc, world),
        Form::Json => report_json(alloc, world),
    }
}

/// Returns the plan of an update with package `number` for each device, in a format.
///
/// # Errors
/// `AllocError` if memory is refused.
pub fn plan_in(
    alloc: Global,
    number: usize,
    contents: &Package<'_>,
    devices: &[DeviceConfig],
    form: Form,
) -> Result<Vec<u8>, AllocError>
    ensures { IfOk result (λ text. text.items ≡ plan_in form number contents.now (map device_of devices.now)) }
{
    match form {
        Form::Text => forecast(alloc, number, contents, devices),
        Form::Json => plan_json(alloc, number, contents, devices),
    }
}
