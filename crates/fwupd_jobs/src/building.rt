//! Builds a package from a description in a file.

ghost use Rattle.std.specs.Prelude.{◌≡◌, ◌⊎◌, ◌++◌, IfErr, IfOk, OnErr, OnOk, false, map, option_map, slice_get, true};
ghost use Rattle.std.specs.Io.KnownBytes.{Appends};
ghost use Rattle.std.specs.List.{concat};
ghost use Rattle.fw_package.specs.Asked.{asked_component_of, asked_package_of, asked_record_of};
ghost use Rattle.fw_package.specs.Package.{descriptor_of};
ghost use Rattle.fw_package.specs.Writing.{IsHeaderOf, header_bytes};
ghost use Rattle.fw_script.specs.PackageSpecs.{package_spec_of, spec_component_of, spec_descriptor_of, spec_record_of, spec_seen};
ghost use Rattle.fwupd_jobs.specs.Built.{AreImages, BuildEnds, Builds, BuildsApart, ImageFails, ImagesFail, IsApartFromImages, IsBuilt, IsImage, IsOverImage, IsBuildFault, LacksPackageOf, PrintingEnds, PrintsPackage, asked_by, component_by, components_by, record_by, script_fault_of_refusal};
ghost use Rattle.fwupd_jobs.specs.Inspected.{InspectEnds, Inspects};
ghost use Rattle.fwupd_nodes.specs.Setups.{Says, TextFails, TextFault};
ghost use Rattle.fw_json.specs.Digests.{digested_in};

use crate::inspecting::digest_file;
use fw_package::{AskedComponent, AskedFault, AskedPackage, AskedRecord, Descriptor, Header};
use fw_script::{
    PackageSpec, ScriptCause, ScriptFault, SpecComponent, SpecDescriptor, SpecRecord,
    read_package_spec,
};
use fwupd_base::{Form, write_whole};
use fwupd_nodes::{Host, Parts, read_fault, text_fault};
use fwupd_watch::{Files, JobFault, Output, OutputPlaces, is_same_file};
use std::alloc::{AllocError, Global};
use std::io::Write;

/// The package description in the file of a path.
#[tactic(auto, using(fwupd_nodes::proofs::Packed::unread_text))]
fn package_spec<F: Files>(alloc: Global, files: &F, path: &str) -> Result<PackageSpec, JobFault>
    ensures says { IfOk result (λ spec. Says package_spec_of (F.holds files.now path.now) (spec_seen spec)) }
    ensures fault { IfErr result (λ e. (e ≡ JobFault.Memory) ⊎ TextFails package_spec_of (F.holds files.now) path.now e) }
{
    let text = match files.contents(alloc, path) {
        Ok(text) => text,
        Err(fault) => return Err(read_fault(alloc, path, fault)),
    };
    match read_package_spec(alloc, &text) {
        Ok(spec) => Ok(spec),
        Err(fault) => Err(text_fault(alloc, path, fault)),
    }
}

/// The image of a component.
fn image<F: Files>(alloc: Global, files: &F, component: &SpecComponent) -> Result<Vec<u8>, JobFault>
    ensures held { IfOk result (λ image. IsImage (F.holds files.now) (spec_component_of component.now).path image.items) }
    ensures fault { IfErr result (λ e. (e ≡ JobFault.Memory)
        ⊎ ImageFails (F.holds files.now) (spec_component_of component.now).path e) }
{
    let Some(path) = &component.path else {
        return Ok(Vec::new(alloc));
    };
    match files.contents(alloc, path) {
        Ok(image) => Ok(image),
        Err(fault) => Err(read_fault(alloc, path, fault)),
    }
}

/// The images of components, one by one.
fn images<F: Files>(
    alloc: Global,
    files: &F,
    components: &[SpecComponent],
) -> Result<Vec<Vec<u8>>, JobFault>
    ensures are { IfOk result (λ images. AreImages (F.holds files.now)
        (map spec_component_of components.now) (map (λ i. i.items) images.items)) }
    ensures fault { IfErr result (λ e. (e ≡ JobFault.Memory)
        ⊎ ImagesFail (F.holds files.now) (map spec_component_of components.now) e) }
{
    let mut images = Vec::new(alloc);
    for component in components {
        let image = match image(alloc, files, component) {
            Ok(image) => image,
            Err(fault) => return Err(fault),
        };
        let Ok(()) = images.push(image) else {
            return Err(JobFault::Memory);
        };
    }
    Ok(images)
}

/// The descriptors of a description, borrowed.
fn lent_descriptors<'a>(
    alloc: Global,
    descriptors: &'a [SpecDescriptor],
) -> Result<Vec<Descriptor<'a>>, JobFault>
    ensures are { IfOk result (λ lent. map descriptor_of lent.items ≡ map spec_descriptor_of descriptors.now) }
    ensures fault { IfErr result (λ e. e ≡ JobFault.Memory) }
{
    let mut lent = Vec::new(alloc);
    for said in descriptors {
        let descriptor = Descriptor {
            kind: said.kind,
            bytes: said.bytes.as_slice(),
        };
        let Ok(()) = lent.push(descriptor) else {
            return Err(JobFault::Memory);
        };
    }
    Ok(lent)
}

/// The descriptors of each record, borrowed.
fn all_descriptors<'a>(
    alloc: Global,
    records: &'a [SpecRecord],
) -> Result<Vec<Vec<Descriptor<'a>>>, JobFault>
    ensures are { IfOk result (λ lent. map (λ ds. map descriptor_of ds.items) lent.items
        ≡ map (λ r. map spec_descriptor_of r.descriptors.items) records.now) }
    ensures fault { IfErr result (λ e. e ≡ JobFault.Memory) }
{
    let mut lent = Vec::new(alloc);
    for said in records {
        let descriptors = lent_descriptors(alloc, said.descriptors.as_slice())?;
        let Ok(()) = lent.push(descriptors) else {
            return Err(JobFault::Memory);
        };
    }
    Ok(lent)
}

/// A record of a description with its descriptors, borrowed.
fn lent_record<'a, 's: 'a>(
    said: &'s SpecRecord,
    descriptors: &'a [Descriptor<'s>],
) -> AskedRecord<'a>
    requires { map descriptor_of descriptors.now ≡ map spec_descriptor_of said.now.descriptors.items }
    ensures { asked_record_of result ≡ record_by (spec_record_of said.now) }
{
    AskedRecord {
        flags: said.flags,
        set_text: said.set_text.as_slice(),
        descriptors,
        uses: said.uses.as_slice(),
    }
}

/// The descriptors of the record at `place`.
fn own_descriptors<'a, 's: 'a>(
    all: &'a [Vec<Descriptor<'s>>],
    place: usize,
) -> Option<&'a [Descriptor<'s>]>
    ensures { option_map (λ own. map descriptor_of own.now) result
        ≡ slice_get (map (λ ds. map descriptor_of ds.items) all.now) place }
{
    match all.get(place) {
        Some(own) => Some(own.as_slice()),
        None => None,
    }
}

/// The records of a description with their descriptors, borrowed.
fn lent_records<'a, 's: 'a>(
    alloc: Global,
    records: &'s [SpecRecord],
    descriptors: &'a [Vec<Descriptor<'s>>],
) -> Result<Vec<AskedRecord<'a>>, JobFault>
    requires { map (λ ds. map descriptor_of ds.items) descriptors.now
        ≡ map (λ r. map spec_descriptor_of r.descriptors.items) records.now }
    ensures are { IfOk result (λ lent. map asked_record_of lent.items ≡ map record_by (map spec_record_of records.now)) }
    ensures fault { IfErr result (λ e. e ≡ JobFault.Memory) }
{
    let mut lent = Vec::new(alloc);
    for (place, said) in records.iter().enumerate() {
        let Some(own) = own_descriptors(descriptors, place) else {
            unreachable!()
        };
        let Ok(()) = lent.push(lent_record(said, own)) else {
            return Err(JobFault::Memory);
        };
    }
    Ok(lent)
}

/// A component of a description with an image of this size, borrowed.
fn lent_component<'a>(said: &'a SpecComponent, image: &[u8]) -> AskedComponent<'a>
    ensures { asked_component_of result ≡ component_by (spec_component_of said.now) image.now }
{
    AskedComponent {
        classification: said.numbers.key.classification,
        identifier: said.numbers.key.identifier,
        stamp: said.numbers.stamp,
        options: said.numbers.options,
        method: said.numbers.method,
        text: said.text.as_slice(),
        size: image.len(),
    }
}

/// The components of a description with their images, borrowed.
fn lent_components<'a>(
    alloc: Global,
    components: &'a [SpecComponent],
    images: &[Vec<u8>],
) -> Result<Vec<AskedComponent<'a>>, JobFault>
    ensures are { IfOk result (λ lent. map asked_component_of lent.items
        ≡ components_by (map spec_component_of components.now) (map (λ i. i.items) images.now)) }
    ensures fault { IfErr result (λ e. e ≡ JobFault.Memory) }
{
    let mut lent = Vec::new(alloc);
    for (place, said) in components.iter().enumerate() {
        let Some(image) = images.get(place) else {
            return Ok(lent);
        };
        let Ok(()) = lent.push(lent_component(said, image)) else {
            return Err(JobFault::Memory);
        };
    }
    Ok(lent)
}

/// The fault of a package that can't be encoded, at the line after the description's last.
fn refused(alloc: Global, path: &str, spec: &PackageSpec, refusal: AskedFault) -> JobFault
    ensures { (result ≡ JobFault.Memory) ⊎ TextFault path.now (script_fault_of_refusal (spec_seen spec.now) refusal) result }
{
    let cause = match refusal {
        AskedFault::Uses => ScriptCause::Range,
        AskedFault::Limit => ScriptCause::Limit,
    };
    let line = spec.next_line;
    text_fault(alloc, path, ScriptFault { line, cause })
}

/// The package of a description, with these records and components.
fn asked_package<'a, 'r: 'a, 's: 'r>(
    spec: &'s PackageSpec,
    records: &'r [AskedRecord<'r>],
    components: &'a [AskedComponent<'s>],
) -> AskedPackage<'a>
    ensures { asked_package_of result ≡ record {
      release = spec.now.release;
      version = spec.now.version.items;
      records = map asked_record_of records.now;
      components = map asked_component_of components.now;
    } }
{
    AskedPackage {
        release: spec.release,
        version: spec.version.as_slice(),
        records,
        components,
    }
}

/// The header of the package of a description, with these images.
fn header_of(
    alloc: Global,
    path: &str,
    spec: &PackageSpec,
    images: &[Vec<u8>],
    header: &mut Header,
) -> Result<(), JobFault>
    ensures bytes { OnOk result (header.new.items ≡ header_bytes (asked_by (spec_seen spec.now) (map (λ i. i.items) images.now))) }
    ensures header { OnOk result (IsHeaderOf (asked_by (spec_seen spec.now) (map (λ i. i.items) images.now)) header.new.items) }
    ensures fault { IfErr result (λ e. (e ≡ JobFault.Memory)
        ⊎ IsBuildFault path.now (spec_seen spec.now) (map (λ i. i.items) images.now) e) }
{
    let descriptors = all_descriptors(alloc, spec.records.as_slice())?;
    let records = lent_records(alloc, spec.records.as_slice(), descriptors.as_slice())?;
    let components = lent_components(alloc, spec.components.as_slice(), images)?;
    let asked = asked_package(spec, records.as_slice(), components.as_slice());
    match asked.write_header(header) {
        Ok(()) => Ok(()),
        Err(refusal) => Err(refused(alloc, path, spec, refusal)),
    }
}

/// Writes a header, and then images.
///
/// # Errors
/// `Output` if they can't be written.
fn write_parts<W: Write>(writer: &mut W, header: &[u8], images: &[Vec<u8>]) -> Result<(), JobFault>
    ensures ok { OnOk result (Appends (W.contents writer.old) (W.contents writer.new)
        (header.now ++ concat (map (λ i. i.items) images.now))) }
    ensures fault { IfErr result (λ e. e ≡ JobFault.Output) }
{
    match write_whole(writer, header) {
        Ok(()) => {}
        Err(_) => return Err(JobFault::Output),
    }
    for image in images {
        match write_whole(writer, image) {
            Ok(()) => {}
            Err(_) => return Err(JobFault::Output),
        }
    }
    Ok(())
}

/// The bytes of a header and images.
fn whole(alloc: Global, header: &[u8], images: &[Vec<u8>]) -> Result<Vec<u8>, AllocError>
    ensures { IfOk result (λ bytes. bytes.items ≡ header.now ++ concat (map (λ i. i.items) images.now)) }
{
    let mut bytes = Vec::new(alloc);
    bytes.extend_from_slice(header)?;
    for image in images {
        bytes.extend_from_slice(image)?;
    }
    Ok(bytes)
}

/// The package that the description at `path` specifies.
fn package_bytes<F: Files>(alloc: Global, files: &F, path: &str) -> Result<Vec<u8>, JobFault>
    ensures built { IfOk result (λ bytes. IsBuilt (F.holds files.now) path.now bytes.items) }
    ensures fault { IfErr result (λ e. LacksPackageOf (F.holds files.now) path.now e) }
{
    let spec = match package_spec(alloc, files, path) {
        Ok(spec) => spec,
        Err(fault) => return Err(fault),
    };
    let images = match images(alloc, files, spec.components.as_slice()) {
        Ok(images) => images,
        Err(fault) => return Err(fault),
    };
    let mut header = Header::new();
    match header_of(alloc, path, &spec, images.as_slice(), &mut header) {
        Ok(()) => {}
        Err(fault) => return Err(fault),
    }
    match whole(alloc, header.as_slice(), images.as_slice()) {
        Ok(bytes) => Ok(bytes),
        Err(_) => Err(JobFault::Memory),
    }
}

/// Builds the package that the description at `path` specifies, and writes it to the output.
///
/// # Errors
/// Those of `build_file` before the file is made; nothing is written then. `Output` if the package
/// can't be written; a beginning of it may be written.
pub fn build_printed<F: Files, W: Write + Drop>(
    alloc: Global,
    files: &F,
    path: &str,
    output: &mut Output<W>,
) -> Result<(), JobFault>
    ensures ok { OnOk result (PrintsPackage (F.holds files.now) path.now output.old output.new) }
    ensures fault { IfErr result (λ e. PrintingEnds (F.holds files.now) path.now e output.old output.new) }
{
    match package_bytes(alloc, files, path) {
        Ok(bytes) => output.write(&bytes),
        Err(fault) => Err(fault),
    }
}

/// Whether a path may name the image file of a component.
fn is_over_image<F: Files>(files: &F, path: &str, components: &[SpecComponent]) -> bool
    ensures over { result ≡ true → IsOverImage (F.holds files.now) path.now (map spec_component_of components.now) }
    ensures apart { result ≡ false → IsApartFromImages (F.holds files.now) path.now (map spec_component_of components.now) }
{
    let [component, rest @ ..] = components else {
        return false;
    };
    if let Some(own) = &component.path {
        if is_same_file(files, own, path) {
            return true;
        }
    }
    is_over_image(files, path, rest)
}

/// Builds the package that the description at `path` specifies, into the file at `file`. The file
/// is unchanged if this fails.
///
/// # Errors
/// Why the description can't be read, or the first image file that can't; `Text` with `Limit`, at
/// the line after the last, if the header exceeds 65,535 bytes or the file 4,294,967,295; `Output`
/// if the file is the description or an image, or can't be written; `Memory`.
pub fn build_file<F: Files, W: Write + Drop, P: OutputPlaces<W>>(
    alloc: Global,
    files: &F,
    path: &str,
    file: &str,
    places: &mut P,
) -> Result<(), JobFault>
    ensures ok { OnOk result (Builds (F.holds files.now) path.now (P.is_known places.old) (P.held places.new file.now)) }
    ensures lasting { OnOk result (Builds (F.holds files.now) path.now (P.is_known places.old)
        (P.lasting places.new file.now)) }
    ensures kept { OnErr result (P.held places.new ≡ P.held places.old) }
    ensures stays { OnErr result (P.lasting places.new ≡ P.lasting places.old) }
    ensures apart { OnOk result (BuildsApart (F.holds files.now) path.now file.now) }
    ensures left { P.is_begun places.old ≡ false → P.is_begun places.new ≡ false }
    ensures fault { IfErr result (λ e. BuildEnds (F.holds files.now) path.now e) }
{
    let spec = match package_spec(alloc, files, path) {
        Ok(spec) => spec,
        Err(fault) => return Err(fault),
    };
    let images = match images(alloc, files, spec.components.as_slice()) {
        Ok(images) => images,
        Err(fault) => return Err(fault),
    };
    let mut header = Header::new();
    match header_of(alloc, path, &spec, images.as_slice(), &mut header) {
        Ok(()) => {}
        Err(fault) => return Err(fault),
    }
    if is_same_file(files, path, file) || is_over_image(files, file, spec.components.as_slice()) {
        return Err(JobFault::Output);
    }
    let mut beside = match places.begin(file) {
        Ok(beside) => beside,
        Err(fault) => return Err(fault),
    };
    match write_parts(&mut beside, header.as_slice(), images.as_slice()) {
        Ok(()) => places.publish(file, beside),
        Err(fault) => {
            places.discard(file);
            Err(fault)
        }
    }
}

/// Builds a package as `build_file` does, and then writes what its file holds: a line of JSON, with
/// the SHA-256 of each image.
///
/// # Errors
/// Those of `build_file`; and if the package is built, those of `digest_file`.
pub fn build_told<H: Parts>(
    alloc: Global,
    path: &str,
    file: &str,
    host: &mut Host<H>,
) -> Result<(), JobFault>
    ensures built { OnOk result (Builds (H.Files.holds host.old.files) path.now
        (H.Places.is_known host.old.places) (H.Places.held host.new.places file.now)) }
    ensures told { OnOk result (Inspects (H.Files.holds host.old.files file.now)
        (digested_in Form.Json) host.old.output host.new.output) }
    ensures fault { IfErr result (λ e. (BuildEnds (H.Files.holds host.old.files) path.now e
        × ((H.Places.held host.new.places ≡ H.Places.held host.old.places)
        × (host.new.output ≡ host.old.output)))
        ⊎ (Builds (H.Files.holds host.old.files) path.now
        (H.Places.is_known host.old.places) (H.Places.held host.new.places file.now)
        × InspectEnds (H.Files.holds host.old.files) file.now (digested_in Form.Json) e
        host.old.output host.new.output)) }
    ensures untouched { host.new.watch ≡ host.old.watch }
{
    match build_file(alloc, &host.files, path, file, &mut host.places) {
        Ok(()) => digest_file(alloc, &host.files, file, Form::Json, &mut host.output),
        Err(fault) => Err(fault),
    }
}
