// The files of commands, each fetched and read by its rule. A file's number is its place among the names of its
// command, from 1.
ghost use Rattle.std.specs.Prelude.{◌≡◌, ◌≤◌, length, All, IfOk};
ghost use Rattle.strand_app.specs.declared.file_sizes.TheConstants.{MOST_MACHINE_BYTES, MOST_FILE_BYTES, MOST_IMAGE_BYTES, MOST_CRASH_BYTES};
ghost use Rattle.strand_app.specs.Contents.{certificate_in, crash_in, image_in, machine_in, schedule_in, text_in};
ghost use Rattle.strand_app.specs.Fetching.{FetchesFile, IsSaid};
ghost use Rattle.strand_app.specs.Opening.{open_fault};
ghost use Rattle.strand_inputs.specs.Schedule.{IsBelow};
ghost use Rattle.strand_refute.specs.declared.limits.TheConstants.{MOST_CERTIFICATE_BYTES};

use crate::fetching::{OpenFault, fetch};
use crate::file_sizes::{MOST_CRASH_BYTES, MOST_FILE_BYTES, MOST_IMAGE_BYTES, MOST_MACHINE_BYTES};
use std::alloc::Global;
use strand_asm::{AsmFault, assemble};
use strand_base::Files;
use strand_image::{Image, ImageFault, read_image};
use strand_inputs::{Config, InputFault, Schedule, Words, read_crash, read_machine, read_schedule};
use strand_refute::{Certificate, MOST_CERTIFICATE_BYTES, read_certificate};
use strand_report::{ContentFault, Refusal};

// Why file k is not known to say something: want of memory is no fault of a content.
fn open_fault(file: u32, fault: ContentFault) -> OpenFault
    ensures { result ≡ open_fault file fault }
{
    match fault {
        ContentFault::Input(InputFault::OutOfMemory)
        | ContentFault::Image(ImageFault::OutOfMemory)
        | ContentFault::Text(AsmFault::OutOfMemory) => OpenFault::OutOfMemory,
        _ => OpenFault::Refused(Refusal::File { file, fault }),
    }
}

fn machine_of(bytes: &[u8]) -> Result<Config, OpenFault>
    requires { length bytes.now ≤ MOST_MACHINE_BYTES }
    ensures { IsSaid 1 (λ config. config) (machine_in bytes.now) result }
{
    match read_machine(bytes) {
        Ok(config) => Ok(config),
        Err(fault) => Err(open_fault(1, ContentFault::Input(fault))),
    }
}

/// The settings of a machine file, file 1 of its command.
pub fn fetch_machine<F: Files>(
    alloc: Global,
    name: &str,
    files: &mut F,
) -> Result<Config, OpenFault>
    ensures { FetchesFile 1 machine_in (λ config. config) name.now
        (F.seen files.old) (F.seen files.new) result }
{
    let bytes = fetch(alloc, 1, name, MOST_MACHINE_BYTES, files)?;
    machine_of(&bytes)
}

fn image_of(alloc: Global, file: u32, bytes: &[u8]) -> Result<Image, OpenFault>
    requires { length bytes.now ≤ MOST_IMAGE_BYTES }
    ensures { IsSaid file (λ image. image) (image_in bytes.now) result }
{
    match read_image(alloc, bytes) {
        Ok(image) => Ok(image),
        Err(fault) => Err(open_fault(file, ContentFault::Image(fault))),
    }
}

/// The image of a file of this number.
pub fn fetch_image<F: Files>(
    alloc: Global,
    file: u32,
    name: &str,
    files: &mut F,
) -> Result<Image, OpenFault>
    ensures { FetchesFile file image_in (λ image. image) name.now
        (F.seen files.old) (F.seen files.new) result }
{
    let bytes = fetch(alloc, file, name, MOST_IMAGE_BYTES, files)?;
    image_of(alloc, file, &bytes)
}

fn schedule_of(
    alloc: Global,
    file: u32,
    config: &Config,
    image: &Image,
    bytes: &[u8],
) -> Result<Schedule, OpenFault>
    requires { length bytes.now ≤ MOST_FILE_BYTES }
    ensures says { IsSaid file (λ steps. steps) (schedule_in config.now image.now bytes.now) result }
    ensures below { IfOk result (All (IsBelow (length image.now.entries) config.now.buffers)) }
{
    match read_schedule(alloc, bytes, image.entries().len() as u32, config.buffers) {
        Ok(schedule) => Ok(schedule),
        Err(fault) => Err(open_fault(file, ContentFault::Input(fault))),
    }
}

/// The steps of a schedule for the image's cores and the machine's buffers, of a file of this number.
pub fn fetch_schedule<F: Files>(
    alloc: Global,
    file: u32,
    config: &Config,
    image: &Image,
    name: &str,
    files: &mut F,
) -> Result<Schedule, OpenFault>
    ensures says { FetchesFile file (schedule_in config.now image.now) (λ steps. steps) name.now
        (F.seen files.old) (F.seen files.new) result }
    ensures below { IfOk result (All (IsBelow (length image.now.entries) config.now.buffers)) }
{
    let bytes = fetch(alloc, file, name, MOST_FILE_BYTES, files)?;
    schedule_of(alloc, file, config, image, &bytes)
}

fn crash_of(alloc: Global, image: &Image, bytes: &[u8]) -> Result<Words, OpenFault>
    requires { length bytes.now ≤ MOST_CRASH_BYTES }
    ensures says { IsSaid 4 (λ words. words) (crash_in image.now bytes.now) result }
    ensures long { IfOk result (λ words. length words ≡ length image.now.persistent) }
{
    match read_crash(alloc, bytes, image.persistent().len() as u32) {
        Ok(words) => Ok(words),
        Err(fault) => Err(open_fault(4, ContentFault::Input(fault))),
    }
}

/// The words of a crash image, as many as the image has persistent words; file 4 of its command.
pub fn fetch_crash<F: Files>(
    alloc: Global,
    image: &Image,
    name: &str,
    files: &mut F,
) -> Result<Words, OpenFault>
    ensures says { FetchesFile 4 (crash_in image.now) (λ words. words) name.now
        (F.seen files.old) (F.seen files.new) result }
    ensures long { IfOk result (λ words. length words ≡ length image.now.persistent) }
{
    let bytes = fetch(alloc, 4, name, MOST_CRASH_BYTES, files)?;
    crash_of(alloc, image, &bytes)
}

fn certificate_of(alloc: Global, bytes: &[u8]) -> Result<Certificate, OpenFault>
    requires { length bytes.now ≤ MOST_CERTIFICATE_BYTES }
    ensures { IsSaid 5 (λ certificate. certificate) (certificate_in bytes.now) result }
{
    match read_certificate(alloc, bytes) {
        Ok(certificate) => Ok(certificate),
        Err(fault) => Err(open_fault(5, ContentFault::Input(fault))),
    }
}

/// The certificate of a file, file 5 of its command.
pub fn fetch_certificate<F: Files>(
    alloc: Global,
    name: &str,
    files: &mut F,
) -> Result<Certificate, OpenFault>
    ensures { FetchesFile 5 certificate_in (λ certificate. certificate) name.now
        (F.seen files.old) (F.seen files.new) result }
{
    let bytes = fetch(alloc, 5, name, MOST_CERTIFICATE_BYTES, files)?;
    certificate_of(alloc, &bytes)
}

fn text_of(alloc: Global, bytes: &[u8]) -> Result<Image, OpenFault>
    requires { length bytes.now ≤ MOST_FILE_BYTES }
    ensures { IsSaid 1 (λ image. image) (text_in bytes.now) result }
{
    match assemble(alloc, bytes) {
        Ok(image) => Ok(image),
        Err(fault) => Err(open_fault(1, ContentFault::Text(fault))),
    }
}

/// The image that an assembler text gives, file 1 of its command.
pub fn fetch_text<F: Files>(alloc: Global, name: &str, files: &mut F) -> Result<Image, OpenFault>
    ensures { FetchesFile 1 text_in (λ image. image) name.now
        (F.seen files.old) (F.seen files.new) result }
{
    let bytes = fetch(alloc, 1, name, MOST_FILE_BYTES, files)?;
    text_of(alloc, &bytes)
}
