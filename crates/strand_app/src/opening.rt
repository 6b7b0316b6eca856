ghost use Rattle.std.specs.Prelude.{◌≡◌, ◌≤◌, IfOk, length};
ghost use Rattle.strand_app.specs.Opening.{AreStepsBelow, IsReady, OpensTo, all_inputs, inputs_of, names_of};
ghost use Rattle.strand_app.specs.RunFiles.{bank_holds, cut_off, run_files};
ghost use Rattle.strand_app.specs.CutOff.{IsCutOff};
ghost use Rattle.strand_app.specs.Commands.Run.{run_reads};

use crate::command::RunWords;
use crate::contents::{fetch_image, fetch_machine, fetch_schedule};
use crate::fetching::OpenFault;
use std::alloc::Global;
use strand_base::Files;
use strand_image::Image;
use strand_inputs::{Config, Mode, Schedule, Stop, stop_at};
use strand_report::Refusal;

/// What the machine file, the image and the schedule of a run say.
#[derive(Drop)]
pub struct RunFiles {
    pub config: Config,
    pub image: Image,
    pub schedule: Schedule,
}

/// What is run of them.
#[derive(Drop)]
pub struct Setup {
    pub files: RunFiles,
    /// How many steps of the schedule are to be made.
    pub stop: u64,
}

impl Setup {
    /// The persistency model of the run.
    pub fn mode(&self) -> Mode
        ensures { result ≡ (inputs_of self.now).config.mode }
    {
        self.files.config.mode
    }
}

/// What a machine file, an image and a schedule say, files 1 to 3 of a command.
pub fn open_run_files<F: Files>(
    alloc: Global,
    words: RunWords<'_>,
    files: &mut F,
) -> Result<RunFiles, OpenFault>
    ensures opens { OpensTo (names_of words.entry) run_files all_inputs
        (F.seen files.old) (F.seen files.new) result }
    ensures below { IfOk result AreStepsBelow }
{
    let config = fetch_machine(alloc, words.machine, files)?;
    let image = fetch_image(alloc, 2, words.image, files)?;
    let schedule = fetch_schedule(alloc, 3, &config, &image, words.schedule, files)?;
    Ok(RunFiles {
        config,
        image,
        schedule,
    })
}

/// What is run of the files, up to this stop on a bank of so many words.
pub fn cut_off(files: RunFiles, stop: Stop, size: u64) -> Result<Setup, Refusal>
    requires { AreStepsBelow files }
    ensures cut_off { IsCutOff size stop (all_inputs files) result }
    ensures same { IfOk result (λ setup. setup.files ≡ files) }
    ensures ready { IfOk result (IsReady size) }
{
    let stop = match stop_at(stop, files.schedule.steps().len() as u64) {
        Ok(stop) => stop,
        Err(past) => return Err(Refusal::Stop(past)),
    };
    check_room(&files.image, size)?;
    Ok(Setup { files, stop })
}

/// That a bank of so many words has room for an image.
pub fn check_room(image: &Image, size: u64) -> Result<(), Refusal>
    ensures room { result ≡ bank_holds size (length image.now.persistent) }
    ensures fits { IfOk result (λ _. length image.now.persistent ≤ size) }
{
    let need = image.persistent().len() as u64;
    if need > size {
        return Err(Refusal::Bank { need, have: size });
    }
    Ok(())
}

/// What is run of the files of a run, up to this stop on a bank of so many words.
pub fn open_run<F: Files>(
    alloc: Global,
    words: RunWords<'_>,
    size: u64,
    files: &mut F,
) -> Result<Setup, OpenFault>
    ensures opens { OpensTo (names_of words.entry) (run_reads size words.entry.stop) inputs_of
        (F.seen files.old) (F.seen files.new) result }
    ensures ready { IfOk result (IsReady size) }
{
    let all = open_run_files(alloc, words, files)?;
    Ok(cut_off(all, words.stop, size)?)
}
