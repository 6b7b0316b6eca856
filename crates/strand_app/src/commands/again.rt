ghost use Rattle.std.specs.Prelude.{◌≡◌, ◌++◌, All, IfOk, length};
ghost use Rattle.strand_app.specs.AgainOnBank.{AreReadyParts, IsPart, MakesGenerations, TellsOutcome, end_behind, next_start, parts_of, verdict_behind};
ghost use Rattle.strand_app.specs.AgainOpening.{FetchesParts, again_names, first_past, parts_seen, parts_within, program_names, program_seen};
ghost use Rattle.strand_app.specs.CommandView.{again_rule_in, pairs_asked};
ghost use Rattle.strand_app.specs.Commands.Again.{again_reads, program_reads};
ghost use Rattle.strand_app.specs.Opening.{OpensTo};
ghost use Rattle.strand_app.specs.Runs.{Comes};
ghost use Rattle.strand_app.specs.World.{world};
ghost use Rattle.strand_inputs.specs.Stop.{steps_to};
ghost use Rattle.strand_modules.specs.Bank.{Keeps};
ghost use Rattle.strand_modules.specs.Seen.{bank_seen};
ghost use Rattle.strand_report.specs.FaultLines.{module_fault_line};

use crate::again_words::AgainWords;
use crate::commands::judge::status_of;
use crate::contents::{fetch_image, fetch_machine, fetch_schedule};
use crate::fetching::OpenFault;
use crate::opening::check_room;
use crate::refusing::refuse;
use crate::status::{Made, Status};
use std::alloc::Global;
use strand_again::{AgainFault, Outcome, Ran, generation};
use strand_base::{Files, OutOfMemory, put};
use strand_image::Image;
use strand_inputs::{Config, Mode, Schedule, Stop, StopPast, Words, read_stop, stop_at};
use strand_judge::Verdict;
use strand_modules::{AtModule, ModuleBank};
use strand_report::{
    ModuleFault, ModulePhase, Refusal, write_generation, write_module_fault, write_verdict,
};
use strand_rules::StepFault;
use strand_run::report;

/// The steps of one generation: the first `stop` of a schedule.
#[derive(Drop)]
pub struct Part {
    pub schedule: Schedule,
    pub stop: u64,
}

/// What is run of the files: each part is a generation.
#[derive(Drop)]
pub struct Parts {
    pub config: Config,
    pub image: Image,
    pub parts: Vec<Part>,
}

/// The parts that were read so far, and the first stop that is past its steps.
#[derive(Drop)]
pub struct Cut {
    pub parts: Vec<Part>,
    pub past: Option<StopPast>,
}

// The machine file and the image.
fn open_program<F: Files>(
    alloc: Global,
    words: AgainWords<'_>,
    files: &mut F,
) -> Result<(Config, Image), OpenFault>
    ensures { OpensTo (program_names words.entry) program_reads program_seen
        (F.seen files.old) (F.seen files.new) result }
{
    let config = fetch_machine(alloc, words.machine, files)?;
    let image = fetch_image(alloc, 2, words.image, files)?;
    Ok((config, image))
}

// One schedule more, cut off at its stop.
fn cut_off_next(schedule: Schedule, stop: Stop, cut: &mut Cut) -> Result<(), OutOfMemory>
    ensures parts { IfOk result (λ _. cut.new.parts.items ≡ cut.old.parts.items ++ parts_within schedule stop) }
    ensures past { IfOk result (λ _. cut.new.past ≡ first_past cut.old.past (steps_to stop (length schedule))) }
{
    match stop_at(stop, schedule.steps().len() as u64) {
        Ok(stop) => cut.parts.push(Part { schedule, stop })?,
        Err(past) if cut.past.is_none() => cut.past = Some(past),
        Err(_) => {}
    }
    Ok(())
}

// The schedules, files 3 and on.
fn fetch_parts<F: Files>(
    alloc: Global,
    config: &Config,
    image: &Image,
    words: AgainWords<'_>,
    files: &mut F,
) -> Result<Cut, OpenFault>
    ensures fetches { FetchesParts words.entry config.now image.now (F.seen files.old) (F.seen files.new) result }
    ensures ready { IfOk result (λ cut. All (IsPart config.now image.now) cut.parts.items) }
{
    let mut cut = Cut {
        parts: Vec::new(alloc),
        past: None,
    };
    let mut file = 3;
    let mut rest = words.pairs;
    while let [name, stop, behind @ ..] = rest {
        let schedule = fetch_schedule(alloc, file, config, image, name.as_str(), files)?;
        let stop = read_stop(stop.as_str()).unwrap_or(Stop::End);
        cut_off_next(schedule, stop, &mut cut)?;
        file += 1;
        rest = behind;
    }
    Ok(cut)
}

// What is run of the files, on a bank of so many words.
fn open_parts<F: Files>(
    alloc: Global,
    words: AgainWords<'_>,
    size: u64,
    files: &mut F,
) -> Result<Parts, OpenFault>
    ensures opens { OpensTo (again_names words.entry) (again_reads size (pairs_asked words.entry.pairs.now)) parts_seen
        (F.seen files.old) (F.seen files.new) result }
    ensures ready { IfOk result (λ found. AreReadyParts size found.config found.image found.parts.items) }
{
    let (config, image) = open_program(alloc, words, files)?;
    let cut = fetch_parts(alloc, &config, &image, words, files)?;
    if let Some(past) = cut.past {
        return Err(OpenFault::Refused(Refusal::Stop(past)));
    }
    check_room(&image, size)?;
    Ok(Parts {
        config,
        image,
        parts: cut.parts,
    })
}

// The line of a module that refused the fill or a read, alone.
fn fault_line(alloc: Global, module: u32, phase: ModulePhase) -> Result<Made, OutOfMemory>
    ensures { IfOk result (λ made. (made.status ≡ Status.ModuleFault)
        × (made.text.items ≡ module_fault_line (record { «module» = «module»; phase = phase }))) }
{
    let mut text = Vec::new(alloc);
    write_module_fault(ModuleFault { module, phase }, &mut text)?;
    Ok(Made {
        status: Status::ModuleFault,
        text,
    })
}

/// What a generation was told to come to: how a call ends that ends with it, and the words that it left.
#[derive(Drop)]
pub struct Told {
    pub end: Status,
    pub held: Words,
}

// Appends the line of a verdict and gives its status, where no store was refused.
fn tell_verdict(
    least: &Verdict,
    fault: Option<StepFault>,
    into: &mut Vec<u8>,
) -> Result<Status, OutOfMemory>
    ensures end { IfOk result (λ end. end ≡ end_behind fault least.now) }
    ensures line { IfOk result (λ _. into.new.items ≡ into.old.items ++ verdict_behind fault least.now) }
{
    if fault.is_some() {
        return Ok(Status::ModuleFault);
    }
    write_verdict(least, into)?;
    Ok(status_of(least))
}

// Appends what is told of a generation of this number.
fn tell(
    alloc: Global,
    number: u64,
    mode: Mode,
    outcome: Outcome,
    into: &mut Vec<u8>,
) -> Result<Told, OutOfMemory>
    ensures { IfOk result (TellsOutcome number mode outcome into.old.items into.new.items) }
{
    write_generation(number, into)?;
    let least = outcome.least;
    let run = Ran {
        machine: outcome.machine,
        turns: outcome.turns,
        held: outcome.held,
        fault: outcome.fault,
    };
    let told = report(alloc, &run, mode)?;
    put(into, &told)?;
    let end = tell_verdict(&least, run.fault, into)?;
    Ok(Told {
        end,
        held: run.held,
    })
}

// What the next generation starts with: the words that the one before left, or the image's.
fn words_before<'a>(held: &'a Option<Words>, image: &'a Image) -> &'a [u64]
    ensures { result.now ≡ next_start held.now image.now }
{
    match held {
        Some(words) => words.as_slice(),
        None => image.persistent(),
    }
}

// The persistency model of a machine.
fn mode_of(config: &Config) -> Mode
    ensures { result ≡ config.now.mode }
{
    config.mode
}

// Fills the bank, makes the generations one after the other, and tells them.
fn generations_on_bank(
    alloc: Global,
    config: &Config,
    image: &Image,
    parts: &[Part],
    bank: &mut ModuleBank,
) -> Result<Made, OutOfMemory>
    requires { AreReadyParts (bank_seen holds bank.old).size config.now image.now parts.now }
    ensures made { MakesGenerations (parts_of config.now image.now parts.now) (bank_seen holds bank.old) (bank_seen holds bank.new) result }
    ensures kept { Keeps (bank_seen holds bank.old) (bank_seen holds bank.new) }
{
    if let Err(AtModule { module }) = bank.fill(image.persistent()) {
        return fault_line(alloc, module, ModulePhase::Fill);
    }
    let mode = mode_of(config);
    let mut text = Vec::new(alloc);
    let mut held: Option<Words> = None;
    for (i, part) in parts.iter().enumerate() {
        let initial = words_before(&held, image);
        let (schedule, stop) = (&part.schedule, part.stop);
        match generation(alloc, config, image, initial, schedule, stop, bank) {
            Ok(outcome) => {
                let told = tell(alloc, i as u64 + 1, mode, outcome, &mut text)?;
                match told.end {
                    Status::Ok => held = Some(told.held),
                    status => return Ok(Made { status, text }),
                }
            }
            Err(AgainFault::Read(refused)) => {
                return fault_line(alloc, refused.module, ModulePhase::Read);
            }
            Err(AgainFault::OutOfMemory) => return Err(OutOfMemory),
        }
    }
    Ok(Made {
        status: Status::Ok,
        text,
    })
}

/// `again MACHINE IMAGE SCHEDULE STOP..`: the reports and verdicts of generations of crashes.
pub fn tell_generations<F: Files>(
    alloc: Global,
    words: AgainWords<'_>,
    files: &mut F,
    bank: &mut ModuleBank,
) -> Result<Made, OutOfMemory>
    ensures { Comes (again_rule_in words.entry (bank_seen holds bank.old))
        (world (F.seen files.old) (bank_seen holds bank.old)) (world (F.seen files.new) (bank_seen holds bank.new)) result }
{
    match open_parts(alloc, words, bank.words(), files) {
        Ok(found) => {
            let (config, image) = (&found.config, &found.image);
            generations_on_bank(alloc, config, image, &found.parts, bank)
        }
        Err(fault) => refuse(alloc, fault),
    }
}
