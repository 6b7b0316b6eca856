ghost use Rattle.std.specs.Prelude.{◌≡◌, ◌++◌, ◌∷◌, [], IfOk, length};
ghost use Rattle.strand_app.specs.CommandView.{check_rule_in};
ghost use Rattle.strand_app.specs.Commands.Check.{PutsChecked, check_reads, checked_status, checked_text};
ghost use Rattle.strand_app.specs.Checking.{AreClaimed, TellsChecked, claim_of};
ghost use Rattle.strand_app.specs.Opening.{OpensTo, inputs_of, names_of};
ghost use Rattle.strand_app.specs.Running.{MakesOnBank};
ghost use Rattle.strand_app.specs.Runs.{Comes};
ghost use Rattle.strand_app.specs.World.{world};
ghost use Rattle.strand_base.specs.Puts.{Puts};
ghost use Rattle.strand_modules.specs.Seen.{bank_seen};

use crate::command::RunWords;
use crate::contents::{fetch_certificate, fetch_crash};
use crate::fetching::OpenFault;
use crate::opening::{Setup, cut_off, open_run_files};
use crate::refusing::refuse;
use crate::running::{Ran, run_on_bank};
use crate::status::{Made, Status};
use itoa::Buffer;
use std::alloc::Global;
use strand_again::Ran as Run;
use strand_base::{Files, OutOfMemory, put_line};
use strand_inputs::Words;
use strand_modules::ModuleBank;
use strand_refute::{Certificate, Checked};
use strand_run::checked;

/// What is run, the words of a crash image, and a certificate of no.
#[derive(Drop)]
pub struct Claim {
    pub setup: Setup,
    pub crash: Words,
    pub certificate: Certificate,
}

fn open_claim<F: Files>(
    alloc: Global,
    words: RunWords<'_>,
    crash: &str,
    certificate: &str,
    size: u64,
    files: &mut F,
) -> Result<Claim, OpenFault>
    ensures opens { OpensTo (names_of words.entry ++ crash.now ∷ certificate.now ∷ [])
        (check_reads size words.entry.stop) claim_of
        (F.seen files.old) (F.seen files.new) result }
    ensures ready { IfOk result (AreClaimed size) }
{
    let all = open_run_files(alloc, words, files)?;
    let crash = fetch_crash(alloc, &all.image, crash, files)?;
    let certificate = fetch_certificate(alloc, certificate, files)?;
    let setup = cut_off(all, words.stop, size)?;
    Ok(Claim {
        setup,
        crash,
        certificate,
    })
}

// How a call ends whose check says this.
fn status_of(said: Checked) -> Status
    ensures { result ≡ checked_status said }
{
    match said {
        Checked::Accepted => Status::Ok,
        Checked::Rejected { .. } => Status::No,
    }
}

// Puts what the check says.
fn put_checked(said: Checked, into: &mut Vec<u8>) -> Result<(), OutOfMemory>
    ensures { Puts result (checked_text said) into.old.items into.new.items }
{
    match said {
        Checked::Accepted => put_line(into, b"accepted", &[]),
        Checked::Rejected { line } => {
            let mut number = Buffer::new();
            put_line(into, b"rejected", &[number.format(line).as_bytes()])
        }
    }
}

fn checked_of(alloc: Global, claim: &Claim, run: &Run) -> Result<Made, OutOfMemory>
    requires persistent { run.now.machine.machine.program.sizes.persistent
        ≡ length claim.now.setup.files.image.persistent }
    requires crash { length claim.now.crash ≡ length claim.now.setup.files.image.persistent }
    ensures { IfOk result (TellsChecked claim.now run.now) }
{
    let initial = claim.setup.files.image.persistent();
    let crash = claim.crash.as_slice();
    let said = checked(
        alloc,
        run,
        claim.setup.mode(),
        initial,
        crash,
        &claim.certificate,
    )?;
    let mut text = Vec::new(alloc);
    put_checked(said, &mut text)?;
    Ok(Made {
        status: status_of(said),
        text,
    })
}

fn checked_on_bank(alloc: Global, claim: &Claim, bank: &mut ModuleBank) -> Result<Made, OutOfMemory>
    requires { AreClaimed (bank_seen holds bank.old).size claim.now }
    ensures { MakesOnBank (inputs_of claim.now.setup) (bank_seen holds bank.old) (bank_seen holds bank.new)
        (PutsChecked (claim_of claim.now)) result }
{
    match run_on_bank(alloc, &claim.setup, bank)? {
        Ran::Whole { run } => checked_of(alloc, claim, &run),
        Ran::Refused { made } => Ok(made),
    }
}

/// `check MACHINE IMAGE SCHEDULE STOP CRASH CERT`: whether a certificate of no is accepted, by the trace of a run.
pub fn check_claim<F: Files>(
    alloc: Global,
    words: RunWords<'_>,
    crash: &str,
    certificate: &str,
    files: &mut F,
    bank: &mut ModuleBank,
) -> Result<Made, OutOfMemory>
    ensures { Comes (check_rule_in words.entry crash.now certificate.now (bank_seen holds bank.old))
        (world (F.seen files.old) (bank_seen holds bank.old)) (world (F.seen files.new) (bank_seen holds bank.new)) result }
{
    match open_claim(alloc, words, crash, certificate, bank.words(), files) {
        Ok(claim) => checked_on_bank(alloc, &claim, bank),
        Err(fault) => refuse(alloc, fault),
    }
}
