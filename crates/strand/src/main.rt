//! The program `strand`: its one call, over the system's files, standard output and a bank of memory modules.
//! Its commands and statuses are in docs/program.md.
#![tactic(auto)]

use std::env;
use std::io::ErrorKind;
use std::process::ExitCode;
use strand_app::strand_main;
use strand_base::{HostFiles, HostSink, MOST_DATA, PmModule};
use strand_modules::{MOST_MODULES, ModuleBank, RamModule};

/// The words of each memory module: together as many as an image can have persistent words.
const MODULE_WORDS: u64 = MOST_DATA as u64 / MOST_MODULES as u64;
/// The exit status where there is no memory for the arguments or the modules.
const NO_MEMORY: u8 = 7;
/// The exit status where the arguments can't be had for another cause: one of them is not UTF-8.
const NO_ARGUMENTS: u8 = 10;

fn main(rt: HostRuntime) -> ExitCode {
    let alloc = rt.alloc();
    let args = match env::args(&rt) {
        Ok(args) => args,
        Err(error) if error.kind() == ErrorKind::OutOfMemory => return ExitCode::from(NO_MEMORY),
        Err(_) => return ExitCode::from(NO_ARGUMENTS),
    };
    let Ok(words) = args.skip(1).collect::<Vec<String>>(alloc) else {
        return ExitCode::from(NO_MEMORY);
    };
    let mut modules: Vec<Box<dyn PmModule>> = Vec::new(alloc);
    for _ in 0..MOST_MODULES {
        let Ok(module) = RamModule::new(alloc, MODULE_WORDS) else {
            return ExitCode::from(NO_MEMORY);
        };
        let Ok(part) = Box::new(alloc, module) else {
            return ExitCode::from(NO_MEMORY);
        };
        let part: Box<dyn PmModule> = part;
        if modules.push(part).is_err() {
            return ExitCode::from(NO_MEMORY);
        }
    }
    let Ok(mut bank) = ModuleBank::new(alloc, modules) else {
        return ExitCode::from(NO_MEMORY);
    };
    let mut files = HostFiles::new(&rt);
    let mut out = HostSink::new(&rt);
    let status = strand_main(alloc, &words, &mut files, &mut out, &mut bank);
    ExitCode::from(status.code())
}
