ghost use Rattle.std.specs.Prelude.{◌≡◌, map, string_bytes};
ghost use Rattle.std.specs.Option.{is_some, option_map};
ghost use Rattle.strand_app.specs.Command.{generations, other_command, pairs_of};
ghost use Rattle.strand_app.specs.Command.{one_file, two_numbers, three_files, four_files, five_files};
ghost use Rattle.strand_app.specs.CommandView.{command_asked, view};
ghost use Rattle.strand_inputs.specs.Machine.{decimal_in};

use crate::again_words::{AgainWords, MOST_GENERATIONS};
use strand_base::read_decimal;
use strand_inputs::{Stop, read_stop};

/// What the program is to do; files are given by their names.
#[derive(Clone, Copy)]
pub enum Command<'a> {
    /// `asm TEXT`: the image of an assembler text.
    Asm {
        text: &'a str,
    },
    /// `list IMAGE`: the listing of an image.
    List {
        image: &'a str,
    },
    /// `upgrade IMAGE`: the image in version 2.
    Upgrade {
        image: &'a str,
    },
    /// `run MACHINE IMAGE SCHEDULE STOP`: the report of a run.
    Run {
        words: RunWords<'a>,
    },
    /// `judge MACHINE IMAGE SCHEDULE STOP CRASH`: the verdict on a crash image.
    Judge {
        words: RunWords<'a>,
        crash: &'a str,
    },
    /// `refute MACHINE IMAGE SCHEDULE STOP CRASH`: a certificate of no on a crash image.
    Refute {
        words: RunWords<'a>,
        crash: &'a str,
    },
    /// `check MACHINE IMAGE SCHEDULE STOP CRASH CERT`: whether such a certificate is accepted.
    Check {
        words: RunWords<'a>,
        crash: &'a str,
        certificate: &'a str,
    },
    /// `trace MACHINE IMAGE SCHEDULE STOP`: the events of a run, and the edges of their graph.
    Trace {
        words: RunWords<'a>,
    },
    /// `again MACHINE IMAGE SCHEDULE STOP..`: generations of crashes.
    Again {
        words: AgainWords<'a>,
    },
    /// `gen SEED SIZE`: the summary of a generated run.
    Gen {
        seed: u64,
        size: u64,
    },
    /// `gen-image SEED SIZE`: its image.
    GenImage {
        seed: u64,
        size: u64,
    },
    /// `gen-schedule SEED SIZE`: its schedule.
    GenSchedule {
        seed: u64,
        size: u64,
    },
}

/// The files of a run, and where it is cut off.
#[derive(Clone, Copy)]
pub struct RunWords<'a> {
    pub machine: &'a str,
    pub image: &'a str,
    pub schedule: &'a str,
    pub stop: Stop,
}

// Each second word is a stop, and there are as many of them as of the others.
fn are_pairs(mut words: &[String]) -> bool
    ensures { result ≡ is_some (pairs_of (map string_bytes words.entry.now)) }
{
    while let [_, stop, rest @ ..] = words {
        if read_stop(stop.as_str()).is_none() {
            return false;
        }
        words = rest;
    }
    words.is_empty()
}

// A command of generations.
fn generations(words: &[String]) -> Option<Command<'_>>
    ensures { option_map view result ≡ generations (map string_bytes words.now) }
{
    let [machine, image, pairs @ ..] = words else {
        return None;
    };
    if pairs.len() < 2 {
        return None;
    }
    if pairs.len() > 2 * MOST_GENERATIONS {
        return None;
    }
    if !are_pairs(pairs) {
        return None;
    }
    let words = AgainWords {
        machine: machine.as_str(),
        image: image.as_str(),
        pairs,
    };
    Some(Command::Again { words })
}

// A command of one file.
fn one_file<'a>(word: &str, file: &'a str) -> Option<Command<'a>>
    ensures { option_map view result ≡ one_file word.now file.now }
{
    if word == "asm" {
        Some(Command::Asm { text: file })
    } else if word == "list" {
        Some(Command::List { image: file })
    } else if word == "upgrade" {
        Some(Command::Upgrade { image: file })
    } else {
        None
    }
}

// A command of a seed and a size.
fn two_numbers<'a>(word: &str, seed: u64, size: u64) -> Option<Command<'a>>
    ensures { option_map view result ≡ two_numbers word.now seed size }
{
    if word == "gen" {
        Some(Command::Gen { seed, size })
    } else if word == "gen-image" {
        Some(Command::GenImage { seed, size })
    } else if word == "gen-schedule" {
        Some(Command::GenSchedule { seed, size })
    } else {
        None
    }
}

fn number(word: &str) -> Option<u64>
    ensures { result ≡ decimal_in word.now }
{
    read_decimal(word.as_bytes()).ok()
}

// A command of a machine file, an image and a schedule.
fn three_files<'a>(
    word: &str,
    machine: &'a str,
    image: &'a str,
    schedule: &'a str,
    stop: Stop,
) -> Option<Command<'a>>
    ensures { option_map view result
        ≡ three_files word.now machine.now image.now schedule.now stop }
{
    let words = RunWords {
        machine,
        image,
        schedule,
        stop,
    };
    if word == "run" {
        Some(Command::Run { words })
    } else if word == "trace" {
        Some(Command::Trace { words })
    } else {
        None
    }
}

// A command of these and a crash image.
fn four_files<'a>(
    word: &str,
    machine: &'a str,
    image: &'a str,
    schedule: &'a str,
    stop: Stop,
    crash: &'a str,
) -> Option<Command<'a>>
    ensures { option_map view result
        ≡ four_files word.now machine.now image.now schedule.now crash.now stop }
{
    let words = RunWords {
        machine,
        image,
        schedule,
        stop,
    };
    if word == "judge" {
        Some(Command::Judge { words, crash })
    } else if word == "refute" {
        Some(Command::Refute { words, crash })
    } else {
        None
    }
}

// A command of these and a certificate.
fn five_files<'a>(
    word: &str,
    words: RunWords<'a>,
    crash: &'a str,
    certificate: &'a str,
) -> Option<Command<'a>>
    ensures { option_map view result
        ≡ five_files word.now words.entry.machine.now words.entry.image.now
        words.entry.schedule.now crash.now certificate.now words.entry.stop }
{
    if word == "check" {
        Some(Command::Check {
            words,
            crash,
            certificate,
        })
    } else {
        None
    }
}

// Any other command.
fn other_command(words: &[String]) -> Option<Command<'_>>
    ensures { option_map view result ≡ other_command (map string_bytes words.now) }
{
    match words {
        [word, file] => one_file(word.as_str(), file.as_str()),
        [word, seed, size] => {
            let seed = number(seed.as_str())?;
            let size = number(size.as_str())?;
            two_numbers(word.as_str(), seed, size)
        }
        [word, machine, image, schedule, stop] => {
            let stop = read_stop(stop.as_str())?;
            three_files(
                word.as_str(),
                machine.as_str(),
                image.as_str(),
                schedule.as_str(),
                stop,
            )
        }
        [word, machine, image, schedule, stop, crash] => {
            let stop = read_stop(stop.as_str())?;
            four_files(
                word.as_str(),
                machine.as_str(),
                image.as_str(),
                schedule.as_str(),
                stop,
                crash.as_str(),
            )
        }
        [word, machine, image, schedule, stop, crash, certificate] => {
            let words = RunWords {
                machine: machine.as_str(),
                image: image.as_str(),
                schedule: schedule.as_str(),
                stop: read_stop(stop.as_str())?,
            };
            five_files(word.as_str(), words, crash.as_str(), certificate.as_str())
        }
        _ => None,
    }
}

/// The command that the words are. It takes no memory.
pub fn read_command(words: &[String]) -> Option<Command<'_>>
    ensures { option_map view result ≡ command_asked words.now }
{
    match words {
        [word, rest @ ..] if word.as_str() == "again" => generations(rest),
        _ => other_command(words),
    }
}
