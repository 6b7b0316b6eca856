ghost use Rattle.std.specs.Prelude.{◌≡◌, IfOk};
ghost use Rattle.strand_app.specs.Answers.{AnswersFault, refusal_status};

use crate::fetching::OpenFault;
use crate::status::{Made, Status};
use std::alloc::Global;
use strand_base::OutOfMemory;
use strand_report::{Refusal, write_file_fault, write_refusal};

// How a call ends that refuses what it was given: a limit is told apart.
fn status_of(refused: Refusal) -> Status
    ensures { result ≡ refusal_status refused }
{
    match refused {
        Refusal::Stop(_) => Status::StopPast,
        _ if refused.is_limit() => Status::Limit,
        _ => Status::Input,
    }
}

/// The answer where a command's files don't come or are refused.
pub fn refuse(alloc: Global, fault: OpenFault) -> Result<Made, OutOfMemory>
    ensures { IfOk result (AnswersFault fault) }
{
    let mut text = Vec::new(alloc);
    match fault {
        OpenFault::Fetch { file } => {
            write_file_fault(file, &mut text)?;
            Ok(Made {
                status: Status::FileFault,
                text,
            })
        }
        OpenFault::Refused(refused) => {
            write_refusal(refused, &mut text)?;
            Ok(Made {
                status: status_of(refused),
                text,
            })
        }
        OpenFault::OutOfMemory => Err(OutOfMemory),
    }
}
