ghost use Rattle.std.specs.Prelude.{IfOk, string_bytes};
ghost use Rattle.frame_file.specs.Written.{Fits};
ghost use Rattle.response.specs.Failures.{IsPrinted, Prints};
ghost use Rattle.response.specs.Laws.{OneResponse, SomeResponse};
ghost use Rattle.response.specs.Responses.{PrintsFor, Responds};

use crate::designing::design_for;
use crate::failure::Failure;
use crate::sampling::sample_by;
use frame_file::fault::FileFault;
use frame_file::frame::Frame;
use reader::reading::read;
use sample_file::text::write_fault;
use std::alloc::{AllocError, Global};
use throws::source::Xorshift32;

// How many words of the generator a sample may take.
const WORDS: u32 = 65_536;

// The text of the frame's sample, by the frame's own design and seed.
fn sample_of(heap: Global, frame: &Frame) -> Result<String, Failure>
    requires { Fits frame.now }
    ensures { Prints (PrintsFor frame.now) result }
{
    let design = design_for(heap, frame)?;
    let source = Xorshift32::new(frame.header.seed, WORDS);
    sample_by(heap, design, source, frame)
}

// The text to print: that of a sample, or the line of the refusal.
fn printed(heap: Global, sampled: Result<String, Failure>) -> Result<String, AllocError>
    ensures { IfOk result (λ text. IsPrinted sampled (string_bytes text)) }
{
    match sampled {
        Ok(text) => Ok(text),
        Err(Failure::Refused(fault)) => {
            let mut line = String::new(heap);
            write_fault(&mut line, fault)?;
            Ok(line)
        }
        Err(Failure::OutOfMemory) => Err(AllocError),
    }
}

// What is printed for a frame.
fn respond_to(heap: Global, frame: &Frame) -> Result<String, AllocError>
    requires { Fits frame.now }
    ensures { IfOk result (λ text. PrintsFor frame.now (string_bytes text)) }
{
    let sampled = sample_of(heap, frame);
    printed(heap, sampled)
}

/// The response to a file with these bytes.
pub fn respond(heap: Global, input: &[u8]) -> Result<String, AllocError>
    ensures { IfOk result (λ text. Responds input.now (string_bytes text)) }
{
    match read(Frame::new(heap)?, input) {
        Ok(frame) => respond_to(heap, &frame),
        Err(fault) => printed(heap, Err(Failure::Refused(FileFault::from(fault)))),
    }
}

/// A file has no two responses, and every frame in range has one.
pub fn responses_stand()
    ensures one_response { OneResponse }
    ensures some_response { SomeResponse }
{}
