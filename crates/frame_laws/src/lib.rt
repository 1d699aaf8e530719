//! The laws of the frame file: what its definitions say of each other, and the lemmas that its reader rests on; no running code.
#![tactic(auto)]

ghost use Rattle.frame_laws.specs.Laws.{ElseNothingWrong, NumbersAsWritten, RefusedAtFirst, WrittenIsAccepted, WrittenOnce};

/// A field is a number of 64 bits exactly if it is written as that number is; the refusal of a file is the first spot that is wrong, each
/// judged alone, and there is just one; what is written of a frame in range is accepted, and is written of no other frame in range.
pub fn frame_files_stand()
    ensures numbers_as_written { NumbersAsWritten }
    ensures refused_at_first { RefusedAtFirst }
    ensures else_nothing_wrong { ElseNothingWrong }
    ensures written_is_accepted { WrittenIsAccepted }
    ensures written_once { WrittenOnce }
{}
