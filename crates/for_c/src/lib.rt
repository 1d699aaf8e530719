//! The library for programs in C or Rust that link it: the program's whole call; and in `timing` calls that are repeated, so that they can
//! be timed.
#![tactic(auto)]

ghost use Rattle.std.specs.Prelude.{◌≡◌, ◌<◌};
ghost use Rattle.for_c.specs.Memory.{HasResponse, Puts};

use response::respond::respond;
use std::alloc::Global;

mod repeated;
mod timing;

// Puts bytes at the beginning of a memory, where there is room for them.
fn put(bytes: &[u8], memory: &mut [u8])
    ensures { Puts bytes.now memory.old memory.new }
{
    if bytes.len() <= memory.len() {
        memory[..bytes.len()].copy_from_slice(bytes);
    }
}

/// Puts what the program prints for the bytes of a frame file into the caller's memory, where there is room for it, and answers how many
/// bytes it has; 0 where memory is wanting. For C:
/// `size_t juntzero_respond(const uint8_t *input, size_t input_len, uint8_t *output, size_t output_len);`
#[unsafe(no_mangle)]
pub extern "C" fn juntzero_respond(alloc: Global, input: &[u8], output: &mut [u8]) -> usize
    ensures response { 0 < result → HasResponse input.now result output.old output.new }
    ensures else_kept { result ≡ 0 → output.new ≡ output.old }
{
    let Ok(text) = respond(alloc, input) else {
        return 0;
    };
    put(text.as_bytes(), output);
    text.len()
}
