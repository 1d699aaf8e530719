ghost use Rattle.std.specs.Prelude.{OnOk};
ghost use Rattle.draw.specs.Serving.{Serves};

use reader::reading::MOST_BYTES;
use response::respond::respond;
use std::alloc::Global;
use std::io;
use std::io::{Read, Write};

// A byte more than a frame file may have: with so many it is refused, whatever follows.
const MOST_READ: u64 = MOST_BYTES as u64 + 1;

/// Reads a frame file to its end, and writes the response.
pub fn serve<R: Read + Drop, W: Write>(heap: Global, reader: R, writer: &mut W) -> io::Result<()>
    ensures { OnOk result (Serves (R.remaining reader) (W.contents writer.old) (W.contents writer.new)) }
{
    let mut input = Vec::new(heap);
    reader.take(MOST_READ).read_to_end(&mut input)?;
    let text = respond(heap, &input)?;
    writer.write_all(text.as_bytes())
}
