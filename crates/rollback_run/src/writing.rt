// Texts with a number in them, written whole or up to where the writer fails.
ghost use Rattle.std.specs.Prelude.{◌++◌, decimal};
ghost use Rattle.operator_line.specs.Serving.{WritesReply};

use itoa::Buffer;
use operator_line::{ServeFault, write_all};
use std::io::Write;

/// Writes a number between two texts.
pub(crate) fn write_number<W: Write>(
    writer: &mut W,
    front: &[u8],
    number: usize,
    back: &[u8],
) -> Result<(), ServeFault>
    ensures { WritesReply result (front.now ++ (decimal number ++ back.now)) (W.contents writer.old) (W.contents writer.new) }
{
    let mut digits = Buffer::new();
    write_all(writer, front)?;
    write_all(writer, digits.format(number).as_bytes())?;
    write_all(writer, back)
}
