// The writer used from another crate: a datagram that acknowledges one number, and asks for no Ack itself.
ghost use Rattle.writer_examples.specs.Acknowledgements.{Acknowledges};

use writer::{Refusal, Writer};

pub fn acknowledge(out: &mut [u8], number: u32, of: u32) -> Result<usize, Refusal>
    ensures { Acknowledges out.old number of result out.new }
{
    let mut writer = Writer::over(out);
    writer.open(number, false)?;
    writer.add_ack(0, &[of])?;
    writer.close()
}
