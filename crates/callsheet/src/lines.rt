// The lines of one record, and the line of a stop.
ghost use Rattle.std.specs.Prelude.{◌≡◌, ◌<◌, ◌∷◌, [], ◌++◌, IfOk, OnOk, Some, string_bytes};
ghost use Rattle.std.specs.Fmt.{WritesOnOk};
ghost use Rattle.datagram.specs.Views.{payloads_say};
ghost use Rattle.capture.specs.Views.{record_says};
ghost use Rattle.callsheet.specs.Laws.{RecordsMakeTheSheet};
ghost use Rattle.callsheet.specs.Text.{sender_text, front_text, payload_lines, fault_text, record_text, stop_text};

use capture::{Record, Stop};
use datagram::{Datagram, Fault, Payloads};
use itoa::{Buffer, Integer};
use std::alloc::{AllocError, Global};
use std::fmt;
use std::fmt::Write;

// What each sheet begins with.
pub(crate) const COLUMN_LINE: &str = "rec sec from num type call len\n";

// Adds the digits of a number and the sign behind it. A front and a fault are added by functions, and are no `Display` types: as
// such they took twice the time where datagrams are refused (docs/DESIGN-PASS.md). Inline, so that the sign is no value that has to
// be looked at.
#[inline(always)]
fn add_number<N: Integer>(text: &mut String, number: N, sign: char) -> Result<(), AllocError>
    requires { sign < 128 }
    ensures { OnOk result (string_bytes text.new ≡ string_bytes text.old ++ (N.text number ++ (sign ∷ []))) }
{
    text.push_str(Buffer::new().format(number))?;
    text.push(sign)
}

fn add_sender(text: &mut String, address: [u8; 4], port: u16) -> Result<(), AllocError>
    ensures { OnOk result (string_bytes text.new ≡ string_bytes text.old ++ sender_text address port) }
{
    let [a, b, c, d] = address;
    add_number(text, a, '.')?;
    add_number(text, b, '.')?;
    add_number(text, c, '.')?;
    add_number(text, d, ':')?;
    add_number(text, port, ' ')
}

// Adds what the lines of record `number` begin with.
fn add_front(text: &mut String, number: u32, record: &Record) -> Result<(), AllocError>
    ensures { OnOk result (string_bytes text.new ≡ string_bytes text.old ++ front_text number (record_says «record».now)) }
{
    add_number(text, number, ' ')?;
    add_number(text, record.seconds, ' ')?;
    add_sender(text, record.address, record.port)
}

fn add_fault(text: &mut String, fault: Fault) -> Result<(), AllocError>
    ensures { OnOk result (string_bytes text.new ≡ string_bytes text.old ++ fault_text fault) }
{
    text.push_str("fault ")?;
    add_number(text, fault.question.number(), ' ')?;
    add_number(text, fault.offset, '\n')
}

// A line for each payload of a datagram that is accepted, each with the same front.
#[derive(Clone, Copy)]
struct Lines<'f> {
    front: &'f str,
    payloads: Payloads<'f>,
}

impl fmt::Display for Lines<'_> {
    ghost output = { λ s. Some (payload_lines s.front.now (payloads_say s.payloads)) };

    fn fmt<W: fmt::Write>(&self, f: &mut fmt::Formatter<W>) -> fmt::Result {
        write_payloads(f, self.front, self.payloads)
    }
}

fn write_payloads<W: fmt::Write>(
    f: &mut fmt::Formatter<W>,
    front: &str,
    payloads: Payloads,
) -> fmt::Result
    ensures { WritesOnOk W.write_str_gives f.old result (payload_lines front.now (payloads_say payloads.entry)) f.new }
{
    for payload in payloads {
        let kind = payload.content.kind();
        let octets = payload.data.len();
        writeln!(f, "{front}{kind} {} {octets}", payload.crv)?;
    }
    Ok(())
}

// Adds the lines of record `number`: one for each payload of a datagram that is accepted, or one for the fault of one that is refused.
// The front of the lines is made once, in `front`, and what that held is lost.
pub(crate) fn add_lines(
    text: &mut String,
    front: &mut String,
    number: u32,
    record: &Record,
) -> Result<(), AllocError>
    ensures { OnOk result (string_bytes text.new ≡ string_bytes text.old ++ record_text number (record_says «record».now)) }
{
    front.clear();
    add_front(front, number, record)?;
    match Datagram::read(record.datagram) {
        Ok(datagram) => {
            add_number(front, datagram.number, ' ')?;
            let lines = Lines {
                front: front.as_str(),
                payloads: datagram.payloads,
            };
            write!(text, "{lines}")
        }
        Err(fault) => {
            text.push_str(front.as_str())?;
            add_fault(text, fault)
        }
    }
}

// The line that ends the sheet of a capture which cannot be read on.
#[derive(Clone, Copy)]
pub(crate) struct StopLine(pub(crate) Stop);

impl fmt::Display for StopLine {
    ghost output = { λ s. Some (stop_text s.0) };

    fn fmt<W: fmt::Write>(&self, f: &mut fmt::Formatter<W>) -> fmt::Result {
        writeln!(f, "stop {} {}", self.0.question.number(), self.0.record)
    }
}

// The lines of one record of a capture, which is its record `number`.
pub fn record_lines(heap: Global, number: u32, record: &Record) -> Result<String, AllocError>
    ensures lines { IfOk result (λ lines. string_bytes lines ≡ record_text number (record_says «record».now)) }
    ensures law { RecordsMakeTheSheet }
{
    let mut lines = String::new(heap);
    let mut front = String::new(heap);
    add_lines(&mut lines, &mut front, number, record)?;
    Ok(lines)
}

// The line that ends the sheet of a capture which cannot be read on.
pub fn stop_line(heap: Global, stop: Stop) -> Result<String, AllocError>
    ensures { IfOk result (λ line. string_bytes line ≡ stop_text stop) }
{
    StopLine(stop).to_string(heap)
}
