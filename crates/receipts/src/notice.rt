// Notices: which lines give one, how long it is, and its bytes written into an output.
ghost use Rattle.std.specs.Prelude.{◌≡◌, ◌+◌, ◌^◌, ◌<◌, ◌≤◌, [], length};
ghost use Rattle.receipts.specs.Notices.{notice, told, gives_notice, notices};
ghost use Rattle.receipts.specs.Output.{Puts, written};

use crate::output::Output;
use itoa::Buffer;
use journal::line::Line;

// Three numbers, each with a byte behind it.
fn notice_length(line: &Line) -> usize
    ensures { (result ≡ length (notice line.now)) × (result ≤ 33) }
{
    let mut buffer = Buffer::new();
    buffer.format(line.a).len()
        + buffer.format(u32::from(line.kind)).len()
        + buffer.format(line.b).len()
        + 3
}

fn write_notice(line: &Line, out: &mut Output)
    requires { out.old.at + length (notice line.now) ≤ length out.old.bytes.now }
    ensures { Puts out.old (notice line.now) out.new }
{
    out.put_field(line.a, b' ');
    out.put_field(u32::from(line.kind), b' ');
    out.put_field(line.b, b'\n');
}

// Has one of the lines told of a record that it gives way?
fn is_told(aref: u32, lines: &[Line]) -> bool
    ensures { result ≡ told aref lines.now }
{
    lines
        .iter()
        .any(|line| line.kind.gives_way() && line.a == aref)
}

fn gives_notice(earlier: &[Line], line: &Line) -> bool
    ensures { result ≡ gives_notice earlier.now line.now }
{
    line.kind.gives_way() && !is_told(line.a, earlier)
}

// How many bytes the notices of lines take, counted before any is written.
pub(crate) fn notices_length(lines: &[Line]) -> usize
    requires { length lines.now < 2 ^ 32 }
    ensures { result ≡ length (notices [] lines.now) }
{
    let mut total = 0;
    for (i, line) in lines.iter().enumerate() {
        if gives_notice(&lines[..i], line) {
            total += notice_length(line);
        }
    }
    total
}

// Writes the notices of lines from the start of an output that holds them.
pub(crate) fn write_notices(lines: &[Line], out: &mut [u8])
    requires { length (notices [] lines.now) ≤ length out.old }
    ensures { out.new ≡ written 0 (notices [] lines.now) out.old }
{
    let mut out = Output::new(out);
    for (i, line) in lines.iter().enumerate() {
        if gives_notice(&lines[..i], line) {
            write_notice(line, &mut out);
        }
    }
}
