ghost use Rattle.std.specs.Prelude.{◌≡◌, []};
ghost use Rattle.hl_line.specs.Lines.{spelling};

use crate::line::Line;
use crate::steps::write_step;
use crate::text::append;
use arrayvec::ArrayString;

/// The one spelling of a line, without an LF.
pub fn print_line(line: &Line) -> ArrayString<80>
    ensures { result.bytes ≡ spelling line.now }
{
    let mut text = ArrayString::new();
    write_line(&mut text, line);
    text
}

/// Writes the spelling of a line on an empty row.
#[inline]
#[tactic(auto, using(crate::proofs::Texts::word_length, crate::proofs::Texts::config_length))]
pub(crate) fn write_line(text: &mut ArrayString<80>, line: &Line)
    requires { text.old.bytes ≡ [] }
    ensures { text.new.bytes ≡ spelling line.now }
{
    match *line {
        Line::Config(sizes) => append(
            text,
            "config",
            &[
                sizes.page_size(),
                sizes.frames(),
                sizes.slots(),
                sizes.drain(),
            ],
        ),
        Line::Step(step) => write_step(text, step),
        Line::Status => append(text, "status", &[]),
        Line::Pending => append(text, "pending", &[]),
        Line::Frames => append(text, "frames", &[]),
    }
}
