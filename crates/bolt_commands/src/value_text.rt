//! A value as text.
ghost use Rattle.std.specs.Prelude.{IfErr};
ghost use Rattle.bolt_format.specs.Wrote.{Wrote};
ghost use Rattle.bolt_text.specs.ReportEndings.{FailsByWritingJson, HaltsShort, report_ending};
ghost use Rattle.bolt_commands.specs.KeyAnswers.{value_shown};

use bolt_format::Sink;
use bolt_report::{Form, ReportFault, item, value};
use std::alloc::Global;

/// Writes a value, and a line feed unless none is wanted.
pub(crate) fn put_value<O: Sink>(
    alloc: Global,
    bytes: &[u8],
    form: Form,
    no_newline: bool,
    out: &mut O,
) -> Result<(), ReportFault>
    ensures written { Wrote O.Sink out.old out.new (value_shown form no_newline bytes.now)
        (report_ending result) }
    ensures short { HaltsShort O.Sink out.old out.new (value_shown form no_newline bytes.now)
        (report_ending result) }
    ensures fault { IfErr result (FailsByWritingJson form) }
{
    if no_newline {
        item(alloc, bytes, form, out)
    } else {
        value(alloc, bytes, form, out)
    }
}
