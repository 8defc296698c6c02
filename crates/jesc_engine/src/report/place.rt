ghost use Rattle.std.specs.Prelude.{◌≡◌, ◌++◌, OnOk};
ghost use Rattle.std.specs.Fmt.{decimal};
ghost use Rattle.jesc_engine.specs.Report.{place_text};

use crate::report::Source;
use jesc_text::{OutOfMemory, Text, put_number};

/// Appends a count in decimal.
pub(crate) fn put_count(into: &mut Text, n: usize) -> Result<(), OutOfMemory>
    ensures { OnOk result (into.new ≡ into.old ++ decimal n) }
{
    put_number(into, n as i128)
}

/// Appends `FILE:LINE:COL` for an offset of the file.
pub(crate) fn put_place(into: &mut Text, source: &Source, offset: u32) -> Result<(), OutOfMemory>
    ensures { OnOk result (into.new ≡ into.old ++ place_text source.now.name.now source.now.bytes.now offset) }
{
    let (line, column) = source.place(offset);
    into.append(source.name.as_bytes())?;
    into.append(b":")?;
    put_count(into, line as usize)?;
    into.append(b":")?;
    put_count(into, column as usize)?;
    Ok(())
}
