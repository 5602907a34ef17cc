//! Texts in modified UTF-8 (JVMS 4.4.7).
ghost use Rattle.std.specs.Prelude.{◌≡◌, ◌++◌, ◌+◌, ◌≤◌, ◌*◌, OnOk};
ghost use Rattle.jc_class_out.specs.Texts.{unit_bytes, text_bytes};

use jc_rules::WantOfMemory;

fn put_unit(out: &mut Vec<u8>, unit: u16) -> Result<(), WantOfMemory>
    ensures { OnOk result (out.new.items ≡ out.old.items ++ unit_bytes unit) }
{
    if unit == 0 {
        out.push(0xC0)?;
        out.push(0x80)?;
    } else if unit < 0x80 {
        out.push(unit as u8)?;
    } else if unit < 0x800 {
        out.push(0xC0 + (unit / 64) as u8)?;
        out.push(0x80 + (unit % 64) as u8)?;
    } else {
        out.push(0xE0 + (unit / 4096) as u8)?;
        out.push(0x80 + (unit / 64 % 64) as u8)?;
        out.push(0x80 + (unit % 64) as u8)?;
    }
    Ok(())
}

/// The text in modified UTF-8 (JVMS 4.4.7).
pub fn put_units(out: &mut Vec<u8>, units: &[u16]) -> Result<(), WantOfMemory>
    ensures { OnOk result (out.new.items ≡ out.old.items ++ text_bytes units.now) }
{
    for unit in units {
        put_unit(out, *unit)?;
    }
    Ok(())
}
