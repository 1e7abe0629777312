//! Writes an example into a directory.
ghost use Rattle.std.specs.Prelude.{IfErr};
ghost use Rattle.small_day.specs.Stopping.{FromOutside};

use crate::stop::Stop;
use std::fs;

/// Writes the file `NAME.day` into a directory, and prints its path. A failed read or write or want of memory may stop it, never a
/// refusal or a wrong call.
pub fn write_example(
    rt: &HostRuntime,
    directory: &str,
    name: &str,
    bytes: &[u8],
) -> Result<(), Stop>
    ensures stops { IfErr result FromOutside }
{
    let path = format!(in rt.alloc(); "{directory}/{name}.day")?;
    fs::write(rt, path.as_str(), bytes)?;
    println!(rt; "{path}")?;
    Ok(())
}

#[cfg(test)]
mod tests {
    use super::*;
    use std::test::Fail;

    // The clause allows a file with other bytes, or none.
    #[test]
    fn the_file_has_the_bytes(rt: HostRuntime) -> Result<(), Fail> {
        let bytes = [0, 1, 2, 254, 255];
        write_example(&rt, ".", "five_bytes", bytes.as_slice())?;
        let read = fs::read(&rt, "five_bytes.day")?;
        fs::remove_file(&rt, "five_bytes.day")?;
        assert_eq!(rt; read.as_slice(), bytes.as_slice());
        Ok(())
    }
}
