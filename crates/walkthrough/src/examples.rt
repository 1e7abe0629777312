//! Writes the small day and the damaged ones into a directory.
use crate::damage::DAMAGES;
use small_day::{BYTES, Stop, small_day, write_example, write_records};

pub fn write_examples(rt: &HostRuntime, directory: &str) -> Result<(), Stop> {
    let mut file = [0; BYTES];
    write_records(&small_day(), &mut file)?;
    write_example(rt, directory, "small", &file)?;
    for damage in DAMAGES {
        let mut copy = file;
        write_example(rt, directory, damage.name(), damage.apply(&mut copy))?;
    }
    Ok(())
}
